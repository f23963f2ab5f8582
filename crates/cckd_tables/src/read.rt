//! The reads of a survey.
ghost use Rattle.std.specs.Prelude.{◌≡◌, ◌+◌, ◌*◌, ◌≤◌, length, IfOk, OnOk};
ghost use Rattle.std.specs.List.{flat_map};
ghost use Rattle.cckd_shelf.specs.Seen.{seen, Tells, Stays, HasBytes, IsLength, IsPart};
ghost use Rattle.cckd_shelf.specs.World.{IsSure, file_of};
ghost use Rattle.cckd_base.specs.Geometry.{area_of, IsLayout};
ghost use Rattle.cckd_base.specs.Survey.{entry_items_in};
ghost use Rattle.cckd_tables.specs.Scan.{OnlyReads};
ghost use Rattle.cckd_tables.specs.Inside.{IsFormed, IsTableSpace, AreFormed, AreTableSpaces, IsUnderWay, Takes, TakesFront, TakesSome};

use crate::progress::{Progress, Until};
use crate::surveyed::SurveyFault;
use cckd_base::{Extent, Layout, Owner, TABLE_LEN, WORDS_AT};
use cckd_shelf::{Slot, Stage};
use std::alloc::Global;

/// Fills `into` with the file's bytes from `pos` on.
fn read_at<T: Stage>(
    stage: &mut T,
    slot: Slot,
    pos: u32,
    into: &mut [u8],
) -> Result<(), SurveyFault>
    requires { HasBytes slot (pos + length into.old) (seen T.Shows stage.old) }
    ensures bytes { OnOk result (IsPart slot pos (length into.old) into.new (seen T.Shows stage.old)) }
    ensures reads { OnlyReads result (seen T.Shows stage.old) (seen T.Shows stage.new) }
{
    let Ok(()) = stage.read(slot, u64::from(pos), into) else {
        return Err(SurveyFault::ReadFault);
    };
    Ok(())
}

/// The bytes of the level-one table.
pub(crate) fn read_words<T: Stage>(
    alloc: Global,
    stage: &mut T,
    slot: Slot,
    l: &Layout,
    len: u32,
) -> Result<Vec<u8>, SurveyFault>
    requires area { area_of l.now.groups ≤ len }
    requires length { IsLength slot len (seen T.Shows stage.old) }
    ensures words { IfOk result (λ words. IsPart slot 1024 (4 * l.now.groups) words.items (seen T.Shows stage.old)) }
    ensures len { IfOk result (λ words. length words.items ≡ 4 * l.now.groups) }
    ensures reads { OnlyReads result (seen T.Shows stage.old) (seen T.Shows stage.new) }
{
    let Ok(mut words) = vec![in alloc; 0; 4 * l.groups as usize] else {
        return Err(SurveyFault::Memory);
    };
    read_at(stage, slot, WORDS_AT, words.as_mut_slice())?;
    Ok(words)
}

/// Takes the tracks that the entries of a table name.
fn take_tracks<T: Stage>(
    stage: &mut T,
    slot: Slot,
    l: &Layout,
    len: u32,
    table: &Extent,
    survey: &mut Progress,
) -> Result<(), SurveyFault>
    requires under_way { IsUnderWay len survey.old }
    requires layout { IsLayout l.now }
    requires formed { IsFormed len table.now }
    requires table { IsTableSpace l.now.groups table.now.size table.now.owner }
    requires length { IsLength slot len (seen T.Shows stage.old) }
    ensures takes { Tells (seen T.Shows stage.old) → IsSure (seen T.Shows stage.old).world → OnOk result
        (Takes len (entry_items_in l.now (file_of (seen T.Shows stage.old).world slot) table.now) survey.old survey.new) }
    ensures some { OnOk result (TakesSome len survey.old survey.new) }
    ensures reads { OnlyReads result (seen T.Shows stage.old) (seen T.Shows stage.new) }
{
    let Owner::Table(group) = table.owner else {
        return Ok(());
    };
    let mut bytes = [0; TABLE_LEN as usize];
    read_at(stage, slot, table.pos, &mut bytes)?;
    let Ok(()) = survey.take_table(l, len, group, &bytes) else {
        return Err(SurveyFault::Memory);
    };
    Ok(())
}

/// Takes the tracks that the entries of these tables name.
pub(crate) fn take_all_tracks<T: Stage>(
    stage: &mut T,
    slot: Slot,
    l: &Layout,
    len: u32,
    tables: &[Extent],
    until: Until,
    survey: &mut Progress,
) -> Result<(), SurveyFault>
    requires under_way { IsUnderWay len survey.old }
    requires layout { IsLayout l.now }
    requires formed { AreFormed len tables.now }
    requires tables { AreTableSpaces l.now.groups tables.now }
    requires length { IsLength slot len (seen T.Shows stage.old) }
    ensures takes { Tells (seen T.Shows stage.old) → IsSure (seen T.Shows stage.old).world → OnOk result (TakesFront len until
        (flat_map (entry_items_in l.now (file_of (seen T.Shows stage.old).world slot)) tables.now) survey.old survey.new) }
    ensures some { OnOk result (TakesSome len survey.old survey.new) }
    ensures reads { OnlyReads result (seen T.Shows stage.old) (seen T.Shows stage.new) }
{
    for table in tables {
        if survey.is_done(until) {
            return Ok(());
        }
        take_tracks(stage, slot, l, len, table, survey)?;
    }
    Ok(())
}
