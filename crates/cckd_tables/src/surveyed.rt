//! The survey of an image.
ghost use Rattle.std.specs.Prelude.{◌≡◌, ◌≤◌, length, IfOk};
ghost use Rattle.cckd_shelf.specs.Seen.{seen, IsLength};
ghost use Rattle.cckd_base.specs.Geometry.{area_of, IsLayout};
ghost use Rattle.cckd_tables.specs.Inside.{Answers, IsUnderWay, IsHeaded, HasTakenIn};
ghost use Rattle.cckd_tables.specs.Scan.{IsSurveyed, IsScanned, AreSpaces, OnlyReads, OnlyScans};

use crate::progress::{Progress, Until};
use crate::read::{read_words, take_all_tracks};
use cckd_base::{Extent, Layout, Misfit, ScanFault};
use cckd_shelf::{Slot, Stage};
use std::alloc::Global;

/// What a survey found.
#[derive(Drop)]
pub struct Surveyed {
    /// The spaces in use, in order of position: the header area, the level-two tables that were kept, and
    /// the stored bytes of the tracks that were kept.
    pub kept: Vec<Extent>,
    /// In the order of the survey: the tables in the order of their groups, then the entries of kept tables
    /// in the order of their tracks.
    pub misfits: Vec<Misfit>,
}

/// Why a survey found nothing.
#[derive(Clone, Copy, Debug, PartialEq, Eq)]
pub enum SurveyFault {
    /// A call that reads failed.
    ReadFault,
    /// Memory was wanted.
    Memory,
}

/// Takes the tables of an image of `len` bytes, and then the tracks of those that were kept, as far as the
/// survey goes.
fn take_all<T: Stage>(
    alloc: Global,
    stage: &mut T,
    slot: Slot,
    l: &Layout,
    len: u32,
    until: Until,
) -> Result<Progress, SurveyFault>
    requires layout { IsLayout l.now }
    requires area { area_of l.now.groups ≤ len }
    requires length { IsLength slot len (seen T.Shows stage.old) }
    ensures taken { IfOk result (HasTakenIn l.now until slot (seen T.Shows stage.old)) }
    ensures under_way { IfOk result (IsUnderWay len) }
    ensures headed { IfOk result (λ taken. IsHeaded l.now.groups taken.spaces.items) }
    ensures reads { OnlyReads result (seen T.Shows stage.old) (seen T.Shows stage.new) }
{
    let words = read_words(alloc, stage, slot, l, len)?;
    let Ok(mut survey) = Progress::new(alloc, l, len) else {
        return Err(SurveyFault::Memory);
    };
    let Ok(()) = survey.take_words(l, len, words.as_slice()) else {
        return Err(SurveyFault::Memory);
    };
    if survey.is_done(until) {
        return Ok(survey);
    }
    let Ok(tables) = Vec::from_slice(alloc, survey.spaces.as_slice()) else {
        return Err(SurveyFault::Memory);
    };
    take_all_tracks(stage, slot, l, len, tables.as_slice(), until, &mut survey)?;
    Ok(survey)
}

/// The survey of an image of `len` bytes.
pub fn survey<T: Stage>(
    alloc: Global,
    stage: &mut T,
    slot: Slot,
    l: &Layout,
    len: u32,
) -> Result<Surveyed, SurveyFault>
    requires layout { IsLayout l.now }
    requires area { area_of l.now.groups ≤ len }
    requires length { IsLength slot len (seen T.Shows stage.old) }
    ensures survey { IfOk result (IsSurveyed l.now slot (seen T.Shows stage.old)) }

    // Also where it isn't told what the file holds.
    ensures spaces { IfOk result (λ found. AreSpaces l.now.groups len found.kept.items) }
    ensures reads { OnlyReads result (seen T.Shows stage.old) (seen T.Shows stage.new) }
{
    let survey = take_all(alloc, stage, slot, l, len, Until::End)?;
    let (kept, misfits) = survey.finish(len);
    Ok(Surveyed { kept, misfits })
}

/// The kept spaces in order of position, or the first misfit.
fn answer(survey: Progress, len: u32) -> Result<Vec<Extent>, ScanFault>
    requires { IsUnderWay len survey }
    ensures { Answers survey result }
{
    if let Some(misfit) = survey.misfits.first() {
        return Err(ScanFault::Misfit(*misfit));
    }
    let (kept, _) = survey.finish(len);
    Ok(kept)
}

/// The spaces of an image of `len` bytes that are in use, in order of position, or the first misfit in the
/// order of the survey.
pub fn scan<T: Stage>(
    alloc: Global,
    stage: &mut T,
    slot: Slot,
    l: &Layout,
    len: u32,
) -> Result<Vec<Extent>, ScanFault>
    requires layout { IsLayout l.now }
    requires area { area_of l.now.groups ≤ len }
    requires length { IsLength slot len (seen T.Shows stage.old) }
    ensures survey { IsScanned l.now slot (seen T.Shows stage.old) result }

    // Also where it isn't told what the file holds.
    ensures spaces { IfOk result (λ spaces. AreSpaces l.now.groups len spaces.items) }
    ensures reads { OnlyScans result (seen T.Shows stage.old) (seen T.Shows stage.new) }
{
    match take_all(alloc, stage, slot, l, len, Until::FirstMisfit) {
        Ok(survey) => answer(survey, len),
        Err(SurveyFault::ReadFault) => Err(ScanFault::ReadFault),
        Err(SurveyFault::Memory) => Err(ScanFault::Memory),
    }
}
