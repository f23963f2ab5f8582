//! The cached tables: a table as it stands in the file of a slot, read once.
ghost use Rattle.std.specs.Prelude.{◌≡◌, ◌+◌, ◌*◌, ◌/◌, ◌%◌, ◌<◌, ◌≤◌, length, IfOk, IfSome, IsOk, OnOk, OnErr, IsNone, option_map, unwrap_or, []};
ghost use Rattle.cckd_base.specs.Numbers.{bytes_at};
ghost use Rattle.cckd_base.specs.Entry.{entry_of};
ghost use Rattle.cckd_shelf.specs.Seen.{seen, HasBytes, IsPart, Called};
ghost use Rattle.cckd_frames.specs.Frames.{entry_in, IsUsed};
ghost use Rattle.cckd_tables.specs.Device.{OnlyLooks};
ghost use Rattle.cckd_tables.specs.Cached.{IsCache, IsCached, UsesTable, table_of, tables_in};

use crate::device::Device;
use cckd_base::{GROUP_TRACKS, L2Entry, Order, TABLE_LEN, Track, part};
use cckd_frames::{Frame, Frames};
use cckd_shelf::{Slot, Stage};

/// The table at a position of the file of a slot.
pub(crate) fn read_table<T: Stage>(
    stage: &mut T,
    slot: Slot,
    pos: u32,
    table: &mut [u8],
) -> Result<(), Device>
    requires length { length table.old ≡ 2048 }
    requires within { HasBytes slot (pos + 2048) (seen T.Shows stage.old) }
    ensures bytes { OnOk result (IsPart slot pos 2048 table.new (seen T.Shows stage.old)) }
    ensures length { length table.new ≡ 2048 }
    ensures looks { OnlyLooks result (seen T.Shows stage.old) (seen T.Shows stage.new) }
    ensures called { Called (seen T.Shows stage.old) (seen T.Shows stage.new) }
{
    let Ok(()) = stage.read(slot, u64::from(pos), table) else {
        return Err(Device::Read);
    };
    Ok(())
}

/// The frame of a group's table, which is read from its position where it isn't cached.
pub(crate) fn load_table<T: Stage>(
    cache: &mut Frames,
    stage: &mut T,
    slot: Slot,
    group: u32,
    pos: u32,
) -> Result<Frame, Device>
    requires cache { IsCache cache.old }
    requires within { HasBytes slot (pos + 2048) (seen T.Shows stage.old) }
    ensures cache { IsCache cache.new }
    ensures frame { IfOk result (λ f. IsUsed f.0 cache.new.entries) }
    ensures table { IfOk result (λ f. option_map (λ e. e.body) (entry_in f.0 cache.new.entries) ≡ table_of group (tables_in cache.new.entries)) }
    ensures used { OnOk result (UsesTable group (tables_in cache.old.entries) (tables_in cache.new.entries)) }
    ensures read { IsNone (table_of group (tables_in cache.old.entries)) → OnOk result
        (IsPart slot pos 2048 (unwrap_or (table_of group (tables_in cache.new.entries)) []) (seen T.Shows stage.old)) }
    ensures same { OnErr result (cache.new ≡ cache.old) }

    // A cached table is not read.
    ensures quiet { IsCached group (tables_in cache.old.entries) → IsOk result × (seen T.Shows stage.new ≡ seen T.Shows stage.old) }
    ensures looks { OnlyLooks result (seen T.Shows stage.old) (seen T.Shows stage.new) }
    ensures called { Called (seen T.Shows stage.old) (seen T.Shows stage.new) }
{
    match cache.find(group) {
        Some(frame) => Ok(frame),
        None => {
            let mut table = [0; TABLE_LEN as usize];
            read_table(stage, slot, pos, &mut table)?;
            Ok(cache.put(group, &table))
        }
    }
}

/// The entry of a track in its group's table.
fn entry_in(table: &[u8], order: Order, t: Track) -> L2Entry
    requires { length table.now ≡ 2048 }
    ensures { result ≡ entry_of order (bytes_at table.now (8 * (t.0 % 256)) 8) }
{
    let at = 8 * (t.0 % GROUP_TRACKS) as usize;
    L2Entry::decode(order, part(table, at))
}

/// The entry of a track in the table of its group, which is read from its position where it isn't cached.
pub(crate) fn table_entry<T: Stage>(
    cache: &mut Frames,
    stage: &mut T,
    slot: Slot,
    order: Order,
    t: Track,
    pos: u32,
) -> Result<L2Entry, Device>
    requires cache { IsCache cache.old }
    requires within { HasBytes slot (pos + 2048) (seen T.Shows stage.old) }
    ensures cache { IsCache cache.new }
    ensures entry { IfOk result (λ e. e ≡ entry_of order (bytes_at (unwrap_or (table_of (t.0 / 256) (tables_in cache.new.entries)) []) (8 * (t.0 % 256)) 8)) }
    ensures used { OnOk result (UsesTable (t.0 / 256) (tables_in cache.old.entries) (tables_in cache.new.entries)) }
    ensures read { IsNone (table_of (t.0 / 256) (tables_in cache.old.entries)) → OnOk result
        (IsPart slot pos 2048 (unwrap_or (table_of (t.0 / 256) (tables_in cache.new.entries)) []) (seen T.Shows stage.old)) }
    ensures same { OnErr result (cache.new ≡ cache.old) }

    // A cached table is not read.
    ensures quiet { IsCached (t.0 / 256) (tables_in cache.old.entries) → IsOk result × (seen T.Shows stage.new ≡ seen T.Shows stage.old) }
    ensures looks { OnlyLooks result (seen T.Shows stage.old) (seen T.Shows stage.new) }
    ensures called { Called (seen T.Shows stage.old) (seen T.Shows stage.new) }
{
    let frame = load_table(cache, stage, slot, t.0 / GROUP_TRACKS, pos)?;
    Ok(entry_in(cache.bytes(frame), order, t))
}
