//! What one word or one entry names: a space, or neither, or a misfit by itself.
ghost use Rattle.std.specs.Prelude.{◌≡◌, ◌≤◌, if◌then◌else◌, Ok, Err, None};
ghost use Rattle.cckd_base.specs.declared.misfit.Misfit.TheVariants.{ParentInBase};
ghost use Rattle.cckd_base.specs.Misfit.{is_misplaced, is_missized};
ghost use Rattle.cckd_base.specs.Geometry.{area_of};
ghost use Rattle.cckd_base.specs.Survey.{header_space, table_item, entry_item};

use cckd_base::{Extent, L2Entry, Layout, Misfit, Owner, SEE_PARENT, TABLE_LEN};

/// The greatest length of stored bytes.
const STORED_MAX: u16 = 65528;

/// Whether a space begins in the header area or passes the end of the file.
fn is_misplaced(l: &Layout, file_len: u32, pos: u32, len: u32) -> bool
    ensures { result ≡ is_misplaced l.now file_len pos len }
{
    u64::from(pos) < l.area() || u64::from(file_len) < u64::from(pos) + u64::from(len)
}

/// Whether stored bytes have a length that their space and a table's fields can't hold.
fn is_missized(entry: L2Entry) -> bool
    ensures { result ≡ is_missized entry }
{
    entry.len == 0 || STORED_MAX < entry.len || entry.size < entry.len
}

/// What sends to the file below has no space in a shadow, and is a misfit in a base.
fn parent_item(l: &Layout, owner: Owner) -> Result<Option<Extent>, Misfit>
    ensures { result ≡ (if l.now.shadow then Ok None else Err (ParentInBase owner)) }
{
    if l.shadow {
        return Ok(None);
    }
    Err(Misfit::ParentInBase { owner })
}

/// The headers and the level-one table.
pub(crate) fn header_space(l: &Layout, len: u32) -> Extent
    requires { area_of l.now.groups ≤ len }
    ensures { result ≡ header_space l.now.groups }
{
    let area = l.area() as u32;
    Extent {
        pos: 0,
        len: area,
        size: area,
        owner: Owner::Header,
    }
}

/// The space of a group's table.
pub(crate) fn table_item(
    l: &Layout,
    file_len: u32,
    group: u32,
    word: u32,
) -> Result<Option<Extent>, Misfit>
    ensures { result ≡ table_item l.now file_len group word }
{
    let owner = Owner::Table(group);
    if word == 0 {
        return Ok(None);
    }
    if word == SEE_PARENT {
        return parent_item(l, owner);
    }
    if is_misplaced(l, file_len, word, TABLE_LEN) {
        return Err(Misfit::BadTable { group, pos: word });
    }
    Ok(Some(Extent {
        pos: word,
        len: TABLE_LEN,
        size: TABLE_LEN,
        owner,
    }))
}

/// The space of a track's stored bytes, as far as the file reaches.
pub(crate) fn entry_item(
    l: &Layout,
    file_len: u32,
    track: u32,
    entry: L2Entry,
) -> Result<Option<Extent>, Misfit>
    ensures { result ≡ entry_item l.now file_len track entry }
{
    let owner = Owner::Track(track);
    if entry.is_null() {
        return match entry.null_format(&l.geo) {
            Some(_) => Ok(None),
            None => Err(Misfit::BadEntry { track, entry }),
        };
    }
    if entry.is_parent() {
        return parent_item(l, owner);
    }
    let len = u32::from(entry.len);
    if is_misplaced(l, file_len, entry.pos, len) || is_missized(entry) {
        return Err(Misfit::BadEntry { track, entry });
    }
    Ok(Some(Extent {
        pos: entry.pos,
        len,
        size: u32::from(entry.size).min(file_len - entry.pos),
        owner,
    }))
}
