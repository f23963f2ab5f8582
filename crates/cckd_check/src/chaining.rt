//! The chain of free spaces, followed from the headers on.
ghost use Rattle.std.specs.Prelude.{◌≡◌, ◌+◌, ◌<◌, ◌≤◌, length, IfOk, IfErr, OnSome, IsTrue, ◌↔◌};
ghost use Rattle.cckd_shelf.specs.Seen.{seen, IsLength};
ghost use Rattle.std.specs.Int.{w32};
ghost use Rattle.cckd_base.specs.Numbers.{number_at};
ghost use Rattle.cckd_base.specs.Survey.{StandApart};
ghost use Rattle.cckd_check.specs.Chain.{is_unused, may_follow, has_foreign_form, misplaced, free_chain, chain_fault, is_marked};
ghost use Rattle.cckd_check.specs.Inside.{next_behind};
ghost use Rattle.cckd_check.specs.Look.{OfFile, OnlyLooks, IsOutside};

use crate::reading::read_at;
use crate::report::LookFault;
use cckd_base::{Extent, Order};
use cckd_shelf::{Slot, Stage};

/// Bytes that a free space begins with: the place of the next one, and its own size.
const LINK: u32 = 8;

/// Whether so many bytes from a place on lie inside a file of `len` bytes, and in none of the spaces in use.
fn is_unused(used: &[Extent], len: u32, at: u32, size: u32) -> bool
    requires { StandApart 0 used.now len }
    ensures { result ≡ is_unused used.now len at size }
{
    let end = u64::from(at) + u64::from(size);
    let place = u64::from(at);
    let behind = used.partition_point(|e| u64::from(e.pos) + u64::from(e.size) <= place);
    if behind == used.len() {
        return end <= u64::from(len);
    }
    end <= u64::from(used[behind].pos)
}

/// Whether what a free space begins with lies inside a file of `len` bytes.
fn has_link(len: u32, at: u32) -> bool
    ensures { IsTrue result ↔ (at + 8 ≤ len) }
{
    u64::from(at) + u64::from(LINK) <= u64::from(len)
}

/// The size that a free space says which begins with these bytes.
fn size_in(order: Order, link: &[u8]) -> u32
    requires { length link.now ≡ 8 }
    ensures { result ≡ number_at order w32 link.now 4 }
{
    order.read_u32(&link[4..])
}

/// Whether a free space of this size may stand at a place behind that one.
fn may_follow(used: &[Extent], len: u32, before: u32, at: u32, size: u32) -> bool
    requires { StandApart 0 used.now len }
    ensures { result ≡ may_follow used.now len before (record { place = at; size = size }) }
{
    before < at && LINK <= size && is_unused(used, len, at, size)
}

/// The place of the next free space, where one may stand at this place behind that one.
fn follow<T: Stage>(
    stage: &mut T,
    slot: Slot,
    order: Order,
    used: &[Extent],
    len: u32,
    before: u32,
    at: u32,
) -> Result<Option<u32>, LookFault>
    requires apart { StandApart 0 used.now len }
    requires length { IsLength slot len (seen T.Shows stage.old) }
    ensures next { OfFile slot (λ file. IfOk result (λ next. next ≡ next_behind order used.now file before at)) (seen T.Shows stage.old) }
    ensures rises { IfOk result (λ next. OnSome next ((before < at) × (at < len))) }
    ensures cause { IfErr result IsOutside }
    ensures looks { OnlyLooks result (seen T.Shows stage.old) (seen T.Shows stage.new) }
{
    if !has_link(len, at) {
        return Ok(None);
    }
    let mut link = [0; LINK as usize];
    match read_at(stage, slot, at, &mut link) {
        Ok(()) => {}
        Err(fault) => return Err(fault),
    }
    let size = size_in(order, &link);
    let may = may_follow(used, len, before, at, size);
    if !may {
        return Ok(None);
    }
    Ok(Some(order.read_u32(&link)))
}

/// Follows the chain from its first place to its end, or to the first place at which no free space may stand.
fn follow_all<T: Stage>(
    stage: &mut T,
    slot: Slot,
    order: Order,
    used: &[Extent],
    len: u32,
    first: u32,
) -> Result<Option<u32>, LookFault>
    requires apart { StandApart 0 used.now len }
    requires length { IsLength slot len (seen T.Shows stage.old) }
    ensures fault { OfFile slot (λ file. IfOk result (λ fault. fault ≡ misplaced used.now (length file) 0 (free_chain order file first))) (seen T.Shows stage.old) }
    ensures cause { IfErr result IsOutside }
    ensures looks { OnlyLooks result (seen T.Shows stage.old) (seen T.Shows stage.new) }
{
    let mut before = 0;
    let mut at = first;
    while at != 0 {
        match follow(stage, slot, order, used, len, before, at) {
            Ok(Some(next)) => {
                before = at;
                at = next;
            }
            Ok(None) => return Ok(Some(at)),
            Err(fault) => return Err(fault),
        }
    }
    Ok(None)
}

/// Whether a free space of the other form stands at a place.
fn is_foreign<T: Stage>(stage: &mut T, slot: Slot, len: u32, at: u32) -> Result<bool, LookFault>
    requires { IsLength slot len (seen T.Shows stage.old) }
    ensures foreign { OfFile slot (λ file. IfOk result (λ foreign. foreign ≡ has_foreign_form file at)) (seen T.Shows stage.old) }
    ensures cause { IfErr result IsOutside }
    ensures looks { OnlyLooks result (seen T.Shows stage.old) (seen T.Shows stage.new) }
{
    if !has_link(len, at) {
        return Ok(false);
    }
    let mut link = [0; LINK as usize];
    match read_at(stage, slot, at, &mut link) {
        Ok(()) => Ok(link.as_slice() == b"FREE_BLK".as_slice()),
        Err(fault) => Err(fault),
    }
}

/// Where the chain that begins at a place is at fault.
pub(crate) fn check_chain<T: Stage>(
    stage: &mut T,
    slot: Slot,
    order: Order,
    used: &[Extent],
    len: u32,
    first: u32,
) -> Result<Option<u32>, LookFault>
    requires apart { StandApart 0 used.now len }
    requires length { IsLength slot len (seen T.Shows stage.old) }
    ensures fault { OfFile slot (λ file. IfOk result (λ fault. fault ≡ chain_fault order used.now file first)) (seen T.Shows stage.old) }
    ensures cause { IfErr result IsOutside }
    ensures looks { OnlyLooks result (seen T.Shows stage.old) (seen T.Shows stage.new) }
{
    match is_foreign(stage, slot, len, first) {
        Ok(true) => Ok(None),
        Ok(false) => follow_all(stage, slot, order, used, len, first),
        Err(fault) => Err(fault),
    }
}

/// Whether the option bits say that the image is open, or was not closed.
pub(crate) fn is_marked(options: u8) -> bool
    ensures { result ≡ is_marked options }
{
    options / 128 % 2 == 1
}
