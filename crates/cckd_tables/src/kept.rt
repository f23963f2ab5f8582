//! The kept spaces of a survey, found by their position.
ghost use Rattle.std.specs.Prelude.{◌≡◌, ◌+◌, ◌≤◌, [], true, None, OnOk};
ghost use Rattle.std.specs.Option.{option_to_list};
ghost use Rattle.std.specs.BTreeMap.{values};
ghost use Rattle.cckd_base.specs.Survey.{share_a_byte, lower, met, placed_among};
ghost use Rattle.cckd_tables.specs.Kept.{HaveBytes, stand_apart, end_of, KeepsOrder, AreKeyed};

use cckd_base::{Extent, Memory};
use std::alloc::Global;
use std::collections::BTreeMap;
use std::marker::Model;

/// Spaces that share no byte. Where each is added behind all others they stay one ordered run.
#[derive(Drop)]
pub(crate) struct Kept {
    /// In order of position.
    run: Vec<Extent>,
    /// Those that were added before the end of the run, by their position.
    late: BTreeMap<u32, Extent>,
}

impl Model for Kept {
    ghost use Rattle.std.specs.Prelude.{List, ◌++◌};
    ghost use Rattle.std.specs.BTreeMap.{values};
    ghost use Rattle.cckd_base.specs.declared.space.Extent.{Extent};
    ghost use Rattle.cckd_base.specs.Survey.{by_position};
    ghost use Rattle.cckd_tables.specs.Kept.{KeepsOrder};

    ghost Value = { List Extent };

    ghost view = { λ k. by_position (k.run.items ++ values k.late) };

    ghost invariant = { λ k. KeepsOrder k.run.items k.late.entries };
}

/// The byte behind a space.
fn end(space: &Extent) -> u64
    ensures { result ≡ space.now.pos + space.now.size }
{
    u64::from(space.pos) + u64::from(space.size)
}

/// Whether each begins before the other one ends.
fn share_a_byte(a: &Extent, b: &Extent) -> bool
    ensures { result ≡ share_a_byte a.now b.now }
{
    u64::from(a.pos) < end(b) && u64::from(b.pos) < end(a)
}

/// The one of lower position.
fn lower(a: Option<Extent>, b: Option<Extent>) -> Option<Extent>
    ensures { result ≡ lower a b }
{
    match (a, b) {
        (Some(a), Some(b)) if b.pos < a.pos => Some(b),
        (None, b) => b,
        (a, _) => a,
    }
}

/// Where the last of these ends.
fn end_of(run: &[Extent]) -> u64
    ensures { result ≡ end_of 0 run.now }
{
    if run.is_empty() {
        return 0;
    }
    end(&run[run.len() - 1])
}

/// A space, where it shares a byte with this one.
fn met_of(other: Option<Extent>, space: &Extent) -> Option<Extent>
    ensures { result ≡ met (option_to_list other) space.now }
{
    match other {
        Some(other) if share_a_byte(&other, space) => Some(other),
        _ => None,
    }
}

/// Of spaces in order, the first that shares a byte with this one.
fn met_in_run(run: &[Extent], space: &Extent) -> Option<Extent>
    requires bytes { HaveBytes run.now }
    requires apart { stand_apart 0 run.now ≡ true }
    requires some { 1 ≤ space.now.size }
    ensures { result ≡ met run.now space.now }
{
    let pos = space.pos;
    let at = run.partition_point(|e| e.pos < pos);
    let before = if at == 0 { None } else { Some(run[at - 1]) };
    let behind = if at == run.len() { None } else { Some(run[at]) };
    lower(met_of(before, space), met_of(behind, space))
}

/// Of spaces by position, the first that shares a byte with this one.
fn met_late(late: &BTreeMap<u32, Extent>, space: &Extent) -> Option<Extent>
    requires bytes { HaveBytes (values late.now) }
    requires apart { stand_apart 0 (values late.now) ≡ true }
    requires keyed { AreKeyed late.now.entries }
    requires some { 1 ≤ space.now.size }
    ensures { result ≡ met (values late.now) space.now }
{
    let before = match late.range(..space.pos).next_back() {
        Some((_, e)) => Some(*e),
        None => None,
    };
    let behind = match late.range(space.pos..).next() {
        Some((_, e)) => Some(*e),
        None => None,
    };
    lower(met_of(before, space), met_of(behind, space))
}

impl Kept {
    pub(crate) fn new(alloc: Global) -> Kept
        ensures { result ≡ [] }
    {
        Kept {
            run: Vec::new(alloc),
            late: BTreeMap::new(alloc),
        }
    }

    /// The space of least position among those that share a byte with this one.
    pub(crate) fn met(&self, space: &Extent) -> Option<Extent>
        requires { 1 ≤ space.now.size }
        ensures { result ≡ met self.now space.now }
    {
        if end_of(self.run.as_slice()) <= u64::from(space.pos) {
            return None;
        }
        lower(
            met_in_run(self.run.as_slice(), space),
            met_late(&self.late, space),
        )
    }

    /// Adds a space that shares a byte with none.
    pub(crate) fn add(&mut self, space: Extent) -> Result<(), Memory>
        requires some { 1 ≤ space.size }
        requires unmet { met self.old space ≡ None }
        ensures added { OnOk result (self.new ≡ placed_among space self.old) }
    {
        if end_of(self.run.as_slice()) <= u64::from(space.pos) {
            self.run.push(space)?;
            return Ok(());
        }
        match self.late.insert(space.pos, space) {
            Ok(_) => Ok(()),
            Err(refused) => Err(Memory::from(refused)),
        }
    }
}
