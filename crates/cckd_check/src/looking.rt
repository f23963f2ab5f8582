//! A look at the image of a slot, at each level of a check. Nothing is changed.
ghost use Rattle.std.specs.Prelude.{◌≡◌, ◌≤◌, ◌++◌, [], IfOk, IfErr, OnOk};
ghost use Rattle.cckd_shelf.specs.Seen.{seen, IsLength};
ghost use Rattle.cckd_base.specs.Geometry.{IsLayout};
ghost use Rattle.cckd_tables.specs.Scan.{AreSpaces};
ghost use Rattle.cckd_check.specs.Damage.{bad_free};
ghost use Rattle.cckd_check.specs.Inside.{AddsDamage, AddsChain, AddsAllTracks, IsReportBy, wants_chain};
ghost use Rattle.cckd_check.specs.Look.{OfFile, OnlyLooks, IsOutside, IsLookCause, IsExaminedOf, IsReportOf};

use crate::chaining::{check_chain, is_marked};
use crate::damages::damages_of;
use crate::examining::{Examined, examine};
use crate::report::{LookFault, Report};
use crate::tracking::{Tracks, add_damage};
use cckd_base::Damage;
use cckd_shelf::{Slot, Stage};
use std::alloc::Global;

/// Adds the fault of the chain of free spaces to the report.
fn note_chain(report: &mut Report, fault: Option<u32>) -> Result<(), LookFault>
    ensures added { OnOk result (AddsDamage (bad_free fault) report.old report.new) }
    ensures cause { IfErr result (λ why. why ≡ LookFault.Memory) }
{
    match fault {
        None => Ok(()),
        Some(at) => add_damage(&mut report.found, Damage::BadFree { at }),
    }
}

/// Whether the chain is looked at.
fn wants_chain(level: u8, options: u8) -> bool
    ensures { result ≡ wants_chain level options }
{
    level != 0 && !is_marked(options)
}

/// Adds what is amiss in the chain of free spaces to the report: from level 1 on, where the image was closed.
fn look_at_chain<T: Stage>(
    stage: &mut T,
    slot: Slot,
    level: u8,
    x: &Examined,
    report: &mut Report,
) -> Result<(), LookFault>
    requires spaces { AreSpaces x.now.heading.layout.groups x.now.heading.len x.now.kept.items }
    requires length { IsLength slot x.now.heading.len (seen T.Shows stage.old) }
    ensures added { OfFile slot (λ file. IsExaminedOf file x.now → OnOk result
        (AddsChain level x.now.heading.layout file report.old report.new)) (seen T.Shows stage.old) }
    ensures few { OnOk result (report.new.unread ≡ report.old.unread) }
    ensures cause { IfErr result IsOutside }
    ensures looks { OnlyLooks result (seen T.Shows stage.old) (seen T.Shows stage.new) }
{
    if !wants_chain(level, x.heading.options) {
        return Ok(());
    }
    let order = x.heading.layout.order;
    let used = x.kept.as_slice();
    match check_chain(stage, slot, order, used, x.heading.len, x.heading.free) {
        Ok(fault) => note_chain(report, fault),
        Err(fault) => Err(fault),
    }
}

/// Adds what is amiss in the stored tracks to the report: from level 2 on.
fn look_at_tracks<T: Stage>(
    alloc: Global,
    stage: &mut T,
    slot: Slot,
    level: u8,
    x: &Examined,
    report: &mut Report,
) -> Result<(), LookFault>
    requires layout { IsLayout x.now.heading.layout }
    requires spaces { AreSpaces x.now.heading.layout.groups x.now.heading.len x.now.kept.items }
    requires length { IsLength slot x.now.heading.len (seen T.Shows stage.old) }
    requires none { report.old.unread ≡ 0 }
    ensures added { OfFile slot (λ file. IsExaminedOf file x.now → OnOk result
        (AddsAllTracks level x.now.heading.layout file report.old report.new)) (seen T.Shows stage.old) }
    ensures cause { IfErr result IsOutside }
    ensures looks { OnlyLooks result (seen T.Shows stage.old) (seen T.Shows stage.new) }
{
    if level < 2 {
        return Ok(());
    }
    let tracks = Tracks {
        geo: &x.heading.layout.geo,
        level,
        spaces: x.kept.as_slice(),
        len: x.heading.len,
    };
    tracks.check(alloc, stage, slot, report)
}

/// The report of a file of which this is known.
fn judge<T: Stage>(
    alloc: Global,
    stage: &mut T,
    slot: Slot,
    level: u8,
    x: &Examined,
) -> Result<Report, LookFault>
    requires layout { IsLayout x.now.heading.layout }
    requires spaces { AreSpaces x.now.heading.layout.groups x.now.heading.len x.now.kept.items }
    requires length { IsLength slot x.now.heading.len (seen T.Shows stage.old) }
    ensures report { OfFile slot (λ file. IsExaminedOf file x.now → IfOk result (IsReportBy x.now.heading.layout file level)) (seen T.Shows stage.old) }
    ensures cause { IfErr result IsOutside }
    ensures looks { OnlyLooks result (seen T.Shows stage.old) (seen T.Shows stage.new) }
{
    let Ok(found) = damages_of(alloc, x.misfits.as_slice()) else {
        return Err(LookFault::Memory);
    };
    let mut report = Report { found, unread: 0 };
    match look_at_chain(stage, slot, level, x, &mut report) {
        Ok(()) => {}
        Err(fault) => return Err(fault),
    }
    match look_at_tracks(alloc, stage, slot, level, x, &mut report) {
        Ok(()) => Ok(report),
        Err(fault) => Err(fault),
    }
}

/// All that is amiss in the image of a slot, a base or a shadow, at a level of 0 to 3: at level 0 in its headers and
/// tables; at level 1 in the chain of its free spaces too; at level 2 in the home addresses of its stored tracks too, and at
/// level 3 in all of their bytes. Nothing is changed.
pub fn look<T: Stage>(
    alloc: Global,
    stage: &mut T,
    slot: Slot,
    level: u8,
) -> Result<Report, LookFault>
    requires { level ≤ 3 }
    ensures report { OfFile slot (λ file. IfOk result (IsReportOf level file)) (seen T.Shows stage.old) }

    // Why there is no report, and what was done.
    ensures cause { IfErr result (IsLookCause slot (seen T.Shows stage.old)) }
    ensures looks { OnlyLooks result (seen T.Shows stage.old) (seen T.Shows stage.new) }
{
    match examine(alloc, stage, slot) {
        Ok(examined) => judge(alloc, stage, slot, level, &examined),
        Err(fault) => Err(fault),
    }
}
