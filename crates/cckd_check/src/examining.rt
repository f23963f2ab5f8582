//! What a file says of itself: its headers, and the survey of its tables.
ghost use Rattle.std.specs.Prelude.{◌≡◌, ◌≤◌, IfOk, IfErr};
ghost use Rattle.cckd_shelf.specs.Seen.{seen, IsLength};
ghost use Rattle.cckd_base.specs.Geometry.{IsLayout};
ghost use Rattle.cckd_tables.specs.Scan.{AreSpaces};
ghost use Rattle.cckd_check.specs.Look.{OfFile, OnlyLooks, IsLookCause, IsExaminedOf};

use crate::heading::{Heading, find};
use crate::report::LookFault;
use cckd_base::{Extent, Misfit};
use cckd_shelf::{Slot, Stage};
use cckd_tables::{SurveyFault, survey};
use std::alloc::Global;

/// What the headers of a file say, and what the survey of its tables finds.
#[derive(Drop)]
pub(crate) struct Examined {
    pub(crate) heading: Heading,
    /// The spaces in use, in order of position.
    pub(crate) kept: Vec<Extent>,
    pub(crate) misfits: Vec<Misfit>,
}

/// Reads the headers and the tables of the slot's file.
pub(crate) fn examine<T: Stage>(
    alloc: Global,
    stage: &mut T,
    slot: Slot,
) -> Result<Examined, LookFault>
    ensures layout { IfOk result (λ x. IsLayout x.heading.layout) }
    ensures spaces { IfOk result (λ x. AreSpaces x.heading.layout.groups x.heading.len x.kept.items) }
    ensures length { IfOk result (λ x. IsLength slot x.heading.len (seen T.Shows stage.old)) }
    ensures examined { OfFile slot (λ file. IfOk result (IsExaminedOf file)) (seen T.Shows stage.old) }
    ensures cause { IfErr result (IsLookCause slot (seen T.Shows stage.old)) }
    ensures looks { OnlyLooks result (seen T.Shows stage.old) (seen T.Shows stage.new) }
{
    let heading = match find(stage, slot) {
        Ok(heading) => heading,
        Err(fault) => return Err(fault),
    };
    match survey(alloc, stage, slot, &heading.layout, heading.len) {
        Ok(found) => Ok(Examined {
            heading,
            kept: found.kept,
            misfits: found.misfits,
        }),
        Err(SurveyFault::ReadFault) => Err(LookFault::ReadFault),
        Err(SurveyFault::Memory) => Err(LookFault::Memory),
    }
}
