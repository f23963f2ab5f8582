//! The mounting of an engine: from the files of the slots to one that can make calls.
ghost use Rattle.cckd_stack.specs.Room.{HasRoom, first_room, last_file};
ghost use Rattle.std.specs.Prelude.{◌≡◌, ◌-◌, ◌≤◌, ℕ, [], length, IfOk, IfErr};
ghost use Rattle.cckd_shelf.specs.Seen.{seen, Tells, Makes};
ghost use Rattle.cckd_stack.specs.Layers.{Stack as Layered};
ghost use Rattle.cckd_stack.specs.Opened.{Opens};
ghost use Rattle.cckd_stack.specs.Stops.{Survives};
ghost use Rattle.cckd_stack.specs.Moments.{EachOpens};
ghost use Rattle.cckd_stack.specs.Stacked.{OfFiles};
ghost use Rattle.cckd_stack.specs.Mounting.{IsMounted, IsMountCause, SyncsSome, after_syncs};
ghost use Rattle.cckd_stack.specs.Writes.{AreUnchanged};
ghost use Rattle.cckd_stack.specs.Called.{AreSnug, StayAbsent, CanCall, AgreesAfter};
ghost use Rattle.cckd_engine.specs.Engine.{Stands, Runs, TellsStops, IsNew, standing};
ghost use Rattle.cckd_engine.specs.Frame.{IsLower};
ghost use Rattle.cckd_stack.specs.Marking.{MarksSince};
ghost use Rattle.cckd_engine.specs.Mounting.{CountsMount};

use crate::disk::Disk;
use crate::engine::Engine;
use cckd_base::{FORMAT_LIMIT, OpenFault};
use cckd_shelf::Stage;
use cckd_stack::Stack;
use cckd_track::Ckd;
use std::alloc::Global;

impl<T: Stage> Engine<T, Stack<Ckd>> {
    /// Mounts the files of the slots, and is an engine that made no call yet. Each layer may grow to `limit` bytes. Where there
    /// is none the stage comes back, and why.
    pub fn mount(
        alloc: Global,
        stage: T,
        limit: u32,
    ) -> Result<Engine<T, Stack<Ckd>>, (T, OpenFault)>
        requires limit { limit ≤ FORMAT_LIMIT }
        ensures new { IfOk result IsNew }
        ensures mounted { OfFiles (λ files. IfOk result (λ engine. IsMounted files engine.disk)) (seen T.Shows stage) }

        // It stands for the stack to which the files open, and can make calls, also where they aren't snug; and where they are, it is
        // told what stops leave.
        ensures stands { OfFiles (λ files. (s0 : Layered) → IfOk result (λ engine. Opens engine.disk.geometry files s0
            → Stands s0 [] (standing T.Shows ⟦<Stack<Ckd> as Disk>⟧ engine))) (seen T.Shows stage) }
        ensures opens { OfFiles (λ files. IfOk result (λ engine. (s0 : Layered) × Opens engine.disk.geometry files s0)) (seen T.Shows stage) }
        ensures unchanged { IfOk result (λ engine. AreUnchanged engine.disk.layers) }
        ensures few { IfOk result (λ engine. (1 ≤ length engine.disk.layers) × (length engine.disk.layers ≤ 9)) }
        ensures spares { IfOk result (λ engine. (slot : ℕ) → (length engine.disk.layers - 1 ≡ slot → ⊥) → IsLower engine.disk slot) }
        ensures room { OfFiles (λ files. (s0 : Layered) → IfOk result (λ engine. Opens engine.disk.geometry files s0
            → HasRoom engine.disk (first_room limit (length (last_file s0 files))))) (seen T.Shows stage) }
        ensures runs { IfOk result (λ engine. Runs (CanCall engine.disk) engine.broken (seen T.Shows engine.stage)) }
        ensures agrees { OfFiles (λ files. AreSnug files → IfOk result (λ engine.
            TellsStops (AgreesAfter engine.disk) engine.broken (seen T.Shows engine.stage).world.events)) (seen T.Shows stage) }
        ensures marks { OfFiles (λ files. AreSnug files → IfOk result (λ engine.
            MarksSince engine.disk (seen T.Shows engine.stage).world.events (seen T.Shows engine.stage).world.events)) (seen T.Shows stage) }
        ensures stops { OfFiles (λ files. AreSnug files → StayAbsent (seen T.Shows stage).world → (s0 : Layered) → IfOk result (λ engine. Opens engine.disk.geometry files s0
            → EachOpens engine.disk.geometry (Survives engine.disk.geometry s0 []) (seen T.Shows engine.stage).world.events)) (seen T.Shows stage) }

        // Why there is none, and what was done.
        ensures cause { IfErr result (λ back. IsMountCause (seen T.Shows stage) back.1) }
        ensures synced { IfOk result (λ engine. Makes (after_syncs (length engine.disk.layers)) (seen T.Shows stage) (seen T.Shows engine.stage)) }
        ensures syncs { IfErr result (λ back. SyncsSome (seen T.Shows stage) (seen T.Shows back.0)) }
        ensures counts { CountsMount T.Shows result (seen T.Shows stage).faults }
    {
        let mut stage = stage;
        match Stack::mount(alloc, &mut stage, limit) {
            Ok(disk) => Ok(Engine::new(stage, disk)),
            Err(fault) => Err((stage, fault)),
        }
    }
}
