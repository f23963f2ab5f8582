//! What the promise of a run has for whoever reads it. The functions do nothing: each contract is a law.
ghost use Rattle.std.specs.Prelude.{ℕ, ◌≡◌, ◌<◌, List};
ghost use Rattle.cckd_base.specs.declared.geometry.Geometry.{Geometry as Shape};
ghost use Rattle.cckd_base.specs.declared.open_fault.OpenFault.TheVariants.{Memory};
ghost use Rattle.cckd_shelf.specs.Events.{Event, file_now};
ghost use Rattle.cckd_shelf.specs.Outcomes.{AtEach, EachStop};
ghost use Rattle.cckd_shelf.specs.World.{World};
ghost use Rattle.cckd_engine.specs.Lines.{Line};
ghost use Rattle.cckd_shelf.specs.Seen.{Seen};
ghost use Rattle.cckd_stack.specs.Called.{AreSnug};
ghost use Rattle.cckd_stack.specs.History.{History as Calls, stack_after};
ghost use Rattle.cckd_stack.specs.Layers.{Stack as Layered};
ghost use Rattle.cckd_stack.specs.Moments.{EachOpens};
ghost use Rattle.cckd_stack.specs.Opened.{Opens};
ghost use Rattle.cckd_stack.specs.Stops.{Survives};
ghost use Rattle.cckd_console.specs.Served.{Served};
ghost use Rattle.cckd_top.specs.declared.halt.Halt.TheVariants.{Files};
ghost use Rattle.cckd_top.specs.Clean.{AreClean};
ghost use Rattle.cckd_top.specs.Disk.{EndsHardened, KeepsDisk};
ghost use Rattle.cckd_top.specs.Explained.{IsExplained};
ghost use Rattle.cckd_top.specs.Names.{files_of, after_binds};
ghost use Rattle.cckd_top.specs.Run.{halted, served, closed, history_of};
ghost use Rattle.cckd_top.specs.Unhindered.{AreLow, IsUnhindered, ServesAll};
ghost use Rattle.cckd_top.specs.World.{TellsFiles, NothingIsOpen};

/// A run that nothing hinders serves its whole script, and its status is 0 or 1; or it wanted memory to mount the disk, and its
/// status is 8. Where each file was snug and nothing stood open, the files are then the stack that its calls leave. And where a
/// run ends with the status 0 or 1, nothing hindered it.
pub fn runs_are_served()
    ensures served { (words : List (List ℕ)) (g : Shape) (s0 : Layered) (old new : Seen) (status : ℕ) → AreLow old.faults → IsUnhindered words g s0 old new
        → (status ≡ 8 → ⊥) → (run : IsExplained words old new status) → ServesAll g s0 run.end old new status }
    ensures short_of_memory { (words : List (List ℕ)) (g : Shape) (s0 : Layered) (old new : Seen) (status : ℕ) → AreLow old.faults → IsUnhindered words g s0 old new
        → status ≡ 8 → (run : IsExplained words old new status) → run.end ≡ halted (Files Memory) }
    ensures stored { (words : List (List ℕ)) (g : Shape) (s0 : Layered) (old new : Seen) (status : ℕ) → AreLow old.faults → (free : IsUnhindered words g s0 old new)
        → AreSnug (files_of free.disk.file old.world) → NothingIsOpen old.world → (run : IsExplained words old new status) → (all : List Served) → run.end ≡ served closed all
        → Opens g (file_now new.world.events) (stack_after g s0 (history_of all)) }
    ensures only { (words : List (List ℕ)) (old new : Seen) (status : ℕ) → TellsFiles old → status < 2 → IsExplained words old new status
        → (g : Shape) × (s0 : Layered) × IsUnhindered words g s0 old new }
{}

/// Where the last call hardened, and none broke the disk, files of which whatever a stop leaves is what the calls may leave are
/// the stack that they leave.
pub fn hardened_files_are_known()
    ensures { (g : Shape) (s0 : Layered) (h : Calls) (events : List Event) → EndsHardened h → EachOpens g (Survives g s0 h) events
        → Opens g (file_now events) (stack_after g s0 h) }
{}

/// In files that open a check of the lowest level finds nothing amiss. So where a run keeps its disk, at each operation since the
/// slots have their files it finds nothing amiss in whatever a stop leaves, and nothing is to be repaired.
pub fn open_files_are_clean()
    ensures opened { (g : Shape) (files : ℕ → List ℕ) (s : Layered) → Opens g files s → AreClean files }
    ensures stopped { (name : List ℕ) (g : Shape) (s0 : Layered) (lines : List Line) (old new : World) → KeepsDisk name g s0 lines old new
        → AtEach (after_binds name 9 old).events new.events (EachStop AreClean) }
{}
