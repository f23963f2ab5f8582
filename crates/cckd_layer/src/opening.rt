//! The opening mark: before a file is changed for the first time it says that it was opened.
ghost use Rattle.std.specs.Prelude.{◌≡◌, ◌⊎◌, true, IsOk, OnOk, IfErr, List, length};
ghost use Rattle.cckd_shelf.specs.Seen.{seen, Tells};
ghost use Rattle.cckd_shelf.specs.Frame.{OnlyIn};
ghost use Rattle.cckd_shelf.specs.World.{file_of};
ghost use Rattle.cckd_layer.specs.Marks.{WritesOrSyncs};
ghost use Rattle.cckd_base.specs.declared.space.Extent.{Extent as Space_of};
ghost use Rattle.cckd_tables.specs.Device.{CountsDevice};
ghost use Rattle.cckd_layer.specs.Writes.{AgreesWith, KeepsMapWith, StopsWithinWith, marked_layer, failed_by};
ghost use Rattle.cckd_layer.specs.Headed.{KeepsMarkWith};

use crate::layer::Layer;
use crate::marking::{open_header, put_second, second_header};
use cckd_base::Unit;
use cckd_shelf::Stage;
use cckd_tables::Device;

impl<U: Unit> Layer<U> {
    /// Says in the file that it was opened and not closed.
    fn mark_anew<T: Stage>(&mut self, stage: &mut T) -> Result<(), Device>
        ensures marked { OnOk result (self.new ≡ marked_layer self.old) }
        ensures map { (claims : List Space_of) → OnOk result (KeepsMapWith claims claims U.null_bytes self.old self.new (seen T.Shows stage.old) (seen T.Shows stage.new)) }
        ensures len { (claims : List Space_of) → Tells (seen T.Shows stage.old) → AgreesWith claims self.old (seen T.Shows stage.old).world
            → OnOk result (length (file_of (seen T.Shows stage.new).world self.old.slot) ≡ length (file_of (seen T.Shows stage.old).world self.old.slot)) }
        ensures failed { IfErr result (λ fault. self.new ≡ failed_by fault self.old) }
        ensures kind { IfErr result WritesOrSyncs }
        ensures counts { CountsDevice result (seen T.Shows stage.old).faults (seen T.Shows stage.new).faults }
        ensures stopped { (claims : List Space_of) → StopsWithinWith claims U.null_bytes self.old (seen T.Shows stage.old) (seen T.Shows stage.new) }
        ensures marks { (claims : List Space_of) → KeepsMarkWith claims self.old (seen T.Shows stage.old) (seen T.Shows stage.new) }
        ensures others { OnlyIn self.old.slot (seen T.Shows stage.old) (seen T.Shows stage.new) }
    {
        let opened = open_header(&self.header);
        let second = second_header(&opened);
        match put_second(stage, self.slot, &second) {
            Ok(()) => {
                self.header = opened;
                self.marked = true;
                Ok(())
            }
            Err(fault) => {
                self.fail(fault);
                Err(fault)
            }
        }
    }

    /// Says in the file that it was opened and not closed, where it doesn't say so yet.
    pub(crate) fn mark<T: Stage>(&mut self, stage: &mut T) -> Result<(), Device>
        ensures marked { OnOk result (self.new.marked ≡ true) }
        ensures rest { OnOk result ((self.new ≡ self.old) ⊎ (self.new ≡ marked_layer self.old)) }
        ensures still { self.old.marked ≡ true → IsOk result × (self.new ≡ self.old) × (seen T.Shows stage.new ≡ seen T.Shows stage.old) }
        ensures map { (claims : List Space_of) → OnOk result (KeepsMapWith claims claims U.null_bytes self.old self.new (seen T.Shows stage.old) (seen T.Shows stage.new)) }
        ensures len { (claims : List Space_of) → Tells (seen T.Shows stage.old) → AgreesWith claims self.old (seen T.Shows stage.old).world
            → OnOk result (length (file_of (seen T.Shows stage.new).world self.old.slot) ≡ length (file_of (seen T.Shows stage.old).world self.old.slot)) }
        ensures failed { IfErr result (λ fault. self.new ≡ failed_by fault self.old) }
        ensures kind { IfErr result WritesOrSyncs }
        ensures counts { CountsDevice result (seen T.Shows stage.old).faults (seen T.Shows stage.new).faults }
        ensures stopped { (claims : List Space_of) → StopsWithinWith claims U.null_bytes self.old (seen T.Shows stage.old) (seen T.Shows stage.new) }
        ensures marks { (claims : List Space_of) → KeepsMarkWith claims self.old (seen T.Shows stage.old) (seen T.Shows stage.new) }
        ensures others { OnlyIn self.old.slot (seen T.Shows stage.old) (seen T.Shows stage.new) }
    {
        if self.marked {
            return Ok(());
        }
        self.mark_anew(stage)
    }
}
