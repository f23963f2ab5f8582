//! Notes and operations side by side.
ghost use Rattle.std.specs.Prelude.{◌≡◌, ◌∷◌, [], ◌++◌, length, OnOk, OnErr};
ghost use Rattle.cckd_memory.specs.declared.history.Note.TheVariants as note;
ghost use Rattle.cckd_memory.specs.Inside.{op_count, IsBack};

use crate::history::Note;
use crate::{Memory, Op};

/// Adds both, or none.
pub(crate) fn push_both(notes: &mut Vec<Note>, ops: &mut Vec<Op>, op: Op) -> Result<(), Memory>
    ensures notes { OnOk result (notes.new.items ≡ notes.old.items ++ note.Op ∷ []) }
    ensures ops { OnOk result (ops.new.items ≡ ops.old.items ++ op ∷ []) }
    ensures kept { OnErr result ((notes.new.items ≡ notes.old.items) × (ops.new.items ≡ ops.old.items)) }
{
    notes.push(Note::Op)?;
    if ops.push(op).is_err() {
        let _ = notes.pop();
        return Err(std::alloc::AllocError);
    }
    Ok(())
}

/// Takes the last note back, with its operation if it has one.
pub(crate) fn pop_both(notes: &mut Vec<Note>, ops: &mut Vec<Op>)
    requires { op_count notes.old.items ≡ length ops.old.items }
    ensures { IsBack notes.new.items ops.new.items notes.old.items ops.old.items }
{
    match notes.pop() {
        Some(Note::Op) => {
            let _ = ops.pop();
        }
        Some(Note::Bound { .. }) => {}
        None => {}
    }
}
