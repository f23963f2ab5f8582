//! What becomes of old places, once something is staged in place of what stands there.
ghost use Rattle.std.specs.Prelude.{◌≡◌, ◌≤◌};
ghost use Rattle.cckd_space.specs.Plan.{Becomes, IsSound};
ghost use Rattle.cckd_layer.specs.Acts.{left_at, MayGiveBack};

use cckd_base::SEE_PARENT;
use cckd_space::Space;

/// Lets the Used piece at the position of an entry or a word leave, where that names a space.
pub fn leave_place(space: &mut Space, pos: u32)
    ensures becomes { Becomes space.old space.new (left_at pos space.old.pieces) space.old.size }
    ensures spent { space.new.spare ≡ space.old.spare }
    ensures sound { IsSound space.new }
{
    let _pieces = space.pieces();
    if pos == 0 || pos == SEE_PARENT {
        return;
    }
    if space.used_at(pos).is_some() {
        space.leave(pos);
    }
}

/// Gives the Reserved piece at a position back, where there is one. No Free piece then ends the pieces past a
/// file of `len` bytes.
pub fn give_place_back(space: &mut Space, pos: u32, len: u32)
    ensures gives { MayGiveBack pos len space.old space.new }
    ensures size { space.new.size ≤ space.old.size }
    ensures spent { space.old.spare ≤ space.new.spare }
    ensures sound { IsSound space.new }
{
    let _pieces = space.pieces();
    if space.reserved_at(pos).is_some() {
        space.give_back(pos);
        space.cut_back(len);
    }
}
