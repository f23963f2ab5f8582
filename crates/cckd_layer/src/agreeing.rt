//! What callers know of a layer that agrees with its file. The function does nothing: its contract is a law.
ghost use Rattle.std.specs.Prelude.{◌≡◌, ◌≤◌, ◌∷◌, ℕ, List};
ghost use Rattle.cckd_base.specs.declared.geometry.Layout.{Layout as Laid};
ghost use Rattle.cckd_base.specs.declared.space.Extent.{Extent};
ghost use Rattle.cckd_image.specs.declared.roles.Roles.{Roles as Given};
ghost use Rattle.cckd_shelf.specs.Seen.{Seen};
ghost use Rattle.cckd_shelf.specs.World.{World, IsSure, file_of, after_sync};
ghost use Rattle.cckd_space.specs.Pieces.{counted, is_pending};
ghost use Rattle.cckd_layer.specs.Held.{NullBytes, Tracks, Later, Keeps};
ghost use Rattle.cckd_layer.specs.Stands.{Stands, nothing_staged};
ghost use Rattle.cckd_layer.specs.Mounted.{LayerState, IsFresh, IsOf, CanRead, kept_view, IsRoomy};
ghost use Rattle.cckd_layer.specs.Writes.{Agrees, AgreesIn, AgreesWith};

/// A layer that was mounted and stands agrees with its file, and one that agrees can be read. What keeps within what was
/// written keeps within more. Which of two places was claimed first makes no difference. Where nothing is staged and nothing is
/// Pending, two more places can be added to the pieces.
pub fn layers_agree()
    ensures mounted { (roles : Given) (slot limit : ℕ) (s : LayerState) (w new : World) → IsSure w → IsFresh slot limit s → IsOf roles (file_of w slot) s
        → new ≡ after_sync slot w → Stands (kept_view s) slot new → Agrees s new }
    ensures reads { (s : LayerState) (seen : Seen) → AgreesIn s seen → CanRead s seen }
    ensures more { (null : NullBytes) (l : Laid) (d : Tracks) (later : List Later) (more : Later) (file : List ℕ) → Keeps null l d later file → Keeps null l d (more ∷ later) file }
    ensures swaps { (a b : Extent) (rest : List Extent) (s : LayerState) (w : World) → AgreesWith (a ∷ b ∷ rest) s w → AgreesWith (b ∷ a ∷ rest) s w }
    ensures roomy { (s : LayerState) (w : World) → Agrees s w → s.tables.stages ≡ nothing_staged → counted is_pending s.plan.pieces ≡ 0
        → IsRoomy s.tables s.plan → 4 ≤ s.plan.spare }
{}
