//! What keeps a layer standing, whatever its file and its pieces are. The functions do nothing: each contract is a law.
ghost use Rattle.std.specs.Prelude.{◌≡◌, ◌⊎◌, ◌<◌, ◌≤◌, ◌∷◌, ◌/◌, ◌%◌, ℕ, List, Option, None, Some, length, map, true, false};
ghost use Rattle.cckd_base.specs.declared.geometry.Layout.{Layout};
ghost use Rattle.cckd_base.specs.declared.entry.L2Entry.{L2Entry};
ghost use Rattle.cckd_base.specs.declared.space.Extent.{Extent};
ghost use Rattle.cckd_base.specs.declared.space.Full.{Full};
ghost use Rattle.cckd_base.specs.Entry.{word_at, entry_at};
ghost use Rattle.cckd_base.specs.Image.{IsPlace, IsSnug, IsImage};
ghost use Rattle.cckd_base.specs.Geometry.{IsLayout, track_count, area_of};
ghost use Rattle.cckd_base.specs.Survey.{HasNoMisfit};
ghost use Rattle.cckd_image.specs.declared.header.CckdHeader.{CckdHeader};
ghost use Rattle.cckd_shelf.specs.World.{World, IsSure, file_of, after_write, after_sync};
ghost use Rattle.cckd_shelf.specs.Seen.{Seen, Tells};
ghost use Rattle.cckd_shelf.specs.Stops.{StopsLeave};
ghost use Rattle.cckd_shelf.specs.Outcomes.{EachOutcome, AtEach};
ghost use Rattle.cckd_space.specs.Pieces.{IsLaid, aligned_up, merged, released};
ghost use Rattle.cckd_space.specs.Plan.{Plan, Becomes, place_of};
ghost use Rattle.cckd_tables.specs.Commit.{CanCommit, IsBlended, IsCommittedFrom, MayLeave};
ghost use Rattle.cckd_layer.specs.Held.{NullBytes, Tracks, Later, LiesWithin, Keeps, Holds, held};
ghost use Rattle.cckd_tables.specs.Staging.{Stages, IsMoved, entry_for, place_for};
ghost use Rattle.cckd_layer.specs.Current.{claim, CanBeEntry, CanBeWord, NamesAligned};
ghost use Rattle.cckd_layer.specs.Puts.{IsReserved};
ghost use Rattle.cckd_layer.specs.Changes.{IsRemarked};
ghost use Rattle.cckd_layer.specs.Acts.{StagesEntry, StagesWord, left_at, MayGiveBack, committed_pieces};
ghost use Rattle.cckd_layer.specs.Marks.{SpellsSecond, FitsLayout};
ghost use Rattle.cckd_layer.specs.Mounted.{LayerState};
ghost use Rattle.cckd_layer.specs.Preparing.{LacksRoom};
ghost use Rattle.cckd_layer.specs.Justified.{Attempt, IsOneOf, IsJustified};
ghost use Rattle.cckd_layer.specs.Chain.{IsClosingAs, IsClosedFrom};
ghost use Rattle.cckd_layer.specs.Closed.{IsClosed};
ghost use Rattle.cckd_layer.specs.Headed.{KeepsHeaders, KeepsMark, ClosesLast};
ghost use Rattle.cckd_layer.specs.Sits.{IsMarked};
ghost use Rattle.cckd_layer.specs.Writes.{Agrees};
ghost use Rattle.cckd_layer.specs.Stands.{AreRising, nothing_staged, LayerView, Stands};

/// Bytes that are put to a free place keep it standing, and claim their space. Their number is a multiple of 8.
pub fn puts_stand()
    ensures { (v : LayerView) (slot : ℕ) (old new : World) (plan : Plan) (bytes : List ℕ) → 0 < length bytes → length bytes % 8 ≡ 0 → Stands v slot old → IsReserved (length bytes) v.plan plan
        → IsLaid 0 plan.pieces plan.size → new ≡ after_write slot (place_of (length bytes) v.plan.pieces) bytes old
        → Stands (record v { claims = claim (place_of (length bytes) v.plan.pieces) (length bytes) ∷ v.claims; plan = plan }) slot new }
{}

/// What is staged can be committed. Whatever a stop leaves in between keeps within what was hardened and written since; and behind the
/// commit the layer stands with nothing staged, and its file holds its map.
pub fn commits_stand()
    ensures can { (v : LayerView) (slot : ℕ) (w : World) → AreRising v.stages → Stands v slot w → CanCommit v.layout v.stages (file_of w slot) }
    ensures keeps { (null : NullBytes) (d : Tracks) (later : List Later) (v : LayerView) (slot : ℕ) (w : World) → AreRising v.stages → Stands v slot w
        → LiesWithin (track_count v.layout.geo) d later (held null v.layout v.stages (file_of w slot)) → EachOutcome slot (Keeps null v.layout d later) w.events
        → (file : List ℕ) → MayLeave v.layout v.stages slot w.events (file_of w slot) file → Keeps null v.layout d later file }
    ensures stands { (v : LayerView) (plan : Plan) (slot : ℕ) (old new : World) → AreRising v.stages → Stands v slot old → IsSure new
        → EachOutcome slot (IsBlended v.layout v.stages (file_of old slot)) new.events → IsCommittedFrom v.layout v.stages (file_of old slot) (file_of new slot)
        → Becomes v.plan plan (committed_pieces v.stages v.plan.pieces) v.plan.size → IsLaid 0 plan.pieces plan.size
        → Stands (record v { stages = nothing_staged; plan = plan }) slot new }
    ensures holds { (null : NullBytes) (v : LayerView) (slot : ℕ) (w : World) (file : List ℕ) → AreRising v.stages → Stands v slot w
        → IsCommittedFrom v.layout v.stages (file_of w slot) file → Holds null v.layout (held null v.layout v.stages (file_of w slot)) file }
{}

/// Where each outcome is the file now, what is Pending can be released.
pub fn releases_stand()
    ensures { (v : LayerView) (new : Plan) (slot : ℕ) (w : World) → Becomes v.plan new (merged (map released v.plan.pieces)) v.plan.size → IsLaid 0 new.pieces new.size
        → EachOutcome slot (λ file. file ≡ file_of w slot) w.events → Stands v slot w → Stands (record v { plan = new }) slot w }
{}

/// A track's entry that is staged keeps it standing, and so does a group's word. Where the entry names a space, that was claimed. The place
/// of the file leaves, or the place that was staged before is given back. A group gets a word where the file names no table at a multiple
/// of 8 for it.
pub fn stages_stand()
    ensures entry { (v : LayerView) (n : Stages) (rest : List Extent) (new : Plan) (slot : ℕ) (w : World) (t : ℕ) (e : L2Entry) → entry_for t v.stages.entries ≡ None → StagesEntry t e v.stages n → CanBeEntry v.layout v.stages (file_of w slot) t e → (IsPlace e.pos → v.claims ≡ claim e.pos e.size ∷ rest) → ((IsPlace e.pos → ⊥) → v.claims ≡ rest)
        → Becomes v.plan new (left_at (entry_at v.layout (file_of w slot) t).pos v.plan.pieces) v.plan.size → IsLaid 0 new.pieces new.size
        → Stands v slot w → Stands (record v { stages = n; claims = rest; plan = new }) slot w }
    ensures again { (v : LayerView) (n : Stages) (rest : List Extent) (new : Plan) (slot : ℕ) (w : World) (t : ℕ) (e : L2Entry) (o : L2Entry) → entry_for t v.stages.entries ≡ Some o → IsPlace o.pos → StagesEntry t e v.stages n → CanBeEntry v.layout v.stages (file_of w slot) t e → (IsPlace e.pos → v.claims ≡ claim e.pos e.size ∷ rest) → ((IsPlace e.pos → ⊥) → v.claims ≡ rest)
        → MayGiveBack o.pos (length (file_of w slot)) v.plan new → IsLaid 0 new.pieces new.size → 0 < v.plan.size → Stands v slot w → Stands (record v { stages = n; claims = rest; plan = new }) slot w }
    ensures over_none { (v : LayerView) (n : Stages) (rest : List Extent) (slot : ℕ) (w : World) (t : ℕ) (e : L2Entry) (o : L2Entry) → entry_for t v.stages.entries ≡ Some o → (IsPlace o.pos → ⊥) → StagesEntry t e v.stages n → CanBeEntry v.layout v.stages (file_of w slot) t e → (IsPlace e.pos → v.claims ≡ claim e.pos e.size ∷ rest) → ((IsPlace e.pos → ⊥) → v.claims ≡ rest)
        → Stands v slot w → Stands (record v { stages = n; claims = rest }) slot w }
    ensures word { (v : LayerView) (n : Stages) (rest : List Extent) (new : Plan) (slot : ℕ) (w : World) (g pos : ℕ) → v.claims ≡ claim pos 2048 ∷ rest
        → place_for g v.stages.words ≡ None → StagesWord g pos v.stages n → CanBeWord v.layout g pos → (NamesAligned (word_at v.layout (file_of w slot) g) → ⊥)
        → Becomes v.plan new (left_at (word_at v.layout (file_of w slot) g) v.plan.pieces) v.plan.size → IsLaid 0 new.pieces new.size
        → Stands v slot w → Stands (record v { stages = n; claims = rest; plan = new }) slot w }
{}

/// A second header with the mark, once it stays, keeps it standing and marked; and a stop leaves all tracks as they were.
pub fn marks_stand()
    ensures stands { (v : LayerView) (slot : ℕ) (old new : World) (bytes : List ℕ) (c : CckdHeader) → SpellsSecond bytes c → FitsLayout v.layout c → c.options / 128 % 2 ≡ 1
        → Stands v slot old → new ≡ after_sync slot (after_write slot 512 bytes old) → Stands (record v { marked = true }) slot new }
    ensures keeps { (null : NullBytes) (d : Tracks) (later : List Later) (l : Layout) (slot : ℕ) (old new : Seen) (bytes : List ℕ) (c : CckdHeader)
        → SpellsSecond bytes c → FitsLayout l c → Tells old → StopsLeave slot (IsRemarked old.world.events slot bytes) old new
        → EachOutcome slot (Keeps null l d later) old.world.events → AtEach old.world.events new.world.events (EachOutcome slot (Keeps null l d later)) }
{}

/// Of a layer that is marked, a stop at each operation of a write or a hardening leaves nothing but images that say that they were
/// opened; and of a close, these or the closed one.
pub fn marks_stay()
    ensures writes { (s : LayerState) (old new : Seen) → KeepsMark s old new → Tells old → Agrees s old.world → s.marked ≡ true → AtEach old.world.events new.world.events (EachOutcome s.slot IsMarked) }
    ensures hardens { (s : LayerState) (old new : Seen) → KeepsHeaders s old new → Tells old → Agrees s old.world → s.marked ≡ true → AtEach old.world.events new.world.events (EachOutcome s.slot IsMarked) }
    ensures closes { (s : LayerState) (old new : Seen) → ClosesLast s old new → Tells old → Agrees s old.world → s.marked ≡ true
        → AtEach old.world.events new.world.events (EachOutcome s.slot (λ file. IsMarked file ⊎ IsClosed s.tables.layout file)) }
{}

/// A layer that was closed stands; and a stop in between leaves all tracks as they were.
pub fn closes_stand()
    ensures stands { (v : LayerView) (slot : ℕ) (old new : World) (c : CckdHeader) → FitsLayout v.layout c → Stands v slot old → IsSure new
        → IsClosedFrom v.layout.order v.plan.pieces c (file_of old slot) (file_of new slot) → EachOutcome slot (λ f. f ≡ file_of new slot) new.events
        → Stands (record v { marked = false }) slot new }
    ensures keeps { (null : NullBytes) (d : Tracks) (later : List Later) (v : LayerView) (slot : ℕ) (old new : Seen) (c : CckdHeader) → FitsLayout v.layout c → Tells old
        → Stands v slot old.world → StopsLeave slot (IsClosingAs old.world.events slot v.plan.pieces v.plan.size c) old new
        → EachOutcome slot (Keeps null v.layout d later) old.world.events → AtEach old.world.events new.world.events (EachOutcome slot (Keeps null v.layout d later)) }
{}

/// A layer that lacks room for a write tells why, by its file alone. The groups are those that have a new table staged, and that of the
/// track; and all is hardened only where nothing is staged.
pub fn fulls_are_justified()
    ensures { (s : LayerState) (w : World) (t : ℕ) (need : Option ℕ) (full : Full) (a : Attempt) → LacksRoom s w t need full → t / 256 < s.tables.layout.groups
        → a.limit ≡ s.plan.limit → ((n : ℕ) → need ≡ Some n → n ≡ aligned_up a.given) → a.group ≡ t / 256
        → ((g : ℕ) → IsMoved g s.tables.stages → IsOneOf g a.groups) → IsOneOf (t / 256) a.groups → (a.quiet ≡ true → s.tables.stages ≡ nothing_staged)
        → IsJustified a s.tables.layout (file_of w s.slot) full }
{}

/// A file whose survey meets no misfit, and whose spaces end inside it, is an image, said pair by pair; and an image has such a survey.
pub fn images_have_no_misfit()
    ensures image { (l : Layout) (file : List ℕ) → IsLayout l → area_of l.groups ≤ length file → HasNoMisfit l file → IsSnug l file → IsImage l file }
    ensures clean { (l : Layout) (file : List ℕ) → IsImage l file → HasNoMisfit l file × IsSnug l file }
{}
