//! What the files, the layers and the stack have to do with each other. The functions do nothing: each contract is a law.
ghost use Rattle.std.specs.Prelude.{ℕ, ◌≡◌, ◌<◌, ◌≤◌, ◌∷◌, ◌++◌, [], List, length, None, Some, Result, OnOk, IfErr, true, false};
ghost use Rattle.cckd_base.specs.declared.geometry.Geometry.{Geometry as Shape};
ghost use Rattle.cckd_base.specs.declared.geometry.Layout.{Layout};
ghost use Rattle.cckd_base.specs.declared.call.Call.{Call as Asked};
ghost use Rattle.cckd_base.specs.declared.reply.Reply.{Reply as Said};
ghost use Rattle.cckd_base.specs.declared.reply.Refusal.TheVariants.{ReadFault};
ghost use Rattle.cckd_base.specs.declared.layer_fault.StackFault.{StackFault as Fault};
ghost use Rattle.cckd_base.specs.Geometry.{track_count};
ghost use Rattle.cckd_base.specs.Track.{null_track};
ghost use Rattle.cckd_layer.specs.Sits.{IsWhole, identifiers_for};
ghost use Rattle.cckd_layer.specs.Held.{NullBytes, Keeps};
ghost use Rattle.cckd_layer.specs.Mounted.{LayerState};
ghost use Rattle.cckd_layer.specs.Writes.{Agrees, KeepsMap, StopsWithin, StopHolds, StoresIn, IsSameFile, IsOutside};
ghost use Rattle.cckd_shelf.specs.Events.{Event};
ghost use Rattle.cckd_shelf.specs.Seen.{Seen, Tells, Stays};
ghost use Rattle.cckd_shelf.specs.World.{World, IsSure, file_of, after_put};
ghost use Rattle.cckd_shelf.specs.Outcomes.{AtEach};
ghost use Rattle.cckd_shelf.specs.Frame.{OnlyIn};
ghost use Rattle.cckd_stack.specs.Layers.{Layer, Stack as Layered};
ghost use Rattle.cckd_stack.specs.Answers.{Pair, Request, MayAnswer, plain, pair_by, stack_after_call, is_refused};
ghost use Rattle.cckd_stack.specs.History.{refusal_breaks, reply_breaks};
ghost use Rattle.cckd_stack.specs.Stops.{Lies, hardens};
ghost use Rattle.cckd_stack.specs.Moments.{EachOpens, Hardening, KeepsStops};
ghost use Rattle.cckd_stack.specs.Opened.{Opens};
ghost use Rattle.cckd_stack.specs.Called.{AreSnug, StayAbsent};
ghost use Rattle.cckd_stack.specs.Tops.{HoldsLies, laters_of};
ghost use Rattle.cckd_stack.specs.Stacked.{StackState, IsStack, AreLayersFrom, CanReadAll, OnlyCaches, InLayer, stack_of};
ghost use Rattle.cckd_base.specs.declared.open_fault.OpenFault.{OpenFault};
ghost use Rattle.cckd_stack.specs.Mounting.{IsMounted, AreFreshFrom, StandFrom, IsGap, IsRefused, after_syncs};
ghost use Rattle.cckd_stack.specs.Writes.{AgreeAll, AreTied, AreUnchanged, IsHardenedLast, AreSnugFrom, AreAbsentAbove, KeepsStack, KeepsEach, StoresOnTop, HasHardening, StopsLie, StopsSettle, with_pair_on_top, all_mounted, all_hardened, with_written, reply_by, is_broken_by, OnlyHardens, asks};

/// The files open to the stack that is mounted of them.
pub fn mounted_opens()
    ensures { (limit : ℕ) (files : ℕ → List ℕ) (s : StackState) → IsStack s → AreFreshFrom limit 0 s.layers → IsMounted files s
        → Opens s.geometry files (stack_of null_track s.layers files) }
{}

/// The files open to one stack at most, and those that do have no case by which they are refused. Of the files that are mounted the
/// snug ones are those of layers, and no stop leaves a file above the layers where none is.
pub fn files_open_once()
    ensures once { (g : Shape) (files : ℕ → List ℕ) (s other : Layered) → Opens g files s → Opens g files other → s ≡ other }
    ensures gapless { (g : Shape) (files : ℕ → List ℕ) (s : Layered) → Opens g files s → (slot : ℕ) → IsGap files slot → ⊥ }
    ensures caseless { (g : Shape) (files : ℕ → List ℕ) (s : Layered) → Opens g files s → (why : OpenFault) → IsRefused files why → ⊥ }
    ensures snug { (files : ℕ → List ℕ) (s : StackState) → AreSnug files → IsMounted files s → AreSnugFrom files 0 s.layers }
    ensures absent { (w : World) (s : StackState) → StayAbsent w → IsMounted (file_of w) s → AreAbsentAbove (length s.layers) (after_syncs (length s.layers) w) }
{}

/// What a stop may leave of the last layer's file is the same as the layer says it and as the stack does.
pub fn bridges()
    ensures up { (l : Layout) (g : Shape) (identifier : List ℕ) (hard : Layer) (later : List Pair) (file : List ℕ) → identifier ∷ [] ≡ identifiers_for l → l.geo ≡ g
        → ((t : ℕ) → track_count g ≤ t → hard t ≡ None) → Keeps null_track l hard (laters_of later) file → HoldsLies identifier g hard later file }
    ensures down { (l : Layout) (g : Shape) (identifier : List ℕ) (hard : Layer) (later : List Pair) (file : List ℕ) → IsWhole l file
        → HoldsLies identifier g hard later file → Keeps null_track l hard (laters_of later) file }
{}

/// What a call makes of the last layer, it makes of the stack, where it does nothing but to that layer's file.
pub fn last_layers_count()
    ensures keeps { (null : NullBytes) (g : Shape) (lower : List LayerState) (x y : LayerState) (old new : Seen) → AreLayersFrom g 0 (lower ++ x ∷ []) → IsSameFile x y → OnlyIn x.slot old new
        → KeepsMap null x y old new → KeepsStack null (lower ++ x ∷ []) (lower ++ y ∷ []) old new }
    ensures stores { (null : NullBytes) (g : Shape) (lower : List LayerState) (x y : LayerState) (old new : Seen) (t : ℕ) (bytes : List ℕ) → AreLayersFrom g 0 (lower ++ x ∷ []) → IsSameFile x y
        → OnlyIn x.slot old new → t < track_count g → (Tells old → Agrees x old.world → StoresIn [] null x y t (Some bytes) old new)
        → StoresOnTop null (t, bytes) (lower ++ x ∷ []) (lower ++ y ∷ []) old new }
    ensures lies { (null : NullBytes) (g : Shape) (lower : List LayerState) (x : LayerState) (old new : Seen) → AreLayersFrom g 0 (lower ++ x ∷ []) → OnlyIn x.slot old new
        → StopsWithin null x old new → StopsLie null g (lower ++ x ∷ []) old new }
    ensures settles { (null : NullBytes) (g : Shape) (lower : List LayerState) (x : LayerState) (old new : Seen) → AreLayersFrom g 0 (lower ++ x ∷ []) → OnlyIn x.slot old new
        → StopHolds null x old new → StopsSettle null g (lower ++ x ∷ []) old new }
{}

/// What is hardened and was written since, once a call is done: as before where the stack is the same, all of it where that
/// was hardened, and a pair more where that was written.
pub fn hardenings_go_on()
    ensures kept { (null : NullBytes) (g : Shape) (layers next : List LayerState) (old new : Seen) (was : Hardening) → HasHardening null g layers was old → (Tells old → Tells new)
        → KeepsStack null layers next old new → StopsLie null g layers old new → HasHardening null g next was new }
    ensures settled { (null : NullBytes) (g : Shape) (layers next : List LayerState) (old new : Seen) (was : Hardening) → HasHardening null g layers was old → (Tells old → Tells new)
        → KeepsStack null layers next old new → StopsSettle null g layers old new → HasHardening null g next (all_hardened was) new }
    ensures written { (null : NullBytes) (g : Shape) (layers next : List LayerState) (old new : Seen) (was : Hardening) (p : Pair) → HasHardening null g layers was old → (Tells old → Tells new)
        → StoresOnTop null p layers next old new → StopsLie null g layers old new → HasHardening null g next (with_written p was) new }
{}

/// Where whatever a stop leaves lies so, it keeps to what the layered disk may leave: within any call and behind it, where
/// the call hardens nothing or is refused; and where it hardens, once that is settled.
pub fn stops_are_kept()
    ensures unhardened { (g : Shape) (was : Hardening) (r : Request) (said : Said) (old new : List Event) → AtEach old new (EachOpens g (Lies was.hard was.later))
        → hardens r.asked said ≡ false → KeepsStops g was r said old new }
    ensures hardened { (g : Shape) (was : Hardening) (r : Request) (said : Said) (old new : List Event) → AtEach old new (EachOpens g (Lies was.hard was.later))
        → hardens r.asked said ≡ true → EachOpens g (Lies (stack_after_call g was.stack r said) []) new → KeepsStops g was r said old new }
{}

/// A stack that hardens or closes does what the layered disk promises of the call.
pub fn hardening_is_answered()
    ensures answer { (g : Shape) (s : Layered) (given : List ℕ) (c : Asked) (done : Said) (result : Result (Unit {0}) Fault) → OnlyHardens c done → IfErr result (InLayer IsOutside)
        → MayAnswer g s (asks c given) (plain (reply_by done result)) }
    ensures layers { (g : Shape) (s : Layered) (given : List ℕ) (c : Asked) (done : Said) (result : Result (Unit {0}) Fault) → OnlyHardens c done
        → stack_after_call g s (asks c given) (reply_by done result) ≡ s }
    ensures stops { (g : Shape) (was : Hardening) (given : List ℕ) (c : Asked) (done : Said) (result : Result (Unit {0}) Fault) (old new : List Event) → OnlyHardens c done
        → AtEach old new (EachOpens g (Lies was.hard was.later)) → OnOk result (EachOpens g (Lies was.stack []) new) → KeepsStops g was (asks c given) (reply_by done result) old new }
{}

/// A call breaks the layered disk where it breaks the stack, unless a fault of reading breaks it; and one that writes a pair and
/// is answered leaves the stack with that pair on top.
pub fn writes_are_answered()
    ensures breaks { (c : Asked) (said : Said) (result : Result (Unit {0}) Fault) → refusal_breaks c ReadFault ≡ false → is_refused said ≡ false
        → reply_breaks c (reply_by said result) ≡ is_broken_by result }
    ensures layers { (g : Shape) (s : Layered) (r : Request) (p : Pair) (said : Said) → pair_by g s r ≡ Some p → is_refused said ≡ false
        → stack_after_call g s r said ≡ with_pair_on_top s p }
{}

/// Layers of which only cached tables changed agree with their files as before, or are tied to them as before, and are the same stack;
/// and where none was changed the last one is hardened.
pub fn caches_keep_stacks()
    ensures keeps { (null : NullBytes) (layers next : List LayerState) (old new : Seen) → OnlyCaches layers next → (Tells old → Tells new) → Stays old new → CanReadAll next new
        → KeepsEach null layers next old new }
    ensures unchanged { (layers next : List LayerState) → OnlyCaches layers next → AreUnchanged layers → AreUnchanged next }
    ensures hardened { (layers : List LayerState) → 1 ≤ length layers → AreUnchanged layers → IsHardenedLast layers }
    ensures sure { (layers : List LayerState) (w : World) → 1 ≤ length layers → AreTied layers w → IsSure w }
{}

/// Layers that agree with their files are tied to them, and such can be read. Only what has happened counts, and what is put
/// doesn't. Layers that were mounted agree, and their stack is hardened as it is.
pub fn mounted_layers_agree()
    ensures ties { (layers : List LayerState) (w : World) → AgreeAll layers w → AreTied layers w }
    ensures reads { (layers : List LayerState) (s : Seen) → (Tells s → IsSure s.world → AreTied layers s.world) → CanReadAll layers s }
    ensures events { (layers : List LayerState) (old new : World) → old.events ≡ new.events → AgreeAll layers old → AgreeAll layers new }
    ensures puts { (layers : List LayerState) (bytes : List ℕ) (w : World) → AgreeAll layers w → AgreeAll layers (after_put bytes w) }
    ensures agree { (limit : ℕ) (s : StackState) (old new : Seen) → IsStack s → AreFreshFrom limit 0 s.layers → Tells new → IsSure old.world → IsMounted (file_of old.world) s
        → AreSnugFrom (file_of old.world) 0 s.layers → new.world ≡ after_syncs (length s.layers) old.world → StandFrom (file_of old.world) new.world 0 s.layers → AgreeAll s.layers new.world }
    ensures hardened { (limit : ℕ) (s : StackState) (old new : Seen) → IsStack s → AreFreshFrom limit 0 s.layers → Tells new → IsSure old.world → IsMounted (file_of old.world) s
        → AreSnugFrom (file_of old.world) 0 s.layers → new.world ≡ after_syncs (length s.layers) old.world → StandFrom (file_of old.world) new.world 0 s.layers
        → AreAbsentAbove (length s.layers) new.world → HasHardening null_track s.geometry s.layers (all_mounted null_track s.layers new) new }
{}
