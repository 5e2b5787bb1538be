//! What the sections of splits and sweeps make of the view of their own actor, call by call. The
//! functions do nothing.
ghost use Rattle.std.specs.Prelude.{◌≡◌, ◌-◌, ◌<◌, ◌≤◌, ◌^◌, ℕ, ℤ, Bool, List, Option, Some, Ok, Err, false, true, length, slice_get};
ghost use Rattle.std.specs.List.{AllByRecursion};
ghost use Rattle.mi_base.specs.Permutations.{key_distance};
ghost use Rattle.mi_base.specs.Prefixes.{all_below};
ghost use Rattle.mi_base.specs.declared.refusals.NoMemory.{NoMemory};
ghost use Rattle.mi_key.specs.declared.entries.Entry.{Entry};
ghost use Rattle.mi_page.specs.Entries.{has_entry, without_dead};
ghost use Rattle.mi_page.specs.Keys.{IsInside};
ghost use Rattle.mi_page.specs.Nodes.{Node, item_count};
ghost use Rattle.mi_entries.specs.Actors.{Actor, SplitWork, SweepWork};
ghost use Rattle.mi_entries.specs.Entries.{grid};
ghost use Rattle.mi_entries.specs.Splits.{copy_in_child};
ghost use Rattle.mi_core.specs.Effects.{trim_leaf};
ghost use Rattle.mi_core.specs.Events.{Can};
ghost use Rattle.mi_core.specs.Events.Event.{copy_in, gather, start, sweep, trim, uncopy, visit};
ghost use Rattle.mi_core.specs.Kept.{Kept};
ghost use Rattle.mi_core.specs.State.{State, node_at};
ghost use Rattle.mi_world.specs.declared.answers.Put.TheVariants as put;
ghost use Rattle.mi_world.specs.declared.answers.Visit.TheVariants.{Down, Read, Right};
ghost use Rattle.mi_world.specs.Pages.{MayDelete, MayInsert, Trims, next_number};
ghost use Rattle.mi_world.specs.Splits.{CopiesIn, Gathers, MayGather, Sweeps, Uncopies, gather_key, last_copy, last_key, next_copy};
ghost use Rattle.mi_solo.specs.Onward.{Makes};
ghost use Rattle.mi_solo.specs.Seeking.{EndsAfter, IsCopied, PointsDown, PointsRight, ReadsOn, TrimsTo};
ghost use Rattle.mi_solo.specs.Viewing.{shown_to};

/// What a gather answers, and when it may be an event, or its beginning alone.
pub fn gathers_follow()
    ensures down { (page : ℕ) (node : Node) (child : ℕ)
        → Makes (start page) (λ s v w. node_at s.pages page ≡ Some node
        → PointsDown node 0 (gather_key v) child → Gathers v w page (Ok (Down child))) }
    ensures right { (page : ℕ) (node : Node) (next : ℕ)
        → Makes (start page) (λ s v w. node_at s.pages page ≡ Some node
        → PointsRight node 0 (gather_key v) next → Gathers v w page (Ok (Right next))) }
    ensures memory { (page : ℕ) (e : NoMemory)
        → Makes (start page) (λ s v w. Gathers v w page (Err e)) }
    ensures read { (page : ℕ) (node : Node) (next : Option ℕ)
        → Makes (gather page node) (λ s v w. ReadsOn node (last_key v v.leaf) next
        → Gathers v w page (Ok (Read next))) }
    ensures starts { (s : State) → Kept s → (a : ℕ) (r : Actor) → slice_get s.actors a ≡ Some r
        → r.ended ≡ false → MayGather (shown_to s a r) → (page : ℕ) (node : Node)
        → node_at s.pages page ≡ Some node → Can s a r (start page) }
    ensures event { (s : State) → Kept s → (a : ℕ) (r : Actor) → slice_get s.actors a ≡ Some r
        → r.ended ≡ false → MayGather (shown_to s a r) → (page : ℕ) (node : Node)
        → node_at s.pages page ≡ Some node
        → (shown_to s a r).low page ≤ gather_key (shown_to s a r)
        → EndsAfter node 0 (gather_key (shown_to s a r)) → Can s a r (gather page node) }
{}

/// What a copy answers, and when it may be an event; no entry has its key before.
pub fn copies_follow()
    ensures down { (page : ℕ) (node : Node) (child : ℕ)
        → Makes (visit page) (λ s v w. node_at s.pages page ≡ Some node
        → PointsDown node 0 (next_copy v) child → CopiesIn v w page (put.Down child)) }
    ensures right { (page : ℕ) (node : Node) (next : ℕ)
        → Makes (visit page) (λ s v w. node_at s.pages page ≡ Some node
        → PointsRight node 0 (next_copy v) next → CopiesIn v w page (put.Right next)) }
    ensures page_full { (page : ℕ) (node : Node)
        → Makes (visit page) (λ s v w. node_at s.pages page ≡ Some node
        → EndsAfter node 0 (next_copy v) → item_count (trim_leaf v.floor.updates node) ≡ 32
        → CopiesIn v w page put.PageFull) }
    ensures done { (page : ℕ) (node : Node) (e : Entry)
        → Makes (copy_in page node e) (λ s v w. CopiesIn v w page put.Done) }
    ensures key { (s : State) (a : ℕ) (r : Actor) (w : SplitWork) → r.split ≡ Some w
        → (old : Entry) → slice_get w.gathered w.copied ≡ Some old
        → next_copy (shown_to s a r) ≡ (copy_in_child (grid s.board.settings) w.leaf old).key }
    ensures event { (s : State) → Kept s → (a : ℕ) (r : Actor) → slice_get s.actors a ≡ Some r
        → (page : ℕ) (node : Node) → node_at s.pages page ≡ Some node → (w : SplitWork)
        → r.split ≡ Some w → (old : Entry) → slice_get w.gathered w.copied ≡ Some old
        → (shown_to s a r).whole ≡ true → (shown_to s a r).low page ≤ next_copy (shown_to s a r)
        → EndsAfter node 0 (next_copy (shown_to s a r))
        → length (without_dead r.floor.updates node.entries) < 32
        → Can s a r (copy_in page node (copy_in_child (grid s.board.settings) w.leaf old)) }
    ensures absent { (s : State) → Kept s → (a : ℕ) (r : Actor) → slice_get s.actors a ≡ Some r
        → (page : ℕ) (node : Node) → node_at s.pages page ≡ Some node → (w : SplitWork)
        → r.split ≡ Some w → (old : Entry) → slice_get w.gathered w.copied ≡ Some old
        → node.level ≡ 0 → (floor : ℕ)
        → has_entry (copy_in_child (grid s.board.settings) w.leaf old).key
        (without_dead floor node.entries) ≡ false }
{}

/// What the taking back of a copy answers, and when it may be an event; the copy is on the page of
/// its key.
pub fn uncopies_follow()
    ensures down { (page : ℕ) (node : Node) (child : ℕ)
        → Makes (visit page) (λ s v w. node_at s.pages page ≡ Some node
        → PointsDown node 0 (last_copy v) child → Uncopies v w page (put.Down child)) }
    ensures right { (page : ℕ) (node : Node) (next : ℕ)
        → Makes (visit page) (λ s v w. node_at s.pages page ≡ Some node
        → PointsRight node 0 (last_copy v) next → Uncopies v w page (put.Right next)) }
    ensures done { (page : ℕ) (node : Node) (e : Entry) (told : Bool)
        → Makes (uncopy page node e told) (λ s v w. told ≡ v.told → Uncopies v w page put.Done) }
    ensures key { (s : State) (a : ℕ) (r : Actor) (w : SplitWork) → r.split ≡ Some w
        → (old : Entry) → slice_get w.gathered (w.copied - 1) ≡ Some old
        → last_copy (shown_to s a r) ≡ (copy_in_child (grid s.board.settings) w.leaf old).key }
    ensures event { (s : State) → Kept s → (a : ℕ) (r : Actor) → slice_get s.actors a ≡ Some r
        → (page : ℕ) (node : Node) → node_at s.pages page ≡ Some node → (w : SplitWork)
        → r.split ≡ Some w → (old : Entry) → slice_get w.gathered (w.copied - 1) ≡ Some old
        → 0 < w.copied → (shown_to s a r).low page ≤ last_copy (shown_to s a r)
        → EndsAfter node 0 (last_copy (shown_to s a r)) → (told : Bool)
        → told ≡ (shown_to s a r).told
        → Can s a r (uncopy page node (copy_in_child (grid s.board.settings) w.leaf old) told) }
    ensures there { (s : State) → Kept s → (a : ℕ) (r : Actor) → slice_get s.actors a ≡ Some r
        → (page : ℕ) (node : Node) → node_at s.pages page ≡ Some node → (w : SplitWork)
        → r.split ≡ Some w → (old : Entry) → slice_get w.gathered (w.copied - 1) ≡ Some old
        → 0 < w.copied → node.level ≡ 0
        → IsInside node.low node.high (copy_in_child (grid s.board.settings) w.leaf old).key
        → has_entry (copy_in_child (grid s.board.settings) w.leaf old).key node.entries ≡ true }
{}

/// What a sweep answers, and when it may be an event.
pub fn sweeps_follow()
    ensures down { (page : ℕ) (node : Node) (child : ℕ)
        → Makes (visit page) (λ s v w. node_at s.pages page ≡ Some node
        → PointsDown node 0 v.swept child → Sweeps v w page (Down child)) }
    ensures right { (page : ℕ) (node : Node) (next : ℕ)
        → Makes (visit page) (λ s v w. node_at s.pages page ≡ Some node
        → PointsRight node 0 v.swept next → Sweeps v w page (Right next)) }
    ensures read { (page : ℕ) (node : Node) (next : Option ℕ)
        → Makes (sweep page node) (λ s v w. ReadsOn node (last_key v v.sweep) next
        → Sweeps v w page (Read next)) }
    ensures event { (s : State) (a : ℕ) (r : Actor) (page : ℕ) (node : Node)
        → node_at s.pages page ≡ Some node → (w : SweepWork) → r.sweep ≡ Some w
        → (shown_to s a r).low page ≤ (shown_to s a r).swept
        → EndsAfter node 0 (shown_to s a r).swept → Can s a r (sweep page node) }
{}

/// What a trim answers.
pub fn trims_follow()
    ensures { (page : ℕ) (node : Node) (next : Option ℕ)
        → Makes (trim page node) (λ s v w. TrimsTo node next → Trims v w page (Read next)) }
{}

/// What keys are made of fits: the cell of a claimed leaf, the distance and the birth of an
/// update, and what a split copies.
pub fn keys_fit()
    ensures claim { (s : State) → Kept s → (a : ℕ) (r : Actor) → slice_get s.actors a ≡ Some r
        → (p : List ℕ) → r.claim ≡ Some p
        → (length p ≤ s.board.settings.levels)
        × (all_below (length s.board.settings.pivots) p ≡ true) }
    ensures insert { (s : State) → Kept s → (a : ℕ) (r : Actor) → slice_get s.actors a ≡ Some r
        → (id : ℕ) (vector : List ℤ) (dists : List ℕ) → MayInsert (shown_to s a r) id vector dists
        → (key_distance dists < 2 ^ 27) × (next_number (shown_to s a r) < 2 ^ 30) }
    ensures delete { (s : State) → Kept s → (a : ℕ) (r : Actor) → slice_get s.actors a ≡ Some r
        → (id : ℕ) → (may : MayDelete (shown_to s a r) id)
        → (key_distance may.kept.dists.items < 2 ^ 27) × (may.kept.birth < 2 ^ 30) }
    ensures above { (s : State) → Kept s → (a : ℕ) (r : Actor) → slice_get s.actors a ≡ Some r
        → (w : SplitWork) → r.split ≡ Some w → length w.leaf < s.board.settings.levels }
    ensures copied { (s : State) → Kept s → (a : ℕ) (r : Actor) → slice_get s.actors a ≡ Some r
        → (w : SplitWork) → r.split ≡ Some w
        → AllByRecursion (IsCopied s.board.settings w.leaf) w.gathered }
{}
