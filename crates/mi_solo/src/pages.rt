//! What the sections of pages make of the view of their own actor, call by call. The functions
//! do nothing.
ghost use Rattle.std.specs.Prelude.{◌≡◌, ◌≢◌, ◌+◌, ◌<◌, ◌≤◌, ◌^◌, ℕ, ℤ, List, Some, None, false, true, length, slice_get, IsTrue, IsSome};
ghost use Rattle.std.specs.List.{AllByRecursion};
ghost use Rattle.mi_base.specs.History.{is_live, updates_of};
ghost use Rattle.mi_base.specs.Permutations.{key_distance, permutation_of};
ghost use Rattle.mi_key.specs.declared.entries.Entry.{Entry};
ghost use Rattle.mi_key.specs.declared.ranges.Interval.{Interval};
ghost use Rattle.mi_page.specs.Entries.{has_entry, has_living, without_dead};
ghost use Rattle.mi_page.specs.Nodes.{Node, item_count, middle_key};
ghost use Rattle.mi_board.specs.Boards as board;
ghost use Rattle.mi_board.specs.Boards.{HasRoom, MayCommit, crowded_at};
ghost use Rattle.mi_entries.specs.Actors.{Actor, Pin};
ghost use Rattle.mi_entries.specs.Entries.{grid};
ghost use Rattle.mi_entries.specs.Records.{Rows, home, shard_at};
ghost use Rattle.mi_core.specs.Effects.{trim_leaf};
ghost use Rattle.mi_core.specs.Events.{Can, CanDelete, CanInsert, MayPost};
ghost use Rattle.mi_core.specs.Events.Event.{delete, grow, insert, meet, post, refuse, refuse_at, split_page, trim, visit};
ghost use Rattle.mi_core.specs.Kept.{Kept};
ghost use Rattle.mi_core.specs.Refusals.Refusal.{crowded, full, grown, page_full};
ghost use Rattle.mi_core.specs.State.{State, node_at};
ghost use Rattle.mi_world.specs.declared.answers.Commit.TheVariants as commit;
ghost use Rattle.mi_world.specs.declared.answers.Parted.TheVariants.{Parted, Roomy};
ghost use Rattle.mi_world.specs.declared.answers.Put.TheVariants as put;
ghost use Rattle.mi_world.specs.declared.answers.Visit.{Visit};
ghost use Rattle.mi_world.specs.Boards.{Grew};
ghost use Rattle.mi_world.specs.Pages.{CommitsDelete, CommitsInsert, IsChildAt, IsInLeaf, MayDelete, MayInsert, PartsPage, Posts, Visits, delete_key, insert_key, next_number, offered_by, pinned};
ghost use Rattle.mi_solo.specs.Onward.{Makes};
ghost use Rattle.mi_solo.specs.Seeking.{AnswersVisit, EndsAfter, HasSibling, IsMeasured, PointsDown, PointsRight, ShowsPage, offered_of};
ghost use Rattle.mi_solo.specs.Viewing.{shown_to};

/// A named page is linked, and shown as it is; where it has an end it has a right sibling.
pub fn pages_are_shown()
    ensures linked { (s : State) (a : ℕ) (r : Actor) (page : ℕ)
        → IsTrue ((shown_to s a r).named page)
        → (node : Node) × (node_at s.pages page ≡ Some node) }
    ensures shown { (s : State) (a : ℕ) (r : Actor) (page : ℕ) (node : Node)
        → node_at s.pages page ≡ Some node → ShowsPage (shown_to s a r) page node }
    ensures sibling { (s : State) → Kept s → (page : ℕ) (node : Node)
        → node_at s.pages page ≡ Some node → HasSibling node }
{}

/// What a visit answers, and what it offers at its actor's pin; a page's entries are measured.
pub fn visits_follow()
    ensures told { (page : ℕ) (node : Node) (range : Interval) (result : Visit)
        → Makes (visit page) (λ s v w. node_at s.pages page ≡ Some node
        → AnswersVisit node range result → Visits v w page range result) }
    ensures offered { (page : ℕ) (node : Node) (range : Interval) (result : Visit)
        → Makes (visit page) (λ s v w. node_at s.pages page ≡ Some node → IsSome v.pin
        → IsInLeaf v range → AnswersVisit node range result
        → offered_of node range (length (updates_of (pinned v))) result
        ≡ offered_by v w page range result) }
    ensures pin { (s : State) → Kept s → (a : ℕ) (r : Actor) → slice_get s.actors a ≡ Some r
        → (pin : Pin) → r.pin ≡ Some pin
        → length (updates_of (pinned (shown_to s a r))) ≡ pin.at.updates }
    ensures measured { (s : State) → Kept s → (page : ℕ) (node : Node)
        → node_at s.pages page ≡ Some node → node.level ≡ 0
        → AllByRecursion (IsMeasured s.board.settings) node.entries }
{}

/// What an insert answers.
pub fn inserts_follow()
    ensures down { (page op id : ℕ) (node : Node) (vector : List ℤ) (dists : List ℕ) (child : ℕ)
        → Makes (visit page) (λ s v w. node_at s.pages page ≡ Some node
        → PointsDown node 0 (insert_key v dists id 0) child
        → CommitsInsert v w page op id vector dists (commit.Down child)) }
    ensures right { (page op id : ℕ) (node : Node) (vector : List ℤ) (dists : List ℕ) (next : ℕ)
        → Makes (meet page) (λ s v w. node_at s.pages page ≡ Some node
        → PointsRight node 0 (insert_key v dists id (next_number v)) next
        → CommitsInsert v w page op id vector dists (commit.Right next)) }
    ensures full { (page op id : ℕ) (node : Node) (vector : List ℤ) (dists : List ℕ)
        → Makes (refuse_at page full) (λ s v w. node_at s.pages page ≡ Some node
        → EndsAfter node 0 (insert_key v dists id (next_number v))
        → CommitsInsert v w page op id vector dists (commit.Full s.board.settings.updates)) }
    ensures crowded { (page op id : ℕ) (node : Node) (vector : List ℤ) (dists : List ℕ)
        → Makes (refuse_at page (crowded vector)) (λ s v w. node_at s.pages page ≡ Some node
        → MayInsert v id vector dists → EndsAfter node 0 (insert_key v dists id (next_number v))
        → HasRoom s.board → CommitsInsert v w page op id vector dists commit.Crowded) }
    ensures page_full { (page op id : ℕ) (node : Node) (vector : List ℤ) (dists : List ℕ)
        → Makes (refuse_at page (page_full page)) (λ s v w. node_at s.pages page ≡ Some node
        → MayInsert v id vector dists → EndsAfter node 0 (insert_key v dists id (next_number v))
        → HasRoom s.board → crowded_at s.board ((grid s.board.settings).perm vector) ≡ false
        → CommitsInsert v w page op id vector dists commit.PageFull) }
    ensures done { (op id page : ℕ) (node : Node) (kept : Rows) (e : Entry)
        → Makes (insert op id page node kept e) (λ s v w.
        CommitsInsert v w page op id e.vector e.dists.items (commit.Done e.birth)) }
{}

/// An insert that the trait allows may be one, where the board and the page have room: of the
/// board, as an event, and of the page.
pub fn inserts_may_be()
    ensures commits { (s : State) → Kept s → (a : ℕ) (r : Actor) → slice_get s.actors a ≡ Some r
        → (id : ℕ) (vector : List ℤ) (dists : List ℕ) → MayInsert (shown_to s a r) id vector dists
        → MayCommit s.board a (permutation_of dists) }
    ensures board { (s : State) → Kept s → (a : ℕ) (r : Actor) → slice_get s.actors a ≡ Some r
        → (id : ℕ) (vector : List ℤ) (dists : List ℕ) → MayInsert (shown_to s a r) id vector dists
        → board.MayInsert s.board id vector (permutation_of dists) (key_distance dists) }
    ensures event { (s : State) → Kept s → (a : ℕ) (r : Actor) → slice_get s.actors a ≡ Some r
        → (page : ℕ) (node : Node) → node_at s.pages page ≡ Some node → (id : ℕ) (e : Entry)
        → MayInsert (shown_to s a r) id e.vector e.dists.items → id < 2 ^ 40
        → e.birth ≡ next_number (shown_to s a r) → e.death ≡ None
        → e.key ≡ insert_key (shown_to s a r) e.dists.items id e.birth
        → (shown_to s a r).low page
        ≤ insert_key (shown_to s a r) e.dists.items id (next_number (shown_to s a r))
        → EndsAfter node 0
        (insert_key (shown_to s a r) e.dists.items id (next_number (shown_to s a r)))
        → HasRoom s.board → crowded_at s.board ((grid s.board.settings).perm e.vector) ≡ false
        → length (without_dead r.floor.updates node.entries) < 32
        → CanInsert s r id page node (shard_at s.shards (home id)).rows e }
    ensures absent { (s : State) → Kept s → (a : ℕ) (r : Actor) → slice_get s.actors a ≡ Some r
        → (page : ℕ) (node : Node) → node_at s.pages page ≡ Some node
        → (id : ℕ) (kept : Rows) (e : Entry) → CanInsert s r id page node kept e → (floor : ℕ)
        → has_entry e.key (without_dead floor node.entries) ≡ false }
{}

/// What a delete answers.
pub fn deletes_follow()
    ensures down { (page op id : ℕ) (node : Node) (child : ℕ)
        → Makes (visit page) (λ s v w. node_at s.pages page ≡ Some node
        → PointsDown node 0 (delete_key v id) child
        → CommitsDelete v w page op id (commit.Down child)) }
    ensures right { (page op id : ℕ) (node : Node) (next : ℕ)
        → Makes (visit page) (λ s v w. node_at s.pages page ≡ Some node
        → PointsRight node 0 (delete_key v id) next
        → CommitsDelete v w page op id (commit.Right next)) }
    ensures full { (page op id : ℕ) (node : Node)
        → Makes (refuse_at page full) (λ s v w. node_at s.pages page ≡ Some node
        → EndsAfter node 0 (delete_key v id)
        → CommitsDelete v w page op id (commit.Full s.board.settings.updates)) }
    ensures done { (op id page : ℕ) (node : Node) (kept : Rows) (key : ℕ)
        → Makes (delete op id page node kept key) (λ s v w.
        CommitsDelete v w page op id (commit.Done (next_number v))) }
{}

/// A delete that the trait allows may be one, where the log has room: of the board, as an event,
/// and of the page, which has its entry without a death.
pub fn deletes_may_be()
    ensures commits { (s : State) → Kept s → (a : ℕ) (r : Actor) → slice_get s.actors a ≡ Some r
        → (id : ℕ) → (may : MayDelete (shown_to s a r) id)
        → MayCommit s.board a (permutation_of may.kept.dists.items) }
    ensures board { (s : State) → Kept s → (a : ℕ) (r : Actor) → slice_get s.actors a ≡ Some r
        → (id : ℕ) → (may : MayDelete (shown_to s a r) id)
        → board.MayDelete s.board id (permutation_of may.kept.dists.items) }
    ensures event { (s : State) → Kept s → (a : ℕ) (r : Actor) → slice_get s.actors a ≡ Some r
        → (page : ℕ) (node : Node) → node_at s.pages page ≡ Some node → (id : ℕ)
        → MayDelete (shown_to s a r) id
        → (shown_to s a r).low page ≤ delete_key (shown_to s a r) id
        → EndsAfter node 0 (delete_key (shown_to s a r) id) → HasRoom s.board
        → CanDelete s r id page node (shard_at s.shards (home id)).rows
        (delete_key (shown_to s a r) id) }
    ensures living { (s : State) → Kept s → (a : ℕ) (r : Actor) → slice_get s.actors a ≡ Some r
        → (page : ℕ) (node : Node) → node_at s.pages page ≡ Some node
        → (id : ℕ) (kept : Rows) (key : ℕ) → CanDelete s r id page node kept key
        → has_living key node.entries ≡ true }
{}

/// What a halving answers, of a page with room with a trim or without one.
pub fn halves_follow()
    ensures parted { (page child : ℕ) (node : Node)
        → Makes (split_page page node) (λ s v w. v.fresh ≡ Some child
        → PartsPage v w page (Parted (middle_key node) child)) }
    ensures roomy { (page : ℕ) (node : Node)
        → Makes (visit page) (λ s v w. node_at s.pages page ≡ Some node
        → item_count (trim_leaf v.floor.updates node) < 32 → PartsPage v w page Roomy) }
    ensures trimmed { (page : ℕ) (node : Node)
        → Makes (trim page node) (λ s v w. item_count (trim_leaf v.floor.updates node) < 32
        → PartsPage v w page Roomy) }
    ensures full { (s : State) → Kept s → (page : ℕ) (node : Node)
        → node_at s.pages page ≡ Some node → (floor : ℕ) → item_count (trim_leaf floor node) ≡ 32
        → trim_leaf floor node ≡ node }
{}

/// What a post answers, and when it may be an event.
pub fn posts_follow()
    ensures down { (page level key child next : ℕ) (node : Node)
        → Makes (visit page) (λ s v w. node_at s.pages page ≡ Some node
        → PointsDown node level key next → Posts v w page level key child (put.Down next)) }
    ensures right { (page level key child next : ℕ) (node : Node)
        → Makes (visit page) (λ s v w. node_at s.pages page ≡ Some node
        → PointsRight node level key next → Posts v w page level key child (put.Right next)) }
    ensures page_full { (page level key child : ℕ) (node : Node)
        → Makes (visit page) (λ s v w. node_at s.pages page ≡ Some node → EndsAfter node level key
        → item_count (trim_leaf v.floor.updates node) ≡ 32
        → Posts v w page level key child put.PageFull) }
    ensures done { (page level key child : ℕ) (node : Node)
        → Makes (post page node key child) (λ s v w. node.level ≡ level
        → Posts v w page level key child put.Done) }
    ensures event { (s : State) (a : ℕ) (r : Actor) (level key child : ℕ)
        → IsChildAt (shown_to s a r) level key child → (page : ℕ) (node : Node)
        → node_at s.pages page ≡ Some node → (shown_to s a r).low page ≤ key
        → EndsAfter node level key → length node.routes < 32 → MayPost s node key child }
{}

/// What a call for a higher root answers, and when it may be an event: where the root is of the
/// level below, and else it is of this level at least.
pub fn roots_follow()
    ensures grown { (level key child : ℕ)
        → Makes (grow level key child) (λ s v w. Grew v w level child true) }
    ensures same { (level child : ℕ)
        → Makes (refuse (grown level)) (λ s v w. Grew v w level child false) }
    ensures event { (s : State) (a : ℕ) (r : Actor) (level key child fresh : ℕ)
        → IsChildAt (shown_to s a r) level key child → r.fresh ≡ Some fresh
        → s.board.height + 1 ≡ level → Can s a r (grow level key child) }
    ensures already { (s : State) → Kept s → (a : ℕ) (r : Actor) (level key child : ℕ)
        → IsChildAt (shown_to s a r) level key child → s.board.height + 1 ≢ level
        → level ≤ s.board.height }
{}
