//! What commits make of a seat's view. The laws' functions do nothing.
ghost use Rattle.std.specs.Prelude.{IsTrue, List, Some, false, length, ℕ, ℤ, ◌+◌, ◌≡◌};
ghost use Rattle.mi_base.specs.History.{updates_of};
ghost use Rattle.mi_board.specs.Boards.{HasRoom, crowded_at};
ghost use Rattle.mi_core.specs.Events.Event.{delete, insert, meet, refuse_at, visit};
ghost use Rattle.mi_core.specs.Refusals.Refusal.{crowded, full, page_full};
ghost use Rattle.mi_core.specs.State.{node_at};
ghost use Rattle.mi_entries.specs.Entries.{grid};
ghost use Rattle.mi_entries.specs.Records.{Rows};
ghost use Rattle.mi_key.specs.declared.entries.Entry.{Entry};
ghost use Rattle.mi_page.specs.Nodes.{Node};
ghost use Rattle.mi_world.specs.declared.answers.Commit.TheVariants as commit;
ghost use Rattle.mi_world.specs.Pages.{CommitsDelete, CommitsInsert, MayInsert, delete_key, insert_key};
ghost use Rattle.mi_solo.specs.Seeking.{EndsAfter, PointsDown, PointsRight};
ghost use Rattle.mi_hall.specs.Places.{BothMake, PageMakes};

/// What an insert answers.
pub fn inserts_follow()
    ensures down { (page op id : ℕ) (node : Node) (vector : List ℤ) (dists : List ℕ) (child : ℕ)
        → PageMakes (visit page) (λ c v w. IsTrue (v.named page) → ((p : ℕ) → Some child ≡ Some p
        → IsTrue (w.named p)) → node_at c.pages page ≡ Some node
        → PointsDown node 0 (insert_key v dists id 0) child
        → CommitsInsert v w page op id vector dists (commit.Down child)) }
    ensures right { (page op id : ℕ) (node : Node) (vector : List ℤ) (dists : List ℕ) (next : ℕ)
        → BothMake (meet page) (λ c v w. IsTrue (v.named page) → ((p : ℕ) → Some next ≡ Some p
        → IsTrue (w.named p)) → node_at c.pages page ≡ Some node
        → PointsRight node 0 (insert_key v dists id (length (updates_of c.board.log) + 1)) next
        → CommitsInsert v w page op id vector dists (commit.Right next)) }
    ensures full { (page op id : ℕ) (node : Node) (vector : List ℤ) (dists : List ℕ)
        → BothMake (refuse_at page full) (λ c v w. IsTrue (v.named page)
        → node_at c.pages page ≡ Some node
        → EndsAfter node 0 (insert_key v dists id (length (updates_of c.board.log) + 1))
        → CommitsInsert v w page op id vector dists (commit.Full c.board.settings.updates)) }
    ensures crowded { (page op id : ℕ) (node : Node) (vector : List ℤ) (dists : List ℕ)
        → BothMake (refuse_at page (crowded vector)) (λ c v w. IsTrue (v.named page)
        → node_at c.pages page ≡ Some node → MayInsert v id vector dists
        → EndsAfter node 0 (insert_key v dists id (length (updates_of c.board.log) + 1))
        → HasRoom c.board → CommitsInsert v w page op id vector dists commit.Crowded) }
    ensures page_full { (page op id : ℕ) (node : Node) (vector : List ℤ) (dists : List ℕ)
        → BothMake (refuse_at page (page_full page)) (λ c v w. IsTrue (v.named page)
        → node_at c.pages page ≡ Some node → MayInsert v id vector dists
        → EndsAfter node 0 (insert_key v dists id (length (updates_of c.board.log) + 1))
        → HasRoom c.board → crowded_at c.board ((grid c.board.settings).perm vector) ≡ false
        → CommitsInsert v w page op id vector dists commit.PageFull) }
    ensures done { (op id page : ℕ) (node : Node) (kept : Rows) (e : Entry)
        → BothMake (insert op id page node kept e) (λ c v w. IsTrue (v.named page)
        → CommitsInsert v w page op id e.vector e.dists.items (commit.Done e.birth)) }
{}

/// What a delete answers.
pub fn deletes_follow()
    ensures down { (page op id : ℕ) (node : Node) (child : ℕ)
        → PageMakes (visit page) (λ c v w. IsTrue (v.named page) → ((p : ℕ) → Some child ≡ Some p
        → IsTrue (w.named p)) → node_at c.pages page ≡ Some node
        → PointsDown node 0 (delete_key v id) child
        → CommitsDelete v w page op id (commit.Down child)) }
    ensures right { (page op id : ℕ) (node : Node) (next : ℕ)
        → PageMakes (visit page) (λ c v w. IsTrue (v.named page) → ((p : ℕ) → Some next ≡ Some p
        → IsTrue (w.named p)) → node_at c.pages page ≡ Some node
        → PointsRight node 0 (delete_key v id) next
        → CommitsDelete v w page op id (commit.Right next)) }
    ensures full { (page op id : ℕ) (node : Node)
        → BothMake (refuse_at page full) (λ c v w. IsTrue (v.named page)
        → node_at c.pages page ≡ Some node → EndsAfter node 0 (delete_key v id)
        → CommitsDelete v w page op id (commit.Full c.board.settings.updates)) }
    ensures done { (op id page : ℕ) (node : Node) (kept : Rows) (key : ℕ)
        → BothMake (delete op id page node kept key) (λ c v w. IsTrue (v.named page)
        → CommitsDelete v w page op id (commit.Done (length (updates_of c.board.log) + 1))) }
{}
