//! What pages name and show in a state that is kept. The functions do nothing.
ghost use Rattle.std.specs.Prelude.{◌≡◌, ◌+◌, ◌≤◌, ℕ, List, Some, length, map, slice_get, take};
ghost use Rattle.std.specs.List.{filter};
ghost use Rattle.mi_base.specs.History.{events_at, updates_of};
ghost use Rattle.mi_base.specs.Sorting.{SameElements};
ghost use Rattle.mi_page.specs.declared.routes.Route.{Route};
ghost use Rattle.mi_page.specs.Keys.{IsInside};
ghost use Rattle.mi_page.specs.Nodes.{Node, in_range};
ghost use Rattle.mi_page.specs.Routes.{IsChild};
ghost use Rattle.mi_tree.specs.Births.{Born, born, living};
ghost use Rattle.mi_entries.specs.Entries.{born_in, counts, grid};
ghost use Rattle.mi_board.specs.Boards.{floor_of};
ghost use Rattle.mi_core.specs.Debts.{Linked};
ghost use Rattle.mi_core.specs.Kept.{Kept};
ghost use Rattle.mi_core.specs.Named.{EntryOf, IsNamed, place_in};
ghost use Rattle.mi_core.specs.State.{State, node_at};

/// The board names the root, a page its right sibling and its children; page 0 is the first leaf page, and there are at most six levels.
pub fn pages_are_named()
    ensures root { (s : State) → Kept s → IsNamed s.pages (record { page = s.board.root; level = s.board.height; low = 0 }) }
    ensures right { (s : State) → Kept s → (page right high : ℕ) (n : Node) → node_at s.pages page ≡ Some n → n.right ≡ Some right → n.high ≡ Some high
        → IsNamed s.pages (record { page = right; level = n.level; low = high }) }
    ensures child { (s : State) → Kept s → (page place : ℕ) (n : Node) (r : Route) (level : ℕ) → node_at s.pages page ≡ Some n → slice_get n.routes place ≡ Some r → level + 1 ≡ n.level
        → IsNamed s.pages (record { page = r.child; level = level; low = r.key }) }
    ensures first { (s : State) → Kept s → (n : Node) × (node_at s.pages 0 ≡ Some n) × (n.level ≡ 0) × (n.low ≡ 0) }
    ensures height { (s : State) → Kept s → s.board.height ≤ 5 }
{}

/// Of each position from the floor on, the entries of a leaf page that count are those of the live objects whose keys lie in the page's range.
pub fn pages_show_objects()
    ensures { (s : State) → Kept s → (page : ℕ) (n : Node) → node_at s.pages page ≡ Some n → n.level ≡ 0 → (i : ℕ) → events_at (floor_of s.board) ≤ i → i ≤ length s.board.log
        → SameElements (map born_in (filter (counts (grid s.board.settings) (take i s.board.log)) n.entries))
        (filter (λ o. in_range n (place_in s.board.settings (take i s.board.log) o)) (born (updates_of (take i s.board.log)))) }
{}

/// The leaf page in whose range the key of a live object lies has its entry.
pub fn live_objects_have_entries()
    ensures { (s : State) → Kept s → (page id : ℕ) (n : Node) (o : Born) → node_at s.pages page ≡ Some n → n.level ≡ 0 → living id s.board.log ≡ Some o
        → IsInside n.low n.high (place_in s.board.settings s.board.log o) → EntryOf s n o }
{}

/// Where all routes are there, the root has every key in its range, and the child that a page gives for a key in its range has it too.
pub fn paths_go_straight()
    ensures root { (s : State) → Kept s → Linked s → (key : ℕ) (n : Node) → node_at s.pages s.board.root ≡ Some n → IsInside n.low n.high key }
    ensures child { (s : State) → Kept s → Linked s → (key page child : ℕ) (n : Node) → node_at s.pages page ≡ Some n → IsInside n.low n.high key → IsChild key n.routes child
        → (m : Node) × (node_at s.pages child ≡ Some m) × IsInside m.low m.high key }
{}
