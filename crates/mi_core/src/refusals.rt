//! When calls are refused. The functions do nothing.
ghost use Rattle.std.specs.Prelude.{◌≡◌, ◌<◌, ◌⊎◌, ◌&&◌, ℕ, ℤ, IsTrue, List, Some, false, length, slice_get};
ghost use Rattle.std.specs.List.{list_any};
ghost use Rattle.mi_base.specs.History.{updates_of};
ghost use Rattle.mi_base.specs.Permutations.{begins};
ghost use Rattle.mi_key.specs.declared.entries.Entry.{Entry};
ghost use Rattle.mi_page.specs.Entries.{without_dead};
ghost use Rattle.mi_page.specs.Nodes.{Node, item_count};
ghost use Rattle.mi_tree.specs.Cells.{same_cell};
ghost use Rattle.mi_tree.specs.Counting.{is_crowded};
ghost use Rattle.mi_tree.specs.Legal.{cells_of};
ghost use Rattle.mi_board.specs.Boards.{HasRoom, crowded_at};
ghost use Rattle.mi_entries.specs.Actors.{Actor};
ghost use Rattle.mi_entries.specs.Entries.{grid};
ghost use Rattle.mi_entries.specs.Records.{Rows};
ghost use Rattle.mi_core.specs.Effects.{trim_leaf};
ghost use Rattle.mi_core.specs.Events.{Can, IsFree, MayClaim};
ghost use Rattle.mi_core.specs.Events.Event.{allot, claim_leaf, delete, grow, insert, no_work, reserve, take_split, take_sweep};
ghost use Rattle.mi_core.specs.Kept.{Kept};
ghost use Rattle.mi_core.specs.Refusals.{Because};
ghost use Rattle.mi_core.specs.Refusals.Refusal.{crowded, full, grown, held, pages_full};
ghost use Rattle.mi_core.specs.State.{State, node_at};

/// Where there is a cause to refuse a call, its event can't be.
pub fn refusals_exclude()
    ensures reserve { (s : State) (a : ℕ) (r : Actor) → Because s a r full → (n room : ℕ) (kept : Rows) → Can s a r (reserve n kept room) → ⊥ }
    ensures insert { (s : State) (a : ℕ) (r : Actor) → Because s a r full → (op id page : ℕ) (node : Node) (kept : Rows) (e : Entry) → Can s a r (insert op id page node kept e) → ⊥ }
    ensures delete { (s : State) (a : ℕ) (r : Actor) → Because s a r full → (op id page : ℕ) (node : Node) (kept : Rows) (key : ℕ) → Can s a r (delete op id page node kept key) → ⊥ }
    ensures crowded { (s : State) (a : ℕ) (r : Actor) → (op id page : ℕ) (node : Node) (kept : Rows) (e : Entry) → Because s a r (crowded e.vector) → Can s a r (insert op id page node kept e) → ⊥ }
    ensures allot { (s : State) (a : ℕ) (r : Actor) → Because s a r pages_full → Can s a r allot → ⊥ }
    ensures claim { (s : State) (a : ℕ) (r : Actor) → (leaf : List ℕ) (by : ℕ) → Because s a r (held leaf by) → Can s a r (claim_leaf leaf) → ⊥ }
    ensures grow { (s : State) (a : ℕ) (r : Actor) → (level key child : ℕ) → Because s a r (grown level) → Can s a r (grow level key child) → ⊥ }
{}

/// Where there is none, what the event needs of the board and the page holds.
pub fn refusals_or_events()
    ensures full { (s : State) → Kept s → (a : ℕ) (r : Actor) → slice_get s.actors a ≡ Some r → HasRoom s.board ⊎ Because s a r full }
    ensures crowded { (s : State) → Kept s → (a : ℕ) (r : Actor) → slice_get s.actors a ≡ Some r → (vector : List ℤ)
        → (crowded_at s.board ((grid s.board.settings).perm vector) ≡ false) ⊎ Because s a r (crowded vector) }
    ensures pages { (s : State) → Kept s → (a : ℕ) (r : Actor) → slice_get s.actors a ≡ Some r → (s.board.allotted < s.board.settings.pages) ⊎ Because s a r pages_full }
    ensures claim { (s : State) → Kept s → (a : ℕ) (r : Actor) → slice_get s.actors a ≡ Some r → (leaf : List ℕ) → IsFree r
        → IsTrue (list_any (λ l. same_cell leaf l.prefix) (cells_of s.board.settings s.board.log)) → MayClaim s r leaf ⊎ ((b : ℕ) × Because s a r (held leaf b)) }
    ensures page { (s : State) → Kept s → (page : ℕ) (n : Node) → node_at s.pages page ≡ Some n → (floor : ℕ) → (item_count (trim_leaf floor n) < 32) ⊎ (item_count (trim_leaf floor n) ≡ 32) }
{}

/// A splitter that is free has one of three answers.
pub fn splitters_have_one_answer()
    ensures { (s : State) → Kept s → (a : ℕ) (r : Actor) → slice_get s.actors a ≡ Some r → IsFree r
        → ((p : List ℕ) × Can s a r (take_sweep p)) ⊎ (((p : List ℕ) × Can s a r (take_split p)) ⊎ Can s a r no_work) }
{}
