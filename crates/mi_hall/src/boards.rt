//! What sections of the board make of a seat's view. The laws' functions do nothing.
ghost use Rattle.std.specs.Prelude.{Bool, Err, IsTrue, List, None, Ok, Some, [], false, length, true, ℕ, ◌∷◌, ◌≡◌};
ghost use Rattle.std.specs.List.{list_any};
ghost use Rattle.mi_tree.specs.Cells.{same_cell};
ghost use Rattle.mi_base.specs.declared.refusals.NoMemory.{NoMemory};
ghost use Rattle.mi_base.specs.History.{end_of};
ghost use Rattle.mi_base.specs.Permutations.{begins, is_permutation};
ghost use Rattle.mi_board.specs.Actors.{with_reserved};
ghost use Rattle.mi_board.specs.Boards.{look_of, next_split, pinned, with_actor};
ghost use Rattle.mi_core.specs.Events.Event.{allot, claim_leaf, give_up, grow, lack, look, no_work, pin, publish, refuse, release_leaf, reserve, see, take_split, take_sweep, unpin};
ghost use Rattle.mi_core.specs.Refusals.Refusal.{full, grown, held, pages_full};
ghost use Rattle.mi_entries.specs.Records.{Rows};
ghost use Rattle.mi_tree.specs.declared.answers.AllotRefusal.TheVariants as allotting;
ghost use Rattle.mi_tree.specs.declared.answers.LeafClaim.TheVariants as claiming;
ghost use Rattle.mi_tree.specs.declared.answers.ReserveRefusal.TheVariants as reserving;
ghost use Rattle.mi_tree.specs.declared.answers.Work.TheVariants as work;
ghost use Rattle.mi_tree.specs.declared.outcomes.Leaf.{Leaf};
ghost use Rattle.mi_tree.specs.Counting.{leaves_beginning};
ghost use Rattle.mi_tree.specs.Legal.{cells_of};
ghost use Rattle.mi_world.specs.Boards.{Allots, GivesWork, Grew, Looks, Pins, Reserves, Unpins};
ghost use Rattle.mi_world.specs.Claims.{ClaimsLeaf, ReleasesLeaf};
ghost use Rattle.mi_world.specs.Splits.{GivesUp, Publishes};
ghost use Rattle.mi_world.specs.View.{prefix_or};
ghost use Rattle.mi_hall.specs.Places.{BoardMakes, untold};

/// A look tells where the board stands.
pub fn looks_follow()
    ensures { BoardMakes look untold (λ c v w. IsTrue (w.named c.board.root)
        → Looks v w (look_of c.board)) }
{}

/// Room is reserved, or the log is full, or memory was wanted.
pub fn reservations_follow()
    ensures ok { (n room : ℕ) (kept : Rows)
        → BoardMakes (reserve n kept room) untold (λ c v w. IsTrue (w.named c.board.root)
        → Reserves v w (Ok (look_of (with_actor (with_reserved true) v.actor c.board)))) }
    ensures full { BoardMakes (refuse full) untold
        (λ c v w. Reserves v w (Err (reserving.Full c.board.settings.updates))) }
    ensures memory { BoardMakes see untold (λ c v w. Reserves v w (Err reserving.Memory)) }
{}

/// The whole log is pinned, or memory was wanted; and a pin ends.
pub fn pins_follow()
    ensures ok { BoardMakes pin untold (λ c v w. IsTrue (w.named c.board.root)
        → Pins v w (Ok (look_of (pinned v.actor c.board)))) }
    ensures memory { (e : NoMemory) → BoardMakes see untold (λ c v w. v.pin ≡ None
        → Pins v w (Err e)) }
    ensures ended { BoardMakes unpin untold (λ c v w. Unpins v w) }
{}

/// A page is allotted, or all are, which is told, or memory was wanted.
pub fn pages_are_allotted()
    ensures ok { BoardMakes allot untold (λ c v w. Allots v w (Ok tt)) }
    ensures full { BoardMakes (refuse pages_full) (λ told. true)
        (λ c v w. Allots v w (Err (allotting.PagesFull c.board.settings.pages))) }
    ensures memory { BoardMakes lack untold (λ c v w. Allots v w (Err allotting.Memory)) }
{}

/// A root grows, or one is as high already.
pub fn roots_follow()
    ensures grown { (level key child : ℕ)
        → BoardMakes (grow level key child) untold (λ c v w. Grew v w level child true) }
    ensures same { (level child : ℕ)
        → BoardMakes (refuse (grown level)) untold (λ c v w. Grew v w level child false) }
{}

/// A leaf that nobody claims is taken, one that another claims isn't, and one's own is let go.
pub fn claims_follow()
    ensures taken { (leaf : Leaf)
        → BoardMakes (claim_leaf leaf.prefix) untold (λ c v w. (perm : List ℕ)
        → leaves_beginning perm (cells_of c.board.settings c.board.log) ≡ leaf ∷ []
        → ClaimsLeaf v w perm (claiming.Taken leaf)) }
    ensures held { (leaf : List ℕ) (by : ℕ)
        → BoardMakes (refuse (held leaf by)) untold (λ c v w. (perm : List ℕ)
        → IsTrue (is_permutation perm) → length perm ≡ length c.board.settings.pivots
        → begins leaf perm ≡ true → v.leaf ≡ None → ClaimsLeaf v w perm (claiming.Held by)) }
    ensures released { BoardMakes release_leaf untold
        (λ c v w. list_any (same_cell (prefix_or v.leaf)) c.board.passed_over ≡ v.passed
        (prefix_or v.leaf)
        → ReleasesLeaf v w) }
{}

/// A split is published, or memory was wanted, or it is given up.
pub fn splits_end()
    ensures published { BoardMakes publish untold (λ c v w. Publishes v w (Ok (end_of w.seen))) }
    ensures memory { (e : NoMemory) → BoardMakes see untold (λ c v w. Publishes v w (Err e)) }
    ensures given_up { (pages : Bool)
        → BoardMakes (give_up pages) untold
        (λ c v w. list_any (same_cell (prefix_or v.leaf)) c.board.passed_over ≡ v.passed
        (prefix_or v.leaf)
        → GivesUp v w pages) }
{}

/// A splitter is given a leaf to sweep, else one to split, else nothing.
pub fn work_is_given()
    ensures sweep { (p : List ℕ)
        → BoardMakes (take_sweep p) untold (λ c v w. GivesWork v w (work.Sweep p)) }
    ensures split { (leaf : Leaf)
        → BoardMakes (take_split leaf.prefix) untold (λ c v w. next_split c.board ≡ Some leaf
        → GivesWork v w (work.Split leaf)) }
    ensures nothing { BoardMakes no_work untold (λ c v w. GivesWork v w work.Idle) }
{}
