//! What each section of the board and of a shard makes of its actor's view.
ghost use Rattle.std.specs.Prelude.{◌≡◌, ◌==◌, ℕ, List, [], ◌∷◌, length, map, slice_get, true};
ghost use Rattle.std.specs.Prelude.{Bool, Err, IsSome, IsTrue, None, Ok, Some};
ghost use Rattle.std.specs.List.{find};
ghost use Rattle.mi_base.specs.declared.refusals.NoMemory.{NoMemory};
ghost use Rattle.mi_base.specs.History.{end_of};
ghost use Rattle.mi_base.specs.Permutations.{begins, is_permutation};
ghost use Rattle.mi_tree.specs.declared.answers.AllotRefusal.TheVariants as allotting;
ghost use Rattle.mi_tree.specs.declared.answers.LeafClaim.TheVariants as claiming;
ghost use Rattle.mi_tree.specs.declared.answers.ReserveRefusal.TheVariants as reserving;
ghost use Rattle.mi_tree.specs.declared.answers.Work.TheVariants as work;
ghost use Rattle.mi_tree.specs.declared.outcomes.Leaf.{Leaf};
ghost use Rattle.mi_tree.specs.Counting.{leaves_beginning};
ghost use Rattle.mi_tree.specs.Legal.{cells_of};
ghost use Rattle.mi_board.specs.Actors.{with_reserved};
ghost use Rattle.mi_board.specs.Boards.{look_of, next_split, pinned, with_actor};
ghost use Rattle.mi_board.specs.Boards.{MayPublish, leaf_claimed};
ghost use Rattle.mi_core.specs.Events.{Can};
ghost use Rattle.mi_core.specs.Events.Event.{claim_leaf, release_leaf};
ghost use Rattle.mi_core.specs.Events.Event.{claim_shard, miss_shard, release_shard};
ghost use Rattle.mi_core.specs.Events.Event.{allot, lack, look, pin, refuse, reserve, see, unpin};
ghost use Rattle.mi_core.specs.Events.Event.{give_up, no_work, publish, take_split, take_sweep};
ghost use Rattle.mi_core.specs.Kept.{Kept};
ghost use Rattle.mi_core.specs.Refusals.Refusal.{full, held, pages_full};
ghost use Rattle.mi_core.specs.State.{State};
ghost use Rattle.mi_entries.specs.Actors.{Actor, SplitWork};
ghost use Rattle.mi_entries.specs.Records.{Rows, home};
ghost use Rattle.mi_world.specs.declared.answers.ShardClaim.TheVariants.{Held, Taken};
ghost use Rattle.mi_world.specs.Boards.{Allots, GivesWork, Looks, Pins, Reserves, Unpins};
ghost use Rattle.mi_world.specs.Claims.{ClaimsLeaf, ClaimsShard, ReleasesLeaf, ReleasesShard};
ghost use Rattle.mi_world.specs.Splits.{GivesUp, IsGathered, Publishes, copied_in};
ghost use Rattle.mi_solo.specs.Onward.{Makes};
ghost use Rattle.mi_solo.specs.Placing.{placed_entry};
ghost use Rattle.mi_solo.specs.Viewing.{record_shown, shown_to};

/// A look tells where the board stands.
pub fn looks_follow()
    ensures { Makes look (λ s v w. Looks v w (look_of s.board)) }
{}

/// A shard that nobody holds is taken with the identifier's record, one that another holds isn't,
/// and one's own is let go.
pub fn shards_follow()
    ensures taken { (id : ℕ) (kept : Rows) → Makes (claim_shard (home id) kept)
        (λ s v w. ClaimsShard v w id (Taken (record_shown (find (λ x. x.id == id) kept.records)))) }
    ensures held { (id : ℕ) → Makes (miss_shard (home id)) (λ s v w. ClaimsShard v w id Held) }
    ensures released { (n : ℕ) (kept : Rows) → Makes (release_shard n kept)
        (λ s v w. ReleasesShard v w) }
{}

/// A leaf that nobody claims is taken, one that another claims isn't, and one's own is let go.
pub fn claims_follow()
    ensures taken { (leaf : Leaf) → Makes (claim_leaf leaf.prefix)
        (λ s v w. (perm : List ℕ)
        → leaves_beginning perm (cells_of s.board.settings s.board.log) ≡ leaf ∷ []
        → ClaimsLeaf v w perm (claiming.Taken leaf)) }
    ensures held { (leaf : List ℕ) (by : ℕ) → Makes (refuse (held leaf by))
        (λ s v w. (perm : List ℕ) → IsTrue (is_permutation perm)
        → length perm ≡ length s.board.settings.pivots
        → begins leaf perm ≡ true → v.leaf ≡ None → ClaimsLeaf v w perm (claiming.Held by)) }
    ensures released { Makes release_leaf (λ s v w. ReleasesLeaf v w) }
{}

/// Room is reserved, or the log is full, or memory was wanted.
pub fn reservations_follow()
    ensures ok { (n room : ℕ) (kept : Rows) → Makes (reserve n kept room)
        (λ s v w. Reserves v w (Ok (look_of (with_actor (with_reserved true) v.actor s.board)))) }
    ensures full { Makes (refuse full)
        (λ s v w. Reserves v w (Err (reserving.Full s.board.settings.updates))) }
    ensures memory { Makes see (λ s v w. Reserves v w (Err reserving.Memory)) }
{}

/// The whole log is pinned, or memory was wanted; and a pin ends.
pub fn pins_follow()
    ensures ok { Makes pin (λ s v w. Pins v w (Ok (look_of (pinned v.actor s.board)))) }
    ensures memory { (e : NoMemory) → Makes see (λ s v w. v.pin ≡ None → Pins v w (Err e)) }
    ensures ended { Makes unpin (λ s v w. Unpins v w) }
{}

/// A page is allotted, or all are, or memory was wanted.
pub fn pages_are_allotted()
    ensures ok { Makes allot (λ s v w. Allots v w (Ok tt)) }
    ensures full { Makes (refuse pages_full)
        (λ s v w. Allots v w (Err (allotting.PagesFull s.board.settings.pages))) }
    ensures memory { Makes lack (λ s v w. Allots v w (Err allotting.Memory)) }
{}

/// A split is published, or memory was wanted, or it is given up.
pub fn splits_end()
    ensures published { Makes publish (λ s v w. Publishes v w (Ok (end_of w.seen))) }
    ensures memory { (e : NoMemory) → Makes see (λ s v w. Publishes v w (Err e)) }
    ensures given_up { (pages : Bool) → Makes (give_up pages) (λ s v w. GivesUp v w pages) }
{}

/// A split that the trait lets be published or given up may be, and of one that is published the
/// board takes the objects as its entries place them.
pub fn splits_may_end()
    ensures published { (s : State) → Kept s → (a : ℕ) (r : Actor) → slice_get s.actors a ≡ Some r
        → IsGathered (shown_to s a r) → (shown_to s a r).copied ≡ length (shown_to s a r).copies
        → Can s a r publish }
    ensures board { (s : State) → Kept s → (a : ℕ) (r : Actor) → slice_get s.actors a ≡ Some r
        → Can s a r publish → (w : SplitWork) → r.split ≡ Some w
        → MayPublish s.board a (map placed_entry w.gathered) (leaf_claimed s.board a) }
    ensures given_up { (s : State) → Kept s → (a : ℕ) (r : Actor) → slice_get s.actors a ≡ Some r
        → (pages : Bool) → IsSome (shown_to s a r).leaf → copied_in (shown_to s a r) ≡ 0
        → (IsTrue pages → IsTrue (shown_to s a r).told) → Can s a r (give_up pages) }
{}

/// A splitter is given a leaf to sweep, else one to split, else nothing.
pub fn work_is_given()
    ensures sweep { (p : List ℕ) → Makes (take_sweep p) (λ s v w. GivesWork v w (work.Sweep p)) }
    ensures split { (leaf : Leaf) → Makes (take_split leaf.prefix)
        (λ s v w. next_split s.board ≡ Some leaf → GivesWork v w (work.Split leaf)) }
    ensures nothing { Makes no_work (λ s v w. GivesWork v w work.Idle) }
{}
