//! What a seat's view tells of a state that the seat fits. The laws' functions do nothing.
ghost use Rattle.std.specs.Prelude.{IsTrue, List, ℕ, ℤ, ◌≡◌, ◌≤◌};
ghost use Rattle.mi_core.specs.State.{State};
ghost use Rattle.mi_key.specs.declared.ranges.Interval.{Interval};
ghost use Rattle.mi_latch.specs.Views.{Sight};
ghost use Rattle.mi_solo.specs.Viewing.{shown_to};
ghost use Rattle.mi_world.specs.Pages.{IsChildAt, IsInLeaf, MayDelete, MayInsert, MayPost, MaySeek, MayVisit};
ghost use Rattle.mi_world.specs.Splits.{IsGathered, MayGather};
ghost use Rattle.mi_hall.specs.Knowledge.{Knows, view_by};
ghost use Rattle.mi_hall.specs.Places.{IsBacked, Needs};
ghost use Rattle.mi_hall.specs.Seats.{knowledge, seat_view};

/// The view of a seat is that of the state, by what the seat knows; and that is so.
pub fn seats_are_shown()
    ensures view { (c : State) (v : Sight) → IsBacked c v
        → seat_view v ≡ view_by (knowledge v) (shown_to c v.actor v.mine.part) }
    ensures knows { (c : State) (v : Sight) → IsBacked c v
        → Knows (shown_to c v.actor v.mine.part) (knowledge v) }
{}

/// A page that was named to a seat is linked, with its level and its low key.
pub fn pages_are_known()
    ensures named { (page : ℕ) → Needs (λ v. IsTrue (v.named page)) }
    ensures low { (page key : ℕ) → Needs (λ v. IsTrue (v.named page) × (v.low page ≤ key)) }
    ensures leaf { (page : ℕ) → Needs (λ v. IsTrue (v.named page) × (v.level page ≡ 0)) }
{}

/// What a call needs of its seat's view is so in the state.
pub fn conditions_are_met()
    ensures visit { (page : ℕ) (range : Interval)
        → Needs (λ v. IsTrue (v.named page) × MayVisit v page range) }
    ensures inside { (range : Interval) → Needs (λ v. IsInLeaf v range) }
    ensures seek { (page : ℕ) (dists : List ℕ) (id : ℕ) → Needs (λ v. MaySeek v page dists id) }
    ensures insert { (id : ℕ) (vector : List ℤ) (dists : List ℕ)
        → Needs (λ v. MayInsert v id vector dists) }
    ensures delete { (id : ℕ) → Needs (λ v. MayDelete v id) }
    ensures child { (level key child : ℕ) → Needs (λ v. IsChildAt v level key child) }
    ensures post { (page level key : ℕ) → Needs (λ v. MayPost v page level key) }
    ensures gather { Needs MayGather }
    ensures gathered { Needs IsGathered }
{}
