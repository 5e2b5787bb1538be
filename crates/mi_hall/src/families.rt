//! What the making and the absorbing of an actor make of a seat's view. The laws' functions do
//! nothing.
ghost use Rattle.std.specs.Prelude.{List, [], true, ℕ, ◌<◌, ◌≡◌};
ghost use Rattle.mi_base.specs.Prefixes.{has};
ghost use Rattle.mi_core.specs.Events.{Can, after};
ghost use Rattle.mi_core.specs.Events.Event.{absorb, fork};
ghost use Rattle.mi_core.specs.Effects.{saw};
ghost use Rattle.mi_core.specs.State.{State};
ghost use Rattle.mi_latch.specs.declared.slots.Slot.{Slot};
ghost use Rattle.mi_latch.specs.Views.{Sight};
ghost use Rattle.mi_world.specs.Families.{Absorbs, Forked, NotForked};
ghost use Rattle.mi_hall.specs.Places.{HasRows, IsBacked, absorbing, forks, fresh_seat, gives_board};
ghost use Rattle.mi_hall.specs.Seats.{seat_view};

/// An actor is made, or memory was wanted for one; and one is absorbed.
pub fn actors_follow()
    ensures forked { (c : State) (v : Sight) → IsBacked c v → Can c v.actor v.mine.part fork
        → ((i : ℕ) → has i v.forked ≡ true → i < v.mine.count) → (out : List (ℕ × Slot))
        → HasRows (after c v.actor v.mine.part fork) (forks v c.board out)
        → Forked (seat_view v) (seat_view (forks v c.board out)) (seat_view (fresh_seat v
        c.board)) }
    ensures not_forked { (c : State) (v : Sight) → IsBacked c v → (out : List (ℕ × Slot))
        → HasRows c (gives_board v (saw c.board v.mine.part) c.board v.mine.told [] out)
        → NotForked (seat_view v) (seat_view (gives_board v (saw c.board v.mine.part) c.board
        v.mine.told [] out)) }
    ensures absorbed { (c : State) (v y : Sight) → IsBacked c v → IsBacked c y
        → Can c v.actor v.mine.part (absorb y.actor y.mine.part) → HasRows c (absorbing v y)
        → Absorbs (seat_view v) (seat_view y) (seat_view (absorbing v y)) }
{}
