//! What views tell, and what any event makes of that of its own actor, and of every other's.
ghost use Rattle.std.specs.Prelude.{◌≡◌, ℕ, None, Some, false, is_some, length, slice_get};
ghost use Rattle.mi_tree.specs.Legal.{cells_of};
ghost use Rattle.mi_entries.specs.Actors.{Actor, Pin, SplitWork};
ghost use Rattle.mi_core.specs.Events.{Event, IsFree};
ghost use Rattle.mi_core.specs.Kept.{Kept};
ghost use Rattle.mi_core.specs.State.{State};
ghost use Rattle.mi_world.specs.Pages.{pinned};
ghost use Rattle.mi_world.specs.Splits.{copied_in, gathered_in};
ghost use Rattle.mi_world.specs.View.{Later, SeesBoard};
ghost use Rattle.mi_solo.specs.Onward.{IsOthers, Makes};
ghost use Rattle.mi_solo.specs.Viewing.{shown_to};

/// What an actor has learned stays true after its own events, and those of another change nothing
/// that is its own.
pub fn views_go_on()
    ensures own { (e : Event) → Makes e (λ s v w. Later v w) }
    ensures others { (e : Event) → IsOthers e }
{}

/// In a state that is kept each actor sees the board.
pub fn boards_are_seen()
    ensures { (s : State) → Kept s → (a : ℕ) (r : Actor) → slice_get s.actors a ≡ Some r
        → SeesBoard (shown_to s a r) }
{}

/// What a view tells of an actor's hands is what its record has.
pub fn hands_are_shown()
    ensures free { (s : State) (a : ℕ) (r : Actor)
        → (shown_to s a r).leaf ≡ None → (shown_to s a r).sweep ≡ None → IsFree r }
    ensures whole { (s : State) (a : ℕ) (r : Actor)
        → (shown_to s a r).splitting ≡ false → r.split ≡ None }
    ensures bare { (s : State) (a : ℕ) (r : Actor) → (shown_to s a r).pin ≡ None → r.pin ≡ None }
    ensures pin { (s : State) (a : ℕ) (r : Actor) → is_some (shown_to s a r).pin ≡ is_some r.pin }
    ensures cells { (s : State) → Kept s → (a : ℕ) (r : Actor) → slice_get s.actors a ≡ Some r
        → (p : Pin) → r.pin ≡ Some p
        → p.cells ≡ cells_of s.board.settings (pinned (shown_to s a r)) }
    ensures split { (s : State) (a : ℕ) (r : Actor) (w : SplitWork) → r.split ≡ Some w
        → (gathered_in (shown_to s a r) ≡ length w.gathered)
        × (copied_in (shown_to s a r) ≡ w.copied) }
    ensures none { (s : State) (a : ℕ) (r : Actor) → r.split ≡ None
        → (gathered_in (shown_to s a r) ≡ 0) × (copied_in (shown_to s a r) ≡ 0) }
{}
