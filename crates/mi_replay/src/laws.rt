//! What is true of two operations of a run. The functions do nothing.
ghost use Rattle.std.specs.Prelude.{◌≡◌, ◌≤◌, ◌<◌, ◌+◌, ◌-◌, ◌++◌, ◌⊎◌, ℕ, List, Some, true, length};
ghost use Rattle.mi_base.specs.declared.records.Op.{Op};
ghost use Rattle.mi_base.specs.declared.records.Reply.{Reply};
ghost use Rattle.mi_base.specs.declared.records.ScheduleItem.{ScheduleItem};
ghost use Rattle.mi_base.specs.Configuration.{Configuration};
ghost use Rattle.mi_core.specs.Events.{opened};
ghost use Rattle.mi_core.specs.Kept.{Kept};
ghost use Rattle.mi_core.specs.State.{State};
ghost use Rattle.mi_entries.specs.Actors.{Actor};
ghost use Rattle.mi_job.specs.Claims.{IsHeld};
ghost use Rattle.mi_job.specs.Jobs.{is_query};
ghost use Rattle.mi_solo.specs.Viewing.{shown_to};
ghost use Rattle.mi_legal.specs.Legal.{events_to, reach};
ghost use Rattle.mi_tree.specs.declared.outcomes.Outcome.{Outcome};
ghost use Rattle.mi_update.specs.Stepping.{number_told};
ghost use Rattle.mi_replay.specs.InOrder.{InOrder, LeafIsHeld, ShardIsHeld};
ghost use Rattle.mi_settle.specs.Turns.{Chained, Turn};
ghost use Rattle.mi_replay.specs.Operations.{Operation};

/// A run in order is one run from the opened core to the state that has the outcome's log.
pub fn runs_in_order_are_runs()
    ensures { (c : Configuration) (scripts : List (List Op)) (schedule : List ScheduleItem) (o : Outcome) → (h : InOrder c scripts schedule o)
        → Chained (opened c (length scripts + 1) (c.pages - 1)) (h.turns ++ h.settling) h.last }
{}

/// Of two updates, one that ended before the other began has the smaller number.
pub fn earlier_updates_have_smaller_numbers()
    ensures { (c : Configuration) (s t : State) (turns : List Turn) → Kept s → Chained s turns t → (k j l i : ℕ) (o p : Op) (y z : Reply) (n m : ℕ)
        → (x : Operation c turns k j o y) (w : Operation c turns l i p z) → x.last < w.first → number_told y ≡ Some n → number_told z ≡ Some m → n < m }
{}

/// The position of a reply has the event of each update that ended before the reply's operation began.
pub fn replies_tell_what_ended_before()
    ensures { (c : Configuration) (s t : State) (turns : List Turn) → Kept s → Chained s turns t → (k j l i : ℕ) (o p : Op) (y z : Reply) (n m : ℕ)
        → (x : Operation c turns k j o y) (w : Operation c turns l i p z) → x.last < w.first → number_told y ≡ Some n → reach t.board.log z ≡ Some m → events_to n t.board.log ≤ m }
{}

/// The position of a query has the event of no update whose operation began after the query began.
pub fn queries_tell_nothing_later()
    ensures { (c : Configuration) (s t : State) (turns : List Turn) → Kept s → Chained s turns t → (k j l i : ℕ) (o p : Op) (y z : Reply) (n m : ℕ)
        → (x : Operation c turns k j o y) (w : Operation c turns l i p z) → is_query o ≡ true → x.first < w.first → reach t.board.log y ≡ Some n → number_told z ≡ Some m
        → n < events_to m t.board.log }
{}

/// Where a job found a claim held, another actor holds it in the state that its actor's view is of.
pub fn held_claims_are_there()
    ensures { (s : State) (a : ℕ) (r : Actor) (o : Op) → IsHeld o (shown_to s a r) → ShardIsHeld s a o ⊎ LeafIsHeld s a o }
{}
