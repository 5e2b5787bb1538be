//! What events keep, and what lasts. The functions do nothing.
ghost use Rattle.std.specs.Prelude.{◌≡◌, ◌≢◌, ◌≤◌, [], ◌∷◌, ℕ, ℤ, pos, List, Some, false, length, slice_get, suc, take};
ghost use Rattle.mi_base.specs.declared.records.LogEvent.{LogEvent};
ghost use Rattle.mi_base.specs.declared.records.LogEvent.TheVariants.{Split};
ghost use Rattle.mi_base.specs.declared.records.Update.TheVariants.{Delete, Insert};
ghost use Rattle.mi_base.specs.History.{updates_of};
ghost use Rattle.mi_tree.specs.declared.outcomes.Leaf.{Leaf};
ghost use Rattle.mi_tree.specs.Legal.{MayFollow};
ghost use Rattle.mi_board.specs.Boards.{next_split};
ghost use Rattle.mi_base.specs.Configuration.{Configuration, IsWithinLimits, metric_space};
ghost use Rattle.mi_base.specs.Space.{IsMetric};
ghost use Rattle.mi_entries.specs.Actors.{Actor};
ghost use Rattle.mi_entries.specs.Records.{shard_at};
ghost use Rattle.mi_core.specs.Counted.{Counted, KeepsCounted};
ghost use Rattle.mi_core.specs.Debts.{Debts, KeepsDebts, Linked};
ghost use Rattle.mi_core.specs.Events.{Can, Event, after, opened};
ghost use Rattle.mi_core.specs.Kept.{Kept};
ghost use Rattle.mi_core.specs.Later.{IsLater, LeadsOn, Spares, SparesOthers};
ghost use Rattle.mi_core.specs.Law.{Keeps, Reaches, small_settings};
ghost use Rattle.mi_core.specs.Named.{IsNamed, Named};
ghost use Rattle.mi_core.specs.State.{State};
ghost use Rattle.mi_core.specs.Wanted.{IsWanted, StaysWanted};

/// Every event leads from a state that is kept to one that is.
pub fn events_keep()
    ensures { (e : Event) → Keeps e }
{}

/// Whatever events of whichever actors lead to, from a state that is kept, is kept; and an object can come and go.
pub fn reached_states_are_kept()
    ensures kept { (s : State) → Kept s → (t : State) → Reaches s t → Kept t }
    ensures some { (t : State) × Reaches (opened small_settings 1 3) t × (updates_of t.board.log ≡ Insert 7 (pos 0 ∷ pos 0 ∷ []) ∷ Delete 7 ∷ []) }
{}

/// What was just opened is kept.
pub fn opened_is_kept()
    ensures { (c : Configuration) → IsWithinLimits c → IsMetric (metric_space c) → (count more : ℕ) → c.pages ≡ suc more → Kept (opened c count more) }
{}

/// What never changes again, and what no other actor changes.
pub fn states_follow()
    ensures later { (e : Event) → LeadsOn e }
    ensures others { (e : Event) → SparesOthers e }
    ensures wanted { (e : Event) → StaysWanted e }
    ensures shards { (s : State) → Kept s → (a : ℕ) (r : Actor) → slice_get s.actors a ≡ Some r → r.ended ≡ false → (e : Event) → Can s a r e
        → (n c : ℕ) → (shard_at s.shards n).holder ≡ Some c → c ≢ a → Spares e c → (shard_at (after s a r e).shards n).holder ≡ Some c }
    ensures named { (s t : State) → Kept s → Kept t → IsLater s t → (x : Named) → IsNamed s.pages x → IsNamed t.pages x }
    ensures told { (s t : State) → Kept s → Kept t → IsLater s t → s.board.allotted ≡ s.board.settings.pages → t.board.allotted ≡ t.board.settings.pages }
    ensures seen { (s t : State) → Kept s → Kept t → IsLater s t → (n : ℕ) → n ≤ length s.board.log → take n t.board.log ≡ take n s.board.log }
    ensures pages { (s t : State) → Kept s → Kept t → IsLater s t → length t.pages ≡ length s.pages }
{}

/// A leaf that may be split after a log is one that is to be split; and so is the leaf that a splitter takes next.
pub fn leaves_are_wanted()
    ensures found { (c : Configuration) (log : List LogEvent) (leaf : List ℕ) → MayFollow c log (Split leaf) → IsWanted c log leaf }
    ensures follows { (c : Configuration) (log : List LogEvent) (leaf : List ℕ) → IsWanted c log leaf → MayFollow c log (Split leaf) }
    ensures next { (s : State) (leaf : Leaf) → next_split s.board ≡ Some leaf → MayFollow s.board.settings s.board.log (Split leaf.prefix) }
{}

/// No event forgets an owed route; where nobody owes one, all routes are there.
pub fn debts_are_kept()
    ensures kept { (e : Event) → KeepsDebts e }
    ensures opened { (c : Configuration) → (count more : ℕ) → Debts (opened c count more).pages (opened c count more).actors }
    ensures linked { (s : State) → Kept s → Debts s.pages s.actors → ((a : ℕ) (r : Actor) → slice_get s.actors a ≡ Some r → r.owed ≡ []) → Linked s }
{}

/// The pages stay few for what was put into them.
pub fn counts_are_kept()
    ensures kept { (e : Event) → KeepsCounted e }
    ensures opened { (c : Configuration) → (count more : ℕ) → Counted (opened c count more) }
{}
