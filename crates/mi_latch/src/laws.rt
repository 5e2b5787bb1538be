//! Which event a step at the table is. The functions do nothing.
ghost use Rattle.std.specs.Prelude.{◌≡◌, ◌≢◌, ◌+◌, ◌<◌, [], ◌∷◌, ℕ, List, true, None, Some, length};
ghost use Rattle.atomic_table.specs.Table.{rest};
ghost use Rattle.mi_base.specs.Configuration.{Configuration};
ghost use Rattle.mi_board.specs.Boards.{BoardState, with_more};
ghost use Rattle.mi_core.specs.Effects.{saw};
ghost use Rattle.mi_core.specs.Events.Event.{fork, release_shard};
ghost use Rattle.mi_core.specs.Events.{Event as AnEvent};
ghost use Rattle.mi_core.specs.Named.{Named};
ghost use Rattle.mi_entries.specs.Actors.{Actor};
ghost use Rattle.mi_entries.specs.Records.{Rows};
ghost use Rattle.mi_page.specs.Nodes.{Node};
ghost use Rattle.mi_latch.specs.declared.slots.Slot.{Slot as AValue};
ghost use Rattle.mi_latch.specs.declared.slots.Slot.TheVariants.{OfBoard, OfPage, OfShard};
ghost use Rattle.mi_latch.specs.Acts.{GivesBy, JoinsBy, TakesShard};
ghost use Rattle.mi_latch.specs.Boards.{IsTold, MakesBoard, Telling, seeing};
ghost use Rattle.mi_latch.specs.Boths.{HoldsBoth, HoldsCommit, MakesBoth, MakesCommit};
ghost use Rattle.mi_latch.specs.Ends.{IsBare, adding};
ghost use Rattle.mi_latch.specs.PageSteps.{MakesPage, noting};
ghost use Rattle.mi_latch.specs.Takes.{released};
ghost use Rattle.mi_latch.specs.Views.{Doing, HoldsLast, Seated, Sight, now, with_part};

/// A give is the event that makes what is given back of what was taken: of the board, of the board
/// beside another value, of the board beside a page and a shard (a commit), or of a page.
pub fn gives_are_events()
    ensures board { (settings : Configuration) (m : Seated) (was board : BoardState) (to : Actor) (t : Telling) (e : AnEvent)
        → HoldsLast m 0 (OfBoard was) → MakesBoard m.0.actor m.0.mine was board to t e
        → Doing settings m.0 (now m.0 (seeing to board t m.0.mine) (rest m.0.out)) 0 (OfBoard board) }
    ensures beside { (settings : Configuration) (m : Seated) (was board : BoardState) (to : Actor) (t : Telling) (i : ℕ) (old new : AValue) (more : List (ℕ × AValue)) (e : AnEvent)
        → HoldsBoth m was i old more → i ≢ 0 → MakesBoth settings m.0.actor m.0.mine was board to t i old new e
        → Doing settings m.0 (now m.0 (seeing to board t m.0.mine) ((i, new) ∷ more)) 0 (OfBoard board) }
    ensures commit { (settings : Configuration) (m : Seated) (was board : BoardState) (to : Actor) (t : Telling) (page : ℕ) (had new : Node) (k : ℕ) (rows left : Rows) (e : AnEvent)
        → HoldsCommit m was page had k rows → MakesCommit settings m.0.actor m.0.mine was board to t page had new k rows left e
        → Doing settings m.0 (now m.0 (seeing to board t m.0.mine) ((page + 17, OfPage new) ∷ (k + 1, OfShard left) ∷ [])) 0 (OfBoard board) }
    ensures page { (settings : Configuration) (m : Seated) (page : ℕ) (was new : Node) (to : Actor) (names : List Named) (e : AnEvent)
        → HoldsLast m (page + 17) (OfPage was) → MakesPage settings m.0.actor m.0.mine page was new to names e
        → Doing settings m.0 (now m.0 (noting to names new m.0.mine) (rest m.0.out)) (page + 17) (OfPage new) }
{}

/// The other steps that are events: the take of a shard is its claim, and its give its release; a
/// give of the board with one more actor is that one's beginning, and a join of two seats the end of
/// the actor that is taken in.
pub fn shards_and_families_are_events()
    ensures claim { (settings : Configuration) (v : Sight) (k : ℕ) → k < 16 → v.live ≡ true → v.mine.part.shard ≡ None → TakesShard settings k v }
    ensures release { (settings : Configuration) (m : Seated) (k : ℕ) (rows : Rows)
        → m.0.mine.part.shard ≡ Some k → HoldsLast m (k + 1) (OfShard rows)
        → GivesBy settings (release_shard k rows) m.0 (now m.0 (with_part (released m.0.mine.part) m.0.mine) (rest m.0.out)) (k + 1) (OfShard rows) }
    ensures birth { (settings : Configuration) (m : Seated) (was : BoardState) (t : Telling)
        → HoldsLast m 0 (OfBoard was) → m.0.born ≡ [] → length was.actors < 4294967295
        → IsTold m.0.actor m.0.mine was (with_more was) (saw was m.0.mine.part) t
        → GivesBy settings fork m.0 (adding m.0 was t) 0 (OfBoard (with_more was)) }
    ensures joined { (settings : Configuration) (v w : Sight) → v.live ≡ true → w.live ≡ true → v.born ≡ [] → w.born ≡ [] → IsBare w.mine.part → JoinsBy settings v w }
{}
