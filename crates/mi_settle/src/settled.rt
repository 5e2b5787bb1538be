//! What is true of a state in which nothing is under way, and nothing is left to do. The functions
//! do nothing.
ghost use Rattle.std.specs.Prelude.{◌≡◌, ◌≢◌, ◌<◌, ◌≤◌, [], ℕ, None, Option, Some, length};
ghost use Rattle.mi_base.specs.History.{end_of, live, updates_of};
ghost use Rattle.mi_board.specs.Boards.{floor_of, next_split, next_sweep};
ghost use Rattle.mi_core.specs.Kept.{Kept};
ghost use Rattle.mi_core.specs.State.{State};
ghost use Rattle.mi_settle.specs.Entries.{HasTrimmedTo, IsTrimmed, entry_count, pages_from};
ghost use Rattle.mi_settle.specs.Entries.{NoClaims, NoPins, NoSplits, NoSweeps};
ghost use Rattle.mi_settle.specs.Settling.{IsAtRest, IsSettled};
ghost use Rattle.mi_settle.specs.Working.{IsIdle};
ghost use Rattle.mi_solo.specs.Sections.{Trims};
ghost use Rattle.mi_solo.specs.States.{actor_in};
ghost use Rattle.mi_tree.specs.Legal.{Settled};
ghost use Rattle.mi_world.specs.declared.answers.Visit.TheVariants.{Read};

/// Each live object has an entry of its own. Where nothing is under way, and all is swept and
/// trimmed, there are no others.
pub fn entries_are_live_objects()
    ensures least { (s : State) → Kept s → length (live (updates_of s.board.log)) ≤ entry_count s }
    ensures exact { (s : State) → Kept s → s.board.retired ≡ [] → NoSweeps s → NoSplits s
        → IsTrimmed s → entry_count s ≡ length (live (updates_of s.board.log)) }
{}

/// Where nobody has a pin the floor is the end of the log, and where no leaf may be swept either,
/// none is retired.
pub fn idle_boards_retire_none()
    ensures floor { (s : State) → Kept s → NoPins s → floor_of s.board ≡ end_of s.board.log }
    ensures retired { (s : State) → Kept s → NoPins s → next_sweep s.board ≡ None
        → s.board.retired ≡ [] }
{}

/// Where nobody claims a leaf, and none is passed over or open, none is to be split. A leaf is
/// passed over only where all pages are allotted.
pub fn idle_boards_are_settled()
    ensures settled { (s : State) → Kept s → NoClaims s → s.board.passed_over ≡ []
        → next_split s.board ≡ None → Settled s.board.settings s.board.log }
    ensures passed { (s : State) → Kept s → s.board.allotted ≢ s.board.settings.pages
        → s.board.passed_over ≡ [] }
{}

/// Trims by one actor go from page 0 to the right, over fewer and fewer pages, until no leaf page
/// has an entry that is dead at its floor.
pub fn trims_go_on()
    ensures first { (s : State) → Kept s → (updates : ℕ) → HasTrimmedTo updates (Some 0) s }
    ensures next { (s t : State) → Kept s → (a page : ℕ) (next : Option ℕ)
        → HasTrimmedTo (actor_in s a).floor.updates (Some page) s → Trims s a page (Read next) t
        → HasTrimmedTo (actor_in s a).floor.updates next t }
    ensures fewer { (s t : State) → Kept s → (a page : ℕ) (next : Option ℕ)
        → Trims s a page (Read next) t → pages_from next t < pages_from (Some page) s }
    ensures last { (s : State) → HasTrimmedTo (length (updates_of s.board.log)) None s
        → IsTrimmed s }
{}

/// A core at rest, in which a splitter has nothing to do and no entry is dead, is settled.
pub fn trimmed_cores_are_settled()
    ensures { (s : State) → Kept s → IsAtRest s → IsIdle s.board → IsTrimmed s → IsSettled s }
{}
