//! What is true of sessions at every view. The functions do nothing.
ghost use Rattle.std.specs.Prelude.{◌≡◌, ◌+◌, ◌≤◌, ◌++◌, [], ◌∷◌, ℕ, List, IsTrue, MatchOption, length};
ghost use Rattle.mi_base.specs.declared.records.LogEvent.{LogEvent as AnEvent};
ghost use Rattle.mi_base.specs.declared.records.Op.{Op as AnOp};
ghost use Rattle.mi_base.specs.declared.records.Reply.{Reply as AReply};
ghost use Rattle.mi_base.specs.History.{end_of, events_at, updates_of};
ghost use Rattle.mi_legal.specs.Legal.{EachRight, NeverFalls, accepted_in, reach};
ghost use Rattle.mi_session.specs.Scripts.{AnswersAll};
ghost use Rattle.mi_session.specs.Sessions.{Answers};
ghost use Rattle.mi_tree.specs.Growing.{Grows};
ghost use Rattle.mi_world.specs.View.{Later, View};

/// The end of what a session has seen never falls. A reply's position isn't before the end that
/// stood before the operation, nor behind the end after it.
pub fn fronts_never_fall()
    ensures rises { (v w : View) → Later v w → events_at (end_of v.seen) ≤ events_at (end_of w.seen) }
    ensures between { (o : AnOp) (number : ℕ) (v w : View) (y : AReply) → Answers o number v y w
        → MatchOption (reach w.seen y) (Unit {0}) (λ n. (events_at (end_of v.seen) ≤ n) × (n ≤ events_at (end_of w.seen))) }
{}

/// What the replies to a script are in each log that goes on from what its session has seen at its
/// end. Each is right, if that log has no more updates than it may and all pages are allotted where
/// the actor was told so. None falls behind an earlier one, nor behind what was seen before the
/// first. The actor's own updates are those of before and, in order, the accepted ones of the
/// script.
pub fn scripts_are_answered()
    ensures more { (number : ℕ) (v w u : View) (os : List AnOp) (ys : List AReply) (o : AnOp) (y : AReply)
        → AnswersAll number v os ys w → Answers o (number + length os) w y u
        → AnswersAll number v (os ++ o ∷ []) (ys ++ y ∷ []) u }
    ensures later { (number : ℕ) (v w : View) (os : List AnOp) (ys : List AReply)
        → AnswersAll number v os ys w → Later v w }
    ensures right { (number : ℕ) (v w : View) (os : List AnOp) (ys : List AReply) (log : List AnEvent) (allotted : ℕ)
        → AnswersAll number v os ys w → Grows w.seen log → length (updates_of log) ≤ w.settings.updates
        → (IsTrue w.told → allotted ≡ w.settings.pages) → EachRight w.settings log allotted w.actor number os ys }
    ensures own { (number : ℕ) (v w : View) (os : List AnOp) (ys : List AReply)
        → AnswersAll number v os ys w → w.own ≡ v.own ++ accepted_in w.actor number os ys }
    ensures forward { (number : ℕ) (v w : View) (os : List AnOp) (ys : List AReply) (log : List AnEvent) (low : ℕ)
        → AnswersAll number v os ys w → Grows w.seen log → low ≤ length v.seen → NeverFalls log low ys }
{}
