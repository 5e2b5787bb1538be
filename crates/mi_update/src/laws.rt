//! What is true of inserts and deletes at every view, from the first section to the last. The functions do nothing.
ghost use Rattle.std.specs.Prelude.{◌≡◌, ◌≤◌, ◌<◌, ◌+◌, ◌*◌, ℕ, ℤ, List, Bool, None, false, true, length};
ghost use Rattle.mi_base.specs.declared.records.Reply.{Reply as AReply};
ghost use Rattle.mi_base.specs.History.{Entered};
ghost use Rattle.mi_base.specs.Permutations.{begins};
ghost use Rattle.mi_tree.specs.Placing.{grid_under};
ghost use Rattle.mi_world.specs.View.{Agrees, Later, Others, SameUpdate, View};
ghost use Rattle.mi_blink.specs.declared.turns.Turn.{Turn as ATurn};
ghost use Rattle.mi_blink.specs.declared.turns.Turn.TheVariants.{Done};
ghost use Rattle.mi_blink.specs.Descents.{longest};
ghost use Rattle.mi_blink.specs.Posting.{OwesOnly};
ghost use Rattle.mi_update.specs.declared.delete.DeleteOp.{DeleteOp as ADelete};
ghost use Rattle.mi_update.specs.declared.delete.DeleteState.TheVariants.{Claiming};
ghost use Rattle.mi_update.specs.declared.insert.InsertOp.{InsertOp as AnInsert};
ghost use Rattle.mi_update.specs.Deleting as deleting;
ghost use Rattle.mi_update.specs.Inserting as inserting;
ghost use Rattle.mi_update.specs.Stepping.{BeginsObject, Ended, Finishes, HeldLeaf};

/// An insert of an object that fits and is measured is ready where its actor claims nothing.
pub fn inserts_begin()
    ensures ready { (op : AnInsert) (id : ℕ) (vector : List ℤ) (dists : List ℕ) (number : ℕ) (v : View)
        → inserting.Begun op id vector dists number → inserting.Fits vector dists v → v.shard ≡ None → v.leaf ≡ None → inserting.Ready op v }
    ensures since { (op : AnInsert) (id : ℕ) (vector : List ℤ) (dists : List ℕ) (number : ℕ) (v : View)
        → inserting.Begun op id vector dists number → inserting.Since v.own (length v.seen) v.owes op v }
{}

/// Each section of an insert keeps what is so since its first.
pub fn inserts_go_on()
    ensures { (own : List Entered) (from : ℕ) (owed : ℕ → Bool) (old new : AnInsert) (v w : View) (answer : ATurn)
        → inserting.Turned old v answer new w → inserting.Since own from owed old v → inserting.Since own from owed new w }
{}

/// While others act an insert stays ready, and so does what is so since its first section.
pub fn inserts_wait()
    ensures ready { (op : AnInsert) (v w : View) → Others v w → inserting.Ready op v → inserting.Ready op w }
    ensures rises { (op : AnInsert) (v w : View) → Others v w → inserting.Ready op v → inserting.since_in op v ≤ inserting.since_in op w }
    ensures since { (op : AnInsert) (v w : View) → Others v w → (own : List Entered) (from : ℕ) (owed : ℕ → Bool)
        → inserting.Ready op v → inserting.Since own from owed op v → inserting.Since own from owed op w }
    ensures split { (op : AnInsert) (v w : View) → Later v w → SameUpdate v w → w.sweep ≡ v.sweep → inserting.Waits op v → inserting.Waits op w }
{}

/// At its end an insert's reply is right and tells what it entered, and no more routes are owed than at its beginning.
pub fn inserts_end()
    ensures finishes { (old new : AnInsert) (v w : View) (y : AReply) → inserting.Turned old v (Done y) new w
        → Finishes (inserting.asked new) new.op (inserting.since_in old v) (inserting.number_in new) (inserting.made new) w y }
    ensures ended { (own : List Entered) (from : ℕ) (owed : ℕ → Bool) (old new : AnInsert) (v w : View) (y : AReply) → inserting.Turned old v (Done y) new w
        → inserting.Since own from owed old v → Ended (inserting.asked new) new.op own from w y }
    ensures owes { (own : List Entered) (from : ℕ) (owed : ℕ → Bool) (old new : AnInsert) (v w : View) (y : AReply) → inserting.Turned old v (Done y) new w
        → inserting.Since own from owed old v → OwesOnly owed (λ p. false) w }
{}

/// An insert has so many sections at most while the budget stays, where a split has so many.
pub fn inserts_are_short()
    ensures { (split : ℕ) (op : AnInsert) (v : View) → v.settings.levels ≤ 6 → inserting.Ready op v → inserting.left split op v < 7 * inserting.round split }
{}

/// A delete is ready where its actor claims nothing.
pub fn deletes_begin()
    ensures ready { (op : ADelete) (id number : ℕ) (v : View)
        → deleting.Begun op id number → v.shard ≡ None → v.leaf ≡ None → v.sweep ≡ None → v.splitting ≡ false → deleting.Ready op v }
    ensures since { (op : ADelete) (id number : ℕ) (v : View) → deleting.Begun op id number → deleting.Since v.own (length v.seen) op v }
{}

/// Each section of a delete keeps what is so since its first.
pub fn deletes_go_on()
    ensures { (own : List Entered) (from : ℕ) (old new : ADelete) (v w : View) (answer : ATurn)
        → deleting.Turned old v answer new w → deleting.Since own from old v → deleting.Since own from new w }
{}

/// While others act a delete stays ready, and so does what is so since its first section.
pub fn deletes_wait()
    ensures ready { (op : ADelete) (v w : View) → Others v w → deleting.Ready op v → deleting.Ready op w }
    ensures rises { (op : ADelete) (v w : View) → Others v w → deleting.Ready op v → deleting.since_in op v ≤ deleting.since_in op w }
    ensures since { (op : ADelete) (v w : View) → Others v w → (own : List Entered) (from : ℕ)
        → deleting.Ready op v → deleting.Since own from op v → deleting.Since own from op w }
{}

/// At its end a delete's reply is right and tells what it entered.
pub fn deletes_end()
    ensures finishes { (old new : ADelete) (v w : View) (y : AReply) → deleting.Turned old v (Done y) new w
        → Finishes (deleting.asked new) new.op (deleting.since_in old v) (deleting.number_in new) (deleting.made new) w y }
    ensures ended { (own : List Entered) (from : ℕ) (old new : ADelete) (v w : View) (y : AReply) → deleting.Turned old v (Done y) new w
        → deleting.Since own from old v → Ended (deleting.asked new) new.op own from w y }
{}

/// A delete has so many sections at most.
pub fn deletes_are_short()
    ensures { (op : ADelete) (v : View) → deleting.left op v < longest + 7 }
{}

/// The leaf that an update found held begins the permutation of its object.
pub fn held_leaves_belong()
    ensures insert { (old new : AnInsert) (w : View) → inserting.StandsStill old new w → (h : HeldLeaf (inserting.perm_in old) w)
        → begins h.prefix ((grid_under w.settings).perm old.vector) ≡ true }
    ensures delete { (old new : ADelete) (w : View) → deleting.StandsStill old new w → old.state ≡ Claiming → (h : HeldLeaf (deleting.perm_in old) w)
        → Agrees w.settings w.seen old.id old.kept → BeginsObject w.settings old.id h.prefix }
{}
