//! What is true of range queries at every list of entries. The functions do nothing.
ghost use Rattle.std.specs.Prelude.{◌≡◌, ◌+◌, ◌*◌, ◌^◌, ◌<◌, None, [], ◌++◌, ℕ, ℤ, List, Bool, IsTrue, Some, nat_le, false, slice_get, take, true};
ghost use Rattle.std.specs.List.{AllByRecursion, filter};
ghost use Rattle.mi_base.specs.declared.records.LogEvent.{LogEvent};
ghost use Rattle.mi_base.specs.Configuration.{Configuration, IsWithinLimits, metric_space, space_of};
ghost use Rattle.mi_base.specs.History.{Object, hits};
ghost use Rattle.mi_base.specs.Permutations.{distances};
ghost use Rattle.mi_base.specs.Space.{IsMetric, MetricSpace};
ghost use Rattle.mi_base.specs.declared.records.Reply.{Reply as AReply};
ghost use Rattle.mi_blink.specs.declared.turns.Turn.TheVariants.{Done, More};
ghost use Rattle.mi_blink.specs.Descents.{Falls, longest};
ghost use Rattle.mi_key.specs.declared.ranges.Interval.{Interval};
ghost use Rattle.mi_key.specs.Entries.{Offering};
ghost use Rattle.mi_key.specs.Keys.{parts_of};
ghost use Rattle.mi_key.specs.Ranges.{is_within};
ghost use Rattle.mi_key.specs.Shown.{Shown, offerings, within};
ghost use Rattle.mi_range.specs.declared.range.RangeOp.{RangeOp as ARange};
ghost use Rattle.mi_range.specs.Opening.{HasScan, IsFresh, leaf_offered, leaves_offered};
ghost use Rattle.mi_range.specs.Querying.{Begun, Ended, Ready, Since, Ticks, Turned, left};
ghost use Rattle.mi_range.specs.Ranging.{RangeWorkState, TakesRange};
ghost use Rattle.mi_rules.specs.Passing.{passes};
ghost use Rattle.mi_rules.specs.Spans.{is_in_span};
ghost use Rattle.mi_rules.specs.Standing.{ShowsLive};
ghost use Rattle.mi_tree.specs.declared.outcomes.Leaf.{Leaf};
ghost use Rattle.mi_tree.specs.Legal.{LegalLog, cells_of};
ghost use Rattle.mi_world.specs.View.{Others, View};

/// To be offered one list and then another is to be offered both.
pub fn taking_goes_on()
    ensures none { (m : MetricSpace) (query : List ℤ) (work : RangeWorkState) (steps : ℕ) → TakesRange m query work steps [] work steps }
    ensures more { (m : MetricSpace) (query : List ℤ) (first second third : RangeWorkState) (k l n : ℕ) (xs ys : List Offering)
        → TakesRange m query first k xs second l → TakesRange m query second l ys third n → TakesRange m query first k (xs ++ ys) third n }
{}

/// Where all objects that a test leaves out are farther than the radius, it leaves out no row.
pub fn far_objects_are_no_rows()
    ensures { (m : MetricSpace) (query : List ℤ) (radius : ℕ) (p : Object → Bool) (objects : List Object)
        → AllByRecursion (λ o. p o ≡ false → nat_le (m.d query o.vector) radius ≡ false) objects → hits m query radius (filter p objects) ≡ hits m query radius objects }
{}

/// A query that is offered, of each leaf that passes, the live objects whose keys the leaf's span has, has the rows of the scan,
/// and was compared with the candidates. What is offered of a leaf comes after what was offered of those before it.
pub fn leaves_that_pass_have_the_scan()
    ensures scan { (c : Configuration) → IsWithinLimits c → (log : List LogEvent) → LegalLog c log → (query : List ℤ) (radius : ℕ) (xs : List Shown) → ShowsLive c log xs
        → IsMetric (metric_space c) → IsTrue ((metric_space c).fits query) → (first work : RangeWorkState) (steps new_steps : ℕ) → IsFresh (distances (space_of c) query) radius first
        → TakesRange (metric_space c) query first steps (leaves_offered (distances (space_of c) query) radius c.levels xs (cells_of c log)) work new_steps
        → HasScan c log query radius steps work new_steps }
    ensures leaf { (dq : List ℕ) (radius levels : ℕ) (xs : List Shown) (leaves : List Leaf) (place : ℕ) (leaf : Leaf) → slice_get leaves place ≡ Some leaf
        → leaves_offered dq radius levels xs (take (place + 1) leaves) ≡ leaves_offered dq radius levels xs (take place leaves) ++ leaf_offered dq radius levels xs leaf }
    ensures span { (dq : List ℕ) (radius levels : ℕ) (xs : List Shown) (leaf : Leaf) (span : Interval) → passes dq radius leaf ≡ true
        → ((key : ℕ) → is_within span key ≡ is_in_span dq radius levels leaf.prefix (parts_of key)) → offerings (within span xs) ≡ leaf_offered dq radius levels xs leaf }
{}

/// A query is ready where its vector fits and its actor has pinned nothing.
pub fn ranges_begin()
    ensures ready { (op : ARange) (radius : ℕ) (query : List ℤ) (v : View) → Begun op radius query → radius < 2 ^ 31 → IsTrue ((metric_space v.settings).fits query) → v.pin ≡ None → Ready op v }
    ensures since { (op : ARange) (radius : ℕ) (query : List ℤ) (v : View) (k : ℕ) → Begun op radius query → Since v k op v k }
{}

/// Each section of a query keeps what is so since its first, and less is left of it.
pub fn ranges_go_on()
    ensures since { (first : View) (begun : ℕ) (old new : ARange) (v w : View) (k n : ℕ) → Turned old v More new w → Ticks old k More new n → Since first begun old v k → Since first begun new w n }
    ensures falls { (old new : ARange) (v w : View) → Turned old v More new w → Falls v (left old v) w (left new w) }
{}

/// While others act a query stays ready, and so does what is so since its first section.
pub fn ranges_wait()
    ensures ready { (op : ARange) (v w : View) → Others v w → Ready op v → Ready op w }
    ensures since { (first : View) (begun : ℕ) (op : ARange) (v w : View) (k : ℕ) → Others v w → Ready op v → Since first begun op v k → Since first begun op w k }
{}

/// At its end a query's reply is right, and it took a step for each distance.
pub fn ranges_end()
    ensures { (first : View) (begun : ℕ) (old new : ARange) (v w : View) (k n : ℕ) (y : AReply) → Turned old v (Done y) new w → Ticks old k (Done y) new n → Since first begun old v k → Ended first begun new w y n }
{}

/// A query has so many sections at most.
pub fn ranges_are_short()
    ensures { (op : ARange) (v : View) → Ready op v → left op v < 2 ^ 32 * (longest + 1) + 4 }
{}
