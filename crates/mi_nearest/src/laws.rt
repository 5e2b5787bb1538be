//! What is true of queries for the nearest at every list of entries. The functions do nothing.
ghost use Rattle.std.specs.Prelude.{◌≡◌, ◌+◌, ◌*◌, ◌^◌, ◌<◌, ◌≤◌, None, [], ◌∷◌, ◌++◌, ℕ, ℤ, List, IfSome, IsTrue, Some, length, map, slice_get};
ghost use Rattle.std.specs.List.{AllByRecursion, sum_by};
ghost use Rattle.std.specs.List.Sorted.{IsStrictlySortedBy};
ghost use Rattle.std.specs.Ordering.{nat_cmp};
ghost use Rattle.mi_base.specs.declared.records.LogEvent.{LogEvent};
ghost use Rattle.mi_base.specs.declared.records.Row.{Row};
ghost use Rattle.mi_base.specs.Configuration.{Configuration, IsDepth, IsWithinLimits, metric_space, space_of};
ghost use Rattle.mi_base.specs.Permutations.{distances};
ghost use Rattle.mi_base.specs.Sorting.{SameElements};
ghost use Rattle.mi_base.specs.Space.{IsMetric, MetricSpace, Space};
ghost use Rattle.mi_base.specs.declared.records.Reply.{Reply as AReply};
ghost use Rattle.mi_blink.specs.declared.turns.Turn.TheVariants.{Done, More};
ghost use Rattle.mi_blink.specs.Descents.{Falls, longest};
ghost use Rattle.mi_key.specs.declared.ranges.Interval.{Interval};
ghost use Rattle.mi_key.specs.Clusters.{cluster_of};
ghost use Rattle.mi_key.specs.Entries.{Offering};
ghost use Rattle.mi_key.specs.Keys.{parts_of};
ghost use Rattle.mi_key.specs.Ranges.{is_within};
ghost use Rattle.mi_key.specs.Shown.{Shown, offerings, within};
ghost use Rattle.mi_nearest.specs.declared.nearest.NearestOp.{NearestOp as ANearest};
ghost use Rattle.mi_nearest.specs.declared.order.Rank.{Rank};
ghost use Rattle.mi_nearest.specs.Nearing.{NearestWorkState, TakesNearest, first_rows, worst_of};
ghost use Rattle.mi_nearest.specs.Order.{IsRanked, leaves_at};
ghost use Rattle.mi_nearest.specs.Querying.{Begun, Ended, Ready, Since, Ticks, Turned, left};
ghost use Rattle.mi_nearest.specs.Walking.{HasNearest, OpensLeaf, StopsAt, KeepsFirst, rows_in};
ghost use Rattle.mi_rules.specs.Passing.{kth_distance};
ghost use Rattle.mi_rules.specs.Spans.{is_near};
ghost use Rattle.mi_rules.specs.Standing.{ShowsLive};
ghost use Rattle.mi_tree.specs.declared.outcomes.Leaf.{Leaf};
ghost use Rattle.mi_tree.specs.Cells.{AllMaySplit, grid_of};
ghost use Rattle.mi_tree.specs.Legal.{LegalLog, cells_of};
ghost use Rattle.mi_tree.specs.Counting.{catalog_after};
ghost use Rattle.mi_world.specs.View.{Others, View};

/// To be offered one list and then another is to be offered both.
pub fn taking_goes_on()
    ensures none { (m : MetricSpace) (query : List ℤ) (work : NearestWorkState) (steps : ℕ) → TakesNearest m query work steps [] work steps }
    ensures more { (m : MetricSpace) (query : List ℤ) (first second third : NearestWorkState) (k l n : ℕ) (xs ys : List Offering)
        → TakesNearest m query first k xs second l → TakesNearest m query second l ys third n → TakesNearest m query first k (xs ++ ys) third n }
{}

/// A row that is farther than the greatest distance kept is none of the first ones, and the first ones are the same in whatever
/// order the rows come.
pub fn first_rows_stay()
    ensures farther { (work : NearestWorkState) (before : List Row) (worst : ℕ) (row : Row) → work.rows ≡ first_rows work.count before → worst_of work ≡ Some worst → worst < row.distance
        → work.rows ≡ first_rows work.count (before ++ row ∷ []) }
    ensures order { (count : ℕ) (xs ys : List Row) → SameElements xs ys → first_rows count xs ≡ first_rows count ys }
{}

/// The numbers of the cells after a log ascend from place to place, so that leaves of one bound are ranked by these.
pub fn places_ascend()
    ensures { (space : Space) (levels : ℕ) → length space.pivots ≤ 32 → IsDepth (length space.pivots) levels → (log : List LogEvent) → AllMaySplit (grid_of space levels) log
        → IsStrictlySortedBy nat_cmp (map (λ leaf. cluster_of (length space.pivots) levels leaf.prefix) (catalog_after (grid_of space levels) log)) }
{}

/// A query that opens the ranked leaves one after another, and reads of each the keys that are near at the last row's distance of
/// then, has the first rows of all their objects. Where it stops at the next bound, or none is left, its rows are the scan, and the
/// leaves that it opened are those that have to be.
pub fn ranked_leaves_have_the_nearest()
    ensures opens { (c : Configuration) → IsWithinLimits c → (log : List LogEvent) → LegalLog c log → (query : List ℤ) → IsTrue ((metric_space c).fits query) → IsMetric (metric_space c)
        → (xs : List Shown) → ShowsLive c log xs → (count : ℕ) → 1 ≤ count → (ranks done rest : List Rank) (rank : Rank) → IsRanked (distances (space_of c) query) (cells_of c log) ranks → ranks ≡ done ++ rank ∷ rest
        → (leaf : Leaf) → slice_get (cells_of c log) rank.place ≡ Some leaf → (old new : NearestWorkState) (steps new_steps : ℕ) (span : Interval) → old.count ≡ count
        → KeepsFirst count (cells_of c log) (rows_in c query xs) done old.rows → IfSome (kth_distance count old.rows) (λ worst. rank.bound ≤ worst)
        → IfSome leaf.hull (λ hull. (key : ℕ) → is_within span key ≡ is_near (distances (space_of c) query) (kth_distance count old.rows) c.levels leaf.prefix hull (parts_of key))
        → TakesNearest (metric_space c) query old steps (offerings (within span xs)) new new_steps → OpensLeaf count (cells_of c log) (rows_in c query xs) (done ++ rank ∷ []) leaf new.rows steps new_steps }
    ensures ends { (c : Configuration) → IsWithinLimits c → (log : List LogEvent) → LegalLog c log → (query : List ℤ) → IsTrue ((metric_space c).fits query) → IsMetric (metric_space c)
        → (xs : List Shown) → ShowsLive c log xs → (count : ℕ) (ranks done rest : List Rank) (rows : List Row) → IsRanked (distances (space_of c) query) (cells_of c log) ranks → ranks ≡ done ++ rest
        → KeepsFirst count (cells_of c log) (rows_in c query xs) done rows → AllByRecursion (λ rank. StopsAt (kth_distance count rows) rank.bound) rest
        → (opened steps : ℕ) → opened ≡ sum_by (λ leaf. 1) (leaves_at (cells_of c log) done) → steps ≤ sum_by (λ leaf. leaf.count) (leaves_at (cells_of c log) done)
        → HasNearest c log query count rows opened steps }
{}

/// A query is ready where its vector fits, its count is from 1 to 1,000,000, and its actor has pinned nothing.
pub fn nearests_begin()
    ensures ready { (op : ANearest) (count : ℕ) (query : List ℤ) (v : View) → Begun op count query → 1 ≤ count → count ≤ 1000000 → IsTrue ((metric_space v.settings).fits query) → v.pin ≡ None → Ready op v }
    ensures since { (op : ANearest) (count : ℕ) (query : List ℤ) (v : View) (k : ℕ) → Begun op count query → Since v k op v k }
{}

/// Each section of a query keeps what is so since its first, and less is left of it.
pub fn nearests_go_on()
    ensures since { (first : View) (begun : ℕ) (old new : ANearest) (v w : View) (k n : ℕ) → Turned old v More new w → Ticks old v k More new w n → Since first begun old v k → Since first begun new w n }
    ensures falls { (old new : ANearest) (v w : View) → Turned old v More new w → Falls v (left old v) w (left new w) }
{}

/// While others act a query stays ready, and so does what is so since its first section.
pub fn nearests_wait()
    ensures ready { (op : ANearest) (v w : View) → Others v w → Ready op v → Ready op w }
    ensures since { (first : View) (begun : ℕ) (op : ANearest) (v w : View) (k : ℕ) → Others v w → Ready op v → Since first begun op v k → Since first begun op w k }
{}

/// At its end a query's reply is right, and it took a step for each pivot and at most one for each object of the leaves that had to be opened.
pub fn nearests_end()
    ensures { (first : View) (begun : ℕ) (old new : ANearest) (v w : View) (k n : ℕ) (y : AReply) → Turned old v (Done y) new w → Ticks old v k (Done y) new w n → Since first begun old v k → Ended first begun new w y n }
{}

/// A query has so many sections at most.
pub fn nearests_are_short()
    ensures { (op : ANearest) (v : View) → Ready op v → left op v < 2 ^ 32 * (longest + 1) + 4 }
{}
