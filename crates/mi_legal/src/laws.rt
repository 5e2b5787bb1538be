//! What is true of replies at every log. The functions do nothing.
ghost use Rattle.std.specs.Prelude.{◌≡◌, ◌+◌, ◌≤◌, ◌++◌, ℕ, ℤ, List, length};
ghost use Rattle.mi_base.specs.declared.records.LogEvent.{LogEvent};
ghost use Rattle.mi_base.specs.declared.records.Op.{Op};
ghost use Rattle.mi_base.specs.declared.records.Position.{Position};
ghost use Rattle.mi_base.specs.declared.records.Reply.{Reply};
ghost use Rattle.mi_base.specs.declared.records.Row.{Row};
ghost use Rattle.mi_base.specs.Configuration.{Configuration, metric_space, space_of};
ghost use Rattle.mi_base.specs.History.{end_of, nearest_scan, range_scan, updates_of};
ghost use Rattle.mi_legal.specs.Legal.{reach};
ghost use Rattle.mi_legal.specs.Right.{IsNearest, IsRange, Right};
ghost use Rattle.mi_rules.specs.Passing.{candidates, kth_distance, opened_count, reached_count};

/// A reply that is right in a log is right in each that goes on from there within the limit of updates, and its position reaches
/// as far there.
pub fn right_replies_stay_right()
    ensures right { (c : Configuration) (log more : List LogEvent) (allotted session op : ℕ) (o : Op) (y : Reply) → length (updates_of (log ++ more)) ≤ c.updates
        → Right c log allotted session op o y → Right c (log ++ more) allotted session op o y }
    ensures reach { (c : Configuration) (log more : List LogEvent) (allotted session op : ℕ) (o : Op) (y : Reply)
        → Right c log allotted session op o y → reach (log ++ more) y ≡ reach log y }
{}

/// An answer to a query is right at the end of a log where its rows are the scan there and its numbers are those of the cells there.
pub fn scans_are_right_at_the_end()
    ensures range { (c : Configuration) (log : List LogEvent) (radius : ℕ) (query : List ℤ) (at : Position) (rows : List Row) (cells distances : ℕ) → at ≡ end_of log
        → rows ≡ range_scan (metric_space c) (updates_of log) query radius → cells ≡ opened_count (space_of c) c.levels log query radius
        → distances ≡ length c.pivots + length (candidates (space_of c) c.levels log query radius) → IsRange c log radius query at rows cells distances }
    ensures nearest { (c : Configuration) (log : List LogEvent) (count : ℕ) (query : List ℤ) (at : Position) (rows : List Row) (cells : ℕ) → at ≡ end_of log
        → rows ≡ nearest_scan (metric_space c) (updates_of log) query count → cells ≡ reached_count (space_of c) c.levels log query (kth_distance count rows)
        → IsNearest c log count query at rows cells }
{}
