//! What is true of the entries of all leaf pages, and of the records of live objects. The functions do nothing.
ghost use Rattle.std.specs.Prelude.{◌≡◌, ◌+◌, ◌<◌, ◌≤◌, ◌&&◌, ◌++◌, ◌==◌, [], ◌∷◌, ℕ, ℤ, Bool, List, None, Some, length, map, not, slice_set, true};
ghost use Rattle.std.specs.List.{AllByRecursion, filter, find, list_any};
ghost use Rattle.mi_base.specs.declared.records.LogEvent.{LogEvent};
ghost use Rattle.mi_base.specs.declared.records.LogEvent.TheVariants.{Update as Made};
ghost use Rattle.mi_base.specs.declared.records.Update.TheVariants.{Delete, Insert};
ghost use Rattle.mi_base.specs.Configuration.{Configuration, IsWithinLimits, metric_space, space_of};
ghost use Rattle.mi_base.specs.History.{updates_of};
ghost use Rattle.mi_base.specs.Permutations.{begins, distances};
ghost use Rattle.mi_base.specs.Sorting.{put};
ghost use Rattle.mi_base.specs.Space.{IsMetric};
ghost use Rattle.mi_key.specs.declared.entries.Entry.{Entry};
ghost use Rattle.mi_page.specs.Entries.{entry_cmp, entry_keys, outlives, with_death};
ghost use Rattle.mi_page.specs.Keys.{Ascending, IsInside};
ghost use Rattle.mi_page.specs.Nodes.{Node, in_range};
ghost use Rattle.mi_tree.specs.Births.{born};
ghost use Rattle.mi_tree.specs.Cells.{is_leaf};
ghost use Rattle.mi_tree.specs.Legal.{LegalLog};
ghost use Rattle.mi_entries.specs.Actors.{Actor, SplitWork};
ghost use Rattle.mi_entries.specs.Deaths.{updates_by};
ghost use Rattle.mi_entries.specs.Entries.{HasPlace, IsNewEntry, NobodySplits, counts, grid, id_of};
ghost use Rattle.mi_entries.specs.Marks.{gather_more};
ghost use Rattle.mi_entries.specs.Records.{HasRecords, Rows, Shard, held_by, home, shard_at, with_record, without_id};
ghost use Rattle.mi_entries.specs.Splits.{AreEntries, IsWork};

/// A trim of some range of keys at a floor that isn't above the kept one changes nothing that is kept of entries.
pub fn trims_keep_entries()
    ensures { (c : Configuration) → IsWithinLimits c → (log : List LogEvent) → LegalLog c log → (floor : ℕ) (actors : List Actor) (retired : List (List ℕ)) (entries : List Entry)
        → AreEntries c log floor actors retired entries → floor ≤ length log → (updates : ℕ) → updates ≤ updates_by log floor → (inside : ℕ → Bool)
        → AreEntries c log floor actors retired (filter (λ e. not (inside e.key && not (outlives e.death updates))) entries) }
{}

/// An insert of an object whose leaf nobody splits, with its entry.
pub fn inserts_keep_entries()
    ensures { (c : Configuration) → IsWithinLimits c → IsMetric (metric_space c) → (log : List LogEvent) → LegalLog c log → length (updates_of log) < c.updates
        → (floor : ℕ) (actors : List Actor) (retired : List (List ℕ)) (entries : List Entry) → AreEntries c log floor actors retired entries → floor ≤ length log
        → (leaf : List ℕ) (id : ℕ) (e : Entry) → is_leaf (grid c) log leaf ≡ true → begins leaf ((grid c).perm e.vector) ≡ true → IsNewEntry c log leaf id e → NobodySplits actors ((grid c).perm e.vector)
        → (session op : ℕ) → AreEntries c (log ++ Made session op (Insert id e.vector) ∷ []) floor actors retired (put entry_cmp e entries) }
{}

/// A delete of a live object whose leaf nobody splits marks its entry.
pub fn deletes_keep_entries()
    ensures { (c : Configuration) → IsWithinLimits c → (log : List LogEvent) → LegalLog c log → (floor : ℕ) (actors : List Actor) (retired : List (List ℕ)) (entries : List Entry)
        → AreEntries c log floor actors retired entries → floor ≤ length log → (e : Entry) → HasPlace c log actors retired e → counts (grid c) log e ≡ true
        → list_any (λ o. (o.id == id_of e) && (o.birth == e.birth)) (born (updates_of log)) ≡ true → NobodySplits actors ((grid c).perm e.vector)
        → (session op : ℕ) → AreEntries c (log ++ Made session op (Delete (id_of e)) ∷ []) floor actors retired (map (with_death e.key (length (updates_of log) + 1)) entries) }
{}

/// A split that has gathered up to a page goes on with what the page has of its leaf.
pub fn gathers_keep_splits()
    ensures { (c : Configuration) → IsWithinLimits c → (log : List LogEvent) → LegalLog c log → (actors : List Actor) (retired : List (List ℕ)) (entries : List Entry)
        → AllByRecursion (HasPlace c log actors retired) entries → Ascending (entry_keys entries) → (node : Node) → filter (λ e. in_range node e.key) entries ≡ node.entries
        → (w : SplitWork) → IsWork (grid c) log entries w → IsInside node.low node.high w.mark → IsWork (grid c) log entries (gather_more (grid c) w node) }
{}

/// The shards have the records of the live objects after each update.
pub fn records_follow_updates()
    ensures insert { (c : Configuration) (log : List LogEvent) (shards : List Shard) (session op id : ℕ) (vector : List ℤ) (birth : ℕ) (dists : List ℕ) (rows : Rows)
        → ((k i : ℕ) → k < 16 → HasRecords c log shards k i) → home id < 16 → length shards ≡ 16 → (shard_at shards (home id)).rows ≡ rows
        → find (λ x. x.id == id) rows.records ≡ None → birth ≡ length (updates_of log) + 1 → dists ≡ distances (space_of c) vector
        → (k i : ℕ) → k < 16 → HasRecords c (log ++ Made session op (Insert id vector) ∷ []) (slice_set shards (home id) (held_by (Some session) (with_record (record { id = id; birth = birth; dists = dists }) rows))) k i }
    ensures delete { (c : Configuration) (log : List LogEvent) (shards : List Shard) (session op id : ℕ) (rows : Rows)
        → ((k i : ℕ) → k < 16 → HasRecords c log shards k i) → home id < 16 → length shards ≡ 16 → (shard_at shards (home id)).rows ≡ rows
        → (k i : ℕ) → k < 16 → HasRecords c (log ++ Made session op (Delete id) ∷ []) (slice_set shards (home id) (held_by (Some session) (without_id id rows))) k i }
{}
