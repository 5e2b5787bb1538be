//! What is true of cells, counts and hulls at every log. The functions do nothing.
ghost use Rattle.std.specs.Prelude.{◌*◌, ◌≡◌, ◌==◌, ◌≤◌, ◌<◌, All, ◌++◌, [], ◌∷◌, ℕ, ℤ, List, length, map, flat_map, not, IsTrue, true};
ghost use Rattle.std.specs.Cmp.Lexicographic.{slice_cmp};
ghost use Rattle.std.specs.List.{filter, list_all};
ghost use Rattle.std.specs.List.Sorted.{IsStrictlySortedBy};
ghost use Rattle.std.specs.Ordering.{nat_cmp};
ghost use Rattle.mi_base.specs.declared.records.LogEvent.{LogEvent};
ghost use Rattle.mi_base.specs.declared.records.LogEvent.TheVariants.{Update as Made, Split};
ghost use Rattle.mi_base.specs.declared.records.Update.TheVariants.{Insert, Delete};
ghost use Rattle.mi_base.specs.Configuration.{Configuration, IsDepth, IsWithinLimits, space_of};
ghost use Rattle.mi_base.specs.History.{Object, TheOne, is_live, live, splits_of, updates_of};
ghost use Rattle.mi_base.specs.Permutations.{is_permutation, begins};
ghost use Rattle.mi_base.specs.Prefixes.{all_below};
ghost use Rattle.mi_base.specs.Sorting.{SameElements};
ghost use Rattle.mi_base.specs.Space.{MetricSpace, Space};
ghost use Rattle.mi_base.specs.declared.records.Update.{Update};
ghost use Rattle.mi_tree.specs.declared.counts.Placed.{Placed};
ghost use Rattle.mi_tree.specs.Births.{born, object_born};
ghost use Rattle.mi_tree.specs.LoneCell.{lone_cell};
ghost use Rattle.mi_tree.specs.Catalog.{prefixes_of};
ghost use Rattle.mi_tree.specs.Order.{in_order};
ghost use Rattle.mi_tree.specs.Cells.{Grid, IsGrid, grid_of, first_leaves, leaves, is_leaf, leaf_of, AllMaySplit};
ghost use Rattle.mi_tree.specs.Counting.{has_leaf, belongs, population, leaf_with, in_hull, catalog_after, placed_object, with_added, with_removed, leaf_among, split_leaf};
ghost use Rattle.mi_tree.specs.Legal.{LegalLog};

/// A space within the limits places its vectors as a grid does.
pub fn spaces_are_grids()
    ensures { (space : Space) (levels : ℕ) → length space.pivots ≤ 32 → IsDepth (length space.pivots) levels → IsGrid (grid_of space levels) }
{}

/// Each permutation of the pivots begins with exactly one leaf's prefix.
pub fn leaves_part_permutations()
    ensures { (g : Grid) (perm : List ℕ) → IsTrue (is_permutation perm) → length perm ≡ g.pivots → IsGrid g → (log : List LogEvent) → AllMaySplit g log
        → filter (λ q. begins q perm) (leaves g log) ≡ leaf_of g log perm ∷ [] }
{}

/// The leaves stand in dictionary order of their prefixes.
pub fn leaves_are_in_order()
    ensures { (g : Grid) (log : List LogEvent) → in_order (leaves g log) ≡ true }
{}

/// The prefixes of the leaves with counts ascend strictly, as slices are compared.
pub fn cat_ascends()
    ensures { (g : Grid) (log : List LogEvent) → IsStrictlySortedBy (slice_cmp nat_cmp) (prefixes_of (catalog_after g log)) }
{}

/// The hull of a leaf has the key distance of each object that was put into it, so of each live one that belongs to it.
pub fn hulls_cover()
    ensures put { (g : Grid) (log : List LogEvent) (p : List ℕ) → list_all (λ o. in_hull (g.distance o.vector) (leaf_with g (population g log) p).hull) (filter (belongs g p) (population g log).put_in) ≡ true }
    ensures live { (g : Grid) (log : List LogEvent) (p : List ℕ) → list_all (λ o. in_hull (g.distance o.vector) (leaf_with g (population g log) p).hull) (filter (belongs g p) (live (updates_of log))) ≡ true }
{}

/// The leaves before any event have no objects.
pub fn cat_begins()
    ensures { (g : Grid) → catalog_after g [] ≡ map (leaf_among []) (first_leaves g.pivots) }
{}

/// An insert adds its object to its leaf.
pub fn cat_inserts()
    ensures { (g : Grid) (log : List LogEvent) (session op id : ℕ) (v : List ℤ) → catalog_after g (log ++ Made session op (Insert id v) ∷ []) ≡ map (with_added (g.perm v) (g.distance v)) (catalog_after g log) }
{}

/// A delete takes the one live object of its identifier out of its leaf.
pub fn cat_deletes()
    ensures { (g : Grid) (log : List LogEvent) (session op : ℕ) (o : Object) → SameElements (live (updates_of log)) (o ∷ filter (λ x. not (x.id == o.id)) (live (updates_of log)))
        → catalog_after g (log ++ Made session op (Delete o.id) ∷ []) ≡ map (with_removed (g.perm o.vector)) (catalog_after g log) }
{}

/// A split puts the children in place of their leaf, with its live objects, told in any order.
pub fn cat_splits()
    ensures { (g : Grid) → IsGrid g → (log : List LogEvent) → AllMaySplit g log → (p : List ℕ) → is_leaf g log p ≡ true → (objects : List Placed)
        → SameElements objects (map (placed_object g) (filter (belongs g p) (live (updates_of log)))) → catalog_after g (log ++ Split p ∷ []) ≡ flat_map (split_leaf g.pivots p objects) (catalog_after g log) }
{}

/// The leaves with counts have the prefixes of the leaves.
pub fn cat_has_leaves()
    ensures { (g : Grid) (log : List LogEvent) (p : List ℕ) → has_leaf p (catalog_after g log) ≡ is_leaf g log p }
{}

/// No leaf counts more than the live objects, and the leaf of a live object counts it.
pub fn cat_counts()
    ensures within { (g : Grid) (log : List LogEvent) → All (λ l. l.count ≤ length (live (updates_of log))) (catalog_after g log) }
    ensures some { (g : Grid) (log : List LogEvent) (o : Object) (rest : List Object) → SameElements (live (updates_of log)) (o ∷ rest)
        → All (λ l. begins l.prefix (g.perm o.vector) ≡ true → 0 < l.count) (catalog_after g log) }
{}

/// The prefix of a leaf has at most as many pivots as a prefix may have, each the number of a pivot.
pub fn leaves_are_of_the_pivots()
    ensures { (g : Grid) → IsGrid g → (log : List LogEvent) → AllMaySplit g log → All (λ p. (length p ≤ g.levels) × (all_below g.pivots p ≡ true)) (leaves g log) }
{}

/// A legal log splits no leaf of greatest depth, so that the other laws hold of it.
pub fn legal_logs_may_split()
    ensures { (c : Configuration) (log : List LogEvent) → LegalLog c log → AllMaySplit (grid_of (space_of c) c.levels) log }
{}

/// A legal log has at most as many splits as it may have updates, times the greatest depth: each split takes an object one pivot deeper.
pub fn legal_logs_split_few()
    ensures { (c : Configuration) (log : List LogEvent) → IsWithinLimits c → LegalLog c log → splits_of log ≤ c.updates * c.levels }
{}

/// After a legal log each live identifier has one object.
pub fn live_objects_stand_once()
    ensures { (c : Configuration) (log : List LogEvent) → LegalLog c log → (id : ℕ) → is_live id (updates_of log) ≡ true → TheOne id (live (updates_of log)) }
{}

/// Without pivots the leaves are the one cell.
pub fn cat_without_pivots()
    ensures { (m : MetricSpace) (log : List LogEvent) → AllMaySplit (grid_of (record { metric = m; pivots = [] }) 0) log → catalog_after (grid_of (record { metric = m; pivots = [] }) 0) log ≡ lone_cell log }
{}

/// The live objects with the numbers of their inserts are the live objects.
pub fn born_objects_are_live()
    ensures { (history : List Update) → map object_born (born history) ≡ live history }
{}
