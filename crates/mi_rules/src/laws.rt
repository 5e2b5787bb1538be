//! What is true of the rules under every metric. The functions do nothing.
ghost use Rattle.std.specs.Prelude.{◌≡◌, ◌≤◌, ◌<◌, ◌^◌, [], ℕ, ℤ, List, IfSome, Option, Some, length, nat_le, true};
ghost use Rattle.std.specs.List.{filter};
ghost use Rattle.mi_base.specs.declared.records.LogEvent.{LogEvent};
ghost use Rattle.mi_base.specs.Configuration.{IsDepth};
ghost use Rattle.mi_base.specs.History.{live, updates_of};
ghost use Rattle.mi_base.specs.Permutations.{distances, key_distance};
ghost use Rattle.mi_base.specs.Space.{IsMetric, Space};
ghost use Rattle.mi_key.specs.Clusters.{cluster_of};
ghost use Rattle.mi_key.specs.declared.keys.KeyParts.{KeyParts};
ghost use Rattle.mi_tree.specs.declared.outcomes.Leaf.{Leaf};
ghost use Rattle.mi_tree.specs.Cells.{AllMaySplit, grid_of};
ghost use Rattle.mi_rules.specs.Passing.{IsBound, candidates, lets_through, passes};
ghost use Rattle.mi_rules.specs.Answers.{IsAnswer, MayHold};
ghost use Rattle.mi_rules.specs.Spans.{is_in_span, is_near};

/// No rule drops an answer: the filter lets an object within the radius through, each leaf that may hold it passes and has no
/// bound above the radius, and its key there is in the leaf's span, also where that is cut to the hull.
pub fn no_answer_is_dropped()
    ensures filter { (space : Space) (query object : List ℤ) (radius : ℕ) → IsAnswer space query object radius
        → lets_through radius (distances space query) (distances space object) ≡ true }
    ensures leaf { (space : Space) (query object : List ℤ) (radius : ℕ) → IsAnswer space query object radius
        → (leaf : Leaf) → MayHold leaf (distances space object) → passes (distances space query) radius leaf ≡ true }
    ensures bound { (space : Space) (query object : List ℤ) (radius : ℕ) → IsAnswer space query object radius
        → (leaf : Leaf) → MayHold leaf (distances space object) → (bound : ℕ) → IsBound (distances space query) leaf (Some bound) → bound ≤ radius }
    ensures key { (space : Space) (query object : List ℤ) (radius : ℕ) → IsAnswer space query object radius
        → (leaf : Leaf) → MayHold leaf (distances space object) → (leaf.prefix ≡ [] → space.pivots ≡ [])
        → (levels : ℕ) (key : KeyParts) → key.cluster ≡ cluster_of (length space.pivots) levels leaf.prefix → key.distance ≡ key_distance (distances space object)
        → is_in_span (distances space query) radius levels leaf.prefix key ≡ true }
    ensures near { (space : Space) (query object : List ℤ) (radius : ℕ) → IsAnswer space query object radius → (worst : Option ℕ) → IfSome worst (λ w. radius ≤ w)
        → (leaf : Leaf) → MayHold leaf (distances space object) → (leaf.prefix ≡ [] → space.pivots ≡ []) → (hull : ℕ × ℕ) → leaf.hull ≡ Some hull
        → (levels : ℕ) (key : KeyParts) → key.cluster ≡ cluster_of (length space.pivots) levels leaf.prefix → key.distance ≡ key_distance (distances space object)
        → is_near (distances space query) worst levels leaf.prefix hull key ≡ true }
{}

/// What passes at a radius passes at each greater one, so from its bound on.
pub fn passing_grows()
    ensures grows { (dq : List ℕ) (leaf : Leaf) (radius greater : ℕ) → radius ≤ greater → passes dq radius leaf ≡ true → passes dq greater leaf ≡ true }
    ensures bound { (dq : List ℕ) (leaf : Leaf) (bound : ℕ) → IsBound dq leaf (Some bound) → (radius : ℕ) → passes dq radius leaf ≡ nat_le bound radius }
{}

/// What the filter lets through is kept in a leaf that passes, under a key in its span, so that the objects that a query is
/// compared with are the live ones that the filter lets through.
pub fn filter_implies_passing()
    ensures leaf { (dq dists : List ℕ) (radius : ℕ) → length dq ≡ length dists → lets_through radius dq dists ≡ true
        → (leaf : Leaf) → MayHold leaf dists → passes dq radius leaf ≡ true }
    ensures key { (dq dists : List ℕ) (radius : ℕ) → length dq ≡ length dists → lets_through radius dq dists ≡ true
        → (leaf : Leaf) → MayHold leaf dists → (leaf.prefix ≡ [] → dq ≡ []) → (levels : ℕ) (key : KeyParts)
        → key.cluster ≡ cluster_of (length dq) levels leaf.prefix → key.distance ≡ key_distance dists → key.distance < 2 ^ 27 → is_in_span dq radius levels leaf.prefix key ≡ true }
    ensures candidates { (space : Space) (levels : ℕ) → length space.pivots ≤ 32 → IsDepth (length space.pivots) levels
        → (log : List LogEvent) → AllMaySplit (grid_of space levels) log → (query : List ℤ) (radius : ℕ)
        → candidates space levels log query radius ≡ filter (λ o. lets_through radius (distances space query) (distances space o.vector)) (live (updates_of log)) }
{}
