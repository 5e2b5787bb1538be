//! What sections of pages make of a seat's view. The laws' functions do nothing.
ghost use Rattle.std.specs.Prelude.{IsSome, IsTrue, Option, Some, length, ℕ, ◌<◌, ◌≡◌};
ghost use Rattle.mi_key.specs.declared.ranges.Interval.{Interval};
ghost use Rattle.mi_core.specs.Effects.{trim_leaf};
ghost use Rattle.mi_core.specs.Events.Event.{post, split_page, sweep, trim, visit};
ghost use Rattle.mi_core.specs.State.{node_at};
ghost use Rattle.mi_page.specs.Nodes.{Node, item_count, middle_key};
ghost use Rattle.mi_world.specs.declared.answers.Parted.TheVariants.{Parted, Roomy};
ghost use Rattle.mi_world.specs.declared.answers.Put.TheVariants as put;
ghost use Rattle.mi_world.specs.declared.answers.Visit.{Visit};
ghost use Rattle.mi_world.specs.declared.answers.Visit.TheVariants.{Down, Right, Read};
ghost use Rattle.mi_world.specs.Pages.{IsInLeaf, PartsPage, Posts, Trims, Visits, offered_by, pinned};
ghost use Rattle.mi_world.specs.Splits.{Sweeps, last_key};
ghost use Rattle.mi_solo.specs.Seeking.{AnswersVisit, EndsAfter, PointsDown, PointsRight, ReadsOn, TrimsTo, offered_of};
ghost use Rattle.mi_base.specs.History.{updates_of};
ghost use Rattle.mi_hall.specs.Leading.{page_of_visit};
ghost use Rattle.mi_hall.specs.Places.{PageMakes};

/// What a visit answers, and what it offers at its actor's pin.
pub fn visits_follow()
    ensures told { (page : ℕ) (node : Node) (range : Interval) (result : Visit)
        → PageMakes (visit page) (λ c v w. IsTrue (v.named page) → ((p : ℕ)
        → page_of_visit result ≡ Some p → IsTrue (w.named p)) → node_at c.pages page ≡ Some node
        → AnswersVisit node range result → Visits v w page range result) }
    ensures offered { (page : ℕ) (node : Node) (range : Interval) (result : Visit)
        → PageMakes (visit page) (λ c v w. IsTrue (v.named page) → ((p : ℕ)
        → page_of_visit result ≡ Some p → IsTrue (w.named p)) → node_at c.pages page ≡ Some node
        → IsSome v.pin → IsInLeaf v range → AnswersVisit node range result
        → offered_of node range (length (updates_of (pinned v))) result ≡ offered_by v w page
        range result) }
{}

/// What a halving answers, of a page with room with a trim or without one.
pub fn halves_follow()
    ensures parted { (page : ℕ) (node : Node) (child : ℕ)
        → PageMakes (split_page page node) (λ c v w. IsTrue (v.named page) → ((p : ℕ)
        → Some child ≡ Some p → IsTrue (w.named p)) → v.fresh ≡ Some child
        → PartsPage v w page (Parted (middle_key node) child)) }
    ensures roomy { (page : ℕ) (node : Node)
        → PageMakes (visit page) (λ c v w. IsTrue (v.named page)
        → node_at c.pages page ≡ Some node → item_count (trim_leaf v.floor.updates node) < 32
        → PartsPage v w page Roomy) }
    ensures trimmed { (page : ℕ) (node : Node)
        → PageMakes (trim page node) (λ c v w. IsTrue (v.named page)
        → item_count (trim_leaf v.floor.updates node) < 32 → PartsPage v w page Roomy) }
{}

/// What a post answers.
pub fn posts_follow()
    ensures down { (page : ℕ) (node : Node) (level key child next : ℕ)
        → PageMakes (visit page) (λ c v w. IsTrue (v.named page) → ((p : ℕ) → Some next ≡ Some p
        → IsTrue (w.named p)) → node_at c.pages page ≡ Some node → PointsDown node level key next
        → Posts v w page level key child (put.Down next)) }
    ensures right { (page : ℕ) (node : Node) (level key child next : ℕ)
        → PageMakes (visit page) (λ c v w. IsTrue (v.named page) → ((p : ℕ) → Some next ≡ Some p
        → IsTrue (w.named p)) → node_at c.pages page ≡ Some node → PointsRight node level key next
        → Posts v w page level key child (put.Right next)) }
    ensures page_full { (page : ℕ) (node : Node) (level key child : ℕ)
        → PageMakes (visit page) (λ c v w. IsTrue (v.named page)
        → node_at c.pages page ≡ Some node → EndsAfter node level key
        → item_count (trim_leaf v.floor.updates node) ≡ 32
        → Posts v w page level key child put.PageFull) }
    ensures done { (page : ℕ) (node : Node) (level key child : ℕ)
        → PageMakes (post page node key child) (λ c v w. IsTrue (v.named page)
        → node.level ≡ level → Posts v w page level key child put.Done) }
{}

/// What a sweep answers.
pub fn sweeps_follow()
    ensures down { (page : ℕ) (node : Node) (child : ℕ)
        → PageMakes (visit page) (λ c v w. IsTrue (v.named page) → ((p : ℕ) → Some child ≡ Some p
        → IsTrue (w.named p)) → node_at c.pages page ≡ Some node → PointsDown node 0 v.swept child
        → Sweeps v w page (Down child)) }
    ensures right { (page : ℕ) (node : Node) (next : ℕ)
        → PageMakes (visit page) (λ c v w. IsTrue (v.named page) → ((p : ℕ) → Some next ≡ Some p
        → IsTrue (w.named p)) → node_at c.pages page ≡ Some node → PointsRight node 0 v.swept next
        → Sweeps v w page (Right next)) }
    ensures read { (page : ℕ) (node : Node) (next : Option ℕ)
        → PageMakes (sweep page node) (λ c v w. IsTrue (v.named page) → ((p : ℕ) → next ≡ Some p
        → IsTrue (w.named p)) → ReadsOn node (last_key v v.sweep) next
        → Sweeps v w page (Read next)) }
{}

/// What a trim answers.
pub fn trims_follow()
    ensures { (page : ℕ) (node : Node) (next : Option ℕ)
        → PageMakes (trim page node) (λ c v w. IsTrue (v.named page) → ((p : ℕ) → next ≡ Some p
        → IsTrue (w.named p)) → TrimsTo node next → Trims v w page (Read next)) }
{}
