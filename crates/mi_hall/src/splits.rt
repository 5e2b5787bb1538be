//! What sections of a split's pages make of a seat's view. The laws' functions do nothing.
ghost use Rattle.std.specs.Prelude.{Bool, Err, IsTrue, Ok, Option, Some, ℕ, ◌≡◌};
ghost use Rattle.mi_base.specs.declared.refusals.NoMemory.{NoMemory};
ghost use Rattle.mi_core.specs.Effects.{trim_leaf};
ghost use Rattle.mi_core.specs.Events.Event.{copy_in, gather, start, uncopy, visit};
ghost use Rattle.mi_core.specs.State.{node_at};
ghost use Rattle.mi_key.specs.declared.entries.Entry.{Entry};
ghost use Rattle.mi_page.specs.Nodes.{Node, item_count};
ghost use Rattle.mi_world.specs.declared.answers.Put.TheVariants as put;
ghost use Rattle.mi_world.specs.declared.answers.Visit.TheVariants.{Down, Right, Read};
ghost use Rattle.mi_world.specs.Splits.{CopiesIn, Gathers, Uncopies, gather_key, last_copy, last_key, next_copy};
ghost use Rattle.mi_solo.specs.Seeking.{EndsAfter, PointsDown, PointsRight, ReadsOn};
ghost use Rattle.mi_hall.specs.Places.{PageMakes};

/// What a gather answers.
pub fn gathers_follow()
    ensures down { (page : ℕ) (node : Node) (child : ℕ)
        → PageMakes (start page) (λ c v w. IsTrue (v.named page) → ((p : ℕ) → Some child ≡ Some p
        → IsTrue (w.named p)) → node_at c.pages page ≡ Some node
        → PointsDown node 0 (gather_key v) child → Gathers v w page (Ok (Down child))) }
    ensures right { (page : ℕ) (node : Node) (next : ℕ)
        → PageMakes (start page) (λ c v w. IsTrue (v.named page) → ((p : ℕ) → Some next ≡ Some p
        → IsTrue (w.named p)) → node_at c.pages page ≡ Some node
        → PointsRight node 0 (gather_key v) next → Gathers v w page (Ok (Right next))) }
    ensures memory { (page : ℕ) (e : NoMemory)
        → PageMakes (start page) (λ c v w. IsTrue (v.named page) → Gathers v w page (Err e)) }
    ensures read { (page : ℕ) (node : Node) (next : Option ℕ)
        → PageMakes (gather page node) (λ c v w. IsTrue (v.named page) → ((p : ℕ) → next ≡ Some p
        → IsTrue (w.named p)) → ReadsOn node (last_key v v.leaf) next
        → Gathers v w page (Ok (Read next))) }
{}

/// What a copy answers.
pub fn copies_follow()
    ensures down { (page : ℕ) (node : Node) (child : ℕ)
        → PageMakes (visit page) (λ c v w. IsTrue (v.named page) → ((p : ℕ) → Some child ≡ Some p
        → IsTrue (w.named p)) → node_at c.pages page ≡ Some node
        → PointsDown node 0 (next_copy v) child → CopiesIn v w page (put.Down child)) }
    ensures right { (page : ℕ) (node : Node) (next : ℕ)
        → PageMakes (visit page) (λ c v w. IsTrue (v.named page) → ((p : ℕ) → Some next ≡ Some p
        → IsTrue (w.named p)) → node_at c.pages page ≡ Some node
        → PointsRight node 0 (next_copy v) next → CopiesIn v w page (put.Right next)) }
    ensures page_full { (page : ℕ) (node : Node)
        → PageMakes (visit page) (λ c v w. IsTrue (v.named page)
        → node_at c.pages page ≡ Some node → EndsAfter node 0 (next_copy v)
        → item_count (trim_leaf v.floor.updates node) ≡ 32 → CopiesIn v w page put.PageFull) }
    ensures done { (page : ℕ) (node : Node) (e : Entry)
        → PageMakes (copy_in page node e) (λ c v w. IsTrue (v.named page)
        → CopiesIn v w page put.Done) }
{}

/// What the taking back of a copy answers.
pub fn uncopies_follow()
    ensures down { (page : ℕ) (node : Node) (child : ℕ)
        → PageMakes (visit page) (λ c v w. IsTrue (v.named page) → ((p : ℕ) → Some child ≡ Some p
        → IsTrue (w.named p)) → node_at c.pages page ≡ Some node
        → PointsDown node 0 (last_copy v) child → Uncopies v w page (put.Down child)) }
    ensures right { (page : ℕ) (node : Node) (next : ℕ)
        → PageMakes (visit page) (λ c v w. IsTrue (v.named page) → ((p : ℕ) → Some next ≡ Some p
        → IsTrue (w.named p)) → node_at c.pages page ≡ Some node
        → PointsRight node 0 (last_copy v) next → Uncopies v w page (put.Right next)) }
    ensures done { (page : ℕ) (node : Node) (e : Entry) (told : Bool)
        → PageMakes (uncopy page node e told) (λ c v w. IsTrue (v.named page) → told ≡ v.told
        → Uncopies v w page put.Done) }
{}
