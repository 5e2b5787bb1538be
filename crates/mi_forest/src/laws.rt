//! What is true of linked pages. The functions do nothing.
ghost use Rattle.std.specs.Prelude.{◌≡◌, ◌≢◌, ◌<◌, ◌≤◌, ◌+◌, ◌*◌, ◌⊎◌, ◌&&◌, ◌||◌, ◌++◌, [], ℕ, Bool, List, None, Some, length, map, not, nat_lt, slice_get, slice_set, true, false, ◌∷◌};
ghost use Rattle.std.specs.List.{filter};
ghost use Rattle.mi_base.specs.Prefixes.{has};
ghost use Rattle.mi_base.specs.Sorting.{put};
ghost use Rattle.mi_key.specs.declared.entries.Entry.{Entry};
ghost use Rattle.mi_page.specs.declared.routes.Route.{Route};
ghost use Rattle.mi_page.specs.Entries.{entry_cmp, entry_keys, has_entry, has_living, with_death, without_key};
ghost use Rattle.mi_page.specs.Keys.{Ascending, IsInside, is_below};
ghost use Rattle.mi_page.specs.Nodes.{Node, IsNode, item_count, in_range};
ghost use Rattle.mi_page.specs.Routes.{IsChild, has_route, route_cmp};
ghost use Rattle.mi_forest.specs.Changes.{AllotsPage, PagesStay, GrowsRoot, HalvesPage, RewritesPage, SetsPage, with_entries, with_routes};
ghost use Rattle.mi_forest.specs.Forests.{Follows, Forest, IsForest, IsLinked, LeadsDown, MovesDown, MovesRight, PageOf, first_forest, all_entries};
ghost use Rattle.mi_forest.specs.Paths.{IsComplete, IsOnWay, IsPath};

/// The entries of all leaf pages stand in key order, no key twice, and a leaf page has those of its range.
pub fn pages_part_entries()
    ensures order { (f : Forest) → IsForest f → Ascending (entry_keys (all_entries f)) }
    ensures own { (f : Forest) → IsForest f → (n : ℕ) → IsLinked f n → (f.node n).level ≡ 0 → filter (λ e. in_range (f.node n) e.key) (all_entries f) ≡ (f.node n).entries }
{}

/// Each key lies in the range of a linked page on each level up to the root's.
pub fn keys_have_pages()
    ensures first { IsForest first_forest }
    ensures page { (f : Forest) → IsForest f → (level key : ℕ) → level ≤ (f.node f.root).level → PageOf f level key }
    ensures alone { (f : Forest) → IsForest f → (m n key : ℕ) → IsLinked f m → IsLinked f n → (f.node m).level ≡ (f.node n).level
        → IsInside (f.node m).low (f.node m).high key → IsInside (f.node n).low (f.node n).high key → m ≡ n }
{}

/// A key in a leaf page's range is among all entries where it is in this page.
pub fn keys_are_looked_up()
    ensures any { (f : Forest) → IsForest f → (n : ℕ) → IsLinked f n → (f.node n).level ≡ 0 → (key : ℕ) → IsInside (f.node n).low (f.node n).high key
        → has_entry key (all_entries f) ≡ has_entry key (f.node n).entries }
    ensures living { (f : Forest) → IsForest f → (n : ℕ) → IsLinked f n → (f.node n).level ≡ 0 → (key : ℕ) → IsInside (f.node n).low (f.node n).high key
        → has_living key (all_entries f) ≡ has_living key (f.node n).entries }
{}

/// What a test keeps of all entries below a leaf page, with what it keeps in the page, is what it keeps below the page's end.
pub fn walks_go_on()
    ensures { (f : Forest) → IsForest f → (n : ℕ) → IsLinked f n → (f.node n).level ≡ 0 → (t : Entry → Bool)
        → filter (λ e. t e && nat_lt e.key (f.node n).low) (all_entries f) ++ filter t (f.node n).entries ≡ filter (λ e. t e && is_below (f.node n).high e.key) (all_entries f) }
{}

/// From a linked page whose low key isn't above a key, the page to the right and the page below are linked and have low keys that aren't above it.
pub fn moves_lead_on()
    ensures next { (f : Forest) → IsForest f → (n m : ℕ) → IsLinked f n → (f.node n).right ≡ Some m → Follows f n m }
    ensures last { (f : Forest) → IsForest f → (n : ℕ) → IsLinked f n → (f.node n).right ≡ None → (f.node n).high ≡ None }
    ensures right { (f : Forest) → IsForest f → (n key : ℕ) → IsLinked f n → is_below (f.node n).high key ≡ false → MovesRight f n key }
    ensures down { (f : Forest) → IsForest f → (n key child : ℕ) → IsLinked f n → IsChild key (f.node n).routes child → MovesDown f n key child }
{}

/// Each allotted page is linked or in one hand, and no other page is either.
pub fn pages_are_linked_or_held()
    ensures each { (f : Forest) → IsForest f → (n : ℕ) → n < f.allotted → (IsLinked f n × (f.held n ≡ 0)) ⊎ ((f.held n ≡ 1) × (has n (f.chain (f.node n).level) ≡ false)) }
    ensures linked { (f : Forest) → IsForest f → (n : ℕ) → IsLinked f n → n < f.allotted }
{}

/// Above the lowest level each has at most a sixteenth of the pages of the one below, so that 200,000 pages have at most six levels.
pub fn levels_are_few()
    ensures sixteenth { (f : Forest) → IsForest f → (level : ℕ) → 1 < length (f.chain (level + 1)) → 16 * length (f.chain (level + 1)) ≤ length (f.chain level) }
    ensures height { (f : Forest) → IsForest f → f.allotted ≤ 200000 → (f.node f.root).level ≤ 5 }
    ensures all { (f : Forest) → IsForest f → f.allotted ≤ 200000 → (hands : List ℕ) → ((n : ℕ) → 0 < f.held n → has n hands ≡ true) → 15 * f.allotted ≤ 16 * length (f.chain 0) + 80 + 15 * length hands }
{}

/// A linked leaf page gains an entry, loses some, or has one marked dead: so do all entries.
pub fn changes_keep_pages()
    ensures put { (f g : Forest) → IsForest f → (n : ℕ) → IsLinked f n → (f.node n).level ≡ 0 → (e : Entry) → item_count (f.node n) < 32 → IsInside (f.node n).low (f.node n).high e.key
        → has_entry e.key (f.node n).entries ≡ false → SetsPage f g n (with_entries (f.node n) (put entry_cmp e (f.node n).entries)) → IsForest g × (all_entries g ≡ put entry_cmp e (all_entries f)) }
    ensures kept { (f g : Forest) → IsForest f → (n : ℕ) → IsLinked f n → (f.node n).level ≡ 0 → (t : Entry → Bool) → SetsPage f g n (with_entries (f.node n) (filter t (f.node n).entries))
        → IsForest g × (all_entries g ≡ filter (λ e. not (in_range (f.node n) e.key) || t e) (all_entries f)) }
    ensures removed { (f g : Forest) → IsForest f → (n : ℕ) → IsLinked f n → (f.node n).level ≡ 0 → (key : ℕ) → IsInside (f.node n).low (f.node n).high key
        → SetsPage f g n (with_entries (f.node n) (without_key key (f.node n).entries)) → IsForest g × (all_entries g ≡ without_key key (all_entries f)) }
    ensures marked { (f g : Forest) → IsForest f → (n : ℕ) → IsLinked f n → (f.node n).level ≡ 0 → (key number : ℕ) → IsInside (f.node n).low (f.node n).high key
        → SetsPage f g n (with_entries (f.node n) (map (with_death key number) (f.node n).entries)) → IsForest g × (all_entries g ≡ map (with_death key number) (all_entries f)) }
{}

/// What one leaf page loses is lost of nothing that a test keeps, where the test keeps none of what is lost.
pub fn losses_are_unseen()
    ensures { (p : Node) (t s : Entry → Bool) (old new : List Entry) → new ≡ filter (λ e. not (in_range p e.key) || t e) old → ((e : Entry) → s e ≡ true → t e ≡ true)
        → filter s new ≡ filter s old }
{}

/// Linked pages stay linked, on their levels, with their low keys.
pub fn pages_stay()
    ensures same { (f : Forest) → PagesStay f f }
    ensures later { (f g k : Forest) → PagesStay f g → PagesStay g k → PagesStay f k }
    ensures changed { (f g : Forest) → IsForest f → (n : ℕ) → RewritesPage f g n → PagesStay f g }
    ensures halved { (f g : Forest) → IsForest f → (n q : ℕ) → HalvesPage f g n q → PagesStay f g }
    ensures grown { (f g : Forest) → IsForest f → (q key child : ℕ) → GrowsRoot f g q key child → PagesStay f g }
    ensures allotted { (f g : Forest) → IsForest f → AllotsPage f g → PagesStay f g }
{}

/// What goes page by page (a sweep, a trim), and has gone up to a page, has gone up to its end once the page lost it.
pub fn losses_go_on()
    ensures { (p : Node) (t d : Entry → Bool) (old new : List Entry) → new ≡ filter (λ e. not (in_range p e.key) || t e) old → ((e : Entry) → t e ≡ true → d e ≡ false)
        → filter (λ e. d e && nat_lt e.key p.low) old ≡ [] → filter (λ e. d e && is_below p.high e.key) new ≡ [] }
{}

/// A route that leads on is put into a linked page with room.
pub fn posts_keep_pages()
    ensures { (f g : Forest) → IsForest f → (n : ℕ) → IsLinked f n → 0 < (f.node n).level → (r : Route) → item_count (f.node n) < 32 → IsInside (f.node n).low (f.node n).high r.key
        → has_route r.key (f.node n).routes ≡ false → LeadsDown f (f.node n).level r → SetsPage f g n (with_routes (f.node n) (put route_cmp r (f.node n).routes)) → IsForest g × (all_entries g ≡ all_entries f) }
{}

/// A full page is halved, whatever its level.
pub fn splits_keep_pages()
    ensures { (f g : Forest) → IsForest f → (n q : ℕ) → HalvesPage f g n q → IsForest g × (all_entries g ≡ all_entries f) × IsLinked g q }
{}

/// A halving makes its level one page longer, and no other.
pub fn splits_lengthen()
    ensures own { (f g : Forest) → IsForest f → (n q : ℕ) → HalvesPage f g n q → length (g.chain (f.node n).level) ≡ length (f.chain (f.node n).level) + 1 }
    ensures other { (f g : Forest) → IsForest f → (n q : ℕ) → HalvesPage f g n q → (level : ℕ) → level ≢ (f.node n).level → g.chain level ≡ f.chain level }
{}

/// A page becomes the root over the old one.
pub fn roots_grow()
    ensures { (f g : Forest) → IsForest f → (q key child : ℕ) → GrowsRoot f g q key child → IsForest g × (all_entries g ≡ all_entries f) }
{}

/// A page is allotted.
pub fn hands_are_filled()
    ensures { (f g : Forest) → IsForest f → AllotsPage f g → IsForest g × (all_entries g ≡ all_entries f) }
{}

/// Where all routes are there, the key sought lies in the range of each page on its path.
pub fn paths_go_straight()
    ensures root { (f : Forest) → IsForest f → IsComplete f → (key : ℕ) → IsOnWay f key f.root }
    ensures child { (f : Forest) → IsForest f → IsComplete f → (key n child : ℕ) → IsOnWay f key n → IsChild key (f.node n).routes child → IsOnWay f key child }
    ensures path { (f : Forest) → IsForest f → IsComplete f → (key n : ℕ) → IsPath f key n → IsOnWay f key n }
{}
