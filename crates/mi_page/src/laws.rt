//! What is true of every page and of every list of entries or routes. The functions do nothing.
ghost use Rattle.std.specs.Prelude.{◌≡◌, ◌<◌, ◌≤◌, ◌&&◌, ◌++◌, ℕ, Bool, List, [], IsTrue, None, Some, map, nat_le, nat_lt, slice_get, true, false};
ghost use Rattle.std.specs.List.{filter};
ghost use Rattle.mi_base.specs.Sorting.{put};
ghost use Rattle.mi_key.specs.declared.entries.Entry.{Entry};
ghost use Rattle.mi_key.specs.declared.ranges.Interval.{Interval};
ghost use Rattle.mi_key.specs.Entries.{offering_of};
ghost use Rattle.mi_key.specs.Ranges.{is_within};
ghost use Rattle.mi_page.specs.declared.routes.Route.{Route};
ghost use Rattle.mi_page.specs.Entries.{entry_cmp, entry_keys, has_entry, has_living, is_shown, shown_in, without_interval, without_dead, with_death, without_key};
ghost use Rattle.mi_page.specs.Keys.{Ascending, IsInside};
ghost use Rattle.mi_page.specs.Routes.{IsChild, has_route, route_cmp, route_keys};
ghost use Rattle.mi_page.specs.Nodes.{IsNode, Node, fresh_node, item_count, lower_half, middle_key, root_node, upper_half};

/// What the calls make of a page is a page. A removal, a trim and a sweep keep what a test keeps.
pub fn calls_keep_pages()
    ensures fresh { IsNode fresh_node }
    ensures root { (level left key child : ℕ) → 0 < level → 0 < key → IsNode (root_node level left key child) }
    ensures entry { (p : Node) (e : Entry) → IsNode p → p.level ≡ 0 → item_count p < 32 → IsInside p.low p.high e.key → has_entry e.key p.entries ≡ false
        → IsNode (record p { entries = put entry_cmp e p.entries }) }
    ensures route { (p : Node) (r : Route) → IsNode p → 0 < p.level → item_count p < 32 → IsInside p.low p.high r.key → has_route r.key p.routes ≡ false
        → IsNode (record p { routes = put route_cmp r p.routes }) }
    ensures death { (p : Node) (key number : ℕ) → IsNode p → p.level ≡ 0 → IsNode (record p { entries = map (with_death key number) p.entries }) }
    ensures kept { (p : Node) (test : Entry → Bool) → IsNode p → p.level ≡ 0 → IsNode (record p { entries = filter test p.entries }) }
{}

/// The halves of a full page have its entries and routes in their order, each once.
pub fn halves_have_all()
    ensures entries { (p : Node) (number : ℕ) → (lower_half number p).entries ++ (upper_half p).entries ≡ p.entries }
    ensures routes { (p : Node) (number : ℕ) → (lower_half number p).routes ++ (upper_half p).routes ≡ p.routes }
{}

/// The halves of a full page are pages of 16, so their keys lie on the two sides of the middle key, which is inside the range and
/// above its low key.
pub fn halves_part_keys()
    ensures lower { (p : Node) (number : ℕ) → IsNode p → item_count p ≡ 32 → IsNode (lower_half number p) × (item_count (lower_half number p) ≡ 16) }
    ensures upper { (p : Node) → IsNode p → item_count p ≡ 32 → IsNode (upper_half p) × (item_count (upper_half p) ≡ 16) }
    ensures middle { (p : Node) → IsNode p → item_count p ≡ 32 → IsInside p.low p.high (middle_key p) × (p.low < middle_key p) }
{}

/// The halves of a full page are the two sides of its middle key.
pub fn halves_are_sides()
    ensures entries { (p : Node) (number : ℕ) → IsNode p → item_count p ≡ 32 → ((lower_half number p).entries ≡ filter (λ e. nat_lt e.key (middle_key p)) p.entries)
        × ((upper_half p).entries ≡ filter (λ e. nat_le (middle_key p) e.key) p.entries) }
    ensures routes { (p : Node) (number : ℕ) → IsNode p → item_count p ≡ 32 → ((lower_half number p).routes ≡ filter (λ r. nat_lt r.key (middle_key p)) p.routes)
        × ((upper_half p).routes ≡ filter (λ r. nat_le (middle_key p) r.key) p.routes) }
{}

/// A full page shows what its halves show, one after the other.
pub fn halves_show_all()
    ensures { (p : Node) (number : ℕ) (range : Interval) (updates : ℕ) → shown_in range updates (lower_half number p).entries ++ shown_in range updates (upper_half p).entries ≡ shown_in range updates p.entries }
{}

/// What is shown in an interval is what is shown at all, cut to the interval, and in key order, each once.
pub fn shown_is_a_filter()
    ensures filter { (range : Interval) (updates : ℕ) (entries : List Entry) → shown_in range updates entries ≡ filter (λ e. is_within range e.key) (filter (is_shown updates) entries) }
    ensures order { (range : Interval) (updates : ℕ) (entries : List Entry) → Ascending (entry_keys entries) → Ascending (entry_keys (shown_in range updates entries)) }
{}

/// A trim changes nothing that is shown at the floor or later.
pub fn trims_hide_nothing()
    ensures { (floor updates : ℕ) (range : Interval) (entries : List Entry) → floor ≤ updates → shown_in range updates (without_dead floor entries) ≡ shown_in range updates entries }
{}

/// A sweep hides what its interval shows, and nothing of an interval apart from it.
pub fn sweeps_hide_their_interval()
    ensures own { (range : Interval) (updates : ℕ) (entries : List Entry) → shown_in range updates (without_interval range entries) ≡ [] }
    ensures other { (range other : Interval) (updates : ℕ) (entries : List Entry) → ((key : ℕ) → IsTrue (is_within other key) → is_within range key ≡ false)
        → shown_in other updates (without_interval range entries) ≡ shown_in other updates entries }
{}

/// A removal hides its entry and nothing else.
pub fn removals_hide_one()
    ensures { (key updates : ℕ) (range : Interval) (entries : List Entry) → shown_in range updates (without_key key entries) ≡ without_key key (shown_in range updates entries) }
{}

/// A death changes nothing that is shown before its number, and hides its entry alone from its number on.
pub fn deaths_hide_one()
    ensures before { (key number updates : ℕ) (range : Interval) (entries : List Entry) → Ascending (entry_keys entries) → has_living key entries ≡ true → updates < number
        → map offering_of (shown_in range updates (map (with_death key number) entries)) ≡ map offering_of (shown_in range updates entries) }
    ensures after { (key number updates : ℕ) (range : Interval) (entries : List Entry) → number ≤ updates
        → shown_in range updates (map (with_death key number) entries) ≡ without_key key (shown_in range updates entries) }
{}

/// An insert shows its entry in its place where it is in the interval and shown, and changes nothing else.
pub fn inserts_show_one()
    ensures shown { (e : Entry) (updates : ℕ) (range : Interval) (entries : List Entry) → Ascending (entry_keys entries) → (is_within range e.key && is_shown updates e) ≡ true
        → shown_in range updates (put entry_cmp e entries) ≡ put entry_cmp e (shown_in range updates entries) }
    ensures hidden { (e : Entry) (updates : ℕ) (range : Interval) (entries : List Entry) → (is_within range e.key && is_shown updates e) ≡ false
        → shown_in range updates (put entry_cmp e entries) ≡ shown_in range updates entries }
{}

/// An entry that was found, and has no death, may get one.
pub fn found_entries_live()
    ensures { (key place : ℕ) (entries : List Entry) (e : Entry) → slice_get entries place ≡ Some e → e.key ≡ key → e.death ≡ None → has_living key entries ≡ true }
{}

/// A key has one child.
pub fn children_are_one()
    ensures { (key : ℕ) (routes : List Route) (a b : ℕ) → Ascending (route_keys routes) → IsChild key routes a → IsChild key routes b → a ≡ b }
{}
