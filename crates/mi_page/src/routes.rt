//! Lists of routes in key order, from a page to those one level below it.
ghost use Rattle.std.specs.Prelude.{◌≡◌, ◌<◌, ◌≤◌, length, nat_lt, IsSomeAnd, slice_get, vec_len, vec_capacity};
ghost use Rattle.std.specs.List.{prefix_len};
ghost use Rattle.mi_base.specs.Sorting.{put};
ghost use Rattle.mi_page.specs.Keys.{Ascending};
ghost use Rattle.mi_page.specs.Routes.{IsChild, has_route, route_cmp, route_keys};

use mi_key::Key;

/// The page `child` has the low key `key`.
#[derive(Clone, Copy, Debug, PartialEq, Eq)]
pub struct Route {
    pub key: Key,
    pub child: u32,
}

/// The page of the greatest route key not above the key.
pub fn child(routes: &[Route], key: Key) -> u32
    requires order { Ascending (route_keys routes.now) }
    requires first { IsSomeAnd (slice_get (route_keys routes.now) 0) (λ low. low ≤ key) }
    ensures { IsChild key routes.now result }
{
    let after = routes.partition_point(|route| route.key <= key);
    routes[after - 1].child
}

/// A route has this key.
pub fn has(routes: &[Route], key: Key) -> bool
    requires { Ascending (route_keys routes.now) }
    ensures { result ≡ has_route key routes.now }
{
    let place = place_of(routes, key);
    place < routes.len() && routes[place].key == key
}

/// Puts a route into its place.
pub fn insert(routes: &mut Vec<Route>, route: Route)
    requires order { Ascending (route_keys routes.old.items) }
    requires spare { vec_len routes.old < vec_capacity routes.old }
    ensures items { routes.new.items ≡ put route_cmp route routes.old.items }
    ensures capacity { vec_capacity routes.new ≡ vec_capacity routes.old }
{
    let place = place_of(routes, route.key);
    let Ok(()) = routes.insert(place, route) else {
        unreachable!()
    };
}

/// How many routes have a lesser key: where a route with this key belongs.
fn place_of(routes: &[Route], key: Key) -> usize
    requires { Ascending (route_keys routes.now) }
    ensures place { result ≡ prefix_len (λ r. nat_lt r.key key) routes.now }
    ensures within { result ≤ length routes.now }
{
    routes.partition_point(|route| route.key < key)
}
