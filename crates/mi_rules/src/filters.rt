//! The filter by the distances to all pivots.
ghost use Rattle.std.specs.Prelude.{◌≡◌};
ghost use Rattle.arrayvec.specs.ArrayVec.{array_vec_len};
ghost use Rattle.mi_rules.specs.Passing.{lets_through};

use mi_base::Dists;

/// Whether the distances of the query and the object differ by at most the radius at each pivot. It takes no memory.
pub fn filter(query: &Dists, object: &Dists, radius: u32) -> bool
    requires { array_vec_len query.now ≡ array_vec_len object.now }
    ensures { result ≡ lets_through radius query.now.items object.now.items }
{
    query
        .as_slice()
        .iter()
        .zip(object.as_slice())
        .all(|(x, y)| x.abs_diff(*y) <= radius)
}
