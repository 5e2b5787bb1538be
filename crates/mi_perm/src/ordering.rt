//! The pivots in the order of a vector's distances.
ghost use Rattle.std.specs.Prelude.{◌≡◌, ◌≤◌, ℕ, All, map, length};
ghost use Rattle.std.specs.List.{range_with_len};
ghost use Rattle.arrayvec.specs.ArrayVec.{array_vec_len};
ghost use Rattle.mi_base.specs.Permutations.{distance_at_first, permutation_of};
ghost use Rattle.mi_perm.specs.Numbered.{number_pair};

use arrayvec::ArrayVec;
use mi_base::{Dists, Perm};

/// The pivots' numbers in ascending order of distance, then number. It takes no memory.
pub fn permutation(dists: &Dists) -> Perm
    ensures value { result ≡ permutation_of dists.now.items }
    ensures count { length result ≡ array_vec_len dists.now }
{
    let numbers = nearest_first(dists);
    match Perm::new(numbers.as_slice()) {
        Some(perm) => perm,
        None => unreachable!(),
    }
}

/// The distance at the first of these pivots, or 0 where there is none.
pub fn key_distance(dists: &Dists, perm: &Perm) -> u32
    requires { length perm.now ≤ array_vec_len dists.now }
    ensures value { result ≡ distance_at_first dists.now.items perm.now }
    ensures bound { (most : ℕ) → All (λ d. d ≤ most) dists.now.items → result ≤ most }
{
    match perm.as_slice().first() {
        Some(pivot) => dists[usize::from(*pivot)],
        None => 0,
    }
}

fn nearest_first(dists: &Dists) -> ArrayVec<u8, 32>
    ensures { result.items ≡ permutation_of dists.now.items }
{
    let mut pairs = numbered(dists);
    pairs.sort_unstable();
    numbers_in(&pairs)
}

/// Each distance with its pivot's number.
fn numbered(dists: &Dists) -> ArrayVec<(u32, u8), 32>
    ensures { result.items ≡ map (number_pair dists.now.items) (range_with_len 0 (array_vec_len dists.now)) }
{
    let mut pairs = ArrayVec::new();
    for (number, distance) in dists.as_slice().iter().enumerate() {
        pairs.push((*distance, number as u8));
    }
    pairs
}

fn numbers_in(pairs: &ArrayVec<(u32, u8), 32>) -> ArrayVec<u8, 32>
    ensures { result.items ≡ map (λ p. p.1) pairs.now.items }
{
    let mut numbers = ArrayVec::new();
    for (_, number) in pairs.as_slice() {
        numbers.push(*number);
    }
    numbers
}
