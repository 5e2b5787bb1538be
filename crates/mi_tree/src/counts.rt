//! The count and the hull of one leaf.
ghost use Rattle.std.specs.Prelude.{◌≡◌, ◌<◌, ◌≤◌, ◌+◌, ◌-◌, length};
ghost use Rattle.mi_tree.specs.Counting.{widen, leaf_among};

use crate::Leaf;
use mi_base::{Perm, Prefix};

/// An object as a catalog is told of it: its permutation, and its distance to the first pivot of that or 0 without pivots.
#[derive(Drop)]
pub struct Placed {
    pub perm: Perm,
    pub distance: u32,
}

/// The least interval that has this distance too.
fn widened(hull: Option<(u32, u32)>, distance: u32) -> Option<(u32, u32)>
    ensures { result ≡ widen distance hull }
{
    match hull {
        None => Some((distance, distance)),
        Some((low, high)) => Some((low.min(distance), high.max(distance))),
    }
}

/// One more object of this key distance in the leaf.
pub fn put(leaf: &mut Leaf, distance: u32)
    requires { leaf.old.count < u32.MAX }
    ensures { leaf.new ≡ record { prefix = leaf.old.prefix; count = leaf.old.count + 1; hull = widen distance leaf.old.hull } }
{
    leaf.count += 1;
    leaf.hull = widened(leaf.hull, distance);
}

/// One object less in the leaf.
pub fn take(leaf: &mut Leaf)
    requires { 0 < leaf.old.count }
    ensures { leaf.new ≡ record { prefix = leaf.old.prefix; count = leaf.old.count - 1; hull = leaf.old.hull } }
{
    leaf.count -= 1;
}

/// The leaf of a prefix with those of the objects that belong to it.
pub fn leaf_among(prefix: Prefix, objects: &[Placed]) -> Leaf
    requires { length objects.now ≤ u32.MAX }
    ensures { result ≡ leaf_among objects.now prefix }
{
    let mut leaf = Leaf {
        prefix,
        count: 0,
        hull: None,
    };
    for object in objects {
        if leaf.prefix.begins(&object.perm) {
            put(&mut leaf, object.distance);
        }
    }
    leaf
}
