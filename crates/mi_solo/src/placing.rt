//! What the board is told of the objects of a leaf that is split.
ghost use Rattle.std.specs.Prelude.{◌≡◌, IfOk, map};
ghost use Rattle.mi_solo.specs.Placing.{placed_entry};

use mi_base::NoMemory;
use mi_key::Entry;
use mi_perm::{key_distance, permutation};
use mi_tree::Placed;
use std::alloc::Global;

/// The permutations and the key distances of the objects of these entries, in their order.
pub fn placed_objects(alloc: Global, entries: &[Entry]) -> Result<Vec<Placed>, NoMemory>
    ensures { IfOk result (λ objects. objects.items ≡ map placed_entry entries.now) }
{
    let mut objects = Vec::with_capacity(alloc, entries.len())?;
    for entry in entries {
        let perm = permutation(&entry.dists);
        let distance = key_distance(&entry.dists, &perm);
        objects.push(Placed { perm, distance })?;
    }
    Ok(objects)
}
