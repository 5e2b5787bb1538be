//! The copies of what is gathered of a leaf, for its children.
ghost use Rattle.std.specs.Prelude.{◌≡◌, ◌<◌, length};
ghost use Rattle.mi_entries.specs.Entries.{grid};
ghost use Rattle.mi_entries.specs.Splits.{copy_in_child};
ghost use Rattle.mi_solo.specs.Seeking.{IsCopied};

use crate::shards::copy_dists;
use mi_base::{Prefix, Settings};
use mi_key::{Entry, Key, cluster_number};
use mi_perm::permutation;

/// The copy of an entry of the leaf in the leaf's child.
pub fn copy_in_child(settings: &Settings, leaf: &Prefix, entry: &Entry) -> Entry
    requires above { length leaf.now < settings.now.levels }
    requires copied { IsCopied settings.now leaf.now entry.now }
    ensures { result ≡ copy_in_child (grid settings.now) leaf.now entry.now }
{
    Entry {
        key: key_in_child(settings, leaf, entry),
        vector: entry.vector.copy(),
        dists: copy_dists(&entry.dists),
        birth: entry.birth,
        death: None,
    }
}

/// The key of that copy: its distance, identifier and birth are those of the entry.
pub fn key_in_child(settings: &Settings, leaf: &Prefix, entry: &Entry) -> Key
    requires above { length leaf.now < settings.now.levels }
    requires copied { IsCopied settings.now leaf.now entry.now }
    ensures { result ≡ (copy_in_child (grid settings.now) leaf.now entry.now).key }
{
    let pivots = settings.pivots.len() as u32;
    let child = Prefix::of(&permutation(&entry.dists), leaf.len() + 1);
    let cluster = cluster_number(&child, pivots, settings.levels);
    let parts = entry.key.parts();
    Key::make(cluster, parts.distance, parts.id, parts.birth)
}
