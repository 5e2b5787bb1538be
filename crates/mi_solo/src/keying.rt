//! Keys under a leaf.
ghost use Rattle.std.specs.Prelude.{◌≡◌, ◌<◌, ◌≤◌, ◌^◌, IsSome, IsTrue, length};
ghost use Rattle.mi_base.specs.Permutations.{key_distance};
ghost use Rattle.mi_base.specs.Prefixes.{all_below};
ghost use Rattle.mi_core.specs.Kept.{Kept};
ghost use Rattle.mi_solo.specs.States.{actor_in, state_of, view_in};
ghost use Rattle.mi_world.specs.LeafKeys.{key_under};
ghost use Rattle.mi_world.specs.Pages.{insert_key};

use crate::cores::Core;
use mi_base::{Dists, Id, Prefix, Settings};
use mi_key::{Key, cluster_number};
use mi_perm::{key_distance, permutation};

/// The key of an object under a leaf.
pub fn key_of_object(settings: &Settings, leaf: &Prefix, dists: &Dists, id: Id, birth: u32) -> Key
    requires depth { length leaf.now ≤ settings.now.levels }
    requires pivots { IsTrue (all_below (length settings.now.pivots) leaf.now) }
    requires distance { key_distance dists.now.items < 2 ^ 27 }
    requires birth { birth < 2 ^ 30 }
    ensures { result ≡ key_under settings.now leaf.now (key_distance dists.now.items) id birth }
{
    let pivots = settings.pivots.len() as u32;
    let cluster = cluster_number(leaf, pivots, settings.levels);
    let distance = key_distance(dists, &permutation(dists));
    Key::make(cluster, distance, id, birth)
}

impl Core {
    /// The key of an object with these distances under the leaf that the actor claims.
    pub fn key_in_claim(&self, actor: u32, dists: &Dists, id: Id, birth: u32) -> Key
        requires known { actor < length self.now.actors.items }
        requires kept { Kept (state_of self.now) }
        requires claim { IsSome (actor_in (state_of self.now) actor).claim }
        requires distance { key_distance dists.now.items < 2 ^ 27 }
        requires birth { birth < 2 ^ 30 }
        ensures { result ≡ insert_key (view_in (state_of self.now) actor) dists.now.items id birth }
    {
        let Some(leaf) = &self.actors[actor as usize].claim else {
            unreachable!();
        };
        key_of_object(self.board.settings(), leaf, dists, id, birth)
    }
}
