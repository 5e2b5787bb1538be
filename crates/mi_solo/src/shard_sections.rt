//! Sections of the shards.
ghost use Rattle.std.specs.Prelude.{◌≡◌, None, IsSome};
ghost use Rattle.mi_core.specs.Events.Event.{release_shard};
ghost use Rattle.mi_core.specs.Kept.{Kept};
ghost use Rattle.mi_solo.specs.Sections.{ClaimsShard, rows_at, shard_in};
ghost use Rattle.mi_solo.specs.States.{Does, IsGoing, actor_in, state_of};

use crate::cores::Core;
use mi_base::Id;
use mi_world::ShardClaim;

impl Core {
    /// Takes the shard of the identifier, unless another actor holds it.
    pub fn claim_shard(&mut self, actor: u32, id: Id) -> ShardClaim
        requires going { IsGoing self.old actor }
        requires kept { Kept (state_of self.old) }
        requires free { (actor_in (state_of self.old) actor).shard ≡ None }
        ensures { ClaimsShard (state_of self.old) actor id result (state_of self.new) }
    {
        let number = (id.get() % 16) as u32;
        let by = self.shards[number as usize].holder();
        if by.is_some() {
            self.actors[actor as usize].miss_shard(number, by);
            return ShardClaim::Held;
        }
        self.actors[actor as usize].take_shard(number);
        let shard = &mut self.shards[number as usize];
        shard.give(Some(actor));
        ShardClaim::Taken {
            kept: shard.record(id),
        }
    }

    /// Lets go of the shard.
    pub fn release_shard(&mut self, actor: u32)
        requires going { IsGoing self.old actor }
        requires kept { Kept (state_of self.old) }
        requires held { IsSome (actor_in (state_of self.old) actor).shard }
        ensures { Does (state_of self.old) actor (release_shard (shard_in (state_of self.old) actor) (rows_at (state_of self.old) (shard_in (state_of self.old) actor))) (state_of self.new) }
    {
        let me = &mut self.actors[actor as usize];
        let Some(shard) = me.shard else {
            unreachable!();
        };
        me.leave_shard();
        self.shards[shard as usize].give(None);
    }
}
