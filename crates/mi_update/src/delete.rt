//! A delete, section by section.
ghost use Rattle.std.specs.Prelude.{◌≡◌};
ghost use Rattle.mi_update.specs.Deleting.{Begun, Ready, Turned};

use crate::endings::Ending;
use mi_base::Id;
use mi_blink::Turn;
use mi_perm::permutation;
use mi_tree::{LeafClaim, ReserveRefusal};
use mi_world::{Commit, Record, ShardClaim, World};

/// What the next section of a delete is.
#[derive(Clone, Copy)]
enum DeleteState {
    Begin,
    Looking,
    Reserving,
    Claiming,
    Committing { page: u32 },
    Unclaiming { ending: Ending },
    Releasing { ending: Ending },
    Over { ending: Ending },
}

/// A delete.
#[derive(Drop)]
pub struct DeleteOp {
    id: Id,
    op: u32,
    state: DeleteState,
    /// The page at which the next descent begins.
    root: u32,
    /// What the shard keeps of the object.
    kept: Option<Record>,
}

impl DeleteOp {
    /// The operation of this number of the actor's script.
    pub fn new(id: Id, op: u32) -> DeleteOp
        ensures { Begun result id op }
    {
        DeleteOp {
            id,
            op,
            state: DeleteState::Begin,
            root: 0,
            kept: None,
        }
    }

    /// Makes one section.
    pub fn step<W: World>(&mut self, world: &mut W) -> Turn
        requires ready { Ready self.old (W.view world.old) }
        ensures turned { Turned self.old (W.view world.old) result self.new (W.view world.new) }
        ensures section { W.section world.old world.new }
    {
        match self.state {
            DeleteState::Begin => self.begin(world),
            DeleteState::Looking => self.look(world),
            DeleteState::Reserving => self.reserve(world),
            DeleteState::Claiming => self.claim(world),
            DeleteState::Committing { page } => self.commit(world, page),
            DeleteState::Unclaiming { ending } => self.unclaim(world, ending),
            DeleteState::Releasing { ending } => self.release(world, ending),
            DeleteState::Over { .. } => unreachable!(),
        }
    }

    fn begin<W: World>(&mut self, world: &mut W) -> Turn
        requires ready { Ready self.old (W.view world.old) }
        requires state { self.old.state ≡ DeleteState.Begin }
        ensures turned { Turned self.old (W.view world.old) result self.new (W.view world.new) }
        ensures section { W.section world.old world.new }
    {
        match world.claim_shard(self.id) {
            ShardClaim::Held => Turn::Held,
            ShardClaim::Taken { kept: Some(record) } => {
                self.kept = Some(record);
                self.go_to(DeleteState::Reserving)
            }
            ShardClaim::Taken { kept: None } => self.go_to(DeleteState::Looking),
        }
    }

    fn look<W: World>(&mut self, world: &mut W) -> Turn
        requires ready { Ready self.old (W.view world.old) }
        requires state { self.old.state ≡ DeleteState.Looking }
        ensures turned { Turned self.old (W.view world.old) result self.new (W.view world.new) }
        ensures section { W.section world.old world.new }
    {
        let look = world.look();
        self.give_up_shard(Ending::Absent { at: look.at })
    }

    fn reserve<W: World>(&mut self, world: &mut W) -> Turn
        requires ready { Ready self.old (W.view world.old) }
        requires state { self.old.state ≡ DeleteState.Reserving }
        ensures turned { Turned self.old (W.view world.old) result self.new (W.view world.new) }
        ensures section { W.section world.old world.new }
    {
        match world.reserve() {
            Ok(look) => {
                self.root = look.root;
                self.go_to(DeleteState::Claiming)
            }
            Err(ReserveRefusal::Full { limit }) => self.give_up_shard(Ending::Full { limit }),
            Err(ReserveRefusal::Memory) => self.give_up_shard(Ending::Memory),
        }
    }

    fn claim<W: World>(&mut self, world: &mut W) -> Turn
        requires ready { Ready self.old (W.view world.old) }
        requires state { self.old.state ≡ DeleteState.Claiming }
        ensures turned { Turned self.old (W.view world.old) result self.new (W.view world.new) }
        ensures section { W.section world.old world.new }
    {
        let Some(record) = &self.kept else {
            unreachable!();
        };
        match world.claim_leaf(&permutation(&record.dists)) {
            LeafClaim::Held { .. } => Turn::Held,
            LeafClaim::Taken { .. } => self.go_to(DeleteState::Committing { page: self.root }),
        }
    }

    fn commit<W: World>(&mut self, world: &mut W, page: u32) -> Turn
        requires ready { Ready self.old (W.view world.old) }
        requires state { self.old.state ≡ DeleteState.Committing page }
        ensures turned { Turned self.old (W.view world.old) result self.new (W.view world.new) }
        ensures section { W.section world.old world.new }
    {
        match world.commit_delete(page, self.op, self.id) {
            Commit::Down { page } => self.go_to(DeleteState::Committing { page }),
            Commit::Right { page } => self.go_to(DeleteState::Committing { page }),
            Commit::Full { limit } => self.give_up_leaf(Ending::Full { limit }),
            Commit::Crowded => unreachable!(),
            Commit::PageFull => unreachable!(),
            Commit::Done { number } => self.give_up_leaf(Ending::Removed { number }),
        }
    }

    fn unclaim<W: World>(&mut self, world: &mut W, ending: Ending) -> Turn
        requires ready { Ready self.old (W.view world.old) }
        requires state { self.old.state ≡ DeleteState.Unclaiming ending }
        ensures turned { Turned self.old (W.view world.old) result self.new (W.view world.new) }
        ensures section { W.section world.old world.new }
    {
        world.release_leaf();
        self.give_up_shard(ending)
    }

    fn release<W: World>(&mut self, world: &mut W, ending: Ending) -> Turn
        requires ready { Ready self.old (W.view world.old) }
        requires state { self.old.state ≡ DeleteState.Releasing ending }
        ensures turned { Turned self.old (W.view world.old) result self.new (W.view world.new) }
        ensures section { W.section world.old world.new }
    {
        world.release_shard();
        self.state = DeleteState::Over { ending };
        Turn::Done {
            reply: ending.reply(),
        }
    }

    fn go_to(&mut self, state: DeleteState) -> Turn
        ensures state { self.new ≡ record self.old { state = state } }
        ensures turn { result ≡ Turn.More }
    {
        self.state = state;
        Turn::More
    }

    /// The delete ends so, once it has released its leaf and its shard.
    fn give_up_leaf(&mut self, ending: Ending) -> Turn
        ensures state { self.new ≡ record self.old { state = DeleteState.Unclaiming ending } }
        ensures turn { result ≡ Turn.More }
    {
        self.go_to(DeleteState::Unclaiming { ending })
    }

    /// The delete ends so, once it has released its shard.
    fn give_up_shard(&mut self, ending: Ending) -> Turn
        ensures state { self.new ≡ record self.old { state = DeleteState.Releasing ending } }
        ensures turn { result ≡ Turn.More }
    {
        self.go_to(DeleteState::Releasing { ending })
    }
}
