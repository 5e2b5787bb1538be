//! An insert, section by section.
ghost use Rattle.std.specs.Prelude.{◌≡◌, IsSome, None, Some, unwrap_or};
ghost use Rattle.mi_tree.specs.declared.outcomes.Leaf.{Leaf as ALeaf};
ghost use Rattle.mi_world.specs.View.{View};
ghost use Rattle.mi_update.specs.Inserting.{Begun, Freed, GivenUp, Ready, Turned, Waits, refusal_of};

use crate::endings::Ending;
use mi_base::{Dists, Id, Vector};
use mi_blink::{Post, PostTurn, Turn, Why};
use mi_perm::permutation;
use mi_tree::{AllotRefusal, Leaf, LeafClaim, ReserveRefusal};
use mi_world::{Commit, Parted, ShardClaim, World};
use std::alloc::Global;

/// What the next section of an insert is.
#[derive(Clone, Copy)]
enum InsertState {
    Begin,
    Looking,
    Reserving,
    Claiming,
    Committing { page: u32 },
    /// The claimed leaf is being split, which is not the insert's own work.
    Splitting,
    Allotting { page: u32 },
    Halving { page: u32 },
    /// A post is under way, and the insert goes on at this page.
    Posting { page: u32 },
    Unclaiming { ending: Ending },
    Releasing { ending: Ending },
    Over { ending: Ending },
}

/// An insert.
#[derive(Drop)]
pub struct InsertOp {
    id: Id,
    vector: Vector,
    dists: Dists,
    op: u32,
    state: InsertState,
    /// The page at which the next descent begins.
    root: u32,
    /// The claimed leaf, as it was when it was claimed.
    leaf: Option<Leaf>,
    post: Option<Post>,
}

impl InsertOp {
    /// The operation of this number of the actor's script: an object with its distances to the pivots.
    pub fn new(id: Id, vector: Vector, dists: Dists, op: u32) -> InsertOp
        ensures { Begun result id vector dists.items op }
    {
        InsertOp {
            id,
            vector,
            dists,
            op,
            state: InsertState::Begin,
            root: 0,
            leaf: None,
            post: None,
        }
    }

    /// Makes one section.
    pub fn step<W: World>(&mut self, alloc: Global, world: &mut W) -> Turn
        requires ready { Ready self.old (W.view world.old) }
        ensures turned { Turned self.old (W.view world.old) result self.new (W.view world.new) }
        ensures section { W.section world.old world.new }
    {
        match self.state {
            InsertState::Begin => self.begin(world),
            InsertState::Looking => self.look(world),
            InsertState::Reserving => self.reserve(world),
            InsertState::Claiming => self.claim(world),
            InsertState::Committing { page } => self.commit(world, page),
            InsertState::Splitting => unreachable!(),
            InsertState::Allotting { page } => self.allot(alloc, world, page),
            InsertState::Halving { page } => self.halve(world, page),
            InsertState::Posting { page } => self.post(alloc, world, page),
            InsertState::Unclaiming { ending } => self.unclaim(world, ending),
            InsertState::Releasing { ending } => self.release(world, ending),
            InsertState::Over { .. } => unreachable!(),
        }
    }

    /// The split of the claimed leaf was published. The leaf is claimed anew.
    pub fn split_done(&mut self)
        ensures ready { (v : View) → Waits self.old v → Freed v → Ready self.new v }
        ensures same { self.new ≡ record self.old { state = InsertState.Claiming } }
    {
        self.state = InsertState::Claiming;
    }

    /// The split of the claimed leaf was given up. The insert ends.
    pub fn split_refused(&mut self, why: Why)
        ensures ready { (v : View) → Waits self.old v → Freed v → GivenUp v why → Ready self.new v }
        ensures same { self.new ≡ record self.old { state = InsertState.Releasing (refusal_of why) } }
    {
        self.state = match why {
            Why::NoPages { limit } => InsertState::Releasing {
                ending: Ending::NoPages { limit },
            },
            Why::Memory => InsertState::Releasing {
                ending: Ending::Memory,
            },
        };
    }

    fn begin<W: World>(&mut self, world: &mut W) -> Turn
        requires ready { Ready self.old (W.view world.old) }
        requires state { self.old.state ≡ InsertState.Begin }
        ensures turned { Turned self.old (W.view world.old) result self.new (W.view world.new) }
        ensures section { W.section world.old world.new }
    {
        match world.claim_shard(self.id) {
            ShardClaim::Held => Turn::Held,
            ShardClaim::Taken { kept: Some(_) } => self.go_to(InsertState::Looking),
            ShardClaim::Taken { kept: None } => self.go_to(InsertState::Reserving),
        }
    }

    fn look<W: World>(&mut self, world: &mut W) -> Turn
        requires ready { Ready self.old (W.view world.old) }
        requires state { self.old.state ≡ InsertState.Looking }
        ensures turned { Turned self.old (W.view world.old) result self.new (W.view world.new) }
        ensures section { W.section world.old world.new }
    {
        let look = world.look();
        self.give_up_shard(Ending::Present { at: look.at })
    }

    fn reserve<W: World>(&mut self, world: &mut W) -> Turn
        requires ready { Ready self.old (W.view world.old) }
        requires state { self.old.state ≡ InsertState.Reserving }
        ensures turned { Turned self.old (W.view world.old) result self.new (W.view world.new) }
        ensures section { W.section world.old world.new }
    {
        match world.reserve() {
            Ok(look) => {
                self.root = look.root;
                self.go_to(InsertState::Claiming)
            }
            Err(ReserveRefusal::Full { limit }) => self.give_up_shard(Ending::Full { limit }),
            Err(ReserveRefusal::Memory) => self.give_up_shard(Ending::Memory),
        }
    }

    fn claim<W: World>(&mut self, world: &mut W) -> Turn
        requires ready { Ready self.old (W.view world.old) }
        requires state { self.old.state ≡ InsertState.Claiming }
        ensures turned { Turned self.old (W.view world.old) result self.new (W.view world.new) }
        ensures section { W.section world.old world.new }
    {
        match world.claim_leaf(&permutation(&self.dists)) {
            LeafClaim::Held { .. } => Turn::Held,
            LeafClaim::Taken { leaf } => {
                self.leaf = Some(leaf);
                self.go_to(InsertState::Committing { page: self.root })
            }
        }
    }

    fn commit<W: World>(&mut self, world: &mut W, page: u32) -> Turn
        requires ready { Ready self.old (W.view world.old) }
        requires state { self.old.state ≡ InsertState.Committing page }
        ensures turned { Turned self.old (W.view world.old) result self.new (W.view world.new) }
        ensures section { W.section world.old world.new }
    {
        match world.commit_insert(page, self.op, self.id, &self.vector, &self.dists) {
            Commit::Down { page } => self.go_to(InsertState::Committing { page }),
            Commit::Right { page } => self.go_to(InsertState::Committing { page }),
            Commit::Full { limit } => self.give_up_leaf(Ending::Full { limit }),
            Commit::Crowded => self.wait(),
            Commit::PageFull if world.fresh() => self.go_to(InsertState::Halving { page }),
            Commit::PageFull => self.go_to(InsertState::Allotting { page }),
            Commit::Done { number } => self.give_up_leaf(Ending::Stored { number }),
        }
    }

    fn allot<W: World>(&mut self, alloc: Global, world: &mut W, page: u32) -> Turn
        requires ready { Ready self.old (W.view world.old) }
        requires state { self.old.state ≡ InsertState.Allotting page }
        ensures turned { Turned self.old (W.view world.old) result self.new (W.view world.new) }
        ensures section { W.section world.old world.new }
    {
        match world.allot(alloc) {
            Ok(()) => self.go_to(InsertState::Halving { page }),
            Err(AllotRefusal::PagesFull { limit }) => self.give_up_leaf(Ending::NoPages { limit }),
            Err(AllotRefusal::Memory) => self.give_up_leaf(Ending::Memory),
        }
    }

    fn halve<W: World>(&mut self, world: &mut W, page: u32) -> Turn
        requires ready { Ready self.old (W.view world.old) }
        requires state { self.old.state ≡ InsertState.Halving page }
        ensures turned { Turned self.old (W.view world.old) result self.new (W.view world.new) }
        ensures section { W.section world.old world.new }
    {
        match world.split_page(page) {
            Parted::Parted { key, child } => {
                self.post = Some(Post::new(1, key, child));
                self.go_to(InsertState::Posting { page })
            }
            Parted::Roomy => self.go_to(InsertState::Committing { page }),
        }
    }

    fn post<W: World>(&mut self, alloc: Global, world: &mut W, page: u32) -> Turn
        requires ready { Ready self.old (W.view world.old) }
        requires state { self.old.state ≡ InsertState.Posting page }
        ensures turned { Turned self.old (W.view world.old) result self.new (W.view world.new) }
        ensures section { W.section world.old world.new }
    {
        let Some(mut post) = self.post.take() else {
            unreachable!();
        };
        match post.step(alloc, world) {
            PostTurn::More => {
                self.post = Some(post);
                Turn::More
            }
            PostTurn::Done => self.go_back(page, &post),
            PostTurn::Left { .. } => self.go_back(page, &post),
            PostTurn::Memory => self.go_back(page, &post),
        }
    }

    fn unclaim<W: World>(&mut self, world: &mut W, ending: Ending) -> Turn
        requires ready { Ready self.old (W.view world.old) }
        requires state { self.old.state ≡ InsertState.Unclaiming ending }
        ensures turned { Turned self.old (W.view world.old) result self.new (W.view world.new) }
        ensures section { W.section world.old world.new }
    {
        world.release_leaf();
        self.give_up_shard(ending)
    }

    fn release<W: World>(&mut self, world: &mut W, ending: Ending) -> Turn
        requires ready { Ready self.old (W.view world.old) }
        requires state { self.old.state ≡ InsertState.Releasing ending }
        ensures turned { Turned self.old (W.view world.old) result self.new (W.view world.new) }
        ensures section { W.section world.old world.new }
    {
        world.release_shard();
        self.state = InsertState::Over { ending };
        Turn::Done {
            reply: ending.reply(),
        }
    }

    fn go_to(&mut self, state: InsertState) -> Turn
        ensures state { self.new ≡ record self.old { state = state } }
        ensures turn { result ≡ Turn.More }
    {
        self.state = state;
        Turn::More
    }

    /// The insert ends so, once it has released its leaf and its shard.
    fn give_up_leaf(&mut self, ending: Ending) -> Turn
        ensures state { self.new ≡ record self.old { state = InsertState.Unclaiming ending } }
        ensures turn { result ≡ Turn.More }
    {
        self.go_to(InsertState::Unclaiming { ending })
    }

    /// The insert ends so, once it has released its shard.
    fn give_up_shard(&mut self, ending: Ending) -> Turn
        ensures state { self.new ≡ record self.old { state = InsertState.Releasing ending } }
        ensures turn { result ≡ Turn.More }
    {
        self.go_to(InsertState::Releasing { ending })
    }

    /// The claimed leaf has to be split first.
    fn wait(&mut self) -> Turn
        requires claimed { IsSome self.old.leaf }
        ensures state { self.new ≡ record self.old { state = InsertState.Splitting; leaf = None } }
        ensures turn { (leaf : ALeaf) → self.old.leaf ≡ Some leaf → result ≡ Turn.Crowded leaf }
    {
        let Some(leaf) = self.leaf.take() else {
            unreachable!();
        };
        self.state = InsertState::Splitting;
        Turn::Crowded { leaf }
    }

    /// The post is over. The insert goes on at its page, and later descents begin at the root that the post saw last.
    fn go_back(&mut self, page: u32, post: &Post) -> Turn
        ensures state { self.new ≡ record self.old { state = InsertState.Committing page; root = unwrap_or post.now.root self.old.root } }
        ensures turn { result ≡ Turn.More }
    {
        self.root = post.root().unwrap_or(self.root);
        self.go_to(InsertState::Committing { page })
    }
}
