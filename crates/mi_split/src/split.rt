//! A split gives each live entry of a claimed leaf a copy under the key of its child, and is published then.
ghost use Rattle.std.specs.Prelude.{◌≡◌, unwrap_or};
ghost use Rattle.mi_split.specs.Splitting.{Begun, Ready, Turned, copy_next, undo_next};

use mi_base::Position;
use mi_blink::{Post, PostTurn, Why};
use mi_tree::{AllotRefusal, Leaf};
use mi_world::{Parted, Put, Visit, World};
use std::alloc::Global;

/// What a section of a split answers.
#[derive(Clone, Copy, Debug, PartialEq, Eq)]
pub enum SplitTurn {
    /// The split goes on.
    More,
    /// The split is in the log, which ends at this position with it.
    Published { at: Position },
    /// No copy is left, and the claim is over.
    GivenUp { why: Why },
}

/// What the next section of a split is.
#[derive(Clone, Copy)]
enum SplitState {
    Looking,
    Gathering { page: u32 },
    Copying { page: u32 },
    /// The page is full, and no fresh page is in hand.
    Allotting { page: u32 },
    Halving { page: u32 },
    /// The route of the page's upper half is posted before the copy goes on.
    Posting { page: u32 },
    Publishing,
    /// The copies are taken back, the last one first.
    Undoing { page: u32, why: Why },
    GivingUp { why: Why },
    Published,
    GivenUp { why: Why },
}

/// A split of the leaf that the actor claims.
#[derive(Drop)]
pub struct SplitOp {
    leaf: Leaf,
    state: SplitState,
    /// The root that the latest look gave, that of a post under way apart.
    root: u32,
    post: Option<Post>,
}

impl SplitOp {
    /// The split of the leaf.
    pub fn new(leaf: Leaf) -> SplitOp
        ensures { Begun result leaf }
    {
        SplitOp {
            leaf,
            state: SplitState::Looking,
            root: 0,
            post: None,
        }
    }

    /// The leaf.
    pub fn leaf(&self) -> &Leaf
        ensures { result.now ≡ self.now.leaf }
    {
        &self.leaf
    }

    /// Makes one section.
    pub fn step<W: World>(&mut self, alloc: Global, world: &mut W) -> SplitTurn
        requires ready { Ready self.old (W.view world.old) }
        ensures turned { Turned self.old (W.view world.old) result self.new (W.view world.new) }
        ensures section { W.section world.old world.new }
    {
        match self.state {
            SplitState::Looking => self.look(world),
            SplitState::Gathering { page } => self.gather(world, page),
            SplitState::Copying { page } => self.copy(world, page),
            SplitState::Allotting { page } => self.allot(alloc, world, page),
            SplitState::Halving { page } => self.halve(world, page),
            SplitState::Posting { page } => self.post(alloc, world, page),
            SplitState::Publishing => self.publish(alloc, world),
            SplitState::Undoing { page, why } => self.undo(world, page, why),
            SplitState::GivingUp { why } => self.give_up(world, why),
            SplitState::Published => unreachable!(),
            SplitState::GivenUp { .. } => unreachable!(),
        }
    }

    fn look<W: World>(&mut self, world: &mut W) -> SplitTurn
        requires ready { Ready self.old (W.view world.old) }
        requires state { self.old.state ≡ SplitState.Looking }
        ensures turned { Turned self.old (W.view world.old) result self.new (W.view world.new) }
        ensures section { W.section world.old world.new }
    {
        let look = world.look();
        self.root = look.root;
        self.state = SplitState::Gathering { page: look.root };
        SplitTurn::More
    }

    fn gather<W: World>(&mut self, world: &mut W, page: u32) -> SplitTurn
        requires ready { Ready self.old (W.view world.old) }
        requires state { self.old.state ≡ SplitState.Gathering page }
        ensures turned { Turned self.old (W.view world.old) result self.new (W.view world.new) }
        ensures section { W.section world.old world.new }
    {
        match world.gather(page) {
            Ok(Visit::Down { page }) => {
                self.state = SplitState::Gathering { page };
                SplitTurn::More
            }
            Ok(Visit::Right { page }) => {
                self.state = SplitState::Gathering { page };
                SplitTurn::More
            }
            Ok(Visit::Read { next: Some(page) }) => {
                self.state = SplitState::Gathering { page };
                SplitTurn::More
            }
            Ok(Visit::Read { next: None }) => self.go_on(world),
            Err(_) => {
                self.state = SplitState::GivingUp { why: Why::Memory };
                SplitTurn::More
            }
        }
    }

    fn copy<W: World>(&mut self, world: &mut W, page: u32) -> SplitTurn
        requires ready { Ready self.old (W.view world.old) }
        requires state { self.old.state ≡ SplitState.Copying page }
        ensures turned { Turned self.old (W.view world.old) result self.new (W.view world.new) }
        ensures section { W.section world.old world.new }
    {
        match world.copy_in(page) {
            Put::Down { page } => {
                self.state = SplitState::Copying { page };
                SplitTurn::More
            }
            Put::Right { page } => {
                self.state = SplitState::Copying { page };
                SplitTurn::More
            }
            Put::PageFull if world.fresh() => {
                self.state = SplitState::Halving { page };
                SplitTurn::More
            }
            Put::PageFull => {
                self.state = SplitState::Allotting { page };
                SplitTurn::More
            }
            Put::Done => self.go_on(world),
        }
    }

    fn allot<W: World>(&mut self, alloc: Global, world: &mut W, page: u32) -> SplitTurn
        requires ready { Ready self.old (W.view world.old) }
        requires state { self.old.state ≡ SplitState.Allotting page }
        ensures turned { Turned self.old (W.view world.old) result self.new (W.view world.new) }
        ensures section { W.section world.old world.new }
    {
        match world.allot(alloc) {
            Ok(()) => {
                self.state = SplitState::Halving { page };
                SplitTurn::More
            }
            Err(AllotRefusal::PagesFull { limit }) => self.go_back(world, Why::NoPages { limit }),
            Err(AllotRefusal::Memory) => self.go_back(world, Why::Memory),
        }
    }

    fn halve<W: World>(&mut self, world: &mut W, page: u32) -> SplitTurn
        requires ready { Ready self.old (W.view world.old) }
        requires state { self.old.state ≡ SplitState.Halving page }
        ensures turned { Turned self.old (W.view world.old) result self.new (W.view world.new) }
        ensures section { W.section world.old world.new }
    {
        match world.split_page(page) {
            Parted::Parted { key, child } => {
                self.post = Some(Post::new(1, key, child));
                self.state = SplitState::Posting { page };
                SplitTurn::More
            }
            Parted::Roomy => {
                self.state = SplitState::Copying { page };
                SplitTurn::More
            }
        }
    }

    fn post<W: World>(&mut self, alloc: Global, world: &mut W, page: u32) -> SplitTurn
        requires ready { Ready self.old (W.view world.old) }
        requires state { self.old.state ≡ SplitState.Posting page }
        ensures turned { Turned self.old (W.view world.old) result self.new (W.view world.new) }
        ensures section { W.section world.old world.new }
    {
        let Some(mut post) = self.post.take() else {
            unreachable!();
        };
        match post.step(alloc, world) {
            PostTurn::More => {
                self.post = Some(post);
                SplitTurn::More
            }
            PostTurn::Done => self.resume(page, &post),
            PostTurn::Left { .. } => self.resume(page, &post),
            PostTurn::Memory => self.resume(page, &post),
        }
    }

    fn publish<W: World>(&mut self, alloc: Global, world: &mut W) -> SplitTurn
        requires ready { Ready self.old (W.view world.old) }
        requires state { self.old.state ≡ SplitState.Publishing }
        ensures turned { Turned self.old (W.view world.old) result self.new (W.view world.new) }
        ensures section { W.section world.old world.new }
    {
        match world.publish(alloc) {
            Ok(at) => {
                self.state = SplitState::Published;
                SplitTurn::Published { at }
            }
            Err(_) => self.go_back(world, Why::Memory),
        }
    }

    fn undo<W: World>(&mut self, world: &mut W, page: u32, why: Why) -> SplitTurn
        requires ready { Ready self.old (W.view world.old) }
        requires state { self.old.state ≡ SplitState.Undoing page why }
        ensures turned { Turned self.old (W.view world.old) result self.new (W.view world.new) }
        ensures section { W.section world.old world.new }
    {
        match world.uncopy(page) {
            Put::Down { page } => {
                self.state = SplitState::Undoing { page, why };
                SplitTurn::More
            }
            Put::Right { page } => {
                self.state = SplitState::Undoing { page, why };
                SplitTurn::More
            }
            Put::PageFull => unreachable!(),
            Put::Done => self.go_back(world, why),
        }
    }

    fn give_up<W: World>(&mut self, world: &mut W, why: Why) -> SplitTurn
        requires ready { Ready self.old (W.view world.old) }
        requires state { self.old.state ≡ SplitState.GivingUp why }
        ensures turned { Turned self.old (W.view world.old) result self.new (W.view world.new) }
        ensures section { W.section world.old world.new }
    {
        self.state = SplitState::GivenUp { why };
        match why {
            Why::NoPages { .. } => world.give_up(true),
            Why::Memory => world.give_up(false),
        }
        SplitTurn::GivenUp { why }
    }

    /// The next copy begins at the root, or the split is published where all are made.
    fn go_on<W: World>(&mut self, world: &W) -> SplitTurn
        ensures answer { result ≡ SplitTurn.More }
        ensures on { self.new ≡ record self.old { state = copy_next self.old.root (W.view world.now) } }
    {
        self.state = if world.copied() < world.gathered() {
            SplitState::Copying { page: self.root }
        } else {
            SplitState::Publishing
        };
        SplitTurn::More
    }

    /// The last copy is taken back from the root on, or the split is given up where none is left.
    fn go_back<W: World>(&mut self, world: &W, why: Why) -> SplitTurn
        ensures answer { result ≡ SplitTurn.More }
        ensures back { self.new ≡ record self.old { state = undo_next why self.old.root (W.view world.now) } }
    {
        self.state = if 0 < world.copied() {
            SplitState::Undoing {
                page: self.root,
                why,
            }
        } else {
            SplitState::GivingUp { why }
        };
        SplitTurn::More
    }

    /// The post is over, and the copy goes on at the page. Later descents begin at the root of the post's latest look.
    fn resume(&mut self, page: u32, post: &Post) -> SplitTurn
        ensures answer { result ≡ SplitTurn.More }
        ensures back { self.new ≡ record self.old { state = SplitState.Copying page; root = unwrap_or post.now.root self.old.root } }
    {
        if let Some(root) = post.root() {
            self.root = root;
        }
        self.state = SplitState::Copying { page };
        SplitTurn::More
    }
}
