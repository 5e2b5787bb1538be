//! A post gives a page its route one level up.
ghost use Rattle.std.specs.Prelude.{◌≡◌, ◌≤◌, None};
ghost use Rattle.mi_world.specs.Pages.{IsChildAt};
ghost use Rattle.mi_blink.specs.Posting.{Begun, Ready, Turned, Pops, Waits, MayWait};

use arrayvec::ArrayVec;
use mi_base::Id;
use mi_key::Key;
use mi_tree::AllotRefusal;
use mi_world::{Parted, Put, World};
use std::alloc::Global;

/// What a section of a post answers.
#[derive(Clone, Copy, Debug, PartialEq, Eq)]
pub enum PostTurn {
    /// The post goes on.
    More,
    /// The route stands at its level.
    Done,
    /// A page was wanted for it, and all are allotted. The route stays missing.
    Left { limit: u32 },
    /// Memory was wanted for it. The route stays missing.
    Memory,
}

/// What the next section of a post is.
#[derive(Clone, Copy)]
enum PostState {
    Looking,
    Posting { page: u32 },
    /// The page is full, and no fresh page is in hand.
    Allotting { page: u32 },
    Halving { page: u32 },
    /// The root is too low, and no fresh page is in hand.
    Widening,
    Growing,
    Over,
}

/// A route that waits at a page until another one level up is posted.
#[derive(Drop)]
struct Waiting {
    level: u32,
    key: Key,
    child: u32,
    page: u32,
}

impl Default for Waiting {
    fn default() -> Waiting {
        let Ok(least) = Id::new(0) else {
            unreachable!();
        };
        Waiting {
            level: 0,
            key: Key::make(0, 0, least, 0),
            child: 0,
            page: 0,
        }
    }
}

/// A post: the route under way, and those that wait for it, the lowest first.
#[derive(Drop)]
pub struct Post {
    level: u32,
    key: Key,
    child: u32,
    state: PostState,
    waiting: ArrayVec<Waiting, 8>,
    root: Option<u32>,
}

impl Post {
    /// The post of a route at its level, where it leads from its key on to the child.
    pub fn new(level: u32, key: Key, child: u32) -> Post
        ensures { Begun result level key child }
    {
        Post {
            level,
            key,
            child,
            state: PostState::Looking,
            waiting: ArrayVec::new(),
            root: None,
        }
    }

    /// The root that the latest look of this post gave.
    pub fn root(&self) -> Option<u32>
        ensures { result ≡ self.now.root }
    {
        self.root
    }

    /// Makes one section.
    pub fn step<W: World>(&mut self, alloc: Global, world: &mut W) -> PostTurn
        requires ready { Ready self.old (W.view world.old) }
        ensures turned { Turned self.old (W.view world.old) result self.new (W.view world.new) }
        ensures section { W.section world.old world.new }
    {
        match self.state {
            PostState::Looking => self.look(world),
            PostState::Posting { page } => self.post(world, page),
            PostState::Allotting { page } => self.allot(alloc, world, page),
            PostState::Halving { page } => self.halve(world, page),
            PostState::Widening => self.widen(alloc, world),
            PostState::Growing => self.grow(world),
            PostState::Over => unreachable!(),
        }
    }

    fn look<W: World>(&mut self, world: &mut W) -> PostTurn
        requires ready { Ready self.old (W.view world.old) }
        requires state { self.old.state ≡ PostState.Looking }
        ensures turned { Turned self.old (W.view world.old) result self.new (W.view world.new) }
        ensures section { W.section world.old world.new }
    {
        let look = world.look();
        self.root = Some(look.root);
        if self.level <= look.height {
            self.state = PostState::Posting { page: look.root };
            return PostTurn::More;
        }
        if world.fresh() {
            self.state = PostState::Growing;
            return PostTurn::More;
        }
        self.state = PostState::Widening;
        PostTurn::More
    }

    fn post<W: World>(&mut self, world: &mut W, page: u32) -> PostTurn
        requires ready { Ready self.old (W.view world.old) }
        requires state { self.old.state ≡ PostState.Posting page }
        ensures turned { Turned self.old (W.view world.old) result self.new (W.view world.new) }
        ensures section { W.section world.old world.new }
    {
        match world.post(page, self.level, self.key, self.child) {
            Put::Down { page } => {
                self.state = PostState::Posting { page };
                PostTurn::More
            }
            Put::Right { page } => {
                self.state = PostState::Posting { page };
                PostTurn::More
            }
            Put::PageFull if world.fresh() => {
                self.state = PostState::Halving { page };
                PostTurn::More
            }
            Put::PageFull => {
                self.state = PostState::Allotting { page };
                PostTurn::More
            }
            Put::Done => self.resume(PostTurn::Done),
        }
    }

    fn allot<W: World>(&mut self, alloc: Global, world: &mut W, page: u32) -> PostTurn
        requires ready { Ready self.old (W.view world.old) }
        requires state { self.old.state ≡ PostState.Allotting page }
        ensures turned { Turned self.old (W.view world.old) result self.new (W.view world.new) }
        ensures section { W.section world.old world.new }
    {
        match world.allot(alloc) {
            Ok(()) => {
                self.state = PostState::Halving { page };
                PostTurn::More
            }
            Err(AllotRefusal::PagesFull { limit }) => self.resume(PostTurn::Left { limit }),
            Err(AllotRefusal::Memory) => self.resume(PostTurn::Memory),
        }
    }

    fn halve<W: World>(&mut self, world: &mut W, page: u32) -> PostTurn
        requires ready { Ready self.old (W.view world.old) }
        requires state { self.old.state ≡ PostState.Halving page }
        ensures turned { Turned self.old (W.view world.old) result self.new (W.view world.new) }
        ensures section { W.section world.old world.new }
    {
        match world.split_page(page) {
            Parted::Parted { key, child } => {
                self.wait(page, key, child);
                PostTurn::More
            }
            Parted::Roomy => {
                self.state = PostState::Posting { page };
                PostTurn::More
            }
        }
    }

    fn widen<W: World>(&mut self, alloc: Global, world: &mut W) -> PostTurn
        requires ready { Ready self.old (W.view world.old) }
        requires state { self.old.state ≡ PostState.Widening }
        ensures turned { Turned self.old (W.view world.old) result self.new (W.view world.new) }
        ensures section { W.section world.old world.new }
    {
        match world.allot(alloc) {
            Ok(()) => {
                self.state = PostState::Growing;
                PostTurn::More
            }
            Err(AllotRefusal::PagesFull { limit }) => self.resume(PostTurn::Left { limit }),
            Err(AllotRefusal::Memory) => self.resume(PostTurn::Memory),
        }
    }

    fn grow<W: World>(&mut self, world: &mut W) -> PostTurn
        requires ready { Ready self.old (W.view world.old) }
        requires state { self.old.state ≡ PostState.Growing }
        ensures turned { Turned self.old (W.view world.old) result self.new (W.view world.new) }
        ensures section { W.section world.old world.new }
    {
        if world.grow(self.level, self.key, self.child) {
            self.resume(PostTurn::Done)
        } else {
            self.state = PostState::Looking;
            PostTurn::More
        }
    }

    /// The route under way has ended so. One that waited goes on at its page, or the post has ended so.
    fn resume(&mut self, end: PostTurn) -> PostTurn
        ensures { Pops self.old end result self.new }
    {
        match self.waiting.pop() {
            None => {
                self.state = PostState::Over;
                end
            }
            Some(below) => {
                self.state = PostState::Posting { page: below.page };
                self.level = below.level;
                self.key = below.key;
                self.child = below.child;
                PostTurn::More
            }
        }
    }

    /// The route under way waits at its page for this one, a level up.
    fn wait(&mut self, page: u32, key: Key, child: u32)
        requires { MayWait self.old }
        ensures { Waits self.old page key child self.new }
    {
        self.waiting.push(Waiting {
            level: self.level,
            key: self.key,
            child: self.child,
            page,
        });
        self.level += 1;
        self.key = key;
        self.child = child;
        self.state = PostState::Looking;
    }
}
