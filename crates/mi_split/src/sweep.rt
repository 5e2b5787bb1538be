//! A sweep takes the old entries of a leaf that was split off its pages.
ghost use Rattle.std.specs.Prelude.{◌≡◌};
ghost use Rattle.mi_split.specs.Sweeping.{Begun, Ready, Turned};

use mi_base::Prefix;
use mi_blink::WalkTurn;
use mi_world::{Visit, World};

/// What the next section of a sweep is.
#[derive(Clone, Copy)]
enum SweepState {
    Looking,
    Sweeping { page: u32 },
    Over,
}

/// A sweep of the retired leaf that the actor was given.
#[derive(Drop)]
pub struct SweepOp {
    prefix: Prefix,
    state: SweepState,
}

impl SweepOp {
    /// The sweep of the leaf of this prefix.
    pub fn new(prefix: Prefix) -> SweepOp
        ensures { Begun result prefix }
    {
        SweepOp {
            prefix,
            state: SweepState::Looking,
        }
    }

    /// The prefix of the leaf.
    pub fn prefix(&self) -> &Prefix
        ensures { result.now ≡ self.now.prefix }
    {
        &self.prefix
    }

    /// Makes one section.
    pub fn step<W: World>(&mut self, world: &mut W) -> WalkTurn
        requires ready { Ready self.old (W.view world.old) }
        ensures turned { Turned self.old (W.view world.old) result self.new (W.view world.new) }
        ensures section { W.section world.old world.new }
    {
        match self.state {
            SweepState::Looking => self.look(world),
            SweepState::Sweeping { page } => self.sweep(world, page),
            SweepState::Over => unreachable!(),
        }
    }

    fn look<W: World>(&mut self, world: &mut W) -> WalkTurn
        requires ready { Ready self.old (W.view world.old) }
        requires state { self.old.state ≡ SweepState.Looking }
        ensures turned { Turned self.old (W.view world.old) result self.new (W.view world.new) }
        ensures section { W.section world.old world.new }
    {
        let look = world.look();
        self.state = SweepState::Sweeping { page: look.root };
        WalkTurn::More
    }

    fn sweep<W: World>(&mut self, world: &mut W, page: u32) -> WalkTurn
        requires ready { Ready self.old (W.view world.old) }
        requires state { self.old.state ≡ SweepState.Sweeping page }
        ensures turned { Turned self.old (W.view world.old) result self.new (W.view world.new) }
        ensures section { W.section world.old world.new }
    {
        match world.sweep(page) {
            Visit::Down { page } => self.go_on(page),
            Visit::Right { page } => self.go_on(page),
            Visit::Read { next: Some(page) } => self.go_on(page),
            Visit::Read { next: None } => self.end(),
        }
    }

    fn go_on(&mut self, page: u32) -> WalkTurn
        ensures state { self.new ≡ record self.old { state = SweepState.Sweeping page } }
        ensures turn { result ≡ WalkTurn.More }
    {
        self.state = SweepState::Sweeping { page };
        WalkTurn::More
    }

    fn end(&mut self) -> WalkTurn
        ensures state { self.new ≡ record self.old { state = SweepState.Over } }
        ensures turn { result ≡ WalkTurn.Done }
    {
        self.state = SweepState::Over;
        WalkTurn::Done
    }
}
