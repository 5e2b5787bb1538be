//! What a board keeps of one actor.
ghost use Rattle.std.specs.Prelude.{◌≡◌};
ghost use Rattle.mi_board.specs.Actors.{idle};

use mi_base::{Position, Prefix};

/// The leaf that an actor claims, whether it has reserved an update that it hasn't committed since, the position that it has pinned,
/// and whether it has departed.
#[derive(Drop)]
pub struct ActorState {
    pub claim: Option<Prefix>,
    pub reserved: bool,
    pub pin: Option<Position>,
    pub departed: bool,
}

impl ActorState {
    /// An actor that was just made: it claims nothing, has reserved nothing, has no pin, and hasn't departed.
    pub fn idle() -> ActorState
        ensures { result ≡ idle }
    {
        ActorState {
            claim: None,
            reserved: false,
            pin: None,
            departed: false,
        }
    }
}
