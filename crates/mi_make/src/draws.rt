//! A generator of numbers: the linear congruential one with the multiplier and the increment of Knuth's MMIX.
ghost use Rattle.std.specs.Prelude.{◌≡◌, ◌<◌};
ghost use Rattle.mi_make.specs.Draws.{after_vector, next_state, number_below, vector};

use arrayvec::ArrayVec;
use mi_base::Vector;

/// What a state is multiplied by.
pub const MULTIPLIER: u64 = 6_364_136_223_846_793_005;
/// What is added to it then.
pub const INCREMENT: u64 = 1_442_695_040_888_963_407;
/// How many of its low bits a number leaves out.
pub const LOW_BITS: u32 = 33;
/// Coordinates a vector.
pub const DIMS: usize = 16;
/// A coordinate is below this.
pub const COORDINATES: u32 = 1001;

/// The numbers that are drawn one after another.
#[derive(Drop)]
pub struct Draws {
    /// The state of the generator.
    pub state: u64,
}

impl Draws {
    /// The next number, below a bound.
    pub fn below(&mut self, bound: u32) -> u32
        requires { 0 < bound }
        ensures value { result ≡ number_below bound (next_state self.old.state) }
        ensures state { self.new.state ≡ next_state self.old.state }
        ensures bound { result < bound }
    {
        self.state = self.state.wrapping_mul(MULTIPLIER).wrapping_add(INCREMENT);
        ((self.state >> LOW_BITS) % u64::from(bound)) as u32
    }

    /// The next vector.
    pub fn vector(&mut self) -> Vector
        ensures value { result ≡ vector self.old.state }
        ensures state { self.new.state ≡ after_vector self.old.state }
    {
        let items = self.items();
        match Vector::new(items.as_slice()) {
            Ok(vector) => vector,
            Err(_) => unreachable!(),
        }
    }

    fn items(&mut self) -> ArrayVec<i64, DIMS>
        ensures value { result.items ≡ vector self.old.state }
        ensures state { self.new.state ≡ after_vector self.old.state }
    {
        let mut items = ArrayVec::new();
        for _ in 0..DIMS {
            items.push(i64::from(self.below(COORDINATES)));
        }
        items
    }
}
