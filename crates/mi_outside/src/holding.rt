//! A gate for tests of threads: it holds one actor at one point, until another has got on.
use crate::{Gate, GatePoint};
use std::sync::atomic::{AtomicBool, Ordering};
use std::thread;

/// Holds the actor `held` when it first reaches the point `at`, until the actor `by` has passed the
/// point `until`, or for so many turns of waiting at most.
#[derive(Drop)]
pub struct HoldGate {
    held: u32,
    at: GatePoint,
    by: u32,
    until: GatePoint,
    turns: u64,
    passed: AtomicBool,
    begun: AtomicBool,
    met: AtomicBool,
}

impl HoldGate {
    /// The gate before anybody has passed it.
    pub fn new(held: u32, at: GatePoint, by: u32, until: GatePoint, turns: u64) -> HoldGate {
        HoldGate {
            held,
            at,
            by,
            until,
            turns,
            passed: AtomicBool::new(false),
            begun: AtomicBool::new(false),
            met: AtomicBool::new(false),
        }
    }

    /// Whether the hold ended because `by` had passed `until`, and not after its turns. It is false
    /// while nobody was held. No contract says so, since threads change what the gate notes.
    pub fn met(&self) -> bool {
        self.met.load(Ordering::SeqCst)
    }

    /// Waits until the other has passed, or the turns are over.
    fn hold(&self) {
        for _ in 0..self.turns {
            if self.passed.load(Ordering::SeqCst) {
                break;
            }
            thread::yield_now();
        }
        self.met
            .store(self.passed.load(Ordering::SeqCst), Ordering::SeqCst);
    }
}

impl Gate for HoldGate {
    /// Only the first hold waits. One who comes before the other has passed may wait in vain, for as
    /// long as the turns take.
    fn pass(&self, actor: u32, point: GatePoint) {
        if actor == self.by && point == self.until {
            self.passed.store(true, Ordering::SeqCst);
        }
        let stands = actor == self.held && point == self.at;
        if stands && !self.begun.swap(true, Ordering::SeqCst) {
            self.hold();
        }
    }
}
