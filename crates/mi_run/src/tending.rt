//! The worker that splits and sweeps while others are at work.
ghost use Rattle.mi_hall.specs.Passes.{place_view};
ghost use Rattle.mi_job.specs.Claims.{ClaimsNone};
ghost use Rattle.mi_run.specs.Workers.{Looks, Tends};

use mi_hall::Place;
use mi_job::{Care, CareTurn};
use mi_outside::{Gate, GatePoint};
use mi_world::World;
use std::alloc::Global;
use std::sync::Wait;
use std::thread;

/// How often others may go on before it is asked again whether there is something to do.
const PAUSE: u32 = 256;

/// Makes splits and sweeps until nothing is to be done and all others have left. Whether one was
/// given up for want of memory is told; it is the last, where the others had left when it began.
pub fn tend<'h, R: Wait, G: Gate>(rt: &R, alloc: Global, place: &mut Place<'h, R>, gate: &G) -> bool
    requires { ClaimsNone (place_view place.old) }
    ensures { Tends place.old place.new }
{
    let mut care = Care::new();
    let mut wanted = false;
    let mut last = false;
    let mut number = 0;
    for _ in rt.forever() {
        let begins = !care.is_under_way();
        last = is_last(place, begins, last);
        let turn = care.step(alloc, place);
        number = tell(gate, place.actor(), turn, begins, number);
        wanted |= turn == CareTurn::Memory;
        if last && !care.is_under_way() && turn != CareTurn::Done {
            return wanted;
        }
        if turn == CareTurn::Idle {
            pause();
        }
    }
    unreachable!()
}

/// Lets others go on: a question holds the board, which they need.
fn pause() {
    for _ in 0..PAUSE {
        thread::yield_now();
    }
}

/// Whether all others had left when the operation began, or begins now.
fn is_last<'h, R: Wait>(place: &mut Place<'h, R>, begins: bool, last: bool) -> bool
    ensures { Looks begins place.old place.new }
{
    if begins {
        place.open_actors() == 1
    } else {
        last
    }
}

/// Passes the gate after a section, and gives the number of the operation that it was of. They
/// count from 1.
fn tell<G: Gate>(gate: &G, actor: u32, turn: CareTurn, begins: bool, number: u32) -> u32 {
    match turn {
        CareTurn::Idle => number,
        CareTurn::More if begins => {
            let op = number.saturating_add(1);
            gate.pass(actor, GatePoint::Begin { op });
            op
        }
        CareTurn::More => {
            gate.pass(actor, GatePoint::Section { op: number });
            number
        }
        CareTurn::Done | CareTurn::Memory => {
            gate.pass(actor, GatePoint::End { op: number });
            number
        }
    }
}
