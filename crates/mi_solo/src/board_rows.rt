//! Sections of the board, with the board and its actor's row in hand.
ghost use Rattle.std.specs.Prelude.{◌≡◌, ◌<◌, None, length};
ghost use Rattle.mi_board.specs.Actors.{actor_at};
ghost use Rattle.mi_solo.specs.BoardRows.{AllotsRow, ClaimsRow, MayEnter, PinsRow};
ghost use Rattle.mi_solo.specs.BoardRows.{PublishesRow, SweepFits, WorksRow};

use crate::cell_keys::first_key;
use crate::placing::placed_objects;
use crate::rows::{ActorRow, PinRow};
use mi_base::{NoMemory, Perm, Position, Steps};
use mi_board::Board;
use mi_tree::{AllotRefusal, LeafClaim, Look, Work};
use std::alloc::Global;
use std::sync::ledger::{Blank, Ledger};

/// Gives the actor of the row a leaf to sweep, else one to split, which it then claims, else
/// nothing.
pub fn work_row(actor: u32, board: &mut Board, row: &mut ActorRow) -> Work
    requires known { actor < length board.old.actors }
    requires free { (actor_at board.old.actors actor).claim ≡ None }
    requires cells { SweepFits board.old }
    ensures { WorksRow actor result board.old row.old board.new row.new }
{
    let floor = board.look().floor;
    let work = board.next_work(actor);
    match &work {
        Work::Sweep { prefix } => {
            let mark = first_key(board.settings(), prefix);
            row.take_sweep(board, floor, prefix, mark);
        }
        Work::Split { leaf } => row.take_split(board, floor, &leaf.prefix),
        Work::Idle => row.learn(board, floor),
    }
    work
}

/// Claims the leaf of the permutation for the actor of the row, unless another actor does.
pub fn claim_row(actor: u32, perm: &Perm, board: &mut Board, row: &mut ActorRow) -> LeafClaim
    requires known { actor < length board.old.actors }
    requires long { length perm.now ≡ length board.old.settings.pivots }
    requires free { (actor_at board.old.actors actor).claim ≡ None }
    ensures { ClaimsRow actor perm.now result board.old row.old board.new row.new }
{
    let claim = board.claim_leaf(actor, perm);
    match &claim {
        LeafClaim::Taken { leaf } => row.take_leaf(board, &leaf.prefix),
        LeafClaim::Held { .. } => row.see(board),
    }
    claim
}

/// Enters the split of the row into the log, and ends its claim.
pub fn publish_row(
    alloc: Global,
    actor: u32,
    board: &mut Board,
    row: &mut ActorRow,
) -> Result<Position, NoMemory>
    requires { MayEnter actor board.old row.old }
    ensures { PublishesRow actor result board.old row.old board.new row.new }
{
    let Some(work) = &row.split else {
        unreachable!();
    };
    let objects = match placed_objects(alloc, &work.gathered) {
        Ok(objects) => objects,
        Err(refusal) => {
            row.see(board);
            return Err(refusal);
        }
    };
    match board.publish(alloc, actor, &objects) {
        Ok(position) => {
            row.end_split(board);
            Ok(position)
        }
        Err(refusal) => {
            row.see(board);
            Err(refusal)
        }
    }
}

/// Pins the end of the board's log for the actor of the row.
pub fn pin_row<L: Ledger>(
    alloc: Global,
    actor: u32,
    board: &mut Board,
    row: &mut ActorRow,
    blank: Blank,
) -> Result<Look, NoMemory>
    requires name { blank.name ≡ L.name }
    requires parts { blank.parts ≡ L.parts }
    requires some { 0 < blank.parts }
    requires known { actor < length board.old.actors }
    requires free { (actor_at board.old.actors actor).pin ≡ None }
    ensures { PinsRow actor result board.old row.old board.new row.new }
{
    let floor = board.look().floor;
    match board.pin(alloc, actor, &mut Steps::<L>::new(blank)) {
        Ok((look, cells)) => {
            let pin = PinRow { at: look.at, cells };
            row.pin(board, floor, pin);
            Ok(look)
        }
        Err(refusal) => {
            row.see(board);
            Err(refusal)
        }
    }
}

/// Takes the board's next page in the hand of the row.
pub fn allot_row(alloc: Global, board: &mut Board, row: &mut ActorRow) -> Result<(), AllotRefusal>
    ensures { AllotsRow result board.old row.old board.new row.new }
{
    match row.hand.allot(alloc, board) {
        Ok(()) => {
            row.see(board);
            Ok(())
        }
        Err(AllotRefusal::PagesFull { limit }) => {
            row.see(board);
            Err(AllotRefusal::PagesFull { limit })
        }
        Err(AllotRefusal::Memory) => {
            row.lack(board);
            Err(AllotRefusal::Memory)
        }
    }
}
