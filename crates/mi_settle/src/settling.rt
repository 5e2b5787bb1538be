//! Settling: what the splitter does alone once nothing is under way.
ghost use Rattle.std.specs.Prelude.{◌≡◌, length};
ghost use Rattle.mi_base.specs.History.{updates_of};
ghost use Rattle.mi_core.specs.Kept.{Kept};
ghost use Rattle.mi_settle.specs.Settling.{IsAtRest, Settles, TrimsAll, WorksOff};
ghost use Rattle.mi_solo.specs.Solos.{MayTurn};
ghost use Rattle.mi_solo.specs.States.{actor_in};

use crate::splitters::SplitterSeat;
use mi_base::NoMemory;
use mi_job::CareTurn;
use mi_solo::Solo;
use mi_world::{Visit, World};
use std::alloc::Global;

/// The splitter, whose turn it is, goes on alone until all leaves are settled, and dead entries are
/// trimmed off all leaf pages.
pub fn settle(alloc: Global, solo: &mut Solo) -> Result<(), NoMemory>
    requires rest { IsAtRest solo.old.state }
    ensures settles { Settles solo.old.turn solo.old.state result solo.new.state }
{
    let actor = solo.actor();
    work_off(alloc, solo, actor)?;
    trim_all(solo, actor);
    Ok(())
}

/// Operations of the splitter until there is nothing to do. A split that is given up for want of
/// memory is the last one.
fn work_off(alloc: Global, solo: &mut Solo, actor: u32) -> Result<(), NoMemory>
    requires turn { actor ≡ solo.old.turn }
    requires rest { IsAtRest solo.old.state }
    ensures { WorksOff actor solo.old.state result solo.new.state }
{
    // The log tells that the core is kept.
    let _ = solo.log();
    let mut splitter = SplitterSeat::new();
    loop {
        match splitter.finish(alloc, solo, actor) {
            CareTurn::Idle => return Ok(()),
            CareTurn::Memory => return Err(NoMemory),
            CareTurn::Done => {}
            CareTurn::More => unreachable!(),
        }
    }
}

/// Entries that are dead at the end of the log are trimmed off all leaf pages, from page 0, which
/// is the first, to the right.
fn trim_all(solo: &mut Solo, actor: u32)
    requires may { MayTurn solo.old.state actor }
    requires kept { Kept solo.old.state }
    requires rest { IsAtRest solo.old.state }
    requires floor { (actor_in solo.old.state actor).floor.updates ≡ length (updates_of solo.old.state.board.log) }
    ensures { TrimsAll actor solo.old.state solo.new.state }
{
    let mut next = Some(0);
    while let Some(page) = next {
        solo.turn_to(actor);
        let Visit::Read { next: right } = solo.trim(page) else {
            unreachable!();
        };
        next = right;
    }
}
