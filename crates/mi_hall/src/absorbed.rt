//! What a pass keeps of the actors that were absorbed into it.
ghost use Rattle.std.specs.Prelude.{◌≡◌, ◌<◌, ◌∷◌, ◌++◌, [], IfOk, drop, length, slice_set};
ghost use Rattle.std.specs.List.{AllByRecursion};
ghost use Rattle.mi_hall.specs.Absorbed.{IsSpare, ended_row, most, placed};

use mi_base::NoMemory;
use mi_solo::rows::ActorRow;
use std::alloc::Global;
use std::collections::LinkedList;
use std::sync::Wait;
use std::thread;

/// An actor that was absorbed, with its row.
#[derive(Drop)]
pub struct Gone {
    pub actor: u32,
    pub row: ActorRow,
}

/// A list of one, whose place is for the row of its owner once that is absorbed.
pub(crate) fn spare(alloc: Global) -> Result<LinkedList<Gone>, NoMemory>
    ensures { IfOk result (λ gone. IsSpare gone) }
{
    let mut gone = LinkedList::new(alloc);
    let row = ActorRow::first(alloc);
    let Ok(()) = gone.push_back(Gone { actor: 0, row }) else {
        return Err(NoMemory);
    };
    Ok(gone)
}

/// Keeps the row of an actor that has ended, with those that it kept. It takes no memory, since the
/// row goes into the spare place of its pass.
pub(crate) fn keep<R: Wait>(
    rt: &R,
    gone: &mut LinkedList<Gone>,
    actor: u32,
    row: ActorRow,
    other: LinkedList<Gone>,
)
    requires spare { 0 < length other }
    ensures { gone.new
        ≡ gone.old ++ record { actor = actor; row = ended_row row } ∷ drop 1 other }
{
    let mut row = row;
    row.end();
    let mut other = other;
    fill(&mut other, Gone { actor, row });
    let Ok(()) = gone.append(&mut other) else {
        // No memory has so many places.
        for _ in rt.forever() {
            thread::yield_now();
        }
        unreachable!()
    };
}

/// Puts this into the first place.
fn fill(gone: &mut LinkedList<Gone>, first: Gone)
    requires { 0 < length gone.old }
    ensures { gone.new ≡ first ∷ drop 1 gone.old }
{
    let Some(place) = gone.front_mut() else {
        unreachable!();
    };
    *place = first;
}

/// One more than the greatest number of these actors, or `count` where that is more.
pub(crate) fn count_up(count: usize, gone: &LinkedList<Gone>) -> usize
    ensures { result ≡ most count gone.now }
{
    let mut found = count;
    for one in gone {
        found = found.max(one.actor as usize + 1);
    }
    found
}

/// Puts each row in the place of its actor, and this actor's row in its own.
pub(crate) fn place(
    rows: Vec<ActorRow>,
    gone: LinkedList<Gone>,
    actor: u32,
    row: ActorRow,
) -> Vec<ActorRow>
    requires within { AllByRecursion (λ g. g.actor < length rows.items) gone }
    requires own { actor < length rows.items }
    ensures { result.items ≡ slice_set (placed gone rows.items) actor row }
{
    let mut rows = rows;
    let mut gone = gone;
    while let Some(one) = gone.pop_front() {
        rows[one.actor as usize] = one.row;
    }
    rows[actor as usize] = row;
    rows
}
