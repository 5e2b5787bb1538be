//! What a core tells beside replies.
ghost use Rattle.std.specs.Prelude.{◌≡◌, ◌||◌, IfOk};
ghost use Rattle.std.specs.List.{list_any};
ghost use Rattle.mi_legal.specs.Want.{has_memory, is_memory};
ghost use Rattle.mi_settle.specs.Outcomes.{IsOutcomeOf};

use mi_base::{Log, LogEvent, NoMemory, Replies, Reply, Transcript, Update};
use mi_solo::Solo;
use mi_tree::{Catalog, Leaves, Outcome};
use std::alloc::Global;

/// What a core tells beside these replies. It is short where an answer is missing, or where more was
/// wanted.
pub fn outcome_of(
    alloc: Global,
    solo: &Solo,
    replies: Transcript,
    more: bool,
    pages: u32,
) -> Result<Outcome, NoMemory>
    ensures { IfOk result (IsOutcomeOf solo.now.state replies more pages) }
{
    let log = copy_log(alloc, solo.log())?;
    let cells = copy_cells(alloc, solo.catalog())?;
    Ok(Outcome {
        short: lacks_answer(&replies) || more,
        replies,
        log,
        cells,
        entries: solo.entries(),
        allotted: solo.allotted(),
        limit: pages,
    })
}

/// The same events again.
fn copy_log(alloc: Global, events: &[LogEvent]) -> Result<Log, NoMemory>
    ensures { IfOk result (λ log. log ≡ events.now) }
{
    let mut log = Log::with_room(alloc, events.len())?;
    for event in events {
        log.push(copy_event(event))?;
    }
    Ok(log)
}

fn copy_event(event: &LogEvent) -> LogEvent
    ensures { result ≡ event.now }
{
    match event {
        LogEvent::Update {
            session,
            op,
            update,
        } => LogEvent::Update {
            session: *session,
            op: *op,
            update: copy_update(update),
        },
        LogEvent::Split { prefix } => LogEvent::Split {
            prefix: prefix.copy(),
        },
    }
}

fn copy_update(update: &Update) -> Update
    ensures { result ≡ update.now }
{
    match update {
        Update::Insert { id, vector } => Update::Insert {
            id: *id,
            vector: vector.copy(),
        },
        Update::Delete { id } => Update::Delete { id: *id },
    }
}

/// The leaves of the catalog again.
fn copy_cells(alloc: Global, catalog: &Catalog) -> Result<Leaves, NoMemory>
    ensures { IfOk result (λ cells. cells ≡ catalog.now.leaves) }
{
    let mut cells = Leaves::with_room(alloc, catalog.len())?;
    for place in 0..catalog.len() {
        cells.push(catalog.leaf(place).copy())?;
    }
    Ok(cells)
}

/// An answer is missing for want of memory.
fn lacks_answer(replies: &Transcript) -> bool
    ensures { result ≡ has_memory replies.now }
{
    replies.as_slice().iter().any(|list| lacks_one(list))
}

fn lacks_one(replies: &Replies) -> bool
    ensures { result ≡ list_any is_memory replies.now }
{
    replies
        .as_slice()
        .iter()
        .any(|reply| matches!(reply, Reply::Memory))
}
