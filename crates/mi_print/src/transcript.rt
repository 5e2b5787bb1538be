//! The text of an outcome, line by line.
ghost use Rattle.std.specs.Prelude.{◌≡◌, ◌+◌, ◌≤◌, ◌++◌, [], ◌∷◌, length, codes, decimal, map};
ghost use Rattle.std.specs.Fmt.{signed_decimal};
ghost use Rattle.std.specs.List.{flat_map};
ghost use Rattle.mi_base.specs.History.{updates_of};
ghost use Rattle.mi_outside.specs.Outside.{Sends};
ghost use Rattle.mi_print.specs.Render.{line, number_line, row_line, row_lines, reply_lines, session_lines, prefix_text, event_line, history_lines, leaf_line, cell_lines, transcript};

use crate::Line;
use arrayvec::ArrayString;
use itoa::Buffer;
use mi_base::{
    Log, LogEvent, Position, Prefix, Replies, Reply, Row, Rows, Transcript, Update, Vector,
};
use mi_outside::{Sink, SinkFailed};
use mi_tree::{Leaf, Leaves, Outcome};

/// Sends a word and numbers.
pub fn send_numbers<S: Sink>(word: &str, numbers: &[u64], out: &mut S) -> Result<(), SinkFailed>
    requires short { length word.now ≤ 30 }
    requires few { length numbers.now ≤ 5 }
    ensures { Sends (S.state out.old) (S.state out.new) (number_line word.now numbers.now) result }
{
    let mut line = Line::new(word);
    for number in numbers {
        line.number(*number);
    }
    line.send(out)
}

fn send_row<S: Sink>(row: &Row, out: &mut S) -> Result<(), SinkFailed>
    ensures { Sends (S.state out.old) (S.state out.new) (row_line row.now) result }
{
    let mut line = Line::of_number(row.distance as u64);
    line.number(row.id.get());
    line.send(out)
}

fn send_rows<S: Sink>(rows: &Rows, out: &mut S) -> Result<(), SinkFailed>
    ensures { Sends (S.state out.old) (S.state out.new) (row_lines rows.now) result }
{
    for row in rows.as_slice() {
        send_row(row, out)?;
    }
    Ok(())
}

fn send_position<S: Sink>(word: &str, at: Position, out: &mut S) -> Result<(), SinkFailed>
    requires { length word.now ≤ 30 }
    ensures { Sends (S.state out.old) (S.state out.new) (number_line word.now (at.updates ∷ at.splits ∷ [])) result }
{
    send_numbers(word, &[at.updates as u64, at.splits as u64], out)
}

fn send_reply<S: Sink>(reply: &Reply, out: &mut S) -> Result<(), SinkFailed>
    ensures { Sends (S.state out.old) (S.state out.new) (reply_lines reply.now) result }
{
    match reply {
        Reply::Stored { number } => send_numbers("stored", &[*number as u64], out),
        Reply::Removed { number } => send_numbers("removed", &[*number as u64], out),
        Reply::Present { at } => send_position("present", *at, out),
        Reply::Absent { at } => send_position("absent", *at, out),
        Reply::Full { limit } => send_numbers("full", &[*limit as u64], out),
        Reply::NoPages { limit } => send_numbers("nopages", &[*limit as u64], out),
        Reply::Memory => send_numbers("memory", &[], out),
        Reply::Range {
            at,
            rows,
            cells,
            distances,
        } => send_range(*at, rows, *cells, *distances, out),
        Reply::Nearest { at, rows, cells } => send_nearest(*at, rows, *cells, out),
    }
}

fn send_range<S: Sink>(
    at: Position,
    rows: &Rows,
    cells: u32,
    distances: u64,
    out: &mut S,
) -> Result<(), SinkFailed>
    ensures { Sends (S.state out.old) (S.state out.new) (number_line (codes "range") (at.updates ∷ at.splits ∷ length rows.now ∷ cells ∷ distances ∷ []) ++ row_lines rows.now) result }
{
    let numbers = [
        at.updates as u64,
        at.splits as u64,
        rows.len() as u64,
        cells as u64,
        distances,
    ];
    send_numbers("range", &numbers, out)?;
    send_rows(rows, out)
}

fn send_nearest<S: Sink>(
    at: Position,
    rows: &Rows,
    cells: u32,
    out: &mut S,
) -> Result<(), SinkFailed>
    ensures { Sends (S.state out.old) (S.state out.new) (number_line (codes "nearest") (at.updates ∷ at.splits ∷ length rows.now ∷ cells ∷ []) ++ row_lines rows.now) result }
{
    let numbers = [
        at.updates as u64,
        at.splits as u64,
        rows.len() as u64,
        cells as u64,
    ];
    send_numbers("nearest", &numbers, out)?;
    send_rows(rows, out)
}

fn send_replies<S: Sink>(replies: &Replies, out: &mut S) -> Result<(), SinkFailed>
    ensures { Sends (S.state out.old) (S.state out.new) (flat_map reply_lines replies.now) result }
{
    for reply in replies.as_slice() {
        send_reply(reply, out)?;
    }
    Ok(())
}

fn send_session<S: Sink>(number: usize, replies: &Replies, out: &mut S) -> Result<(), SinkFailed>
    ensures { Sends (S.state out.old) (S.state out.new) (number_line (codes "session") (number ∷ []) ++ flat_map reply_lines replies.now) result }
{
    send_numbers("session", &[number as u64], out)?;
    send_replies(replies, out)
}

fn send_sessions<S: Sink>(sessions: &Transcript, out: &mut S) -> Result<(), SinkFailed>
    ensures { Sends (S.state out.old) (S.state out.new) (session_lines 0 sessions.now) result }
{
    for (number, replies) in sessions.as_slice().iter().enumerate() {
        send_session(number, replies, out)?;
    }
    Ok(())
}

fn prefix_text(prefix: &Prefix) -> ArrayString<30>
    ensures text { result.bytes ≡ prefix_text prefix.now }
    ensures short { length result.bytes ≤ 30 }
{
    let mut text = ArrayString::new();
    let Some((first, others)) = prefix.as_slice().split_first() else {
        text.push_str("-");
        return text;
    };
    text.push_str(Buffer::new().format(*first));
    push_pivots(&mut text, others);
    text
}

fn push_pivots(text: &mut ArrayString<30>, pivots: &[u8])
    requires first { length text.old.bytes ≤ 3 }
    requires few { length pivots.now ≤ 5 }
    ensures text { text.new.bytes ≡ text.old.bytes ++ flat_map (λ pivot. 46 ∷ decimal pivot) pivots.now }
    ensures short { length text.new.bytes ≤ 30 }
{
    for pivot in pivots {
        text.push_str(".");
        text.push_str(Buffer::new().format(*pivot));
    }
}

fn send_insert<S: Sink>(
    session: u32,
    op: u32,
    id: u64,
    vector: &Vector,
    out: &mut S,
) -> Result<(), SinkFailed>
    ensures { Sends (S.state out.old) (S.state out.new) (line (codes "insert") (decimal session ∷ decimal op ∷ decimal id ∷ map signed_decimal vector.now)) result }
{
    let mut line = Line::new("insert");
    line.number(session as u64);
    line.number(op as u64);
    line.number(id);
    for coordinate in vector.as_slice() {
        line.coordinate(*coordinate);
    }
    line.send(out)
}

fn send_update<S: Sink>(
    session: u32,
    op: u32,
    update: &Update,
    out: &mut S,
) -> Result<(), SinkFailed>
    ensures { Sends (S.state out.old) (S.state out.new) (event_line (LogEvent.Update session op update.now)) result }
{
    match update {
        Update::Insert { id, vector } => send_insert(session, op, id.get(), vector, out),
        Update::Delete { id } => {
            let numbers = [session as u64, op as u64, id.get()];
            send_numbers("delete", &numbers, out)
        }
    }
}

fn send_event<S: Sink>(event: &LogEvent, out: &mut S) -> Result<(), SinkFailed>
    ensures { Sends (S.state out.old) (S.state out.new) (event_line event.now) result }
{
    match event {
        LogEvent::Update {
            session,
            op,
            update,
        } => send_update(*session, *op, update, out),
        LogEvent::Split { prefix } => {
            let mut line = Line::new("split");
            line.field(prefix_text(prefix).as_str());
            line.send(out)
        }
    }
}

pub fn count_updates(log: &Log) -> usize
    ensures { result ≡ length (updates_of log.now) }
{
    let mut updates = 0;
    for event in log.as_slice() {
        if let LogEvent::Update { .. } = event {
            updates += 1;
        }
    }
    updates
}

fn send_events<S: Sink>(log: &Log, out: &mut S) -> Result<(), SinkFailed>
    ensures { Sends (S.state out.old) (S.state out.new) (flat_map event_line log.now) result }
{
    for event in log.as_slice() {
        send_event(event, out)?;
    }
    Ok(())
}

fn send_history<S: Sink>(log: &Log, out: &mut S) -> Result<(), SinkFailed>
    ensures { Sends (S.state out.old) (S.state out.new) (history_lines log.now) result }
{
    let updates = count_updates(log);
    let splits = log.len().saturating_sub(updates);
    send_numbers("history", &[updates as u64, splits as u64], out)?;
    send_events(log, out)
}

fn send_leaf<S: Sink>(leaf: &Leaf, out: &mut S) -> Result<(), SinkFailed>
    ensures { Sends (S.state out.old) (S.state out.new) (leaf_line leaf.now) result }
{
    send_numbers(
        prefix_text(&leaf.prefix).as_str(),
        &[leaf.count as u64],
        out,
    )
}

fn send_leaves<S: Sink>(cells: &Leaves, out: &mut S) -> Result<(), SinkFailed>
    ensures { Sends (S.state out.old) (S.state out.new) (flat_map leaf_line cells.now) result }
{
    for leaf in cells.as_slice() {
        send_leaf(leaf, out)?;
    }
    Ok(())
}

fn send_cells<S: Sink>(cells: &Leaves, out: &mut S) -> Result<(), SinkFailed>
    ensures { Sends (S.state out.old) (S.state out.new) (cell_lines cells.now) result }
{
    send_numbers("cells", &[cells.len() as u64], out)?;
    send_leaves(cells, out)
}

pub fn send_totals<S: Sink>(
    entries: u64,
    allotted: u32,
    limit: u32,
    out: &mut S,
) -> Result<(), SinkFailed>
    ensures { Sends (S.state out.old) (S.state out.new) (number_line (codes "entries") (entries ∷ []) ++ number_line (codes "pages") (allotted ∷ limit ∷ [])) result }
{
    send_numbers("entries", &[entries], out)?;
    send_numbers("pages", &[allotted as u64, limit as u64], out)
}

/// Sends the transcript. It takes no memory.
pub fn render<S: Sink>(outcome: &Outcome, out: &mut S) -> Result<(), SinkFailed>
    ensures { Sends (S.state out.old) (S.state out.new) (transcript outcome.now.replies outcome.now.log outcome.now.cells outcome.now.entries outcome.now.allotted outcome.now.limit) result }
{
    send_sessions(&outcome.replies, out)?;
    send_history(&outcome.log, out)?;
    send_cells(&outcome.cells, out)?;
    send_totals(outcome.entries, outcome.allotted, outcome.limit, out)
}
