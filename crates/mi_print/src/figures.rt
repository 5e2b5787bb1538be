//! The figures of an outcome, for a workload that was made from a number.
ghost use Rattle.std.specs.Prelude.{◌≡◌, ◌+◌, ◌≤◌, ◌-◌, ◌^◌, ◌++◌, [], ◌∷◌, length, min};
ghost use Rattle.std.specs.List.{sum_by};
ghost use Rattle.mi_outside.specs.Outside.{Sends};
ghost use Rattle.mi_print.specs.Render.{number_line};
ghost use Rattle.mi_print.specs.Summary.{added_by, figure_of, log_figures, query_figures, summary};

use crate::transcript::{count_updates, send_numbers, send_totals};
use mi_base::{Replies, Reply, Transcript};
use mi_outside::{Sink, SinkFailed};
use mi_tree::Outcome;

/// What is summed over replies.
#[derive(Clone, Copy)]
pub enum Figure {
    /// Queries that were answered with rows.
    Queries,
    /// Their rows.
    Rows,
    /// The leaves that they opened.
    Opened,
    /// The distances that range queries computed.
    Distances,
}

fn added_by(figure: Figure, reply: &Reply) -> u64
    ensures { result ≡ added_by figure reply.now }
{
    match reply {
        Reply::Range {
            rows,
            cells,
            distances,
            ..
        } => match figure {
            Figure::Queries => 1,
            Figure::Rows => rows.len() as u64,
            Figure::Opened => u64::from(*cells),
            Figure::Distances => *distances,
        },
        Reply::Nearest { rows, cells, .. } => match figure {
            Figure::Queries => 1,
            Figure::Rows => rows.len() as u64,
            Figure::Opened => u64::from(*cells),
            Figure::Distances => 0,
        },
        _ => 0,
    }
}

// The sum over one session's replies, on top of what others' gave.
fn with_session(before: u64, figure: Figure, replies: &Replies) -> u64
    ensures { result ≡ min (before + sum_by (added_by figure) replies.now) (2 ^ 64 - 1) }
{
    let mut sum = before;
    for reply in replies.as_slice() {
        sum = sum.saturating_add(added_by(figure, reply));
    }
    sum
}

fn total(figure: Figure, sessions: &Transcript) -> u64
    ensures { result ≡ figure_of sessions.now figure }
{
    let mut sum = 0;
    for replies in sessions.as_slice() {
        sum = with_session(sum, figure, replies);
    }
    sum
}

// Two lines of a word and a number each.
fn send_pair<S: Sink>(
    word: &str,
    number: u64,
    next_word: &str,
    next: u64,
    out: &mut S,
) -> Result<(), SinkFailed>
    requires first { length word.now ≤ 30 }
    requires second { length next_word.now ≤ 30 }
    ensures { Sends (S.state out.old) (S.state out.new) (number_line word.now (number ∷ []) ++ number_line next_word.now (next ∷ [])) result }
{
    send_numbers(word, &[number], out)?;
    send_numbers(next_word, &[next], out)
}

fn send_log_figures<S: Sink>(seed: u64, outcome: &Outcome, out: &mut S) -> Result<(), SinkFailed>
    ensures { Sends (S.state out.old) (S.state out.new) (log_figures seed outcome.now) result }
{
    let updates = count_updates(&outcome.log);
    let splits = outcome.log.len().saturating_sub(updates);
    send_pair("seed", seed, "updates", updates as u64, out)?;
    send_pair(
        "splits",
        splits as u64,
        "cells",
        outcome.cells.len() as u64,
        out,
    )
}

fn send_query_figures<S: Sink>(sessions: &Transcript, out: &mut S) -> Result<(), SinkFailed>
    ensures { Sends (S.state out.old) (S.state out.new) (query_figures sessions.now) result }
{
    let queries = total(Figure::Queries, sessions);
    let rows = total(Figure::Rows, sessions);
    send_pair("queries", queries, "rows", rows, out)?;
    let opened = total(Figure::Opened, sessions);
    let distances = total(Figure::Distances, sessions);
    send_pair("opened", opened, "distances", distances, out)
}

/// Sends the figures of an outcome, with the number that its workload was made from. Sums over replies stop at 2^64 - 1. It
/// takes no memory.
pub fn summary<S: Sink>(seed: u64, outcome: &Outcome, out: &mut S) -> Result<(), SinkFailed>
    ensures { Sends (S.state out.old) (S.state out.new) (summary seed outcome.now) result }
{
    send_log_figures(seed, outcome, out)?;
    send_totals(outcome.entries, outcome.allotted, outcome.limit, out)?;
    send_query_figures(&outcome.replies, out)
}
