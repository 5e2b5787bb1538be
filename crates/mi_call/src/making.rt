//! The command that makes a workload from a number, replays it and tells its figures.
ghost use Rattle.std.specs.Prelude.{◌≡◌, IfOk, Some, map};
ghost use Rattle.std.specs.String.{string_bytes};
ghost use Rattle.mi_call.specs.Making.{IsOutcomeOf, Made, MakeAnswered, MakeCompletes, seed_in};

use crate::endings::{ended, status_of};
use crate::statuses::Status;
use crate::texts::{send_memory, send_usage};
use mi_base::NoMemory;
use mi_input::count;
use mi_make::make;
use mi_metric::L1;
use mi_outside::Sink;
use mi_perm::Pivots;
use mi_print::summary;
use mi_replay::replay;
use mi_table::AnyMetric;
use mi_tree::Outcome;
use std::alloc::Global;

/// Makes the workload of a number, and replays it.
fn outcome_of(alloc: Global, seed: u64) -> Result<Outcome, NoMemory>
    ensures { IfOk result (IsOutcomeOf seed) }
{
    let workload = make(alloc, seed)?;
    let metric = AnyMetric::L1(L1::new(workload.settings.dims));
    let pivots = Pivots::new(alloc, &workload.settings.pivots)?;
    replay(
        alloc,
        &workload.settings,
        &metric,
        &pivots,
        workload.scripts.as_slice(),
        &workload.schedule,
    )
}

/// Replays the workload of a number, and sends what comes of it: its figures, or the line of want
/// of memory.
fn tell<S: Sink>(alloc: Global, seed: u64, out: &mut S) -> Status
    ensures { Made (Some seed) (S.state out.old) (S.state out.new) result }
{
    match outcome_of(alloc, seed) {
        Ok(outcome) => ended(status_of(&outcome), summary(seed, &outcome, out)),
        Err(NoMemory) => ended(Status::NoMemory, send_memory(out)),
    }
}

/// The number, where the words are the command and this number.
fn seed_in_words(words: &[String]) -> Option<u64>
    ensures { result ≡ seed_in (map string_bytes words.now) }
{
    if words.len() != 2 || words[0].as_str() != "make" {
        return None;
    }
    match count(words[1].as_bytes(), 0, u64::MAX) {
        Ok(seed) => Some(seed),
        Err(_) => None,
    }
}

fn answer_make<S: Sink>(alloc: Global, words: &[String], out: &mut S) -> Status
    ensures { Made (seed_in (map string_bytes words.now)) (S.state out.old) (S.state out.new) result }
{
    match seed_in_words(words) {
        Some(seed) => tell(alloc, seed, out),
        None => ended(Status::Usage, send_usage(out)),
    }
}

/// Makes the workload of a number, replays it, and tells the figures of what comes of it. The words
/// are those behind the program's name. It reads no file.
pub fn make_call<S: Sink>(alloc: Global, words: &[String], out: &mut S) -> u8
    // What is said, and which status and which bytes come of it.
    ensures answered { MakeAnswered (seed_in (map string_bytes words.now)) (S.state out.old) (S.state out.new) result }
    // A workload that is asked for is replayed.
    ensures complete { MakeCompletes (seed_in (map string_bytes words.now)) (S.state out.old) (S.state out.new) result }
{
    answer_make(alloc, words, out).number()
}
