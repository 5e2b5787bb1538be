//! The command that replays scripts.
ghost use Rattle.std.specs.Prelude.{◌≡◌, ◌+◌, ◌≤◌, IfOk, IsTrue, is_some, length, map};
ghost use Rattle.std.specs.String.{string_bytes};
ghost use Rattle.mi_outside.specs.Outside.{KeepsContents};
ghost use Rattle.mi_replay.specs.Outcomes.{Played};
ghost use Rattle.mi_call.specs.Calls.{Answered, Answers, Completes, RunSays, Says, Spoken};
ghost use Rattle.mi_call.specs.Inputs.{replay_names_in};
ghost use Rattle.mi_call.specs.Loading.{MayReplay, scheduled_in};

use crate::endings::{ended, stopped, tell};
use crate::loading::{Scheduled, load_scheduled};
use crate::statuses::Status;
use crate::texts::send_usage;
use mi_base::{MAX_SESSIONS, NoMemory};
use mi_outside::{Files, Sink};
use mi_perm::Pivots;
use mi_replay::replay;
use mi_tree::Outcome;
use std::alloc::Global;

/// Runs the scripts after the schedule.
fn play(alloc: Global, inputs: &Scheduled) -> Result<Outcome, NoMemory>
    requires { MayReplay inputs.now }
    ensures { IfOk result (Played inputs.now.loaded.settings inputs.now.loaded.scripts inputs.now.schedule) }
{
    let pivots = Pivots::new(alloc, &inputs.loaded.settings.pivots)?;
    let scripts = inputs.loaded.scripts.as_slice();
    replay(
        alloc,
        &inputs.loaded.settings,
        &inputs.loaded.metric,
        &pivots,
        scripts,
        &inputs.schedule,
    )
}

/// Replays the inputs and sends what comes of it.
fn replay_inputs<S: Sink>(alloc: Global, inputs: &Scheduled, out: &mut S) -> Status
    requires { MayReplay inputs.now }
    ensures { Spoken (RunSays (scheduled_in inputs.now)) (S.state out.old) (S.state out.new) result }
{
    tell(play(alloc, inputs), out)
}

/// The words are a command, two names, and the names of 1 to 16 scripts.
fn are_served(words: &[String]) -> bool
    ensures served { result ≡ is_some (replay_names_in (map string_bytes words.now)) }
    ensures some { IsTrue result → 4 ≤ length words.now }
    ensures few { IsTrue result → length words.now ≤ MAX_SESSIONS + 3 }
{
    words.len() >= 4 && words.len() <= MAX_SESSIONS + 3 && words[0].as_str() == "replay"
}

fn answer_call<F: Files, S: Sink>(
    alloc: Global,
    words: &[String],
    files: &mut F,
    out: &mut S,
) -> Status
    ensures answers { Answers (Says (replay_names_in (map string_bytes words.now))) (F.state files.old) (F.state files.new) (S.state out.old) (S.state out.new) result }
    ensures contents { KeepsContents (F.state files.old) (F.state files.new) }
{
    if !are_served(words) {
        return ended(Status::Usage, send_usage(out));
    }
    let settings = words[1].as_str();
    let schedule = words[2].as_str();
    match load_scheduled(alloc, settings, schedule, &words[3..], files) {
        Ok(inputs) => replay_inputs(alloc, &inputs, out),
        Err(stop) => stopped(stop, out),
    }
}

/// Replays scripts after a schedule. The words are those behind the program's name.
pub fn replay_call<F: Files, S: Sink>(
    alloc: Global,
    words: &[String],
    files: &mut F,
    out: &mut S,
) -> u8
    // What is said, and which status and which bytes come of it.
    ensures answered { Answered (Says (replay_names_in (map string_bytes words.now))) (F.state files.old) (F.state files.new) (S.state out.old) (S.state out.new) result }
    // Good inputs are run.
    ensures complete { Completes (replay_names_in (map string_bytes words.now)) (F.state files.old) (F.state files.new) (S.state out.old) (S.state out.new) result }
    ensures contents { KeepsContents (F.state files.old) (F.state files.new) }
{
    answer_call(alloc, words, files, out).number()
}
