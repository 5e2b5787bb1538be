//! The command that runs scripts in threads.
ghost use Rattle.std.specs.Prelude.{◌≡◌, ◌+◌, ◌≤◌, IfOk, IsTrue, is_some, length, map};
ghost use Rattle.std.specs.String.{string_bytes};
ghost use Rattle.mi_outside.specs.Outside.{KeepsContents};
ghost use Rattle.mi_settle.specs.Headlines.{Headline};
ghost use Rattle.mi_call.specs.Calls.{Answered, Answers, Completes, RunSays, Says, Spoken};
ghost use Rattle.mi_call.specs.Inputs.{run_names_in};
ghost use Rattle.mi_call.specs.Loading.{MayRun, inputs_in};

use crate::endings::{ended, stopped, tell};
use crate::loading::{Loaded, load};
use crate::statuses::Status;
use crate::texts::send_usage;
use mi_base::{MAX_SESSIONS, NoMemory};
use mi_outside::{Files, Gate, Sink};
use mi_perm::Pivots;
use mi_run::run;
use mi_tree::Outcome;
use std::alloc::Global;
use std::sync::Wait;
use std::thread::Threads;

/// Runs the scripts in threads.
fn run_scripts<R: Threads + Wait + Sync, G: Gate>(
    rt: &R,
    alloc: Global,
    inputs: &Loaded,
    gate: &G,
) -> Result<Outcome, NoMemory>
    requires { MayRun inputs.now }
    ensures { IfOk result (Headline inputs.now.settings inputs.now.scripts) }
{
    let pivots = Pivots::new(alloc, &inputs.settings.pivots)?;
    let scripts = inputs.scripts.as_slice();
    run(
        rt,
        alloc,
        &inputs.settings,
        &inputs.metric,
        &pivots,
        scripts,
        gate,
    )
}

/// Runs the inputs and sends what comes of it.
fn run_inputs<R: Threads + Wait + Sync, S: Sink, G: Gate>(
    rt: &R,
    alloc: Global,
    inputs: &Loaded,
    out: &mut S,
    gate: &G,
) -> Status
    requires { MayRun inputs.now }
    ensures { Spoken (RunSays (inputs_in inputs.now)) (S.state out.old) (S.state out.new) result }
{
    tell(run_scripts(rt, alloc, inputs, gate), out)
}

/// The words are a command, a name, and the names of 1 to 16 scripts.
fn are_served(words: &[String]) -> bool
    ensures served { result ≡ is_some (run_names_in (map string_bytes words.now)) }
    ensures some { IsTrue result → 3 ≤ length words.now }
    ensures few { IsTrue result → length words.now ≤ MAX_SESSIONS + 2 }
{
    words.len() >= 3 && words.len() <= MAX_SESSIONS + 2 && words[0].as_str() == "run"
}

fn answer_run<R: Threads + Wait + Sync, F: Files, S: Sink, G: Gate>(
    rt: &R,
    alloc: Global,
    words: &[String],
    files: &mut F,
    out: &mut S,
    gate: &G,
) -> Status
    ensures answers { Answers (Says (run_names_in (map string_bytes words.now))) (F.state files.old) (F.state files.new) (S.state out.old) (S.state out.new) result }
    ensures contents { KeepsContents (F.state files.old) (F.state files.new) }
{
    if !are_served(words) {
        return ended(Status::Usage, send_usage(out));
    }
    let settings = words[1].as_str();
    match load(alloc, settings, &words[2..], files) {
        Ok(inputs) => run_inputs(rt, alloc, &inputs, out, gate),
        Err(stop) => stopped(stop, out),
    }
}

/// Runs each script in a thread of its own. The words are those behind the program's name. It may
/// wait for its threads.
pub fn run_call<R: Threads + Wait + Sync, F: Files, S: Sink, G: Gate>(
    rt: &R,
    alloc: Global,
    words: &[String],
    files: &mut F,
    out: &mut S,
    gate: &G,
) -> u8
    // What is said, and which status and which bytes come of it.
    ensures answered { Answered (Says (run_names_in (map string_bytes words.now))) (F.state files.old) (F.state files.new) (S.state out.old) (S.state out.new) result }
    // Good inputs are run.
    ensures complete { Completes (run_names_in (map string_bytes words.now)) (F.state files.old) (F.state files.new) (S.state out.old) (S.state out.new) result }
    ensures contents { KeepsContents (F.state files.old) (F.state files.new) }
{
    answer_run(rt, alloc, words, files, out, gate).number()
}
