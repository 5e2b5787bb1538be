//! The commands of `mindex`: scripts of updates and queries are run in threads or replayed after a
//! schedule, pivots are proposed, and workloads are made.
#![tactic(auto)]

ghost use Rattle.std.specs.Prelude.{map};
ghost use Rattle.std.specs.String.{string_bytes};
ghost use Rattle.mi_outside.specs.Outside.{KeepsContents};
ghost use Rattle.mi_call.specs.Calls.{Answered};
ghost use Rattle.mi_call.specs.Commands.{CommandCompletes, CommandSays, command_in};

mod adapters;
mod choosing;
mod commands;
mod endings;
mod laws;
mod loading;
mod making;
mod proposals;
mod refusals;
mod replaying;
mod running;
mod statuses;
mod texts;

pub use adapters::{RealFiles, RealOut};
pub use choosing::choose_call;
use commands::{Command, command_of};
pub use endings::stopped;
pub use laws::one_text_has_one_history;
pub use making::make_call;
use mi_outside::{Files, Gate, Sink};
pub use refusals::{Refusal, Stop};
pub use replaying::replay_call;
pub use running::run_call;
pub use statuses::Status;
use std::alloc::Global;
use std::sync::Wait;
use std::thread::Threads;

/// Runs the command that the words name. They are those behind the program's name.
pub fn mindex<R: Threads + Wait + Sync, F: Files, S: Sink, G: Gate>(
    rt: &R,
    alloc: Global,
    words: &[String],
    files: &mut F,
    out: &mut S,
    gate: &G,
) -> u8
    ensures answered { Answered (CommandSays (command_in (map string_bytes words.now)) (map string_bytes words.now)) (F.state files.old) (F.state files.new) (S.state out.old) (S.state out.new) result }
    ensures complete { CommandCompletes (command_in (map string_bytes words.now)) (map string_bytes words.now) (F.state files.old) (F.state files.new) (S.state out.old) (S.state out.new) result }
    ensures contents { KeepsContents (F.state files.old) (F.state files.new) }
{
    match command_of(words) {
        Command::Choose => choose_call(alloc, words, files, out),
        Command::Make => make_call(alloc, words, out),
        Command::Replay => replay_call(alloc, words, files, out),
        Command::Run => run_call(rt, alloc, words, files, out, gate),
    }
}
