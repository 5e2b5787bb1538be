//! The commands by their first words.
ghost use Rattle.std.specs.Prelude.{◌≡◌, map};
ghost use Rattle.std.specs.String.{string_bytes};
ghost use Rattle.mi_call.specs.Commands.{begins_with, command_in};

/// What a call is to do.
#[derive(Clone, Copy, Debug, PartialEq, Eq)]
pub enum Command {
    /// To choose pivots.
    Choose,
    /// To make a workload and replay it.
    Make,
    /// To replay scripts, or to tell that the words name no command.
    Replay,
    /// To run scripts in threads.
    Run,
}

fn begins_with(words: &[String], command: &str) -> bool
    ensures { result ≡ begins_with command.now (map string_bytes words.now) }
{
    !words.is_empty() && words[0].as_str() == command
}

/// The command that the first word names.
pub fn command_of(words: &[String]) -> Command
    ensures { result ≡ command_in (map string_bytes words.now) }
{
    if begins_with(words, "choose") {
        Command::Choose
    } else if begins_with(words, "make") {
        Command::Make
    } else if begins_with(words, "run") {
        Command::Run
    } else {
        Command::Replay
    }
}
