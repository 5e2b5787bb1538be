//! How a call ends, whichever command it was: what is sent last, and the status beside it.
ghost use Rattle.std.specs.Prelude.{◌≡◌, OnErr, OnOk};
ghost use Rattle.mi_call.specs.Calls.{Ends, OutcomeSays, Spoken, transcript_status};
ghost use Rattle.mi_call.specs.Loading.{stop_line, stop_status};

use crate::refusals::Stop;
use crate::statuses::Status;
use crate::texts::{refusal_status, send_memory, send_refusal, send_unread};
use mi_base::NoMemory;
use mi_outside::{Sink, SinkFailed};
use mi_print::render;
use mi_tree::Outcome;

/// The status of a text that was sent whole, or else that of a failed write.
pub fn ended(said: Status, sent: Result<(), SinkFailed>) -> Status
    ensures ok { OnOk sent (result ≡ said) }
    ensures err { OnErr sent (result ≡ Status.Unwritten) }
{
    match sent {
        Ok(()) => said,
        Err(SinkFailed) => Status::Unwritten,
    }
}

/// The status of a text that tells this outcome, where it was sent whole.
pub fn status_of(outcome: &Outcome) -> Status
    ensures { result ≡ transcript_status outcome.now.short }
{
    if outcome.short {
        Status::Short
    } else {
        Status::Done
    }
}

/// Sends what scripts left: the transcript, or the line of want of memory.
pub fn tell<S: Sink>(outcome: Result<Outcome, NoMemory>, out: &mut S) -> Status
    ensures { Spoken (OutcomeSays outcome) (S.state out.old) (S.state out.new) result }
{
    match outcome {
        Ok(outcome) => ended(status_of(&outcome), render(&outcome, out)),
        Err(NoMemory) => ended(Status::NoMemory, send_memory(out)),
    }
}

/// Sends the line of a call without inputs.
pub fn stopped<S: Sink>(stop: Stop, out: &mut S) -> Status
    ensures { Ends (stop_status stop) (stop_line stop) (S.state out.old) (S.state out.new) result }
{
    match stop {
        Stop::Refused(refusal) => ended(refusal_status(refusal), send_refusal(refusal, out)),
        Stop::Unread { file } => ended(Status::Unread, send_unread(file, out)),
        Stop::Memory => ended(Status::NoMemory, send_memory(out)),
    }
}
