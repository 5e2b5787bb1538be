//! A sink of bytes.
ghost use Rattle.std.specs.Prelude.{◌<◌, ◌≤◌, length, IfOk, OnErr};
ghost use Rattle.mi_outside.specs.Outside.{Fails, Sends, Writes};

/// Writing failed, which the count of faults tells.
#[derive(Clone, Copy, Debug, PartialEq, Eq)]
pub struct SinkFailed;

/// What takes bytes in order, as many a call as it likes.
pub trait Sink {
    ghost use Rattle.mi_outside.specs.States.{SinkState};

    ghost state: { Self → SinkState };

    /// Takes a front of the piece, and answers how many bytes it has. To take nothing of a piece that
    /// isn't empty is a failure too, and is counted as one.
    fn write(&mut self, piece: &[u8]) -> Result<usize, SinkFailed>
        ensures ok { IfOk result (λ n. Writes (state self.old) (state self.new) n piece.now) }
        ensures err { OnErr result (Fails (state self.old) (state self.new)) }
        ensures count { (state self.old).faults ≤ (state self.new).faults };
}

/// Writes a front of a piece that isn't empty, and answers how many bytes it has, at least one.
#[tactic(auto, using(crate::proofs::SendingLemmas::fails_by_none))]
fn write_some<S: Sink>(out: &mut S, piece: &[u8]) -> Result<usize, SinkFailed>
    requires { 0 < length piece.now }
    ensures some { IfOk result (λ n. 0 < n) }
    ensures ok { IfOk result (λ n. Writes (S.state out.old) (S.state out.new) n piece.now) }
    ensures err { OnErr result (Fails (S.state out.old) (S.state out.new)) }
    ensures count { (S.state out.old).faults ≤ (S.state out.new).faults }
{
    let taken = out.write(piece)?;
    if taken == 0 {
        return Err(SinkFailed);
    }
    Ok(taken)
}

/// Writes the whole piece, by as many calls as the sink needs.
pub fn write_all<S: Sink>(out: &mut S, piece: &[u8]) -> Result<(), SinkFailed>
    ensures { Sends (S.state out.old) (S.state out.new) piece.now result }
{
    let mut sent = 0;
    while sent < piece.len() {
        let taken = write_some(out, &piece[sent..])?;
        sent += taken;
    }
    Ok(())
}
