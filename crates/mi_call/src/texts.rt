//! What is written in place of a transcript.
ghost use Rattle.std.specs.Prelude.{◌≡◌, ◌≤◌, ◌++◌, [], ◌∷◌, codes, length, map};
ghost use Rattle.std.specs.Fmt.{decimal};
ghost use Rattle.mi_print.specs.Render.{after_commas};
ghost use Rattle.mi_outside.specs.Outside.{Sends};
ghost use Rattle.mi_call.specs.Calls.{fault_line, memory_line, reason_word, refusal_line, refusal_status, table_line, unread_line, usage_line};

use crate::refusals::Refusal;
use crate::statuses::Status;
use mi_input::Reason;
use mi_outside::{Sink, SinkFailed, write_all};
use mi_print::{Line, send_numbers};
use mi_table::TableFault;

/// Sends the line of words that aren't served.
pub fn send_usage<S: Sink>(out: &mut S) -> Result<(), SinkFailed>
    ensures { Sends (S.state out.old) (S.state out.new) usage_line result }
{
    write_all(
        out,
        b"usage: mindex replay SETTINGS SCHEDULE SCRIPT... | run SETTINGS SCRIPT... | make SEED | choose SETTINGS SCRIPT COUNT\n",
    )
}

/// Sends the line of want of memory.
pub fn send_memory<S: Sink>(out: &mut S) -> Result<(), SinkFailed>
    ensures { Sends (S.state out.old) (S.state out.new) memory_line result }
{
    write_all(out, b"memory\n")
}

/// Sends the line of a file that could not be read.
pub fn send_unread<S: Sink>(file: u32, out: &mut S) -> Result<(), SinkFailed>
    ensures { Sends (S.state out.old) (S.state out.new) (unread_line file) result }
{
    send_numbers("unread", &[file as u64], out)
}

fn word_of(why: Reason) -> &'static str
    ensures word { result.now ≡ reason_word why }
    ensures short { length result.now ≤ 10 }
{
    match why {
        Reason::Word => "word",
        Reason::Fields => "fields",
        Reason::Number => "number",
        Reason::Range => "range",
        Reason::Limit => "limit",
        Reason::End => "end",
        Reason::Extra => "extra",
        Reason::Large => "large",
    }
}

/// A fault line's first fields.
fn begin_fault(file: u32, number: u32, word: &str) -> Line
    requires { length word.now ≤ 10 }
    ensures line { result ≡ codes "fault" ++ after_commas (decimal file ∷ decimal number ∷ word.now ∷ []) }
    ensures short { length result ≤ 60 }
{
    let mut line = Line::new("fault");
    line.number(file as u64);
    line.number(number as u64);
    line.field(word);
    line
}

fn send_places<S: Sink>(word: &str, places: &[u32], out: &mut S) -> Result<(), SinkFailed>
    requires word { length word.now ≤ 10 }
    requires few { length places.now ≤ 3 }
    ensures { Sends (S.state out.old) (S.state out.new) (fault_line 0 0 word.now (map decimal places.now)) result }
{
    let mut line = begin_fault(0, 0, word);
    for place in places {
        line.number(*place as u64);
    }
    line.send(out)
}

fn send_table_fault<S: Sink>(fault: TableFault, out: &mut S) -> Result<(), SinkFailed>
    ensures { Sends (S.state out.old) (S.state out.new) (table_line fault) result }
{
    match fault {
        TableFault::NotSquare { row } => send_places("notsquare", &[row], out),
        TableFault::Diagonal { i } => send_places("diagonal", &[i], out),
        TableFault::Zero { i, j } => send_places("zero", &[i, j], out),
        TableFault::Asymmetric { i, j } => send_places("asymmetric", &[i, j], out),
        TableFault::Triangle { i, j, k } => send_places("triangle", &[i, j, k], out),
        TableFault::Memory => send_memory(out),
    }
}

/// Sends the line of the first thing that is wrong with the files.
pub fn send_refusal<S: Sink>(refusal: Refusal, out: &mut S) -> Result<(), SinkFailed>
    ensures { Sends (S.state out.old) (S.state out.new) (refusal_line refusal) result }
{
    match refusal {
        Refusal::Record { file, number, why } => {
            begin_fault(file, number, word_of(why)).send(out)
        }
        Refusal::Table(fault) => send_table_fault(fault, out),
    }
}

/// The settings and their table have a status of their own.
pub fn refusal_status(refusal: Refusal) -> Status
    ensures { result ≡ refusal_status refusal }
{
    match refusal {
        Refusal::Record { file, .. } if file > 0 => Status::BadFile,
        Refusal::Record { .. } | Refusal::Table(_) => Status::BadSettings,
    }
}
