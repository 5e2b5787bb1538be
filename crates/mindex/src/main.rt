//! An exact similarity index in memory: runs scripts of updates and queries in threads, replays
//! them after a schedule, proposes pivots, and makes workloads.
#![tactic(auto)]

use mi_call::{RealFiles, RealOut, Stop, stopped};
pub use mi_call::{mindex, one_text_has_one_history};
use mi_outside::OpenGate;
use std::io::ErrorKind;
use std::process::ExitCode;
use std::{env, io};

/// The words behind the program's name.
fn words_of(rt: &HostRuntime) -> io::Result<Vec<String>> {
    Ok(env::args(rt)?.skip(1).collect(rt.alloc())?)
}

fn main(rt: HostRuntime) -> ExitCode {
    let mut out = RealOut::new(io::writer(&rt));
    let words = match words_of(&rt) {
        Ok(words) => words,
        Err(error) if error.kind() == ErrorKind::OutOfMemory => {
            return ExitCode::from(stopped(Stop::Memory, &mut out).number());
        }
        // Words that can't be had as text are no words, which no command is.
        Err(_) => Vec::new(rt.alloc()),
    };
    let mut files = RealFiles::new(&rt);
    let status = mindex(
        &rt,
        rt.alloc(),
        words.as_slice(),
        &mut files,
        &mut out,
        &OpenGate::new(),
    );
    ExitCode::from(status)
}
