//! Workloads of several sessions, under schedules and in threads, whose transcripts are held
//! against the plain program, event by event.

use mi_call::{replay_call, run_call};
use mi_outside::{Gate, GatePoint, MemoryFiles, MemorySink};
use mi_plain::{
    Asked, SETTINGS, Setting, Workload, check_transcript, drawn, script_text, settings_text,
    words_of,
};
use std::alloc::Global;
use std::process::Abort;
use std::sync::Wait;
use std::test::Fail;
use std::thread::{self, Threads};

/// The settings and the scripts as files.
fn files_of(
    alloc: Global,
    setting: &Setting,
    pages: u32,
    scripts: &[Vec<Asked>],
) -> Result<MemoryFiles, Fail> {
    let mut files = MemoryFiles::new(alloc, &[])?;
    let settings = settings_text(alloc, setting, pages)?;
    files.add(alloc, "settings", settings.as_bytes())?;
    for (session, script) in scripts.iter().enumerate() {
        let name = format!(in alloc; "script{session}")?;
        let records = script_text(alloc, script.as_slice())?;
        files.add(alloc, name.as_str(), records.as_bytes())?;
    }
    Ok(files)
}

/// These words, and the names of so many scripts behind them.
fn words_before(alloc: Global, words: &[&str], scripts: usize) -> Result<Vec<String>, Fail> {
    let mut words = words_of(alloc, words)?;
    for session in 0..scripts {
        words.push(format!(in alloc; "script{session}")?)?;
    }
    Ok(words)
}

/// Replays a workload, and holds its transcript against the plain program.
fn check_replay(
    rt: &impl Abort,
    alloc: Global,
    setting: &Setting,
    pages: u32,
    made: &Workload,
) -> Result<(), Fail> {
    let scripts = made.scripts.as_slice();
    let mut files = files_of(alloc, setting, pages, scripts)?;
    files.add(alloc, "schedule", made.schedule.as_bytes())?;
    let words = words_before(alloc, &["replay", "settings", "schedule"], scripts.len())?;
    let mut out = MemorySink::new(alloc, 1000, &[], 100_000)?;
    let status = replay_call(alloc, words.as_slice(), &mut files, &mut out);
    assert_eq!(rt; status, 0);
    check_transcript(alloc, setting, scripts, str::from_utf8(out.bytes())?)
}

/// Runs scripts in threads, and holds their transcript against the plain program.
pub(super) fn check_run<R: Abort + Threads + Wait + Sync>(
    rt: &R,
    alloc: Global,
    setting: &Setting,
    pages: u32,
    scripts: &[Vec<Asked>],
    gate: &impl Gate,
) -> Result<(), Fail> {
    let mut files = files_of(alloc, setting, pages, scripts)?;
    let words = words_before(alloc, &["run", "settings"], scripts.len())?;
    let mut out = MemorySink::new(alloc, 1000, &[], 100_000)?;
    let status = run_call(rt, alloc, words.as_slice(), &mut files, &mut out, gate);
    assert_eq!(rt; status, 0);
    check_transcript(alloc, setting, scripts, str::from_utf8(out.bytes())?)
}

/// The pages for each of the settings: too few of them for some.
const PAGES: [u32; 5] = [6, 2, 40, 7, 40];

#[test]
fn each_transcript_of_sessions_is_that_of_one_history(rt: HostRuntime) -> Result<(), Fail> {
    let alloc = rt.alloc();
    for (setting, pages) in SETTINGS.iter().zip(&PAGES) {
        for seed in 0..4u64 {
            let made = drawn(alloc, seed + 1, 70, seed)?;
            check_replay(&rt, alloc, setting, *pages, &made)?;
        }
    }
    Ok(())
}

/// At each point another thread may go on, so that operations are cut apart.
struct Yielding;

impl Gate for Yielding {
    fn pass(&self, _actor: u32, _point: GatePoint) {
        thread::yield_now();
    }
}

#[test]
fn each_transcript_of_a_run_is_that_of_one_history(rt: HostRuntime) -> Result<(), Fail> {
    let alloc = rt.alloc();
    for (setting, pages) in SETTINGS.iter().zip(&PAGES) {
        for seed in 0..6u64 {
            let made = drawn(alloc, 2 + seed % 3, 70, seed)?;
            check_run(
                &rt,
                alloc,
                setting,
                *pages,
                made.scripts.as_slice(),
                &Yielding,
            )?;
        }
    }
    Ok(())
}
