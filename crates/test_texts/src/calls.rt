//! Calls that replay one script, and their files.

use mi_call::replay_call;
use mi_outside::{MemoryFiles, MemorySink};
use mi_plain::words_of;
use std::alloc::Global;
use std::process::Abort;
use std::test::Fail;

pub const PLANE: &[u8] = b"metric,l1\ndims,2\nlevels,0\ncell,4\nupdates,8\npages,4\n";

pub fn files_of(
    alloc: Global,
    settings: &[u8],
    schedule: &[u8],
    script: &[u8],
    fails: &[u64],
) -> Result<MemoryFiles, Fail> {
    let mut files = MemoryFiles::new(alloc, fails)?;
    files.add(alloc, "settings", settings)?;
    files.add(alloc, "schedule", schedule)?;
    files.add(alloc, "script", script)?;
    Ok(files)
}

pub fn replay_words(alloc: Global) -> Result<Vec<String>, Fail> {
    words_of(alloc, &["replay", "settings", "schedule", "script"])
}

/// The text of a script that is replayed with status 0.
pub fn check_replay(
    rt: &impl Abort,
    alloc: Global,
    settings: &[u8],
    script: &str,
) -> Result<MemorySink, Fail> {
    let words = replay_words(alloc)?;
    let mut files = files_of(alloc, settings, b"", script.as_bytes(), &[])?;
    let mut out = MemorySink::new(alloc, 1000, &[], 10_000)?;
    let status = replay_call(alloc, words.as_slice(), &mut files, &mut out);
    assert_eq!(rt; status, 0, "{script}");
    Ok(out)
}
