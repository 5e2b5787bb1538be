//! What the calls of several commands share.

use mi_outside::MemoryFiles;
use std::alloc::Global;
use std::test::Fail;

pub const PLANE: &[u8] = b"metric,l1\ndims,2\nlevels,0\ncell,4\nupdates,8\npages,4\n";

pub const USAGE: &str =
    "usage: mindex replay SETTINGS SCHEDULE SCRIPT... | run SETTINGS SCRIPT... | make SEED | choose SETTINGS SCRIPT COUNT\n";

pub fn files_of(
    alloc: Global,
    settings: &[u8],
    schedule: &[u8],
    script: &[u8],
    fails: &[u64],
) -> Result<MemoryFiles, Fail> {
    let mut files = MemoryFiles::new(alloc, fails)?;
    files.add(alloc, "settings", settings)?;
    files.add(alloc, "schedule", schedule)?;
    files.add(alloc, "script", script)?;
    Ok(files)
}
