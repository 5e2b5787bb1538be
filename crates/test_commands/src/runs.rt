//! The command that runs scripts in threads. One script alone is served in its order, so that its
//! text is that of its replay.

use super::calls::{PLANE, USAGE};
use mi_call::mindex;
use mi_outside::{MemoryFiles, MemorySink, OpenGate};
use mi_plain::words_of;
use std::test::Fail;

/// Scripts and their transcripts.
static RUNS: [(&str, &str); 3] = [
    (
        "insert,7,0,0\ninsert,9,3,4\nrange,6,0,0\n",
        "session,0\nstored,1\nstored,2\nrange,2,0,1,1,2\n0,7\nhistory,2,0\ninsert,0,1,7,0,0\ninsert,0,2,9,3,4\ncells,1\n-,2\nentries,2\npages,1,4\n",
    ),
    (
        "insert,7,0,0\ndelete,7\ndelete,7\ninsert,7,5,5\n",
        "session,0\nstored,1\nremoved,2\nabsent,2,0\nstored,3\nhistory,3,0\ninsert,0,1,7,0,0\ndelete,0,2,7\ninsert,0,4,7,5,5\ncells,1\n-,1\nentries,1\npages,1,4\n",
    ),
    (
        "nearest,1,0,0\ninsert,5,1,1\ninsert,6,2,2\nnearest,5,0,0\n",
        "session,0\nnearest,0,0,0,0\nstored,1\nstored,2\nnearest,2,0,2,1\n2,5\n4,6\nhistory,2,0\ninsert,0,2,5,1,1\ninsert,0,3,6,2,2\ncells,1\n-,2\nentries,2\npages,1,4\n",
    ),
];

/// Words whose files aren't run, the status, and the whole text.
static REFUSED: [(&[&str], u8, &str); 9] = [
    (&["run", "bad", "none"], 2, "fault,0,1,word\n"),
    (&["run", "table", "bad"], 2, "fault,0,0,diagonal,1\n"),
    (&["run", "settings", "bad", "none"], 3, "fault,1,1,word\n"),
    (&["run", "settings", "script", "bad"], 3, "fault,2,1,word\n"),
    (&["run", "none", "bad"], 4, "unread,0\n"),
    (&["run", "settings", "script", "none"], 4, "unread,2\n"),
    (&["run"], 1, USAGE),
    (&["run", "settings"], 1, USAGE),
    (
        &[
            "run", "settings", "script", "script", "script", "script", "script", "script",
            "script", "script", "script", "script", "script", "script", "script", "script",
            "script", "script", "script",
        ],
        1,
        USAGE,
    ),
];

#[test]
fn a_script_in_a_thread_has_its_transcript(rt: HostRuntime) -> Result<(), Fail> {
    let alloc = rt.alloc();
    let gate = OpenGate::new();
    for (script, text) in &RUNS {
        let mut files = MemoryFiles::new(alloc, &[])?;
        files.add(alloc, "settings", PLANE)?;
        files.add(alloc, "script", script.as_bytes())?;
        let words = words_of(alloc, &["run", "settings", "script"])?;
        let mut out = MemorySink::new(alloc, 1000, &[], 1000)?;
        let status = mindex(&rt, alloc, words.as_slice(), &mut files, &mut out, &gate);
        assert_eq!(rt; out.bytes(), text.as_bytes(), "{script}");
        assert_eq!(rt; status, 0, "{script}");
    }
    Ok(())
}

#[test]
fn what_is_refused_is_not_run(rt: HostRuntime) -> Result<(), Fail> {
    let alloc = rt.alloc();
    let gate = OpenGate::new();
    let table = b"metric,table\ndims,1\nrow,0,1\nrow,1,1\nlevels,0\ncell,4\nupdates,8\npages,4\n";
    for (case, told, text) in &REFUSED {
        let mut files = MemoryFiles::new(alloc, &[])?;
        files.add(alloc, "settings", PLANE)?;
        files.add(alloc, "table", table)?;
        files.add(alloc, "script", b"insert,7,0,0\n")?;
        files.add(alloc, "bad", b"x\n")?;
        let words = words_of(alloc, case)?;
        let mut out = MemorySink::new(alloc, 1000, &[], 1000)?;
        let status = mindex(&rt, alloc, words.as_slice(), &mut files, &mut out, &gate);
        assert_eq!(rt; out.bytes(), text.as_bytes(), "{text}");
        assert_eq!(rt; status, *told, "{text}");
    }
    Ok(())
}
