//! Words that name a command, and words that name none.

use super::calls::{PLANE, USAGE, files_of};
use mi_call::mindex;
use mi_outside::{MemorySink, OpenGate};
use mi_plain::words_of;
use std::test::Fail;

const NEAR: &[u8] = b"insert,7,0,0\ninsert,9,3,4\nrange,7,0,0\n";

const NEAR_TEXT: &str =
    "session,0\nstored,1\nstored,2\nrange,2,0,2,1,2\n0,7\n7,9\nhistory,2,0\ninsert,0,1,7,0,0\ninsert,0,2,9,3,4\ncells,1\n-,2\nentries,2\npages,1,4\n";

#[test]
fn the_command_replays_a_script(rt: HostRuntime) -> Result<(), Fail> {
    let alloc = rt.alloc();
    let words = words_of(alloc, &["replay", "settings", "schedule", "script"])?;
    let mut files = files_of(alloc, PLANE, b"", NEAR, &[])?;
    let mut out = MemorySink::new(alloc, 1000, &[], 1000)?;
    let gate = OpenGate::new();
    let status = mindex(&rt, alloc, words.as_slice(), &mut files, &mut out, &gate);
    assert_eq!(rt; status, 0);
    assert_eq!(rt; out.bytes(), NEAR_TEXT.as_bytes());
    Ok(())
}

#[test]
fn other_words_have_the_usage_line(rt: HostRuntime) -> Result<(), Fail> {
    let alloc = rt.alloc();
    let none: &[&str] = &[];
    let cases: [&[&str]; 9] = [
        none,
        &["choose"],
        &["choose", "settings", "script"],
        &["choose", "settings", "script", "33"],
        &["replay"],
        &["replay", "a", "b"],
        &["Run", "a", "b", "c"],
        &["make", "1", "b", "c"],
        &["Replay", "a", "b", "c"],
    ];
    for case in cases {
        let words = words_of(alloc, case)?;
        let mut files = files_of(alloc, PLANE, b"", NEAR, &[])?;
        let mut out = MemorySink::new(alloc, 1000, &[], 1000)?;
        let gate = OpenGate::new();
        let status = mindex(&rt, alloc, words.as_slice(), &mut files, &mut out, &gate);
        assert_eq!(rt; status, 1);
        assert_eq!(rt; out.bytes(), USAGE.as_bytes());
    }
    Ok(())
}
