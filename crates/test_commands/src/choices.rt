//! Choices of pivots and their texts, worked out by hand.

use super::calls::{USAGE, files_of};
use mi_call::choose_call;
use mi_outside::{MemoryFiles, MemorySink};
use mi_plain::words_of;
use std::alloc::Global;
use std::test::Fail;

const LINE: &[u8] = b"metric,l1\ndims,1\nlevels,0\ncell,4\nupdates,8\npages,4\n";

const FOUR: &[u8] = b"insert,1,0\ninsert,2,10\ninsert,3,4\ninsert,4,7\n";

/// Settings, script, count, status and text: choices, other records and repeats among the objects,
/// counts that are none, and files that are not of their form.
static CHOICES: [(&[u8], &[u8], &str, u8, &str); 15] = [
    (LINE, FOUR, "2", 0, "pivot,0\npivot,10\ncover,4\napart,4\n"),
    (
        LINE,
        FOUR,
        "4",
        0,
        "pivot,0\npivot,10\npivot,4\npivot,7\ncover,0\napart,0\n",
    ),
    (LINE, FOUR, "1", 0, "pivot,0\ncover,10\napart,10\n"),
    (LINE, b"", "3", 0, "cover,0\napart,0\n"),
    (
        LINE,
        b"range,5,-9\ninsert,1,6\nnearest,1,99\ninsert,1,6\ndelete,1\ninsert,2,-1\n",
        "+032",
        0,
        "pivot,6\npivot,-1\ncover,0\napart,0\n",
    ),
    (
        b"metric,max\ndims,2\npivot,9,9\nlevels,1\ncell,4\nupdates,1\npages,4\n",
        b"insert,1,3,0\ninsert,2,0,3\ninsert,3,3,3\ninsert,4,-1,0\n",
        "2",
        0,
        "pivot,3,0\npivot,-1,0\ncover,3\napart,3\n",
    ),
    (
        b"metric,table\ndims,1\nrow,0,1,2\nrow,1,0,1\nrow,2,1,0\nlevels,0\ncell,4\nupdates,8\npages,4\n",
        b"insert,1,1\ninsert,2,0\ninsert,3,2\n",
        "2",
        0,
        "pivot,1\npivot,0\ncover,1\napart,1\n",
    ),
    (LINE, FOUR, "0", 1, USAGE),
    (LINE, FOUR, "33", 1, USAGE),
    (LINE, FOUR, "-1", 1, USAGE),
    (LINE, b"x", "two", 1, USAGE),
    (b"x", b"x", "2", 2, "fault,0,1,word\n"),
    (
        b"metric,table\ndims,1\nrow,0,1\nrow,2,0\nlevels,0\ncell,4\nupdates,8\npages,4\n",
        b"x",
        "2",
        2,
        "fault,0,0,asymmetric,0,1\n",
    ),
    (
        LINE,
        b"insert,1,0\ninsert,2,0,0\n",
        "2",
        3,
        "fault,1,2,fields\n",
    ),
    (
        LINE,
        b"insert,1,0\nupdate,2,0\n",
        "2",
        3,
        "fault,1,2,word\n",
    ),
];

/// The status of a call on these files, and what it wrote.
fn chosen(
    alloc: Global,
    count: &str,
    files: &mut MemoryFiles,
    fails: &[u64],
) -> Result<(u8, MemorySink), Fail> {
    let words = words_of(alloc, &["choose", "settings", "script", count])?;
    let mut out = MemorySink::new(alloc, 8, fails, 1000)?;
    let status = choose_call(alloc, words.as_slice(), files, &mut out);
    Ok((status, out))
}

#[test]
fn choices_have_their_texts(rt: HostRuntime) -> Result<(), Fail> {
    let alloc = rt.alloc();
    for (settings, script, count, status, text) in &CHOICES {
        let mut files = files_of(alloc, settings, b"x", script, &[])?;
        let (number, out) = chosen(alloc, count, &mut files, &[])?;
        assert_eq!(rt; out.bytes(), text.as_bytes());
        assert_eq!(rt; number, *status, "{text}");
    }
    Ok(())
}

#[test]
fn each_failed_read_and_write_of_a_choice_is_told(rt: HostRuntime) -> Result<(), Fail> {
    let alloc = rt.alloc();
    for (place, text) in ["unread,0\n", "unread,1\n"].iter().enumerate() {
        let mut files = files_of(alloc, LINE, b"", FOUR, &[place as u64 + 1])?;
        let (number, out) = chosen(alloc, "2", &mut files, &[])?;
        assert_eq!(rt; number, 4);
        assert_eq!(rt; out.bytes(), text.as_bytes());
    }
    // The lines go out in five writes of at most 8 bytes; each of them fails in turn.
    let text: &[u8] = b"pivot,0\npivot,10\ncover,4\napart,4\n";
    for write in 1..6u64 {
        let mut files = files_of(alloc, LINE, b"", FOUR, &[])?;
        let (number, out) = chosen(alloc, "2", &mut files, &[write])?;
        assert_eq!(rt; number, 5, "write {write}");
        assert!(rt; text.starts_with(out.bytes()), "write {write}");
        assert!(rt; out.bytes().len() < text.len(), "write {write}");
    }
    Ok(())
}
