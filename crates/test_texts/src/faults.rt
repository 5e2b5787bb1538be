//! Files that are not of their form, reads and writes that fail, and their lines.

use super::calls::{PLANE, files_of, replay_words};
use mi_base::MAX_FILE_SIZE;
use mi_call::replay_call;
use mi_outside::MemorySink;
use std::test::Fail;

const NEAR: &[u8] = b"insert,7,0,0\ninsert,9,3,4\nrange,7,0,0\n";

const NEAR_TEXT: &str =
    "session,0\nstored,1\nstored,2\nrange,2,0,2,1,2\n0,7\n7,9\nhistory,2,0\ninsert,0,1,7,0,0\ninsert,0,2,9,3,4\ncells,1\n-,2\nentries,2\npages,1,4\n";

/// Files that are not of their form: settings, schedule and script, the status, and the whole text.
static FAULTS: [(&[u8], &[u8], &[u8], u8, &[u8]); 25] = [
    (
        b"metric,table\ndims,1\nrow,0,1,3\nrow,1,0,1\nrow,3,1,0\nlevels,0\ncell,4\nupdates,8\npages,4\n",
        b"x",
        b"x",
        2,
        b"fault,0,0,triangle,0,1,2\n",
    ),
    (
        b"metric,table\ndims,1\nrow,0,1,2\nrow,1,0,1\nrow,2,2,0\nlevels,0\ncell,4\nupdates,8\npages,4\n",
        b"",
        b"",
        2,
        b"fault,0,0,asymmetric,1,2\n",
    ),
    (
        b"metric,table\ndims,1\nrow,0,0\nrow,0,0\nlevels,0\ncell,4\nupdates,8\npages,4\n",
        b"",
        b"",
        2,
        b"fault,0,0,zero,0,1\n",
    ),
    (
        b"metric,table\ndims,1\nrow,0,1\nrow,1\nlevels,0\ncell,4\nupdates,8\npages,4\n",
        b"",
        b"",
        2,
        b"fault,0,0,notsquare,1\n",
    ),
    (
        b"metric,table\ndims,1\nrow,0,1\nrow,1,1\nlevels,0\ncell,4\nupdates,8\npages,4\n",
        b"",
        b"",
        2,
        b"fault,0,0,diagonal,1\n",
    ),
    (b"", b"", b"", 2, b"fault,0,1,end\n"),
    (b"\xff\xfe", b"", b"", 2, b"fault,0,1,word\n"),
    (b"metric,l1,l1\n", b"", b"", 2, b"fault,0,1,fields\n"),
    (b"metric,l1\n", b"0,op\n", b"x\n", 2, b"fault,0,2,end\n"),
    (b"metric,l1\ndims,65\n", b"", b"", 2, b"fault,0,2,range\n"),
    (b"metric,l1\ndims,x\n", b"", b"", 2, b"fault,0,2,number\n"),
    (
        b"metric,l1\r\ndims,2\r\nrow,0\r\n",
        b"",
        b"",
        2,
        b"fault,0,3,word\n",
    ),
    (
        b"metric,l1\ndims,2\npivot,0,0\nlevels,2\n",
        b"",
        b"",
        2,
        b"fault,0,4,range\n",
    ),
    (
        b"metric,l1\ndims,1\npivot,0\npivot,0\npivot,0\npivot,0\npivot,0\npivot,0\npivot,0\npivot,0\npivot,0\npivot,0\npivot,0\npivot,0\npivot,0\npivot,0\npivot,0\npivot,0\npivot,0\npivot,0\npivot,0\npivot,0\npivot,0\npivot,0\npivot,0\npivot,0\npivot,0\npivot,0\npivot,0\npivot,0\npivot,0\npivot,0\npivot,0\npivot,0\npivot,0\n",
        b"",
        b"",
        2,
        b"fault,0,35,limit\n",
    ),
    (
        b"metric,l1\ndims,2\nlevels,0\ncell,4\nupdates,8\npages,4\npages,4\n",
        b"",
        b"",
        2,
        b"fault,0,7,extra\n",
    ),
    (PLANE, b"1,op\n", b"x\n", 3, b"fault,1,1,range\n"),
    (PLANE, b"\n\"\"\n", b"", 3, b"fault,1,1,word\n"),
    (PLANE, b"", b"x", 3, b"fault,2,1,word\n"),
    (
        PLANE,
        b"",
        b"insert,7,0,0\ninsert,9,3",
        3,
        b"fault,2,2,fields\n",
    ),
    (
        PLANE,
        b"",
        b"insert,1,0,0\n\n\ninsert,2,x,0\n",
        3,
        b"fault,2,2,number\n",
    ),
    (
        PLANE,
        b"",
        b"insert,000000000000000000001,0,0\n",
        3,
        b"fault,2,1,number\n",
    ),
    (
        PLANE,
        b"",
        b"insert,1099511627776,0,0\n",
        3,
        b"fault,2,1,range\n",
    ),
    (PLANE, b"", b"delete,1\rdelete\r", 3, b"fault,2,2,fields\n"),
    (PLANE, b"", b"nearest,0,0,0\n", 3, b"fault,2,1,range\n"),
    (PLANE, b"", b"\"delete,1\n", 3, b"fault,2,1,word\n"),
];

#[test]
fn each_fault_has_its_line(rt: HostRuntime) -> Result<(), Fail> {
    let alloc = rt.alloc();
    let words = replay_words(alloc)?;
    for (settings, schedule, script, status, text) in &FAULTS {
        let mut files = files_of(alloc, settings, schedule, script, &[])?;
        let mut out = MemorySink::new(alloc, 7, &[], 1000)?;
        let told = replay_call(alloc, words.as_slice(), &mut files, &mut out);
        assert_eq!(rt; out.bytes(), *text);
        assert_eq!(rt; told, *status);
    }
    Ok(())
}

#[test]
fn a_file_above_the_bound_is_too_large(rt: HostRuntime) -> Result<(), Fail> {
    let alloc = rt.alloc();
    let words = replay_words(alloc)?;
    let cases = [
        (MAX_FILE_SIZE, "fault,2,1,word\n"),
        (MAX_FILE_SIZE + 1, "fault,2,0,large\n"),
    ];
    for (bytes, text) in cases {
        let script = vec![in alloc; b'x'; bytes]?;
        let mut files = files_of(alloc, PLANE, b"", b"", &[])?;
        files.add(alloc, "script", script.as_slice())?;
        let mut out = MemorySink::new(alloc, 100, &[], 100)?;
        let status = replay_call(alloc, words.as_slice(), &mut files, &mut out);
        assert_eq!(rt; status, 3);
        assert_eq!(rt; out.bytes(), text.as_bytes());
    }
    Ok(())
}

#[test]
fn each_failed_read_and_write_is_told(rt: HostRuntime) -> Result<(), Fail> {
    let alloc = rt.alloc();
    let words = replay_words(alloc)?;
    let unread = ["unread,0\n", "unread,1\n", "unread,2\n"];
    for (place, text) in unread.iter().enumerate() {
        let mut files = files_of(alloc, PLANE, b"", NEAR, &[place as u64 + 1])?;
        let mut out = MemorySink::new(alloc, 8, &[], 1000)?;
        let status = replay_call(alloc, words.as_slice(), &mut files, &mut out);
        assert_eq!(rt; status, 4);
        assert_eq!(rt; out.bytes(), text.as_bytes());
    }
    // 24 writes of at most 8 bytes send the text; each of them fails in turn.
    for write in 1..25u64 {
        let mut files = files_of(alloc, PLANE, b"", NEAR, &[])?;
        let mut out = MemorySink::new(alloc, 8, &[write], 1000)?;
        let status = replay_call(alloc, words.as_slice(), &mut files, &mut out);
        let sent = out.bytes();
        assert_eq!(rt; status, 5, "write {write}");
        assert!(rt; NEAR_TEXT.as_bytes().starts_with(sent), "write {write}");
        assert!(rt; sent.len() as u64 <= 8 * (write - 1), "write {write}");
    }
    Ok(())
}
