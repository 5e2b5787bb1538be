//! Scripts and their transcripts, worked out by hand.

use super::calls::{PLANE, check_replay, replay_words};
use mi_call::replay_call;
use mi_outside::{SteadyFiles, SteadySink};
use std::alloc::Global;
use std::test::Fail;

/// Settings, script and transcript.
static TRANSCRIPTS: [(&[u8], &str, &str); 17] = [
    // under L1 without pivots
    (
        PLANE,
        "",
        "session,0\nhistory,0,0\ncells,1\n-,0\nentries,0\npages,1,4\n",
    ),
    (
        PLANE,
        "insert,7,0,0\ndelete,7\ndelete,7\ninsert,7,5,5\n",
        "session,0\nstored,1\nremoved,2\nabsent,2,0\nstored,3\nhistory,3,0\ninsert,0,1,7,0,0\ndelete,0,2,7\ninsert,0,4,7,5,5\ncells,1\n-,1\nentries,1\npages,1,4\n",
    ),
    (
        b"metric,l1\ndims,2\nlevels,0\ncell,4\nupdates,2\npages,4\n",
        "insert,1,0,0\ninsert,2,1,0\ninsert,3,2,0\ndelete,9\ndelete,1\nrange,0,1,0\n",
        "session,0\nstored,1\nstored,2\nfull,2\nabsent,2,0\nfull,2\nrange,2,0,1,1,2\n0,2\nhistory,2,0\ninsert,0,1,1,0,0\ninsert,0,2,2,1,0\ncells,1\n-,2\nentries,2\npages,1,4\n",
    ),
    // leaves that are empty, and that are split
    (
        b"metric,l1\ndims,1\npivot,0\npivot,10\npivot,20\npivot,30\nlevels,4\ncell,1\nupdates,64\npages,40\n",
        "insert,1,1\ninsert,2,2\ninsert,3,3\ninsert,4,4\ninsert,5,0\n",
        "session,0\nstored,1\nstored,2\nstored,3\nstored,4\nstored,5\nhistory,5,3\ninsert,0,1,1,1\ninsert,0,2,2,2\nsplit,0\ninsert,0,3,3,3\ninsert,0,4,4,4\nsplit,0.1\nsplit,0.1.2\ninsert,0,5,5,0\ncells,7\n0.1.2.3,5\n0.1.3,0\n0.2,0\n0.3,0\n1,0\n2,0\n3,0\nentries,5\npages,1,40\n",
    ),
    (
        b"metric,l1\ndims,1\npivot,0\npivot,10\npivot,20\nlevels,3\ncell,1\nupdates,64\npages,40\n",
        "insert,1,1\ninsert,2,2\ninsert,3,3\n",
        "session,0\nstored,1\nstored,2\nstored,3\nhistory,3,2\ninsert,0,1,1,1\ninsert,0,2,2,2\nsplit,0\ninsert,0,3,3,3\nsplit,0.1\ncells,4\n0.1.2,3\n0.2,0\n1,0\n2,0\nentries,3\npages,1,40\n",
    ),
    // queries under pivots
    (
        b"metric,l1\ndims,1\npivot,0\npivot,10\nlevels,2\ncell,2\nupdates,64\npages,40\n",
        "insert,1,1\ninsert,2,2\ninsert,3,3\nrange,5,2\ndelete,2\nrange,1,2\n",
        "session,0\nstored,1\nstored,2\nstored,3\nrange,3,1,3,1,5\n0,2\n1,1\n1,3\nremoved,4\nrange,4,1,2,1,4\n1,1\n1,3\nhistory,4,1\ninsert,0,1,1,1\ninsert,0,2,2,2\ninsert,0,3,3,3\nsplit,0\ndelete,0,5,2\ncells,2\n0.1,2\n1,0\nentries,2\npages,1,40\n",
    ),
    // queries: under L1 without pivots
    (
        PLANE,
        "insert,7,0,0\ninsert,9,3,4\nrange,6,0,0\n",
        "session,0\nstored,1\nstored,2\nrange,2,0,1,1,2\n0,7\nhistory,2,0\ninsert,0,1,7,0,0\ninsert,0,2,9,3,4\ncells,1\n-,2\nentries,2\npages,1,4\n",
    ),
    (
        PLANE,
        "range,5,0,0\ninsert,7,0,0\nrange,0,0,0\n",
        "session,0\nrange,0,0,0,0,0\nstored,1\nrange,1,0,1,1,1\n0,7\nhistory,1,0\ninsert,0,2,7,0,0\ncells,1\n-,1\nentries,1\npages,1,4\n",
    ),
    (
        PLANE,
        "insert,7,0,0\ninsert,7,1,1\nrange,0,0,0\n",
        "session,0\nstored,1\npresent,1,0\nrange,1,0,1,1,1\n0,7\nhistory,1,0\ninsert,0,1,7,0,0\ncells,1\n-,1\nentries,1\npages,1,4\n",
    ),
    (
        PLANE,
        "\"insert\",7,+0,-00\r\n\r\nrange,2147483647,1,1",
        "session,0\nstored,1\nrange,1,0,1,1,1\n2,7\nhistory,1,0\ninsert,0,1,7,0,0\ncells,1\n-,1\nentries,1\npages,1,4\n",
    ),
    (
        PLANE,
        "insert,3,0,-1\ninsert,1,-1,0\nrange,1,0,0\n",
        "session,0\nstored,1\nstored,2\nrange,2,0,2,1,2\n1,1\n1,3\nhistory,2,0\ninsert,0,1,3,0,-1\ninsert,0,2,1,-1,0\ncells,1\n-,2\nentries,2\npages,1,4\n",
    ),
    // under the other metrics
    (
        b"metric,max\ndims,2\nlevels,0\ncell,4\nupdates,8\npages,4\n",
        "insert,7,0,0\ninsert,9,3,4\nrange,4,0,0\n",
        "session,0\nstored,1\nstored,2\nrange,2,0,2,1,2\n0,7\n4,9\nhistory,2,0\ninsert,0,1,7,0,0\ninsert,0,2,9,3,4\ncells,1\n-,2\nentries,2\npages,1,4\n",
    ),
    (
        b"metric,hamming\ndims,2\nlevels,0\ncell,4\nupdates,8\npages,4\n",
        "insert,7,0,0\ninsert,9,3,4\nrange,1,0,0\n",
        "session,0\nstored,1\nstored,2\nrange,2,0,1,1,2\n0,7\nhistory,2,0\ninsert,0,1,7,0,0\ninsert,0,2,9,3,4\ncells,1\n-,2\nentries,2\npages,1,4\n",
    ),
    (
        b"metric,table\ndims,1\nrow,0,1,2\nrow,1,0,1\nrow,2,1,0\nlevels,0\ncell,4\nupdates,8\npages,4\n",
        "insert,1,0\ninsert,2,2\nrange,1,1\n",
        "session,0\nstored,1\nstored,2\nrange,2,0,2,1,2\n1,1\n1,2\nhistory,2,0\ninsert,0,1,1,0\ninsert,0,2,2,2\ncells,1\n-,2\nentries,2\npages,1,4\n",
    ),
    // an object as far from one pivot as from the other
    (
        b"metric,l1\ndims,1\npivot,0\npivot,10\nlevels,2\ncell,4\nupdates,64\npages,40\n",
        "insert,5,5\n",
        "session,0\nstored,1\nhistory,1,0\ninsert,0,1,5,5\ncells,2\n0,1\n1,0\nentries,1\npages,1,40\n",
    ),
    // queries with pivots
    (
        b"metric,l1\ndims,1\npivot,0\npivot,10\nlevels,2\ncell,4\nupdates,64\npages,40\n",
        "insert,1,18\nrange,3,2\nrange,2,2\n",
        "session,0\nstored,1\nrange,1,0,0,1,2\nrange,1,0,0,0,2\nhistory,1,0\ninsert,0,1,1,18\ncells,2\n0,0\n1,1\nentries,1\npages,1,40\n",
    ),
    (
        b"metric,l1\ndims,1\npivot,0\npivot,10\nlevels,2\ncell,4\nupdates,64\npages,40\n",
        "insert,1,1\ninsert,2,2\ninsert,3,3\ninsert,4,4\ninsert,9,9\nrange,1,2\n",
        "session,0\nstored,1\nstored,2\nstored,3\nstored,4\nstored,5\nrange,5,0,3,1,5\n0,2\n1,1\n1,3\nhistory,5,0\ninsert,0,1,1,1\ninsert,0,2,2,2\ninsert,0,3,3,3\ninsert,0,4,4,4\ninsert,0,5,9,9\ncells,2\n0,4\n1,1\nentries,5\npages,1,40\n",
    ),
];

#[test]
fn scripts_have_their_transcripts(rt: HostRuntime) -> Result<(), Fail> {
    for (settings, script, text) in &TRANSCRIPTS {
        let out = check_replay(&rt, rt.alloc(), settings, script)?;
        assert_eq!(rt; out.bytes(), text.as_bytes(), "{script}");
    }
    Ok(())
}

/// So many coordinates after commas.
fn corner(alloc: Global, coordinate: &str) -> Result<String, Fail> {
    let mut text = String::new(alloc);
    for _ in 0..64 {
        text.push_str(",")?;
        text.push_str(coordinate)?;
    }
    Ok(text)
}

fn between(alloc: Global, before: &str, middle: &str, after: &str) -> Result<String, Fail> {
    let mut text = String::new(alloc);
    text.push_str(before)?;
    text.push_str(middle)?;
    text.push_str(after)?;
    Ok(text)
}

#[test]
fn the_greatest_distance_and_identifier_are_answered(rt: HostRuntime) -> Result<(), Fail> {
    let alloc = rt.alloc();
    let far = corner(alloc, "1000000")?;
    let near = corner(alloc, "-1000000")?;
    let sizes = "\nlevels,1\ncell,4\nupdates,8\npages,4\n";
    let settings = between(alloc, "metric,l1\ndims,64\npivot", far.as_str(), sizes)?;
    let insert = between(alloc, "insert,1099511627775", near.as_str(), "\n")?;
    let range = between(alloc, "range,0", near.as_str(), "\n")?;
    let script = between(alloc, insert.as_str(), range.as_str(), "")?;
    let replies =
        "session,0\nstored,1\nrange,1,0,1,1,2\n0,1099511627775\nhistory,1,0\ninsert,0,1,1099511627775";
    let end = "\ncells,1\n0,1\nentries,1\npages,1,4\n";
    let text = between(alloc, replies, near.as_str(), end)?;
    let out = check_replay(&rt, alloc, settings.as_bytes(), script.as_str())?;
    assert_eq!(rt; out.bytes(), text.as_bytes());
    Ok(())
}

#[test]
fn steady_files_and_a_steady_sink_serve_a_script(rt: HostRuntime) -> Result<(), Fail> {
    let alloc = rt.alloc();
    let words = replay_words(alloc)?;
    let mut files = SteadyFiles::new(alloc);
    files.add(alloc, "settings", PLANE)?;
    files.add(
        alloc,
        "script",
        b"insert,7,0,0\ninsert,9,3,4\nrange,6,0,0\n",
    )?;
    let mut out = SteadySink::new();
    let status = replay_call(alloc, words.as_slice(), &mut files, &mut out);
    assert_eq!(rt; status, 0);
    Ok(())
}
