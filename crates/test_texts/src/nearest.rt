//! Scripts with queries for the nearest and their replies, worked out by hand.

use super::calls::{PLANE, check_replay};
use std::alloc::Global;
use std::process::Abort;
use std::test::Fail;

/// Settings, script and the lines of the replies, up to the history. The first three are without
/// pivots, among them an index where no object was put yet, and one whose objects are all gone.
/// Then come leaves that are opened where their bound is the last row's distance and not where it
/// is greater by one: by the hull, by half of an odd difference, and by the second pivot of a
/// prefix. Where there are too few objects, the leaves are opened that ever had one. The last three
/// have the other metrics.
static NEAREST_CASES: [(&[u8], &str, &str); 11] = [
    (
        PLANE,
        "insert,4,1,0\ninsert,3,0,1\ninsert,2,-1,0\ninsert,1,0,-1\nnearest,2,0,0\n",
        "session,0\nstored,1\nstored,2\nstored,3\nstored,4\nnearest,4,0,2,1\n1,1\n1,2\nhistory,",
    ),
    (
        PLANE,
        "nearest,1,0,0\ninsert,5,1,1\ninsert,6,2,2\nnearest,5,0,0\n",
        "session,0\nnearest,0,0,0,0\nstored,1\nstored,2\nnearest,2,0,2,1\n2,5\n4,6\nhistory,",
    ),
    (
        PLANE,
        "insert,7,0,0\ndelete,7\nnearest,1,3,3\n",
        "session,0\nstored,1\nremoved,2\nnearest,2,0,0,1\nhistory,",
    ),
    (
        b"metric,l1\ndims,1\npivot,0\npivot,10\nlevels,2\ncell,4\nupdates,64\npages,40\n",
        "insert,1,1\ninsert,2,2\ninsert,3,3\ninsert,4,4\ninsert,9,9\nnearest,2,2\n",
        "session,0\nstored,1\nstored,2\nstored,3\nstored,4\nstored,5\nnearest,5,0,2,1\n0,2\n1,1\nhistory,",
    ),
    (
        b"metric,l1\ndims,1\npivot,0\npivot,10\npivot,20\nlevels,1\ncell,4\nupdates,64\npages,40\n",
        "nearest,1,0\ninsert,1,1\ninsert,2,9\ndelete,2\nnearest,5,0\nnearest,1,0\n",
        "session,0\nnearest,0,0,0,0\nstored,1\nstored,2\nremoved,3\nnearest,3,0,1,2\n1,1\nnearest,3,0,1,1\n1,1\nhistory,",
    ),
    (
        b"metric,l1\ndims,1\npivot,0\npivot,10\npivot,20\nlevels,1\ncell,4\nupdates,64\npages,40\n",
        "insert,9,2\ninsert,5,3\ninsert,1,6\ninsert,3,18\nnearest,2,4\nnearest,1,4\n",
        "session,0\nstored,1\nstored,2\nstored,3\nstored,4\nnearest,4,0,2,2\n1,5\n2,1\nnearest,4,0,1,1\n1,5\nhistory,",
    ),
    (
        b"metric,l1\ndims,1\npivot,0\npivot,9\nlevels,1\ncell,4\nupdates,64\npages,40\n",
        "insert,9,-1\ninsert,1,5\ninsert,2,14\nnearest,1,2\ninsert,8,0\nnearest,1,2\nnearest,2,2\n",
        "session,0\nstored,1\nstored,2\nstored,3\nnearest,3,0,1,2\n3,1\nstored,4\nnearest,4,0,1,1\n2,8\nnearest,4,0,2,2\n2,8\n3,1\nhistory,",
    ),
    (
        b"metric,l1\ndims,1\npivot,-10\npivot,0\npivot,10\nlevels,2\ncell,1\nupdates,64\npages,40\n",
        "insert,7,-4\ninsert,5,-1\ninsert,3,1\ninsert,8,0\nnearest,2,-3\nnearest,3,-3\n",
        "session,0\nstored,1\nstored,2\nstored,3\nstored,4\nnearest,4,1,2,1\n1,7\n2,5\nnearest,4,1,3,2\n1,7\n2,5\n3,8\nhistory,",
    ),
    (
        b"metric,max\ndims,2\nlevels,0\ncell,4\nupdates,8\npages,4\n",
        "insert,7,0,0\ninsert,9,3,3\ninsert,8,4,0\nnearest,2,0,0\n",
        "session,0\nstored,1\nstored,2\nstored,3\nnearest,3,0,2,1\n0,7\n3,9\nhistory,",
    ),
    (
        b"metric,hamming\ndims,3\npivot,0,0,0\npivot,1,1,1\nlevels,1\ncell,4\nupdates,8\npages,4\n",
        "insert,6,0,0,0\ninsert,5,1,1,1\ninsert,4,0,1,1\nnearest,1,0,0,1\n",
        "session,0\nstored,1\nstored,2\nstored,3\nnearest,3,0,1,2\n1,4\nhistory,",
    ),
    (
        b"metric,table\ndims,1\nrow,0,3,5\nrow,3,0,4\nrow,5,4,0\npivot,0\npivot,2\nlevels,1\ncell,4\nupdates,8\npages,4\n",
        "insert,1,1\ninsert,2,2\nnearest,1,1\nnearest,2,1\nnearest,1,0\n",
        "session,0\nstored,1\nstored,2\nnearest,2,0,1,1\n0,1\nnearest,2,0,2,2\n0,1\n4,2\nnearest,2,0,1,1\n3,1\nhistory,",
    ),
];

/// The same where objects at the last row's distance arrive by descending, ascending and mixed
/// identifiers, first without pivots.
static TIE_CASES: [(&[u8], &str, &str); 6] = [
    (
        PLANE,
        "insert,4,1,0\ninsert,3,0,1\ninsert,2,-1,0\ninsert,1,0,-1\nnearest,1,0,0\nnearest,2,0,0\nnearest,3,0,0\nnearest,9,0,0\n",
        "session,0\nstored,1\nstored,2\nstored,3\nstored,4\nnearest,4,0,1,1\n1,1\nnearest,4,0,2,1\n1,1\n1,2\nnearest,4,0,3,1\n1,1\n1,2\n1,3\nnearest,4,0,4,1\n1,1\n1,2\n1,3\n1,4\nhistory,",
    ),
    (
        PLANE,
        "insert,1,0,-1\ninsert,2,-1,0\ninsert,3,0,1\ninsert,9,0,0\nnearest,1,0,0\nnearest,2,0,0\nnearest,3,0,0\nnearest,1000000,0,0\n",
        "session,0\nstored,1\nstored,2\nstored,3\nstored,4\nnearest,4,0,1,1\n0,9\nnearest,4,0,2,1\n0,9\n1,1\nnearest,4,0,3,1\n0,9\n1,1\n1,2\nnearest,4,0,4,1\n0,9\n1,1\n1,2\n1,3\nhistory,",
    ),
    (
        PLANE,
        "insert,3,0,1\ninsert,0,3,3\ninsert,1,1,0\ninsert,4,-1,0\ninsert,2,0,-1\nnearest,1,0,0\nnearest,2,0,0\nnearest,3,0,0\nnearest,1000000,0,0\n",
        "session,0\nstored,1\nstored,2\nstored,3\nstored,4\nstored,5\nnearest,5,0,1,1\n1,1\nnearest,5,0,2,1\n1,1\n1,2\nnearest,5,0,3,1\n1,1\n1,2\n1,3\nnearest,5,0,5,1\n1,1\n1,2\n1,3\n1,4\n6,0\nhistory,",
    ),
    (
        b"metric,l1\ndims,2\npivot,-3,0\npivot,3,0\nlevels,1\ncell,4\nupdates,8\npages,4\n",
        "insert,4,-1,0\ninsert,3,0,1\ninsert,2,0,-1\ninsert,1,1,0\nnearest,1,0,0\nnearest,2,0,0\nnearest,3,0,0\nnearest,9,0,0\n",
        "session,0\nstored,1\nstored,2\nstored,3\nstored,4\nnearest,4,0,1,2\n1,1\nnearest,4,0,2,2\n1,1\n1,2\nnearest,4,0,3,2\n1,1\n1,2\n1,3\nnearest,4,0,4,2\n1,1\n1,2\n1,3\n1,4\nhistory,",
    ),
    (
        b"metric,l1\ndims,2\npivot,-3,0\npivot,3,0\nlevels,1\ncell,4\nupdates,8\npages,4\n",
        "insert,1,1,0\ninsert,2,0,-1\ninsert,3,0,1\ninsert,9,0,0\nnearest,1,0,0\nnearest,2,0,0\nnearest,3,0,0\nnearest,1000000,0,0\n",
        "session,0\nstored,1\nstored,2\nstored,3\nstored,4\nnearest,4,0,1,1\n0,9\nnearest,4,0,2,2\n0,9\n1,1\nnearest,4,0,3,2\n0,9\n1,1\n1,2\nnearest,4,0,4,2\n0,9\n1,1\n1,2\n1,3\nhistory,",
    ),
    (
        b"metric,l1\ndims,2\npivot,-3,0\npivot,3,0\npivot,0,9\nlevels,1\ncell,4\nupdates,8\npages,4\n",
        "insert,3,0,1\ninsert,0,0,9\ninsert,1,1,0\ninsert,4,-1,0\ninsert,2,0,-1\nnearest,1,0,0\nnearest,2,0,0\nnearest,3,0,0\nnearest,1000000,0,0\n",
        "session,0\nstored,1\nstored,2\nstored,3\nstored,4\nstored,5\nnearest,5,0,1,2\n1,1\nnearest,5,0,2,2\n1,1\n1,2\nnearest,5,0,3,2\n1,1\n1,2\n1,3\nnearest,5,0,5,3\n1,1\n1,2\n1,3\n1,4\n9,0\nhistory,",
    ),
];

/// Each script gives these replies, with status 0.
fn check_replies(
    rt: &impl Abort,
    alloc: Global,
    cases: &[(&[u8], &str, &str)],
) -> Result<(), Fail> {
    for (settings, script, replies) in cases {
        let out = check_replay(rt, alloc, settings, script)?;
        assert!(rt; out.bytes().starts_with(replies.as_bytes()), "{script}");
    }
    Ok(())
}

#[test]
fn the_nearest_are_opened_by_their_bounds(rt: HostRuntime) -> Result<(), Fail> {
    check_replies(&rt, rt.alloc(), &NEAREST_CASES)
}

#[test]
fn ties_go_to_the_lesser_identifier(rt: HostRuntime) -> Result<(), Fail> {
    check_replies(&rt, rt.alloc(), &TIE_CASES)
}
