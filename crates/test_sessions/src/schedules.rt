//! Scripts of several sessions after schedules, and pages that are few.

use mi_call::replay_call;
use mi_outside::{MemoryFiles, MemorySink};
use mi_plain::{Lines, text_of, words_of};
use std::alloc::Global;
use std::test::Fail;

/// Settings, a schedule and scripts with the whole text of their replay, whose status is 0.
struct Case {
    shows: &'static str,
    settings: &'static str,
    schedule: Lines,
    scripts: &'static [Lines],
    text: Lines,
}

/// Two pivots at a distance of 10.
const TWO_PIVOTS: &str =
    "metric,l1\ndims,1\npivot,0\npivot,10\nlevels,2\ncell,2\nupdates,64\npages,40\n";

const PLANE: &str = "metric,l1\ndims,2\nlevels,0\ncell,4\nupdates,8\npages,4\n";

const SIXTEEN_PAGES: &str = "metric,l1\ndims,1\nlevels,0\ncell,4\nupdates,64\npages,16\n";

const ONE_PAGE: &str = "metric,l1\ndims,1\nlevels,0\ncell,4\nupdates,64\npages,1\n";

/// Two pivots, cells of 7, 11 and 20 objects, and one page.
const SEVEN: &str = "metric,l1\ndims,1\npivot,0\npivot,10\nlevels,2\ncell,7\nupdates,64\npages,1\n";

pub(super) const ELEVEN: &str =
    "metric,l1\ndims,1\npivot,0\npivot,10\nlevels,2\ncell,11\nupdates,64\npages,1\n";

const TWENTY: &str =
    "metric,l1\ndims,1\npivot,0\npivot,10\nlevels,2\ncell,20\nupdates,64\npages,1\n";

/// Inserts that all fall into one leaf.
pub(super) const ONE_LEAF: Lines = &[("insert,#,1\n", 1, 32)];

/// The text of these inserts where the leaf was split and swept between the twelfth and the next.
pub(super) const SWEPT_TEXT: Lines = &[
    ("session,0\n", 1, 1),
    ("stored,#\n", 1, 32),
    ("history,32,1\n", 1, 1),
    ("insert,0,#,#,1\n", 1, 12),
    ("split,0\n", 1, 1),
    ("insert,0,#,#,1\n", 13, 32),
    ("cells,2\n0.1,32\n1,0\nentries,32\npages,1,1\n", 1, 1),
];

static CASES: [Case; 13] = [
    Case {
        shows: "a query answers from the cells that it pinned, while their leaf is split",
        settings: TWO_PIVOTS,
        schedule: &[
            ("0,op\n", 1, 3),
            ("0,1\n", 1, 1),
            ("splitter,op\n", 1, 2),
            ("0,op\n", 1, 1),
        ],
        scripts: &[&[("insert,#,#\n", 1, 3), ("range,5,2\n", 1, 1)]],
        text: &[
            ("session,0\n", 1, 1),
            ("stored,#\n", 1, 3),
            ("range,3,0,3,1,5\n0,2\n1,1\n1,3\nhistory,3,1\n", 1, 1),
            ("insert,0,#,#,#\n", 1, 3),
            (
                "split,0\ncells,2\n0.1,3\n1,0\nentries,3\npages,1,40\n",
                1,
                1,
            ),
        ],
    },
    Case {
        shows: "a later query sees the delete that the pinned one doesn't",
        settings: TWO_PIVOTS,
        schedule: &[
            ("0,op\n", 1, 3),
            ("0,1\nsplitter,op\n1,op\n0,op\n1,op\n", 1, 1),
        ],
        scripts: &[
            &[("insert,#,#\n", 1, 3), ("range,5,2\n", 1, 1)],
            &[("delete,2\nrange,5,2\n", 1, 1)],
        ],
        text: &[
            ("session,0\n", 1, 1),
            ("stored,#\n", 1, 3),
            ("range,3,0,3,1,5\n0,2\n1,1\n1,3\n", 1, 1),
            ("session,1\nremoved,4\nrange,4,1,2,1,4\n1,1\n1,3\n", 1, 1),
            ("history,4,1\n", 1, 1),
            ("insert,0,#,#,#\n", 1, 3),
            ("split,0\ndelete,1,1,2\n", 1, 1),
            ("cells,2\n0.1,2\n1,0\nentries,2\npages,1,40\n", 1, 1),
        ],
    },
    Case {
        shows: "a query reads on to the right, where the page that it comes to is halved",
        settings: SIXTEEN_PAGES,
        schedule: &[("0,op\n", 1, 33), ("0,3\n", 1, 1), ("1,op\n", 1, 16)],
        scripts: &[
            &[("insert,#,#\n", 1, 33), ("range,100,0\n", 1, 1)],
            &[("insert,#,#\n", 34, 49)],
        ],
        text: &[
            ("session,0\n", 1, 1),
            ("stored,#\n", 1, 33),
            ("range,33,0,33,1,33\n", 1, 1),
            ("#,#\n", 1, 33),
            ("session,1\n", 1, 1),
            ("stored,#\n", 34, 49),
            ("history,49,0\n", 1, 1),
            ("insert,0,#,#,#\n", 1, 33),
            ("insert,1,@,#,#\n", 34, 49),
            ("cells,1\n-,49\nentries,49\npages,4,16\n", 1, 1),
        ],
    },
    Case {
        shows: "an insert splits a crowded leaf, and a leaf of the greatest depth grows",
        settings: "metric,l1\ndims,1\npivot,0\npivot,10\nlevels,2\ncell,1\nupdates,64\npages,40\n",
        schedule: &[("0,op\n", 1, 5)],
        scripts: &[&[("insert,#,#\n", 1, 4), ("insert,5,0\n", 1, 1)]],
        text: &[
            ("session,0\n", 1, 1),
            ("stored,#\n", 1, 5),
            ("history,5,1\n", 1, 1),
            ("insert,0,#,#,#\n", 1, 4),
            ("split,0\ninsert,0,5,5,0\n", 1, 1),
            ("cells,2\n0.1,5\n1,0\nentries,5\npages,1,40\n", 1, 1),
        ],
    },
    Case {
        shows: "a session that finds a claim held tries again",
        settings: PLANE,
        schedule: &[("0,1\n1,1\n1,op\n0,op\n", 1, 1)],
        scripts: &[&[("insert,7,0,0\n", 1, 1)], &[("insert,7,1,1\n", 1, 1)]],
        text: &[
            ("session,0\nstored,1\nsession,1\npresent,1,0\n", 1, 1),
            ("history,1,0\ninsert,0,1,7,0,0\n", 1, 1),
            ("cells,1\n-,1\nentries,1\npages,1,4\n", 1, 1),
        ],
    },
    Case {
        shows: "the session that the schedule names comes first",
        settings: PLANE,
        schedule: &[("1,op\n", 1, 1)],
        scripts: &[&[("insert,7,0,0\n", 1, 1)], &[("insert,7,1,1\n", 1, 1)]],
        text: &[
            ("session,0\npresent,1,0\nsession,1\nstored,1\n", 1, 1),
            ("history,1,0\ninsert,1,1,7,1,1\n", 1, 1),
            ("cells,1\n-,1\nentries,1\npages,1,4\n", 1, 1),
        ],
    },
    Case {
        shows: "sixteen sessions take their turns in their order",
        settings: PLANE,
        schedule: &[("15,op\n", 1, 1)],
        scripts: &[
            &[("insert,#,0,0\n", 1, 1)],
            &[("insert,#,0,0\n", 2, 2)],
            &[("insert,#,0,0\n", 3, 3)],
            &[("insert,#,0,0\n", 4, 4)],
            &[("insert,#,0,0\n", 5, 5)],
            &[],
            &[],
            &[],
            &[],
            &[],
            &[],
            &[],
            &[],
            &[],
            &[],
            &[("insert,#,0,0\n", 16, 16)],
        ],
        text: &[
            ("session,0\nstored,2\nsession,1\nstored,3\n", 1, 1),
            ("session,2\nstored,4\nsession,3\nstored,5\n", 1, 1),
            ("session,4\nstored,6\n", 1, 1),
            ("session,#\n", 5, 15),
            ("stored,1\nhistory,6,0\ninsert,15,1,16,0,0\n", 1, 1),
            ("insert,0,1,1,0,0\ninsert,1,1,2,0,0\n", 1, 1),
            ("insert,2,1,3,0,0\ninsert,3,1,4,0,0\n", 1, 1),
            ("insert,4,1,5,0,0\n", 1, 1),
            ("cells,1\n-,6\nentries,6\npages,1,4\n", 1, 1),
        ],
    },
    Case {
        shows: "the splitter splits before the query begins",
        settings: TWO_PIVOTS,
        schedule: &[("0,op\n", 1, 3), ("splitter,op\n", 1, 2), ("0,op\n", 1, 1)],
        scripts: &[&[("insert,#,#\n", 1, 3), ("range,5,2\n", 1, 1)]],
        text: &[
            ("session,0\n", 1, 1),
            ("stored,#\n", 1, 3),
            ("range,3,1,3,1,5\n0,2\n1,1\n1,3\nhistory,3,1\n", 1, 1),
            ("insert,0,#,#,#\n", 1, 3),
            (
                "split,0\ncells,2\n0.1,3\n1,0\nentries,3\npages,1,40\n",
                1,
                1,
            ),
        ],
    },
    Case {
        shows: "what is swept makes room on the one page",
        settings: ELEVEN,
        schedule: &[("0,op\n", 1, 12), ("splitter,op\n", 1, 2)],
        scripts: &[ONE_LEAF],
        text: SWEPT_TEXT,
    },
    Case {
        shows: "a full page is halved under a new root",
        settings: SIXTEEN_PAGES,
        schedule: &[],
        scripts: &[&[("insert,#,#\n", 1, 33), ("range,0,33\n", 1, 1)]],
        text: &[
            ("session,0\n", 1, 1),
            ("stored,#\n", 1, 33),
            ("range,33,0,1,1,33\n0,33\nhistory,33,0\n", 1, 1),
            ("insert,0,#,#,#\n", 1, 33),
            ("cells,1\n-,33\nentries,33\npages,3,16\n", 1, 1),
        ],
    },
    Case {
        shows: "an insert wants a page, and a dead entry makes room for the next",
        settings: ONE_PAGE,
        schedule: &[],
        scripts: &[&[("insert,#,#\n", 1, 33), ("delete,1\ninsert,33,33\n", 1, 1)]],
        text: &[
            ("session,0\n", 1, 1),
            ("stored,#\n", 1, 32),
            ("nopages,1\nremoved,33\nstored,34\nhistory,34,0\n", 1, 1),
            ("insert,0,#,#,#\n", 1, 32),
            ("delete,0,34,1\ninsert,0,35,33,33\n", 1, 1),
            ("cells,1\n-,32\nentries,32\npages,1,1\n", 1, 1),
        ],
    },
    Case {
        shows: "a split of the splitter that wants a page leaves no copy",
        settings: TWENTY,
        schedule: &[],
        scripts: &[&[("insert,#,1\n", 1, 21), ("range,0,1\n", 1, 1)]],
        text: &[
            ("session,0\n", 1, 1),
            ("stored,#\n", 1, 21),
            ("range,21,0,21,1,23\n", 1, 1),
            ("0,#\n", 1, 21),
            ("history,21,0\n", 1, 1),
            ("insert,0,#,#,1\n", 1, 21),
            ("cells,2\n0,21\n1,0\nentries,21\npages,1,1\n", 1, 1),
        ],
    },
    Case {
        shows: "an insert whose split wants a page leaves no copy",
        settings: SEVEN,
        schedule: &[("0,op\n", 1, 29)],
        scripts: &[&[("insert,#,1\n", 1, 29)]],
        text: &[
            ("session,0\n", 1, 1),
            ("stored,#\n", 1, 28),
            ("nopages,1\nhistory,28,0\n", 1, 1),
            ("insert,0,#,#,1\n", 1, 28),
            ("cells,2\n0,28\n1,0\nentries,28\npages,1,1\n", 1, 1),
        ],
    },
];

/// The files of a call with these texts, and its words.
fn call_of(
    alloc: Global,
    settings: &str,
    schedule: &str,
    scripts: &[Lines],
) -> Result<(MemoryFiles, Vec<String>), Fail> {
    let mut files = MemoryFiles::new(alloc, &[])?;
    files.add(alloc, "settings", settings.as_bytes())?;
    files.add(alloc, "schedule", schedule.as_bytes())?;
    let mut words = words_of(alloc, &["replay", "settings", "schedule"])?;
    for (number, lines) in scripts.iter().enumerate() {
        let name = format!(in alloc; "script{number}")?;
        let script = text_of(alloc, lines)?;
        files.add(alloc, name.as_str(), script.as_bytes())?;
        words.push(name)?;
    }
    Ok((files, words))
}

/// The status and the text of a replay.
fn replayed(
    alloc: Global,
    words: &[String],
    files: &mut MemoryFiles,
) -> Result<(u8, MemorySink), Fail> {
    let mut out = MemorySink::new(alloc, 1000, &[], 10_000)?;
    let status = replay_call(alloc, words, files, &mut out);
    Ok((status, out))
}

#[test]
fn scripts_are_run_after_their_schedule(rt: HostRuntime) -> Result<(), Fail> {
    let alloc = rt.alloc();
    for case in &CASES {
        let schedule = text_of(alloc, case.schedule)?;
        let (mut files, words) = call_of(alloc, case.settings, schedule.as_str(), case.scripts)?;
        let (status, out) = replayed(alloc, words.as_slice(), &mut files)?;
        let shows = case.shows;
        let text = text_of(alloc, case.text)?;
        assert_eq!(rt; out.bytes(), text.as_bytes(), "{shows}");
        assert_eq!(rt; status, 0, "{shows}");
    }
    Ok(())
}

/// A schedule and two scripts that have a fault, and its line.
static FAULTS: [(&str, &[Lines], &str); 9] = [
    ("splitter,0\n", &[&[]], "fault,1,1,range\n"),
    ("0,op\n1,op\n", &[&[]], "fault,1,2,range\n"),
    ("0,op\n1,op\n2,op\n", &[&[], &[]], "fault,1,3,range\n"),
    ("none,op\n", &[&[("x\n", 1, 1)]], "fault,1,1,word\n"),
    ("0,op,op\n", &[&[]], "fault,1,1,fields\n"),
    ("0,Op\n", &[&[]], "fault,1,1,number\n"),
    ("1,op\n", &[&[], &[("x\n", 1, 1)]], "fault,3,1,word\n"),
    (
        "",
        &[&[("x\n", 1, 1)], &[("insert\n", 1, 1)]],
        "fault,2,1,word\n",
    ),
    (
        "",
        &[
            &[("delete,1\n", 1, 2)],
            &[("delete,1\n", 1, 2)],
            &[("delete,1\n", 1, 2), ("delete\n", 1, 1)],
        ],
        "fault,4,3,fields\n",
    ),
];

#[test]
fn the_first_fault_in_the_order_of_the_files_is_told(rt: HostRuntime) -> Result<(), Fail> {
    let alloc = rt.alloc();
    for (schedule, scripts, text) in &FAULTS {
        let (mut files, words) = call_of(alloc, PLANE, schedule, scripts)?;
        let (status, out) = replayed(alloc, words.as_slice(), &mut files)?;
        assert_eq!(rt; out.bytes(), text.as_bytes());
        assert_eq!(rt; status, 3);
    }
    Ok(())
}

#[test]
fn seventeen_scripts_have_the_usage_line(rt: HostRuntime) -> Result<(), Fail> {
    let alloc = rt.alloc();
    let script: Lines = &[];
    let scripts = [script; 17];
    let (mut files, words) = call_of(alloc, PLANE, "", &scripts)?;
    let (status, out) = replayed(alloc, words.as_slice(), &mut files)?;
    assert_eq!(rt; status, 1);
    assert!(rt; out.bytes().starts_with(b"usage: "));
    Ok(())
}

#[test]
fn a_failed_read_of_each_file_is_told(rt: HostRuntime) -> Result<(), Fail> {
    let alloc = rt.alloc();
    let words = words_of(alloc, &["replay", "a", "b", "c", "d"])?;
    for place in 0..4u64 {
        let mut files = MemoryFiles::new(alloc, &[place.saturating_add(1)])?;
        files.add(alloc, "a", PLANE.as_bytes())?;
        for name in ["b", "c", "d"] {
            files.add(alloc, name, b"")?;
        }
        let (status, out) = replayed(alloc, words.as_slice(), &mut files)?;
        let text = format!(in alloc; "unread,{place}\n")?;
        assert_eq!(rt; out.bytes(), text.as_bytes());
        assert_eq!(rt; status, 4);
    }
    Ok(())
}
