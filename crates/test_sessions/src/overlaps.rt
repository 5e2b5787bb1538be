//! Runs in which one actor is held until another has got on: operations overlap, and the splitter
//! works beside the scripts.

use super::schedules::{ELEVEN, ONE_LEAF, SWEPT_TEXT};
use super::workloads::check_run;
use mi_call::run_call;
use mi_outside::{GatePoint, HoldGate, MemoryFiles, MemorySink};
use mi_plain::{Asked, Setting, text_of, words_of};
use std::test::Fail;

/// The turns that one waits at most.
const TURNS: u64 = 100_000_000;

static PLANE: Setting = Setting {
    pivots: &[],
    levels: 0,
    cell: 4,
    updates: 8,
};

/// An insert, and a query.
static ASKING: [Asked; 2] = [
    Asked::Insert {
        id: 7,
        point: [0, 0],
    },
    Asked::Range {
        radius: 6,
        query: [0, 0],
    },
];

static INSERTING: [Asked; 1] = [Asked::Insert {
    id: 9,
    point: [3, 4],
}];

#[test]
fn an_insert_ends_within_a_query(rt: HostRuntime) -> Result<(), Fail> {
    let alloc = rt.alloc();
    for asking in 0..2u32 {
        let other = 1 - asking;
        let mut scripts = Vec::new(alloc);
        for session in 0..2u32 {
            let script: &[Asked] = if session == asking {
                &ASKING
            } else {
                &INSERTING
            };
            scripts.push(Vec::from_slice(alloc, script)?)?;
        }
        let within = GatePoint::Section { op: 2 };
        let gate = HoldGate::new(asking, within, other, GatePoint::End { op: 1 }, TURNS);
        check_run(&rt, alloc, &PLANE, 4, scripts.as_slice(), &gate)?;
        assert!(rt; gate.met(), "session {asking} was held");
    }
    Ok(())
}

#[test]
fn a_leaf_is_split_and_swept_between_two_inserts(rt: HostRuntime) -> Result<(), Fail> {
    let alloc = rt.alloc();
    let script = text_of(alloc, ONE_LEAF)?;
    let text = text_of(alloc, SWEPT_TEXT)?;
    let mut files = MemoryFiles::new(alloc, &[])?;
    files.add(alloc, "settings", ELEVEN.as_bytes())?;
    files.add(alloc, "script", script.as_bytes())?;
    let words = words_of(alloc, &["run", "settings", "script"])?;
    let mut out = MemorySink::new(alloc, 1000, &[], 1000)?;
    let before = GatePoint::Begin { op: 13 };
    let gate = HoldGate::new(0, before, 1, GatePoint::End { op: 2 }, TURNS);
    let status = run_call(&rt, alloc, words.as_slice(), &mut files, &mut out, &gate);
    assert!(rt; gate.met());
    assert_eq!(rt; out.bytes(), text.as_bytes());
    assert_eq!(rt; status, 0);
    Ok(())
}
