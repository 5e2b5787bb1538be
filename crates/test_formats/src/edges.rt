//! Each form in memory, used through its bound.
use mi_outside::{
    Files, Gate, GatePoint, HoldGate, MemoryFiles, MemorySink, OpenGate, ReadRefusal, Sink,
    SinkFailed, SteadyFiles, SteadySink, write_all,
};
use std::alloc::Global;
use std::process::Abort;
use std::test::Fail;

fn answer<F: Files>(
    rt: &impl Abort,
    alloc: Global,
    files: &mut F,
    name: &str,
    wanted: Result<&[u8], ReadRefusal>,
) {
    let mut into = Vec::new(alloc);
    match files.read(name, &mut into) {
        Ok(()) => assert_eq!(rt; Ok(into.as_slice()), wanted),
        Err(refusal) => assert_eq!(rt; Err(refusal), wanted),
    }
}

fn send<S: Sink>(out: &mut S, pieces: &[&[u8]]) -> Result<(), SinkFailed> {
    for piece in pieces {
        write_all(out, piece)?;
    }
    Ok(())
}

fn step<G: Gate>(gate: &G) {
    gate.pass(0, GatePoint::Begin { op: 1 });
}

#[test]
fn reads_fail_where_they_are_listed_or_nothing_is_held(rt: HostRuntime) -> Result<(), Fail> {
    let mut files = MemoryFiles::new(rt.alloc(), &[2])?;
    files.add(rt.alloc(), "a", b"one")?;
    files.add(rt.alloc(), "b", b"")?;
    files.add(rt.alloc(), "a", b"three")?;
    answer(&rt, rt.alloc(), &mut files, "a", Ok(b"three"));
    answer(&rt, rt.alloc(), &mut files, "b", Err(ReadRefusal::Failed));
    answer(&rt, rt.alloc(), &mut files, "b", Ok(b""));
    answer(&rt, rt.alloc(), &mut files, "c", Err(ReadRefusal::Failed));
    Ok(())
}

#[test]
fn steady_files_never_fail(rt: HostRuntime) -> Result<(), Fail> {
    let mut files = SteadyFiles::new(rt.alloc());
    files.add(rt.alloc(), "a", b"one")?;
    answer(&rt, rt.alloc(), &mut files, "a", Ok(b"one"));
    answer(&rt, rt.alloc(), &mut files, "c", Ok(b""));
    Ok(())
}

#[test]
fn texts_go_out_in_part_up_to_a_failure(rt: HostRuntime) -> Result<(), Fail> {
    let cases: [(usize, u64, usize, bool, &[u8]); 5] = [
        (9, 0, 9, true, b"heads up"),
        (2, 0, 8, true, b"heads up"),
        (2, 4, 8, false, b"heads"),
        (9, 0, 7, false, b"heads u"),
        (1, 1, 9, false, b""),
    ];
    for (most, fails, room, whole, wanted) in cases {
        let mut out = MemorySink::new(rt.alloc(), most, &[fails], room)?;
        assert_eq!(rt; send(&mut out, &[b"heads", b"", b" up"]).is_ok(), whole);
        assert_eq!(rt; out.bytes(), wanted);
    }
    Ok(())
}

#[test]
fn nothing_stops_a_steady_sink_or_an_open_gate(rt: HostRuntime) {
    let mut out = SteadySink::new();
    assert_eq!(rt; send(&mut out, &[b"heads", b"", b" up"]), Ok(()));
    step(&OpenGate::new());
}

/// Actor 2 is held before its second operation, until actor 1 has ended its first.
fn holding(turns: u64) -> HoldGate {
    let at = GatePoint::Begin { op: 2 };
    let until = GatePoint::End { op: 1 };
    HoldGate::new(2, at, 1, until, turns)
}

#[test]
fn one_is_held_until_another_has_passed_or_the_turns_are_over(rt: HostRuntime) {
    let ends = GatePoint::End { op: 1 };
    let starts = GatePoint::Begin { op: 2 };

    // Who passes, and whether the hold was met then.
    let walks: [(u64, &[(u32, GatePoint, bool)]); 4] = [
        (
            3,
            &[
                (1, starts, false),
                (2, ends, false),
                (2, starts, false),
                (1, ends, false),
            ],
        ),
        (
            3,
            &[
                (1, ends, false),
                (2, ends, false),
                (2, starts, true),
                (2, starts, true),
            ],
        ),
        (0, &[(1, ends, false), (2, starts, true)]),
        (
            3,
            &[(2, starts, false), (1, ends, false), (2, starts, false)],
        ),
    ];
    for (turns, walk) in walks {
        let gate = holding(turns);
        for (actor, point, met) in walk {
            gate.pass(*actor, *point);
            assert_eq!(rt; gate.met(), *met);
        }
    }
}
