//! Settings, scripts and schedules as bytes, good ones and bad ones.
use mi_base::{Actor, MetricKind, Op, Schedule, Script, Settings, Take};
use mi_input::{InputFault, Reason, read_schedule, read_script, read_settings};
use std::alloc::Global;
use std::test::Fail;

/// The first record under L1.
const L1: &[u8] = b"metric,l1\n";
/// Two coordinates under L1.
const PLAIN: &[u8] = b"metric,l1\ndims,2\n";
/// The same with the levels.
const SIZED: &[u8] = b"metric,l1\ndims,2\nlevels,0\n";
/// A table, before its rows.
const TABLE: &[u8] = b"metric,table\ndims,1\n";
/// Settings for two coordinates.
const GOOD: &[u8] = b"metric,l1\ndims,2\nlevels,0\ncell,4\nupdates,8\npages,4\n";

/// Settings with a table of three rows.
const ROWS: &[u8] =
    b"metric,table\ndims,1\nrow,0,1,3\nrow,1,0,1\nrow,3,1,0\nlevels,-0\ncell,10000\nupdates,200000\npages,200000";
/// Settings for two coordinates with three pivots.
const PIVOTS: &[u8] =
    b"metric,l1\ndims,2\npivot,0,0\npivot,-1000000,1000000\npivot,0,0\nlevels,3\ncell,4\nupdates,8\npages,4\n";
/// A script of three operations, spelled in several ways.
const SPELLED: &[u8] = b"\xef\xbb\xbf\"insert\",7,+0,-00\r\n\r\nrange,21,\"1\",1\ndelete,7\n";

/// The text with so many lines more, and an end.
fn repeated(
    alloc: Global,
    head: &[u8],
    count: usize,
    line: &[u8],
    end: &[u8],
) -> Result<Vec<u8>, Fail> {
    let mut bytes = Vec::from_slice(alloc, head)?;
    for _ in 0..count {
        bytes.extend_from_slice(line)?;
    }
    bytes.extend_from_slice(end)?;
    Ok(bytes)
}

fn script(alloc: Global, settings: &[u8], text: &[u8]) -> Result<Script, InputFault> {
    let settings = read_settings(alloc, settings)?;
    read_script(alloc, text, &settings)
}

fn is_at<T: Drop>(read: Result<T, InputFault>, number: u32, why: Reason) -> bool {
    match read {
        Ok(_) => false,
        Err(fault) => fault == InputFault::Bad { number, why },
    }
}

static BAD_SETTINGS: [(&[u8], &[u8], u32, Reason); 71] = [
    (b"", b"", 1, Reason::End),
    (b"\n\r\n\n", b"", 1, Reason::End),
    (b"\"\"\n", b"", 1, Reason::Word),
    (b"dims,2\n", b"", 1, Reason::Word),
    (b"Metric,l1\n", b"", 1, Reason::Word),
    (b" metric,l1\n", b"", 1, Reason::Word),
    (b"metric\n", b"", 1, Reason::Fields),
    (b"metric,\n", b"", 1, Reason::Word),
    (b"metric,foo\n", b"", 1, Reason::Word),
    (b"metric,L1\n", b"", 1, Reason::Word),
    (b"metric,foo,1\n", b"", 1, Reason::Word),
    (b"metric,l1,1\n", b"", 1, Reason::Fields),
    (b"metric,max,1\n", b"", 1, Reason::Fields),
    (L1, b"", 2, Reason::End),
    (L1, b"levels,0\n", 2, Reason::Word),
    (L1, b"dims\n", 2, Reason::Fields),
    (L1, b"dims,2,3\n", 2, Reason::Fields),
    (L1, b"dims,\n", 2, Reason::Number),
    (L1, b"dims,x\n", 2, Reason::Number),
    (L1, b"dims,+\n", 2, Reason::Number),
    (L1, b"dims,-\n", 2, Reason::Number),
    (L1, b"dims,++2\n", 2, Reason::Number),
    (L1, b"dims, 2\n", 2, Reason::Number),
    (L1, b"dims,2 \n", 2, Reason::Number),
    (L1, b"dims,2.0\n", 2, Reason::Number),
    (L1, b"dims,000000000000000000002\n", 2, Reason::Number),
    (L1, b"dims,99999999999999999999\n", 2, Reason::Range),
    (L1, b"dims,0\n", 2, Reason::Range),
    (L1, b"dims,65\n", 2, Reason::Range),
    (L1, b"dims,-1\n", 2, Reason::Range),
    (b"metric,table\n", b"dims,2\n", 2, Reason::Range),
    (PLAIN, b"", 3, Reason::End),
    (PLAIN, b"row,1\n", 3, Reason::Word),
    (PLAIN, b"pivot\n", 3, Reason::Fields),
    (PLAIN, b"pivot,0\n", 3, Reason::Fields),
    (PLAIN, b"pivot,0,0,0\n", 3, Reason::Fields),
    (PLAIN, b"pivot,x,1000001\n", 3, Reason::Number),
    (PLAIN, b"pivot,0,1000001\n", 3, Reason::Range),
    (PLAIN, b"pivot,-1000001,x\n", 3, Reason::Range),
    (PLAIN, b"pivot,0,0\n", 4, Reason::End),
    (PLAIN, b"pivot,0,0\nrow,0\n", 4, Reason::Word),
    (PLAIN, b"pivot,0,0\nlevels,0\n", 4, Reason::Range),
    (PLAIN, b"pivot,0,0\nlevels,2\n", 4, Reason::Range),
    (PLAIN, b"levels,1\n", 3, Reason::Range),
    (PLAIN, b"levels\n", 3, Reason::Fields),
    (TABLE, b"", 3, Reason::End),
    (TABLE, b"levels,0\n", 3, Reason::Word),
    (TABLE, b"pivot,0\n", 3, Reason::Word),
    (TABLE, b"row\n", 3, Reason::Fields),
    (TABLE, b"row,\n", 3, Reason::Number),
    (TABLE, b"row,0,x,128000001\n", 3, Reason::Number),
    (TABLE, b"row,128000001,x\n", 3, Reason::Range),
    (TABLE, b"row,-1\n", 3, Reason::Range),
    (TABLE, b"row,0\nmetric\n", 4, Reason::Word),
    (TABLE, b"row,0\npivot,0,0\n", 4, Reason::Fields),
    (TABLE, b"row,0\npivot,1\n", 4, Reason::Range),
    (TABLE, b"row,0\npivot,-1\n", 4, Reason::Range),
    (TABLE, b"row,0\npivot,0\nrow,0\n", 5, Reason::Word),
    (TABLE, b"row,0\nrow,0\n", 5, Reason::End),
    (SIZED, b"levels,0\n", 4, Reason::Word),
    (SIZED, b"pivot,0,0\n", 4, Reason::Word),
    (SIZED, b"cell,0\n", 4, Reason::Range),
    (SIZED, b"cell,10001\n", 4, Reason::Range),
    (SIZED, b"cell,4\nupdates,0\n", 5, Reason::Range),
    (SIZED, b"cell,4\nupdates,200001\n", 5, Reason::Range),
    (SIZED, b"cell,4\nupdates,8\n", 6, Reason::End),
    (SIZED, b"cell,4\nupdates,8\npages,0\n", 6, Reason::Range),
    (
        SIZED,
        b"cell,4\nupdates,8\npages,200001\n",
        6,
        Reason::Range,
    ),
    (GOOD, b"pages,4\n", 7, Reason::Extra),
    (GOOD, b"pivot,0,0\n", 7, Reason::Extra),
    (GOOD, b"x", 7, Reason::Extra),
];

#[test]
fn bad_settings(rt: HostRuntime) -> Result<(), Fail> {
    for (head, tail, number, why) in &BAD_SETTINGS {
        let bytes = repeated(rt.alloc(), head, 1, tail, b"")?;
        assert!(rt; is_at(read_settings(rt.alloc(), bytes.as_slice()), *number, *why));
    }
    Ok(())
}

static BAD_SCRIPTS: [(&[u8], u32, Reason); 35] = [
    (b"x\n", 1, Reason::Word),
    (b"\"\"\n", 1, Reason::Word),
    (b"Insert,1,0,0\n", 1, Reason::Word),
    (b"insert\n", 1, Reason::Fields),
    (b"insert,1,0\n", 1, Reason::Fields),
    (b"insert,1,0,0,0\n", 1, Reason::Fields),
    (b"insert,,0,0\n", 1, Reason::Number),
    (b"insert,-1,0,0\n", 1, Reason::Range),
    (b"insert,1099511627776,x,0\n", 1, Reason::Range),
    (b"insert,1,x,1000001\n", 1, Reason::Number),
    (b"insert,1,1000001,x\n", 1, Reason::Range),
    (b"insert,1,0,-1000001\n", 1, Reason::Range),
    (b"insert,1,0,0\ninsert,2,x,0\n", 2, Reason::Number),
    (b"insert,7,0,0\ninsert,9,3", 2, Reason::Fields),
    (b"insert,7,0,0\n\n\n\nfoo\n", 2, Reason::Word),
    (b"delete\n", 1, Reason::Fields),
    (b"delete,1,2\n", 1, Reason::Fields),
    (b"delete,x\n", 1, Reason::Number),
    (b"delete,\"1\n", 1, Reason::Number),
    (b"delete,1\"\n", 1, Reason::Number),
    (b"range,2147483648,0,0\n", 1, Reason::Range),
    (b"range,-1,0,0\n", 1, Reason::Range),
    (b"range,1,0\n", 1, Reason::Fields),
    (b"Nearest,1,0,0\n", 1, Reason::Word),
    (b"nearest\n", 1, Reason::Fields),
    (b"nearest,0,0\n", 1, Reason::Fields),
    (b"nearest,1,0,0,0\n", 1, Reason::Fields),
    (b"nearest,x,1000001,0\n", 1, Reason::Number),
    (b"nearest,0,x,0\n", 1, Reason::Range),
    (b"nearest,1000001,0,0\n", 1, Reason::Range),
    (b"nearest,-1,0,0\n", 1, Reason::Range),
    (b"nearest,1,x,1000001\n", 1, Reason::Number),
    (b"nearest,1,1000001,x\n", 1, Reason::Range),
    (b"nearest,1,0,-1000001\n", 1, Reason::Range),
    (b"\xef\xbb\xbf\xef\xbb\xbfdelete,1\n", 1, Reason::Word),
];

#[test]
fn bad_scripts(rt: HostRuntime) {
    for (text, number, why) in &BAD_SCRIPTS {
        assert!(rt; is_at(script(rt.alloc(), GOOD, text), *number, *why));
    }
}

static BAD_UNDER_PIVOTS: [(&[u8], u32, Reason); 4] = [
    (b"range,1,0\n", 1, Reason::Fields),
    (b"range,2147483648,0,0\n", 1, Reason::Range),
    (b"nearest,0,0,0\n", 1, Reason::Range),
    (b"insert,1,0,0\ninsert,2,0\n", 2, Reason::Fields),
];

#[test]
fn bad_scripts_under_pivots(rt: HostRuntime) {
    for (text, number, why) in &BAD_UNDER_PIVOTS {
        assert!(rt; is_at(script(rt.alloc(), PIVOTS, text), *number, *why));
    }
}

static BAD_ROWS: [(&[u8], Reason); 5] = [
    (b"insert,1,3\n", Reason::Range),
    (b"insert,1,-1\n", Reason::Range),
    (b"insert,1,0,0\n", Reason::Fields),
    (b"nearest,1,3\n", Reason::Range),
    (b"nearest,1,0,0\n", Reason::Fields),
];

#[test]
fn bad_scripts_under_a_table(rt: HostRuntime) {
    for (text, why) in &BAD_ROWS {
        assert!(rt; is_at(script(rt.alloc(), ROWS, text), 1, *why));
    }
}

static PAST_THE_LIMIT: [(&[u8], Reason); 3] = [
    (b"delete,1\n", Reason::Limit),
    (b"delete\n", Reason::Limit),
    (b"x\n", Reason::Word),
];

#[test]
fn long_scripts(rt: HostRuntime) -> Result<(), Fail> {
    for (end, why) in &PAST_THE_LIMIT {
        let bytes = repeated(rt.alloc(), b"", 200_000, b"delete,1\n", end)?;
        assert!(rt; is_at(script(rt.alloc(), GOOD, bytes.as_slice()), 200_001, *why));
    }
    Ok(())
}

#[test]
fn long_tables(rt: HostRuntime) -> Result<(), Fail> {
    let rows = repeated(rt.alloc(), TABLE, 128, b"row,0\n", b"row\n")?;
    assert!(rt;
        is_at(
            read_settings(rt.alloc(), rows.as_slice()),
            131,
            Reason::Limit
        )
    );
    let values = repeated(rt.alloc(), b"metric,table\ndims,1\nrow", 129, b",0", b"\n")?;
    assert!(rt;
        is_at(
            read_settings(rt.alloc(), values.as_slice()),
            3,
            Reason::Fields
        )
    );
    Ok(())
}

/// How many pivots there are and the levels, where there are so many pivots and this line follows.
fn depth(alloc: Global, pivots: usize, levels: &[u8]) -> Result<(usize, u32), Fail> {
    let head = repeated(alloc, PLAIN, pivots, b"pivot,0,0\n", levels)?;
    let bytes = repeated(
        alloc,
        head.as_slice(),
        1,
        b"cell,4\nupdates,8\npages,4\n",
        b"",
    )?;
    let settings = read_settings(alloc, bytes.as_slice())
        .ok()
        .ok_or("the settings are good")?;
    Ok((settings.pivots.len(), settings.levels))
}

#[test]
fn many_pivots(rt: HostRuntime) -> Result<(), Fail> {
    for (end, why) in [
        (&b"pivot\n"[..], Reason::Limit),
        (b"levels,7\n", Reason::Range),
        (b"pages,1\n", Reason::Word),
    ] {
        let bytes = repeated(rt.alloc(), PLAIN, 32, b"pivot,0,0\n", end)?;
        assert!(rt; is_at(read_settings(rt.alloc(), bytes.as_slice()), 35, why));
    }
    assert_eq!(rt; depth(rt.alloc(), 32, b"levels,6\n")?, (32, 6));
    assert_eq!(rt; depth(rt.alloc(), 32, b"levels,1\n")?, (32, 1));
    assert_eq!(rt; depth(rt.alloc(), 1, b"levels,1\n")?, (1, 1));
    assert_eq!(rt; depth(rt.alloc(), 0, b"levels,0\n")?, (0, 0));
    Ok(())
}

/// How many operations there are, and the number and the first coordinate of the last one.
fn summary(script: &Script) -> (usize, u64, i64) {
    let mut last = (0, 0);
    for op in script.as_slice() {
        last = match op {
            Op::Insert { id, vector } => (id.get(), i64::from(vector.as_slice()[0])),
            Op::Delete { id } => (id.get(), 0),
            Op::Range { radius, query } => (u64::from(*radius), i64::from(query.as_slice()[0])),
            Op::Nearest { count, query } => (u64::from(*count), i64::from(query.as_slice()[0])),
        };
    }
    (script.len(), last.0, last.1)
}

fn reads_as(read: Result<Script, InputFault>, want: (usize, u64, i64)) -> bool {
    match read {
        Ok(script) => summary(&script) == want,
        Err(_) => false,
    }
}

static GOOD_SCRIPTS: [(&[u8], (usize, u64, i64)); 8] = [
    (b"", (0, 0, 0)),
    (b"\"insert\",7,+0,-00\r\n", (1, 7, 0)),
    (
        b"\"insert\",7,+0,-00\r\n\r\nrange,2147483647,1,1",
        (2, 2_147_483_647, 1),
    ),
    (
        b"\xef\xbb\xbfinsert,1099511627775,-1000000,1000000\n",
        (1, 1_099_511_627_775, -1_000_000),
    ),
    (b"nearest,1,3,0\n", (1, 1, 3)),
    (
        b"nearest,+01000000,-1000000,1000000",
        (1, 1_000_000, -1_000_000),
    ),
    (b"delete,00000000000000000012\n", (1, 12, 0)),
    (b"delete,\"1\"2\n", (1, 12, 0)),
];

#[test]
fn good_scripts(rt: HostRuntime) {
    for (text, want) in &GOOD_SCRIPTS {
        assert!(rt; reads_as(script(rt.alloc(), GOOD, text), *want));
    }
    assert!(rt; reads_as(script(rt.alloc(), ROWS, b"insert,1,2\n"), (1, 1, 2)));
    assert!(rt; reads_as(script(rt.alloc(), ROWS, b"nearest,1,2\n"), (1, 1, 2)));
    assert!(rt;
        reads_as(
            script(rt.alloc(), ROWS, b"nearest,1,2\nnearest,1000000,0\n"),
            (2, 1_000_000, 0)
        )
    );
    assert!(rt;
        reads_as(
            script(rt.alloc(), PIVOTS, b"insert,1,2,0\ndelete,1\n"),
            (2, 1, 0)
        )
    );
}

fn are_good(settings: &Settings) -> bool {
    settings.metric == MetricKind::L1
        && settings.dims == 2
        && settings.rows.is_empty()
        && settings.pivots.is_empty()
        && settings.levels == 0
        && settings.cell == 4
        && settings.updates == 8
        && settings.pages == 4
}

#[test]
fn good_settings(rt: HostRuntime) -> Result<(), Fail> {
    let settings = read_settings(rt.alloc(), GOOD)
        .ok()
        .ok_or("the settings are good")?;
    assert!(rt; are_good(&settings));
    let settings = read_settings(rt.alloc(), PIVOTS)
        .ok()
        .ok_or("the pivots are good")?;
    assert_eq!(rt; (settings.pivots.len(), settings.levels), (3, 3));
    assert_eq!(rt;
        settings.pivots.as_slice()[1].as_slice(),
        &[-1_000_000, 1_000_000][..]
    );
    Ok(())
}

/// Schedules for three sessions, how many items they have, and the last one.
static GOOD_SCHEDULES: [(&[u8], usize, Actor, Take); 7] = [
    (b"0,op\n", 1, Actor::Session { number: 0 }, Take::Operation),
    (
        b"-0,\"op\"\n",
        1,
        Actor::Session { number: 0 },
        Take::Operation,
    ),
    (
        b"0,op\n2,op",
        2,
        Actor::Session { number: 2 },
        Take::Operation,
    ),
    (
        b"+01,1\n",
        1,
        Actor::Session { number: 1 },
        Take::Turns { count: 1 },
    ),
    (
        b"1,1000000\n",
        1,
        Actor::Session { number: 1 },
        Take::Turns { count: 1_000_000 },
    ),
    (b"splitter,op\n", 1, Actor::Splitter, Take::Operation),
    (
        b"2,op\n\nsplitter,+7\r\n",
        2,
        Actor::Splitter,
        Take::Turns { count: 7 },
    ),
];

fn is_last(schedule: &Schedule, actor: Actor, take: Take) -> bool {
    match schedule.as_slice().last() {
        Some(item) => item.actor == actor && item.take == take,
        None => false,
    }
}

#[test]
fn good_schedules(rt: HostRuntime) -> Result<(), Fail> {
    for (text, count, actor, take) in &GOOD_SCHEDULES {
        let schedule = read_schedule(rt.alloc(), text, 3)
            .ok()
            .ok_or("the schedule is good")?;
        assert_eq!(rt; schedule.len(), *count);
        assert!(rt; is_last(&schedule, *actor, *take));
    }
    for text in [&b""[..], b"\n\n"] {
        let schedule = read_schedule(rt.alloc(), text, 1)
            .ok()
            .ok_or("the schedule is good")?;
        assert!(rt; schedule.is_empty());
    }
    Ok(())
}

static BAD_SCHEDULES: [(&[u8], u32, Reason); 22] = [
    (b"\"\"\n", 1, Reason::Word),
    (b"x,op\n", 1, Reason::Word),
    (b"op,0\n", 1, Reason::Word),
    (b"Splitter,op\n", 1, Reason::Word),
    (b" splitter,op\n", 1, Reason::Word),
    (b"000000000000000000000,op\n", 1, Reason::Word),
    (b"x\n", 1, Reason::Word),
    (b"0\n", 1, Reason::Fields),
    (b"9\n", 1, Reason::Fields),
    (b"splitter\n", 1, Reason::Fields),
    (b"0,op,\n", 1, Reason::Fields),
    (b"splitter,1,1\n", 1, Reason::Fields),
    (b"3,op\n", 1, Reason::Range),
    (b"-1,x\n", 1, Reason::Range),
    (b"99999999999999999999,op\n", 1, Reason::Range),
    (b"0,Op\n", 1, Reason::Number),
    (b"0,\n", 1, Reason::Number),
    (b"splitter,splitter\n", 1, Reason::Number),
    (b"0,0\n", 1, Reason::Range),
    (b"0,-1\n", 1, Reason::Range),
    (b"splitter,1000001\n", 1, Reason::Range),
    (b"0,op\n\n1,1\n3,1\n", 3, Reason::Range),
];

#[test]
fn bad_schedules(rt: HostRuntime) {
    for (text, number, why) in &BAD_SCHEDULES {
        assert!(rt; is_at(read_schedule(rt.alloc(), text, 3), *number, *why));
    }
    assert!(rt; is_at(read_schedule(rt.alloc(), b"0,op\n", 0), 1, Reason::Range));
    assert!(rt; read_schedule(rt.alloc(), b"splitter,op\n", 0).is_ok());
}

#[test]
fn long_schedules(rt: HostRuntime) -> Result<(), Fail> {
    let bytes = repeated(rt.alloc(), b"", 1_000_000, b"0,op\n", b"0\n")?;
    assert!(rt;
        is_at(
            read_schedule(rt.alloc(), bytes.as_slice(), 1),
            1_000_001,
            Reason::Limit
        )
    );
    Ok(())
}

static PAST_THE_TURNS: [(&[u8], Option<Reason>); 6] = [
    (b"", None),
    (b"0,op\n", None),
    (b"0,1\n", Some(Reason::Limit)),
    (b"splitter,1000000\n", Some(Reason::Limit)),
    (b"0,1000001\n", Some(Reason::Range)),
    (b"1,1\n", Some(Reason::Range)),
];

#[test]
fn counts_are_bounded_together(rt: HostRuntime) -> Result<(), Fail> {
    for (end, want) in &PAST_THE_TURNS {
        let bytes = repeated(rt.alloc(), b"", 100, b"0,1000000\n", end)?;
        let read = read_schedule(rt.alloc(), bytes.as_slice(), 1);
        match want {
            None => assert!(rt; read.is_ok()),
            Some(why) => assert!(rt; is_at(read, 101, *why)),
        }
    }
    Ok(())
}

fn good_cuts_of_settings(alloc: Global) -> usize {
    let mut good: usize = 0;
    for end in 0..GOOD.len() + 1 {
        if read_settings(alloc, &GOOD[..end]).is_ok() {
            good = good.saturating_add(1);
        }
    }
    good
}

fn good_cuts_of_script(alloc: Global) -> usize {
    let mut good: usize = 0;
    for end in 0..SPELLED.len() + 1 {
        if script(alloc, GOOD, &SPELLED[..end]).is_ok() {
            good = good.saturating_add(1);
        }
    }
    good
}

#[test]
fn files_cut_after_each_byte(rt: HostRuntime) {
    // The last record may lack its line feed.
    assert!(rt; good_cuts_of_settings(rt.alloc()) == 2);
    // No record; the mark; the first record from its last -0 on, and the empty line; the second; the third.
    assert!(rt; good_cuts_of_script(rt.alloc()) == 2 + 6 + 2 + 2);
}
