//! One outcome with every kind of line, against its text by hand.

use mi_base::{
    Id, Log, LogEvent, Position, Prefix, Replies, Reply, Row, Rows, Transcript, Update, Vector,
};
use mi_outside::MemorySink;
use mi_print::{render, summary};
use mi_tree::{Leaf, Leaves, Outcome};
use std::alloc::Global;
use std::test::Fail;

const TEXT: &str =
    "session,0\nstored,1\nremoved,2\npresent,3,1\nabsent,3,1\nfull,8\nnopages,4\nmemory\nsession,1\nrange,2,0,2,1,5\n0,7\n12,1099511627775\nrange,0,0,0,0,3\nnearest,2,1,1,1\n3,9\nhistory,2,1\ninsert,0,1,7,0,-1000000\ndelete,1,2,7\nsplit,0.31\ncells,3\n-,0\n0.31.5,1\n4,20\nentries,18446744073709551615\npages,4,200000\n";

const FIGURES: &str =
    "seed,7\nupdates,2\nsplits,1\ncells,3\nentries,18446744073709551615\npages,4,200000\nqueries,3\nrows,3\nopened,2\ndistances,8\n";

fn position(updates: u32, splits: u32) -> Position {
    Position { updates, splits }
}

fn prefix(items: &[u8]) -> Result<Prefix, Fail> {
    Ok(Prefix::new(items).ok_or("prefix")?)
}

fn rows(alloc: Global, items: &[(u32, u64)]) -> Result<Rows, Fail> {
    let mut rows = Rows::new(alloc);
    for (distance, id) in items {
        rows.push(Row {
            distance: *distance,
            id: Id::new(*id)?,
        })?;
    }
    Ok(rows)
}

fn updates(alloc: Global) -> Result<Replies, Fail> {
    let mut replies = Replies::new(alloc);
    replies.push(Reply::Stored { number: 1 })?;
    replies.push(Reply::Removed { number: 2 })?;
    replies.push(Reply::Present { at: position(3, 1) })?;
    replies.push(Reply::Absent { at: position(3, 1) })?;
    replies.push(Reply::Full { limit: 8 })?;
    replies.push(Reply::NoPages { limit: 4 })?;
    replies.push(Reply::Memory)?;
    Ok(replies)
}

fn queries(alloc: Global) -> Result<Replies, Fail> {
    let mut replies = Replies::new(alloc);
    replies.push(Reply::Range {
        at: position(2, 0),
        rows: rows(alloc, &[(0, 7), (12, 1_099_511_627_775)])?,
        cells: 1,
        distances: 5,
    })?;
    replies.push(Reply::Range {
        at: position(0, 0),
        rows: rows(alloc, &[])?,
        cells: 0,
        distances: 3,
    })?;
    replies.push(Reply::Nearest {
        at: position(2, 1),
        rows: rows(alloc, &[(3, 9)])?,
        cells: 1,
    })?;
    Ok(replies)
}

fn history(alloc: Global) -> Result<Log, Fail> {
    let mut log = Log::new(alloc);
    log.push(LogEvent::Update {
        session: 0,
        op: 1,
        update: Update::Insert {
            id: Id::new(7)?,
            vector: Vector::new(&[0, -1_000_000])?,
        },
    })?;
    log.push(LogEvent::Update {
        session: 1,
        op: 2,
        update: Update::Delete { id: Id::new(7)? },
    })?;
    log.push(LogEvent::Split {
        prefix: prefix(&[0, 31])?,
    })?;
    Ok(log)
}

fn leaf(items: &[u8], count: u32, hull: Option<(u32, u32)>) -> Result<Leaf, Fail> {
    Ok(Leaf {
        prefix: prefix(items)?,
        count,
        hull,
    })
}

fn outcome(alloc: Global) -> Result<Outcome, Fail> {
    let mut replies = Transcript::new(alloc);
    replies.push(updates(alloc)?)?;
    replies.push(queries(alloc)?)?;
    let mut cells = Leaves::new(alloc);
    cells.push(leaf(&[], 0, None)?)?;
    cells.push(leaf(&[0, 31, 5], 1, Some((3, 4)))?)?;
    cells.push(leaf(&[4], 20, Some((0, 9)))?)?;
    Ok(Outcome {
        replies,
        log: history(alloc)?,
        cells,
        entries: u64::MAX,
        allotted: 4,
        limit: 200_000,
        short: true,
    })
}

#[test]
fn each_kind_of_line_goes_out_in_pieces_of_any_size(rt: HostRuntime) -> Result<(), Fail> {
    let outcome = outcome(rt.alloc())?;
    for most in [1, 7, 4096] {
        let mut out = MemorySink::new(rt.alloc(), most, &[], 4096)?;
        assert_eq!(rt; render(&outcome, &mut out), Ok(()), "{most} bytes a call");
        assert_eq!(rt; out.bytes(), TEXT.as_bytes(), "{most} bytes a call");
    }
    Ok(())
}

#[test]
fn figures_are_summed_over_all_replies(rt: HostRuntime) -> Result<(), Fail> {
    let outcome = outcome(rt.alloc())?;
    let mut out = MemorySink::new(rt.alloc(), 7, &[], 4096)?;
    assert_eq!(rt; summary(7, &outcome, &mut out), Ok(()));
    assert_eq!(rt; out.bytes(), FIGURES.as_bytes());
    Ok(())
}
