//! Records that come and go, with gaps that are closed.
use mi_base::{Dists, Id};
use mi_shard::{RecordRow, ShardRows};
use std::process::Abort;
use std::test::Fail;

fn id(rt: &impl Abort, number: u32) -> Id {
    Id::new(number as u64).expect(rt, "below 2^40")
}

/// Inserts a record of the number, which has none, where there is room for one more.
fn insert(rt: &impl Abort, rows: &mut ShardRows, number: u32) {
    let id = id(rt, number);
    assert!(rt; rows.record(id).is_none());
    assert!(rt; rows.len() < rows.room());
    rows.insert(RecordRow {
        id,
        birth: u32::MAX - number,
        dists: Dists::new(),
    });
}

/// Among the numbers below the bound just those from the first one on have records, each its own.
fn has_just(rt: &impl Abort, rows: &ShardRows, first: u32, bound: u32) -> bool {
    for number in 0..bound {
        let birth = match rows.record(id(rt, number)) {
            Some(row) => Some(row.birth),
            None => None,
        };
        let wanted = if number < first {
            None
        } else {
            Some(u32::MAX - number)
        };
        if birth != wanted {
            return false;
        }
    }
    true
}

#[test]
fn records_are_found_where_most_were_removed(rt: HostRuntime) -> Result<(), Fail> {
    let mut rows = ShardRows::new(rt.alloc());
    for number in 0..100 {
        rows.reserve()?;
        insert(&rt, &mut rows, number);
    }
    for number in 0..90 {
        rows.reserve()?;
        rows.remove(id(&rt, number));
        assert!(rt; has_just(&rt, &rows, number + 1, 100));
    }
    rows.reserve()?;
    insert(&rt, &mut rows, 100);
    assert!(rt; has_just(&rt, &rows, 90, 101));
    assert_eq!(rt; rows.len(), 11);
    Ok(())
}

#[test]
fn what_is_promised_outlasts_removals(rt: HostRuntime) -> Result<(), Fail> {
    let mut rows = ShardRows::new(rt.alloc());
    for number in 0..20 {
        rows.reserve()?;
        insert(&rt, &mut rows, number);
    }
    rows.reserve()?;
    for number in 0..20 {
        rows.remove(id(&rt, number));
    }
    assert_eq!(rt; rows.room(), 21);
    for number in 20..41 {
        insert(&rt, &mut rows, number);
        rows.remove(id(&rt, 50));
        assert!(rt; has_just(&rt, &rows, 20, number + 1));
    }
    rows.promise(0);
    assert_eq!(rt; rows.len(), 21);
    Ok(())
}
