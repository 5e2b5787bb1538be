//! Tables with their faults, and each metric by its bound.
ghost use Rattle.std.specs.Prelude.{◌≤◌, IfOk, IfSome};
ghost use Rattle.mi_base.specs.Configuration.{HasItsRows, IsTable, IsTableRow};

use crate::metrics::measured;
use mi_base::{MetricKind, NoMemory, Settings, TableRow, TableRows, Vector, VectorList};
use mi_table::{AnyMetric, TableFault, TableMetric};
use std::alloc::Global;
use std::test::Fail;

/// The row, if it has 1 to 128 values in their bounds.
fn row(alloc: Global, values: &[u32]) -> Result<Option<TableRow>, NoMemory>
    ensures { IfOk result (λ row. IfSome row IsTableRow) }
{
    if values.is_empty() || values.len() > 128 {
        return Ok(None);
    }
    let mut row = TableRow::new(alloc);
    for value in values {
        if *value > 128_000_000 {
            return Ok(None);
        }
        row.push(*value)?;
    }
    Ok(Some(row))
}

/// The rows, if they are 1 to 128 such rows.
fn table(alloc: Global, rows: &[&[u32]]) -> Result<Option<TableRows>, NoMemory>
    ensures { IfOk result (λ table. IfSome table IsTable) }
{
    if rows.is_empty() || rows.len() > 128 {
        return Ok(None);
    }
    let mut table = TableRows::new(alloc);
    for values in rows {
        let Some(row) = row(alloc, values)? else {
            return Ok(None);
        };
        table.push(row)?;
    }
    Ok(Some(table))
}

fn made(
    alloc: Global,
    metric: MetricKind,
    dims: u32,
    rows: TableRows,
) -> Result<AnyMetric, TableFault>
    requires some { 1 ≤ dims }
    requires few { dims ≤ 64 }
    requires rows { HasItsRows metric dims rows }
{
    let settings = Settings {
        metric,
        dims,
        rows,
        pivots: VectorList::new(alloc),
        levels: 0,
        cell: 4,
        updates: 8,
        pages: 4,
    };
    AnyMetric::of(alloc, &settings)
}

#[test]
fn each_table_has_its_first_fault(rt: HostRuntime) -> Result<(), Fail> {
    let cases: [(&[&[u32]], Option<TableFault>); 12] = [
        (&[&[0]], None),
        (&[&[0, 1, 2], &[1, 0, 1], &[2, 1, 0]], None),
        (&[&[0, 1], &[1]], Some(TableFault::NotSquare { row: 1 })),
        (
            &[&[5, 1, 1], &[1, 0]],
            Some(TableFault::NotSquare { row: 0 }),
        ),
        (&[&[0, 1], &[1, 7]], Some(TableFault::Diagonal { i: 1 })),
        (&[&[0, 0], &[0, 0]], Some(TableFault::Zero { i: 0, j: 1 })),
        (&[&[0, 1], &[0, 0]], Some(TableFault::Zero { i: 1, j: 0 })),
        (
            &[&[0, 1, 2], &[1, 0, 1], &[2, 2, 0]],
            Some(TableFault::Asymmetric { i: 1, j: 2 }),
        ),
        (
            &[&[0, 9, 2], &[1, 0, 1], &[2, 2, 0]],
            Some(TableFault::Asymmetric { i: 0, j: 1 }),
        ),
        (
            &[&[0, 1, 3], &[1, 0, 1], &[3, 1, 0]],
            Some(TableFault::Triangle { i: 0, j: 1, k: 2 }),
        ),
        (
            &[&[0, 1, 1], &[1, 0, 3], &[1, 3, 0]],
            Some(TableFault::Triangle { i: 1, j: 0, k: 2 }),
        ),
        (
            &[&[0, 1, 9], &[1, 0, 1], &[9, 2, 0]],
            Some(TableFault::Asymmetric { i: 1, j: 2 }),
        ),
    ];
    for (rows, fault) in cases {
        let rows = table(rt.alloc(), rows)?.ok_or("no table")?;
        assert_eq!(rt; TableMetric::new(rows).err(), fault);
    }
    Ok(())
}

#[test]
fn each_setting_has_its_metric(rt: HostRuntime) -> Result<(), Fail> {
    let alloc = rt.alloc();
    let a = Vector::new(&[0, 0])?;
    let b = Vector::new(&[3, 4])?;
    let l1 = made(alloc, MetricKind::L1, 2, TableRows::new(alloc))?;
    let max = made(alloc, MetricKind::Max, 2, TableRows::new(alloc))?;
    let hamming = made(alloc, MetricKind::Hamming, 2, TableRows::new(alloc))?;
    assert_eq!(rt; measured(&l1, &a, &b), Some(7));
    assert_eq!(rt; measured(&max, &a, &b), Some(4));
    assert_eq!(rt; measured(&hamming, &a, &b), Some(2));
    Ok(())
}

#[test]
fn a_table_measures_its_rows(rt: HostRuntime) -> Result<(), Fail> {
    let alloc = rt.alloc();
    let first = Vector::new(&[0])?;
    let last = Vector::new(&[2])?;
    let none = Vector::new(&[3])?;
    let line: &[&[u32]] = &[&[0, 1, 2], &[1, 0, 1], &[2, 1, 0]];
    let own = TableMetric::new(table(alloc, line)?.ok_or("no table")?)?;
    let any = made(
        alloc,
        MetricKind::Table,
        1,
        table(alloc, line)?.ok_or("no table")?,
    )?;
    assert_eq!(rt; measured(&own, &first, &last), Some(2));
    assert_eq!(rt; measured(&any, &last, &first), Some(2));
    assert_eq!(rt; measured(&any, &first, &none), None);
    let bent = table(alloc, &[&[0, 1, 3], &[1, 0, 1], &[3, 1, 0]])?.ok_or("no table")?;
    let fault = made(alloc, MetricKind::Table, 1, bent).err();
    assert_eq!(rt; fault, Some(TableFault::Triangle { i: 0, j: 1, k: 2 }));
    Ok(())
}
