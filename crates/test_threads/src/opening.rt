//! Settings on a line, and the session of a first actor.
ghost use Rattle.std.specs.Prelude.{◌≡◌, IfOk};
ghost use Rattle.mi_base.specs.Configuration.{metric_space};
ghost use Rattle.mi_base.specs.Space.{l1_metric};
ghost use Rattle.mi_hall.specs.Passes.{place_view};
ghost use Rattle.mi_latch.specs.Views.{newcomer};

use mi_base::{MetricKind, Settings, TableRows, Vector, VectorList};
use mi_hall::{Hall, Pass, Place};
use mi_metric::L1;
use mi_perm::Pivots;
use mi_session::Session;
use std::alloc::Global;
use std::sync::Wait;
use std::test::Fail;

/// Settings for objects on a line with these pivots, where a cell holds two.
pub fn line(alloc: Global, places: &[i64], levels: u32, pages: u32) -> Result<Settings, Fail>
    ensures { IfOk result (λ settings. metric_space settings ≡ l1_metric 1) }
{
    let mut list = VectorList::new(alloc);
    for place in places {
        list.push(Vector::new(&[*place])?)?;
    }
    if list.len() > 32 || !Pivots::new(alloc, &list)?.all_fit(&L1::new(1)) {
        return Err("pivots on the line".into());
    }
    if (levels as usize) < list.len().min(1) || (levels as usize) > list.len().min(6) {
        return Err("levels for the pivots".into());
    }
    if pages < 1 || pages > 200_000 {
        return Err("some pages".into());
    }
    Ok(Settings {
        metric: MetricKind::L1,
        dims: 1,
        rows: TableRows::new(alloc),
        pivots: list,
        levels,
        cell: 2,
        updates: 1000,
        pages,
    })
}

/// A session of a hall's first actor.
pub fn seated<'h, 'a, R: Wait>(
    rt: &'h R,
    hall: &'h Hall,
    pass: Pass,
    settings: &Settings,
    metric: &'a L1,
    pivots: &'a Pivots,
) -> Session<'a, Place<'h, R>, L1>
    requires table { pass.table ≡ hall.now }
    requires new { pass.sight ≡ newcomer settings.now }
    requires space { l1_metric metric.now.dims ≡ metric_space settings.now }
    requires pivots { pivots.now ≡ settings.now.pivots }
    ensures session { result ≡ record { world = pass; operations = 0 } }
    ensures settings { (place_view result.world).settings ≡ settings.now }
{
    let _pages = settings.pages;
    Session::new(hall.place(rt, pass), metric, pivots)
}
