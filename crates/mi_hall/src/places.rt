//! The hall, and the places in it.
ghost use Rattle.std.specs.Prelude.{◌≡◌, ◌≤◌, IfOk};
ghost use Rattle.mi_base.specs.Configuration.{metric_space};
ghost use Rattle.mi_base.specs.Space.{IsMetric};
ghost use Rattle.mi_latch.specs.Views.{newcomer};

use crate::absorbed::spare;
use crate::passes::Pass;
use mi_base::{NoMemory, Settings};
use mi_latch::LatchTable;
use std::alloc::Global;
use std::marker::Model;
use std::sync::Wait;

/// What all places share: the board, the shards and the pages, each taken by one place at a time.
#[derive(Drop)]
pub struct Hall {
    pub(crate) latches: LatchTable,
}

impl Model for Hall {
    ghost use Rattle.atomic_table.specs.Seated.{TableId, table_id_coded};

    ghost Value = { TableId };

    ghost coded = { table_id_coded };

    ghost view = { λ h. h.latches.table.shared.table_id };
}

impl Hall {
    /// A hall for these settings, with page 0 alone and an empty log, and the pass of its first
    /// actor.
    pub fn open(alloc: Global, settings: &Settings) -> Result<(Hall, Pass), NoMemory>
        requires metric { IsMetric (metric_space settings.now) }
        ensures hall { IfOk result (λ t. t.1.table ≡ t.0) }
        ensures pass { IfOk result (λ t. t.1.sight ≡ newcomer settings.now) }
    {
        let gone = spare(alloc)?;
        let (latches, seat) = LatchTable::open(alloc, settings)?;
        has_page(settings);
        Ok((Hall { latches }, Pass::first(alloc, seat, gone)))
    }

    /// The place of a pass.
    pub fn place<'h, R: Wait>(&'h self, rt: &'h R, pass: Pass) -> Place<'h, R>
        requires { pass.table ≡ self.now }
        ensures { result ≡ pass }
    {
        Place {
            hall: self,
            rt,
            pass,
        }
    }
}

/// A hall has a page at least. The function does nothing.
fn has_page(settings: &Settings)
    ensures { 1 ≤ settings.now.pages }
{
    let _pages = settings.pages;
}

/// One actor of the hall. Its calls wait while others have what they need.
#[derive(Drop)]
pub struct Place<'h, R: Wait> {
    pub(crate) hall: &'h Hall,
    pub(crate) rt: &'h R,
    pub(crate) pass: Pass,
}

impl<'h, R: Wait> Model for Place<'h, R> {
    ghost use Rattle.std.specs.Prelude.{◌≡◌};
    ghost use Rattle.mi_hall.specs.Passes.{PassState};

    ghost Value = { PassState };

    ghost view = { λ p. p.pass };

    ghost invariant = { λ p. p.pass.table ≡ p.hall.now };
}

impl<'h, R: Wait> Place<'h, R> {
    /// The place without its loan of the hall.
    pub fn into_pass(self) -> Pass
        ensures { result ≡ self.entry }
    {
        let Place {
            hall: _hall,
            rt: _rt,
            pass,
        } = self;
        pass
    }
}
