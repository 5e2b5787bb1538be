//! What the sections of splits and sweeps change in an actor's row.
ghost use Rattle.std.specs.Prelude.{◌≡◌, Some, None, cond, length, true};
ghost use Rattle.mi_core.specs.Events.{copied_to};
ghost use Rattle.mi_solo.specs.States.{split_of};
ghost use Rattle.mi_solo.specs.WorkRows.{opened_split, swept_row};

use crate::rows::{ActorRow, SplitRow, SweepRow};
use mi_base::{Position, Prefix};
use mi_board::Board;
use mi_key::Key;
use std::alloc::Global;

impl ActorRow {
    /// It has seen the whole log, and this floor.
    pub fn learn(&mut self, board: &Board, floor: Position)
        ensures { self.new ≡ record self.old { seen = length board.now.log; floor = floor } }
    {
        self.see(board);
        self.floor = floor;
    }

    /// It was given the leaf to split, and claims it.
    pub fn take_split(&mut self, board: &Board, floor: Position, leaf: &Prefix)
        ensures { self.new ≡ record self.old { seen = length board.now.log; floor = floor; claim = Some leaf.now } }
    {
        self.learn(board, floor);
        self.claim = Some(leaf.copy());
    }

    /// It was given the leaf to sweep, from its first key on.
    pub fn take_sweep(&mut self, board: &Board, floor: Position, leaf: &Prefix, mark: Key)
        ensures { self.new ≡ record self.old { seen = length board.now.log; floor = floor; sweep = Some (record { leaf = leaf.now; mark = mark }) } }
    {
        self.learn(board, floor);
        let leaf = leaf.copy();
        self.sweep = Some(SweepRow { leaf, mark });
    }

    /// It has swept the page, up to this key; at the end of its leaf the sweep is over.
    pub fn sweep_up_to(&mut self, page: u32, mark: Key, end: Key)
        ensures { self.new ≡ record self.old { page = page; sweep = swept_row mark end self.old.sweep } }
    {
        self.note(page);
        if mark == end {
            self.sweep = None;
        } else if let Some(work) = &mut self.sweep {
            work.mark = mark;
        }
    }

    /// Its split is over, and its claim with it.
    pub fn end_split(&mut self, board: &Board)
        ensures { self.new ≡ record self.old { seen = length board.now.log; claim = None; split = None } }
    {
        self.leave_leaf(board);
        self.split = None;
    }

    /// Its split is under way: as it was, or of this leaf with nothing gathered. It has made a section of the page.
    pub fn open_split(&mut self, alloc: Global, page: u32, leaf: Prefix, first: Key)
        ensures rest { self.new ≡ record self.old { page = page; split = self.new.split } }
        ensures split { split_of self.new.split ≡ Some (opened_split leaf first (split_of self.old.split)) }
    {
        self.note(page);
        if self.split.is_none() {
            self.split = Some(SplitRow {
                leaf,
                mark: first,
                gathered: Vec::new(alloc),
                copied: 0,
            });
        }
    }

    /// So much of what it gathered is copied. It has made a section of the page.
    pub fn copy_up_to(&mut self, page: u32, copied: usize)
        ensures rest { self.new ≡ record self.old { page = page; split = self.new.split } }
        ensures split { split_of self.new.split ≡ copied_to copied (split_of self.old.split) }
    {
        self.note(page);
        if let Some(work) = &mut self.split {
            work.copied = copied;
        }
    }

    /// It took its last copy back, and so much is copied still: too early, unless it was told that all pages are allotted.
    pub fn take_back(&mut self, page: u32, copied: usize, told: bool)
        ensures rest { self.new ≡ record self.old { page = page; split = self.new.split; undone = true; early = cond told self.old.early true } }
        ensures split { split_of self.new.split ≡ copied_to copied (split_of self.old.split) }
    {
        self.copy_up_to(page, copied);
        self.undone = true;
        if !told {
            self.early = true;
        }
    }
}
