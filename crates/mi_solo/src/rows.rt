//! What the core keeps of each actor.
ghost use Rattle.std.specs.Prelude.{◌≡◌, ℕ, [], None, Some, true, false, length};
ghost use Rattle.mi_base.specs.Configuration.{Configuration};
ghost use Rattle.mi_board.specs.Boards.{floor_of};
ghost use Rattle.mi_core.specs.Events.{first_actor};
ghost use Rattle.mi_solo.specs.States.{actor_of};

use crate::hands::Hand;
use mi_base::{Position, Prefix};
use mi_board::Board;
use mi_key::{Entry, Key};
use mi_tree::Catalog;
use std::alloc::Global;
use std::marker::Model;
use std::sync::Arc;

/// A pinned position with its cells, which pins of one position share.
#[derive(Drop)]
pub struct PinRow {
    pub at: Position,
    pub cells: Arc<Catalog, Global>,
}

/// A split under way: its leaf, the key up to which it has gathered, what it gathered, and how much of that it has copied.
#[derive(Drop)]
pub struct SplitRow {
    pub leaf: Prefix,
    pub mark: Key,
    pub gathered: Vec<Entry>,
    pub copied: usize,
}

/// A sweep under way: its leaf, and the key up to which it has swept.
#[derive(Drop)]
pub struct SweepRow {
    pub leaf: Prefix,
    pub mark: Key,
}

/// What is known of one actor. Its own updates are those that the log has of it.
#[derive(Drop)]
pub struct ActorRow {
    pub seen: usize,
    pub floor: Position,
    pub reserved: bool,
    pub reserved_here: bool,
    pub shard: Option<u32>,
    pub claim: Option<Prefix>,
    pub sweep: Option<SweepRow>,
    pub pin: Option<PinRow>,
    pub split: Option<SplitRow>,
    pub hand: Hand,
    pub page: u32,
    pub tried: u32,
    pub found: Option<u32>,
    pub lacked: bool,
    pub undone: bool,
    pub early: bool,
    pub ended: bool,
}

impl ActorRow {
    /// An actor at the opening, which has seen nothing and holds nothing.
    pub fn first(alloc: Global) -> ActorRow
        ensures { (settings : Configuration) (a : ℕ) → actor_of settings [] a result ≡ first_actor }
    {
        ActorRow {
            seen: 0,
            floor: Position {
                updates: 0,
                splits: 0,
            },
            reserved: false,
            reserved_here: false,
            shard: None,
            claim: None,
            sweep: None,
            pin: None,
            split: None,
            hand: Hand::empty(alloc),
            page: 0,
            tried: 0,
            found: None,
            lacked: false,
            undone: false,
            early: false,
            ended: false,
        }
    }

    /// It has seen the whole log.
    pub fn see(&mut self, board: &Board)
        ensures { self.new ≡ record self.old { seen = length board.now.log } }
    {
        self.seen = board.log().len();
    }

    /// It has seen the whole log, and the floor of this moment.
    pub fn look(&mut self, board: &Board)
        ensures { self.new ≡ record self.old { seen = length board.now.log; floor = floor_of board.now } }
    {
        self.see(board);
        self.floor = board.look().floor;
    }

    /// It found another actor at the shard.
    pub fn miss_shard(&mut self, shard: u32, by: Option<u32>)
        ensures { self.new ≡ record self.old { tried = shard; found = by } }
    {
        self.tried = shard;
        self.found = by;
    }

    /// It holds the shard.
    pub fn take_shard(&mut self, shard: u32)
        ensures { self.new ≡ record self.old { shard = Some shard; tried = shard; found = None; reserved_here = false } }
    {
        self.shard = Some(shard);
        self.tried = shard;
        self.found = None;
        self.reserved_here = false;
    }

    /// It holds no shard any more.
    pub fn leave_shard(&mut self)
        ensures { self.new ≡ record self.old { shard = None; reserved_here = false } }
    {
        self.shard = None;
        self.reserved_here = false;
    }

    /// It has reserved an update, and seen the floor before that.
    pub fn reserve(&mut self, board: &Board, floor: Position)
        ensures { self.new ≡ record self.old { seen = length board.now.log; floor = floor; reserved = true; reserved_here = true } }
    {
        self.see(board);
        self.floor = floor;
        self.reserved = true;
        self.reserved_here = true;
    }

    /// It claims the leaf of the prefix.
    pub fn take_leaf(&mut self, board: &Board, prefix: &Prefix)
        ensures { self.new ≡ record self.old { seen = length board.now.log; claim = Some prefix.now } }
    {
        self.see(board);
        self.claim = Some(prefix.copy());
    }

    /// It claims no leaf any more.
    pub fn leave_leaf(&mut self, board: &Board)
        ensures { self.new ≡ record self.old { seen = length board.now.log; claim = None } }
    {
        self.see(board);
        self.claim = None;
    }

    /// It has pinned this position, and seen the floor before that.
    pub fn pin(&mut self, board: &Board, floor: Position, pin: PinRow)
        ensures { self.new ≡ record self.old { seen = length board.now.log; floor = floor; pin = Some pin } }
    {
        self.see(board);
        self.floor = floor;
        self.pin = Some(pin);
    }

    /// It has no pin any more.
    pub fn unpin(&mut self, board: &Board)
        ensures { self.new ≡ record self.old { seen = length board.now.log; pin = None } }
    {
        self.see(board);
        self.pin = None;
    }

    /// It has made a section of the page.
    pub fn note(&mut self, page: u32)
        ensures { self.new ≡ record self.old { page = page } }
    {
        self.page = page;
    }

    /// It has made a section of the page and of the board.
    pub fn meet(&mut self, board: &Board, page: u32)
        ensures { self.new ≡ record self.old { seen = length board.now.log; page = page } }
    {
        self.see(board);
        self.page = page;
    }

    /// It wanted memory for a page.
    pub fn lack(&mut self, board: &Board)
        ensures { self.new ≡ record self.old { seen = length board.now.log; lacked = true } }
    {
        self.see(board);
        self.lacked = true;
    }

    /// It has ended: it owes nothing, and its flags are those of the one that absorbed it.
    pub fn end(&mut self)
        ensures { self.new ≡ record self.old { hand = record self.old.hand { owed = [] }; reserved_here = false; undone = false; early = false; ended = true } }
    {
        self.hand.forget();
        self.reserved_here = false;
        self.undone = false;
        self.early = false;
        self.ended = true;
    }

    /// It has committed an update at the page, which uses what it had reserved.
    pub fn commit(&mut self, board: &Board, page: u32)
        ensures { self.new ≡ record self.old { seen = length board.now.log; reserved = false; reserved_here = false; page = page } }
    {
        self.meet(board, page);
        self.reserved = false;
        self.reserved_here = false;
    }
}
