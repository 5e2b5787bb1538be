//! Places that read in threads, and the allotment of the last page.
ghost use Rattle.std.specs.Prelude.{◌≡◌, ◌<◌, None};

use crate::opening::line;
use mi_base::{Id, NoMemory};
use mi_hall::Hall;
use mi_key::{Entry, Interval, Key, Sieve};
use mi_tree::AllotRefusal;
use mi_world::{Forks, Visit, World};
use std::alloc::Global;
use std::test::Fail;
use std::thread::{self, Threads};

/// Counts what it is offered.
#[derive(Drop)]
struct Counter {
    entries: u64,
}

impl Sieve for Counter {
    ghost spare = { λ s. 32 };

    ghost takes = { λ s e. Unit {0} };

    ghost offered = { λ s xs t. Unit {0} };

    fn room(&mut self) -> Result<(), NoMemory> {
        Ok(())
    }

    fn offer(&mut self, _entry: &Entry) {
        self.entries = self.entries.saturating_add(1);
    }

    ghost none = { λ s. tt };

    ghost more = { λ s t u xs ys a b. tt };

    ghost takes_on = { λ s t xs e a h. tt };
}

/// An interval that ends before it begins, so that it lies in every cell.
#[tactic(auto, unfolding(mi_key::specs::Keys::key_of))]
fn no_keys() -> Interval
    ensures { result.to < result.from }
{
    let Ok(id) = Id::new(0) else { unreachable!() };
    Interval {
        from: Key::make(0, 0, id, 1),
        to: Key::make(0, 0, id, 0),
    }
}

/// Pins the log, visits page 0 and unpins. Whether the page was read.
fn read_once<W: World>(alloc: Global, world: &mut W) -> bool
    requires { (W.view world.old).pin ≡ None }
    ensures { (W.view world.new).pin ≡ None }
{
    if world.pin(alloc).is_err() {
        return false;
    }
    if world.pinned().len() == 0 {
        world.unpin();
        return false;
    }
    let mut counter = Counter { entries: 0 };
    let visit = world.visit(0, &no_keys(), &mut counter);
    world.unpin();
    visit == Visit::Read { next: None } && counter.entries == 0
}

/// Does so a thousand times.
fn read_often<W: World + Drop>(alloc: Global, world: W) -> bool
    requires { (W.view world).pin ≡ None }
{
    let mut world = world;
    for _ in 0..1000 {
        if !read_once(alloc, &mut world) {
            return false;
        }
    }
    true
}

/// Both read, each in a thread of its own.
fn read_beside<R: Threads + Sync, W: World + Send + Drop>(
    rt: &R,
    alloc: Global,
    first: W,
    second: W,
) -> bool
    requires first { (W.view first).pin ≡ None }
    requires second { (W.view second).pin ≡ None }
{
    let (one, other) = thread::join(
        rt,
        move ||
            requires { (W.view first).pin ≡ None }
        { read_often(alloc, first) },
        move ||
            requires { (W.view second).pin ≡ None }
        { read_often(alloc, second) },
    );
    one && other
}

/// Two new actors read, each in a thread of its own.
fn read_in_two<R: Threads + Sync, W: Forks + Send + Drop>(
    rt: &R,
    alloc: Global,
    maker: &mut W,
) -> Result<bool, NoMemory> {
    let first = maker.fork(alloc)?;
    let second = maker.fork(alloc)?;
    Ok(read_beside(rt, alloc, first, second))
}

/// A new actor takes a fresh page in hand.
fn allot<W: Forks + Drop>(alloc: Global, maker: &mut W) -> Result<(), AllotRefusal> {
    let Ok(mut child) = maker.fork(alloc) else {
        return Err(AllotRefusal::Memory);
    };
    child.allot(alloc)
}

#[test]
fn the_last_page_is_allotted_once_while_two_read(rt: HostRuntime) -> Result<(), Fail> {
    let alloc = rt.alloc();
    let settings = line(alloc, &[], 0, 2)?;
    let (hall, pass) = Hall::open(alloc, &settings)?;
    let mut maker = hall.place(&rt, pass);
    assert_eq!(rt; read_in_two(&rt, alloc, &mut maker), Ok(true));
    assert_eq!(rt; allot(alloc, &mut maker), Ok(()));
    let full = AllotRefusal::PagesFull { limit: 2 };
    assert_eq!(rt; allot(alloc, &mut maker), Err(full));
    Ok(())
}
