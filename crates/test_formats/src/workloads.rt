//! Workloads against the places of their draws.

use mi_base::{Actor, Op, Script, Take, Vector};
use mi_make::{Workload, make};
use std::test::Fail;

/// Numbers by the generator that Knuth's MMIX has.
#[derive(Drop)]
struct Draws {
    state: u64,
}

impl Draws {
    fn coordinate(&mut self) -> i32 {
        self.state = self
            .state
            .wrapping_mul(6_364_136_223_846_793_005)
            .wrapping_add(1_442_695_040_888_963_407);
        ((self.state >> 33) % 1001) as i32
    }
}

/// The first coordinate of a vector that so many draws come before.
fn first_after(seed: u64, draws: u32) -> i32 {
    let mut numbers = Draws { state: seed };
    for _ in 0..draws {
        numbers.coordinate();
    }
    numbers.coordinate()
}

fn first(vector: &Vector) -> Option<i32> {
    vector.as_slice().first().copied()
}

/// How many operations of each kind a script has: inserts, deletes, ranges, nearest.
fn kinds(script: &Script) -> [usize; 4] {
    let mut counts = [0_usize; 4];
    for op in script.as_slice() {
        let kind = match op {
            Op::Insert { .. } => 0,
            Op::Delete { .. } => 1,
            Op::Range { .. } => 2,
            Op::Nearest { .. } => 3,
        };
        counts[kind] = counts[kind].saturating_add(1);
    }
    counts
}

/// The object's vector in its script.
fn object(workload: &Workload, number: u32) -> Option<&Vector> {
    let script = &workload.scripts[(number % 2) as usize];
    script.as_slice().iter().find_map(|op| match op {
        Op::Insert { id, vector } if id.get() == u64::from(number) => Some(vector),
        _ => None,
    })
}

#[test]
fn each_vector_is_drawn_in_its_place(rt: HostRuntime) -> Result<(), Fail> {
    for seed in [0, 1, 77, u64::MAX] {
        let workload = make(rt.alloc(), seed)?;
        let last = workload.settings.pivots.as_slice().get(11);
        assert_eq!(rt; last.and_then(first), Some(first_after(seed, 176)));
        // before an object come the pivots, and the objects, ranges and queries for the nearest before it
        for number in [0_u32, 1, 24, 25, 49, 50, 2_499, 4_999] {
            let draws = 192 + 16 * (number + number / 25 + number / 50);
            let begins = object(&workload, number).and_then(first);
            assert_eq!(rt; begins, Some(first_after(seed, draws)));
        }
        assert_eq!(rt; kinds(&workload.scripts[0]), [2500, 0, 100, 0]);
        assert_eq!(rt; kinds(&workload.scripts[1]), [2500, 100, 100, 100]);
        assert_eq!(rt; workload.schedule.len(), 4000);
    }
    Ok(())
}

#[test]
fn a_generator_goes_on_as_stated(rt: HostRuntime) -> Result<(), Fail> {
    let mut draws = Draws { state: 1 };
    assert_eq!(rt; draws.coordinate(), 848);
    assert_eq!(rt; draws.state, 7_806_831_264_735_756_412);
    Ok(())
}

#[test]
fn the_schedule_gives_turns_to_three_actors(rt: HostRuntime) -> Result<(), Fail> {
    let workload = make(rt.alloc(), 1)?;
    let mut turns = [0_u64; 3];
    for item in workload.schedule.as_slice() {
        let place = match item.actor {
            Actor::Session { number } => number as usize,
            Actor::Splitter => 2,
        };
        match item.take {
            Take::Turns { count } if count <= 20 && place < 3 => {
                turns[place] = turns[place].saturating_add(u64::from(count));
            }
            _ => assert!(rt; false),
        }
    }
    assert!(rt; turns.iter().all(|count| *count > 12_000));
    Ok(())
}
