//! Pages beside a plain program: lists of identifiers with births and deaths.
ghost use Rattle.std.specs.Prelude.{◌≡◌, ◌-◌, ◌++◌, map, vec_capacity, vec_len};
ghost use Rattle.mi_page.specs.Keys.{is_below};

use mi_base::{Dists, Id, NoMemory, Vector};
use mi_key::{Entry, Interval, Key, Sieve};
use mi_page::{Page, found_entries_live};
use std::alloc::Global;
use std::process::Abort;
use std::test::Fail;

/// An identifier, a birth number, and a death number or none.
type Life = (u64, u32, Option<u32>);

/// Keeps the identifiers of the entries that it is offered.
#[derive(Drop)]
struct Collector {
    ids: Vec<u64>,
}

impl Sieve for Collector {
    ghost use Rattle.std.proofs.Common.{refl, ap, sym, ◌∙◌, append_assoc};
    ghost use Rattle.std.proofs.lemmas.List.{append-nil, map-append};

    ghost spare = { λ s. vec_capacity s.ids - vec_len s.ids };

    ghost takes = { λ s e. s.ids ≡ s.ids };

    ghost offered = { λ s xs t. t.ids.items ≡ s.ids.items ++ map (λ o. o.object.id) xs };

    fn room(&mut self) -> Result<(), NoMemory> {
        self.ids.reserve(32)?;
        Ok(())
    }

    fn offer(&mut self, entry: &Entry) {
        self.ids.push_reserved(entry.key.parts().id.get());
    }

    ghost none = { λ s. sym (append-nil s.ids.items) };

    ghost more = { λ s t u xs ys a b. b ∙ ap (λ ids. ids ++ map (λ o. o.object.id) ys) a ∙ append_assoc s.ids.items (map (λ o. o.object.id) xs) (map (λ o. o.object.id) ys) ∙ ap (λ ids. s.ids.items ++ ids) (sym (map-append (λ o. o.object.id) xs ys)) };

    ghost takes_on = { λ s t xs e a h. refl };
}

fn key(rt: &impl Abort, id: u64) -> Key {
    Key::make(1, 0, Id::new(id).expect(rt, "below 2^40"), 0)
}

fn entry(rt: &impl Abort, life: Life) -> Entry {
    Entry {
        key: key(rt, life.0),
        vector: Vector::new(&[1]).expect(rt, "a coordinate"),
        dists: Dists::new(),
        birth: life.1,
        death: life.2,
    }
}

fn is_below(high: Option<Key>, key: Key) -> bool
    ensures { result ≡ is_below high key }
{
    match high {
        None => true,
        Some(high) => key < high,
    }
}

/// Makes each condition's test, and inserts.
fn insert(rt: &impl Abort, page: &mut Page, life: Life) {
    let entry = entry(rt, life);
    assert!(rt; page.level() == 0);
    assert!(rt; page.len() < 32 && page.low() <= entry.key && is_below(page.high(), entry.key));
    assert!(rt; page.find(entry.key).is_none());
    page.insert_spare(entry);
}

/// Makes each condition's test, and marks a death.
fn kill(rt: &impl Abort, page: &mut Page, key: Key, number: u32) {
    assert!(rt; page.level() == 0);
    let place = page.find(key).expect(rt, "an entry");
    assert!(rt; place < page.len());
    let entry = page.entry(place);
    assert!(rt; entry.key == key && entry.death.is_none());
    found_entries_live();
    page.mark_death(key, number);
}

/// Makes each condition's test, and answers the child.
fn child_of(rt: &impl Abort, page: &Page, key: Key) -> u32 {
    assert!(rt; page.level() > 0 && page.low() <= key);
    page.child(key)
}

/// Makes each condition's test, and inserts a route.
fn route(rt: &impl Abort, page: &mut Page, key: Key, child: u32) {
    assert!(rt; page.level() > 0);
    assert!(rt; page.len() < 32 && page.low() <= key && is_below(page.high(), key));
    assert!(rt; !page.has_route(key));
    page.insert_route(key, child);
}

fn lowest(rt: &impl Abort) -> Key {
    Key::make(0, 0, Id::new(0).expect(rt, "below 2^40"), 0)
}

/// The identifiers in the order of their entries.
fn ids(alloc: Global, rt: &impl Abort, page: &Page) -> Result<Vec<u64>, NoMemory> {
    assert!(rt; page.level() == 0);
    let mut ids = Vec::new(alloc);
    for place in 0..page.len() {
        ids.push(page.entry(place).key.parts().id.get())?;
    }
    Ok(ids)
}

/// The identifiers of the entries of an interval that are offered.
fn offered(
    alloc: Global,
    rt: &impl Abort,
    page: &Page,
    range: &Interval,
    updates: u32,
) -> Result<Vec<u64>, NoMemory> {
    assert!(rt; page.level() == 0);
    let mut sieve = Collector {
        ids: Vec::new(alloc),
    };
    sieve.room()?;
    page.offer(range, updates, &mut sieve);
    Ok(sieve.ids)
}

/// The plain program: identifiers from one to another whose life has the position.
fn plain_shown(
    alloc: Global,
    lives: &[Life],
    from: u64,
    to: u64,
    updates: u32,
) -> Result<Vec<u64>, NoMemory> {
    let mut ids = Vec::new(alloc);
    for (id, birth, death) in lives {
        let dead = death.is_some_and(|death| death <= updates);
        if from <= *id && *id <= to && *birth <= updates && !dead {
            ids.push(*id)?;
        }
    }
    Ok(ids)
}

const LIVES: [Life; 5] = [
    (1, 1, None),
    (2, 1, Some(2)),
    (3, 2, Some(4)),
    (4, 3, None),
    (6, 5, Some(6)),
];

fn small_page(alloc: Global, rt: &impl Abort) -> Result<Page, NoMemory> {
    let mut page = Page::fresh(alloc)?;
    for life in LIVES {
        insert(rt, &mut page, life);
    }
    Ok(page)
}

#[test]
fn a_fresh_page_has_nothing(rt: HostRuntime) -> Result<(), Fail> {
    let page = Page::fresh(rt.alloc())?;
    assert!(rt; page.level() == 0 && page.len() == 0 && page.low() == lowest(&rt));
    assert!(rt; page.high().is_none() && page.right().is_none());
    Ok(())
}

#[test]
fn entries_stand_in_key_order(rt: HostRuntime) -> Result<(), Fail> {
    for order in [[1, 2, 3], [3, 2, 1], [2, 3, 1], [3, 1, 2]] {
        let mut page = Page::fresh(rt.alloc())?;
        for id in order {
            insert(&rt, &mut page, (id, 1, None));
        }
        assert_eq!(rt; ids(rt.alloc(), &rt, &page)?.as_slice(), &[1, 2, 3][..]);
    }
    Ok(())
}

#[test]
fn what_is_offered_is_what_the_plain_program_shows(rt: HostRuntime) -> Result<(), Fail> {
    let page = small_page(rt.alloc(), &rt)?;
    for (from, to) in [(0, 9), (2, 4), (3, 3), (5, 5), (6, 9)] {
        let range = Interval {
            from: key(&rt, from),
            to: key(&rt, to),
        };
        for updates in 0..8 {
            let plain = plain_shown(rt.alloc(), &LIVES, from, to, updates)?;
            let shown = offered(rt.alloc(), &rt, &page, &range, updates)?;
            assert_eq!(rt; shown.as_slice(), plain.as_slice());
        }
    }
    Ok(())
}

#[test]
fn trims_and_sweeps_take_out_their_entries(rt: HostRuntime) -> Result<(), Fail> {
    for (floor, left) in [
        (1, &[1, 2, 3, 4, 6][..]),
        (2, &[1, 3, 4, 6]),
        (5, &[1, 4, 6]),
        (6, &[1, 4]),
    ] {
        let mut page = small_page(rt.alloc(), &rt)?;
        assert!(rt; page.level() == 0);
        page.trim(floor);
        assert_eq!(rt; ids(rt.alloc(), &rt, &page)?.as_slice(), left);
    }
    for (from, to, left) in [
        (2, 4, &[1, 6][..]),
        (0, 1, &[2, 3, 4, 6]),
        (5, 5, &[1, 2, 3, 4, 6]),
    ] {
        let mut page = small_page(rt.alloc(), &rt)?;
        assert!(rt; page.level() == 0);
        page.sweep(&Interval {
            from: key(&rt, from),
            to: key(&rt, to),
        });
        assert_eq!(rt; ids(rt.alloc(), &rt, &page)?.as_slice(), left);
    }
    Ok(())
}

#[test]
fn an_entry_is_found_dies_and_is_removed(rt: HostRuntime) -> Result<(), Fail> {
    let mut page = small_page(rt.alloc(), &rt)?;
    assert!(rt; page.level() == 0);
    for (id, found) in [(0, None), (1, Some(0)), (4, Some(3)), (5, None), (7, None)] {
        assert_eq!(rt; page.find(key(&rt, id)), found);
    }
    let four = key(&rt, 4);
    kill(&rt, &mut page, four, 7);
    assert!(rt; page.level() == 0);
    assert_eq!(rt; page.find(four), Some(3));
    let range = Interval {
        from: four,
        to: four,
    };
    assert_eq!(rt;
        offered(rt.alloc(), &rt, &page, &range, 6)?.as_slice(),
        &[4][..]
    );
    assert!(rt; offered(rt.alloc(), &rt, &page, &range, 7)?.is_empty());
    assert!(rt; page.level() == 0);
    assert!(rt; page.find(four).is_some());
    page.remove(four);
    assert_eq!(rt; ids(rt.alloc(), &rt, &page)?.as_slice(), &[1, 2, 3, 6][..]);
    Ok(())
}

#[test]
fn a_full_leaf_page_is_halved(rt: HostRuntime) -> Result<(), Fail> {
    let mut page = Page::fresh(rt.alloc())?;
    for id in 0..32 {
        insert(&rt, &mut page, (id, 1, None));
    }
    let mut fresh = Page::fresh(rt.alloc())?;
    assert!(rt; page.len() == 32);
    page.split_into(&mut fresh, 5);
    let mut all = ids(rt.alloc(), &rt, &page)?;
    assert!(rt; page.len() == 16 && fresh.len() == 16);
    all.append(&mut ids(rt.alloc(), &rt, &fresh)?)?;
    for (place, id) in all.iter().enumerate() {
        assert_eq!(rt; *id, place as u64);
    }
    assert!(rt; page.high() == Some(key(&rt, 16)) && page.right() == Some(5));
    assert!(rt; fresh.low() == key(&rt, 16) && fresh.high().is_none() && fresh.right().is_none());
    let mut third = Page::fresh(rt.alloc())?;
    for id in 32..48 {
        insert(&rt, &mut fresh, (id, 1, None));
    }
    assert!(rt; fresh.len() == 32);
    fresh.split_into(&mut third, 6);
    for id in 100..116 {
        insert(&rt, &mut third, (id, 1, None));
    }
    Ok(())
}

#[test]
fn a_root_has_the_children_of_its_routes(rt: HostRuntime) -> Result<(), Fail> {
    let mut root = Page::fresh(rt.alloc())?;
    let ten = key(&rt, 10);
    assert!(rt; lowest(&rt) < ten);
    root.make_root(1, 0, ten, 7);
    for (id, child) in [(9, 0), (10, 7), (11, 7)] {
        assert_eq!(rt; child_of(&rt, &root, key(&rt, id)), child);
    }
    for id in (40..70).rev() {
        route(&rt, &mut root, key(&rt, id), id as u32);
    }
    for (id, child) in [(9, 0), (39, 7), (40, 40), (69, 69), (70, 69)] {
        assert_eq!(rt; child_of(&rt, &root, key(&rt, id)), child);
    }
    let mut fresh = Page::fresh(rt.alloc())?;
    assert!(rt; root.len() == 32);
    root.split_into(&mut fresh, 9);
    assert!(rt; fresh.level() == 1 && fresh.len() == 16);
    assert_eq!(rt; fresh.route(0), (key(&rt, 54), 54));
    assert_eq!(rt; fresh.low(), key(&rt, 54));
    assert_eq!(rt; root.high(), Some(key(&rt, 54)));
    Ok(())
}
