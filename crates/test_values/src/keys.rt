//! Worked numbers of cells and keys, and a sieve that keeps what it is offered.
ghost use Rattle.std.specs.Prelude.{◌≡◌, ◌≤◌, ◌-◌, ◌++◌, [], ◌∷◌, IsTrue, OnOk, length, map, vec_capacity, vec_len};
ghost use Rattle.mi_base.specs.Prefixes.{all_below};
ghost use Rattle.mi_key.specs.Entries.{offering_of};

use mi_base::{Dists, Id, NoMemory, Prefix, Vector};
use mi_key::{
    Entry, Key, KeyParts, Sieve, cluster_number, compare_prefixes, interval, same_cluster,
};
use std::alloc::Global;
use std::cmp::Ordering;
use std::process::Abort;
use std::test::Fail;

/// Keeps the identifiers of entries with so many distances.
#[derive(Drop)]
struct Collector {
    ids: Vec<u64>,
    pivots: usize,
}

impl Sieve for Collector {
    ghost use Rattle.std.proofs.Common.{refl, ap, sym, ◌∙◌, append_assoc};
    ghost use Rattle.std.proofs.lemmas.List.{append-nil, map-append};

    ghost spare = { λ s. vec_capacity s.ids - vec_len s.ids };

    ghost takes = { λ s e. length e.dists.items ≡ s.pivots };

    ghost offered = { λ s xs t. (t.ids.items ≡ s.ids.items ++ map (λ o. o.object.id) xs) × (t.pivots ≡ s.pivots) };

    fn room(&mut self) -> Result<(), NoMemory> {
        self.ids.reserve(32)?;
        Ok(())
    }

    fn offer(&mut self, entry: &Entry) {
        self.ids.push_reserved(entry.key.parts().id.get());
    }

    ghost none = { λ s. (sym (append-nil s.ids.items), refl) };

    ghost more = { λ s t u xs ys a b. (b.0 ∙ ap (λ ids. ids ++ map (λ o. o.object.id) ys) a.0 ∙ append_assoc s.ids.items (map (λ o. o.object.id) xs) (map (λ o. o.object.id) ys) ∙ ap (λ ids. s.ids.items ++ ids) (sym (map-append (λ o. o.object.id) xs ys)), b.1 ∙ a.1) };

    ghost takes_on = { λ s t xs e a h. h ∙ sym a.1 };
}

fn sift<S: Sieve>(sieve: &mut S, entry: &Entry) -> Result<(), NoMemory>
    requires { S.takes sieve.old entry.now }
    ensures { OnOk result (S.offered sieve.old (offering_of entry.now ∷ []) sieve.new) }
{
    sieve.room()?;
    sieve.offer(entry);
    Ok(())
}

fn entry(rt: &impl Abort, key: Key) -> Entry
    ensures { result.dists.items ≡ [] }
{
    Entry {
        key,
        vector: Vector::new(&[1]).expect(rt, "a coordinate"),
        dists: Dists::new(),
        birth: 1,
        death: None,
    }
}

fn id(rt: &impl Abort, value: u64) -> Id {
    Id::new(value).expect(rt, "below 2^40")
}

fn below(prefix: &Prefix, pivots: u32) -> bool
    ensures { result ≡ all_below pivots prefix.now }
{
    prefix
        .as_slice()
        .iter()
        .all(|pivot| u32::from(*pivot) < pivots)
}

/// A prefix among so many pivots and levels.
fn prefix(rt: &impl Abort, items: &[u8], pivots: u32, levels: u32) -> Prefix
    ensures depth { length result ≤ levels }
    ensures pivots { IsTrue (all_below pivots result) }
{
    let prefix = Prefix::new(items).expect(rt, "different pivots");
    assert!(rt; prefix.len() <= levels as usize && below(&prefix, pivots));
    prefix
}

#[test]
fn cells_have_their_numbers(rt: HostRuntime) {
    let two = [(&[][..], 0), (&[0], 3), (&[0, 1], 5), (&[1], 6)];
    for (items, number) in two {
        assert_eq!(rt; cluster_number(&prefix(&rt, items, 2, 2), 2, 2), number);
    }
    let (first, second) = (prefix(&rt, &[0, 1, 2], 3, 3), prefix(&rt, &[0, 2], 3, 3));
    assert_eq!(rt; cluster_number(&first, 3, 3), 27);
    assert_eq!(rt; cluster_number(&second, 3, 3), 28);
    assert_eq!(rt; compare_prefixes(&first, &second, 3, 3), Ordering::Less);
    assert!(rt; same_cluster(&first, &first, 3, 3) && !same_cluster(&first, &second, 3, 3));
}

#[test]
fn keys_give_back_their_parts(rt: HostRuntime) -> Result<(), Fail> {
    let one = id(&rt, 1);
    let key = Key::make(3, 1, one, 1);
    let text = format!(in rt.alloc(); "{key:?}")?;
    assert_eq!(rt;
        text.as_str(),
        "Key { value: 475368976266177646279748747265 }"
    );
    let parts = KeyParts {
        cluster: 3,
        distance: 1,
        id: one,
        birth: 1,
    };
    assert_eq!(rt; key.parts(), parts);
    Ok(())
}

#[test]
fn intervals_have_the_keys_of_their_cluster(rt: HostRuntime) {
    let (least, greatest) = (id(&rt, 0), id(&rt, (1 << 40) - 1));
    let range = interval(3, 1, 2);
    for (key, inside) in [
        (Key::make(3, 0, greatest, (1 << 30) - 1), false),
        (Key::make(3, 1, least, 0), true),
        (Key::make(3, 2, greatest, (1 << 30) - 1), true),
        (Key::make(3, 3, least, 0), false),
        (Key::make(4, 1, least, 0), false),
    ] {
        assert_eq!(rt; range.has(&key), inside);
    }
    let (near, far) = (Key::make(3, 2, greatest, 0), Key::make(4, 0, least, 0));
    assert_eq!(rt; near.compare(&far), Ordering::Less);
    assert!(rt; near < far);
}

#[test]
fn intervals_meet_in_the_keys_of_both(rt: HostRuntime) {
    let id = id(&rt, 7);
    let (near, far) = (interval(3, 1, 5), interval(3, 4, 9));
    for (distance, inside) in [(3, false), (4, true), (5, true), (6, false)] {
        let key = Key::make(3, distance, id, 1);
        assert_eq!(rt; near.meet(&far).has(&key), inside, "{distance}");
        assert_eq!(rt; far.meet(&near).has(&key), inside, "{distance}");
        assert!(rt; !near.meet(&interval(3, 6, 9)).has(&key));
    }
}

#[test]
fn a_sieve_keeps_what_it_is_offered(rt: HostRuntime) -> Result<(), Fail> {
    let mut sieve = Collector {
        ids: Vec::new(rt.alloc()),
        pivots: 0,
    };
    sift(&mut sieve, &entry(&rt, Key::make(1, 0, id(&rt, 7), 1)))?;
    assert_eq!(rt; sieve.ids.as_slice(), &[7][..]);
    Ok(())
}
