//! Lists of entries in key order.
ghost use Rattle.std.specs.Prelude.{◌≡◌, ◌+◌, ◌<◌, ◌≤◌, length, nat_lt, map, true, is_some, IfSome, IsSomeAnd, slice_get, vec_len, vec_capacity};
ghost use Rattle.std.specs.List.{AllByRecursion, prefix_len};
ghost use Rattle.mi_base.specs.Sorting.{put};
ghost use Rattle.mi_page.specs.Keys.{Ascending};
ghost use Rattle.mi_key.specs.Entries.{offering_of};
ghost use Rattle.mi_page.specs.Entries.{entry_cmp, entry_keys, has_entry, is_shown, outlives, shown_in, without_interval, without_dead, with_death, without_key};

use mi_key::{Entry, Interval, Key, Sieve};

/// Where an entry with this key stands, if there is one.
pub fn find(entries: &[Entry], key: Key) -> Option<usize>
    requires { Ascending (entry_keys entries.now) }
    ensures some { is_some result ≡ has_entry key entries.now }
    ensures place { IfSome result (λ place. IsSomeAnd (slice_get entries.now place) (λ e. e.key ≡ key)) }
{
    let place = place_of(entries, key);
    if place < entries.len() && entries[place].key == key {
        Some(place)
    } else {
        None
    }
}

/// Puts an entry into its place.
pub fn insert(entries: &mut Vec<Entry>, entry: Entry)
    requires order { Ascending (entry_keys entries.old.items) }
    requires spare { vec_len entries.old < vec_capacity entries.old }
    ensures items { entries.new.items ≡ put entry_cmp entry entries.old.items }
    ensures capacity { vec_capacity entries.new ≡ vec_capacity entries.old }
{
    let place = place_of(entries, entry.key);
    let Ok(()) = entries.insert(place, entry) else {
        unreachable!()
    };
}

/// Gives the entry of this key a death.
pub fn mark_death(entries: &mut [Entry], key: Key, number: u32)
    requires order { Ascending (entry_keys entries.old) }
    requires there { has_entry key entries.old ≡ true }
    ensures { entries.new ≡ map (with_death key number) entries.old }
{
    let place = place_of(entries, key);
    entries[place].death = Some(number);
}

/// Takes the entry of this key out.
pub fn remove(entries: &mut Vec<Entry>, key: Key)
    requires order { Ascending (entry_keys entries.old.items) }
    requires there { has_entry key entries.old.items ≡ true }
    ensures items { entries.new.items ≡ without_key key entries.old.items }
    ensures capacity { vec_capacity entries.new ≡ vec_capacity entries.old }
{
    let place = place_of(entries, key);
    entries.remove(place);
}

/// Takes out the entries whose death is at most the floor.
pub fn trim(entries: &mut Vec<Entry>, floor: u32)
    ensures items { entries.new.items ≡ without_dead floor entries.old.items }
    ensures capacity { vec_capacity entries.new ≡ vec_capacity entries.old }
{
    entries.retain(|entry| outlives(entry, floor));
}

/// Takes out the entries of the interval.
pub fn sweep(entries: &mut Vec<Entry>, range: &Interval)
    ensures items { entries.new.items ≡ without_interval range.now entries.old.items }
    ensures capacity { vec_capacity entries.new ≡ vec_capacity entries.old }
{
    entries.retain(|entry| !range.has(&entry.key));
}

/// Offers the entries of the interval that are shown at a position with so many updates, in key order.
pub fn offer<S: Sieve>(entries: &[Entry], range: &Interval, updates: u32, sieve: &mut S)
    requires few { length entries.now ≤ 32 }
    requires spare { 32 ≤ S.spare sieve.old }
    requires takes { AllByRecursion (S.takes sieve.old) (shown_in range.now updates entries.now) }
    ensures offered { S.offered sieve.old (map offering_of (shown_in range.now updates entries.now)) sieve.new }
    ensures used { S.spare sieve.old ≤ S.spare sieve.new + length (shown_in range.now updates entries.now) }
{
    for entry in entries {
        if range.has(&entry.key) && is_shown(entry, updates) {
            sieve.offer(entry);
        }
    }
}

/// The entry is shown at a position with so many updates.
fn is_shown(entry: &Entry, updates: u32) -> bool
    ensures { result ≡ is_shown updates entry.now }
{
    entry.birth <= updates && outlives(entry, updates)
}

/// The entry's death, if it has one, comes after so many updates.
fn outlives(entry: &Entry, updates: u32) -> bool
    ensures { result ≡ outlives entry.now.death updates }
{
    match entry.death {
        None => true,
        Some(death) => updates < death,
    }
}

/// How many entries have a lesser key: where an entry with this key stands or belongs.
fn place_of(entries: &[Entry], key: Key) -> usize
    requires { Ascending (entry_keys entries.now) }
    ensures place { result ≡ prefix_len (λ e. nat_lt e.key key) entries.now }
    ensures within { result ≤ length entries.now }
{
    entries.partition_point(|entry| entry.key < key)
}
