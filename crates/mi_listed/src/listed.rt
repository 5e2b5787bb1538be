//! What a board is, read off a list of events by scans of it.

use crate::events::Event;
use mi_base::{Id, LogEvent, NoMemory, Perm, Prefix};
use std::alloc::Global;

/// What an actor holds: its pin is the number of the events that it names.
#[derive(Drop)]
struct Holder {
    claim: Option<Prefix>,
    reserved: bool,
    pin: Option<usize>,
    departed: bool,
}

impl Holder {
    fn idle() -> Holder {
        Holder {
            claim: None,
            reserved: false,
            pin: None,
            departed: false,
        }
    }
}

/// The events, what each actor holds, how many retired leaves were swept, which leaves were passed
/// over, where the pages stand, and how many events the catalog of the latest pin has.
#[derive(Drop)]
pub struct Listed {
    pivots: usize,
    levels: usize,
    cell: usize,
    events: Vec<Event>,
    holders: Vec<Holder>,
    swept: usize,
    passed: Vec<Prefix>,
    pub root: u32,
    pub height: u32,
    pub allotted: u32,
    pub kept: Option<usize>,
}

impl Listed {
    /// Two actors and no event yet.
    pub fn open(alloc: Global, pivots: usize, levels: u32, cell: u32) -> Result<Listed, NoMemory> {
        let mut holders = Vec::new(alloc);
        for _ in 0..2 {
            holders.push(Holder::idle())?;
        }
        Ok(Listed {
            pivots,
            levels: levels as usize,
            cell: cell as usize,
            events: Vec::new(alloc),
            holders,
            swept: 0,
            passed: Vec::new(alloc),
            root: 0,
            height: 0,
            allotted: 1,
            kept: None,
        })
    }

    /// One actor more.
    pub fn add_actor(&mut self) -> Result<(), NoMemory> {
        self.holders.push(Holder::idle())?;
        Ok(())
    }

    /// How many actors ever came.
    pub fn actors(&self) -> u32 {
        u32::try_from(self.holders.len()).unwrap_or(u32::MAX)
    }

    /// How many of them are still there.
    pub fn open_actors(&self) -> usize {
        self.holders
            .iter()
            .filter(|holder| !holder.departed)
            .count()
    }

    /// The actor leaves.
    pub fn depart(&mut self, actor: u32) {
        if let Some(holder) = self.holders.get_mut(actor as usize) {
            holder.departed = true;
        }
    }

    /// How many events the actor's pin names.
    pub fn pin(&self, actor: u32) -> Option<usize> {
        self.holders.get(actor as usize)?.pin
    }

    /// Pins so many events for the actor, or none.
    pub fn change_pin(&mut self, actor: u32, pin: Option<usize>) {
        if let Some(holder) = self.holders.get_mut(actor as usize) {
            holder.pin = pin;
        }
    }

    /// How many events the floor has.
    pub fn floor(&self) -> usize {
        let mut floor = self.events.len();
        for holder in &self.holders {
            if let Some(pin) = holder.pin {
                floor = floor.min(pin);
            }
        }
        floor
    }

    /// How many of the first events are updates.
    pub fn updates_to(&self, events: usize) -> usize {
        self.events
            .iter()
            .take(events)
            .filter(|event| event.is_update())
            .count()
    }

    /// Passes over the leaf that the actor claims, and ends the claim.
    pub fn give_up(&mut self, actor: u32, pages: bool) -> Result<(), NoMemory> {
        if let Some(holder) = self.holders.get_mut(actor as usize) {
            if let Some(prefix) = holder.claim.take() {
                if pages {
                    self.passed.push(prefix)?;
                }
            }
        }
        Ok(())
    }

    fn is_passed(&self, leaf: &[u8]) -> bool {
        self.passed.iter().any(|prefix| prefix.as_slice() == leaf)
    }

    /// How many events there are.
    pub fn len(&self) -> usize {
        self.events.len()
    }

    /// How many of them are updates.
    pub fn updates(&self) -> usize {
        self.events.iter().filter(|event| event.is_update()).count()
    }

    /// No update may follow: the limit is 40.
    pub fn is_full(&self) -> bool {
        self.updates() >= 40
    }

    /// The event at a place is this one of a board's log.
    pub fn has_event(&self, place: usize, event: &LogEvent) -> bool {
        match self.events.get(place) {
            Some(known) => known.is(event),
            None => false,
        }
    }

    /// One event more.
    pub fn enter(&mut self, event: Event) -> Result<(), NoMemory> {
        self.events.push(event)?;
        Ok(())
    }

    /// Where the event at a place inserted an object that no later event deletes, that object.
    fn live(&self, place: usize) -> Option<(Id, &Perm)> {
        match self.events.get(place) {
            Some(Event::Insert { id, perm, .. }) => {
                let gone = self
                    .events
                    .iter()
                    .skip(place)
                    .any(|event| event.deletes(*id));
                if gone { None } else { Some((*id, perm)) }
            }
            _ => None,
        }
    }

    fn live_perm(&self, which: Id) -> Option<&Perm> {
        for place in 0..self.events.len() {
            if let Some((id, perm)) = self.live(place) {
                if id == which {
                    return Some(perm);
                }
            }
        }
        None
    }

    /// An object with this identifier is live.
    pub fn is_live(&self, which: Id) -> bool {
        self.live_perm(which).is_some()
    }

    /// How many live objects have permutations that begin with these pivots.
    pub fn count(&self, prefix: &[u8]) -> usize {
        (0..self.events.len())
            .filter(|place| match self.live(*place) {
                Some((_, perm)) => perm.as_slice().starts_with(prefix),
                None => false,
            })
            .count()
    }

    fn depth(&self, perm: &Perm) -> usize {
        let mut depth = self.pivots.min(1);
        for event in &self.events {
            if let Event::Split { prefix } = event {
                if prefix.len() == depth && prefix.begins(perm) {
                    depth = depth.saturating_add(1);
                }
            }
        }
        depth
    }

    /// The leaf of a permutation.
    pub fn leaf_of<'a>(&self, perm: &'a Perm) -> &'a [u8] {
        let depth = self.depth(perm).min(perm.len());
        &perm.as_slice()[..depth]
    }

    fn was_split(&self, prefix: &[u8]) -> bool {
        self.events.iter().any(|event| event.is_split_of(prefix))
    }

    /// A leaf has this prefix: it is a first one or a child of one that was split, and wasn't split
    /// itself.
    pub fn is_leaf(&self, prefix: &[u8]) -> bool {
        if self.was_split(prefix) {
            return false;
        }
        match prefix.split_last() {
            Some((_, parent)) => parent.is_empty() || self.was_split(parent),
            None => self.pivots == 0,
        }
    }

    /// How many leaves there are.
    pub fn leaves(&self) -> usize {
        let mut count = self.pivots.max(1);
        for event in &self.events {
            if let Event::Split { prefix } = event {
                let more = self.pivots.saturating_sub(prefix.len().saturating_add(1));
                count = count.saturating_add(more);
            }
        }
        count
    }

    /// The leaf may be split, and has four times the cell size.
    pub fn is_crowded(&self, leaf: &[u8]) -> bool {
        leaf.len() < self.levels && self.count(leaf) >= self.cell.saturating_mul(4)
    }

    fn is_wanted(&self, leaf: &[u8]) -> bool {
        leaf.len() < self.levels && self.count(leaf) > self.cell
    }

    /// The least leaf that is to be split, that nobody claims, and that wasn't passed over: some live
    /// object belongs to it.
    pub fn first_wanted(&self) -> Option<&[u8]> {
        let mut first: Option<&[u8]> = None;
        for place in 0..self.events.len() {
            if let Some((_, perm)) = self.live(place) {
                let leaf = self.leaf_of(perm);
                let later = match first {
                    Some(earlier) => earlier <= leaf,
                    None => false,
                };
                let free = self.claimant(leaf).is_none() && !self.is_passed(leaf);
                if !later && free && self.is_wanted(leaf) {
                    first = Some(leaf);
                }
            }
        }
        first
    }

    /// The leaf that was split first among those that weren't swept, if the floor has its split.
    pub fn retired(&self) -> Option<&[u8]> {
        let mut left = self.swept;
        for event in self.events.iter().take(self.floor()) {
            if let Event::Split { prefix } = event {
                if left == 0 {
                    return Some(prefix.as_slice());
                }
                left = left.saturating_sub(1);
            }
        }
        None
    }

    /// The next retired leaf is swept.
    pub fn sweep(&mut self) {
        self.swept = self.swept.saturating_add(1);
    }

    /// Which leaf the actor claims.
    pub fn claim(&self, actor: u32) -> Option<&[u8]> {
        match &self.holders.get(actor as usize)?.claim {
            Some(prefix) => Some(prefix.as_slice()),
            None => None,
        }
    }

    /// The actor has reserved room for an update.
    pub fn has_reserved(&self, actor: u32) -> bool {
        match self.holders.get(actor as usize) {
            Some(holder) => holder.reserved,
            None => false,
        }
    }

    /// Who claims this leaf.
    pub fn claimant(&self, leaf: &[u8]) -> Option<u32> {
        for actor in 0..self.actors() {
            if self.claim(actor) == Some(leaf) {
                return Some(actor);
            }
        }
        None
    }

    /// The actor claims this leaf, or none.
    pub fn change_claim(&mut self, actor: u32, claim: Option<Prefix>) {
        if let Some(holder) = self.holders.get_mut(actor as usize) {
            holder.claim = claim;
        }
    }

    /// The actor reserves room, or has none any longer.
    pub fn reserve(&mut self, actor: u32, reserved: bool) {
        if let Some(holder) = self.holders.get_mut(actor as usize) {
            holder.reserved = reserved;
        }
    }

    /// The actor claims the leaf of this permutation, and has reserved.
    pub fn may_commit(&self, actor: u32, perm: &Perm) -> bool {
        self.has_reserved(actor) && self.claim(actor) == Some(self.leaf_of(perm))
    }

    /// So it is for the live object of this identifier.
    pub fn may_delete(&self, actor: u32, which: Id) -> bool {
        match self.live_perm(which) {
            Some(perm) => self.may_commit(actor, perm),
            None => false,
        }
    }

    /// The leaf that the actor claims is to be split.
    pub fn may_publish(&self, actor: u32) -> bool {
        match self.claim(actor) {
            Some(leaf) => self.is_wanted(leaf),
            None => false,
        }
    }

    /// Splits the leaf that the actor claims, which ends the claim.
    pub fn split(&mut self, actor: u32) -> Result<(), NoMemory> {
        if let Some(holder) = self.holders.get_mut(actor as usize) {
            if let Some(prefix) = holder.claim.take() {
                self.events.push(Event::Split { prefix })?;
            }
        }
        Ok(())
    }
}
