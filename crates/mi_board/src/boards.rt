//! The board.
ghost use Rattle.std.specs.Prelude.{◌≡◌, ◌≢◌, ◌<◌, ◌≤◌, ◌+◌, ◌==◌, None, Some, count_by, replicate, length, IsTrue, true, false, IfOk, IfNone, IfSome, OnErr, OnOk, OnSome, drop, not, is_some, flat_map, slice_get, ◌&&◌, ◌++◌, [], ◌∷◌};
ghost use Rattle.std.specs.Vec.{vec_capacity};
ghost use Rattle.std.specs.Arc.{arc_value};
ghost use Rattle.mi_base.specs.declared.records.Update.TheVariants.{Insert, Delete};
ghost use Rattle.mi_base.specs.Configuration.{IsWithinLimits};
ghost use Rattle.mi_base.specs.History.{end_of, events_at};
ghost use Rattle.mi_board.specs.Actors.{actor_at, gone, idle, is_claim, is_claimed, with_reserved, without_claim, without_pin};
ghost use Rattle.mi_board.specs.Boards.{AddsActor, Allots, ClaimsLeaf, Commits, GivesWork, Grows, MayCommit, MayDelete, MayInsert, MayPublish, Publishes, Reserves, cells_in, crowded_at, floor_of, given_up, is_kept_at, leaf_claimed, leaves_copied, look_of, next_split, next_sweep, open_count, opened_board, passing, pinned, same_position, with_actor};
ghost use Rattle.mi_board.specs.Floors.{earlier};
ghost use Rattle.mi_tree.specs.Counting.{is_crowded, is_wanted};
ghost use Rattle.mi_tree.specs.Legal.{LegalLog};

use crate::{ActorState, KeptCatalog, RetiredLeaf, marks};
use mi_base::{
    Id, Log, LogEvent, NoMemory, Perm, Position, Prefix, Settings, Steps, Update, Vector,
};
use mi_tree::{
    AllotRefusal, Catalog, CommitRefusal, Leaf, LeafClaim, Look, Placed, ReserveRefusal, Work,
    is_same,
};
use std::alloc::Global;
use std::collections::VecDeque;
use std::marker::Model;
use std::sync::Arc;
use std::sync::ledger::Ledger;

/// What a pin gives: where the log and the pages stand, and the cells of that moment.
pub type Pinned = (Look, Arc<Catalog, Global>);

/// The log with the cells after it, what each actor claims, has reserved and has pinned, the leaves that were split and not yet
/// swept, oldest first, those that are passed over, the root of the pages and how many are allotted. The log is legal after every
/// call.
#[derive(Drop)]
pub struct Board {
    settings: Settings,
    events: Vec<LogEvent>,
    updates: u32,
    catalog: Catalog,
    actors: Vec<ActorState>,
    retired: VecDeque<RetiredLeaf>,
    // For each leaf, whether it is passed over: so it is found by a search, and takes no memory.
    marks: Vec<bool>,
    root: u32,
    height: u32,
    allotted: u32,
    // The catalog of the latest pin. No commit and no split changes it.
    kept: Option<KeptCatalog>,
}

impl Model for Board {
    ghost use Rattle.std.specs.Prelude.{map, option_map};
    ghost use Rattle.std.specs.Vec.{vec_capacity};
    ghost use Rattle.mi_board.specs.Boards.{BoardState};
    ghost use Rattle.mi_board.specs.Kept.{HoldsBoard};
    ghost use Rattle.mi_board.specs.Marks.{marked};
    ghost use Rattle.mi_tree.specs.Catalog.{prefixes_of};

    ghost Value = { BoardState };

    ghost view = { λ b. record {
      settings = b.settings;
      log = b.events.items;
      actors = b.actors.items;
      retired = map (λ r. r.prefix) b.retired.items;
      passed_over = marked (prefixes_of b.catalog.leaves) b.marks.items;
      root = b.root;
      height = b.height;
      allotted = b.allotted;
      kept_at = option_map (λ k. k.at) b.kept;
    } };

    ghost invariant = { λ b. HoldsBoard b.settings b.events.items b.catalog b.updates b.actors.items (vec_capacity b.events) b.marks.items b.allotted b.kept b.retired.items };
}

impl Board {
    /// A board for so many actors, with the settings' first leaves and an empty log.
    pub fn open(alloc: Global, settings: &Settings, actors: u32) -> Result<Board, NoMemory>
        requires { 1 ≤ actors }
        ensures { IfOk result (λ b. b ≡ opened_board settings.now (replicate actors idle)) }
    {
        let mut states = Vec::new(alloc);
        for _ in 0..actors {
            states.push(ActorState::idle())?;
        }
        let catalog = Catalog::first(alloc, settings.pivots.len() as u32, settings.levels)?;
        let marks = marks::unmarked(alloc, catalog.len())?;
        Ok(Board {
            settings: settings.copy(alloc)?,
            events: Vec::new(alloc),
            updates: 0,
            catalog,
            actors: states,
            retired: VecDeque::new(alloc),
            marks,
            root: 0,
            height: 0,
            allotted: 1,
            kept: None,
        })
    }

    /// The settings that the board was opened with.
    pub fn settings(&self) -> &Settings
        ensures { result.now ≡ self.now.settings }
    {
        &self.settings
    }

    /// One actor more, which holds nothing. Where as many actors were made as there are numbers, memory is wanted too.
    pub fn add_actor(&mut self) -> Result<u32, NoMemory>
        ensures { AddsActor self.old result self.new }
    {
        let actor = self.actors.len() as u32;
        if actor == u32::MAX {
            return Err(NoMemory);
        }
        self.actors.push(ActorState::idle())?;
        Ok(actor)
    }

    /// How many actors were made. They are numbered from 0.
    pub fn actors(&self) -> usize
        ensures { result ≡ length self.now.actors }
    {
        self.actors.len()
    }

    /// The prefix of the leaf that the actor claims, if it claims one.
    pub fn claim(&self, actor: u32) -> Option<&Prefix>
        requires { actor < length self.now.actors }
        ensures some { IfSome result (λ prefix. (actor_at self.now.actors actor).claim ≡ Some prefix.now) }
        ensures none { IfNone result ((actor_at self.now.actors actor).claim ≡ None) }
    {
        self.actors[actor as usize].claim.as_ref()
    }

    /// The actor has reserved an update that it hasn't committed since.
    pub fn has_reserved(&self, actor: u32) -> bool
        requires { actor < length self.now.actors }
        ensures { result ≡ (actor_at self.now.actors actor).reserved }
    {
        self.actors[actor as usize].reserved
    }

    /// The position that the actor has pinned, if it has a pin.
    pub fn pin_of(&self, actor: u32) -> Option<Position>
        requires { actor < length self.now.actors }
        ensures { result ≡ (actor_at self.now.actors actor).pin }
    {
        self.actors[actor as usize].pin
    }

    /// The events in order.
    pub fn log(&self) -> &[LogEvent]
        ensures same { result.now ≡ self.now.log }
        ensures legal { LegalLog self.now.settings self.now.log }
        ensures limits { IsWithinLimits self.now.settings }
    {
        self.events.as_slice()
    }

    /// The cells after the log.
    pub fn catalog(&self) -> &Catalog
        ensures { result.now ≡ cells_in self.now.settings self.now.log }
    {
        &self.catalog
    }

    /// How many pages are allotted.
    pub fn allotted(&self) -> u32
        ensures result { result ≡ self.now.allotted }
        ensures few { self.now.allotted ≤ self.now.settings.pages }
    {
        self.allotted
    }

    /// The position of the catalog that is kept for pins, if one is.
    pub fn kept_at(&self) -> Option<Position>
        ensures { result ≡ self.now.kept_at }
    {
        self.kept.as_ref().map(|kept| kept.at)
    }

    /// The end of the log, the root of the pages, and the floor.
    pub fn look(&self) -> Look
        ensures { result ≡ look_of self.now }
    {
        Look {
            at: self.end(),
            root: self.root,
            height: self.height,
            floor: self.floor(),
        }
    }

    /// Pins the end of the log for the actor, which has no pin. Pins of one position share a catalog, which stays as it is whatever
    /// the board does then.
    pub fn pin<L: Ledger>(
        &mut self,
        alloc: Global,
        actor: u32,
        steps: &mut Steps<L>,
    ) -> Result<Pinned, NoMemory>
        requires known { actor < length self.old.actors }
        requires free { (actor_at self.old.actors actor).pin ≡ None }
        ensures ok { OnOk result (self.new ≡ pinned actor self.old) }
        ensures err { OnErr result (self.new ≡ self.old) }
        ensures look { IfOk result (λ p. p.0 ≡ look_of self.new) }
        ensures cells { IfOk result (λ p. arc_value p.1 ≡ cells_in self.old.settings self.old.log) }
        ensures ticks { OnOk result (steps.new ≡ steps.old + leaves_copied self.old) }
        ensures kept { is_kept_at (end_of self.old.log) self.old.kept_at ≡ true
            → steps.new ≡ steps.old }
    {
        let catalog = self.share(alloc, steps)?;
        self.actors[actor as usize].pin = Some(self.end());
        Ok((self.look(), catalog))
    }

    /// Ends the actor's pin. It takes no memory.
    pub fn unpin(&mut self, actor: u32)
        requires known { actor < length self.old.actors }
        requires pins { (actor_at self.old.actors actor).pin ≢ None }
        ensures { self.new ≡ with_actor without_pin actor self.old }
    {
        self.actors[actor as usize].pin = None;
    }

    /// Takes the room for one update of the actor.
    pub fn reserve(&mut self, actor: u32) -> Result<Look, ReserveRefusal>
        requires { actor < length self.old.actors }
        ensures { Reserves self.old actor result self.new }
    {
        let limit = limit_of(&self.settings);
        if self.updates >= limit {
            return Err(ReserveRefusal::Full { limit });
        }
        let room = self.reservations() + 1;
        let Ok(()) = self.events.reserve(room) else {
            return Err(ReserveRefusal::Memory);
        };
        self.actors[actor as usize].reserved = true;
        Ok(self.look())
    }

    /// Claims the leaf of the permutation for the actor, which claims none.
    pub fn claim_leaf(&mut self, actor: u32, perm: &Perm) -> LeafClaim
        requires known { actor < length self.old.actors }
        requires long { length perm.now ≡ length self.old.settings.pivots }
        requires free { (actor_at self.old.actors actor).claim ≡ None }
        ensures { ClaimsLeaf self.old actor perm.now result self.new }
    {
        let leaf = self.catalog.locate(perm);
        if let Some(by) = self.claimant(&leaf.prefix) {
            return LeafClaim::Held { by };
        }
        self.actors[actor as usize].claim = Some(leaf.prefix.copy());
        LeafClaim::Taken { leaf }
    }

    /// Ends the actor's claim.
    pub fn release_leaf(&mut self, actor: u32)
        requires known { actor < length self.old.actors }
        requires claims { (actor_at self.old.actors actor).claim ≢ None }
        ensures { self.new ≡ with_actor without_claim actor self.old }
    {
        self.actors[actor as usize].claim = None;
    }

    /// Enters the insert of an object that belongs to the leaf which the actor claims. It takes no memory.
    pub fn commit_insert(
        &mut self,
        actor: u32,
        op: u32,
        id: Id,
        vector: &Vector,
        perm: &Perm,
        distance: u32,
    ) -> Result<u32, CommitRefusal>
        requires may { MayCommit self.old actor perm.now }
        requires object { MayInsert self.old id vector.now perm.now distance }
        ensures { Commits self.old actor op (Insert id vector.now) (crowded_at self.old perm.now) result self.new }
    {
        // An identifier tells its bound, which the legal log keeps.
        let _ = id.get();
        let limit = limit_of(&self.settings);
        if self.updates >= limit {
            return Err(CommitRefusal::Full { limit });
        }
        let leaf = self.catalog.locate(perm);
        if is_crowded(&self.settings, &leaf) {
            return Err(CommitRefusal::Crowded);
        }
        self.catalog.add(perm, distance);
        let update = Update::Insert {
            id,
            vector: vector.copy(),
        };
        let state = &mut self.actors[actor as usize];
        let event = LogEvent::Update {
            session: actor,
            op,
            update,
        };
        Ok(enter(&mut self.events, &mut self.updates, state, event))
    }

    /// Enters the delete of an object that belongs to the leaf which the actor claims. It takes no memory.
    pub fn commit_delete(
        &mut self,
        actor: u32,
        op: u32,
        id: Id,
        perm: &Perm,
    ) -> Result<u32, CommitRefusal>
        requires may { MayCommit self.old actor perm.now }
        requires object { MayDelete self.old id perm.now }
        ensures { Commits self.old actor op (Delete id) false result self.new }
    {
        let limit = limit_of(&self.settings);
        if self.updates >= limit {
            return Err(CommitRefusal::Full { limit });
        }
        self.catalog.remove(perm);
        let state = &mut self.actors[actor as usize];
        let event = LogEvent::Update {
            session: actor,
            op,
            update: Update::Delete { id },
        };
        Ok(enter(&mut self.events, &mut self.updates, state, event))
    }

    /// Allots the next page. It takes no memory, and never says that memory was wanted.
    pub fn allot(&mut self) -> Result<u32, AllotRefusal>
        ensures { Allots self.old result self.new }
    {
        let limit = self.settings.pages;
        if self.allotted >= limit {
            return Err(AllotRefusal::PagesFull { limit });
        }
        let page = self.allotted;
        self.allotted += 1;
        Ok(page)
    }

    /// Makes this page the root, where the root is one level below this level.
    pub fn grow(&mut self, level: u32, root: u32) -> bool
        ensures { Grows self.old level root result self.new }
    {
        if level == 0 || level - 1 != self.height {
            return false;
        }
        self.root = root;
        self.height = level;
        true
    }

    /// Splits the leaf that the actor claims, and ends the claim. The objects are the leaf's live ones.
    pub fn publish(
        &mut self,
        alloc: Global,
        actor: u32,
        objects: &[Placed],
    ) -> Result<Position, NoMemory>
        requires { MayPublish self.old actor objects.now (leaf_claimed self.old actor) }
        ensures { Publishes self.old actor (leaf_claimed self.old actor) result self.new }
    {
        let Some(claim) = &self.actors[actor as usize].claim else {
            unreachable!();
        };
        let prefix = claim.copy();
        let room = self.reservations() + 1;
        self.events.reserve(room)?;
        self.retired.reserve(1)?;
        let pivots = pivots_of(&self.settings);
        marks::split_cell(
            alloc,
            pivots,
            &mut self.catalog,
            &mut self.marks,
            &prefix,
            objects,
        )?;
        self.retired
            .push_back(RetiredLeaf {
                prefix: prefix.copy(),
                event: self.events.len() as u32,
            })
            .unwrap();
        self.events.push(LogEvent::Split { prefix }).unwrap();
        self.actors[actor as usize].claim = None;
        Ok(self.end())
    }

    /// Ends the actor's claim, since the leaf can't be split now. For want of pages it is passed over until it is split.
    pub fn give_up(&mut self, actor: u32, pages: bool)
        requires known { actor < length self.old.actors }
        requires claims { (actor_at self.old.actors actor).claim ≢ None }
        requires pages { IsTrue pages → self.old.allotted ≡ self.old.settings.pages }
        ensures { self.new ≡ given_up pages actor self.old }
    {
        if !pages {
            self.release_leaf(actor);
            return;
        }
        self.pass_over(actor);
        self.release_leaf(actor);
    }

    /// What the splitter has to do next: it is taken off the list of leaves that were split, or the leaf is claimed for it.
    pub fn next_work(&mut self, actor: u32) -> Work
        requires known { actor < length self.old.actors }
        requires free { (actor_at self.old.actors actor).claim ≡ None }
        ensures { GivesWork self.old actor result self.new }
    {
        if let Some(prefix) = self.take_retired() {
            return Work::Sweep { prefix };
        }
        match self.next_split() {
            Some(leaf) => {
                self.actors[actor as usize].claim = Some(leaf.prefix.copy());
                Work::Split { leaf }
            }
            None => Work::Idle,
        }
    }

    /// The actor departs; one that has departed stays so.
    pub fn depart(&mut self, actor: u32)
        requires { actor < length self.old.actors }
        ensures { self.new ≡ with_actor gone actor self.old }
    {
        self.actors[actor as usize].departed = true;
    }

    /// How many of the actors haven't departed.
    pub fn open_actors(&self) -> u32
        ensures { result ≡ open_count self.now.actors }
    {
        self.actors.iter().filter(|state| !state.departed).count() as u32
    }

    /// The log alone. It takes no memory.
    pub fn into_log(self) -> Log
        ensures { result ≡ self.log }
    {
        Log::from_vec(self.events)
    }

    /// The actor that claims the leaf of this prefix.
    fn claimant(&self, prefix: &Prefix) -> Option<u32>
        ensures some { IfSome result (λ by. (by < length self.now.actors) × (is_claim prefix.now (actor_at self.now.actors by).claim ≡ true)) }
        ensures none { IfNone result (is_claimed prefix.now self.now.actors ≡ false) }
    {
        for (actor, state) in self.actors.iter().enumerate() {
            if let Some(claim) = &state.claim {
                if is_same(prefix, claim) {
                    return Some(actor as u32);
                }
            }
        }
        None
    }

    /// The catalog of the end of the log, to be shared: the one that is kept, where it is of that position, else a new copy, which
    /// is then kept.
    fn share<L: Ledger>(
        &mut self,
        alloc: Global,
        steps: &mut Steps<L>,
    ) -> Result<Arc<Catalog, Global>, NoMemory>
        ensures ok { OnOk result (self.new ≡ record self.old { kept_at = Some (end_of self.old.log) }) }
        ensures err { OnErr result (self.new ≡ self.old) }
        ensures cells { IfOk result (λ catalog. arc_value catalog ≡ cells_in self.old.settings self.old.log) }
        ensures ticks { OnOk result (steps.new ≡ steps.old + leaves_copied self.old) }
        ensures kept { is_kept_at (end_of self.old.log) self.old.kept_at ≡ true
            → steps.new ≡ steps.old }
    {
        if let Some(kept) = self.kept_now() {
            return Ok(Arc::try_clone(kept)?);
        }
        let Ok(catalog) = Arc::new(alloc, self.catalog.copy(alloc, steps)?) else {
            return Err(NoMemory);
        };
        let shared = Arc::try_clone(&catalog)?;
        let at = self.end();
        self.kept = Some(KeptCatalog { at, catalog });
        Ok(shared)
    }

    /// The catalog that is kept, where it is of the end of the log.
    fn kept_now(&self) -> Option<&Arc<Catalog, Global>>
        ensures cells { IfSome result (λ catalog. arc_value catalog.now ≡ cells_in self.now.settings self.now.log) }
        ensures some { IfSome result (λ _. is_kept_at (end_of self.now.log) self.now.kept_at ≡ true) }
        ensures none { IfNone result (is_kept_at (end_of self.now.log) self.now.kept_at ≡ false) }
    {
        let end = self.end();
        match &self.kept {
            Some(kept) if is_same_position(kept.at, end) => Some(&kept.catalog),
            _ => None,
        }
    }

    /// The least pinned position, or the end of the log where nothing is pinned.
    fn floor(&self) -> Position
        ensures { result ≡ floor_of self.now }
    {
        let mut floor = self.end();
        let mut place = self.actors.len();
        while place > 0 {
            place -= 1;
            floor = earlier(self.actors[place].pin, floor);
        }
        floor
    }

    /// Takes the leaf that was split first off the retired ones, where the floor has its split.
    fn take_retired(&mut self) -> Option<Prefix>
        ensures some { IfSome result (λ prefix. next_sweep self.old ≡ Some prefix) }
        ensures taken { OnSome result (self.new ≡ record self.old { retired = drop 1 self.old.retired }) }
        ensures none { IfNone result (next_sweep self.old ≡ None) }
        ensures same { IfNone result (self.new ≡ self.old) }
    {
        if !self.may_sweep() {
            return None;
        }
        self.retired.pop_front().map(|leaf| leaf.prefix)
    }

    /// A leaf was split, and the floor has the split of the one that was split first.
    fn may_sweep(&self) -> bool
        ensures { result ≡ is_some (next_sweep self.now) }
    {
        match self.retired.front() {
            Some(leaf) => u64::from(leaf.event) < events_at(self.floor()),
            None => false,
        }
    }

    /// The first leaf in order that is to be split, that nobody claims, and that isn't passed over.
    fn next_split(&self) -> Option<Leaf>
        ensures { result ≡ next_split self.now }
    {
        for (place, passed_over) in self.marks.iter().enumerate() {
            let leaf = self.catalog.leaf(place);
            if !*passed_over && self.is_free(leaf) {
                return Some(leaf.copy());
            }
        }
        None
    }

    /// The leaf is to be split, and nobody claims it.
    fn is_free(&self, leaf: &Leaf) -> bool
        ensures { result ≡ is_wanted self.now.settings.levels self.now.settings.cell leaf.now && not (is_claimed leaf.now.prefix self.now.actors) }
    {
        is_wanted(&self.settings, leaf) && self.claimant(&leaf.prefix).is_none()
    }

    /// The leaf that the actor claims is passed over.
    fn pass_over(&mut self, actor: u32)
        requires known { actor < length self.old.actors }
        requires claims { (actor_at self.old.actors actor).claim ≢ None }
        ensures { self.new ≡ record self.old { passed_over = passing (leaf_claimed self.old actor) self.old } }
    {
        if let Some(prefix) = &self.actors[actor as usize].claim {
            let place = marks::place_of(&self.catalog, prefix);
            self.marks[place] = true;
        }
    }

    /// How many actors have reserved an update that they haven't committed.
    fn reservations(&self) -> usize
        ensures { result ≡ count_by (λ a. a.reserved) self.now.actors }
    {
        self.actors.iter().filter(|state| state.reserved).count()
    }

    /// The end of the log.
    fn end(&self) -> Position
        ensures { result ≡ end_of self.now.log }
    {
        Position {
            updates: self.updates,
            splits: self.events.len() as u32 - self.updates,
        }
    }
}

/// How many updates the log may have.
fn limit_of(settings: &Settings) -> u32
    ensures { result ≡ settings.now.updates }
{
    settings.updates
}

/// How many pivots there are.
fn pivots_of(settings: &Settings) -> u8
    ensures { result ≡ length settings.now.pivots }
{
    settings.pivots.len() as u8
}

/// An insert may not enter the leaf before it is split.
fn is_crowded(settings: &Settings, leaf: &Leaf) -> bool
    ensures { result ≡ is_crowded settings.now.levels settings.now.cell leaf.now }
{
    leaf.is_crowded(settings.levels, settings.cell)
}

/// The leaf is to be split.
fn is_wanted(settings: &Settings, leaf: &Leaf) -> bool
    ensures { result ≡ is_wanted settings.now.levels settings.now.cell leaf.now }
{
    leaf.is_wanted(settings.levels, settings.cell)
}

/// Enters an update that the actor had reserved, and gives its number. It takes no memory.
fn enter(
    events: &mut Vec<LogEvent>,
    updates: &mut u32,
    state: &mut ActorState,
    event: LogEvent,
) -> u32
    requires room { length events.old.items < vec_capacity events.old }
    requires few { updates.old < u32.MAX }
    ensures events { events.new.items ≡ events.old.items ++ event ∷ [] }
    ensures room { vec_capacity events.old ≤ vec_capacity events.new }
    ensures updates { updates.new ≡ updates.old + 1 }
    ensures number { result ≡ updates.old + 1 }
    ensures state { state.new ≡ with_reserved false state.old }
{
    events.push(event).unwrap();
    *updates += 1;
    state.reserved = false;
    *updates
}

/// The earlier of two positions.
fn earlier(one: Option<Position>, other: Position) -> Position
    ensures { result ≡ earlier one other }
{
    match one {
        Some(one) if events_at(one) <= events_at(other) => one,
        _ => other,
    }
}

/// The two positions are one.
fn is_same_position(one: Position, other: Position) -> bool
    ensures { result ≡ same_position one other }
{
    one.updates == other.updates && one.splits == other.splits
}

/// How many events the log has up to a position.
fn events_at(at: Position) -> u64
    ensures { result ≡ events_at at }
{
    u64::from(at.updates) + u64::from(at.splits)
}
