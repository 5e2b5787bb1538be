//! The sections of one actor, each by what it makes of the actor's view.
ghost use Rattle.std.specs.Prelude.{◌≡◌, ◌<◌, ◌≤◌, ℕ, length, false, true, is_some, IsSome, IsTrue, None, Some};
ghost use Rattle.mi_base.specs.History.{end_of};
ghost use Rattle.mi_tree.specs.Legal.{cells_of};
ghost use Rattle.mi_world.specs.View.{View, shard_of};
ghost use Rattle.mi_world.specs.Claims.{ClaimsLeaf, ClaimsShard, ReleasesLeaf, ReleasesShard};
ghost use Rattle.mi_world.specs.Boards.{Allots, GivesWork, Grew, Looks, Pins, Reserves, Unpins};
ghost use Rattle.mi_world.specs.Pages.{CommitsDelete, CommitsInsert, IsChildAt, IsInLeaf, MayDelete, MayInsert, MayPost, MaySeek, MayVisit, PartsPage, Posts, TakesAll, Trims, Visits, delete_key, offered_by, pinned};
ghost use Rattle.mi_world.specs.Splits.{CopiesIn, Gathers, GivesUp, IsGathered, MayGather, Publishes, Sweeps, Uncopies, copied_in, gather_key, gathered_in, last_copy, next_copy};

use crate::{Commit, Parted, Put, ShardClaim, Visit};
use mi_base::{Dists, Id, NoMemory, Perm, Position, Vector};
use mi_key::{Interval, Key, Sieve};
use mi_tree::{AllotRefusal, Catalog, LeafClaim, Look, ReserveRefusal, Work};
use std::alloc::Global;

/// One actor of an index that others share. A call that takes `&mut self` is one section, between which others may act.
pub trait World {
    /// What the actor has, knows and has noted.
    ghost view: { Self → View };

    /// At most one section of this actor led from the one to the other.
    ghost section: { Self → Self → Type 0 };

    /// The actor's number.
    fn actor(&self) -> u32
        ensures { result ≡ (view self.now).actor };

    /// The end of the log that the actor has seen.
    fn seen(&self) -> Position
        ensures { result ≡ end_of (view self.now).seen };

    /// Takes the shard of the identifier, unless another actor holds it.
    fn claim_shard(&mut self, id: Id) -> ShardClaim
        requires { (view self.old).shard ≡ None }
        ensures told { ClaimsShard (view self.old) (view self.new) id result }
        ensures section { section self.old self.new };

    /// Lets go of the shard.
    fn release_shard(&mut self)
        requires { IsSome (view self.old).shard }
        ensures told { ReleasesShard (view self.old) (view self.new) }
        ensures section { section self.old self.new };

    /// Sees the whole log.
    fn look(&mut self) -> Look
        ensures told { Looks (view self.old) (view self.new) result }
        ensures section { section self.old self.new };

    /// Reserves room for one update.
    fn reserve(&mut self) -> Result<Look, ReserveRefusal>
        requires { IsSome (view self.old).shard }
        ensures told { Reserves (view self.old) (view self.new) result }
        ensures section { section self.old self.new };

    /// Claims the leaf of the permutation, unless another actor does.
    fn claim_leaf(&mut self, perm: &Perm) -> LeafClaim
        requires long { length perm.now ≡ length (view self.old).settings.pivots }
        requires free { (view self.old).leaf ≡ None }
        requires idle { (view self.old).sweep ≡ None }
        ensures told { ClaimsLeaf (view self.old) (view self.new) perm.now result }
        ensures section { section self.old self.new };

    /// Ends the claim of the leaf.
    fn release_leaf(&mut self)
        requires claimed { IsSome (view self.old).leaf }
        requires whole { (view self.old).splitting ≡ false }
        ensures told { ReleasesLeaf (view self.old) (view self.new) }
        ensures section { section self.old self.new };

    /// Pins the whole log.
    fn pin(&mut self, alloc: Global) -> Result<Look, NoMemory>
        requires { (view self.old).pin ≡ None }
        ensures told { Pins (view self.old) (view self.new) result }
        ensures section { section self.old self.new };

    /// The cells of the pinned log.
    fn pinned(&self) -> &Catalog
        requires { IsSome (view self.now).pin }
        ensures { result.now ≡ record { pivots = length (view self.now).settings.pivots; levels = (view self.now).settings.levels; leaves = cells_of (view self.now).settings (pinned (view self.now)) } };

    /// Ends the pin.
    fn unpin(&mut self)
        requires { IsSome (view self.old).pin }
        ensures told { Unpins (view self.old) (view self.new) }
        ensures section { section self.old self.new };

    /// Reads the page for the interval, and offers what it shows at the pin.
    fn visit<S: Sieve>(&mut self, page: u32, range: &Interval, sieve: &mut S) -> Visit
        requires pin { IsSome (view self.old).pin }
        requires named { IsTrue ((view self.old).named page) }
        requires low { MayVisit (view self.old) page range.now }
        requires inside { IsInLeaf (view self.old) range.now }
        requires spare { 32 ≤ S.spare sieve.old }
        requires takes { TakesAll (view self.old) (S.takes sieve.old) }
        ensures told { Visits (view self.old) (view self.new) page range.now result }
        ensures offered { S.offered sieve.old (offered_by (view self.old) (view self.new) page range.now result) sieve.new }
        ensures section { section self.old self.new };

    /// Enters the insert into the log and its entry into the page.
    fn commit_insert(
        &mut self,
        page: u32,
        op: u32,
        id: Id,
        vector: &Vector,
        dists: &Dists,
    ) -> Commit
        requires ready { MayInsert (view self.old) id vector.now dists.now.items }
        requires seeks { MaySeek (view self.old) page dists.now.items id }
        ensures told { CommitsInsert (view self.old) (view self.new) page op id vector.now dists.now.items result }
        ensures section { section self.old self.new };

    /// Enters the delete into the log and its number into the entry.
    fn commit_delete(&mut self, page: u32, op: u32, id: Id) -> Commit
        requires ready { MayDelete (view self.old) id }
        requires named { IsTrue ((view self.old).named page) }
        requires low { (view self.old).low page ≤ delete_key (view self.old) id }
        ensures told { CommitsDelete (view self.old) (view self.new) page op id result }
        ensures section { section self.old self.new };

    /// Whether a fresh page is in the actor's hand.
    fn fresh(&self) -> bool
        ensures { result ≡ is_some (view self.now).fresh };

    /// Whether memory was wanted for a page.
    fn lacked(&self) -> bool
        ensures { result ≡ (view self.now).lacked };

    /// Takes a fresh page in hand.
    fn allot(&mut self, alloc: Global) -> Result<(), AllotRefusal>
        requires { is_some (view self.old).fresh ≡ false }
        ensures told { Allots (view self.old) (view self.new) result }
        ensures section { section self.old self.new };

    /// Halves the page, if it is full.
    fn split_page(&mut self, page: u32) -> Parted
        requires named { IsTrue ((view self.old).named page) }
        requires fresh { IsSome (view self.old).fresh }
        ensures told { PartsPage (view self.old) (view self.new) page result }
        ensures section { section self.old self.new };

    /// Puts the child's route into the page, if that is of the route's level and has its key.
    fn post(&mut self, page: u32, level: u32, key: Key, child: u32) -> Put
        requires route { IsChildAt (view self.old) level key child }
        requires seeks { MayPost (view self.old) page level key }
        ensures told { Posts (view self.old) (view self.new) page level key child result }
        ensures section { section self.old self.new };

    /// Makes the fresh page the root of this level, with the routes of the old root and of the child.
    fn grow(&mut self, level: u32, key: Key, child: u32) -> bool
        requires route { IsChildAt (view self.old) level key child }
        requires fresh { IsSome (view self.old).fresh }
        ensures told { Grew (view self.old) (view self.new) level child result }
        ensures section { section self.old self.new };

    /// Gathers the live entries of the claimed leaf on the page. The first gather begins the leaf's split.
    fn gather(&mut self, page: u32) -> Result<Visit, NoMemory>
        requires leaf { MayGather (view self.old) }
        requires named { IsTrue ((view self.old).named page) }
        requires low { (view self.old).low page ≤ gather_key (view self.old) }
        ensures told { Gathers (view self.old) (view self.new) page result }
        ensures section { section self.old self.new };

    /// How many entries were gathered.
    fn gathered(&self) -> usize
        ensures { result ≡ gathered_in (view self.now) };

    /// How many of them are copied.
    fn copied(&self) -> usize
        ensures { result ≡ copied_in (view self.now) };

    /// Copies the next gathered entry under the key of its child.
    fn copy_in(&mut self, page: u32) -> Put
        requires leaf { IsGathered (view self.old) }
        requires more { (view self.old).copied < length (view self.old).copies }
        requires named { IsTrue ((view self.old).named page) }
        requires low { (view self.old).low page ≤ next_copy (view self.old) }
        ensures told { CopiesIn (view self.old) (view self.new) page result }
        ensures section { section self.old self.new };

    /// Takes the last copy back.
    fn uncopy(&mut self, page: u32) -> Put
        requires splitting { (view self.old).splitting ≡ true }
        requires some { 0 < (view self.old).copied }
        requires named { IsTrue ((view self.old).named page) }
        requires low { (view self.old).low page ≤ last_copy (view self.old) }
        ensures told { Uncopies (view self.old) (view self.new) page result }
        ensures section { section self.old self.new };

    /// Enters the split of the claimed leaf into the log, which ends the claim.
    fn publish(&mut self, alloc: Global) -> Result<Position, NoMemory>
        requires leaf { IsGathered (view self.old) }
        requires all { (view self.old).copied ≡ length (view self.old).copies }
        ensures told { Publishes (view self.old) (view self.new) result }
        ensures section { section self.old self.new };

    /// Ends the split and the claim of the leaf, which is passed over from then on where pages were wanting.
    fn give_up(&mut self, pages: bool)
        requires claimed { IsSome (view self.old).leaf }
        requires none { copied_in (view self.old) ≡ 0 }
        requires told { IsTrue pages → IsTrue (view self.old).told }
        ensures told { GivesUp (view self.old) (view self.new) pages }
        ensures section { section self.old self.new };

    /// What a splitter has to do next, which is this actor's then.
    fn next_work(&mut self) -> Work
        requires free { (view self.old).leaf ≡ None }
        requires idle { (view self.old).sweep ≡ None }
        ensures told { GivesWork (view self.old) (view self.new) result }
        ensures section { section self.old self.new };

    /// Takes the entries of the retired leaf off the page, which ends the sweep where no page to the right has more.
    fn sweep(&mut self, page: u32) -> Visit
        requires given { IsSome (view self.old).sweep }
        requires named { IsTrue ((view self.old).named page) }
        requires low { (view self.old).low page ≤ (view self.old).swept }
        ensures told { Sweeps (view self.old) (view self.new) page result }
        ensures section { section self.old self.new };

    /// Takes the entries off the page that are dead at the actor's floor.
    fn trim(&mut self, page: u32) -> Visit
        requires named { IsTrue ((view self.old).named page) }
        requires leaf { (view self.old).level page ≡ 0 }
        ensures told { Trims (view self.old) (view self.new) page result }
        ensures section { section self.old self.new };

    /// No section is at most one.
    ghost none: { (w : Self) → section w w };
}
