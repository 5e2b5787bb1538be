//! The leaves of the index, each with its count and hull.
ghost use Rattle.std.specs.Prelude.{◌≡◌, ◌<◌, ◌≤◌, ◌+◌, ◌++◌, [], ◌∷◌, Some, IfOk, IfSome, OnOk, length, map, flat_map, slice_get, All, true};
ghost use Rattle.mi_base.specs.Permutations.{begins};
ghost use Rattle.mi_base.specs.Configuration.{IsDepth};
ghost use Rattle.mi_tree.specs.Cells.{children, first_leaves};
ghost use Rattle.mi_tree.specs.Counting.{with_added, with_removed, split_leaf, leaves_beginning, has_leaf, leaf_among};
ghost use Rattle.mi_tree.specs.Catalog.{Splits};

use crate::counts::{self, Placed};
use crate::{Leaf, SplitRefusal, cells};
use mi_base::{NoMemory, Perm, Prefix, Steps};
use std::alloc::Global;
use std::marker::Model;
use std::sync::ledger::Ledger;

/// The leaves in dictionary order of their prefixes. Each permutation of the pivots begins with the prefix of exactly one.
#[derive(Drop)]
pub struct Catalog {
    pivots: u32,
    levels: u32,
    leaves: Vec<Leaf>,
}

impl Model for Catalog {
    ghost use Rattle.mi_tree.specs.Catalog.{CatalogState, IsCatalog, prefixes_of};

    ghost Value = { CatalogState };

    ghost view = { λ c. record { pivots = c.pivots; levels = c.levels; leaves = c.leaves.items } };

    ghost invariant = { λ c. IsCatalog c.pivots c.levels (prefixes_of c.leaves.items) };
}

impl Catalog {
    /// The catalog before any update: a leaf for each pivot, or one with the empty prefix where there are none.
    pub fn first(alloc: Global, pivots: u32, levels: u32) -> Result<Catalog, NoMemory>
        requires few { pivots ≤ 32 }
        requires depth { IsDepth pivots levels }
        ensures { IfOk result (λ c. c ≡ record { pivots = pivots; levels = levels; leaves = map (leaf_among []) (first_leaves pivots) }) }
    {
        let mut leaves = Vec::new(alloc);
        let root = Prefix::empty();
        if pivots == 0 {
            leaves.push(counts::leaf_among(root, &[]))?;
        } else {
            push_children(&mut leaves, pivots, &root, &[])?;
        }
        Ok(Catalog {
            pivots,
            levels,
            leaves,
        })
    }

    /// The leaf whose prefix begins the permutation.
    pub fn locate(&self, perm: &Perm) -> Leaf
        requires { length perm.now ≡ self.now.pivots }
        ensures { leaves_beginning perm.now self.now.leaves ≡ result ∷ [] }
    {
        self.leaves[self.place_of(perm)].copy()
    }

    /// One more object with this permutation and key distance.
    pub fn add(&mut self, perm: &Perm, distance: u32)
        requires long { length perm.now ≡ self.old.pivots }
        requires room { All (λ l. begins l.prefix perm.now ≡ true → l.count < u32.MAX) self.old.leaves }
        ensures { self.new ≡ record self.old { leaves = map (with_added perm.now distance) self.old.leaves } }
    {
        let place = self.place_of(perm);
        counts::put(&mut self.leaves[place], distance);
    }

    /// One object less with this permutation.
    pub fn remove(&mut self, perm: &Perm)
        requires long { length perm.now ≡ self.old.pivots }
        requires some { All (λ l. begins l.prefix perm.now ≡ true → 0 < l.count) self.old.leaves }
        ensures { self.new ≡ record self.old { leaves = map (with_removed perm.now) self.old.leaves } }
    {
        let place = self.place_of(perm);
        counts::take(&mut self.leaves[place]);
    }

    /// Puts the children of the leaf with this prefix in its place, each with those of the objects that belong to it. A
    /// caller gives the live objects of the leaf; nothing is checked of them.
    pub fn split(
        &mut self,
        alloc: Global,
        prefix: &Prefix,
        objects: &[Placed],
    ) -> Result<(), SplitRefusal>
        requires { length objects.now ≤ u32.MAX }
        ensures { Splits self.old self.new prefix.now objects.now result }
    {
        if !self.has(prefix) {
            return Err(SplitRefusal::NotLeaf);
        }
        if prefix.len() >= self.levels as usize {
            return Err(SplitRefusal::Deepest);
        }
        match self.parted(alloc, prefix, objects) {
            Ok(leaves) => {
                self.leaves = leaves;
                Ok(())
            }
            Err(NoMemory) => Err(SplitRefusal::Memory),
        }
    }

    /// How many leaves there are.
    pub fn len(&self) -> usize
        ensures { result ≡ length self.now.leaves }
    {
        self.leaves.len()
    }

    /// The leaf at a place in dictionary order.
    pub fn leaf(&self, place: usize) -> &Leaf
        requires { place < length self.now.leaves }
        ensures { slice_get self.now.leaves place ≡ Some result.now }
    {
        &self.leaves[place]
    }

    /// The same catalog again, in memory of its own. It takes a step for each leaf.
    pub fn copy<L: Ledger>(&self, alloc: Global, steps: &mut Steps<L>) -> Result<Catalog, NoMemory>
        ensures same { IfOk result (λ c. c ≡ self.now) }
        ensures ticks { OnOk result (steps.new ≡ steps.old + length self.now.leaves) }
    {
        let mut leaves = Vec::with_capacity(alloc, self.leaves.len())?;
        for leaf in &self.leaves {
            leaves.push(leaf.copy())?;
            steps.tick();
        }
        Ok(Catalog {
            pivots: self.pivots,
            levels: self.levels,
            leaves,
        })
    }

    /// How many pivots a prefix may have.
    pub fn levels(&self) -> u32
        ensures { result ≡ self.now.levels }
    {
        self.levels
    }

    /// A leaf has this prefix.
    fn has(&self, prefix: &Prefix) -> bool
        ensures { result ≡ has_leaf prefix.now self.now.leaves }
    {
        self.leaves
            .iter()
            .any(|leaf| cells::is_same(prefix, &leaf.prefix))
    }

    /// The place of the leaf whose prefix begins the permutation: the last one that the permutation doesn't come before.
    fn place_of(&self, perm: &Perm) -> usize
        requires { length perm.now ≡ self.now.pivots }
        ensures one { length (leaves_beginning perm.now self.now.leaves) ≡ 1 }
        ensures within { result < length self.now.leaves }
        ensures begins { IfSome (slice_get self.now.leaves result) (λ l. begins l.prefix perm.now ≡ true) }
    {
        let pivots = perm.as_slice();
        let mut low = 0;
        let mut high = self.leaves.len();
        while high - low > 1 {
            let middle = low + (high - low) / 2;
            if cells::is_before(pivots, &self.leaves[middle].prefix) {
                high = middle;
            } else {
                low = middle;
            }
        }
        low
    }

    /// The leaves with the children of this prefix in place of its leaf.
    fn parted(
        &self,
        alloc: Global,
        prefix: &Prefix,
        objects: &[Placed],
    ) -> Result<Vec<Leaf>, NoMemory>
        requires few { length objects.now ≤ u32.MAX }
        requires short { length prefix.now < 6 }
        ensures { IfOk result (λ leaves. leaves.items ≡ flat_map (split_leaf self.now.pivots prefix.now objects.now) self.now.leaves) }
    {
        let mut leaves = Vec::new(alloc);
        for leaf in &self.leaves {
            if cells::is_same(prefix, &leaf.prefix) {
                push_children(&mut leaves, self.pivots, prefix, objects)?;
            } else {
                leaves.push(leaf.copy())?;
            }
        }
        Ok(leaves)
    }
}

/// The children of a prefix at the end of a list, each with those of the objects that belong to it.
fn push_children(
    leaves: &mut Vec<Leaf>,
    pivots: u32,
    prefix: &Prefix,
    objects: &[Placed],
) -> Result<(), NoMemory>
    requires few { length objects.now ≤ u32.MAX }
    requires short { length prefix.now < 6 }
    requires pivots { pivots ≤ 32 }
    ensures { OnOk result (leaves.new.items ≡ leaves.old.items ++ map (leaf_among objects.now) (children pivots prefix.now)) }
{
    for pivot in 0..pivots as u8 {
        if !prefix.as_slice().contains(&pivot) {
            leaves.push(counts::leaf_among(cells::child_of(prefix, pivot), objects))?;
        }
    }
    Ok(())
}
