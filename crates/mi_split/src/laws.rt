//! What is true of splits and sweeps at every view. The functions do nothing.
ghost use Rattle.std.specs.Prelude.{◌≡◌, ◌≤◌, ◌<◌, ◌+◌, ℕ, List, Some, true, false};
ghost use Rattle.mi_tree.specs.declared.outcomes.Leaf.{Leaf as ALeaf};
ghost use Rattle.mi_world.specs.View.{Others, View};
ghost use Rattle.mi_blink.specs.Descents.{longest};
ghost use Rattle.mi_split.specs.declared.split.SplitOp.{SplitOp as ASplit};
ghost use Rattle.mi_split.specs.declared.sweep.SweepOp.{SweepOp as ASweep};
ghost use Rattle.mi_split.specs.Splitting.{Begun as SplitBegun, Ready as SplitIsReady, left as split_left, split_most};
ghost use Rattle.mi_split.specs.Sweeping.{Begun as SweepBegun, Ready as SweepIsReady, left as sweep_left};

/// A split of the leaf that the actor claims begins ready, where that is to be split and no split of it has begun.
pub fn splits_begin()
    ensures { (op : ASplit) (leaf : ALeaf) (v : View) → SplitBegun op leaf → v.leaf ≡ Some leaf.prefix → v.wanted ≡ true → v.splitting ≡ false → SplitIsReady op v }
{}

/// While others act a split stays ready.
pub fn splits_wait()
    ensures { (op : ASplit) (v w : View) → Others v w → SplitIsReady op v → SplitIsReady op w }
{}

/// A split ends after so many sections while the budget stays.
pub fn splits_end()
    ensures { (op : ASplit) (v : View) → SplitIsReady op v → split_left op v < split_most }
{}

/// A sweep of the leaf that the actor was given begins ready.
pub fn sweeps_begin()
    ensures { (op : ASweep) (prefix : List ℕ) (v : View) → SweepBegun op prefix → v.sweep ≡ Some prefix → SweepIsReady op v }
{}

/// While others act a sweep stays ready.
pub fn sweeps_wait()
    ensures { (op : ASweep) (v w : View) → Others v w → SweepIsReady op v → SweepIsReady op w }
{}

/// A sweep ends after so many sections.
pub fn sweeps_end()
    ensures { (op : ASweep) (v : View) → sweep_left op v ≤ longest + 1 }
{}
