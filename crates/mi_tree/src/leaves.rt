//! What a leaf says of itself.
ghost use Rattle.std.specs.Prelude.{◌≡◌};
ghost use Rattle.mi_tree.specs.Counting.{is_crowded, is_splittable, is_wanted};

use crate::Leaf;

impl Leaf {
    /// The same leaf again. It takes no memory.
    pub fn copy(&self) -> Leaf
        ensures { result ≡ self.now }
    {
        Leaf {
            prefix: self.prefix.copy(),
            count: self.count,
            hull: self.hull,
        }
    }

    /// A prefix may have so many pivots, and this one has fewer.
    pub fn is_splittable(&self, levels: u32) -> bool
        ensures { result ≡ is_splittable levels self.now }
    {
        self.prefix.len() < levels as usize
    }

    /// The leaf may be split, and has more objects than the cell size.
    pub fn is_wanted(&self, levels: u32, cell: u32) -> bool
        ensures { result ≡ is_wanted levels cell self.now }
    {
        self.is_splittable(levels) && self.count > cell
    }

    /// The leaf may be split, and has four times the cell size or more.
    pub fn is_crowded(&self, levels: u32, cell: u32) -> bool
        ensures { result ≡ is_crowded levels cell self.now }
    {
        self.is_splittable(levels) && u64::from(self.count) >= 4 * u64::from(cell)
    }
}
