//! Why a leaf was not split.

/// Why a catalog didn't split a leaf.
#[derive(Clone, Copy, Debug, PartialEq, Eq)]
pub enum SplitRefusal {
    /// No leaf has the prefix.
    NotLeaf,
    /// The leaf has the greatest depth.
    Deepest,
    /// Memory was wanted and there was none.
    Memory,
}
