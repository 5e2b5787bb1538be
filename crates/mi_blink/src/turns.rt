//! What a section of an operation answers.

use mi_base::Reply;
use mi_tree::Leaf;

/// Why a split was given up.
#[derive(Clone, Copy, Debug, PartialEq, Eq)]
pub enum Why {
    /// A leaf page was wanted, and all pages are allotted.
    NoPages { limit: u32 },
    /// Memory was wanted.
    Memory,
}

/// What a section of an operation answers.
#[derive(Drop)]
pub enum Turn {
    /// The operation goes on.
    More,
    /// Another actor holds what this section claims. It is made again.
    Held,
    /// The claimed leaf has to be split first.
    Crowded { leaf: Leaf },
    /// The operation has ended.
    Done { reply: Reply },
}
