//! Leaves that were split.

use mi_base::Prefix;

/// A leaf that was split and not yet swept, with the place of its split in the log.
#[derive(Drop)]
pub struct RetiredLeaf {
    pub prefix: Prefix,
    pub event: u32,
}
