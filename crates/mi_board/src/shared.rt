//! The catalog that pins share.

use mi_base::Position;
use mi_tree::Catalog;
use std::alloc::Global;
use std::sync::Arc;

/// The catalog of the latest pin, with its position.
#[derive(Drop)]
pub struct KeptCatalog {
    pub at: Position,
    pub catalog: Arc<Catalog, Global>,
}
