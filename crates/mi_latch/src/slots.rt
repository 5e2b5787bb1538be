//! What lies in the slots of the table.
use mi_board::Board;
use mi_page::Page;
use mi_shard::ShardRows;

/// What lies in a slot.
#[derive(Drop)]
pub enum Slot {
    Vacant,
    OfBoard(Board),
    OfShard(ShardRows),
    OfPage(Page),
}
