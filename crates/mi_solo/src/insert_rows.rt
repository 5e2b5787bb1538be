//! The commit of an insert, with the board, the page, the rows of the shard and the actor's row in hand.
ghost use Rattle.std.specs.Prelude.{◌≡◌, ◌≤◌, ◌<◌, ◌^◌, IsSome, IsTrue, None, Some, ℕ, List, length};
ghost use Rattle.mi_base.specs.Permutations.{key_distance};
ghost use Rattle.mi_base.specs.Prefixes.{all_below};
ghost use Rattle.mi_solo.specs.CommitRows.{EntersRow, InsertsRow, MayEnter, key_in_row, next_birth};
ghost use Rattle.mi_solo.specs.Seeking.{EndsAfter};

use crate::keying::key_of_object;
use crate::page_rows::CAPACITY;
use crate::rows::ActorRow;
use crate::seeking::{Way, seek};
use crate::shards::copy_dists;
use mi_base::{Dists, Id, Settings, Vector};
use mi_board::Board;
use mi_key::{Entry, Key};
use mi_page::Page;
use mi_perm::{key_distance, permutation};
use mi_shard::{RecordRow, ShardRows};
use mi_world::Commit;

/// The key of an object with these distances under the leaf that the row claims.
pub fn key_of_row(settings: &Settings, row: &ActorRow, dists: &Dists, id: Id, birth: u32) -> Key
    requires claim { IsSome row.now.claim }
    requires depth { (p : List ℕ) → row.now.claim ≡ Some p → length p ≤ settings.now.levels }
    requires pivots { (p : List ℕ) → row.now.claim ≡ Some p
        → IsTrue (all_below (length settings.now.pivots) p) }
    requires distance { key_distance dists.now.items < 2 ^ 27 }
    requires birth { birth < 2 ^ 30 }
    ensures { result ≡ key_in_row settings.now row.now dists.now.items id birth }
{
    let Some(leaf) = &row.claim else {
        unreachable!();
    };
    key_of_object(settings, leaf, dists, id, birth)
}

/// Enters the insert at the leaf page in hand, if its key lies there.
pub fn insert_row(
    actor: u32,
    page: u32,
    op: u32,
    id: Id,
    vector: &Vector,
    dists: &Dists,
    board: &mut Board,
    node: &mut Page,
    rows: &mut ShardRows,
    row: &mut ActorRow,
) -> Commit
    requires { MayEnter actor page id vector.now dists.now.items board.old node.old rows.old row.old }
    ensures { InsertsRow actor page op id
        (key_in_row board.old.settings row.old dists.now.items id (next_birth board.old)) vector.now
        dists.now.items result board.old node.old rows.old row.old board.new node.new rows.new
        row.new }
{
    let birth = board.look().at.updates + 1;
    let key = key_of_row(board.settings(), row, dists, id, birth);
    match seek(node, 0, key) {
        Way::Down { page: _ } => unreachable!(),
        Way::Right { page: next } => {
            row.meet(board, page);
            Commit::Right { page: next }
        }
        Way::Here => enter_row(
            actor, page, op, id, vector, dists, key, board, node, rows, row,
        ),
    }
}

/// The same where the key lies in the page, which takes the entry where log, leaf and page have
/// room.
fn enter_row(
    actor: u32,
    page: u32,
    op: u32,
    id: Id,
    vector: &Vector,
    dists: &Dists,
    key: Key,
    board: &mut Board,
    node: &mut Page,
    rows: &mut ShardRows,
    row: &mut ActorRow,
) -> Commit
    requires may { MayEnter actor page id vector.now dists.now.items board.old node.old rows.old
        row.old }
    requires key { key ≡ key_in_row board.old.settings row.old dists.now.items id (next_birth board.old) }
    requires ends { EndsAfter node.old 0 key }
    ensures { EntersRow actor page op id key vector.now dists.now.items result board.old node.old
        rows.old row.old board.new node.new rows.new row.new }
{
    let limit = board.settings().updates;
    let birth = board.look().at.updates + 1;
    if birth > limit {
        row.meet(board, page);
        return Commit::Full { limit };
    }
    let perm = permutation(dists);
    let settings = board.settings();
    let leaf = board.catalog().locate(&perm);
    if leaf.is_crowded(settings.levels, settings.cell) {
        row.meet(board, page);
        return Commit::Crowded;
    }
    node.trim(row.floor.updates);
    if node.len() == CAPACITY {
        row.meet(board, page);
        return Commit::PageFull;
    }
    node.insert_spare(new_entry(key, vector, dists, birth));
    let distance = key_distance(dists, &perm);
    let Ok(number) = board.commit_insert(actor, op, id, vector, &perm, distance) else {
        unreachable!();
    };
    rows.insert(RecordRow {
        id,
        birth: number,
        dists: copy_dists(dists),
    });
    row.commit(board, page);
    Commit::Done { number }
}

/// The entry of a new object.
fn new_entry(key: Key, vector: &Vector, dists: &Dists, birth: u32) -> Entry
    ensures { result ≡ record { key = key; vector = vector.now; dists = dists.now; birth = birth; death = None } }
{
    Entry {
        key,
        vector: vector.copy(),
        dists: copy_dists(dists),
        birth,
        death: None,
    }
}
