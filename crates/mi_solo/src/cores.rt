//! The parts that all actors share, and what is known of each actor.
ghost use Rattle.std.specs.Prelude.{◌≡◌, ◌≤◌, ◌-◌, ◌∷◌, [], IfOk, None, Some, replicate};
ghost use Rattle.mi_base.specs.Configuration.{Configuration, metric_space};
ghost use Rattle.mi_base.specs.Space.{IsMetric};
ghost use Rattle.mi_core.specs.Events.{first_actor, opened};
ghost use Rattle.mi_core.specs.Kept.{Kept};
ghost use Rattle.mi_entries.specs.Records.{no_shard};
ghost use Rattle.mi_page.specs.Nodes.{fresh_node};
ghost use Rattle.mi_solo.specs.States.{actors_of, state_of};

use crate::rows::ActorRow;
use crate::shards::ShardRow;
use mi_base::{NoMemory, Settings};
use mi_board::Board;
use mi_page::Page;
use std::alloc::Global;

/// How many shards there are.
const SHARDS: usize = 16;

/// The board, the shards, the pages by number where they are linked, and a row for each actor.
#[derive(Drop)]
pub struct Core {
    pub board: Board,
    pub shards: Vec<ShardRow>,
    pub pages: Vec<Option<Page>>,
    pub actors: Vec<ActorRow>,
}

impl Core {
    /// A core for so many actors, with page 0 alone and an empty log.
    pub fn open(alloc: Global, settings: &Settings, actors: u32) -> Result<Core, NoMemory>
        requires some { 1 ≤ actors }
        requires metric { IsMetric (metric_space settings.now) }
        ensures opened { IfOk result (λ c. state_of c ≡ opened settings.now actors (settings.now.pages - 1)) }
        ensures kept { IfOk result (λ c. Kept (state_of c)) }
    {
        Ok(Core {
            board: Board::open(alloc, settings, actors)?,
            shards: first_shards(alloc)?,
            pages: first_pages(alloc, settings.pages as usize)?,
            actors: first_rows(alloc, actors)?,
        })
    }
}

/// Sixteen shards that nobody holds, without records.
fn first_shards(alloc: Global) -> Result<Vec<ShardRow>, NoMemory>
    ensures { IfOk result (λ shards. shards.items ≡ replicate 16 no_shard) }
{
    let mut shards = Vec::with_capacity(alloc, SHARDS)?;
    for _ in 0..SHARDS {
        shards.push(ShardRow::new(alloc))?;
    }
    Ok(shards)
}

/// So many places for pages, the first of which has a page.
fn first_pages(alloc: Global, count: usize) -> Result<Vec<Option<Page>>, NoMemory>
    requires { 1 ≤ count }
    ensures { IfOk result (λ pages. pages.items ≡ Some fresh_node ∷ replicate (count - 1) None) }
{
    let mut pages = Vec::with_capacity(alloc, count)?;
    pages.push(Some(Page::fresh(alloc)?))?;
    for _ in 0..count - 1 {
        pages.push(None)?;
    }
    Ok(pages)
}

/// So many actors at the opening.
fn first_rows(alloc: Global, count: u32) -> Result<Vec<ActorRow>, NoMemory>
    ensures { IfOk result (λ rows. (settings : Configuration) → actors_of settings [] 0 rows.items ≡ replicate count first_actor) }
{
    let mut rows = Vec::new(alloc);
    for _ in 0..count {
        rows.push(ActorRow::first(alloc))?;
    }
    Ok(rows)
}
