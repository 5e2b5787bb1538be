//! The operations of scripts, as records and as events.

use std::alloc::Global;
use std::test::Fail;

/// An operation of a script.
#[derive(Clone, Copy, Debug)]
pub enum Asked {
    Insert { id: u64, point: [i64; 2] },
    Delete { id: u64 },
    Range { radius: i64, query: [i64; 2] },
    Nearest { count: u64, query: [i64; 2] },
}

impl Asked {
    /// The operation as the record of a script.
    pub fn record(self, alloc: Global) -> Result<String, Fail> {
        let line = match self {
            Asked::Insert { id, point } => {
                let [x, y] = point;
                format!(in alloc; "insert,{id},{x},{y}\n")?
            }
            Asked::Delete { id } => format!(in alloc; "delete,{id}\n")?,
            Asked::Range { radius, query } => {
                let [x, y] = query;
                format!(in alloc; "range,{radius},{x},{y}\n")?
            }
            Asked::Nearest { count, query } => {
                let [x, y] = query;
                format!(in alloc; "nearest,{count},{x},{y}\n")?
            }
        };
        Ok(line)
    }

    /// The event of an accepted update.
    pub fn event(self, alloc: Global, session: usize, op: usize) -> Result<String, Fail> {
        let line = match self {
            Asked::Insert { id, point } => {
                let [x, y] = point;
                format!(in alloc; "insert,{session},{op},{id},{x},{y}")?
            }
            Asked::Delete { id } => format!(in alloc; "delete,{session},{op},{id}")?,
            _ => return Err("a query enters nothing".into()),
        };
        Ok(line)
    }
}
