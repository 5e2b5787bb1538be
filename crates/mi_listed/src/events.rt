//! Events, as a list of them has them.
use mi_base::{Id, LogEvent, Perm, Prefix, Update, Vector};

/// An event, with the permutation of an inserted object.
#[derive(Drop)]
pub enum Event {
    Insert {
        actor: u32,
        op: u32,
        id: Id,
        vector: Vector,
        perm: Perm,
    },
    Delete {
        actor: u32,
        op: u32,
        id: Id,
    },
    Split {
        prefix: Prefix,
    },
}

impl Event {
    /// The event deletes this identifier.
    pub fn deletes(&self, which: Id) -> bool {
        match self {
            Event::Delete { id, .. } => *id == which,
            _ => false,
        }
    }

    /// The event splits this leaf.
    pub fn is_split_of(&self, which: &[u8]) -> bool {
        match self {
            Event::Split { prefix } => prefix.as_slice() == which,
            _ => false,
        }
    }

    /// The event is no split.
    pub fn is_update(&self) -> bool {
        match self {
            Event::Split { .. } => false,
            _ => true,
        }
    }

    /// The event is the one in a board's log.
    pub fn is(&self, event: &LogEvent) -> bool {
        match (self, event) {
            (Event::Split { prefix }, LogEvent::Split { prefix: other }) => {
                prefix.as_slice() == other.as_slice()
            }
            (
                Event::Delete { actor, op, id },
                LogEvent::Update {
                    session,
                    op: number,
                    update: Update::Delete { id: other },
                },
            ) => actor == session && op == number && id == other,
            (
                Event::Insert {
                    actor,
                    op,
                    id,
                    vector,
                    ..
                },
                LogEvent::Update {
                    session,
                    op: number,
                    update: Update::Insert {
                        id: other,
                        vector: place,
                    },
                },
            ) => {
                actor == session
                    && op == number
                    && id == other
                    && vector.as_slice() == place.as_slice()
            }
            _ => false,
        }
    }
}
