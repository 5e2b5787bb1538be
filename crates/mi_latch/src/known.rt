//! What a seat at a table of latched values knows.
use std::collections::LinkedList;

/// What a seat knows. A seat that is spent stands for no actor. No value of it is made.
pub struct Known<A, S> {
    pub live: bool,
    // Its actor, with what that actor knows.
    pub actor: usize,
    pub mine: A,
    // The values that are out with it, the last first.
    pub out: LinkedList<(usize, S)>,
    // The actors that it made and that have no seat yet.
    pub born: LinkedList<(usize, A)>,
    // The actors that were absorbed into it.
    pub absorbed: LinkedList<(usize, A)>,
    // The actors that it made, or one absorbed into it.
    pub forked: LinkedList<usize>,
}
