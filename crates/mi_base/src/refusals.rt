//! Why a value was not made.

use std::alloc::{AllocError, AllocFailed};

/// Memory was wanted and there was none.
#[derive(Clone, Copy, Debug, PartialEq, Eq)]
pub struct NoMemory;

impl From<AllocError> for NoMemory {
    fn from(_: AllocError) -> Self {
        NoMemory
    }
}

impl<T: Drop> From<AllocFailed<T>> for NoMemory {
    fn from(_: AllocFailed<T>) -> Self {
        NoMemory
    }
}

/// The number lies above the greatest identifier.
#[derive(Clone, Copy, Debug, PartialEq, Eq)]
pub struct OutOfRange {
    /// The number, 2^40 or more.
    pub value: u64,
}

/// Why the numbers are no vector.
#[derive(Clone, Copy, Debug, PartialEq, Eq)]
pub enum VectorRefusal {
    /// There are no items, or more than 64.
    Length { items: usize },
    /// The first item that lies outside -1,000,000 to 1,000,000.
    Coordinate { place: usize, value: i64 },
}
