//! Why a table is no metric.

use thiserror::Error;

/// The first fault of a table, with row numbers from 0.
#[derive(Clone, Copy, Debug, PartialEq, Eq, Error)]
pub enum TableFault {
    #[error("row {row} is not as long as the table")]
    NotSquare { row: u32 },
    #[error("the distance from {i} to itself is not 0")]
    Diagonal { i: u32 },
    #[error("the distance from {i} to {j} is 0")]
    Zero { i: u32, j: u32 },
    #[error("the distance from {i} to {j} is not that from {j} to {i}")]
    Asymmetric { i: u32, j: u32 },
    #[error("the way from {i} to {k} is shorter through {j}")]
    Triangle { i: u32, j: u32, k: u32 },
    #[error("memory was wanted and there was none")]
    Memory,
}
