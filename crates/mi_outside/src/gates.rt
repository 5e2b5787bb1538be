//! The gate that an actor passes between two sections.

/// Where an actor stands: before the first, between two or after the last of the sections of its
/// operation `op`, which counts from 1.
#[derive(Clone, Copy, Debug, PartialEq, Eq)]
pub enum GatePoint {
    Begin { op: u32 },
    Section { op: u32 },
    End { op: u32 },
}

/// It is passed between sections and does nothing to the index.
pub trait Gate: Sync {
    /// The actor is at this point.
    fn pass(&self, actor: u32, point: GatePoint);
}

/// The gate that holds nobody.
#[derive(Clone, Copy, Debug, PartialEq, Eq)]
pub struct OpenGate;

impl OpenGate {
    /// The open gate.
    pub fn new() -> OpenGate {
        OpenGate
    }
}

impl Gate for OpenGate {
    fn pass(&self, _actor: u32, _point: GatePoint) {}
}
