//! Points that threads pass.

/// A point that an actor of a run passes.
#[derive(Clone, Copy, Debug, PartialEq, Eq)]
pub enum Point {
    /// Map worker `worker` has kept the spill of this attempt that ends before record `to` of the
    /// split.
    Spill {
        worker: u8,
        split: u32,
        attempt: u8,
        to: u32,
    },
    /// The snapshot of this reducer at this progress mark was put.
    Snapshot {
        mark: u16,
        reducer: u8,
    },
    /// A background merge of this merger was installed.
    Merged {
        merger: u8,
    },
}

/// What a run passes at its points, so that a test can hold an actor back.
pub trait Gate {
    /// Returns when the actor may go on.
    fn pass(&self, point: Point);
}

/// A gate that holds nobody back.
#[derive(Clone, Copy, Debug)]
pub struct OpenGate;

impl Gate for OpenGate {
    fn pass(&self, _point: Point) {}
}
