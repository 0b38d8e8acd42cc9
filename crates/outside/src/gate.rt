// What may happen before a turn.

/// Is called before each turn of a worker. It promises nothing.
pub trait Gate {
    /// Is called before the turn with this number, counted from 1, of this worker.
    fn before(&self, worker: u32, turn: u64);
}

/// A gate that does nothing.
#[derive(Clone, Copy, Debug, PartialEq, Eq)]
pub struct FreeGate;

impl Gate for FreeGate {
    fn before(&self, _worker: u32, _turn: u64) {}
}
