//! The gate that a chunk or a task passes before its functions run.

/// What passes a gate.
#[derive(Clone, Copy, Debug, PartialEq, Eq)]
pub enum Passing {
    /// A chunk of a call, by their numbers.
    Chunk { call: u32, chunk: u32 },

    /// A task of a block, by the numbers of the block and of the task's `run`.
    Task { block: u32, run: u32 },
}

/// A place that each worker passes before it runs a chunk or a task. No answer of a call depends on it.
pub trait Gate: Sync {
    /// Is told what passes, and returns.
    fn pass(&self, at: Passing);
}

/// A gate that does nothing.
#[derive(Clone, Copy, Debug, PartialEq, Eq)]
pub struct NoGate;

impl Gate for NoGate {
    fn pass(&self, _at: Passing) {}
}
