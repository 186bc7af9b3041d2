// Who is told of the turns of workers.

/// What a worker has just done.
#[derive(Clone, Copy, Debug, PartialEq, Eq)]
pub enum Turn {
    /// It took an item.
    Took,
    /// It finished an item.
    Finished,
    /// It ended.
    Left,
}

/// Is told of each turn of each worker, in that worker's thread.
///
/// A worker calls it after each item that it took, after each item that it finished, and once when
/// it ends. It answers nothing, so the worker goes on alike whatever the gate does.
pub trait Gate: Sync {
    /// The worker of this number stands at this turn.
    fn turn(&self, worker: u32, at: Turn);
}

/// A gate that does nothing.
#[derive(Clone, Copy, Debug)]
pub struct OpenGate;

impl Gate for OpenGate {
    fn turn(&self, _worker: u32, _at: Turn) {}
}
