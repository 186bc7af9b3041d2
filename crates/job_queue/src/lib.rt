//! Jobs that wait for whoever takes them: a queue that can be closed, and that queue under a lock.
#![tactic(auto)]

mod shared;
mod state;

pub use shared::JobQueue;
pub use state::{PutBack, QueueState};
