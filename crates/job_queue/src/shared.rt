// The queue that threads share.
ghost use Rattle.std.specs.Prelude.{◌≡◌, IfErr};
ghost use Rattle.job_queue.specs.Queue.{job_in};

use crate::state::{PutBack, QueueState};
use std::alloc::Global;
use std::sync::{Condvar, Mutex, Wait};

/// A `QueueState` under a lock, for threads that put jobs and threads that take them.
///
/// What other threads do to it between two calls is unknown, so no clause speaks of the jobs that wait.
#[derive(Drop)]
pub struct JobQueue<J> {
    state: Mutex<QueueState<J>>,
    changed: Condvar,
}

impl<J> JobQueue<J> {
    /// An open queue without a job, which takes no memory.
    pub fn new(alloc: Global) -> Self {
        JobQueue {
            state: Mutex::new(QueueState::new(alloc)),
            changed: Condvar::new(),
        }
    }
}

impl<J: Drop> JobQueue<J> {
    /// Puts a job, as `QueueState::put` does.
    pub fn put<R: Wait>(&self, rt: &R, job: J) -> Result<(), PutBack<J>>
        ensures back { IfErr result (λ back. job_in back ≡ job) }
    {
        self.state.lock(rt).put(job)?;
        self.changed.notify_one();
        Ok(())
    }

    /// Takes a job, as `QueueState::take` does. It waits while no job waits and the queue is open.
    pub fn take<R: Wait>(&self, rt: &R) -> Option<J> {
        let mut state = self
            .changed
            .wait_while(rt, self.state.lock(rt), |state| state.is_idle());
        state.take()
    }

    /// Closes the queue, as `QueueState::close` does; whoever waits for a job goes on.
    pub fn close<R: Wait>(&self, rt: &R) {
        self.state.lock(rt).close();
        self.changed.notify_all();
    }
}
