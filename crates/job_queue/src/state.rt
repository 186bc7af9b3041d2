// The queue of one thread.
ghost use Rattle.std.specs.Prelude.{◌≡◌};
ghost use Rattle.job_queue.specs.Queue.{Puts, closed, is_idle, opened, taken};

use std::alloc::Global;
use std::collections::VecDeque;
use std::marker::Model;

/// A job that a queue didn't take.
#[derive(Drop)]
pub enum PutBack<J> {
    /// The queue is closed.
    Closed(J),
    /// Memory is wanting.
    OutOfMemory(J),
}

/// Jobs that wait, the one that was put first in front, until they are taken.
///
/// Contracts see them as a list, with a flag that says whether the queue is closed, and with how many jobs were put and
/// taken so far, both modulo 2^64.
#[derive(Drop)]
pub struct QueueState<J> {
    waiting: VecDeque<J>,
    closed: bool,
    puts: u64,
    takes: u64,
}

impl<J> Model for QueueState<J> {
    ghost use Rattle.job_queue.specs.Queue.{Queue, IsCounted};

    ghost Value = { Queue J };

    ghost view = { λ s. record { waiting = s.waiting.items; closed = s.closed; puts = s.puts; takes = s.takes } };

    ghost invariant = { λ s. IsCounted s.waiting.items s.puts s.takes };
}

impl<J> QueueState<J> {
    /// An open queue without a job, which takes no memory.
    pub fn new(alloc: Global) -> Self
        ensures { result ≡ opened }
    {
        QueueState {
            waiting: VecDeque::new(alloc),
            closed: false,
            puts: 0,
            takes: 0,
        }
    }

    /// Puts a job behind those that wait. A closed queue hands it back, and so does an open one where memory is wanting;
    /// the queue is then as it was.
    pub fn put(&mut self, job: J) -> Result<(), PutBack<J>>
        ensures { Puts self.old job result self.new }
    {
        if self.closed {
            return Err(PutBack::Closed(job));
        }
        if let Err(refused) = self.waiting.push_back(job) {
            return Err(PutBack::OutOfMemory(refused.value));
        }
        self.puts = self.puts.wrapping_add(1);
        Ok(())
    }

    /// Takes the job that waits in front, if one waits. It takes no memory.
    pub fn take(&mut self) -> Option<J>
        ensures { (result, self.new) ≡ taken self.old }
    {
        let job = self.waiting.pop_front()?;
        self.takes = self.takes.wrapping_add(1);
        Some(job)
    }

    /// Closes the queue: no further job is put. It takes no memory.
    pub fn close(&mut self)
        ensures { self.new ≡ closed self.old }
    {
        self.closed = true;
    }

    /// Whether no job waits while one may still be put.
    pub(crate) fn is_idle(&self) -> bool
        ensures { result ≡ is_idle self.now }
    {
        self.waiting.is_empty() && !self.closed
    }
}
