//! Items that are still to be done, and notes of those that are marked.
ghost use Rattle.std.specs.Prelude.{◌≡◌};

use crossbeam_deque::{Steal, Stealer, Worker};

/// What one worker has still to do, of which nothing is known: an item is looked at before it is taken. And for each item
/// whether the worker's seat is known to have seen it, so that it needn't look at it on the table again.
#[derive(Drop)]
pub(crate) struct Tasks {
    /// Items that no other worker can take, the newest one last.
    pub near: Vec<u32>,
    /// How many of these there may be.
    pub room: usize,
    /// Items that any worker may take.
    pub queue: Worker<u32>,
    /// For each item whether it is noted as seen.
    pub known: Vec<bool>,
}

impl Tasks {
    /// Adds an item, if there is memory for it.
    pub(crate) fn add(&mut self, item: u32)
        ensures { self.new.known.items ≡ self.old.known.items }
    {
        if self.near.len() < self.room && self.near.push(item).is_ok() {
            return;
        }
        let _ = self.queue.push(item);
    }

    /// The newest item, or else one of those that it takes from another worker.
    pub(crate) fn find(&mut self, others: &[Stealer<u32>]) -> Option<u32>
        ensures { self.new.known.items ≡ self.old.known.items }
    {
        if let Some(item) = self.near.pop() {
            return Some(item);
        }
        if let Some(item) = self.queue.pop() {
            return Some(item);
        }
        for other in others {
            if let Steal::Success(item) = other.steal_batch_and_pop(&mut self.queue) {
                return Some(item);
            }
        }
        None
    }

    /// Lets any worker take what is there.
    pub(crate) fn share(&mut self)
        ensures { self.new.known.items ≡ self.old.known.items }
    {
        while let Some(item) = self.near.pop() {
            let _ = self.queue.push(item);
        }
    }
}
