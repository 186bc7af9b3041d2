// Gates that hold a worker until another one has done something, to see that two of them work at a time.
use jv_base::{Bytes, Items, Text};
use std::alloc::Global;
use std::sync::atomic::{AtomicU32, Ordering};
use tree_io::{Gate, ListFault, ReadFault, Tree, Turn, WriteFault};

// How often a worker that is held looks whether it may go on.
const MOST_LOOKS: u32 = 200_000_000;

// ---- a meeting

// Nobody is held, or was.
const FREE: u32 = 0;

// The other worker came.
const MET: u32 = 1;

// It came too late, or never.
const LATE: u32 = 2;

// The worker 0 is held; a worker of a higher number stands for a higher one.
const HELD: u32 = 3;

/// Holds the first worker that takes an item, until another one has finished one since.
#[derive(Drop)]
pub(crate) struct Meeting {
    state: AtomicU32,
}

impl Meeting {
    pub(crate) fn new() -> Meeting {
        Meeting {
            state: AtomicU32::new(FREE),
        }
    }

    /// Whether a worker was held, and another one finished an item meanwhile.
    pub(crate) fn took_place(&self) -> bool {
        self.state.load(Ordering::SeqCst) == MET
    }

    // Moves on from one state alone, and says whether it did.
    fn turns(&self, old: u32, new: u32) -> bool {
        self.state
            .compare_exchange(old, new, Ordering::SeqCst, Ordering::SeqCst)
            .is_ok()
    }

    fn hold(&self, held: u32) {
        for _ in 0..MOST_LOOKS {
            if self.state.load(Ordering::SeqCst) != held {
                return;
            }
        }
        self.turns(held, LATE);
    }

    // Lets the worker go that is held, unless it is this one.
    fn release(&self, own: u32) {
        let held = self.state.load(Ordering::SeqCst);
        if held >= HELD && held != own {
            self.turns(held, MET);
        }
    }
}

impl Gate for Meeting {
    fn turn(&self, worker: u32, at: Turn) {
        let own = worker.saturating_add(HELD);
        match at {
            Turn::Took => {
                if self.turns(FREE, own) {
                    self.hold(own);
                }
            }
            Turn::Finished => self.release(own),
            Turn::Left => {}
        }
    }
}

// ---- a move

/// Holds the worker that takes the second item, until two workers have taken one or the other worker has left.
#[derive(Drop)]
pub(crate) struct Move {
    // How many items were taken.
    taken: AtomicU32,
    // The worker that took the first one, counted from 1, or 0.
    first: AtomicU32,
    // 1 where another worker has taken one.
    two_took: AtomicU32,
    // 1 where a worker has left.
    left: AtomicU32,
    // 1 where a held worker saw that two have taken one.
    seen: AtomicU32,
}

impl Move {
    pub(crate) fn new() -> Move {
        Move {
            taken: AtomicU32::new(0),
            first: AtomicU32::new(0),
            two_took: AtomicU32::new(0),
            left: AtomicU32::new(0),
            seen: AtomicU32::new(0),
        }
    }

    /// Whether a worker was held, and then two had taken an item.
    pub(crate) fn took_place(&self) -> bool {
        self.seen.load(Ordering::SeqCst) == 1
    }

    fn note(&self, own: u32) {
        if let Err(first) = self
            .first
            .compare_exchange(0, own, Ordering::SeqCst, Ordering::SeqCst)
        {
            if first != own {
                self.two_took.store(1, Ordering::SeqCst);
            }
        }
    }

    fn hold(&self) {
        for _ in 0..MOST_LOOKS {
            if self.two_took.load(Ordering::SeqCst) == 1 {
                self.seen.store(1, Ordering::SeqCst);
                return;
            }
            if self.left.load(Ordering::SeqCst) == 1 {
                return;
            }
        }
    }
}

impl Gate for Move {
    fn turn(&self, worker: u32, at: Turn) {
        match at {
            Turn::Took => {
                self.note(worker.saturating_add(1));
                if self.taken.fetch_add(1, Ordering::SeqCst) == 1 {
                    self.hold();
                }
            }
            Turn::Finished => {}
            Turn::Left => self.left.store(1, Ordering::SeqCst),
        }
    }
}

// ---- a meeting of two jobs

/// Holds the first worker beside the caller that takes a job, until a file is read, and holds that read until this worker
/// has finished its job.
#[derive(Drop)]
pub(crate) struct JobMeeting {
    // The worker that took a job first, of those beside the caller, which is 0.
    held: AtomicU32,
    // 1 where the read has begun.
    begun: AtomicU32,
    // 1 where that worker has finished the job.
    finished: AtomicU32,
    // How often the other side came too late, or never.
    late: AtomicU32,
}

impl JobMeeting {
    pub(crate) fn new() -> JobMeeting {
        JobMeeting {
            held: AtomicU32::new(0),
            begun: AtomicU32::new(0),
            finished: AtomicU32::new(0),
            late: AtomicU32::new(0),
        }
    }

    /// Whether the worker finished the job while the read was held, and nobody came too late.
    pub(crate) fn took_place(&self) -> bool {
        self.finished.load(Ordering::SeqCst) == 1 && self.late.load(Ordering::SeqCst) == 0
    }

    // Looks until the word is 1.
    fn hold(&self, word: &AtomicU32) {
        for _ in 0..MOST_LOOKS {
            if word.load(Ordering::SeqCst) == 1 {
                return;
            }
        }
        self.late.fetch_add(1, Ordering::SeqCst);
    }

    fn read_begins(&self) {
        self.begun.store(1, Ordering::SeqCst);
        self.hold(&self.finished);
    }
}

impl Gate for JobMeeting {
    fn turn(&self, worker: u32, at: Turn) {
        if worker == 0 {
            return;
        }
        match at {
            Turn::Took => {
                if self
                    .held
                    .compare_exchange(0, worker, Ordering::SeqCst, Ordering::SeqCst)
                    .is_ok()
                {
                    self.hold(&self.begun);
                }
            }
            Turn::Finished => {
                if self.held.load(Ordering::SeqCst) == worker {
                    self.finished.store(1, Ordering::SeqCst);
                }
            }
            Turn::Left => {}
        }
    }
}

/// A tree whose read of one path tells a meeting that it begins, and is held there.
#[derive(Drop)]
pub(crate) struct HeldTree<'m, T> {
    pub(crate) tree: T,
    pub(crate) held: Text,
    pub(crate) meeting: &'m JobMeeting,
}

impl<'m, T: Tree> Tree for HeldTree<'m, T> {
    ghost files = { λ t. T.files t.tree };

    ghost faults = { λ t. T.faults t.tree };

    ghost log = { λ t. T.log t.tree };

    fn list(&mut self, alloc: Global, dir: &Text, max: u32) -> Result<Items<Text>, ListFault> {
        self.tree.list(alloc, dir, max)
    }

    fn read(&mut self, alloc: Global, path: &Text, max: u64) -> Result<Bytes, ReadFault> {
        if *path == self.held {
            self.meeting.read_begins();
        }
        self.tree.read(alloc, path, max)
    }

    fn write(&mut self, alloc: Global, path: &Text, bytes: &[u8]) -> Result<(), WriteFault> {
        self.tree.write(alloc, path, bytes)
    }
}
