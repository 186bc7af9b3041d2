//! What a view of the mark machine holds, and what it does. `specs/Machine.antt` says what that changes.
use std::collections::LinkedList;

/// With the item `hand` in hand, the item `at` was looked at and found unmarked.
#[derive(Clone, Copy)]
pub struct Look {
    pub hand: u32,
    pub at: u32,
}

/// What a view does in one step.
#[derive(Clone, Copy)]
pub enum Event {
    /// Makes one more pending, before a claim.
    Reserve,
    /// Marks the item, or finds it marked.
    Claim(u32),
    /// Ends its reservation, or its standing.
    GiveBack,
    /// Takes the item into the hand, or finds it taken.
    Take(u32),
    /// Looks whether the item is marked.
    LookAt(u32),
    /// Has done all that the item in hand asks for.
    Finish,
    /// Looks whether nothing is pending.
    SeeIdle,
}

/// An event, and what it found: whether the item was marked or taken, or whether nothing was pending.
#[derive(Clone, Copy)]
pub struct Happened {
    pub event: Event,
    pub found: bool,
}

/// What one of those that work on the marks knows. No value of it is made: it stands in proofs alone.
pub struct View {
    /// It puts the seeds in, so something is pending on its account.
    pub standing: bool,
    /// It is about to claim, so something is pending on its account.
    pub reserved: bool,
    /// It has seen that nothing is pending.
    pub quiet: bool,
    /// The item that it took and hasn't finished.
    pub hand: Option<u32>,
    /// Items that it found marked, or marked itself.
    pub seen: LinkedList<u32>,
    pub looks: LinkedList<Look>,
    /// Items that it took and finished.
    pub finished: LinkedList<u32>,
    /// Its events, in order, with what each found. The invariant says nothing of it.
    pub log: LinkedList<Happened>,
    /// For how many seats it stands.
    pub seats: u64,
    /// How many seats were asked for.
    pub all: u64,
}
