//! The calls of the table: each is one or more events of the mark machine, in this order.
ghost use Rattle.std.specs.Prelude.{◌≡◌, ℕ, ◌+◌, ◌*◌, ◌/◌, ◌%◌, ◌<◌, ◌≤◌, false, true, None};
ghost use Rattle.std.specs.List.{All, Contains};
ghost use Rattle.mark_machine.specs.Machine.{Allowed, May, view_after};
ghost use Rattle.mark_machine.specs.declared.machine.Event.TheVariants.{Reserve, Claim, GiveBack, Take, LookAt, Finish, SeeIdle};
ghost use Rattle.mark_words.specs.Plays.{IsDone, IsFull};
ghost use Rattle.mark_words.specs.Seats.{view, system_of, IsSeatOf, Becomes, after_claim, after_take};

use crate::rule::{Claiming, Finishing, GivingBack, Looking, Reserving, SeeingIdle, Taking};
use crate::table::{Claimed, MarkSeat, MarkTable, Taken};

impl MarkTable {
    /// Marks the item, which has to be due: a seed where the seat holds the standing reservation, else a need of the item
    /// in hand, or the consequence of a pair of that item with one that the seat has seen. The answer is `Already` exactly
    /// where the item was marked at the step that would have marked it.
    pub fn claim(&self, seat: &mut MarkSeat, id: u32) -> Claimed
        requires seat { IsSeatOf self.now seat.old }
        requires id { id < (system_of self.now).n }
        requires free { (view seat.old).reserved ≡ false }
        requires due { May (system_of self.now) (view seat.old) id }
        ensures { Becomes seat.old seat.new (after_claim (view seat.old) id result) }
    {
        self.reserve(seat);
        let bit = 1u64 << (id % 64);
        let word = 2 * (id as usize / 64) + 1;
        let found = self.table.shared.fetch_or::<Claiming>(seat, word, bit);
        if found >> (id % 64) & 1 == 1 {
            self.give_back(seat);
            Claimed::Already
        } else {
            Claimed::New
        }
    }

    /// Whether the item is marked. One that is marked was seen by some seat; with an item in hand, one that isn't is known
    /// to have been unmarked while that item was marked.
    pub fn is_marked(&self, seat: &mut MarkSeat, id: u32) -> bool
        requires seat { IsSeatOf self.now seat.old }
        requires id { id < (system_of self.now).n }
        ensures event { Becomes seat.old seat.new (view_after (view seat.old) (LookAt id) result) }
        ensures unseen { result ≡ false → Contains (view seat.old).seen id → ⊥ }
        ensures full { IsFull (view seat.old) → result ≡ true → Contains (view seat.old).seen id }
    {
        let bit = 1u64 << (id % 64);
        let word = 2 * (id as usize / 64) + 1;
        let found = self
            .table
            .shared
            .compare_exchange::<Looking>(seat, word, bit, bit);
        found >> (id % 64) & 1 == 1
    }

    /// Takes the item, which the seat has seen, into its empty hand. The answer is `Others` exactly where the item was
    /// taken at this step.
    pub fn take(&self, seat: &mut MarkSeat, id: u32) -> Taken
        requires seat { IsSeatOf self.now seat.old }
        requires id { id < (system_of self.now).n }
        requires allowed { Allowed (system_of self.now) (view seat.old) (Take id) }
        ensures event { Becomes seat.old seat.new (after_take (view seat.old) id result) }
        ensures fresh { result ≡ Taken.Mine → Contains (view seat.old).finished id → ⊥ }
        ensures full { IsFull (view seat.old) → result ≡ Taken.Others → Contains (view seat.old).finished id }
    {
        let bit = 1u64 << (id % 64);
        let word = 2 * (id as usize / 64) + 2;
        let found = self.table.shared.fetch_or::<Taking>(seat, word, bit);
        if found >> (id % 64) & 1 == 1 {
            Taken::Others
        } else {
            Taken::Mine
        }
    }

    /// Finishes the item in hand. The seat has seen all its needs and, for each of its pairs, the consequence, or that the
    /// other item was unmarked.
    pub fn finish(&self, seat: &mut MarkSeat)
        requires seat { IsSeatOf self.now seat.old }
        requires allowed { Allowed (system_of self.now) (view seat.old) Finish }
        ensures { Becomes seat.old seat.new (view_after (view seat.old) Finish false) }
    {
        self.table.shared.fetch_sub::<Finishing>(seat, 0, 1);
    }

    /// Ends the seeding. The seat holds the standing reservation and has seen every seed.
    pub fn end_seeding(&self, seat: &mut MarkSeat)
        requires seat { IsSeatOf self.now seat.old }
        requires standing { (view seat.old).standing ≡ true }
        requires free { (view seat.old).reserved ≡ false }
        requires seen { All (Contains (view seat.old).seen) (system_of self.now).seeds }
        ensures { Becomes seat.old seat.new (view_after (view seat.old) GiveBack false) }
    {
        self.give_back(seat);
    }

    /// Whether nothing is pending, at this step. Then what is marked is the least closed set, and stays so.
    pub fn idle(&self, seat: &mut MarkSeat) -> bool
        requires seat { IsSeatOf self.now seat.old }
        ensures event { Becomes seat.old seat.new (view_after (view seat.old) SeeIdle result) }
        ensures full { IsFull (view seat.old) → IsDone (view seat.old) → result ≡ true }
    {
        self.table.shared.load::<SeeingIdle>(seat, 0) == 0
    }

    /// Makes one more pending, before a claim.
    fn reserve(&self, seat: &mut MarkSeat)
        requires seat { IsSeatOf self.now seat.old }
        requires allowed { Allowed (system_of self.now) (view seat.old) Reserve }
        ensures { Becomes seat.old seat.new (view_after (view seat.old) Reserve false) }
    {
        self.table.shared.fetch_add::<Reserving>(seat, 0, 1);
    }

    /// Makes one less pending: the reservation of a claim that found nothing new, or the standing one.
    fn give_back(&self, seat: &mut MarkSeat)
        requires seat { IsSeatOf self.now seat.old }
        requires allowed { Allowed (system_of self.now) (view seat.old) GiveBack }
        ensures { Becomes seat.old seat.new (view_after (view seat.old) GiveBack false) }
    {
        self.table.shared.fetch_sub::<GivingBack>(seat, 0, 1);
    }
}
