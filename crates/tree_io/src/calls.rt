// Calls that are counted, of which those whose numbers are named fail.
ghost use Rattle.std.specs.Prelude.{◌≡◌};
ghost use Rattle.tree_io.specs.Calls.{CallCounts, no_call, fails_next};
ghost use Rattle.tree_io.specs.Count.{counted};

use jv_base::Items;
use std::marker::Model;

/// One more, unless the count stands at its last value.
pub fn counted(count: u64) -> u64
    ensures { result ≡ counted count }
{
    count.saturating_add(1)
}

/// The numbers of the calls that fail, how many calls there were, and how many of them failed.
#[derive(Drop)]
pub struct Calls {
    fails: Items<u64>,
    calls: u64,
    faults: u64,
}

impl Model for Calls {
    ghost use Rattle.tree_io.specs.Calls.{CallCounts, counts_code};

    ghost Value = { CallCounts };

    ghost coded = { counts_code };

    ghost view = { λ c. record { fails = c.fails; calls = c.calls; faults = c.faults } };
}

impl Calls {
    /// No call yet; those of these numbers will fail, counted from 0.
    pub fn new(fails: Items<u64>) -> Self
        ensures { result ≡ no_call fails }
    {
        Calls {
            fails,
            calls: 0,
            faults: 0,
        }
    }

    /// Counts a call, and answers whether it fails.
    pub fn begin(&mut self) -> bool
        ensures answer { result ≡ fails_next self.old }
        ensures counts { self.new ≡ record self.old { calls = counted self.old.calls } }
    {
        let fails = self.fails.as_slice().contains(&self.calls);
        self.calls = counted(self.calls);
        fails
    }

    /// Counts the fault of a call.
    pub fn fail(&mut self)
        ensures { self.new ≡ record self.old { faults = counted self.old.faults } }
    {
        self.faults = counted(self.faults);
    }
}
