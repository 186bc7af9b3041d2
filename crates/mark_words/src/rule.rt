//! The rule of the table, and what each step tells. Each of the plays is one event of the mark machine.
use atomic_table::{Join, Play, Split, TableRule};
use mark_core::System;
use mark_machine::View;
use std::snapshot::Snapshot;

/// What the rule is told once: the system, and how many seats were asked for.
#[derive(Drop)]
pub struct Plan {
    pub system: Snapshot<System>,
    pub seats: u32,
}

/// The rule that every step keeps: the words and the views are a state of the mark machine that meets its invariant.
pub struct MarkRule;

impl TableRule<(), View, Plan> for MarkRule {
    ghost use Rattle.mark_words.specs.Rule.{Ruled, first_view};

    ghost holds = { Ruled };

    ghost first = { first_view };
}

/// `Reserve`: one more is pending.
pub struct Reserving;

impl Play<(), View> for Reserving {
    ghost use Rattle.mark_words.specs.Plays.{reserving};

    ghost then = { reserving };
}

/// `Claim`: the bit of the item is set in its mark word.
pub struct Claiming;

impl Play<(), View> for Claiming {
    ghost use Rattle.mark_words.specs.Plays.{claiming};

    ghost then = { claiming };
}

/// `GiveBack`: one less is pending.
pub struct GivingBack;

impl Play<(), View> for GivingBack {
    ghost use Rattle.mark_words.specs.Plays.{giving_back};

    ghost then = { giving_back };
}

/// `Take`: the bit of the item is set in its taken word.
pub struct Taking;

impl Play<(), View> for Taking {
    ghost use Rattle.mark_words.specs.Plays.{taking};

    ghost then = { taking };
}

/// `LookAt`: the bit of the item in its mark word is read, and left as it is.
pub struct Looking;

impl Play<(), View> for Looking {
    ghost use Rattle.mark_words.specs.Plays.{looking_at};

    ghost then = { looking_at };
}

/// `Finish`: one less is pending.
pub struct Finishing;

impl Play<(), View> for Finishing {
    ghost use Rattle.mark_words.specs.Plays.{finishing};

    ghost then = { finishing };
}

/// `SeeIdle`: the number of what is pending is read.
pub struct SeeingIdle;

impl Play<(), View> for SeeingIdle {
    ghost use Rattle.mark_words.specs.Plays.{seeing_idle};

    ghost then = { seeing_idle };
}

/// One seat less on the one side, and a view that knows nothing on the other.
pub struct Cut;

impl Split<View> for Cut {
    ghost use Rattle.mark_machine.specs.Machine.{one_less, newcomer};

    ghost left = { one_less };

    ghost right = { newcomer };
}

/// What both views know, and a view that nobody has.
pub struct Union;

impl Join<View> for Union {
    ghost use Rattle.mark_machine.specs.Machine.{joined, nobody};

    ghost both = { joined };

    ghost spent = { nobody };
}
