// Acts of the passes.
ghost use Rattle.std.specs.Prelude.{◌≡◌, slice_get};
ghost use Rattle.code_edit.specs.Acts.{is_pass, pass_of, step_passes};

use jv_base::Items;

/// What a pass does to a code.
#[derive(Clone, Copy)]
pub enum Pass {
    /// Instructions that control never reaches go.
    Reach,
    /// Branches and switches on constants are decided.
    Const,
    /// What is stored into a local that nothing loads goes.
    Slots,
    /// A branch to a goto leads where that leads.
    Jumps,
}

/// One act of a pass. Places are indices of instructions in the code before the step; ranges have both their ends.
#[derive(Clone, Copy)]
pub enum Act {
    /// The instructions of a range go.
    Drop {
        from: u32,
        to: u32,
    },
    /// The int local of a slot has this value before each instruction of a range.
    Fact {
        from: u32,
        to: u32,
        slot: u32,
        value: i32,
    },
    /// A branch or switch always goes to the same place.
    Fold {
        at: u32,
        to: u32,
    },
    /// A store to a slot that nothing loads goes.
    Cut {
        at: u32,
    },
    /// A target of a branch or switch moves: 0 is the one target or the default, k the k-th case.
    Aim {
        at: u32,
        which: u32,
        to: u32,
    },
    /// A branch to the next instruction goes.
    Skip {
        at: u32,
    },
}

/// The acts of one pass.
#[derive(Drop)]
pub struct PassEdits {
    pub pass: Pass,
    pub acts: Items<Act>,
}

/// The acts on one method, by step: reach, const, reach, slots, jumps, reach.
#[derive(Drop)]
pub struct MethodEdits {
    pub steps: Items<PassEdits>,
}

/// The pass to which an act belongs.
pub fn pass_of(act: &Act) -> Pass
    ensures { result ≡ pass_of act.now }
{
    match act {
        Act::Drop { .. } => Pass::Reach,
        Act::Fact { .. } | Act::Fold { .. } => Pass::Const,
        Act::Cut { .. } => Pass::Slots,
        Act::Aim { .. } | Act::Skip { .. } => Pass::Jumps,
    }
}

/// The pass of a step, the first step having the number 0, if there is one of this number.
pub fn pass_of_step(step: usize) -> Option<Pass>
    ensures { result ≡ slice_get step_passes step }
{
    match step {
        0 | 2 | 5 => Some(Pass::Reach),
        1 => Some(Pass::Const),
        3 => Some(Pass::Slots),
        4 => Some(Pass::Jumps),
        _ => None,
    }
}

/// Whether two passes are one.
pub fn is_pass(pass: Pass, other: Pass) -> bool
    ensures { result ≡ is_pass pass other }
{
    matches!(
        (pass, other),
        (Pass::Reach, Pass::Reach)
            | (Pass::Const, Pass::Const)
            | (Pass::Slots, Pass::Slots)
            | (Pass::Jumps, Pass::Jumps)
    )
}
