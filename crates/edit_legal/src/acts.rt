// Which act of a step is the first that isn't legal.
ghost use Rattle.std.specs.Prelude.{◌≡◌, ◌<◌, IfOk, OnOk, length};
ghost use Rattle.code_edit.specs.declared.act.Pass.TheVariants as pass;
ghost use Rattle.code_edit.specs.Legal.{AreRightActs};
ghost use Rattle.code_edit.specs.SoundCode.{IsSound};
ghost use Rattle.edit_legal.specs.Fault.{IsFault, Judges};

use crate::constants::constants_of;
use crate::cuts::cuts_of;
use crate::drops::drops_of;
use crate::jumps::jumps_of;
use crate::rules::first_fault;
use class_model::Code;
use code_edit::{Act, Pass, PassEdits};
use jv_base::{M, Or};
use std::alloc::Global;
use std::error::Error;
use std::fmt::{self, Display, Formatter};

/// The first act of a step that isn't legal, by its number.
#[derive(Clone, Copy, Debug)]
pub struct Bad {
    pub index: usize,
}

impl Display for Bad {
    fn fmt<W: fmt::Write>(&self, f: &mut Formatter<W>) -> fmt::Result {
        write!(f, "act {} isn't legal", self.index)
    }
}

impl Error for Bad {}

#[tactic(auto, using(crate::proofs::DropFaults::drop_fault_is))]
fn drop_fault(alloc: Global, code: &Code, acts: &[Act]) -> M<Option<usize>>
    requires few { length code.now.ins < 4294967295 }
    requires sound { IsSound code.now }
    ensures { IfOk result (IsFault pass.Reach acts.now code.now) }
{
    let mut drops = drops_of(alloc, acts, code)?;
    let fault = first_fault(&mut drops, acts)?;
    Ok(fault)
}

#[tactic(auto, using(crate::proofs::CutFaults::cut_fault_is))]
fn cut_fault(alloc: Global, code: &Code, acts: &[Act]) -> M<Option<usize>>
    requires sound { IsSound code.now }
    ensures { IfOk result (IsFault pass.Slots acts.now code.now) }
{
    let mut cuts = cuts_of(alloc, acts, code)?;
    let fault = first_fault(&mut cuts, acts)?;
    Ok(fault)
}

fn jump_fault(alloc: Global, code: &Code, acts: &[Act]) -> M<Option<usize>>
    requires few { length code.now.ins < 4294967295 }
    requires sound { IsSound code.now }
    ensures { IfOk result (IsFault pass.Jumps acts.now code.now) }
{
    let mut jumps = jumps_of(alloc, acts, code)?;
    let fault = first_fault(&mut jumps, acts)?;
    Ok(fault)
}

fn const_fault(alloc: Global, code: &Code, acts: &[Act]) -> M<Option<usize>>
    requires few { length code.now.ins < 4294967295 }
    requires sound { IsSound code.now }
    ensures { IfOk result (IsFault pass.Const acts.now code.now) }
{
    let mut constants = constants_of(alloc, acts, code)?;
    let fault = first_fault(&mut constants, acts)?;
    Ok(fault)
}

fn fault_of(alloc: Global, code: &Code, edits: &PassEdits) -> M<Option<usize>>
    requires few { length code.now.ins < 4294967295 }
    requires sound { IsSound code.now }
    ensures { IfOk result (IsFault edits.now.pass edits.now.acts code.now) }
{
    let acts = edits.acts.as_slice();
    match edits.pass {
        Pass::Reach => drop_fault(alloc, code, acts),
        Pass::Const => const_fault(alloc, code, acts),
        Pass::Slots => cut_fault(alloc, code, acts),
        Pass::Jumps => jump_fault(alloc, code, acts),
    }
}

/// Whether the acts of a step are legal on a code that is lent; where they aren't, the first that
/// isn't. Each act is tested once, by tables of the code, so the time grows with the code, its
/// targets and handlers, and with the acts; but targets that aims name are kept in a tree, and of
/// each aim the gotos are followed one by one.
#[tactic(auto, using(crate::proofs::Faults::legal_are_right))]
pub fn legal(alloc: Global, code: &Code, edits: &PassEdits) -> Result<(), Or<Bad>>
    requires few { length code.now.ins < 4294967295 }
    requires sound { IsSound code.now }
    ensures judged { Judges result edits.now.pass edits.now.acts code.now }
    ensures right { OnOk result (AreRightActs edits.now.pass edits.now.acts code.now) }
{
    match fault_of(alloc, code, edits)? {
        Some(index) => Err(Or::Fault(Bad { index })),
        None => Ok(()),
    }
}
