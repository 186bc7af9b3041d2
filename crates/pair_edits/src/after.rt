// The code after the steps of an entry.
ghost use Rattle.std.specs.Prelude.{◌≡◌, IfOk};
ghost use Rattle.std.specs.Option.{unwrap_or};
ghost use Rattle.code_edit.specs.SoundCode.{IsSound};
ghost use Rattle.pair_edits.specs.bodies.After.{IsEdited, IsStepped};

use class_model::Code;
use code_edit::PassEdits;
use edit_check::apply;
use edit_legal::legal;
use jv_base::{M, Or, OutOfMemory};
use std::alloc::Global;

/// What steps make of a code.
#[derive(Drop)]
pub(crate) enum Edited {
    /// There is no step, so it stays as it is.
    Own,
    /// The code after all of them.
    After(Code),
    /// An act isn't legal.
    Illegal,
}

/// What steps make of a code that is lent, each on what those before it left. Of the codes between one stands at a time.
pub(crate) fn after_steps(alloc: Global, code: &Code, steps: &[PassEdits]) -> M<Edited>
    requires sound { IsSound code.now }
    ensures { IfOk result (IsEdited code.now steps.now) }
{
    let mut left = None;
    for step in steps {
        match stepped(alloc, so_far(code, &left), step)? {
            Some(after) => left = Some(after),
            None => return Ok(Edited::Illegal),
        }
    }
    match left {
        Some(after) => Ok(Edited::After(after)),
        None => Ok(Edited::Own),
    }
}

/// The code that the steps so far left.
fn so_far<'c>(code: &'c Code, left: &'c Option<Code>) -> &'c Code
    ensures { result.now ≡ unwrap_or left.now code.now }
{
    match left {
        Some(after) => after,
        None => code,
    }
}

/// The code after one step, or none where an act isn't legal. Instructions are told by numbers of 32 bits; more of them
/// have no room in memory.
fn stepped(alloc: Global, code: &Code, step: &PassEdits) -> M<Option<Code>>
    requires sound { IsSound code.now }
    ensures { IfOk result (IsStepped code.now step.now) }
{
    if code.ins.len() >= 4_294_967_295 {
        return Err(OutOfMemory);
    }
    match legal(alloc, code, step) {
        Ok(()) => {
            let after = apply(alloc, code, step)?;
            Ok(Some(after))
        }
        Err(Or::Fault(_)) => Ok(None),
        Err(Or::OutOfMemory) => Err(OutOfMemory),
    }
}
