// What slots finds: stores to local variables that nothing loads.
ghost use Rattle.std.specs.Prelude.{◌≡◌, ◌<◌, IfOk, length};
ghost use Rattle.code_edit.specs.declared.act.Pass.TheVariants as pass;
ghost use Rattle.code_edit.specs.Passes.{slots_edits};
ghost use Rattle.edit_passes.specs.Unused.{is_unloaded, unloaded_from};

use class_model::{Code, Ins, Op};
use code_edit::{Act, Pass, PassEdits};
use edit_tables::marks::has;
use edit_tables::spreading::loads_of;
use jv_base::{Items, M};
use std::alloc::Global;

/// Whether an operation stores or adds to a local variable that isn't loaded.
fn is_unloaded(loads: &[bool], op: &Op) -> bool
    ensures { result ≡ is_unloaded loads.now op.now }
{
    match op {
        Op::Store(_, slot) | Op::Inc(slot, _) => !has(loads, *slot as usize),
        _ => false,
    }
}

fn cuts(alloc: Global, loads: &[bool], ins: &Items<Ins>) -> M<Items<Act>>
    requires { length ins.now < 4294967295 }
    ensures { IfOk result (λ acts. acts ≡ unloaded_from loads.now 0 ins.now) }
{
    let mut acts = Items::new(alloc);
    let mut at: u32 = 0;
    for ins in ins.as_slice() {
        if is_unloaded(loads, &ins.op) {
            acts.push(Act::Cut { at })?;
        }
        at += 1;
    }
    Ok(acts)
}

/// The acts of slots: a cut of each store or increment of a local variable that no load names, in
/// the order of the code.
#[tactic(auto, using(crate::proofs::Unloading::cuts_are))]
pub fn slots_edits(alloc: Global, code: &Code) -> M<PassEdits>
    requires { length code.now.ins < 4294967295 }
    ensures pass { IfOk result (λ edits. edits.pass ≡ pass.Slots) }
    ensures acts { IfOk result (λ edits. edits.acts ≡ slots_edits code.now) }
{
    let loads = loads_of(alloc, code)?;
    let acts = cuts(alloc, &loads, &code.ins)?;
    Ok(PassEdits {
        pass: Pass::Slots,
        acts,
    })
}
