// The six steps of a code.
ghost use Rattle.std.specs.Prelude.{◌≡◌, ◌<◌, true, false, IfOk, length};
ghost use Rattle.code_edit.specs.declared.act.Pass.TheVariants.{Const, Jumps, Reach, Slots};
ghost use Rattle.code_edit.specs.Facts.{IsAllReached};
ghost use Rattle.code_edit.specs.Passes.{IsFound};
ghost use Rattle.pass_driver.specs.Stepped.{is_some_act};
ghost use Rattle.pass_driver.specs.bodies.After.{IsAfter, IsNext, IsRight, code_of};

use class_model::Code;
use code_edit::PassEdits;
use const_laws::acts::left_codes_are_reached;
use edit_laws::found::found_acts_are_legal;
use edit_laws::sound::right_acts_keep_sound;
use edit_passes::{jumps_edits, reach_edits, slots_edits};
use frame_rebuild::rebuild;
use jv_base::{Items, M, OutOfMemory};
use pass_const::edits as const_edits;
use rebuild_laws::laws::rebuilt_codes_are_good;
use std::alloc::Global;

/// The steps so far, and the code that they left.
#[derive(Drop)]
pub(crate) struct After {
    /// None where no step had an act.
    pub(crate) code: Option<Code>,
    pub(crate) steps: Items<PassEdits>,
}

/// The code that the steps so far left.
fn code_of<'c>(own: &'c Code, after: &'c After) -> &'c Code
    ensures { result.now ≡ code_of own.now after.now }
{
    match &after.code {
        Some(code) => code,
        None => own,
    }
}

/// Instructions are told by numbers of 32 bits; more of them have no room in memory.
fn few(code: &Code) -> M<()>
    ensures { IfOk result (λ _. length code.now.ins < 4294967295) }
{
    if code.ins.len() >= 4_294_967_295 {
        return Err(OutOfMemory);
    }
    Ok(())
}

/// One step more, which has an act. The code is copied.
fn put_act_step(alloc: Global, own: &Code, after: After, edits: PassEdits) -> M<After>
    requires few { length (code_of own.now after).ins < 4294967295 }
    requires right { IsRight (code_of own.now after) }
    requires found { IsFound edits.pass (code_of own.now after) edits.acts }
    requires act { is_some_act edits.acts ≡ true }
    ensures { IfOk result (IsNext own.now edits.pass after) }
{
    found_acts_are_legal();
    rebuilt_codes_are_good();
    right_acts_keep_sound();
    let code = rebuild(alloc, code_of(own, &after), &edits)?;
    let mut after = after;
    after.code = Some(code);
    after.steps.push(edits)?;
    Ok(after)
}

/// One step more, which has no act. The code stays.
fn put_idle_step(own: &Code, after: After, edits: PassEdits) -> M<After>
    requires right { IsRight (code_of own.now after) }
    requires found { IsFound edits.pass (code_of own.now after) edits.acts }
    requires idle { is_some_act edits.acts ≡ false }
    ensures { IfOk result (IsNext own.now edits.pass after) }
{
    let _ = own;
    let mut after = after;
    after.steps.push(edits)?;
    Ok(after)
}

/// One step more. A code is first copied where a step has an act.
fn put_step(alloc: Global, own: &Code, after: After, edits: PassEdits) -> M<After>
    requires few { length (code_of own.now after).ins < 4294967295 }
    requires right { IsRight (code_of own.now after) }
    requires found { IsFound edits.pass (code_of own.now after) edits.acts }
    ensures { IfOk result (IsNext own.now edits.pass after) }
{
    if has_act(&edits) {
        put_act_step(alloc, own, after, edits)
    } else {
        put_idle_step(own, after, edits)
    }
}

fn has_act(edits: &PassEdits) -> bool
    ensures { result ≡ is_some_act edits.now.acts }
{
    !edits.acts.is_empty()
}

fn reach_step(alloc: Global, own: &Code, after: After) -> M<After>
    requires right { IsRight (code_of own.now after) }
    ensures next { IfOk result (IsNext own.now Reach after) }
    ensures reached { IfOk result (λ more. IsAllReached (code_of own.now more)) }
{
    left_codes_are_reached();
    found_acts_are_legal();
    few(code_of(own, &after))?;
    let edits = reach_edits(alloc, code_of(own, &after))?;
    put_step(alloc, own, after, edits)
}

fn const_step(alloc: Global, own: &Code, after: After) -> M<After>
    requires right { IsRight (code_of own.now after) }
    requires reached { IsAllReached (code_of own.now after) }
    ensures { IfOk result (IsNext own.now Const after) }
{
    few(code_of(own, &after))?;
    let edits = const_edits(alloc, code_of(own, &after))?;
    put_step(alloc, own, after, edits)
}

fn slots_step(alloc: Global, own: &Code, after: After) -> M<After>
    requires right { IsRight (code_of own.now after) }
    ensures { IfOk result (IsNext own.now Slots after) }
{
    few(code_of(own, &after))?;
    let edits = slots_edits(alloc, code_of(own, &after))?;
    put_step(alloc, own, after, edits)
}

fn jumps_step(alloc: Global, own: &Code, after: After) -> M<After>
    requires right { IsRight (code_of own.now after) }
    ensures { IfOk result (IsNext own.now Jumps after) }
{
    few(code_of(own, &after))?;
    let edits = jumps_edits(alloc, code_of(own, &after))?;
    put_step(alloc, own, after, edits)
}

/// The six steps of a code, each on what those before it left with its frames. Of the codes between one stands at a
/// time, and none where no step has an act.
pub(crate) fn six_steps(alloc: Global, own: &Code) -> M<After>
    requires { IsRight own.now }
    ensures { IfOk result (IsAfter own.now) }
{
    let none = After {
        code: None,
        steps: Items::new(alloc),
    };
    let first = reach_step(alloc, own, none)?;
    let second = const_step(alloc, own, first)?;
    let third = reach_step(alloc, own, second)?;
    let fourth = slots_step(alloc, own, third)?;
    let fifth = jumps_step(alloc, own, fourth)?;
    reach_step(alloc, own, fifth)
}
