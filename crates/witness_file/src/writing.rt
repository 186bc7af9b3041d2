// Writing a witness.
ghost use Rattle.std.specs.Prelude.{◌≡◌, ℕ, List, [], ◌∷◌, ◌++◌, codes, IfOk, OnOk, Ok};
ghost use Rattle.std.specs.Fmt.{decimal};
ghost use Rattle.std.specs.List.{flat_map};
ghost use Rattle.jv_base.specs.Descriptors.{read_method};
ghost use Rattle.witness_file.specs.WitnessLines.{act_text, member_text, method_line_text};
ghost use Rattle.witness_file.specs.WitnessReading.{read_witness};
ghost use Rattle.witness_file.specs.Witnesses.{AreTexts, IsWitness, Reading, ended_line, method_lines};
ghost use Rattle.witness_file.specs.Witnesses.{step_lines, steps_lines, witness_text};

use crate::acts::push_act;
use crate::{MethodWitness, Witness};
use code_edit::{Act, PassEdits};
use jv_base::{Bytes, Items, M, Or, OutOfMemory, read_method_type};
use std::alloc::Global;
use text_lines::{push_class, push_method, push_number};

/// The text of a witness: the version, and for each method its line and those of its steps with acts.
pub fn write_witness(alloc: Global, w: &Witness) -> M<Bytes>
    ensures written { IfOk result (λ bytes. bytes ≡ witness_text w.now) }
    ensures read_back { IsWitness w.now → AreTexts w.now.methods
        → IfOk result (λ bytes. read_witness bytes ≡ Ok w.now) }
    ensures again { (text : List ℕ) → Reading text w.now → IfOk result (λ bytes. read_witness bytes ≡ Ok w.now) }
{
    let mut out = Vec::new(alloc);
    push_witness(alloc, &mut out, w)?;
    Ok(Items::from_vec(out))
}

fn push_witness(alloc: Global, out: &mut Vec<u8>, w: &Witness) -> M<()>
    ensures { OnOk result (out.new.items ≡ out.old.items ++ witness_text w.now) }
{
    out.extend_from_slice(b"witness 1\n")?;
    push_methods(alloc, out, w.methods.as_slice())
}

fn push_methods(alloc: Global, out: &mut Vec<u8>, methods: &[MethodWitness]) -> M<()>
    ensures { OnOk result (out.new.items ≡ out.old.items
        ++ flat_map (λ m. flat_map ended_line (method_lines m)) methods.now) }
{
    for method in methods {
        push_method_lines(alloc, out, method)?;
    }
    Ok(())
}

fn push_method_lines(alloc: Global, out: &mut Vec<u8>, method: &MethodWitness) -> M<()>
    ensures { OnOk result (out.new.items ≡ out.old.items ++ flat_map ended_line (method_lines method.now)) }
{
    push_method_line(alloc, out, method)?;
    push_steps(alloc, out, method.edits.steps.as_slice())
}

fn push_method_line(alloc: Global, out: &mut Vec<u8>, method: &MethodWitness) -> M<()>
    ensures { OnOk result (out.new.items ≡ out.old.items
        ++ (method_line_text method.now.class method.now.name method.now.ty ++ 10 ∷ [])) }
{
    out.extend_from_slice(b"method ")?;
    push_class(out, &method.class)?;
    out.extend_from_slice(b" ")?;
    push_member(alloc, out, method)?;
    out.extend_from_slice(b"\n")?;
    Ok(())
}

// A method by its descriptor. A descriptor of 4 GiB is want of memory.
fn push_member(alloc: Global, out: &mut Vec<u8>, method: &MethodWitness) -> M<()>
    ensures { OnOk result (out.new.items ≡ out.old.items
        ++ member_text method.now.name (read_method method.now.ty) method.now.ty) }
{
    if method.ty.len() >= u32::MAX as usize {
        return Err(OutOfMemory);
    }
    match read_method_type(alloc, &method.ty) {
        Ok(ty) => push_method(out, &ty, &method.name),
        Err(Or::Fault(_)) => {
            out.extend_from_slice(method.name.as_bytes())?;
            out.extend_from_slice(method.ty.as_bytes())?;
            Ok(())
        }
        Err(Or::OutOfMemory) => Err(OutOfMemory),
    }
}

fn push_steps(alloc: Global, out: &mut Vec<u8>, steps: &[PassEdits]) -> M<()>
    ensures { OnOk result (out.new.items ≡ out.old.items ++ flat_map ended_line (steps_lines 1 steps.now)) }
{
    let mut number = 1;
    for step in steps {
        push_step(alloc, out, number, step.acts.as_slice())?;
        number += 1;
    }
    Ok(())
}

fn push_step(alloc: Global, out: &mut Vec<u8>, number: u64, acts: &[Act]) -> M<()>
    ensures { OnOk result (out.new.items ≡ out.old.items ++ flat_map ended_line (step_lines number acts.now)) }
{
    if acts.is_empty() {
        return Ok(());
    }
    push_step_line(out, number)?;
    push_acts(alloc, out, acts)
}

fn push_step_line(out: &mut Vec<u8>, number: u64) -> M<()>
    ensures { OnOk result (out.new.items ≡ out.old.items ++ (codes "step " ++ (decimal number ++ 10 ∷ []))) }
{
    out.extend_from_slice(b"step ")?;
    push_number(out, number)?;
    out.extend_from_slice(b"\n")?;
    Ok(())
}

fn push_acts(alloc: Global, out: &mut Vec<u8>, acts: &[Act]) -> M<()>
    ensures { OnOk result (out.new.items ≡ out.old.items ++ flat_map (λ a. act_text a ++ 10 ∷ []) acts.now) }
{
    for act in acts {
        push_act_line(alloc, out, act)?;
    }
    Ok(())
}

fn push_act_line(alloc: Global, out: &mut Vec<u8>, act: &Act) -> M<()>
    ensures { OnOk result (out.new.items ≡ out.old.items ++ (act_text act.now ++ 10 ∷ [])) }
{
    push_act(alloc, out, act)?;
    out.extend_from_slice(b"\n")?;
    Ok(())
}
