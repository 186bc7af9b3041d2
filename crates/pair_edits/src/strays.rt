// Entries that are stray.
ghost use Rattle.std.specs.Prelude.{◌≡◌, [], ◌∷◌, ◌++◌, false, map, not, IfOk, OnOk, List};
ghost use Rattle.std.specs.Option.{option_map_or};
ghost use Rattle.mapping_file.specs.declared.mapping.Mapping.{Mapping};
ghost use Rattle.new_names.specs.NewNames.{names_given};
ghost use Rattle.witness_file.specs.Witnesses.{has_method};
ghost use Rattle.witness_file.specs.declared.witness.MethodWitness.{MethodWitness};
ghost use Rattle.pair_edits.specs.Edits.{are_all_steps, entry_place, is_kept, is_stray, method_named, stray_fault};
ghost use Rattle.pair_edits.specs.bodies.Tables.{HasEntries};

use class_pool::{ClassId, ClassSet};
use code_edit::{Pass, PassEdits, is_pass};
use jv_base::{M, Name, Text};
use key_table::KeySet;
use new_names::ClassNames;
use pair_clauses::{Place, described_text};
use report_text::name_text;
use std::alloc::Global;
use witness_file::{MethodWitness, Witness};

/// The methods that entries name, each once.
type MethodKeys = KeySet<(Name, (Name, Text))>;

/// The first place of WitnessStray.
pub fn stray_entry(
    alloc: Global,
    input: &ClassSet,
    given: &[ClassNames],
    witness: &Witness,
) -> M<Option<Place>>
    ensures { (mapping : Mapping) → given.now ≡ map (names_given mapping) input.now
        → IfOk result (λ found. found ≡ stray_fault mapping input.now witness.now) }
{
    let mut seen = KeySet::new(alloc);
    for entry in witness.methods.as_slice() {
        if is_stray(input, given, &mut seen, entry)? {
            return Ok(Some(entry_place(alloc, entry)?));
        }
    }
    Ok(None)
}

/// Whether an entry is stray behind others, which are put among those that were seen.
fn is_stray(
    input: &ClassSet,
    given: &[ClassNames],
    seen: &mut MethodKeys,
    entry: &MethodWitness,
) -> M<bool>
    ensures stray { (mapping : Mapping) (before : List MethodWitness) → given.now ≡ map (names_given mapping) input.now
        → HasEntries seen.old before
        → IfOk result (λ stray. stray ≡ is_stray mapping input.now before entry.now) }
    ensures seen { (before : List MethodWitness) → HasEntries seen.old before
        → OnOk result (HasEntries seen.new (before ++ entry.now ∷ [])) }
{
    let is_new = put_entry(seen, entry)?;
    Ok(!is_kept(input, given, entry) || !is_new || !are_all_steps(entry.edits.steps.as_slice()))
}

/// Puts the method that an entry names, and answers whether it is new.
fn put_entry(seen: &mut MethodKeys, entry: &MethodWitness) -> M<bool>
    ensures is_new { (before : List MethodWitness) → HasEntries seen.old before
        → IfOk result (λ is_new. is_new ≡ not (has_method before entry.now.class entry.now.name entry.now.ty)) }
    ensures put { (before : List MethodWitness) → HasEntries seen.old before
        → OnOk result (HasEntries seen.new (before ++ entry.now ∷ [])) }
{
    seen.insert((
        entry.class.clone()?,
        (entry.name.clone()?, entry.ty.clone()?),
    ))
}

/// An entry names a method with a code and a line.
fn is_kept(input: &ClassSet, given: &[ClassNames], entry: &MethodWitness) -> bool
    ensures { (mapping : Mapping) → given.now ≡ map (names_given mapping) input.now
        → result ≡ option_map_or (is_kept mapping) (method_named input.now entry.now) false }
{
    let Some(ClassId::Prog(number)) = input.find(&entry.class) else {
        return false;
    };
    let Some(index) = input.declares(ClassId::Prog(number), &entry.name, &entry.ty) else {
        return false;
    };
    let class = input.class(number);
    let fields = class.fields.len();
    if (index as usize) < fields {
        return false;
    }
    let index = index as usize - fields;
    let (Some(method), Some(names)) = (class.methods.get(index), given.get(number as usize)) else {
        return false;
    };
    match names.methods.get(index) {
        Some(new) => method.code.is_some() && new.is_some(),
        None => false,
    }
}

/// The steps are one of each pass, in the order of the passes.
fn are_all_steps(steps: &[PassEdits]) -> bool
    ensures { result ≡ are_all_steps steps.now }
{
    match steps {
        [one, two, three, four, five, six] => {
            is_pass(one.pass, Pass::Reach)
                && is_pass(two.pass, Pass::Const)
                && is_pass(three.pass, Pass::Reach)
                && is_pass(four.pass, Pass::Slots)
                && is_pass(five.pass, Pass::Jumps)
                && is_pass(six.pass, Pass::Reach)
        }
        _ => false,
    }
}

fn entry_place(alloc: Global, entry: &MethodWitness) -> M<Place>
    ensures { IfOk result (λ place. place ≡ entry_place entry.now) }
{
    let class = name_text(alloc, &entry.class)?;
    let member = described_text(alloc, &entry.name, &entry.ty)?;
    Ok(Place {
        class,
        member: Some(member),
    })
}
