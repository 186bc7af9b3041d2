// Whether an output belongs to an input.
ghost use Rattle.std.specs.Prelude.{◌≡◌, ◌<◌, List, Ok, Some, None, IfOk, length, map};
ghost use Rattle.std.specs.List.{sum_by};
ghost use Rattle.tree_io.specs.Below.{IsAscending};
ghost use Rattle.tree_io.specs.declared.file_at.FileAt.{FileAt};
ghost use Rattle.set_read.specs.Accepted.{IsAccepted};
ghost use Rattle.mark_core.specs.Valid.{Valid};
ghost use Rattle.mark_core.specs.declared.system.System.{System};
ghost use Rattle.rule_system.specs.Required.{required, system_due};
ghost use Rattle.pair_edits.specs.Sound.{AreSound};
ghost use Rattle.pair_checker.specs.Clauses.{given_names};
ghost use Rattle.pair_checker.specs.PairOk.{Checks};
ghost use Rattle.pair_checker.specs.bodies.Lining.{AreLines};
ghost use Rattle.pair_checker.specs.bodies.Matching.{Matches, ReadsOutput};

use crate::answer::{Clause, No};
use crate::matching::{Pair, check_clauses};
use attribute_filter::attribute_filter;
use class_pool::ClassSet;
use jv_base::{Bytes, Items, M, Or};
use keep_rules::Rules;
use mapping_file::Mapping;
use mark_core::System;
use new_names::{ClassNames, NewNames, names_given};
use pair_clauses::lined_items;
use pair_edits::Entries;
use rename_map::fixed_names;
use rule_system::system_of;
use set_read::{RuleFault, SetFault, read_set};
use std::alloc::Global;
use tree_io::FileAt;
use witness_file::Witness;

/// By what an output is said to belong to an input.
#[derive(Clone, Copy)]
pub struct Told<'a> {
    /// What classes and members are called in the output.
    pub mapping: &'a Mapping,
    /// What has to be kept, and which names have to stay.
    pub rules: &'a Rules,
    /// How methods were edited.
    pub witness: &'a Witness,
}

/// Whether an output belongs to an input by a mapping, rules and a witness; or the first clause that says that it
/// doesn't, with its first place. The input is the set that some files are taken as, and what has to be kept of it passes
/// no limit of `system_of`. The output is the class files of a directory, their paths ascending, with fewer than 2^32 - 1 bytes
/// together.
pub fn check_pair(
    alloc: Global,
    input: &ClassSet,
    output: &Items<FileAt>,
    mapping: &Mapping,
    rules: &Rules,
    witness: &Witness,
) -> Result<(), Or<No>>
    requires ascending { IsAscending (map (λ f. f.path) output.now) }
    requires short { sum_by (λ f. length f.bytes) output.now < 4294967295 }
    requires few { (sys : System) × (system_due input.now rules.now ≡ Ok sys) }
    requires accepted { (files : List FileAt) × IsAccepted files input.now }
    ensures { Checks input.now output.now mapping.now rules.now witness.now result }
{
    let told = Told {
        mapping,
        rules,
        witness,
    };
    match system_of(alloc, input, rules) {
        Ok(sys) => check_required(alloc, input, output, &told, &sys),
        Err(_) => Err(Or::OutOfMemory),
    }
}

/// The same where it is known what has to be kept of the input.
pub fn check_required(
    alloc: Global,
    input: &ClassSet,
    output: &Items<FileAt>,
    told: &Told<'_>,
    sys: &System,
) -> Result<(), Or<No>>
    requires ascending { IsAscending (map (λ f. f.path) output.now) }
    requires short { sum_by (λ f. length f.bytes) output.now < 4294967295 }
    requires required { sys.now ≡ required input.now told.now.rules.now }
    requires valid { Valid sys.now }
    requires accepted { (files : List FileAt) × IsAccepted files input.now }
    ensures { Checks input.now output.now told.now.mapping.now told.now.rules.now told.now.witness.now result }
{
    let set = read_output(alloc, output)?;
    check_set(alloc, input, &set, told, sys)
}

/// The set of classes that the files of an output are taken as.
fn read_output(alloc: Global, files: &Items<FileAt>) -> Result<ClassSet, Or<No>>
    requires ascending { IsAscending (map (λ f. f.path) files.now) }
    requires short { sum_by (λ f. length f.bytes) files.now < 4294967295 }
    ensures { ReadsOutput result files.now }
{
    let files = copied(alloc, files.as_slice())?;
    match read_set(alloc, files) {
        Ok(set) => Ok(set),
        Err(Or::Fault(SetFault::Format(..))) => Err(Or::Fault(no_class_file())),
        Err(Or::Fault(SetFault::Rule(fault))) => Err(Or::Fault(no_set(fault))),
        Err(Or::OutOfMemory) => Err(Or::OutOfMemory),
    }
}

/// Copies of files.
fn copied(alloc: Global, files: &[FileAt]) -> M<Items<FileAt>>
    ensures { IfOk result (λ copies. copies ≡ files.now) }
{
    let mut copies = Items::new(alloc);
    for file in files {
        copies.push(copied_file(alloc, file)?)?;
    }
    Ok(copies)
}

fn copied_file(alloc: Global, file: &FileAt) -> M<FileAt>
    ensures { IfOk result (λ copy. copy ≡ file.now) }
{
    let path = file.path.clone()?;
    let bytes = Bytes::from_vec(file.bytes.as_slice().to_vec(alloc)?);
    Ok(FileAt { path, bytes })
}

/// A file is no class file; no place is named.
fn no_class_file() -> No
    ensures { result ≡ record { clause = Clause.OutputFormat; class = None; member = None } }
{
    No {
        clause: Clause::OutputFormat,
        class: None,
        member: None,
    }
}

/// The files break a rule of sets of classes.
fn no_set(fault: RuleFault) -> No
    ensures { result ≡ record { clause = Clause.OutputProfile; class = Some fault.class; member = fault.member } }
{
    No {
        clause: Clause::OutputProfile,
        class: Some(fault.class),
        member: fault.member,
    }
}

/// The clauses of an output that was read.
fn check_set(
    alloc: Global,
    input: &ClassSet,
    output: &ClassSet,
    told: &Told<'_>,
    sys: &System,
) -> Result<(), Or<No>>
    requires required { sys.now ≡ required input.now told.now.rules.now }
    requires valid { Valid sys.now }
    requires sound { AreSound input.now }
    ensures { Matches input.now output.now told.now.mapping.now told.now.rules.now told.now.witness.now result }
{
    let names = NewNames::of(alloc, told.mapping)?;
    let given = given_names(alloc, input, &names)?;
    let lined = lined_items(alloc, given.as_slice())?;
    let lines = Lines {
        names: &names,
        given: given.as_slice(),
        lined: lined.as_slice(),
    };
    check_lined(alloc, input, output, told, sys, &lines)
}

/// What lines of a mapping give to the classes of an input.
#[derive(Clone, Copy)]
struct Lines<'l, 'm> {
    names: &'l NewNames<'m>,
    /// The new names of each class and of its members.
    given: &'l [ClassNames],
    /// Whether each item has a line.
    lined: &'l [bool],
}

/// The new names of each class of a set and of its members.
fn given_names(alloc: Global, input: &ClassSet, names: &NewNames<'_>) -> M<Items<ClassNames>>
    ensures { IfOk result (λ given. given ≡ given_names names.now input.now) }
{
    let mut given = Items::new(alloc);
    for number in 0..input.len() {
        given.push(names_given(alloc, names, input.class(number))?)?;
    }
    Ok(given)
}

/// The clauses of an output that was read, with the lines of the mapping.
fn check_lined(
    alloc: Global,
    input: &ClassSet,
    output: &ClassSet,
    told: &Told<'_>,
    sys: &System,
    lines: &Lines<'_, '_>,
) -> Result<(), Or<No>>
    requires required { sys.now ≡ required input.now told.now.rules.now }
    requires valid { Valid sys.now }
    requires lines { AreLines lines.now told.now.mapping.now input.now }
    requires sound { AreSound input.now }
    ensures { Matches input.now output.now told.now.mapping.now told.now.rules.now told.now.witness.now result }
{
    let fixed = fixed_names(alloc, told.rules, input)?;
    let filter = attribute_filter(alloc, told.rules)?;
    let entries = Entries::of(alloc, told.witness)?;
    let pair = Pair {
        input,
        output,
        mapping: told.mapping,
        witness: told.witness,
        entries: &entries,
        names: lines.names,
        given: lines.given,
        lined: lines.lined,
        fixed: &fixed,
        filter: &filter,
        sys,
    };
    check_clauses(alloc, &pair)
}
