// What the command reads beside its config.
ghost use Rattle.std.specs.Prelude.{◌≡◌, ◌<◌, IfOk, length};
ghost use Rattle.command_frame.specs.Steps.{Finds, Makes, seen};
ghost use Rattle.command_steps.specs.Sets.{AreClassFiles};
ghost use Rattle.check_command.specs.Due.{AreDirectories, AreTexts, FollowsInput, FollowsMapping, IsTexts};

use command_frame::{Quantity, Stop, read_file};
use command_steps::{find_files, mapping_in, witness_in};
use jv_base::{Items, Text};
use mapping_file::Mapping;
use std::alloc::Global;
use tree_io::{FileAt, Tree};
use witness_file::Witness;

/// What tells how an output belongs to an input.
#[derive(Drop)]
pub struct Texts {
    pub mapping: Mapping,
    pub witness: Witness,
}

/// The class files below both directories, with their paths below them.
#[derive(Drop)]
pub struct Directories {
    pub input: Items<FileAt>,
    pub output: Items<FileAt>,
}

// ---- the mapping and the witness

/// The mapping and the witness; both files are looked at before either text is.
pub(crate) fn find_texts<T: Tree>(
    alloc: Global,
    mapping: &Text,
    witness: &Text,
    tree: &mut T,
) -> Result<Texts, Stop>
    ensures { Finds result (λ fs. IsTexts fs mapping.now witness.now)
        (seen (T.files tree.old) (T.faults tree.old) (T.log tree.old))
        (seen (T.files tree.new) (T.faults tree.new) (T.log tree.new)) }
{
    let map = read_file(alloc, Quantity::Mapping, mapping, tree)?;
    find_witness(alloc, map.as_slice(), witness, tree)
}

fn find_witness<T: Tree>(
    alloc: Global,
    map: &[u8],
    witness: &Text,
    tree: &mut T,
) -> Result<Texts, Stop>
    requires { length map.now < 4294967295 }
    ensures { Finds result (λ fs. FollowsMapping fs witness.now map.now)
        (seen (T.files tree.old) (T.faults tree.old) (T.log tree.old))
        (seen (T.files tree.new) (T.faults tree.new) (T.log tree.new)) }
{
    let wit = read_file(alloc, Quantity::Witness, witness, tree)?;
    texts_in(alloc, map, wit.as_slice())
}

fn texts_in(alloc: Global, map: &[u8], wit: &[u8]) -> Result<Texts, Stop>
    requires map { length map.now < 4294967295 }
    requires wit { length wit.now < 4294967295 }
    ensures { Makes result (AreTexts map.now wit.now) }
{
    let mapping = mapping_in(alloc, map)?;
    let witness = witness_in(alloc, wit)?;
    Ok(Texts { mapping, witness })
}

// ---- the class files

/// The class files below the input directory, and then those below the output directory.
pub(crate) fn find_directories<T: Tree>(
    alloc: Global,
    from: &Text,
    to: &Text,
    tree: &mut T,
) -> Result<Directories, Stop>
    ensures input { IfOk result (λ found. AreClassFiles found.input) }
    ensures output { IfOk result (λ found. AreClassFiles found.output) }
    ensures found { Finds result (λ fs. AreDirectories fs from.now to.now)
        (seen (T.files tree.old) (T.faults tree.old) (T.log tree.old))
        (seen (T.files tree.new) (T.faults tree.new) (T.log tree.new)) }
{
    let input = find_files(alloc, from, tree)?;
    find_output(alloc, input, to, tree)
}

fn find_output<T: Tree>(
    alloc: Global,
    input: Items<FileAt>,
    to: &Text,
    tree: &mut T,
) -> Result<Directories, Stop>
    requires { AreClassFiles input }
    ensures input { IfOk result (λ found. AreClassFiles found.input) }
    ensures output { IfOk result (λ found. AreClassFiles found.output) }
    ensures found { Finds result (λ fs. FollowsInput fs to.now input)
        (seen (T.files tree.old) (T.faults tree.old) (T.log tree.old))
        (seen (T.files tree.new) (T.faults tree.new) (T.log tree.new)) }
{
    let output = find_files(alloc, to, tree)?;
    Ok(Directories { input, output })
}
