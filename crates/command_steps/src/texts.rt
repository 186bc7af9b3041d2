// The texts that join an output to its input.
ghost use Rattle.std.specs.Prelude.{◌<◌, IfOk, IfSome, length};
ghost use Rattle.mapping_file.specs.Mappings.{IsMapping as HasText};
ghost use Rattle.command_frame.specs.Steps.{Finds, Makes, seen};
ghost use Rattle.command_steps.specs.Texts.{AreEarlier, IsEarlier, IsEarlierAt, IsMapping, IsWitness};

use command_frame::{Quantity, Stop, faulty_text, read_file};
use jv_base::{Or, Text};
use mapping_file::{Mapping, read_mapping};
use std::alloc::Global;
use tree_io::Tree;
use witness_file::{Witness, read_witness};

/// The mapping that a text stands for.
pub fn mapping_in(alloc: Global, bytes: &[u8]) -> Result<Mapping, Stop>
    requires { length bytes.now < 4294967295 }
    ensures { Makes result (IsMapping bytes.now) }
{
    match read_mapping(alloc, bytes) {
        Ok(mapping) => Ok(mapping),
        Err(Or::Fault(fault)) => {
            Err(Stop::Refused(faulty_text(alloc, fault.line, fault.kind.name())?))
        }
        Err(Or::OutOfMemory) => Err(Stop::OutOfMemory),
    }
}

/// The earlier mapping at a path, if one is applied (ProGuard manual, "-applymapping").
pub fn find_earlier<T: Tree>(
    alloc: Global,
    path: &Option<Text>,
    tree: &mut T,
) -> Result<Option<Mapping>, Stop>
    ensures names { IfOk result (λ old. IfSome old HasText) }
    ensures found { Finds result (λ fs. IsEarlier fs path.now)
        (seen (T.files tree.old) (T.faults tree.old) (T.log tree.old))
        (seen (T.files tree.new) (T.faults tree.new) (T.log tree.new)) }
{
    match path {
        Some(path) => earlier_at(alloc, path, tree),
        None => Ok(None),
    }
}

fn earlier_at<T: Tree>(alloc: Global, path: &Text, tree: &mut T) -> Result<Option<Mapping>, Stop>
    ensures names { IfOk result (λ old. IfSome old HasText) }
    ensures found { Finds result (λ fs. IsEarlierAt fs path.now)
        (seen (T.files tree.old) (T.faults tree.old) (T.log tree.old))
        (seen (T.files tree.new) (T.faults tree.new) (T.log tree.new)) }
{
    let bytes = read_file(alloc, Quantity::Mapping, path, tree)?;
    earlier_in(alloc, bytes.as_slice())
}

fn earlier_in(alloc: Global, bytes: &[u8]) -> Result<Option<Mapping>, Stop>
    requires { length bytes.now < 4294967295 }
    ensures names { IfOk result (λ old. IfSome old HasText) }
    ensures made { Makes result (AreEarlier bytes.now) }
{
    let mapping = mapping_in(alloc, bytes)?;
    Ok(Some(mapping))
}

/// The witness that a text stands for.
pub fn witness_in(alloc: Global, bytes: &[u8]) -> Result<Witness, Stop>
    requires { length bytes.now < 4294967295 }
    ensures { Makes result (IsWitness bytes.now) }
{
    match read_witness(alloc, bytes) {
        Ok(witness) => Ok(witness),
        Err(Or::Fault(fault)) => {
            Err(Stop::Refused(faulty_text(alloc, fault.line, fault.kind.name())?))
        }
        Err(Or::OutOfMemory) => Err(Stop::OutOfMemory),
    }
}
