// Class files as a set.
ghost use Rattle.std.specs.Prelude.{◌≡◌, ◌≤◌, ◌<◌, IfOk, Ok, map, length};
ghost use Rattle.std.specs.List.{AllByRecursion, sum_by};
ghost use Rattle.tree_io.specs.Below.{IsAscending};
ghost use Rattle.class_laws.specs.SpellingLaws.{IsWritable};
ghost use Rattle.class_pool.specs.Count.{item_count};
ghost use Rattle.class_pool.specs.Faults.{Ascends, classes_of};
ghost use Rattle.link_check.specs.Profile.{links_checked};
ghost use Rattle.set_read.specs.Accepted.{ReadsClasses};
ghost use Rattle.set_read.specs.bodies.Steps.{BuildsNamed, Judges, Links, ReadsClass, ReadsFiles};

use crate::SetFault;
use crate::texts::{method_fault, place_fault, pool_fault};
use class_model::Class;
use class_pool::{ClassSet, NamedClass, build};
use class_read::read_class;
use jv_base::{Items, Or};
use link_check::check_links;
use std::alloc::Global;
use tree_io::FileAt;
use type_verifier::verify_set;

/// The set of classes that files spell, where they are class files and the set is taken (JVMS 4, 4.10.1, 5.3.5, 5.4.3
/// to 5.4.5): names follow paths, supertypes are there and of their kinds, nothing is left out, references and
/// overriding are as they have to be, and each code is typed. The paths of the files ascend, and the files have
/// together fewer than 2^32 - 1 bytes. Each class can be written.
pub fn read_set(alloc: Global, files: Items<FileAt>) -> Result<ClassSet, Or<SetFault>>
    requires ascending { IsAscending (map (λ f. f.path) files) }
    requires short { sum_by (λ f. length f.bytes) files < 4294967295 }
    ensures exact { ReadsClasses result files }
    ensures writable { IfOk result (AllByRecursion IsWritable) }
{
    let classes = read_files(alloc, files)?;
    accepted_set(alloc, classes)
}

/// The classes that files spell, in their order.
fn read_files(alloc: Global, files: Items<FileAt>) -> Result<Items<NamedClass>, Or<SetFault>>
    requires short { sum_by (λ f. length f.bytes) files < 4294967295 }
    ensures exact { ReadsFiles result files }
{
    let mut classes = Items::new(alloc);
    for file in files.into_vec() {
        let class = read_file(alloc, file)?;
        classes.push(class)?;
    }
    Ok(classes)
}

/// The class that a file spells.
fn read_file(alloc: Global, file: FileAt) -> Result<NamedClass, Or<SetFault>>
    requires short { length file.bytes < 4294967295 }
    ensures exact { ReadsClass result file }
{
    match read_class(alloc, file.bytes.as_slice()) {
        Ok(class) => Ok(NamedClass {
            path: file.path,
            class,
        }),
        Err(Or::Fault(fault)) => Err(Or::Fault(SetFault::Format(file.path, fault))),
        Err(Or::OutOfMemory) => Err(Or::OutOfMemory),
    }
}

/// The set of some classes, where it is taken.
fn accepted_set(alloc: Global, classes: Items<NamedClass>) -> Result<ClassSet, Or<SetFault>>
    requires ascend { Ascends classes }
    requires few { item_count (classes_of classes) < 4294967295 }
    ensures exact { Judges result classes }
{
    let set = built_set(alloc, classes)?;
    match check_set(alloc, &set) {
        Ok(()) => Ok(set),
        Err(fault) => Err(fault),
    }
}

/// The set of some classes, where they are one.
fn built_set(alloc: Global, classes: Items<NamedClass>) -> Result<ClassSet, Or<SetFault>>
    requires ascend { Ascends classes }
    requires few { item_count (classes_of classes) < 4294967295 }
    ensures exact { BuildsNamed result classes }
{
    match build(alloc, classes) {
        Ok(set) => Ok(set),
        Err(Or::Fault(fault)) => Err(Or::Fault(SetFault::Rule(pool_fault(alloc, fault)?))),
        Err(Or::OutOfMemory) => Err(Or::OutOfMemory),
    }
}

/// A set breaks no rule for its classes, and its codes are typed.
fn check_set(alloc: Global, set: &ClassSet) -> Result<(), Or<SetFault>>
    ensures exact { Links result set.now }
{
    match check_links(alloc, set) {
        Ok(()) => check_codes(alloc, set),
        Err(Or::Fault(fault)) => Err(Or::Fault(SetFault::Rule(place_fault(alloc, set, fault)?))),
        Err(Or::OutOfMemory) => Err(Or::OutOfMemory),
    }
}

/// The codes of a set that breaks no other rule are typed.
fn check_codes(alloc: Global, set: &ClassSet) -> Result<(), Or<SetFault>>
    requires linked { links_checked set.now ≡ Ok tt }
    ensures exact { Links result set.now }
{
    match verify_set(alloc, set) {
        Ok(()) => Ok(()),
        Err(Or::Fault(fault)) => Err(Or::Fault(SetFault::Rule(method_fault(alloc, set, fault)?))),
        Err(Or::OutOfMemory) => Err(Or::OutOfMemory),
    }
}
