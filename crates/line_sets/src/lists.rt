// Lists of files that can be a set.
ghost use Rattle.std.specs.Prelude.{◌<◌, IfOk, IfSome, IsTrue, Ok};
ghost use Rattle.class_pool.specs.Count.{item_count};
ghost use Rattle.class_pool.specs.Faults.{Ascends, Builds, classes_of};

use class_pool::{ClassSet, NamedClass, build};
use jv_base::{Items, M, Or, OutOfMemory};
use std::alloc::Global;

/// The set that files are; none where their paths don't ascend, they are too many, or they break a rule of sets.
pub fn set_of(alloc: Global, files: Items<NamedClass>) -> M<Option<ClassSet>>
    ensures { IfOk result (λ found. IfSome found (λ set. Builds (Ok set) files)) }
{
    if !are_listed(files.as_slice()) {
        return Ok(None);
    }
    match build(alloc, files) {
        Ok(set) => Ok(Some(set)),
        Err(Or::Fault(_)) => Ok(None),
        Err(Or::OutOfMemory) => Err(OutOfMemory),
    }
}

/// Whether the paths of files ascend, and the files and their members are fewer than 2^32 - 1.
pub fn are_listed(files: &[NamedClass]) -> bool
    ensures ascend { IsTrue result → Ascends files.now }
    ensures few { IsTrue result → item_count (classes_of files.now) < 4294967295 }
{
    ascends(files) && are_few(files)
}

fn ascends(files: &[NamedClass]) -> bool
    ensures { IsTrue result → Ascends files.now }
{
    for number in 1..files.len() {
        if files[number - 1].path >= files[number].path {
            return false;
        }
    }
    true
}

fn are_few(files: &[NamedClass]) -> bool
    ensures { IsTrue result → item_count (classes_of files.now) < 4294967295 }
{
    let mut count = 0usize;
    for file in files {
        let class = &file.class;
        let members = class.fields.len().saturating_add(class.methods.len());
        count = count.saturating_add(1).saturating_add(members);
        if count >= 4_294_967_295 {
            return false;
        }
    }
    true
}
