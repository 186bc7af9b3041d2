// What is kept under its new names.
ghost use Rattle.std.specs.Prelude.{◌≡◌, IfOk, map};
ghost use Rattle.std.specs.List.{AllByRecursion};
ghost use Rattle.attribute_filter.specs.KeptAttributes.{filter_of};
ghost use Rattle.class_rename.specs.Names.{names_in};
ghost use Rattle.class_rename.specs.Renamed.{renamed};
ghost use Rattle.class_laws.specs.SpellingLaws.{IsWritable};
ghost use Rattle.set_shrink.specs.Order.{in_order};
ghost use Rattle.set_shrink.specs.bodies.Steps.{WritesNamed};

use crate::files::files_of;
use crate::order::in_order;
use attribute_filter::attribute_filter;
use class_model::{Class, WriteLimit};
use class_rename::{NewNames, rename_classes};
use jv_base::{Items, M, Or};
use keep_rules::Rules;
use mapping_file::Mapping;
use rename_map::mapping_of;
use std::alloc::Global;
use std::thread::Threads;
use tree_io::FileAt;

/// The files of classes, and the mapping that tells their old names.
#[derive(Drop)]
pub(crate) struct NamedFiles {
    pub(crate) files: Items<FileAt>,
    pub(crate) mapping: Mapping,
}

/// The files of kept classes under new names, in the order of their paths, and the mapping. So many workers write them.
pub(crate) fn written_named<Rt: Threads + Sync>(
    rt: &Rt,
    workers: usize,
    alloc: Global,
    names: &NewNames,
    kept: Items<Class>,
    rules: &Rules,
) -> Result<NamedFiles, Or<WriteLimit>>
    requires writable { AllByRecursion IsWritable (map (renamed (names_in names.now)) kept) }
    ensures exact { WritesNamed result (names_in names.now) kept rules.now }
{
    let filter = attribute_filter(alloc, rules)?;
    let mapping = mapping_of(alloc, names, &kept, filter.line_numbers)?;
    let classes = renamed(alloc, names, kept)?;
    let files = files_of(rt, workers, alloc, classes, &filter, &rules.out_dir)?;
    Ok(NamedFiles { files, mapping })
}

/// Classes under new names, in the order of the paths of their files.
fn renamed(alloc: Global, names: &NewNames, kept: Items<Class>) -> M<Items<Class>>
    ensures { IfOk result (λ classes. classes ≡ in_order (map (renamed (names_in names.now)) kept)) }
{
    let mut classes = kept;
    rename_classes(alloc, names, &mut classes)?;
    in_order(alloc, classes)
}
