// A set without what isn't kept, under new names.
ghost use Rattle.std.specs.Prelude.{◌≡◌, ◌<◌, length};
ghost use Rattle.std.specs.List.{AllByRecursion};
ghost use Rattle.class_pool.specs.Count.{item_count};
ghost use Rattle.class_laws.specs.SpellingLaws.{IsWritable};
ghost use Rattle.rename_map.specs.Names.{AreFixed};
ghost use Rattle.set_shrink.specs.ShrunkSet.{Shrinks, renamed_of};

use crate::counts::{Counts, counts_of};
use crate::renaming::written_named;
use class_model::{Class, WriteLimit};
use fresh_names::TakenNames;
use jv_base::{Items, Or};
use keep_rules::Rules;
use mapping_file::Mapping;
use mark_words::Marked;
use member_shrink::shrunk;
use rename_map::names_beside;
use std::alloc::Global;
use std::thread::Threads;
use tree_io::FileAt;

/// What is written of a set, and what was kept of it.
#[derive(Drop)]
pub struct ShrunkSet {
    /// The files of the kept classes, in the order of their paths.
    pub files: Items<FileAt>,
    /// The old and the new names of the kept classes and their members, in the order of the set.
    pub mapping: Mapping,
    /// The counts of the whole set.
    pub read: Counts,
    /// The counts of what is kept.
    pub kept: Counts,
}

/// The files of classes without what isn't kept, below the output directory of the rules: each kept class with its kept
/// members under the new names that the rules leave to be given, beside those that stay, first what an earlier mapping
/// has (ProGuard manual, "Usage": obfuscation, "-applymapping"), and with those optional attributes that the rules keep,
/// in its canonical spelling (JVMS 4). What is kept is marked, one mark for each item: each class in its order, then its
/// fields, then its methods. Each kept class can be written under its new names. The error is the first limit of the
/// format that a kept class passes (JVMS 4.11), in the order of the files. So many workers write the classes, each in a
/// thread of its own; the answer is that of one.
pub fn shrink_classes<Rt: Threads + Sync>(
    rt: &Rt,
    workers: usize,
    alloc: Global,
    classes: Items<Class>,
    fixed: &Option<TakenNames>,
    marked: &Marked,
    rules: &Rules,
    old: &Option<Mapping>,
) -> Result<ShrunkSet, Or<WriteLimit>>
    requires few { item_count classes < 4294967295 }
    requires marks { length marked.now ≡ item_count classes }
    requires fixed { AreFixed rules.now classes fixed.now }
    requires writable { AllByRecursion IsWritable (renamed_of classes marked.now rules.now old.now) }
    ensures exact { Shrinks result classes marked.now rules.now old.now }
{
    let read = counts_of(classes.as_slice());
    let kept = shrunk(alloc, classes, marked)?;
    let counts = counts_of(kept.as_slice());
    let names = names_beside(alloc, fixed, &kept, old)?;
    let written = written_named(rt, workers, alloc, &names, kept, rules)?;
    Ok(ShrunkSet {
        files: written.files,
        mapping: written.mapping,
        read,
        kept: counts,
    })
}
