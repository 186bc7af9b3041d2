// Calls on what is written of a set.
ghost use Rattle.std.specs.Prelude.{◌≡◌, ◌<◌, length};
ghost use Rattle.std.specs.List.{AllByRecursion};
ghost use Rattle.class_pool.specs.Count.{item_count};
ghost use Rattle.class_laws.specs.SpellingLaws.{IsWritable};
ghost use Rattle.rename_map.specs.Names.{AreFixed};
ghost use Rattle.set_shrink.specs.ShrunkSet.{Shrinks, renamed_of};

use class_model::{Class, WriteLimit};
use fresh_names::TakenNames;
use jv_base::{Items, Or};
use keep_rules::Rules;
use mapping_file::Mapping;
use mark_words::Marked;
use set_shrink::ShrunkSet;
use std::alloc::Global;
use std::thread::Threads;

/// `shrink_classes` of `set_shrink`.
pub fn shrink_classes<Rt: Threads + Sync>(
    rt: &Rt,
    workers: usize,
    alloc: Global,
    classes: Items<Class>,
    fixed: &Option<TakenNames>,
    marked: &Marked,
    rules: &Rules,
    old: &Option<Mapping>,
) -> Result<ShrunkSet, Or<WriteLimit>>
    requires few { item_count classes < 4294967295 }
    requires marks { length marked.now ≡ item_count classes }
    requires fixed { AreFixed rules.now classes fixed.now }
    requires writable { AllByRecursion IsWritable (renamed_of classes marked.now rules.now old.now) }
    ensures exact { Shrinks result classes marked.now rules.now old.now }
{
    set_shrink::shrink_classes(rt, workers, alloc, classes, fixed, marked, rules, old)
}
