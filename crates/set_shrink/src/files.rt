// Classes as files.
ghost use Rattle.std.specs.Prelude.{◌≡◌, IfOk, map};
ghost use Rattle.std.specs.List.{AllByRecursion};
ghost use Rattle.jv_base.specs.Outcome.{IsDue};
ghost use Rattle.attribute_filter.specs.Filtered.{filtered};
ghost use Rattle.class_laws.specs.SpellingLaws.{IsWritable};
ghost use Rattle.set_shrink.specs.ShrunkSet.{path_of};
ghost use Rattle.set_shrink.specs.bodies.Steps.{AreEachWritten, Writes, WritesOne};

use attribute_filter::{AttributeFilter, filtered};
use class_model::{Class, WriteLimit};
use class_write::write_class;
use jv_base::{Items, M, Or, Text};
use rayon::prelude::*;
use std::alloc::Global;
use std::thread::Threads;
use tree_io::FileAt;

/// How many classes are worth a thread of their own.
const LEAST_PART: usize = 16;

/// The files of classes below a directory, in their order, each with those optional attributes that are kept. The
/// classes are shared out among so many workers, each in a thread of its own; the answer is that of one.
pub fn files_of<Rt: Threads + Sync>(
    rt: &Rt,
    workers: usize,
    alloc: Global,
    classes: Items<Class>,
    filter: &AttributeFilter,
    directory: &Text,
) -> Result<Items<FileAt>, Or<WriteLimit>>
    requires writable { AllByRecursion IsWritable (map (filtered filter.now) classes) }
    ensures exact { Writes result (map (filtered filter.now) classes) directory.now }
{
    let all = each_written(rt, workers, alloc, classes, filter, directory)?;
    let mut files = Items::new(alloc);
    for written in all {
        let file = written?;
        files.push(file)?;
    }
    Ok(files)
}

/// For each class its file, or the limit that it passes: all are written, also those behind one that passes a limit. A
/// worker filters its classes one by one, so that what they all get stands in memory once for each worker.
fn each_written<Rt: Threads + Sync>(
    rt: &Rt,
    workers: usize,
    alloc: Global,
    classes: Items<Class>,
    filter: &AttributeFilter,
    directory: &Text,
) -> M<Vec<Result<FileAt, Or<WriteLimit>>>>
    requires writable { AllByRecursion IsWritable (map (filtered filter.now) classes) }
    ensures { IfOk result (λ all. AreEachWritten directory.now (map (filtered filter.now) classes) all.items) }
{
    let size = part_size(classes.len(), workers);
    let all: Vec<Result<FileAt, Or<WriteLimit>>> = classes
        .into_vec()
        .into_par_iter()
        .with_min_len(size)
        .map(
            |class: Class| -> Result<FileAt, Or<WriteLimit>>
                requires { IsWritable (filtered filter.now class) }
                ensures { WritesOne result (filtered filter.entry.now class) directory.entry.now }
            { file_of(alloc, class, filter, directory) },
        )
        .collect(rt, alloc)?;
    Ok(all)
}

/// How many of so many classes a part has at least. Parts are halved, so there are as many as the greatest power of two
/// that isn't above the number of workers. Fewer classes aren't worth a thread.
fn part_size(count: usize, workers: usize) -> usize {
    (count >> workers.max(1).ilog2()).max(LEAST_PART)
}

/// The file of a class with those optional attributes that are kept.
fn file_of(
    alloc: Global,
    class: Class,
    filter: &AttributeFilter,
    directory: &Text,
) -> Result<FileAt, Or<WriteLimit>>
    requires writable { IsWritable (filtered filter.now class) }
    ensures exact { WritesOne result (filtered filter.now class) directory.now }
{
    let class = filtered(alloc, filter, class)?;
    written(alloc, &class, directory)
}

/// The file of a class.
fn written(alloc: Global, class: &Class, directory: &Text) -> Result<FileAt, Or<WriteLimit>>
    requires writable { IsWritable class.now }
    ensures exact { WritesOne result class.now directory.now }
{
    let bytes = write_class(alloc, class)?;
    let path = path_of(alloc, directory, class)?;
    Ok(FileAt { path, bytes })
}

/// The path of a class's file below a directory.
fn path_of(alloc: Global, directory: &Text, class: &Class) -> M<Text>
    ensures { IfOk result (λ path. path ≡ path_of directory.now class.now) }
{
    let (directory, name) = (directory.as_str(), class.name.as_str());
    Ok(Text::from_string(alloc, format!(in alloc; "{directory}/{name}.class")?)?)
}
