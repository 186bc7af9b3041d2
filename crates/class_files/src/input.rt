// The class files below a directory, as they stand in a tree.
ghost use Rattle.std.specs.Prelude.{◌≡◌, ◌≤◌, ◌++◌, ◌-◌, IfOk, IsErrOf, length, map};
ghost use Rattle.std.specs.List.{filter};
ghost use Rattle.tree_io.specs.Below.{IsAscending};
ghost use Rattle.tree_io.specs.Count.{Rose};
ghost use Rattle.tree_io.specs.Runs.{AddsCalls, Sees};
ghost use Rattle.class_files.specs.Input.{FindsDue, IsThere, AreThere, files_in, input_due, is_class_path};
ghost use Rattle.class_files.specs.bodies.Input.{file_due};
ghost use Rattle.class_files.specs.Input.{limited, missed, path_in, total};
ghost use Rattle.class_files.specs.bodies.Input.{paths_due};
ghost use Rattle.class_files.specs.declared.input.InputFault.TheVariants as fault;

use jv_base::{Items, M, OutOfMemory, Text};
use std::alloc::{AllocError, AllocFailed, Global};
use std::fmt::{self, Display, Formatter};
use tree_io::{FileAt, ListFault, ReadFault, Tree};

/// The greatest number of files below a directory.
const MAX_FILES: u32 = 65_536;

/// The greatest number of class files.
const MAX_CLASSES: usize = 20_000;

/// The greatest length of all class files together, in bytes.
const MAX_INPUT: u64 = 67_108_864;

/// Why the class files of a directory aren't given.
#[derive(Drop)]
pub enum InputFault {
    /// More than 65,536 files lie below the directory.
    TooManyFiles,
    /// More than 20,000 of them are class files.
    TooManyClasses,
    /// The class files have together more than 67,108,864 bytes.
    TooLong,
    /// The file at this path was listed and isn't there.
    Absent(Text),
    /// The device failed, and the tree's count of faults has risen.
    Failed,
    OutOfMemory,
}

impl Display for InputFault {
    fn fmt<W: fmt::Write>(&self, f: &mut Formatter<W>) -> fmt::Result {
        match self {
            InputFault::TooManyFiles => f.write_str("more than 65,536 files"),
            InputFault::TooManyClasses => f.write_str("more than 20,000 class files"),
            InputFault::TooLong => f.write_str("more than 67,108,864 bytes of class files"),
            InputFault::Absent(path) => write!(f, "{} was listed and isn't there", path.as_str()),
            InputFault::Failed => f.write_str("the device failed"),
            InputFault::OutOfMemory => f.write_str("memory is wanting"),
        }
    }
}

impl From<AllocError> for InputFault {
    ghost from_gives = { λ _ e. e ≡ fault.OutOfMemory };

    fn from(_: AllocError) -> Self {
        InputFault::OutOfMemory
    }
}

impl<T: Drop> From<AllocFailed<T>> for InputFault {
    ghost from_gives = { λ _ e. e ≡ fault.OutOfMemory };

    fn from(_: AllocFailed<T>) -> Self {
        InputFault::OutOfMemory
    }
}

impl From<OutOfMemory> for InputFault {
    ghost from_gives = { λ _ e. e ≡ fault.OutOfMemory };

    fn from(_: OutOfMemory) -> Self {
        InputFault::OutOfMemory
    }
}

/// The files below a directory whose paths end in `.class`, with their paths below it, in ascending order of the bytes
/// of these. No file changes.
///
/// What is found is what is due of all files that the tree's calls fit. A class file that was listed and isn't there
/// when it is read is named.
pub fn read_files<T: Tree>(
    alloc: Global,
    directory: &Text,
    tree: &mut T,
) -> Result<Items<FileAt>, InputFault>
    ensures files { T.files tree.new ≡ T.files tree.old }
    ensures later { T.faults tree.old ≤ T.faults tree.new }
    ensures device { IsErrOf result InputFault.Failed → Rose (T.faults tree.old) (T.faults tree.new) }
    ensures short { IfOk result (λ files. total files ≤ 67108864) }
    ensures ascending { IfOk result (λ files. IsAscending (map (λ f. f.path) files)) }
    ensures seen { AddsCalls (T.log tree.old) (T.log tree.new) (T.files tree.old) (T.files tree.new)
        (Sees (missed result) (λ fs. FindsDue result (input_due fs directory.now))) }
{
    let paths = class_paths(alloc, directory, tree)?;
    read_each(alloc, directory, paths, tree)
}

/// The paths of the class files below a directory, without the directory.
fn class_paths<T: Tree>(
    alloc: Global,
    directory: &Text,
    tree: &mut T,
) -> Result<Items<Text>, InputFault>
    ensures files { T.files tree.new ≡ T.files tree.old }
    ensures later { T.faults tree.old ≤ T.faults tree.new }
    ensures device { IsErrOf result InputFault.Failed → Rose (T.faults tree.old) (T.faults tree.new) }
    ensures ascending { IfOk result IsAscending }
    ensures seen { AddsCalls (T.log tree.old) (T.log tree.new) (T.files tree.old) (T.files tree.new)
        (Sees (missed result) (λ fs. FindsDue result (paths_due fs directory.now))) }
{
    let paths = match tree.list(alloc, directory, MAX_FILES) {
        Ok(paths) => those_of_classes(alloc, paths)?,
        Err(ListFault::TooMany) => return Err(InputFault::TooManyFiles),
        Err(ListFault::Failed) => return Err(InputFault::Failed),
        Err(ListFault::OutOfMemory) => return Err(InputFault::OutOfMemory),
    };
    if paths.len() > MAX_CLASSES {
        return Err(InputFault::TooManyClasses);
    }
    Ok(paths)
}

fn those_of_classes(alloc: Global, paths: Items<Text>) -> M<Items<Text>>
    ensures { IfOk result (λ kept. kept ≡ filter is_class_path paths) }
{
    let mut kept = Items::new(alloc);
    for path in paths.into_vec() {
        if path.as_bytes().ends_with(b".class") {
            kept.push(path)?;
        }
    }
    Ok(kept)
}

/// The files at paths below a directory, while they have together no more bytes than may be.
fn read_each<T: Tree>(
    alloc: Global,
    directory: &Text,
    paths: Items<Text>,
    tree: &mut T,
) -> Result<Items<FileAt>, InputFault>
    ensures files { T.files tree.new ≡ T.files tree.old }
    ensures later { T.faults tree.old ≤ T.faults tree.new }
    ensures device { IsErrOf result InputFault.Failed → Rose (T.faults tree.old) (T.faults tree.new) }
    ensures short { IfOk result (λ files. total files ≤ 67108864) }
    ensures paths { IfOk result (λ files. map (λ f. f.path) files ≡ paths) }
    ensures seen { AddsCalls (T.log tree.old) (T.log tree.new) (T.files tree.old) (T.files tree.new)
        (Sees (missed result) (λ fs. AreThere fs directory.now paths
        → FindsDue result (limited (files_in fs directory.now paths)))) }
{
    let mut files = Items::new(alloc);
    let mut room = MAX_INPUT;
    for path in paths.into_vec() {
        let file = read_file(alloc, directory, path, room, tree)?;
        room -= file.bytes.len() as u64;
        files.push(file)?;
    }
    Ok(files)
}

fn read_file<T: Tree>(
    alloc: Global,
    directory: &Text,
    path: Text,
    max: u64,
    tree: &mut T,
) -> Result<FileAt, InputFault>
    ensures files { T.files tree.new ≡ T.files tree.old }
    ensures later { T.faults tree.old ≤ T.faults tree.new }
    ensures device { IsErrOf result InputFault.Failed → Rose (T.faults tree.old) (T.faults tree.new) }
    ensures short { IfOk result (λ file. length file.bytes ≤ max) }
    ensures path { IfOk result (λ file. file.path ≡ path) }
    ensures seen { AddsCalls (T.log tree.old) (T.log tree.new) (T.files tree.old) (T.files tree.new)
        (Sees (missed result) (λ fs. IsThere fs directory.now path
        → FindsDue result (file_due fs directory.now path max))) }
{
    let full = path_in(alloc, directory, &path)?;
    match tree.read(alloc, &full, max) {
        Ok(bytes) => Ok(FileAt { path, bytes }),
        Err(ReadFault::Absent) => Err(InputFault::Absent(full)),
        Err(ReadFault::TooLong) => Err(InputFault::TooLong),
        Err(ReadFault::Failed) => Err(InputFault::Failed),
        Err(ReadFault::OutOfMemory) => Err(InputFault::OutOfMemory),
    }
}

/// The path of a file below a directory.
pub fn path_in(alloc: Global, directory: &Text, path: &Text) -> M<Text>
    ensures { IfOk result (λ full. full ≡ path_in directory.now path.now) }
{
    let (directory, path) = (directory.as_str(), path.as_str());
    Ok(Text::from_string(alloc, format!(in alloc; "{directory}/{path}")?)?)
}
