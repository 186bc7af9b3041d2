// The paths of the files below a folder of the system.
ghost use Rattle.std.specs.Prelude.{IfOk};
ghost use Rattle.tree_io.specs.Below.{IsAscending};

use crate::faults::DeviceFailed;
use crate::pieces::PIECE;
use jv_base::{Or, Text};
use std::alloc::{AllocError, Global};
use std::io::{ErrorKind, Read};
use std::rt::Files;
use std::str;

// How many entries the folders of one listing may have, so that it takes bounded memory.
const MAX_ENTRIES: u32 = 1_048_576;

/// The paths of the files below a folder, each from there on, in ascending order. A folder that is
/// missing has none.
///
/// The folder's own path may end in a symbolic link to a folder. Below it none is followed: each entry
/// that is no folder counts as a file, also a link, a pipe or a socket.
///
/// The device fails at an error of the system, at a name that isn't UTF-8, and where the folders
/// have more than 1,048,576 entries.
pub fn files_below(
    rt: &impl Files,
    alloc: Global,
    root: &str,
) -> Result<Vec<Text>, Or<DeviceFailed>>
    ensures { IfOk result (λ paths. IsAscending paths.items) }
{
    let mut found = Found {
        entries: 0,
        files: Vec::new(alloc),
        folders: Vec::new(alloc),
    };
    found.folders.push(Text::from_str(alloc, "")?)?;

    // Each folder but the first one is an entry, so this is often enough.
    for _ in 0..=MAX_ENTRIES {
        let Some(folder) = found.folders.pop() else {
            break;
        };
        read_folder(rt, alloc, root, folder.as_str(), &mut found)?;
    }
    Ok(ascending(found.files)?)
}

// What was found so far, each by its path from the listed folder on.
#[derive(Drop)]
struct Found {
    entries: u32,
    files: Vec<Text>,
    // those that are still to be read
    folders: Vec<Text>,
}

// Adds what stands in a folder.
fn read_folder(
    rt: &impl Files,
    alloc: Global,
    root: &str,
    folder: &str,
    found: &mut Found,
) -> Result<(), Or<DeviceFailed>> {
    let path = path_of(alloc, root, folder)?;
    let mut names = match rt.open_dir(path.as_str()) {
        Ok(names) => names,
        Err(error) if error.kind() == ErrorKind::NotFound => return Ok(()),
        Err(_) => return Err(Or::Fault(DeviceFailed)),
    };
    let mut piece = [0u8; PIECE];
    for _ in 0..u64::MAX {
        let Ok(count) = names.read(&mut piece) else {
            return Err(Or::Fault(DeviceFailed));
        };
        if count == 0 {
            return Ok(());
        }
        add_entries(rt, alloc, root, folder, &piece[..count], found)?;
    }
    Err(Or::Fault(DeviceFailed))
}

// Adds a folder's entries, whose names are each ended by a byte 0.
fn add_entries(
    rt: &impl Files,
    alloc: Global,
    root: &str,
    folder: &str,
    names: &[u8],
    found: &mut Found,
) -> Result<(), Or<DeviceFailed>> {
    for name in names.split(|byte| *byte == 0) {
        match str::from_utf8(name) {
            Ok("" | "." | "..") => {}
            Ok(name) => add_entry(rt, alloc, root, joined(alloc, folder, name)?, found)?,
            Err(_) => return Err(Or::Fault(DeviceFailed)),
        }
    }
    Ok(())
}

// Adds an entry, as a folder or as a file.
fn add_entry(
    rt: &impl Files,
    alloc: Global,
    root: &str,
    entry: Text,
    found: &mut Found,
) -> Result<(), Or<DeviceFailed>> {
    if found.entries >= MAX_ENTRIES {
        return Err(Or::Fault(DeviceFailed));
    }
    found.entries += 1;
    let path = path_of(alloc, root, entry.as_str())?;
    let Ok(metadata) = rt.symlink_metadata(path.as_str()) else {
        return Err(Or::Fault(DeviceFailed));
    };
    if metadata.is_dir() {
        found.folders.push(entry)?;
    } else {
        found.files.push(entry)?;
    }
    Ok(())
}

// The path of what stands below the listed folder. That of the folder itself ends in `/`, so that the
// system follows a link there; no folder below it is opened through a link.
fn path_of(alloc: Global, root: &str, below: &str) -> Result<String, AllocError> {
    if root.is_empty() {
        return String::from_str(alloc, below);
    }
    format!(in alloc; "{root}/{below}")
}

// A path below a folder; the folder may be the listed one, whose path is empty.
fn joined(alloc: Global, folder: &str, name: &str) -> Result<Text, AllocError> {
    if folder.is_empty() {
        return Text::from_str(alloc, name);
    }
    Text::from_string(alloc, format!(in alloc; "{folder}/{name}")?)
}

// The paths in ascending order, each once.
fn ascending(mut paths: Vec<Text>) -> Result<Vec<Text>, AllocError>
    ensures { IfOk result (λ sorted. IsAscending sorted.items) }
{
    paths.sort()?;
    paths.dedup();
    Ok(paths)
}
