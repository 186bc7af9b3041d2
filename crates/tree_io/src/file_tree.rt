// The files of the system.
ghost use Rattle.std.specs.Prelude.{◌≡◌, ◌≤◌, None, IfOk, length, []};

use crate::calls::counted;
use crate::event::Note;
use crate::faults::DeviceFailed;
use crate::listing::files_below;
use crate::log::Log;
use crate::pieces::{read_all, write_all};
use crate::{ListFault, ReadFault, Tree, WriteFault};
use jv_base::{Bytes, Items, Or, Text};
use std::alloc::Global;
use std::fs::{File, OpenOptions};
use std::io::ErrorKind;
use std::marker::Model;
use std::os::unix::fs::FileTypeExt;
use std::path::Path;
use std::rt::Files;
use std::{fs, io};

/// A tree of the system's files. It doesn't tell what they are, and contracts see its count of
/// faults and its calls alone.
///
/// The count rises at each error of the system, but where `list` or `read` looks for what isn't
/// there. It also rises where a file takes none of the bytes that are left to write, at a name that
/// isn't UTF-8, and where the folders of a listing have more than 1,048,576 entries.
///
/// `list` follows the directory's own path where that ends in a link, and no link below it: each
/// entry that is no folder counts as a file, also a link, a pipe or a socket. `read` and `write`
/// fail at a socket, a folder and a block device, and wait for nobody: `read` takes regular files,
/// and a pipe that somebody has opened to write, up to its end; a pipe that gives no byte fails.
/// `write` takes regular files, which it makes with their parent folders, and character devices; it
/// makes no file at the end of a link, and takes no memory. An error that the system tells only when
/// a file is closed is lost.
#[derive(Drop)]
pub struct FileTree<'a, R: Files> {
    rt: &'a R,
    faults: u64,
    log: Log,
}

impl<'a, R: Files> Model for FileTree<'a, R> {
    ghost use Rattle.tree_io.specs.System.{SystemCalls};

    ghost Value = { SystemCalls };

    ghost view = { λ t. record { faults = t.faults; log = t.log.events } };
}

impl<'a, R: Files> FileTree<'a, R> {
    /// The files that the runtime reaches.
    pub fn new(rt: &'a R) -> Self
        ensures { result ≡ record { faults = 0; log = [] } }
    {
        FileTree {
            rt,
            faults: 0,
            log: Log::new(),
        }
    }
}

// ---- reading

// The bytes of a file, at most max.
fn read_file(rt: &impl Files, alloc: Global, path: &str, max: u64) -> Result<Vec<u8>, ReadFault>
    ensures { IfOk result (λ bytes. length bytes.items ≤ max) }
{
    match rt.metadata(path) {
        Ok(found) if found.is_file() => read_regular(rt, alloc, path, max),
        Ok(found) if found.file_type().is_fifo() => read_pipe(rt, alloc, path, max),
        Ok(_) => Err(ReadFault::Failed),
        Err(error) => Err(not_opened(&error)),
    }
}

// What a file is that isn't reached.
fn not_opened(error: &io::Error) -> ReadFault {
    if error.kind() == ErrorKind::NotFound {
        ReadFault::Absent
    } else {
        ReadFault::Failed
    }
}

fn read_regular(rt: &impl Files, alloc: Global, path: &str, max: u64) -> Result<Vec<u8>, ReadFault>
    ensures { IfOk result (λ bytes. length bytes.items ≤ max) }
{
    match fs::open(rt, path) {
        Ok(mut file) => read_all(alloc, &mut file, max),
        Err(error) => Err(not_opened(&error)),
    }
}

// What those who have opened a pipe write to it. Without them it gives nothing, and that is an error
// of the device.
fn read_pipe(rt: &impl Files, alloc: Global, path: &str, max: u64) -> Result<Vec<u8>, ReadFault>
    ensures { IfOk result (λ bytes. length bytes.items ≤ max) }
{
    match open_pipe(rt, path) {
        Ok(mut file) => match read_all(alloc, &mut file, max) {
            Ok(bytes) if bytes.is_empty() => Err(ReadFault::Failed),
            answer => answer,
        },
        Err(error) => Err(not_opened(&error)),
    }
}

// Opens a pipe to read. The system lets the reader of a pipe wait for somebody who writes; where it
// is open both ways already, no one waits.
fn open_pipe<R: Files>(rt: &R, path: &str) -> io::Result<R::File> {
    let _both_ways = OpenOptions::new().read(true).write(true).open(rt, path)?;
    fs::open(rt, path)
}

// ---- writing

// Puts bytes at a path. It takes no memory.
fn write_file(rt: &impl Files, path: &str, bytes: &[u8]) -> Result<(), DeviceFailed> {
    match open_to_write(rt, path) {
        Ok(mut file) => write_all(&mut file, bytes),
        Err(_) => Err(DeviceFailed),
    }
}

// Opens a file to write it anew. Where nothing stands at the path it is made, with its parent
// folders.
fn open_to_write<R: Files>(rt: &R, path: &str) -> io::Result<R::File> {
    match rt.metadata(path) {
        Ok(found) if found.is_file() || found.file_type().is_char_device() => fs::create(rt, path),
        Ok(_) => Err(io::Error::from(ErrorKind::InvalidInput)),
        Err(error) if error.kind() == ErrorKind::NotFound => make_file(rt, path),
        Err(error) => Err(error),
    }
}

// Makes a file and its parent folders. It is refused where a link stands at the path.
fn make_file<R: Files>(rt: &R, path: &str) -> io::Result<R::File> {
    if let Some(parent) = Path::new(path).parent() {
        fs::create_dir_all(rt, parent)?;
    }
    File::create_new(rt, path)
}

impl<'a, R: Files> Tree for FileTree<'a, R> {
    ghost files = { λ _. None };

    ghost faults = { λ t. t.faults };

    ghost log = { λ t. t.log };

    fn list(&mut self, alloc: Global, dir: &Text, max: u32) -> Result<Items<Text>, ListFault> {
        let answer = match files_below(self.rt, alloc, dir.as_str()) {
            Ok(paths) if paths.len() > max as usize => Err(ListFault::TooMany),
            Ok(paths) => Ok(Items::from_vec(paths)),
            Err(Or::OutOfMemory) => Err(ListFault::OutOfMemory),
            Err(Or::Fault(DeviceFailed)) => {
                self.faults = counted(self.faults);
                Err(ListFault::Failed)
            }
        };
        self.log = self.log.then(&Note::Listed(dir, max, &answer));
        answer
    }

    fn read(&mut self, alloc: Global, path: &Text, max: u64) -> Result<Bytes, ReadFault> {
        let answer = match read_file(self.rt, alloc, path.as_str(), max) {
            Ok(bytes) => Ok(Items::from_vec(bytes)),
            Err(ReadFault::Failed) => {
                self.faults = counted(self.faults);
                Err(ReadFault::Failed)
            }
            Err(fault) => Err(fault),
        };
        self.log = self.log.then(&Note::Read(path, max, &answer));
        answer
    }

    fn write(&mut self, _alloc: Global, path: &Text, bytes: &[u8]) -> Result<(), WriteFault> {
        let answer = match write_file(self.rt, path.as_str(), bytes) {
            Ok(()) => Ok(()),
            Err(DeviceFailed) => {
                self.faults = counted(self.faults);
                Err(WriteFault::Failed)
            }
        };
        self.log = self.log.then(&Note::Wrote(path, bytes, &answer));
        answer
    }
}
