use jv_base::{Items, Text};
use std::alloc::{Allocator, Global};
use std::fmt::Display;
use std::fs::{File, Metadata, OpenOptions};
use std::io::{ErrorKind, PipeReader, PipeWriter, Write};
use std::os::fd::AsRawFd;
use std::os::unix::fs::symlink;
use std::process::Abort;
use std::rt::Files;
use std::test::Fail;
use std::{fs, io, str};
use tree_io::{FileAt, FileTree, MemorySink, MemoryTree, Sink, StreamSink, Tree};

// The paths, each with a blank after it, or the fault.
fn list(alloc: Global, tree: &mut impl Tree, dir: &str, max: u32) -> Result<String, Fail> {
    match tree.list(alloc, &Text::from_str(alloc, dir)?, max) {
        Ok(paths) => {
            let mut all = String::new(alloc);
            for path in paths.as_slice() {
                all.push_str(path.as_str())?;
                all.push(' ')?;
            }
            Ok(all)
        }
        Err(fault) => Ok(format!(in alloc; "{fault:?}")?),
    }
}

// The text of a file, or the fault.
fn read(alloc: Global, tree: &mut impl Tree, path: &str, max: u64) -> Result<String, Fail> {
    match tree.read(alloc, &Text::from_str(alloc, path)?, max) {
        Ok(bytes) => Ok(String::from_str(alloc, str::from_utf8(bytes.as_slice())?)?),
        Err(fault) => Ok(format!(in alloc; "{fault:?}")?),
    }
}

// Nothing, or the fault.
fn write(alloc: Global, tree: &mut impl Tree, path: &str, text: &str) -> Result<String, Fail> {
    match tree.write(alloc, &Text::from_str(alloc, path)?, text.as_bytes()) {
        Ok(()) => Ok(String::new(alloc)),
        Err(fault) => Ok(format!(in alloc; "{fault:?}")?),
    }
}

fn memory_tree(alloc: Global, fails: &[u64]) -> Result<MemoryTree, Fail> {
    let mut files = Vec::new(alloc);
    for (path, text) in [("in/b", "bb"), ("inx/a", "x"), ("in/a/c", ""), ("in", "n")] {
        files.push(FileAt {
            path: Text::from_str(alloc, path)?,
            bytes: Items::from_vec(text.as_bytes().to_vec(alloc)?),
        })?;
    }
    let fails = Items::from_vec(fails.to_vec(alloc)?);
    Ok(MemoryTree::new(alloc, Items::from_vec(files), fails)?)
}

#[test]
fn a_tree_in_memory_lists_what_is_below(rt: HostRuntime) -> Result<(), Fail> {
    let alloc = rt.alloc();
    let mut tree = memory_tree(alloc, &[])?;
    for (dir, max, want) in [
        ("in", 2, "a/c b "),
        ("in", 1, "TooMany"),
        ("in/a", 9, "c "),
        ("out", 0, ""),
        ("", 9, ""),
    ] {
        assert_eq!(rt;
            list(alloc, &mut tree, dir, max)?.as_str(),
            want,
            "of {dir}"
        );
    }
    Ok(())
}

#[test]
fn a_tree_in_memory_reads_what_was_put_in(rt: HostRuntime) -> Result<(), Fail> {
    let alloc = rt.alloc();
    let mut tree = memory_tree(alloc, &[])?;
    assert_eq!(rt; write(alloc, &mut tree, "in/b", "new")?.as_str(), "");
    for (path, max, want) in [
        ("in/b", 3, "new"),
        ("in/b", 2, "TooLong"),
        ("in/c", 9, "Absent"),
        ("in/a/c", 0, ""),
    ] {
        assert_eq!(rt;
            read(alloc, &mut tree, path, max)?.as_str(),
            want,
            "at {path}"
        );
    }
    Ok(())
}

#[test]
fn the_named_calls_of_a_tree_fail(rt: HostRuntime) -> Result<(), Fail> {
    let alloc = rt.alloc();
    let mut tree = memory_tree(alloc, &[1, 3])?;
    for (text, written, content) in [("", "", "Failed"), ("12345", "", "Failed")] {
        assert_eq!(rt; write(alloc, &mut tree, "in/b", text)?.as_str(), written);
        assert_eq!(rt; read(alloc, &mut tree, "in/b", 9)?.as_str(), content);
    }
    assert_eq!(rt; list(alloc, &mut tree, "in", 9)?.as_str(), "a/c b ");
    Ok(())
}

#[test]
fn the_named_calls_of_a_sink_append_nothing(rt: HostRuntime) -> Result<(), Fail> {
    let alloc = rt.alloc();
    let mut sink = MemorySink::new(alloc, Items::from_vec([1].to_vec(alloc)?))?;
    for (text, want) in [("one ", true), ("two ", false), ("three", true)] {
        assert_eq!(rt; sink.put(text.as_bytes()).is_ok(), want, "at {text}");
    }
    assert_eq!(rt; sink.written(), b"one three".as_slice());
    Ok(())
}

// A path of more than 3,000 bytes.
fn long_path(alloc: Global) -> Result<String, Fail> {
    let mut path = String::new(alloc);
    for _ in 0..300 {
        path.push_str("a_folder_/")?;
    }
    path.push_str("end")?;
    Ok(path)
}

// Makes the files of a test in a folder of their own.
fn system_files<R: Files + AllocGlobal + Abort + Print>(
    rt: &R,
    alloc: Global,
    tree: &mut impl Tree,
) -> Result<(), Fail> {
    let _ = fs::remove_dir_all(rt, "tree_io_test");
    fs::create_dir_all(rt, "tree_io_test/in/empty")?;
    for (link, target) in [
        ("tree_io_test/in/link", "a"),
        ("tree_io_test/in/folder", "b"),
        ("tree_io_test/in/loop", "loop"),
        ("tree_io_test/in/nowhere", "nobody"),
    ] {
        symlink(rt, target, link)?;
    }
    for (path, text, want) in [
        ("tree_io_test/in/b/c/d", "", ""),
        ("tree_io_test/in/a", "a longer text", ""),
        ("tree_io_test/in/a", "short", ""),
        ("tree_io_test/in/b", "a folder", "Failed"),
        ("tree_io_test/in/a/e", "below a file", "Failed"),
        ("tree_io_test/in/loop", "a link to itself", "Failed"),
        ("tree_io_test/in/nowhere", "a link to nothing", "Failed"),
        ("/dev/null", "a device", ""),
    ] {
        assert_eq!(rt; write(alloc, tree, path, text)?.as_str(), want, "at {path}");
    }
    Ok(())
}

#[test]
fn a_tree_of_the_system_lists_each_entry_that_is_no_folder(rt: HostRuntime) -> Result<(), Fail> {
    let alloc = rt.alloc();
    let mut tree = FileTree::new(&rt);
    system_files(&rt, alloc, &mut tree)?;
    for (dir, max, want) in [
        ("tree_io_test/in", 6, "a b/c/d folder link loop nowhere "),
        ("tree_io_test/in", 5, "TooMany"),
        ("tree_io_test/in/folder", 9, "c/d "),
        ("tree_io_test/in/empty", 0, ""),
        ("tree_io_test/out", 0, ""),
        ("tree_io_test/in/a", 9, "Failed"),
        ("tree_io_test/in/loop", 9, "Failed"),
    ] {
        assert_eq!(rt;
            list(alloc, &mut tree, dir, max)?.as_str(),
            want,
            "of {dir}"
        );
    }
    Ok(())
}

#[test]
fn a_tree_of_the_system_lists_long_paths(rt: HostRuntime) -> Result<(), Fail> {
    let alloc = rt.alloc();
    let mut tree = FileTree::new(&rt);
    let _ = fs::remove_dir_all(&rt, "tree_io_long");
    let long = long_path(alloc)?;
    let path = format!(in alloc; "tree_io_long/{long}")?;
    assert_eq!(rt;
        write(alloc, &mut tree, path.as_str(), "deep")?.as_str(),
        ""
    );
    let paths = list(alloc, &mut tree, "tree_io_long", 1)?;
    assert_eq!(rt; paths.as_str().trim_end(), long.as_str());
    Ok(())
}

#[test]
fn a_tree_of_the_system_reads_what_was_written(rt: HostRuntime) -> Result<(), Fail> {
    let alloc = rt.alloc();
    let mut tree = FileTree::new(&rt);
    let _ = fs::remove_dir_all(&rt, "tree_io_read");
    fs::create_dir(&rt, "tree_io_read")?;
    symlink(&rt, "text", "tree_io_read/link")?;
    symlink(&rt, "loop", "tree_io_read/loop")?;
    assert_eq!(rt;
        write(alloc, &mut tree, "tree_io_read/text", "short")?.as_str(),
        ""
    );
    for (path, max, want) in [
        ("tree_io_read/text", 5, "short"),
        ("tree_io_read/text", 4, "TooLong"),
        ("tree_io_read/link", 5, "short"),
        ("tree_io_read/none", 9, "Absent"),
        ("tree_io_read/none/none", 9, "Absent"),
        ("tree_io_read", 9, "Failed"),
        ("tree_io_read/text/e", 9, "Failed"),
        ("tree_io_read/loop", 9, "Failed"),
        ("/dev/null", 9, "Failed"),
    ] {
        assert_eq!(rt;
            read(alloc, &mut tree, path, max)?.as_str(),
            want,
            "at {path}"
        );
    }
    Ok(())
}

// What a tree reads of a pipe to which a text was written.
fn piped<R: Files>(rt: &R, alloc: Global, text: &str) -> Result<String, Fail> {
    let (reader, mut writer) = rt.pipe()?;
    writer.write_all(text.as_bytes())?;
    drop(writer);
    let path = format!(in alloc; "/proc/self/fd/{}", reader.as_raw_fd())?;
    read(alloc, &mut FileTree::new(rt), path.as_str(), 9)
}

#[test]
fn a_tree_of_the_system_reads_pipes_to_their_end(rt: HostRuntime) -> Result<(), Fail> {
    let alloc = rt.alloc();
    for (text, want) in [
        ("piped", "piped"),
        ("", "Failed"),
        ("longer text", "TooLong"),
    ] {
        assert_eq!(rt; piped(&rt, alloc, text)?.as_str(), want, "at {text}");
    }
    Ok(())
}

// Files of which no one may open one.
#[derive(Drop)]
struct Locked;

fn denied() -> io::Error {
    io::Error::from(ErrorKind::PermissionDenied)
}

impl Files for Locked {
    type File = File;

    type Dir = File;

    fn open_file(&self, _how: &OpenOptions, _path: &str) -> io::Result<File> {
        Err(denied())
    }

    fn open_dir(&self, _path: &str) -> io::Result<File> {
        Err(denied())
    }

    fn metadata(&self, path: &str) -> io::Result<Metadata> {
        match path {
            "seen" => Ok(Metadata::of_file(1)),
            _ => Err(denied()),
        }
    }

    fn symlink_metadata(&self, path: &str) -> io::Result<Metadata> {
        self.metadata(path)
    }

    fn copy(&self, _from: &str, _to: &str) -> io::Result<u64> {
        Err(denied())
    }

    fn rename(&self, _from: &str, _to: &str) -> io::Result<()> {
        Err(denied())
    }

    fn remove_file(&self, _path: &str) -> io::Result<()> {
        Err(denied())
    }

    fn create_dir(&self, _path: &str) -> io::Result<()> {
        Err(denied())
    }

    fn remove_dir(&self, _path: &str) -> io::Result<()> {
        Err(denied())
    }

    fn remove_dir_all<B: Allocator>(&self, _alloc: B, _path: &str) -> io::Result<()> {
        Err(denied())
    }
}

#[test]
fn what_may_not_be_opened_has_failed(rt: HostRuntime) -> Result<(), Fail> {
    let alloc = rt.alloc();
    let mut tree = FileTree::new(&Locked);
    for path in ["seen", "hidden"] {
        assert_eq!(rt; list(alloc, &mut tree, path, 9)?.as_str(), "Failed");
        assert_eq!(rt; read(alloc, &mut tree, path, 9)?.as_str(), "Failed");
        assert_eq!(rt; write(alloc, &mut tree, path, "text")?.as_str(), "Failed");
    }
    Ok(())
}

// Hands on at most so many bytes of a piece.
#[derive(Drop)]
struct Narrow {
    width: usize,
    to: PipeWriter,
}

impl Print for Narrow {
    fn print<D: Display + Drop>(&self, _value: D) -> io::Result<()> {
        Ok(())
    }

    fn println<D: Display + Drop>(&self, _value: D) -> io::Result<()> {
        Ok(())
    }

    fn write_all(&self, _bytes: &[u8]) -> io::Result<()> {
        Ok(())
    }

    fn write_some(&self, bytes: &[u8]) -> io::Result<usize> {
        let mut to = &self.to;
        to.write(&bytes[..bytes.len().min(self.width)])
    }
}

// Whether a stream took a text, and what arrived of it.
fn arrived(
    rt: &impl Files,
    alloc: Global,
    width: usize,
    text: &str,
) -> Result<(bool, String), Fail> {
    let (from, to) = rt.pipe()?;
    let taken = put_narrow(Narrow { width, to }, text);
    let from: PipeReader = from;
    Ok((taken, io::read_to_string(alloc, from)?))
}

fn put_narrow(narrow: Narrow, text: &str) -> bool {
    StreamSink::new(&narrow).put(text.as_bytes()).is_ok()
}

#[test]
fn a_stream_takes_text_piece_by_piece(rt: HostRuntime) -> Result<(), Fail> {
    let alloc = rt.alloc();
    StreamSink::new(&rt).put(b"to standard output\n")?;
    for (width, text, want, all) in [
        (2, "by pieces", true, "by pieces"),
        (99, "whole", true, "whole"),
        (0, "none", false, ""),
        (0, "", true, ""),
    ] {
        let (taken, got) = arrived(&rt, alloc, width, text)?;
        assert_eq!(rt; taken, want, "at {text}");
        assert_eq!(rt; got.as_str(), all, "at {text}");
    }
    Ok(())
}
