// Files in memory.
ghost use Rattle.std.specs.Prelude.{◌≡◌, [], ◌∷◌, ◌++◌, ◌↔◌, ◌≤◌, Some, IsTrue, length, string_bytes, OnOk, OnErr};
ghost use Rattle.std.specs.Prelude.{IfOk, IsErrOf};
ghost use Rattle.std.specs.Option.{option_copied};
ghost use Rattle.std.specs.FinMap as map;
ghost use Rattle.tree_io.specs.declared.event.Event.TheVariants.{Listed, Read, Wrote};
ghost use Rattle.tree_io.specs.Below.{front_of, rest_after, paths_below, IsAscending};
ghost use Rattle.tree_io.specs.Calls.{called, fails_next};
ghost use Rattle.tree_io.specs.Runs.{Tells};
ghost use Rattle.tree_io.specs.Tree.{due_list, due_read, Lists, ReadsFile};
ghost use Rattle.tree_io.specs.Memory.{files_of_entries, overlaid, tree_of, Writes};

use crate::calls::Calls;
use crate::event::Note;
use crate::log::Log;
use crate::{FileAt, ListFault, ReadFault, Tree, WriteFault};
use jv_base::{Bytes, Items, M, Text};
use std::alloc::{AllocError, Global};
use std::collections::BTreeMap;
use std::marker::Model;

/// A tree whose files are in memory. Contracts see its files, its counts of calls and the calls.
///
/// Each call of `list`, `read` and `write` counts, whatever it answers, from 0 on; at 2^64 - 1 the
/// count stands still. A call fails just where its number is named. A write that fails leaves the
/// first half of the bytes, rounded down, at the path; where memory for it is wanting it answers
/// that, and no file has changed.
#[derive(Drop)]
pub struct MemoryTree {
    files: BTreeMap<Text, Bytes>,
    calls: Calls,
    log: Log,
}

impl Model for MemoryTree {
    ghost use Rattle.tree_io.specs.Memory.{MemoryFiles, memory_files_code, files_of_entries};

    ghost Value = { MemoryFiles };

    ghost coded = { memory_files_code };

    ghost view = { λ t. record { files = files_of_entries t.files.entries; counts = t.calls; log = t.log.events } };
}

impl MemoryTree {
    /// A tree of these files, whose calls of these numbers fail, counted from 0.
    ///
    /// Paths are distinct; of two files at one path the later one stands.
    pub fn new(alloc: Global, files: Items<FileAt>, fails: Items<u64>) -> M<Self>
        ensures { IfOk result (λ tree. tree ≡ tree_of files fails) }
    {
        Ok(MemoryTree {
            files: overlaid(alloc, files)?,
            calls: Calls::new(fails),
            log: Log::new(),
        })
    }

    /// A copy of a file's bytes, if there is one at the path. It isn't counted as a call.
    pub fn file(&self, alloc: Global, path: &Text) -> M<Option<Bytes>>
        ensures { IfOk result (λ bytes. bytes ≡ map.get self.now.files path.now) }
    {
        match at_path(&self.files, path) {
            Some(bytes) => Ok(Some(copy_of(alloc, bytes.as_slice())?)),
            None => Ok(None),
        }
    }
}

// A copy of bytes.
fn copy_of(alloc: Global, bytes: &[u8]) -> Result<Bytes, AllocError>
    ensures { IfOk result (λ copy. copy ≡ bytes.now) }
{
    Ok(Items::from_vec(bytes.to_vec(alloc)?))
}

// The files of a list, put one after the other.
fn overlaid(alloc: Global, files: Items<FileAt>) -> Result<BTreeMap<Text, Bytes>, AllocError>
    ensures { IfOk result (λ kept. files_of_entries kept.entries ≡ overlaid map.empty files) }
{
    let mut kept = BTreeMap::new(alloc);
    for file in files.into_vec() {
        put(&mut kept, file.path, file.bytes)?;
    }
    Ok(kept)
}

// The bytes at a path.
fn at_path<'a>(files: &'a BTreeMap<Text, Bytes>, path: &Text) -> Option<&'a Bytes>
    ensures { option_copied result ≡ map.get (files_of_entries files.now.entries) path.now }
{
    files.get(path)
}

// Puts bytes at a path, in place of any before.
fn put(files: &mut BTreeMap<Text, Bytes>, path: Text, bytes: Bytes) -> Result<(), AllocError>
    ensures ok { OnOk result (files_of_entries files.new.entries
        ≡ map.insert (files_of_entries files.old.entries) path bytes) }
    ensures err { OnErr result (files_of_entries files.new.entries ≡ files_of_entries files.old.entries) }
{
    files.insert(path, bytes)?;
    Ok(())
}

// Puts a copy of bytes at a path.
fn put_copy(
    alloc: Global,
    files: &mut BTreeMap<Text, Bytes>,
    path: &Text,
    bytes: &[u8],
) -> Result<(), AllocError>
    ensures ok { OnOk result (files_of_entries files.new.entries
        ≡ map.insert (files_of_entries files.old.entries) path.now bytes.now) }
    ensures err { OnErr result (files_of_entries files.new.entries ≡ files_of_entries files.old.entries) }
{
    put(files, path.clone()?, copy_of(alloc, bytes)?)
}

// What a path has after a front.
fn rest_after<'a>(front: &str, path: &'a str) -> Option<&'a str>
    ensures { option_copied result ≡ rest_after front.now path.now }
{
    path.strip_prefix(front)
}

// The directory and the slash after it.
fn front_of(alloc: Global, dir: &Text) -> Result<String, AllocError>
    ensures { IfOk result (λ front. string_bytes front ≡ front_of dir.now) }
{
    let dir = dir.as_str();
    format!(in alloc; "{dir}/")
}

// The paths of the files below a directory.
fn paths_below(
    alloc: Global,
    files: &BTreeMap<Text, Bytes>,
    dir: &Text,
) -> Result<Vec<Text>, AllocError>
    ensures all { IfOk result (λ paths. paths.items
        ≡ paths_below dir.now (map.keys (files_of_entries files.now.entries))) }
    ensures ascending { IfOk result (λ paths. IsAscending paths.items) }
{
    let front = front_of(alloc, dir)?;
    let mut paths = Vec::new(alloc);
    for path in files.keys() {
        if let Some(rest) = rest_after(front.as_str(), path.as_str()) {
            paths.push(Text::from_str(alloc, rest)?)?;
        }
    }
    Ok(paths)
}

// What `list` answers.
fn listed(
    alloc: Global,
    files: &BTreeMap<Text, Bytes>,
    calls: &mut Calls,
    dir: &Text,
    max: u32,
) -> Result<Items<Text>, ListFault>
    ensures named { IsErrOf result ListFault.Failed ↔ IsTrue (fails_next calls.old) }
    ensures after { calls.new ≡ called calls.old }
    ensures files_of_entries { Lists result (due_list (files_of_entries files.now.entries) dir.now max) }
    ensures count { IfOk result (λ paths. length paths ≤ max) }
    ensures ascending { IfOk result (λ paths. IsAscending paths) }
{
    if calls.begin() {
        calls.fail();
        return Err(ListFault::Failed);
    }
    let paths = paths_below(alloc, files, dir)?;
    if paths.len() > max as usize {
        return Err(ListFault::TooMany);
    }
    Ok(Items::from_vec(paths))
}

// What `read` answers.
fn found(
    alloc: Global,
    files: &BTreeMap<Text, Bytes>,
    calls: &mut Calls,
    path: &Text,
    max: u64,
) -> Result<Bytes, ReadFault>
    ensures named { IsErrOf result ReadFault.Failed ↔ IsTrue (fails_next calls.old) }
    ensures after { calls.new ≡ called calls.old }
    ensures files_of_entries { ReadsFile result (due_read (map.get (files_of_entries files.now.entries) path.now) max) }
    ensures length { IfOk result (λ bytes. length bytes ≤ max) }
{
    if calls.begin() {
        calls.fail();
        return Err(ReadFault::Failed);
    }
    let Some(bytes) = at_path(files, path) else {
        return Err(ReadFault::Absent);
    };
    if bytes.len() as u64 > max {
        return Err(ReadFault::TooLong);
    }
    Ok(copy_of(alloc, bytes.as_slice())?)
}

// What `write` answers.
fn put_or_fail(
    alloc: Global,
    files: &mut BTreeMap<Text, Bytes>,
    calls: &mut Calls,
    path: &Text,
    bytes: &[u8],
) -> Result<(), WriteFault>
    ensures cases { Writes result path.now bytes.now (files_of_entries files.old.entries) calls.old
        (files_of_entries files.new.entries) calls.new }
{
    let fails = calls.begin();
    let kept = if fails {
        &bytes[..bytes.len() / 2]
    } else {
        bytes
    };
    put_copy(alloc, files, path, kept)?;
    if fails {
        calls.fail();
        return Err(WriteFault::Failed);
    }
    Ok(())
}

impl Tree for MemoryTree {
    ghost files = { λ t. Some t.files };

    ghost faults = { λ t. t.counts.faults };

    ghost log = { λ t. t.log };

    fn list(&mut self, alloc: Global, dir: &Text, max: u32) -> Result<Items<Text>, ListFault>
        ensures named { IsErrOf result ListFault.Failed ↔ IsTrue (fails_next self.old.counts) }
        ensures after { self.new ≡ record self.old {
          counts = called self.old.counts;
          log = self.old.log
              ++ Listed dir.now max result ∷ [];
        } }
        ensures fits { Tells (Some self.old.files) (Some self.new.files) (Listed dir.now max result ∷ []) }
        ensures files_of_entries { Lists result (due_list self.old.files dir.now max) }
        ensures count { IfOk result (λ paths. length paths ≤ max) }
        ensures ascending { IfOk result (λ paths. IsAscending paths) }
    {
        let answer = listed(alloc, &self.files, &mut self.calls, dir, max);
        self.log = self.log.then(&Note::Listed(dir, max, &answer));
        answer
    }

    fn read(&mut self, alloc: Global, path: &Text, max: u64) -> Result<Bytes, ReadFault>
        ensures named { IsErrOf result ReadFault.Failed ↔ IsTrue (fails_next self.old.counts) }
        ensures after { self.new ≡ record self.old {
          counts = called self.old.counts;
          log = self.old.log
              ++ Read path.now max result ∷ [];
        } }
        ensures fits { Tells (Some self.old.files) (Some self.new.files) (Read path.now max result ∷ []) }
        ensures files_of_entries { ReadsFile result (due_read (map.get self.old.files path.now) max) }
        ensures length { IfOk result (λ bytes. length bytes ≤ max) }
    {
        let answer = found(alloc, &self.files, &mut self.calls, path, max);
        self.log = self.log.then(&Note::Read(path, max, &answer));
        answer
    }

    fn write(&mut self, alloc: Global, path: &Text, bytes: &[u8]) -> Result<(), WriteFault>
        ensures log { self.new.log ≡ self.old.log ++ Wrote path.now bytes.now result ∷ [] }
        ensures fits { Tells (Some self.old.files) (Some self.new.files) (Wrote path.now bytes.now result ∷ []) }
        ensures cases { Writes result path.now bytes.now self.old.files self.old.counts self.new.files self.new.counts }
    {
        let answer = put_or_fail(alloc, &mut self.files, &mut self.calls, path, bytes);
        self.log = self.log.then(&Note::Wrote(path, bytes, &answer));
        answer
    }
}
