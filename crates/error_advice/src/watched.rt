// A tree that is listened to.
ghost use Rattle.std.specs.Prelude.{◌≡◌};

use jv_base::{Bytes, Items, Text};
use std::alloc::Global;
use tree_io::{ListFault, ReadFault, Tree, WriteFault};

/// A call at which a tree's device failed, with its path.
#[derive(Drop)]
pub enum Failing {
    Listing(Text),
    Reading(Text),
    Writing(Text),
}

/// Hands calls on, and keeps what a user may have to be told of them, as far as there is memory for it.
#[derive(Drop)]
pub struct Watched<T> {
    tree: T,
    /// The last call at which the device failed.
    pub(crate) failed: Option<Failing>,
    /// The files that were read, in order, but those whose names end in `.class`.
    pub(crate) texts: Items<Text>,
    /// The last of them that begins with the mark of UTF-8, EF BB BF.
    pub(crate) marked: Option<Text>,
    /// Whether a file was read whose name ends in `.class`.
    pub(crate) has_classes: bool,
}

impl<T: Tree> Watched<T> {
    /// A tree that hands on to another one.
    pub fn new(alloc: Global, tree: T) -> Self {
        Watched {
            tree,
            failed: None,
            texts: Items::new(alloc),
            marked: None,
            has_classes: false,
        }
    }

    // Keeps that a file was read.
    fn note(&mut self, path: &Text, bytes: &Bytes)
        ensures { self.new.tree ≡ self.old.tree }
    {
        if path.as_str().ends_with(".class") {
            self.has_classes = true;
            return;
        }
        if bytes.as_slice().starts_with(b"\xef\xbb\xbf") {
            self.marked = path.clone().ok();
        }
        if let Ok(path) = path.clone() {
            let _ = self.texts.push(path);
        }
    }
}

impl<T: Tree> Tree for Watched<T> {
    ghost files = { λ w. T.files w.tree };

    ghost faults = { λ w. T.faults w.tree };

    ghost log = { λ w. T.log w.tree };

    fn list(&mut self, alloc: Global, dir: &Text, max: u32) -> Result<Items<Text>, ListFault> {
        let answer = self.tree.list(alloc, dir, max);
        if matches!(answer, Err(ListFault::Failed)) {
            self.failed = dir.clone().ok().map(Failing::Listing);
        }
        answer
    }

    fn read(&mut self, alloc: Global, path: &Text, max: u64) -> Result<Bytes, ReadFault> {
        let answer = self.tree.read(alloc, path, max);
        match &answer {
            Ok(bytes) => self.note(path, bytes),
            Err(ReadFault::Failed) => self.failed = path.clone().ok().map(Failing::Reading),
            Err(_) => {}
        }
        answer
    }

    fn write(&mut self, alloc: Global, path: &Text, bytes: &[u8]) -> Result<(), WriteFault> {
        let answer = self.tree.write(alloc, path, bytes);
        if matches!(answer, Err(WriteFault::Failed)) {
            self.failed = path.clone().ok().map(Failing::Writing);
        }
        answer
    }
}
