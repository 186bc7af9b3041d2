// The files of the generated classes.
ghost use Rattle.std.specs.Prelude.{◌≡◌, ◌<◌, ◌≤◌, [], IfOk, OnOk, map};
ghost use Rattle.class_model.specs.CanonicalClass.{layout};
ghost use Rattle.gen_classes.specs.Generated.{caller_class, classes, file_of, generated, interface_class, plain_class};
ghost use Rattle.gen_classes.specs.Generated.{put_file, put_files};
ghost use Rattle.gen_classes.specs.Laws.{CanBeWritten};

use crate::classes::{caller_class, interface_class, plain_class};
use crate::generated_can_be_written;
use class_model::Class;
use class_write::write_class;
use jv_base::{Bytes, Items, M, Or, OutOfMemory, Text};
use std::alloc::Global;
use std::collections::BTreeMap;
use tree_io::FileAt;

/// The files of a set of 2n + 1 classes, in the order of their paths, each in the canonical spelling of `write_class`.
///
/// `g/I` is an interface with one method, `v`. For each number below n there are two classes: `g/C` with the number
/// behind, which implements the interface, and whose `f` calls `v` of a new object of its own and `f` of two others, so
/// that from `g/C0` all are reached; and `g/D` with the number behind, which nothing calls.
pub fn generate(alloc: Global, n: u32) -> M<Items<FileAt>>
    requires { n ≤ 4000 }
    ensures { IfOk result (λ files. files ≡ generated n) }
{
    let placed = placed(alloc, n)?;
    let mut files = Items::new(alloc);
    for file in placed.into_values() {
        files.push(file)?;
    }
    Ok(files)
}

/// Each file at its path.
fn placed(alloc: Global, n: u32) -> M<BTreeMap<Text, FileAt>>
    requires { n ≤ 4000 }
    ensures { IfOk result (λ made. made.entries ≡ put_files [] (map file_of (classes n))) }
{
    let mut made = BTreeMap::new(alloc);
    place_interface(alloc, &mut made)?;
    for number in 0..n {
        place_pair(alloc, &mut made, n, number)?;
    }
    Ok(made)
}

/// Puts the file of the interface at its path.
fn place_interface(alloc: Global, made: &mut BTreeMap<Text, FileAt>) -> M<()>
    ensures { OnOk result (made.new.entries ≡ put_file made.old.entries (file_of interface_class)) }
{
    generated_can_be_written();
    let class = interface_class(alloc)?;
    place(alloc, made, class)
}

/// Puts the files of both classes with a number at their paths.
fn place_pair(alloc: Global, made: &mut BTreeMap<Text, FileAt>, n: u32, number: u32) -> M<()>
    requires few { n ≤ 4000 }
    requires below { number < n }
    ensures { OnOk result (made.new.entries ≡ put_file (put_file made.old.entries (file_of (caller_class n number)))
        (file_of (plain_class number))) }
{
    place_caller(alloc, made, n, number)?;
    place_plain(alloc, made, n, number)
}

fn place_caller(alloc: Global, made: &mut BTreeMap<Text, FileAt>, n: u32, number: u32) -> M<()>
    requires few { n ≤ 4000 }
    requires below { number < n }
    ensures { OnOk result (made.new.entries ≡ put_file made.old.entries (file_of (caller_class n number))) }
{
    generated_can_be_written();
    let class = caller_class(alloc, n, number)?;
    place(alloc, made, class)
}

fn place_plain(alloc: Global, made: &mut BTreeMap<Text, FileAt>, n: u32, number: u32) -> M<()>
    requires few { n ≤ 4000 }
    requires below { number < n }
    ensures { OnOk result (made.new.entries ≡ put_file made.old.entries (file_of (plain_class number))) }
{
    generated_can_be_written();
    let class = plain_class(alloc, number)?;
    place(alloc, made, class)
}

/// Puts the file of a class at its path.
fn place(alloc: Global, made: &mut BTreeMap<Text, FileAt>, class: Class) -> M<()>
    requires { CanBeWritten class }
    ensures { OnOk result (made.new.entries ≡ put_file made.old.entries (file_of class)) }
{
    let file = file_of(alloc, &class)?;
    let path = file.path.clone()?;
    made.insert(path, file)?;
    Ok(())
}

/// The file of a class.
fn file_of(alloc: Global, class: &Class) -> M<FileAt>
    requires { CanBeWritten class.now }
    ensures { IfOk result (λ file. file ≡ file_of class.now) }
{
    let name = class.name.as_str();
    let path = Text::from_string(alloc, format!(in alloc; "{name}.class")?)?;
    let bytes = bytes_of(alloc, class)?;
    Ok(FileAt { path, bytes })
}

/// The canonical spelling of a class, which passes no limit.
#[tactic(auto, using(crate::proofs::Placing::written_is))]
fn bytes_of(alloc: Global, class: &Class) -> M<Bytes>
    requires { CanBeWritten class.now }
    ensures { IfOk result (λ bytes. bytes ≡ layout class.now) }
{
    match write_class(alloc, class) {
        Ok(bytes) => Ok(bytes),
        Err(Or::OutOfMemory) => Err(OutOfMemory),
        Err(Or::Fault(_)) => unreachable!(),
    }
}
