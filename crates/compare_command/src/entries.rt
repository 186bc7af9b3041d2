// What stands for an entry in an output (ProGuard manual, "ReTrace", the mapping file).
ghost use Rattle.std.specs.Prelude.{◌≡◌, IfOk};
ghost use Rattle.compare_command.specs.NewEntry.{is_line_of, named_in, new_entry, new_key, new_name};

use crate::types::renamed_method_type;
use class_pool::ClassSet;
use jv_base::{M, Name, method_text};
use mapping_file::MapMethod;
use new_names::NewNames;
use run_command::Entry;
use run_heap::Key;
use set_program::is_startable;
use std::alloc::Global;

/// The method of an output that an entry is under new names, if a run may begin with it.
pub(crate) fn new_entry(
    alloc: Global,
    names: &NewNames<'_>,
    output: &ClassSet,
    entry: &Entry,
) -> M<Option<Key>>
    ensures { IfOk result (λ key. key ≡ new_entry names.now output.now entry.now) }
{
    let key = new_key(alloc, names, entry)?;
    if is_startable(alloc, output, &key)? {
        Ok(Some(key))
    } else {
        Ok(None)
    }
}

fn new_key(alloc: Global, names: &NewNames<'_>, entry: &Entry) -> M<Key>
    ensures { IfOk result (λ key. key ≡ new_key names.now entry.now) }
{
    let ty = renamed_method_type(alloc, names, &entry.ty)?;
    let descriptor = method_text(alloc, &ty)?;
    let name = new_name(alloc, names, &entry.key)?;
    let class = names.class(entry.key.class()).clone()?;
    Ok(Key::new(class, name, descriptor))
}

fn new_name(alloc: Global, names: &NewNames<'_>, key: &Key) -> M<Name>
    ensures { IfOk result (λ name. name ≡ new_name names.now key.now) }
{
    match names.class_line(key.class()) {
        Some(line) => named_in(alloc, key, line.methods.as_slice()),
        None => Ok(key.name().clone()?),
    }
}

/// The new name of a method by the lines of its class.
fn named_in(alloc: Global, key: &Key, lines: &[MapMethod]) -> M<Name>
    ensures { IfOk result (λ name. name ≡ named_in key.now lines.now) }
{
    for line in lines {
        if is_line_of(alloc, key, line)? {
            return Ok(line.new.clone()?);
        }
    }
    Ok(key.name().clone()?)
}

fn is_line_of(alloc: Global, key: &Key, line: &MapMethod) -> M<bool>
    ensures { IfOk result (λ is. is ≡ is_line_of key.now line.now) }
{
    if line.old != *key.name() {
        return Ok(false);
    }
    let descriptor = method_text(alloc, &line.ty)?;
    Ok(descriptor == *key.descriptor())
}
