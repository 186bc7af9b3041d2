// The methods that marks choose of the classes of a set.
ghost use Rattle.std.specs.Prelude.{◌+◌, ◌<◌, ◌∷◌, [], OnOk, if◌then◌else◌, length};
ghost use Rattle.jv_base.specs.Types as descriptor;
ghost use Rattle.class_rename.specs.Names.{is_same_method};
ghost use Rattle.rename_map.specs.Fixed.{methods_of_each, named_marked};
ghost use Rattle.rename_map.specs.bodies.Adding.{Adds};

use crate::gathering::{is_marked, row_of};
use class_model::{Class, Method};
use class_pool::ClassSet;
use jv_base::{Items, M, Name, Text, method_text};
use key_table::KeySet;
use std::alloc::Global;

/// Adds the marked methods of each class, by their names and descriptors.
pub(crate) fn gather_methods(
    alloc: Global,
    input: &ClassSet,
    rows: &[Items<bool>],
    methods: &mut KeySet<(Name, Text)>,
) -> M<()>
    ensures { OnOk result (Adds is_same_method methods.old (methods_of_each rows.now input.now) methods.new) }
{
    for number in 0..input.len() {
        add_methods(alloc, row_of(rows, number), input.class(number), methods)?;
    }
    Ok(())
}

/// Adds the marked methods of a class; their items stand behind those of its fields.
fn add_methods(
    alloc: Global,
    row: &[bool],
    class: &Class,
    methods: &mut KeySet<(Name, Text)>,
) -> M<()>
    requires { length class.now.fields + length class.now.methods < 4294967295 }
    ensures { OnOk result (Adds is_same_method methods.old (named_marked row.now class.now) methods.new) }
{
    let mut item = 1 + class.fields.len();
    for method in class.methods.as_slice() {
        let is_chosen = is_marked(row, item);
        add_if(alloc, method, is_chosen, methods)?;
        item += 1;
    }
    Ok(())
}

/// Adds a method, if it is chosen.
#[tactic(auto, using(crate::proofs::Added::adds_none))]
fn add_if(
    alloc: Global,
    method: &Method,
    is_chosen: bool,
    methods: &mut KeySet<(Name, Text)>,
) -> M<()>
    ensures { OnOk result (Adds is_same_method methods.old
        (if is_chosen then (method.now.name, descriptor.method_text method.now.ty) ∷ [] else []) methods.new) }
{
    if is_chosen {
        add_method(alloc, method, methods)
    } else {
        Ok(())
    }
}

#[tactic(auto, using(crate::proofs::Added::adds_one_method))]
fn add_method(alloc: Global, method: &Method, methods: &mut KeySet<(Name, Text)>) -> M<()>
    ensures { OnOk result (Adds is_same_method methods.old
        ((method.now.name, descriptor.method_text method.now.ty) ∷ []) methods.new) }
{
    let name = method.name.clone()?;
    let descriptor = method_text(alloc, &method.ty)?;
    methods.insert((name, descriptor))?;
    Ok(())
}
