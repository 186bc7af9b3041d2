// The direct supertypes of all classes as a graph of numbers.
ghost use Rattle.std.specs.Prelude.{◌≡◌, ◌++◌, ◌<◌, IfOk, OnOk, [], ◌∷◌, length, map};
ghost use Rattle.std.specs.List.{filter_map};
ghost use Rattle.lib_table.specs.Library.{library as library_rows};
ghost use Rattle.lib_table.specs.Lookups.{class_named as library_class};
ghost use Rattle.class_pool.specs.bodies.Graph.{IsThere, above_class, above_library, graph, library_ids, number};
ghost use Rattle.class_pool.specs.Hierarchy.{classes_named};

use crate::ClassId;
use crate::library::library_names;
use crate::set::lookup::ClassesByName;
use class_model::Class;
use jv_base::{Items, M, Name, Text};
use lib_table::{LibId, lib_class, lib_interface, lib_super};
use std::alloc::Global;

/// The classes of the library in the order of their numbers.
pub(crate) fn library_of(alloc: Global) -> M<Items<LibId>>
    ensures { IfOk result (λ ids. ids ≡ library_ids) }
{
    let mut ids = Items::new(alloc);
    for name in library_names() {
        push_class(&mut ids, &Text::from_str(alloc, name)?)?;
    }
    Ok(ids)
}

fn push_class(ids: &mut Items<LibId>, name: &Name) -> M<()>
    ensures { OnOk result (ids.new ≡ ids.old ++ filter_map library_class (name.now ∷ [])) }
{
    if let Some(id) = lib_class(name) {
        ids.push(id)?;
    }
    Ok(())
}

/// The number of a class among those of the library and behind them those of the set.
pub(crate) fn number(library: &Items<LibId>, id: ClassId) -> usize
    requires library { library.now ≡ library_ids }
    requires there { IsThere id }
    ensures { result ≡ number id }
{
    match id {
        ClassId::Prog(number) => library.len() + number as usize,
        ClassId::Lib(id) => library_number(library.as_slice(), id),
    }
}

fn library_number(library: &[LibId], id: LibId) -> usize
    requires library { library.now ≡ library_ids }
    requires there { id < length library_rows }
    ensures { result ≡ id }
{
    let mut number = 0;
    for other in library {
        if *other == id {
            return number;
        }
        number += 1;
    }
    number
}

/// For each class the numbers of its direct supertypes.
pub(crate) fn graph_of(
    alloc: Global,
    classes: &ClassesByName,
    library: &Items<LibId>,
) -> M<Items<Items<usize>>>
    requires { library.now ≡ library_ids }
    ensures { IfOk result (λ needs. needs ≡ graph classes.now) }
{
    let mut needs = library_graph(alloc, library)?;
    for class in classes.classes.as_slice() {
        needs.push(above_class(alloc, classes, library, class)?)?;
    }
    Ok(needs)
}

fn library_graph(alloc: Global, library: &Items<LibId>) -> M<Items<Items<usize>>>
    requires { library.now ≡ library_ids }
    ensures { IfOk result (λ needs. needs ≡ map above_library library_ids) }
{
    let mut needs = Items::new(alloc);
    for id in library.as_slice() {
        needs.push(above_library(alloc, library, *id)?)?;
    }
    Ok(needs)
}

fn above_class(
    alloc: Global,
    classes: &ClassesByName,
    library: &Items<LibId>,
    class: &Class,
) -> M<Items<usize>>
    requires { library.now ≡ library_ids }
    ensures { IfOk result (λ numbers. numbers ≡ above_class classes.now class.now) }
{
    let mut numbers = Items::new(alloc);
    push_named(classes, library, &mut numbers, &class.super_name)?;
    for name in class.interfaces.as_slice() {
        push_named(classes, library, &mut numbers, name)?;
    }
    Ok(numbers)
}

fn push_named(
    classes: &ClassesByName,
    library: &Items<LibId>,
    numbers: &mut Items<usize>,
    name: &Name,
) -> M<()>
    requires { library.now ≡ library_ids }
    ensures { OnOk result (numbers.new ≡ numbers.old ++ map number (classes_named classes.now (name.now ∷ []))) }
{
    if let Some(id) = classes.find(name) {
        numbers.push(number(library, id))?;
    }
    Ok(())
}

fn above_library(alloc: Global, library: &Items<LibId>, id: LibId) -> M<Items<usize>>
    requires { library.now ≡ library_ids }
    ensures { IfOk result (λ numbers. numbers ≡ above_library id) }
{
    let mut numbers = Items::new(alloc);
    if let Some(above) = lib_super(id) {
        numbers.push(library_number(library.as_slice(), above))?;
    }
    let mut k = 0u32;
    while let Some(interface) = lib_interface(id, k) {
        numbers.push(library_number(library.as_slice(), interface))?;
        k += 1;
    }
    Ok(numbers)
}
