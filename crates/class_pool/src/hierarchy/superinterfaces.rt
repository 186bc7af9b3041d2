// The superinterfaces that each class has itself, as lists.
ghost use Rattle.std.specs.Prelude.{◌≡◌, ◌+◌, ◌++◌, ◌<◌, ℕ, false, true, [], ◌∷◌, length, set, IfOk, IsTrue, OnOk};
ghost use Rattle.std.specs.Prelude.{Some};
ghost use Rattle.std.specs.List.{All, filter_map, flat_map, list_all};
ghost use Rattle.lib_table.specs.Lookups.{interfaces_of};
ghost use Rattle.class_pool.specs.declared.id.ClassId.{ClassId};
ghost use Rattle.class_pool.specs.bodies.Filling.{AreFilled, IsFilling, IsOnce, Keeps, is_filled};
ghost use Rattle.class_pool.specs.bodies.Lists.{AreOwn, list_at};
ghost use Rattle.class_pool.specs.Ranks.{HasRanks};
ghost use Rattle.class_pool.specs.bodies.Graph.{library_ids};
ghost use Rattle.class_pool.specs.Hierarchy.{IsClass, classes_named, interfaces};
ghost use Rattle.class_pool.specs.bodies.Marked.{IsBelow};
ghost use Rattle.class_pool.specs.Walk.{each_once};

use crate::ClassId;
use crate::hierarchy::graph::number;
use crate::hierarchy::met::Met;
use crate::hierarchy::shared_lists::SharedLists;
use crate::hierarchy::supers::id_at;
use crate::set::lookup::ClassesByName;
use jv_base::{Items, M, Name};
use lib_table::{LibId, lib_interface};
use std::alloc::Global;

/// Lists of superinterfaces by the numbers of their classes, while they are made.
#[derive(Drop)]
pub(crate) struct Filling {
    lists: SharedLists,
    /// Whether a class has its list.
    filled: Vec<bool>,
    met: Met,
}

/// The lists are made in an order in which superinterfaces come first. Where one isn't found, as where the order is
/// another one, each class is looked at again.
pub(crate) fn superinterfaces_of(
    alloc: Global,
    classes: &ClassesByName,
    library: &Items<LibId>,
    order: &[usize],
) -> M<SharedLists>
    requires library { library.now ≡ library_ids }
    requires ranks { HasRanks classes.now }
    ensures { IfOk result (AreOwn classes.now) }
{
    let count = library.len() + classes.len() as usize;
    let mut filling = filling_of(alloc, count)?;
    fill_in_order(alloc, classes, library, &mut filling, order)?;
    for _ in 0..count + 1 {
        if is_full(filling.filled.as_slice()) {
            return Ok(filling.lists);
        }
        fill_each(alloc, classes, library, &mut filling)?;
    }
    Ok(filling.lists)
}

fn is_full(filled: &[bool]) -> bool
    ensures { IsTrue result → All (λ b. b ≡ true) filled.now }
{
    filled.iter().all(|b| *b)
}

fn filling_of(alloc: Global, count: usize) -> M<Filling>
    ensures lists { IfOk result (λ f. (length f.lists ≡ count) × All (λ ids. ids ≡ []) f.lists) }
    ensures filled { IfOk result (λ f. (length f.filled.items ≡ count) × All (λ b. b ≡ false) f.filled.items) }
    ensures met { IfOk result (λ f. f.met ≡ record { count = count; ids = [] }) }
{
    Ok(Filling {
        lists: SharedLists::new(alloc, count)?,
        filled: vec![in alloc; false; count]?,
        met: Met::new(alloc, count)?,
    })
}

fn fill_in_order(
    alloc: Global,
    classes: &ClassesByName,
    library: &Items<LibId>,
    filling: &mut Filling,
    order: &[usize],
) -> M<()>
    requires library { library.now ≡ library_ids }
    requires ranks { HasRanks classes.now }
    requires filling { IsFilling classes.now filling.old }
    ensures { OnOk result (IsFilling classes.now filling.new) }
{
    for place in order {
        if *place < filling.lists.len() {
            fill(alloc, classes, library, filling, &id_at(library, *place))?;
        }
    }
    Ok(())
}

/// Looks at each class once.
fn fill_each(
    alloc: Global,
    classes: &ClassesByName,
    library: &Items<LibId>,
    filling: &mut Filling,
) -> M<()>
    requires library { library.now ≡ library_ids }
    requires ranks { HasRanks classes.now }
    requires filling { IsFilling classes.now filling.old }
    ensures filling { OnOk result (IsFilling classes.now filling.new) }
    ensures keeps { OnOk result (Keeps filling.old.filled.items filling.new.filled.items) }
    ensures more { OnOk result ((a : ClassId) → IsClass classes.now a
        → AreFilled filling.old.filled.items (interfaces classes.now a)
        → is_filled filling.new.filled.items a ≡ true) }
{
    for place in 0..filling.lists.len() {
        fill(alloc, classes, library, filling, &id_at(library, place))?;
    }
    Ok(())
}

/// Gives a class its list where its direct superinterfaces have theirs.
fn fill(
    alloc: Global,
    classes: &ClassesByName,
    library: &Items<LibId>,
    filling: &mut Filling,
    id: &ClassId,
) -> M<()>
    requires library { library.now ≡ library_ids }
    requires ranks { HasRanks classes.now }
    requires there { IsClass classes.now id.now }
    requires filling { IsFilling classes.now filling.old }
    ensures filling { OnOk result (IsFilling classes.now filling.new) }
    ensures keeps { OnOk result (Keeps filling.old.filled.items filling.new.filled.items) }
    ensures more { OnOk result (AreFilled filling.old.filled.items (interfaces classes.now id.now)
        → is_filled filling.new.filled.items id.now ≡ true) }
{
    let place = number(library, *id);
    if filling.filled[place] {
        return Ok(());
    }
    let interfaces = interfaces_of(alloc, classes, id)?;
    if !are_filled(library, filling.filled.as_slice(), interfaces.as_slice()) {
        return Ok(());
    }
    put_list(alloc, library, filling, place, interfaces.as_slice())?;
    filling.filled[place] = true;
    Ok(())
}

/// Gives a class its list: these interfaces, each with its list behind it. That of one interface is shared.
fn put_list(
    alloc: Global,
    library: &Items<LibId>,
    filling: &mut Filling,
    place: usize,
    interfaces: &[ClassId],
) -> M<()>
    requires library { library.now ≡ library_ids }
    requires place { place < length filling.old.lists }
    requires count { length filling.old.lists ≡ filling.old.met.count }
    requires none { filling.old.met.ids ≡ [] }
    requires lists { All (All (IsBelow filling.old.met.count)) filling.old.lists }
    requires below { All (IsBelow filling.old.met.count) interfaces.now }
    requires once { All (λ i. IsOnce (i ∷ list_at filling.old.lists i)) interfaces.now }
    ensures filled { filling.new.filled ≡ filling.old.filled }
    ensures count { filling.new.met.count ≡ filling.old.met.count }
    ensures none { OnOk result (filling.new.met.ids ≡ []) }
    ensures list { OnOk result (filling.new.lists ≡ set filling.old.lists place
        (each_once [] (flat_map (λ i. i ∷ list_at filling.old.lists i) interfaces.now))) }
{
    if let [above] = interfaces {
        let behind = number(library, *above);
        return filling.lists.put_before(alloc, place, above, behind);
    }
    walk(library, &filling.lists, &mut filling.met, interfaces)?;
    let ids = filling.met.take(alloc, library);
    filling.lists.put(place, ids)
}

fn are_filled(library: &Items<LibId>, filled: &[bool], ids: &[ClassId]) -> bool
    requires library { library.now ≡ library_ids }
    requires below { All (IsBelow (length filled.now)) ids.now }
    ensures { result ≡ list_all (is_filled filled.now) ids.now }
{
    for id in ids {
        if !filled[number(library, *id)] {
            return false;
        }
    }
    true
}

/// Meets each of these interfaces, and after it those of its list.
fn walk(library: &Items<LibId>, lists: &SharedLists, met: &mut Met, interfaces: &[ClassId]) -> M<()>
    requires library { library.now ≡ library_ids }
    requires count { length lists.now ≡ met.old.count }
    requires lists { All (All (IsBelow met.old.count)) lists.now }
    requires below { All (IsBelow met.old.count) interfaces.now }
    ensures count { met.new.count ≡ met.old.count }
    ensures ids { OnOk result (met.new.ids ≡ met.old.ids
        ++ each_once met.old.ids (flat_map (λ i. i ∷ list_at lists.now i) interfaces.now)) }
{
    for id in interfaces {
        met.meet(library, id)?;
        met.meet_all(library, lists.at(number(library, *id)))?;
    }
    Ok(())
}

/// The direct superinterfaces of a class, in their order.
fn interfaces_of(alloc: Global, classes: &ClassesByName, id: &ClassId) -> M<Items<ClassId>>
    requires { IsClass classes.now id.now }
    ensures { IfOk result (λ ids. ids ≡ interfaces classes.now id.now) }
{
    match *id {
        ClassId::Prog(number) => {
            classes_named(alloc, classes, classes.class(number).interfaces.as_slice())
        }
        ClassId::Lib(id) => library_interfaces(alloc, id),
    }
}

fn classes_named(alloc: Global, classes: &ClassesByName, names: &[Name]) -> M<Items<ClassId>>
    ensures { IfOk result (λ ids. ids ≡ classes_named classes.now names.now) }
{
    let mut ids = Items::new(alloc);
    for name in names {
        push_named(classes, &mut ids, name)?;
    }
    Ok(ids)
}

fn push_named(classes: &ClassesByName, ids: &mut Items<ClassId>, name: &Name) -> M<()>
    ensures { OnOk result (ids.new ≡ ids.old ++ classes_named classes.now (name.now ∷ [])) }
{
    if let Some(id) = classes.find(name) {
        ids.push(id)?;
    }
    Ok(())
}

fn library_interfaces(alloc: Global, id: LibId) -> M<Items<ClassId>>
    ensures { IfOk result (λ ids. ids ≡ filter_map (λ i. Some (ClassId.Lib i)) (interfaces_of id)) }
{
    let mut ids = Items::new(alloc);
    let mut k = 0u32;
    while let Some(interface) = lib_interface(id, k) {
        ids.push(ClassId::Lib(interface))?;
        k += 1;
    }
    Ok(ids)
}
