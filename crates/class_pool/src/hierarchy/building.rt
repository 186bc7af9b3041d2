// A set, made from files.
ghost use Rattle.std.specs.Prelude.{◌≡◌, ◌<◌, IfOk, codes, map};
ghost use Rattle.std.specs.List.{AllZip};
ghost use Rattle.class_pool.specs.bodies.ByName.{IsIndexOf};
ghost use Rattle.class_pool.specs.Count.{item_count};
ghost use Rattle.class_pool.specs.bodies.Cycles.{PassesHierarchy, PassesNames};
ghost use Rattle.class_pool.specs.bodies.Descriptors.{method_texts};
ghost use Rattle.class_pool.specs.Faults.{Ascends, Builds, classes_of};
ghost use Rattle.class_pool.specs.bodies.Faults.{NamesDiffer};
ghost use Rattle.class_pool.specs.bodies.Graph.{library_ids};
ghost use Rattle.class_pool.specs.Hierarchy.{class_named};
ghost use Rattle.class_pool.specs.bodies.Lists.{AreOwn};
ghost use Rattle.class_pool.specs.Ranks.{HasObject, HasRanks};
ghost use Rattle.class_pool.specs.bodies.Tables.{AreMembers, AreTables, IsAbove};

use crate::hierarchy::cycles::check_cycles;
use crate::hierarchy::graph::{graph_of, library_of};
use crate::hierarchy::rounds::{check_names, check_supertypes};
use crate::hierarchy::shared_lists::SharedLists;
use crate::hierarchy::superclasses::superclasses_of;
use crate::hierarchy::superinterfaces::superinterfaces_of;
use crate::set::descriptors::descriptors_of;
use crate::set::lookup::ClassesByName;
use crate::set::members::MemberIndex;
use crate::set::notes::MemberNotes;
use crate::set::order::order_of;
use crate::{ClassId, ClassSet, NamedClass, PoolFault};
use class_model::Class;
use jv_base::{Items, M, Or, Text};
use lib_table::LibId;
use std::alloc::Global;

/// The set of some classes, in the order of their paths. The paths ascend, and the classes and their members are fewer
/// than 2^32 - 1.
pub fn build(alloc: Global, files: Items<NamedClass>) -> Result<ClassSet, Or<PoolFault>>
    requires ascend { Ascends files }
    requires few { item_count (classes_of files) < 4294967295 }
    ensures { Builds result files }
{
    let classes = named_classes(alloc, files)?;
    check_hierarchy(alloc, &classes)?;
    Ok(set_of(alloc, classes)?)
}

/// The classes of the files, after the first round of tests.
fn named_classes(alloc: Global, files: Items<NamedClass>) -> Result<ClassesByName, Or<PoolFault>>
    requires ascend { Ascends files }
    requires few { item_count (classes_of files) < 4294967295 }
    ensures { PassesNames files result }
{
    check_names(&files)?;
    Ok(classes_by_name(alloc, files)?)
}

fn classes_by_name(alloc: Global, files: Items<NamedClass>) -> M<ClassesByName>
    requires differ { NamesDiffer (classes_of files) }
    requires few { item_count (classes_of files) < 4294967295 }
    ensures { IfOk result (λ classes. classes ≡ classes_of files) }
{
    let classes = take_classes(alloc, files)?;
    ClassesByName::of(alloc, classes)
}

/// The second and the third round of tests.
fn check_hierarchy(alloc: Global, classes: &ClassesByName) -> Result<(), Or<PoolFault>>
    ensures { PassesHierarchy classes.now result }
{
    check_supertypes(classes)?;
    check_cycles(alloc, classes)
}

fn take_classes(alloc: Global, files: Items<NamedClass>) -> M<Items<Class>>
    ensures { IfOk result (λ classes. classes ≡ classes_of files) }
{
    let mut classes = Items::new(alloc);
    for file in files.into_vec() {
        let NamedClass { class, .. } = file;
        classes.push(class)?;
    }
    Ok(classes)
}

/// What a set tells of its classes.
#[derive(Drop)]
struct Tables {
    above: Above,
    superclasses: Items<Option<ClassId>>,
    members: MemberTables,
    object: Option<ClassId>,
    notes: MemberNotes,
}

/// The supertypes of classes, those of the library first.
#[derive(Drop)]
struct Above {
    library: Items<LibId>,
    superinterfaces: SharedLists,
}

/// For each class of a set how its members are found, and the descriptors of its methods.
#[derive(Drop)]
struct MemberTables {
    indexes: Items<MemberIndex>,
    descriptors: Items<Items<Text>>,
}

fn set_of(alloc: Global, classes: ClassesByName) -> M<ClassSet>
    requires ranks { HasRanks classes }
    requires object { HasObject classes }
    ensures { IfOk result (λ set. set ≡ classes) }
{
    let tables = tables_of(alloc, &classes)?;
    Ok(joined(classes, tables))
}

fn joined(classes: ClassesByName, tables: Tables) -> ClassSet
    requires ranks { HasRanks classes }
    requires object { HasObject classes }
    requires tables { AreTables classes tables }
    ensures { result ≡ classes }
{
    let Tables {
        above,
        superclasses,
        members,
        object,
        notes,
    } = tables;
    let Above {
        library,
        superinterfaces,
    } = above;
    let MemberTables {
        indexes,
        descriptors,
    } = members;
    ClassSet {
        classes,
        members: indexes,
        descriptors,
        library,
        superinterfaces,
        object,
        superclasses,
        notes,
    }
}

fn tables_of(alloc: Global, classes: &ClassesByName) -> M<Tables>
    requires { HasRanks classes.now }
    ensures { IfOk result (AreTables classes.now) }
{
    let object = object_of(alloc, classes)?;
    let above = above_of(alloc, classes)?;
    let superclasses = superclasses_of(alloc, classes)?;
    let members = member_tables(alloc, classes)?;
    let notes = MemberNotes::of(alloc, &superclasses, &members.indexes)?;
    Ok(Tables {
        above,
        superclasses,
        members,
        object,
        notes,
    })
}

fn above_of(alloc: Global, classes: &ClassesByName) -> M<Above>
    requires { HasRanks classes.now }
    ensures { IfOk result (IsAbove classes.now) }
{
    let library = library_of(alloc)?;
    let superinterfaces = ordered_superinterfaces(alloc, classes, &library)?;
    Ok(Above {
        library,
        superinterfaces,
    })
}

fn ordered_superinterfaces(
    alloc: Global,
    classes: &ClassesByName,
    library: &Items<LibId>,
) -> M<SharedLists>
    requires library { library.now ≡ library_ids }
    requires ranks { HasRanks classes.now }
    ensures { IfOk result (AreOwn classes.now) }
{
    let needs = graph_of(alloc, classes, library)?;
    let order = order_of(alloc, needs.as_slice())?;
    superinterfaces_of(alloc, classes, library, order.as_slice())
}

fn member_tables(alloc: Global, classes: &ClassesByName) -> M<MemberTables>
    ensures { IfOk result (AreMembers classes.now) }
{
    let descriptors = descriptors_of(alloc, classes)?;
    let indexes = members_of(alloc, classes, &descriptors)?;
    Ok(MemberTables {
        indexes,
        descriptors,
    })
}

fn object_of(alloc: Global, classes: &ClassesByName) -> M<Option<ClassId>>
    ensures { IfOk result (λ object. object ≡ class_named classes.now (codes "java/lang/Object")) }
{
    let name = Text::from_str(alloc, "java/lang/Object")?;
    Ok(classes.find(&name))
}

fn members_of(
    alloc: Global,
    classes: &ClassesByName,
    descriptors: &Items<Items<Text>>,
) -> M<Items<MemberIndex>>
    requires { descriptors.now ≡ map method_texts classes.now }
    ensures { IfOk result (AllZip IsIndexOf classes.now) }
{
    let mut members = Items::new(alloc);
    for number in 0..classes.len() {
        let texts = &descriptors[number as usize];
        members.push(MemberIndex::of(alloc, classes.class(number), texts)?)?;
    }
    Ok(members)
}
