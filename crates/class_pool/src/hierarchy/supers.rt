// Lists of supertypes.
ghost use Rattle.std.specs.Prelude.{◌≡◌, ◌+◌, ◌++◌, ◌<◌, IfOk, OnOk, length};
ghost use Rattle.std.specs.List.{All, flat_map};
ghost use Rattle.lib_table.specs.Library.{library as library_rows};
ghost use Rattle.class_pool.specs.bodies.Graph.{id_at, library_ids};
ghost use Rattle.class_pool.specs.Hierarchy.{IsClass};
ghost use Rattle.class_pool.specs.bodies.Lists.{AreOwn, list_at};
ghost use Rattle.class_pool.specs.Ranks.{HasObject, HasRanks};
ghost use Rattle.class_pool.specs.bodies.Marked.{IsBelow};
ghost use Rattle.class_pool.specs.Supers.{IsSupers};
ghost use Rattle.class_pool.specs.Walk.{each_once, superclasses_from, supers};

use crate::ClassId;
use crate::hierarchy::graph::number;
use crate::hierarchy::met::Met;
use crate::hierarchy::shared_lists::SharedLists;
use crate::set::lookup::ClassesByName;
use jv_base::{Items, M};
use lib_table::LibId;
use std::alloc::Global;

/// The supertypes of a class without the class itself, by the chain of it and its superclasses: those upwards, then the
/// superinterfaces that each of these classes has itself, each once, where it is met first.
pub(crate) fn supers_of(
    alloc: Global,
    classes: &ClassesByName,
    library: &Items<LibId>,
    superinterfaces: &SharedLists,
    id: &ClassId,
    chain: &[ClassId],
) -> M<Items<ClassId>>
    requires library { library.now ≡ library_ids }
    requires ranks { HasRanks classes.now }
    requires object { HasObject classes.now }
    requires own { AreOwn classes.now superinterfaces.now }
    requires there { IsClass classes.now id.now }
    requires chain { chain.now ≡ superclasses_from classes.now id.now }
    ensures order { IfOk result (λ ids. ids ≡ supers classes.now id.now) }
    ensures are { IfOk result (IsSupers classes.now id.now) }
{
    let count = library.len() + classes.len() as usize;
    let mut met = Met::new(alloc, count)?;
    met.meet_all(library, chain)?;
    meet_lists(library, superinterfaces, &mut met, chain)?;
    let mut ids = met.take(alloc, library).into_vec();
    ids.remove(0);
    Ok(Items::from_vec(ids))
}

/// Meets those of the list of each of these classes.
fn meet_lists(library: &Items<LibId>, lists: &SharedLists, met: &mut Met, ids: &[ClassId]) -> M<()>
    requires library { library.now ≡ library_ids }
    requires count { length lists.now ≡ met.old.count }
    requires lists { All (All (IsBelow met.old.count)) lists.now }
    requires below { All (IsBelow met.old.count) ids.now }
    ensures { OnOk result (met.new.ids ≡ met.old.ids ++ each_once met.old.ids (flat_map (list_at lists.now) ids.now)) }
{
    for id in ids {
        met.meet_all(library, lists.at(number(library, *id)))?;
    }
    Ok(())
}

/// The class of a number.
pub(crate) fn id_at(library: &Items<LibId>, number: usize) -> ClassId
    requires library { library.now ≡ library_ids }
    requires there { number < length library_rows + 4294967295 }
    ensures { result ≡ id_at number }
{
    if number < library.len() {
        ClassId::Lib(library[number])
    } else {
        ClassId::Prog((number - library.len()) as u32)
    }
}
