// The classes of a pair, the items that have lines, and where an item stands.
ghost use Rattle.std.specs.Prelude.{◌≡◌, ◌++◌, ◌<◌, ◌+◌, IfOk, OnOk, Some, length, slice_get, map, is_some};
ghost use Rattle.class_pool.specs.Count.{item_count, items_of};
ghost use Rattle.new_names.specs.NewNames.{names_given};
ghost use Rattle.pair_clauses.specs.Closing.{lined_in, lined_items};
ghost use Rattle.pair_clauses.specs.Places.{item_places, places_in};
ghost use Rattle.pair_clauses.specs.bodies.Standing.{Stands};

use crate::place::{Place, class_place, field_place, method_place};
use class_model::Class;
use class_pool::ClassSet;
use jv_base::{Items, M, Name};
use new_names::ClassNames;
use std::alloc::Global;

/// Whether each item has a line: each class, then its fields, then its methods.
pub fn lined_items(alloc: Global, given: &[ClassNames]) -> M<Items<bool>>
    ensures { IfOk result (λ lined. lined ≡ lined_items given.now) }
{
    let mut lined = Items::new(alloc);
    for names in given {
        push_lined(&mut lined, names)?;
    }
    Ok(lined)
}

fn push_lined(lined: &mut Items<bool>, names: &ClassNames) -> M<()>
    ensures { OnOk result (lined.new ≡ lined.old ++ lined_in names.now) }
{
    lined.push(names.class.is_some())?;
    push_members(lined, names.fields.as_slice())?;
    push_members(lined, names.methods.as_slice())
}

fn push_members(lined: &mut Items<bool>, names: &[Option<Name>]) -> M<()>
    ensures { OnOk result (lined.new ≡ lined.old ++ map is_some names.now) }
{
    for name in names {
        lined.push(name.is_some())?;
    }
    Ok(())
}

/// Where an item stands.
#[derive(Clone, Copy)]
pub(crate) struct Standing {
    /// The number of the class.
    class: u32,
    /// The number of the item among those of the class, which is 0 itself.
    member: u32,
}

/// The place of an item. The classes before it are gone over.
pub(crate) fn item_place(alloc: Global, set: &ClassSet, item: u32) -> M<Place>
    requires { item < item_count set.now }
    ensures { IfOk result (λ place. slice_get (item_places set.now) item ≡ Some place) }
{
    let standing = standing_of(set, item);
    place_in(alloc, set.class(standing.class), standing.member)
}

fn standing_of(set: &ClassSet, item: u32) -> Standing
    requires { item < item_count set.now }
    ensures { Stands set.now item result }
{
    let mut class = 0;
    let mut member = item;
    while member >= count_of(set.class(class)) {
        member -= count_of(set.class(class));
        class += 1;
    }
    Standing { class, member }
}

fn count_of(class: &Class) -> u32
    requires { length class.now.fields + length class.now.methods < 4294967295 }
    ensures { result ≡ items_of class.now }
{
    1 + class.fields.len() as u32 + class.methods.len() as u32
}

/// The place of a class, or of a member of it, by its number among the items of the class.
fn place_in(alloc: Global, class: &Class, member: u32) -> M<Place>
    requires { member < items_of class.now }
    ensures { IfOk result (λ place. slice_get (places_in class.now) member ≡ Some place) }
{
    if member == 0 {
        return class_place(alloc, &class.name);
    }
    member_place(alloc, class, member as usize - 1)
}

fn member_place(alloc: Global, class: &Class, index: usize) -> M<Place>
    requires { index < length class.now.fields + length class.now.methods }
    ensures { IfOk result (λ place. slice_get (places_in class.now) (index + 1) ≡ Some place) }
{
    let fields = class.fields.len();
    if index < fields {
        let field = &class.fields[index];
        field_place(alloc, &class.name, &field.ty, &field.name)
    } else {
        let method = &class.methods[index - fields];
        method_place(alloc, &class.name, &method.ty, &method.name)
    }
}
