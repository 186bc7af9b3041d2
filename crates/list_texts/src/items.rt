// The texts of items.
ghost use Rattle.std.specs.Prelude.{◌≡◌, ◌+◌, ◌<◌, ◌++◌, IfOk, OnOk, Some, [], length, slice_get};
ghost use Rattle.std.specs.Prelude.{slice_index_or, string_bytes};
ghost use Rattle.class_pool.specs.Count.{item_count, items_of};
ghost use Rattle.report_text.specs.Spelled.{member_texts};
ghost use Rattle.list_texts.specs.ItemTexts.{item_texts, item_texts_of, member_text_of};
ghost use Rattle.list_texts.specs.bodies.Places.{IsPlaceOf};

use class_model::Class;
use class_pool::ClassSet;
use jv_base::{M, Text};
use report_text::{class_text, member_text};
use std::alloc::Global;

/// An item as a list of seeds has it: the name of a class, or behind it `: ` and a member (ProGuard manual,
/// "-printseeds"). Items are numbered from 0: each class of the set in its order, then its fields, then its methods.
/// The classes before it are gone over.
pub fn item_text(alloc: Global, set: &ClassSet, item: u32) -> M<Text>
    requires { item < item_count set.now }
    ensures { IfOk result (λ text. slice_get (item_texts set.now) item ≡ Some text) }
{
    let place = place_of(set, item);
    text_at(alloc, set.class(place.class), place.member)
}

/// Where an item stands.
#[derive(Clone, Copy)]
struct Place {
    /// The number of the class.
    class: u32,
    /// The number of the item among those of the class, which is 0 itself.
    member: u32,
}

/// The class of an item, and its number among those of the class.
fn place_of(set: &ClassSet, item: u32) -> Place
    requires { item < item_count set.now }
    ensures { IsPlaceOf set.now item result }
{
    let mut class = 0;
    let mut member = item;
    while member >= count_of(set.class(class)) {
        member -= count_of(set.class(class));
        class += 1;
    }
    Place { class, member }
}

/// How many items a class has with its members.
pub(crate) fn count_of(class: &Class) -> u32
    requires { length class.now.fields + length class.now.methods < 4294967295 }
    ensures { result ≡ items_of class.now }
{
    1 + class.fields.len() as u32 + class.methods.len() as u32
}

/// A class, or a member of it, by its number among the items of the class.
fn text_at(alloc: Global, class: &Class, member: u32) -> M<Text>
    requires few { length class.now.fields + length class.now.methods < 4294967295 }
    requires there { member < items_of class.now }
    ensures { IfOk result (λ text. slice_get (item_texts_of class.now) member ≡ Some text) }
{
    if member == 0 {
        return class_text(alloc, class);
    }
    let mut text = String::new(alloc);
    push_member(alloc, &mut text, class, member - 1)?;
    Ok(Text::from_string(alloc, text)?)
}

/// Appends a member behind the name of its class.
pub(crate) fn push_member(alloc: Global, out: &mut String, class: &Class, member: u32) -> M<()>
    requires { member < length class.now.fields + length class.now.methods }
    ensures { OnOk result (string_bytes out.new
        ≡ string_bytes out.old ++ member_text_of class.now (slice_index_or (member_texts class.now) member [])) }
{
    out.push_str(class_text(alloc, class)?.as_str())?;
    out.push_str(": ")?;
    out.push_str(member_text(alloc, class, member)?.as_str())?;
    Ok(())
}
