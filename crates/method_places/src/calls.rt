// Which methods of Object a class of the set may have too.
ghost use Rattle.std.specs.Prelude.{◌≡◌, ◌<◌, false, length, IfOk, IfSome};
ghost use Rattle.std.specs.Option.{ForSome};
ghost use Rattle.lib_table.specs.Library.{library as library_rows};
ghost use Rattle.class_pool.specs.Found.{IsMember};
ghost use Rattle.class_pool.specs.Hierarchy.{IsClass};
ghost use Rattle.class_pool.specs.declared.id.ClassId.TheVariants.{Lib};
ghost use Rattle.item_numbers.specs.bodies.Alone.{AreAlone, IsAlone};
ghost use Rattle.method_places.specs.bodies.Alike.{AreAlike};

use crate::alike::Alike;
use class_pool::{ClassId, MemberAt};
use item_numbers::has_member;
use jv_base::{Items, M};
use lib_table::LibId;
use std::alloc::Global;

/// For each member of a class, if there is one, whether a class of the set may have one with its name and descriptor.
pub(crate) fn declared_by_others(
    alloc: Global,
    alike: &Alike,
    class: &Option<ClassId>,
) -> M<Items<bool>>
    requires alike { AreAlike alike.now.set.now alike.now.marks alike.now.keys.items alike.now.groups.items }
    requires there { IfSome class.now (IsClass alike.now.set.now) }
    ensures { IfOk result (λ flags. ForSome class.now (λ class. AreAlone alike.now.set.now class flags)) }
{
    match class {
        Some(class) => declared_of_class(alloc, alike, class),
        None => Ok(Items::new(alloc)),
    }
}

/// A class of the set is asked for no method of the library.
fn declared_of_class(alloc: Global, alike: &Alike, class: &ClassId) -> M<Items<bool>>
    requires alike { AreAlike alike.now.set.now alike.now.marks alike.now.keys.items alike.now.groups.items }
    requires there { IsClass alike.now.set.now class.now }
    ensures { IfOk result (AreAlone alike.now.set.now class.now) }
{
    match class {
        ClassId::Lib(id) => declared_of(alloc, alike, *id),
        ClassId::Prog(_) => Ok(Items::new(alloc)),
    }
}

/// For each member of a class of the library whether a class of the set may have one with its name and descriptor.
fn declared_of(alloc: Global, alike: &Alike, id: LibId) -> M<Items<bool>>
    requires alike { AreAlike alike.now.set.now alike.now.marks alike.now.keys.items alike.now.groups.items }
    requires there { id < length library_rows }
    ensures { IfOk result (AreAlone alike.now.set.now (Lib id)) }
{
    let mut flags = Items::new(alloc);
    for at in 0..u32::MAX {
        if !has_member(id, at) {
            return Ok(flags);
        }
        flags.push(may_be_declared(alike, id, at))?;
    }
    Ok(flags)
}

/// Whether a class of the set may have a member with the name and the descriptor of one of the library. It is looked
/// for if that is an instance method.
fn may_be_declared(alike: &Alike, id: LibId, at: u32) -> bool
    requires alike { AreAlike alike.now.set.now alike.now.marks alike.now.keys.items alike.now.groups.items }
    requires there { IsMember alike.now.set.now (record { class = Lib id; index = at }) }
    ensures { result ≡ false → IsAlone alike.now.set.now (record { class = Lib id; index = at }) }
{
    let m = MemberAt {
        class: ClassId::Lib(id),
        index: at,
    };
    !alike.set.is_instance_method(m) || alike.may_have(id, at)
}
