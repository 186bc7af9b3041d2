// Which members a class of the library has, and which methods none above a class has.
ghost use Rattle.std.specs.Prelude.{◌≡◌, ◌<◌, false, length, nat_lt};
ghost use Rattle.lib_table.specs.Lookups.{class_at};
ghost use Rattle.class_pool.specs.Found.{IsMember, IsMethod, named_at};
ghost use Rattle.class_pool.specs.Walk.{superclasses_from};
ghost use Rattle.class_pool.specs.declared.id.ClassId.TheVariants.{Prog};
ghost use Rattle.item_numbers.specs.bodies.Alone.{AreUndeclared};

use crate::supers::{HIGHEST, superclass_number};
use class_pool::{ClassId, ClassSet, MemberAt};
use lib_table::{LibId, lib_member_at};

/// Whether a class of the library has a member with a number.
pub fn has_member(id: LibId, at: u32) -> bool
    ensures { result ≡ nat_lt at (length (class_at id).members) }
{
    lib_member_at(id, at).is_some()
}

/// Whether a class of the set, the one with a number or a superclass of it, has a method with the name and the
/// descriptor of another one.
pub fn is_declared_above(set: &ClassSet, number: u32, m: &MemberAt) -> bool
    requires there { number < length set.now }
    requires member { IsMember set.now m.now }
    requires method { IsMethod set.now m.now }
    ensures { result ≡ false
        → AreUndeclared set.now (named_at set.now m.now) (superclasses_from set.now (Prog number)) }
{
    let mut next = number;
    for _ in 0..HIGHEST {
        if set.method_like(ClassId::Prog(next), *m).is_some() {
            return true;
        }
        let Some(above) = superclass_number(set, next) else {
            return false;
        };
        next = above;
    }
    false
}
