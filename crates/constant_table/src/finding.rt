// The numbers and indices of what a table has.
ghost use Rattle.std.specs.Prelude.{◌≡◌, ℕ, IfOk};
ghost use Rattle.jv_base.specs.Utf16.{units_of};
ghost use Rattle.class_model.specs.declared.constant.PoolConstant.{PoolConstant};
ghost use Rattle.class_model.specs.CanonicalPool as canonical;
ghost use Rattle.constant_table.specs.bodies.Keys.{AreKeysOf, constants_of, key_of, number_of};
ghost use Rattle.constant_table.specs.bodies.Members.{numbers_of, method_key};

use crate::key::Key;
use crate::keys::Keys;
use crate::texts::Texts;
use class_model::MemberRef;
use jv_base::{Base, FieldType, M, field_text};
use std::alloc::Global;

/// The numbers of the texts of a reference to a member (JVMS 4.4.2).
#[derive(Clone, Copy)]
pub struct MemberNumbers {
    pub class: usize,
    pub name: usize,
    pub descriptor: usize,
}

/// The index of the constant that a key tells.
pub fn index_of_key(texts: &Texts, keys: &Keys, key: Key) -> usize
    requires { AreKeysOf texts.now keys.now }
    ensures { (k : PoolConstant) → key ≡ key_of texts.now k → result
        ≡ canonical.index_of (constants_of texts.now keys.now) k }
{
    keys.index_of(key)
}

/// The number of the name of a class, of the descriptor of an array type (JVMS 4.4.1).
pub fn type_number(alloc: Global, texts: &Texts, ty: &FieldType) -> M<usize>
    ensures { IfOk result (λ n. n ≡ number_of texts.now (units_of (canonical.type_name ty.now))) }
{
    match &ty.base {
        Base::Class(name) if ty.dims == 0 => texts.number_of_text(alloc, name),
        _ => texts.number_of_text(alloc, &field_text(alloc, ty)?),
    }
}

pub fn member_numbers(alloc: Global, texts: &Texts, member: &MemberRef) -> M<MemberNumbers>
    ensures { IfOk result (λ m. m ≡ numbers_of texts.now member.now) }
{
    let class = type_number(alloc, texts, &member.class)?;
    let name = texts.number_of_text(alloc, &member.name)?;
    let descriptor = texts.number_of_text(alloc, &member.ty)?;
    Ok(MemberNumbers {
        class,
        name,
        descriptor,
    })
}

/// A method's key: whether its class is an interface tells which of the two it is (JVMS 4.4.2).
pub fn method_key(m: MemberNumbers, of_interface: bool) -> Key
    ensures { result ≡ method_key m of_interface }
{
    if of_interface {
        Key::InterfaceMethodref(m.class, m.name, m.descriptor)
    } else {
        Key::Methodref(m.class, m.name, m.descriptor)
    }
}
