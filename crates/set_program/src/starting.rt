// With which methods a run may begin.
ghost use Rattle.std.specs.Prelude.{◌≡◌, IfOk, false};
ghost use Rattle.std.specs.List.{list_all};
ghost use Rattle.std.specs.Option.{option_map_or};
ghost use Rattle.class_pool.specs.Found.{IsMember};
ghost use Rattle.jvm_model.specs.Start.{are_plain_parameters, is_plain, is_plain_base};
ghost use Rattle.set_view.specs.ViewOf.{is_startable, is_static_method, member_of};

use class_pool::{ClassId, ClassSet, MemberAt};
use jv_base::{Base, FieldType, M, Or, OutOfMemory, Text, read_method_type};
use run_heap::Key;
use set_meanings::member_of;
use std::alloc::Global;

/// Whether a run may begin with a method of a set: a static one, other than a class initialisation method, whose
/// parameters are primitive, String, or arrays of these; float and double are left out. Of a longer descriptor than any
/// class file has memory is wanting.
pub fn is_startable(alloc: Global, set: &ClassSet, key: &Key) -> M<bool>
    ensures { IfOk result (λ is. is ≡ is_startable set.now key.now) }
{
    if !is_static_key(set, key) || key.name().as_str() == "<clinit>" {
        return Ok(false);
    }
    are_plain_parameters(alloc, key.descriptor())
}

fn is_static_key(set: &ClassSet, key: &Key) -> bool
    ensures { result ≡ option_map_or (is_static_method set.now) (member_of set.now key.now) false }
{
    match member_of(set, key) {
        Some(m) => is_static_method(set, &m),
        None => false,
    }
}

fn is_static_method(set: &ClassSet, m: &MemberAt) -> bool
    requires { IsMember set.now m.now }
    ensures { result ≡ is_static_method set.now m.now }
{
    set.is_method(*m) && set.is_static_member(*m) && matches!(m.class, ClassId::Prog(_))
}

/// The longest descriptor that is read has so many bytes; there is no memory for a longer one.
const LONGEST: usize = 4_294_967_294;

fn are_plain_parameters(alloc: Global, descriptor: &Text) -> M<bool>
    ensures { IfOk result (λ are. are ≡ are_plain_parameters descriptor.now) }
{
    if descriptor.len() > LONGEST {
        return Err(OutOfMemory);
    }
    match read_method_type(alloc, descriptor) {
        Ok(ty) => Ok(are_plain(ty.args.as_slice())),
        Err(Or::Fault(_)) => Ok(false),
        Err(Or::OutOfMemory) => Err(OutOfMemory),
    }
}

fn are_plain(types: &[FieldType]) -> bool
    ensures { result ≡ list_all is_plain types.now }
{
    types.iter().all(|ty| is_plain(ty))
}

/// Whether a type is one of those, or of arrays of them.
fn is_plain(ty: &FieldType) -> bool
    ensures { result ≡ is_plain ty.now }
{
    is_plain_base(&ty.base)
}

fn is_plain_base(base: &Base) -> bool
    ensures { result ≡ is_plain_base base.now }
{
    match base {
        Base::Class(name) => name.as_str() == "java/lang/String",
        Base::Float => false,
        Base::Double => false,
        _ => true,
    }
}
