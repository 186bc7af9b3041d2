// The types that references tell (JVMS 4.3).
ghost use Rattle.std.specs.Prelude.{◌≡◌, ◌<◌, IfOk, length};
ghost use Rattle.std.specs.Option.{option_map};
ghost use Rattle.jv_base.specs.Descriptors.{read_field, read_method};
ghost use Rattle.class_model.specs.Frames.{base_vtype, vtype_of};
ghost use Rattle.type_verifier.specs.Rules.{field_type, method_type, returned, told_type};
ghost use Rattle.type_verifier.specs.bodies.Changes.{Tells};

use crate::TypeKind;
use class_model::{MemberRef, VType};
use jv_base::{
    Base, FieldType, M, MethodType, Or, OutOfMemory, Text, read_field_type, read_method_type,
};
use std::alloc::Global;

/// No descriptor of this length is read; a class file has room for 65,535 bytes (JVMS 4.4.7).
const TOO_LONG: usize = 4_294_967_295;

/// The type of the values of a field; where the descriptor is none no operand is right. One that is too long is
/// answered as want of memory.
pub(crate) fn field_type(alloc: Global, r: &MemberRef) -> Result<VType, Or<TypeKind>>
    ensures { Tells result (field_type r.now) }
{
    match told_field(alloc, &r.ty)? {
        Some(ty) => Ok(vtype_of(&ty)?),
        None => Err(Or::Fault(TypeKind::Operand)),
    }
}

fn told_field(alloc: Global, text: &Text) -> M<Option<FieldType>>
    ensures { IfOk result (λ ty. ty ≡ told_type (read_field text.now)) }
{
    if text.len() >= TOO_LONG {
        return Err(OutOfMemory);
    }
    match read_field_type(alloc, text) {
        Ok(ty) => Ok(Some(ty)),
        Err(Or::Fault(_)) => Ok(None),
        Err(Or::OutOfMemory) => Err(OutOfMemory),
    }
}

/// The type of a method; the same of its descriptor.
pub(crate) fn method_type(alloc: Global, r: &MemberRef) -> Result<MethodType, Or<TypeKind>>
    ensures { Tells result (method_type r.now) }
{
    if r.ty.len() >= TOO_LONG {
        return Err(Or::OutOfMemory);
    }
    match read_method_type(alloc, &r.ty) {
        Ok(ty) => Ok(ty),
        Err(Or::Fault(_)) => Err(Or::Fault(TypeKind::Operand)),
        Err(Or::OutOfMemory) => Err(Or::OutOfMemory),
    }
}

/// The verification type of values of a type.
pub(crate) fn vtype_of(ty: &FieldType) -> M<VType>
    ensures { IfOk result (λ of. of ≡ vtype_of ty.now) }
{
    if ty.dims == 0 {
        base_vtype(ty)
    } else {
        Ok(VType::Object(ty.clone()?))
    }
}

fn base_vtype(ty: &FieldType) -> M<VType>
    ensures { IfOk result (λ of. of ≡ base_vtype ty.now ty.now.base) }
{
    match &ty.base {
        Base::Long => Ok(VType::Long),
        Base::Float | Base::Double => Ok(VType::Top),
        Base::Class(_) => Ok(VType::Object(ty.clone()?)),
        _ => Ok(VType::Int),
    }
}

/// The type of a method's result, if it has one.
pub(crate) fn returned(ty: &MethodType) -> M<Option<VType>>
    ensures { IfOk result (λ of. of ≡ returned ty.now) }
{
    match &ty.ret {
        Some(ret) => Ok(Some(vtype_of(ret)?)),
        None => Ok(None),
    }
}
