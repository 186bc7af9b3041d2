// Computational types by descriptors (JVMS 2.11.1, 4.3).
ghost use Rattle.jvm_model.specs.Types.{argument_kinds, field_kind, kind_of};
ghost use Rattle.run_steps.specs.Arguments.{operand_kinds};
ghost use Rattle.std.specs.Prelude.{◌≡◌, ◌++◌, IfOk, OnOk, map};

use class_model::Kind;
use jv_base::{
    FieldType, Items, M, MethodType, Or, OutOfMemory, Text, read_field_type, read_method_type,
};
use run_values::types::kind_of;
use std::alloc::Global;

/// The longest descriptor that is read has so many bytes; there is no memory for a longer one.
const LONGEST: usize = 4_294_967_294;

/// The computational type of a field by its descriptor, if it is one (JVMS 4.3.2).
pub fn field_kind(alloc: Global, descriptor: &Text) -> M<Option<Kind>>
    ensures { IfOk result (λ kind. kind ≡ field_kind descriptor.now) }
{
    if descriptor.len() > LONGEST {
        return Err(OutOfMemory);
    }
    match read_field_type(alloc, descriptor) {
        Ok(ty) => Ok(Some(kind_of(&ty))),
        Err(Or::Fault(_)) => Ok(None),
        Err(Or::OutOfMemory) => Err(OutOfMemory),
    }
}

/// The computational types of a method's arguments by its descriptor, if it is one (JVMS 4.3.3), and before them that
/// of a receiver, where there is one.
pub fn operand_kinds(alloc: Global, has_receiver: bool, descriptor: &Text) -> M<Option<Items<Kind>>>
    ensures { IfOk result (λ kinds. kinds ≡ operand_kinds has_receiver (argument_kinds descriptor.now)) }
{
    if descriptor.len() > LONGEST {
        return Err(OutOfMemory);
    }
    match read_method_type(alloc, descriptor) {
        Ok(ty) => Ok(Some(kinds_of(alloc, has_receiver, &ty)?)),
        Err(Or::Fault(_)) => Ok(None),
        Err(Or::OutOfMemory) => Err(OutOfMemory),
    }
}

fn kinds_of(alloc: Global, has_receiver: bool, ty: &MethodType) -> M<Items<Kind>>
    ensures { IfOk result (λ kinds. Some kinds ≡ operand_kinds has_receiver (Some (map kind_of ty.now.args))) }
{
    let mut kinds = Items::new(alloc);
    if has_receiver {
        kinds.push(Kind::Ref)?;
    }
    push_kinds(&mut kinds, ty.args.as_slice())?;
    Ok(kinds)
}

fn push_kinds(kinds: &mut Items<Kind>, types: &[FieldType]) -> M<()>
    ensures { OnOk result (kinds.new ≡ kinds.old ++ map kind_of types.now) }
{
    for ty in types {
        kinds.push(kind_of(ty))?;
    }
    Ok(())
}
