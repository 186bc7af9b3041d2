// The frame before the first instruction of a method (JVMS 4.10.1.6).
ghost use Rattle.std.specs.Prelude.{◌≡◌, ◌++◌, [], map, IfOk, OnOk};
ghost use Rattle.class_model.specs.Flags.{is_static};
ghost use Rattle.class_model.specs.Frames.{vtype_of, this_type, initial_locals};

use crate::flags::is_static;
use crate::methods::MethodHead;
use class_model::{Frame, VType};
use jv_base::{Base, FieldType, Items, M, Name};
use std::alloc::Global;

// `this` in a method of a name, in a class of a name.
fn this_type(class: &Name, name: &Name) -> M<VType>
    ensures { IfOk result (λ ty. ty ≡ this_type class.now name.now) }
{
    if name.as_str() == "<init>" {
        return Ok(VType::UninitThis);
    }
    Ok(VType::Object(FieldType {
        dims: 0,
        base: Base::Class(class.clone()?),
    }))
}

// A parameter: an array is an object, and a byte an int. A float and a double, which are left out, are Top.
fn vtype_of(ty: &FieldType) -> M<VType>
    ensures { IfOk result (λ vtype. vtype ≡ vtype_of ty.now) }
{
    if ty.dims != 0 {
        return Ok(VType::Object(ty.clone()?));
    }
    match ty.base {
        Base::Long => Ok(VType::Long),
        Base::Float | Base::Double => Ok(VType::Top),
        Base::Class(_) => Ok(VType::Object(ty.clone()?)),
        _ => Ok(VType::Int),
    }
}

fn push_parameters(locals: &mut Items<VType>, parameters: &[FieldType]) -> M<()>
    ensures { OnOk result (locals.new ≡ locals.old ++ map vtype_of parameters.now) }
{
    for ty in parameters {
        let vtype = vtype_of(ty)?;
        locals.push(vtype)?;
    }
    Ok(())
}

/// The frame before the first instruction of a method in a class of this name: `this` where the method isn't static,
/// and the parameters. The Tops of parameters at the end stay.
pub fn initial_frame(alloc: Global, class: &Name, head: &MethodHead) -> M<Frame>
    ensures locals { IfOk result (λ frame. frame.locals
        ≡ initial_locals class.now (is_static head.now.flags) head.now.name head.now.ty) }
    ensures stack { IfOk result (λ frame. frame.stack ≡ []) }
{
    let mut locals = Items::new(alloc);
    if !is_static(head.flags) {
        let this = this_type(class, &head.name)?;
        locals.push(this)?;
    }
    push_parameters(&mut locals, head.ty.args.as_slice())?;
    Ok(Frame {
        locals,
        stack: Items::new(alloc),
    })
}
