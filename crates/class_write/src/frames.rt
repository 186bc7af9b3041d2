// The frame that the rows of a StackMapTable begin from (JVMS 4.10.1.6).
ghost use Rattle.std.specs.Prelude.{◌≡◌, IfOk};
ghost use Rattle.class_model.specs.Frames as frames;
ghost use Rattle.class_model.specs.CanonicalClass.{first_locals};

use bitflags::Flags;
use class_model::{Frame, Method, VType};
use jv_base::{Access, Base, FieldType, Items, M, Name};
use std::alloc::Global;

fn vtype_of(ty: &FieldType) -> M<VType>
    ensures { IfOk result (λ v. v ≡ frames.vtype_of ty.now) }
{
    if ty.dims > 0 {
        return Ok(VType::Object(ty.clone()?));
    }
    Ok(match &ty.base {
        Base::Long => VType::Long,
        Base::Float | Base::Double => VType::Top,
        Base::Class(_) => VType::Object(ty.clone()?),
        _ => VType::Int,
    })
}

fn this_type(class: &Name, name: &Name) -> M<VType>
    ensures { IfOk result (λ v. v ≡ frames.this_type class.now name.now) }
{
    if name.as_str() == "<init>" {
        return Ok(VType::UninitThis);
    }
    Ok(VType::Object(FieldType {
        dims: 0,
        base: Base::Class(class.clone()?),
    }))
}

/// The initial frame of a method of this class: `this` where it isn't static, and its parameters.
pub fn first_frame(alloc: Global, class: &Name, method: &Method) -> M<Frame>
    ensures { IfOk result (λ frame. frame.locals ≡ first_locals class.now method.now) }
{
    let mut locals = Items::new(alloc);
    if !method.flags.contains(Access::STATIC) {
        locals.push(this_type(class, &method.name)?)?;
    }
    for ty in method.ty.args.as_slice() {
        locals.push(vtype_of(ty)?)?;
    }
    Ok(Frame {
        locals,
        stack: Items::new(alloc),
    })
}
