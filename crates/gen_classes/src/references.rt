// What the generated classes name.
ghost use Rattle.std.specs.Prelude.{◌≡◌, IfOk};
ghost use Rattle.gen_classes.specs.Generated.{caller_name, constructor_of, f_of, int_to_int, int_type, interface_name};
ghost use Rattle.gen_classes.specs.Generated.{nothing_to_nothing, object_name, plain_name, reference, v_of_interface};

use class_model::MemberRef;
use jv_base::{Base, FieldType, Items, M, MethodType, Name, Shared, Text};
use std::alloc::Global;

// ---- names (JVMS 4.2)

pub(crate) fn object_name(alloc: Global) -> M<Name>
    ensures { IfOk result (λ name. name ≡ object_name) }
{
    Ok(Text::from_str(alloc, "java/lang/Object")?)
}

pub(crate) fn interface_name(alloc: Global) -> M<Name>
    ensures { IfOk result (λ name. name ≡ interface_name) }
{
    Ok(Text::from_str(alloc, "g/I")?)
}

/// The name of the class with a number that calls others.
pub(crate) fn caller_name(alloc: Global, number: u32) -> M<Name>
    ensures { IfOk result (λ name. name ≡ caller_name number) }
{
    Ok(Text::from_string(alloc, format!(in alloc; "g/C{number}")?)?)
}

/// The name of the class with a number that calls none.
pub(crate) fn plain_name(alloc: Global, number: u32) -> M<Name>
    ensures { IfOk result (λ name. name ≡ plain_name number) }
{
    Ok(Text::from_string(alloc, format!(in alloc; "g/D{number}")?)?)
}

// ---- types (JVMS 4.3)

fn int_type() -> FieldType
    ensures { result ≡ int_type }
{
    FieldType {
        dims: 0,
        base: Base::Int,
    }
}

/// The type of a method that makes an int of an int.
pub(crate) fn int_to_int(alloc: Global) -> M<MethodType>
    ensures { IfOk result (λ ty. ty ≡ int_to_int) }
{
    let mut args = Items::new(alloc);
    args.push(int_type())?;
    Ok(MethodType {
        args,
        ret: Some(int_type()),
    })
}

/// The type of a method that takes and gives nothing.
pub(crate) fn nothing_to_nothing(alloc: Global) -> MethodType
    ensures { result ≡ nothing_to_nothing }
{
    MethodType {
        args: Items::new(alloc),
        ret: None,
    }
}

// ---- members (JVMS 4.4.2)

/// A method of a class or an interface of this name.
fn reference(
    alloc: Global,
    class: Name,
    name: &str,
    ty: &str,
    of_interface: bool,
) -> M<Shared<MemberRef>>
    ensures { IfOk result (λ member. member ≡ reference class name.now ty.now of_interface) }
{
    let name = Text::from_str(alloc, name)?;
    let ty = Text::from_str(alloc, ty)?;
    let class = FieldType {
        dims: 0,
        base: Base::Class(class),
    };
    let member = MemberRef {
        class,
        name,
        ty,
        of_interface,
    };
    Ok(Shared::new(alloc, member)?)
}

/// The constructor without parameters of a class.
pub(crate) fn constructor_of(alloc: Global, class: Name) -> M<Shared<MemberRef>>
    ensures { IfOk result (λ member. member ≡ constructor_of class) }
{
    reference(alloc, class, "<init>", "()V", false)
}

/// Its method f.
pub(crate) fn f_of(alloc: Global, class: Name) -> M<Shared<MemberRef>>
    ensures { IfOk result (λ member. member ≡ f_of class) }
{
    reference(alloc, class, "f", "(I)I", false)
}

/// The interface's method v.
pub(crate) fn v_of_interface(alloc: Global) -> M<Shared<MemberRef>>
    ensures { IfOk result (λ member. member ≡ v_of_interface) }
{
    let class = interface_name(alloc)?;
    reference(alloc, class, "v", "(I)I", true)
}
