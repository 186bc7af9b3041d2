// The generated classes (JVMS 4.1).
ghost use Rattle.std.specs.Prelude.{◌≡◌, ◌<◌, ◌≤◌, IfOk};
ghost use Rattle.gen_classes.specs.Generated.{caller_class, class_of, interface_class, plain_class};

use crate::calling::calling;
use crate::methods::{abstract_v, adding, constructor, dead, giving_back};
use crate::references::{caller_name, interface_name, object_name, plain_name};
use class_model::{Class, Method};
use jv_base::{Access, Items, M, Name};
use std::alloc::Global;

/// The flags public and ACC_SUPER (JVMS 4.1, table 4.1-A).
const PUBLIC_SUPER: u16 = 0x0021;

/// The flags public, abstract and interface.
const PUBLIC_INTERFACE: u16 = 0x0601;

/// A class below Object, without fields and attributes.
fn class_of(
    alloc: Global,
    flags: u16,
    name: Name,
    interfaces: Items<Name>,
    methods: Items<Method>,
) -> M<Class>
    ensures { IfOk result (λ class. class ≡ class_of flags name interfaces methods) }
{
    let super_name = object_name(alloc)?;
    Ok(Class {
        flags: Access(flags),
        name,
        super_name,
        interfaces,
        fields: Items::new(alloc),
        methods,
        source: None,
        synthetic: false,
        deprecated: false,
        left_out: None,
    })
}

/// The interface.
pub(crate) fn interface_class(alloc: Global) -> M<Class>
    ensures { IfOk result (λ class. class ≡ interface_class) }
{
    let mut methods = Items::new(alloc);
    methods.push(abstract_v(alloc)?)?;
    class_of(
        alloc,
        PUBLIC_INTERFACE,
        interface_name(alloc)?,
        Items::new(alloc),
        methods,
    )
}

/// The class with a number that calls others, of n.
pub(crate) fn caller_class(alloc: Global, n: u32, number: u32) -> M<Class>
    requires few { n ≤ 4000 }
    requires below { number < n }
    ensures { IfOk result (λ class. class ≡ caller_class n number) }
{
    let mut interfaces = Items::new(alloc);
    interfaces.push(interface_name(alloc)?)?;
    let mut methods = Items::new(alloc);
    methods.push(constructor(alloc)?)?;
    methods.push(adding(alloc, number)?)?;
    methods.push(calling(alloc, n, number)?)?;
    methods.push(dead(alloc)?)?;
    class_of(
        alloc,
        PUBLIC_SUPER,
        caller_name(alloc, number)?,
        interfaces,
        methods,
    )
}

/// The class with a number that calls none.
pub(crate) fn plain_class(alloc: Global, number: u32) -> M<Class>
    ensures { IfOk result (λ class. class ≡ plain_class number) }
{
    let mut methods = Items::new(alloc);
    methods.push(constructor(alloc)?)?;
    methods.push(giving_back(alloc)?)?;
    class_of(
        alloc,
        PUBLIC_SUPER,
        plain_name(alloc, number)?,
        Items::new(alloc),
        methods,
    )
}
