// The methods of the generated classes, but for the one that calls others (JVMS 4.6).
ghost use Rattle.std.specs.Prelude.{◌≡◌, ◌<◌, ◌^◌, ◌∷◌, ◌++◌, [], None, IfOk, OnOk};
ghost use Rattle.gen_classes.specs.Generated.{abstract_v, adding, constructor, dead, giving_back, method};

use crate::references::{constructor_of, int_to_int, nothing_to_nothing, object_name};
use class_model::{ArithOp, Code, Frames, Ins, Kind, Method, Num, Op};
use jv_base::{Access, Items, M, MethodType, Text};
use std::alloc::Global;

// ---- what methods are made of

/// The flags public (JVMS 4.6, table 4.6-A).
const PUBLIC: u16 = 0x0001;

/// The flags public and static.
pub(crate) const PUBLIC_STATIC: u16 = 0x0009;

/// The flags public and abstract.
const PUBLIC_ABSTRACT: u16 = 0x0401;

/// Puts an instruction without a line behind others.
pub(crate) fn add_op(ins: &mut Items<Ins>, op: Op) -> M<()>
    ensures { OnOk result (ins.new ≡ ins.old ++ (record { op = op; line = None }) ∷ []) }
{
    ins.push(Ins { op, line: None })?;
    Ok(())
}

/// A method that isn't marked and throws nothing.
pub(crate) fn method(
    alloc: Global,
    flags: u16,
    name: &str,
    ty: MethodType,
    code: Option<Code>,
) -> M<Method>
    ensures { IfOk result (λ made. made ≡ method flags name.now ty code) }
{
    let name = Text::from_str(alloc, name)?;
    Ok(Method {
        flags: Access(flags),
        name,
        ty,
        code,
        throws: Items::new(alloc),
        synthetic: false,
        deprecated: false,
    })
}

/// A code without handlers and frames.
fn plain_code(alloc: Global, max_stack: u16, max_locals: u16, ins: Items<Ins>) -> Code
    ensures { result ≡ record {
      max_stack = max_stack;
      max_locals = max_locals;
      ins = ins;
      handlers = [];
      frames = [];
    } }
{
    Code {
        max_stack,
        max_locals,
        ins,
        handlers: Items::new(alloc),
        frames: Frames::new(alloc),
    }
}

// ---- methods

/// `public <init>()`, which calls that of Object.
pub(crate) fn constructor(alloc: Global) -> M<Method>
    ensures { IfOk result (λ made. made ≡ constructor) }
{
    let object = object_name(alloc)?;
    let above = constructor_of(alloc, object)?;
    let mut ins = Items::new(alloc);
    add_op(&mut ins, Op::Load(Kind::Ref, 0))?;
    add_op(&mut ins, Op::InvokeSpecial(above))?;
    add_op(&mut ins, Op::Return(None))?;
    let code = plain_code(alloc, 1, 1, ins);
    method(
        alloc,
        PUBLIC,
        "<init>",
        nothing_to_nothing(alloc),
        Some(code),
    )
}

/// `public int v(int)`, which adds a number.
pub(crate) fn adding(alloc: Global, number: u32) -> M<Method>
    requires { number < 2 ^ 31 }
    ensures { IfOk result (λ made. made ≡ adding number) }
{
    let mut ins = Items::new(alloc);
    add_op(&mut ins, Op::Load(Kind::Int, 1))?;
    add_op(&mut ins, Op::PushInt(number as i32))?;
    add_op(&mut ins, Op::Arith(ArithOp::Add, Num::Int))?;
    add_op(&mut ins, Op::Return(Some(Kind::Int)))?;
    let code = plain_code(alloc, 2, 2, ins);
    method(alloc, PUBLIC, "v", int_to_int(alloc)?, Some(code))
}

/// `public static int f(int)`, which gives its argument back.
pub(crate) fn giving_back(alloc: Global) -> M<Method>
    ensures { IfOk result (λ made. made ≡ giving_back) }
{
    let mut ins = Items::new(alloc);
    add_op(&mut ins, Op::Load(Kind::Int, 0))?;
    add_op(&mut ins, Op::Return(Some(Kind::Int)))?;
    let code = plain_code(alloc, 1, 1, ins);
    method(alloc, PUBLIC_STATIC, "f", int_to_int(alloc)?, Some(code))
}

/// `public static void dead()`, which nothing calls.
pub(crate) fn dead(alloc: Global) -> M<Method>
    ensures { IfOk result (λ made. made ≡ dead) }
{
    let mut ins = Items::new(alloc);
    add_op(&mut ins, Op::Return(None))?;
    let code = plain_code(alloc, 0, 0, ins);
    method(
        alloc,
        PUBLIC_STATIC,
        "dead",
        nothing_to_nothing(alloc),
        Some(code),
    )
}

/// `public abstract int v(int)`.
pub(crate) fn abstract_v(alloc: Global) -> M<Method>
    ensures { IfOk result (λ made. made ≡ abstract_v) }
{
    method(alloc, PUBLIC_ABSTRACT, "v", int_to_int(alloc)?, None)
}
