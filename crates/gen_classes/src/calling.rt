// The method that calls others (JVMS 4.6, 4.7.3).
ghost use Rattle.std.specs.Prelude.{◌≡◌, ◌<◌, ◌≤◌, ◌∷◌, ◌++◌, [], IfOk, OnOk, map, nat_lt, if◌then◌else◌};
ghost use Rattle.gen_classes.specs.Generated.{begins, called, caller_name, calling, calls, calls_v, frame_behind};
ghost use Rattle.gen_classes.specs.Generated.{without_lines};

use crate::methods::{PUBLIC_STATIC, add_op, method};
use crate::references::{caller_name, constructor_of, f_of, int_to_int, v_of_interface};
use class_model::{ArithOp, Code, Cond, Frame, FrameAt, Frames, Ins, Kind, Method, Num, Op, VType};
use jv_base::{Items, M, Name};
use std::alloc::Global;

/// `public static int f(int)` of the class with a number, which calls f of those below it in a binary tree of n.
pub(crate) fn calling(alloc: Global, n: u32, number: u32) -> M<Method>
    requires few { n ≤ 4000 }
    requires below { number < n }
    ensures { IfOk result (λ made. made ≡ calling (caller_name number) (map caller_name (called n number))) }
{
    let own = caller_name(alloc, number)?;
    let mut ins = Items::new(alloc);
    begin(&mut ins)?;
    call_v(alloc, &own, &mut ins)?;
    add_calls(alloc, n, 2 * number + 1, &mut ins)?;
    add_calls(alloc, n, 2 * number + 2, &mut ins)?;
    add_op(&mut ins, Op::Return(Some(Kind::Int)))?;
    let frames = frames(alloc)?;
    let code = Code {
        max_stack: 2,
        max_locals: 2,
        ins,
        handlers: Items::new(alloc),
        frames,
    };
    method(alloc, PUBLIC_STATIC, "f", int_to_int(alloc)?, Some(code))
}

/// The frame at the target of the branch.
fn frames(alloc: Global) -> M<Frames>
    ensures { IfOk result (λ made. made ≡ frame_behind ∷ []) }
{
    let mut locals = Items::new(alloc);
    locals.push(VType::Int)?;
    let stack = Items::new(alloc);
    let mut made = Frames::new(alloc);
    made.push(FrameAt {
        index: 4,
        frame: Frame { locals, stack },
    })?;
    Ok(made)
}

/// A branch that is always taken, and what it leaves out.
fn begin(ins: &mut Items<Ins>) -> M<()>
    ensures { OnOk result (ins.new ≡ ins.old ++ without_lines begins) }
{
    add_op(ins, Op::PushInt(0))?;
    add_op(ins, Op::IfZero(Cond::Eq, 4))?;
    add_op(ins, Op::PushInt(7))?;
    add_op(ins, Op::Return(Some(Kind::Int)))
}

/// A new object of the own class, of which v is called.
fn call_v(alloc: Global, own: &Name, ins: &mut Items<Ins>) -> M<()>
    ensures { OnOk result (ins.new ≡ ins.old ++ without_lines (calls_v own.now)) }
{
    add_op(ins, Op::Load(Kind::Int, 0))?;
    add_op(ins, Op::Store(Kind::Int, 1))?;
    add_op(ins, Op::New(own.clone()?))?;
    add_op(ins, Op::Dup)?;
    add_op(ins, Op::InvokeSpecial(constructor_of(alloc, own.clone()?)?))?;
    add_op(ins, Op::Load(Kind::Int, 0))?;
    add_op(ins, Op::InvokeInterface(v_of_interface(alloc)?))
}

/// Where there is a class with this number, what its f gives is added.
fn add_calls(alloc: Global, n: u32, number: u32, ins: &mut Items<Ins>) -> M<()>
    ensures { OnOk result (ins.new
        ≡ ins.old ++ (if nat_lt number n then without_lines (calls (caller_name number)) else [])) }
{
    if number < n {
        let class = caller_name(alloc, number)?;
        add_op(ins, Op::Load(Kind::Int, 0))?;
        add_op(ins, Op::InvokeStatic(f_of(alloc, class)?))?;
        add_op(ins, Op::Arith(ArithOp::Add, Num::Int))?;
    }
    Ok(())
}
