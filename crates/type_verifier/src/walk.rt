// The walk over a code, which keeps one frame (JVMS 4.10.1.6).
ghost use Rattle.std.specs.Prelude.{◌≡◌, ◌<◌, ◌+◌, Some, IfOk, IsTrue, length, map};
ghost use Rattle.std.specs.List.{list_all};
ghost use Rattle.jv_base.specs.Outcome.{IsDue};
ghost use Rattle.class_model.specs.declared.op.Case.{Case};
ghost use Rattle.type_verifier.specs.Assignable.{is_frame_assignable};
ghost use Rattle.type_verifier.specs.bodies.Changes.{AfterOr, FlowsOr, flow, placed};
ghost use Rattle.type_verifier.specs.Environment.{declared_frame_at, goes_elsewhere};
ghost use Rattle.type_verifier.specs.bodies.Noting.{AreFitting};
ghost use Rattle.type_verifier.specs.bodies.Places.{ArePlaces};
ghost use Rattle.type_verifier.specs.bodies.Seen.{environment_of};
ghost use Rattle.type_verifier.specs.bodies.Since.{IsSame, IsSince};
ghost use Rattle.type_verifier.specs.Walk.{arrived, at_instruction, fault_at, fits_at, fits_targets};
ghost use Rattle.type_verifier.specs.Walk.{instruction_checked};
ghost use Rattle.type_verifier.specs.bodies.Walked.{code_checked, walked};

use crate::assignability::{are_assignable, is_stack_assignable};
use crate::changed::{Changed, since_after, since_there};
use crate::declared::{look_up, make};
use crate::environment::Env;
use crate::fitting::Fitting;
use crate::frame::TypeFrame;
use crate::framing::initial_frame;
use crate::handlers::satisfies_handlers;
use crate::hierarchy::Hierarchy;
use crate::instructions::step;
use crate::places::{Places, places_of};
use crate::same::are_same_types;
use crate::{TypeFault, TypeKind};
use class_model::{Case, Code, Op};
use jv_base::{M, Or};
use std::alloc::Global;

/// Checks the code. The error is the first fault.
pub(crate) fn check_code(alloc: Global, env: &Env) -> Result<(), Or<TypeFault>>
    requires there { env.now.own < length env.now.set.now }
    ensures { IsDue result (code_checked (environment_of env.now)) }
{
    let places = places_of(alloc, env.code)?;
    let mut frame = initial_frame(alloc, env)?;
    walk(alloc, env, &places, &mut frame)
}

/// Goes over all instructions with the frame before the first one.
fn walk(
    alloc: Global,
    env: &Env,
    places: &Places,
    frame: &mut TypeFrame,
) -> Result<(), Or<TypeFault>>
    requires there { env.now.own < length env.now.set.now }
    requires places { ArePlaces env.now.code.now places.now }
    ensures { IsDue result (walked (environment_of env.now) 0 (Some frame.old) env.now.code.now.ins) }
{
    let Ok(count) = u32::try_from(env.code.ins.len()) else {
        return Err(Or::OutOfMemory);
    };
    let mut fitting = Fitting::new(alloc);
    let mut flows = true;
    let mut since = None;
    for at in 0..count {
        let op = &env.code.ins[at as usize].op;
        match pass_instruction(
            alloc,
            env,
            places,
            &mut fitting,
            frame,
            flows,
            since,
            at,
            op,
        ) {
            Ok(next) => flows = next,
            Err(error) => return Err(placed(env, at, error)),
        }
        since = since_after(flows, op);
    }
    if flows {
        return Err(Or::Fault(fault(env, count.saturating_sub(1), TypeKind::FallsOff)));
    }
    Ok(())
}

fn fault(env: &Env, index: u32, kind: TypeKind) -> TypeFault
    ensures { result ≡ fault_at (environment_of env.now) index kind }
{
    TypeFault {
        class: env.own,
        method: env.number,
        index,
        kind,
    }
}

/// A fault with the number of its instruction.
fn placed(env: &Env, at: u32, error: Or<TypeKind>) -> Or<TypeFault>
    ensures { result ≡ placed (environment_of env.now) at error }
{
    match error {
        Or::Fault(kind) => Or::Fault(fault(env, at, kind)),
        Or::OutOfMemory => Or::OutOfMemory,
    }
}

/// Goes over an instruction, whose number this is, by what flows into it.
fn pass_instruction(
    alloc: Global,
    env: &Env,
    places: &Places,
    fitting: &mut Fitting,
    frame: &mut TypeFrame,
    flows: bool,
    since: Option<Changed>,
    at: u32,
    op: &Op,
) -> Result<bool, Or<TypeKind>>
    requires there { env.now.own < length env.now.set.now }
    requires places { ArePlaces env.now.code.now places.now }
    requires instruction { at < length env.now.code.now.ins }
    requires since { IsSince (environment_of env.now) at since frame.old }
    requires fitting { AreFitting (environment_of env.now) at fitting.old }
    ensures flow { FlowsOr result frame.new (at_instruction (environment_of env.now) at op.now (flow flows frame.old)) }
    ensures fitting { IfOk result (λ _. AreFitting (environment_of env.now) (at + 1) fitting.new) }
{
    let same = arrive(alloc, env, places, frame, flows, at)?;
    pass(
        alloc,
        env,
        places,
        fitting,
        frame,
        since_there(same, since),
        at,
        op,
    )
}

/// Goes over an instruction by the frame before it.
fn pass(
    alloc: Global,
    env: &Env,
    places: &Places,
    fitting: &mut Fitting,
    frame: &mut TypeFrame,
    since: Option<Changed>,
    at: u32,
    op: &Op,
) -> Result<bool, Or<TypeKind>>
    requires there { env.now.own < length env.now.set.now }
    requires places { ArePlaces env.now.code.now places.now }
    requires instruction { at < length env.now.code.now.ins }
    requires since { IsSince (environment_of env.now) at since frame.old }
    requires fitting { AreFitting (environment_of env.now) at fitting.old }
    ensures flow { FlowsOr result frame.new (instruction_checked (environment_of env.now) at op.now frame.old) }
    ensures fitting { IfOk result (λ _. AreFitting (environment_of env.now) (at + 1) fitting.new) }
{
    let satisfies = satisfies_handlers(alloc, env, places, fitting, frame, since, at)?;
    step(alloc, env, frame, at, op)?;
    if !fits_targets(alloc, env, places, frame, op)? {
        return Err(Or::Fault(TypeKind::Mismatch));
    }
    if !satisfies {
        return Err(Or::Fault(TypeKind::Handler));
    }
    Ok(!goes_elsewhere(op))
}

/// Whether control never goes on to the next instruction.
fn goes_elsewhere(op: &Op) -> bool
    ensures { result ≡ goes_elsewhere op.now }
{
    matches!(
        op,
        Op::Goto(_) | Op::TableSwitch { .. } | Op::LookupSwitch { .. } | Op::Return(_) | Op::Throw
    )
}

// ---- the frame before an instruction

/// Has the frame before an instruction, by what flows into it. Tells whether it has the same locals and flag as that.
fn arrive(
    alloc: Global,
    env: &Env,
    places: &Places,
    frame: &mut TypeFrame,
    flows: bool,
    at: u32,
) -> Result<bool, Or<TypeKind>>
    requires places { ArePlaces env.now.code.now places.now }
    requires instruction { at < length env.now.code.now.ins }
    ensures after { AfterOr result frame.new
        (arrived (environment_of env.now) at (flow flows frame.old) (declared_frame_at (environment_of env.now) at)) }
    ensures same { IfOk result (λ same. IsTrue same → IsSame frame.old frame.new) }
{
    match make(alloc, env, places, at as usize)? {
        Some(declared) => {
            if flows && !is_frame_assignable(env.set, frame, &declared) {
                return Err(Or::Fault(TypeKind::Mismatch));
            }
            let same = flows && is_same(env.code, frame, &declared);
            *frame = declared;
            Ok(same)
        }
        None if flows && !places.is_entered(at as usize) => Ok(true),
        None => Err(Or::Fault(TypeKind::NoFrame)),
    }
}

fn is_frame_assignable(set: &Hierarchy, from: &TypeFrame, to: &TypeFrame) -> bool
    ensures { result ≡ is_frame_assignable set.now from.now to.now }
{
    are_assignable(set, from.locals.as_slice(), to.locals.as_slice())
        && is_stack_assignable(set, &from.stack, &to.stack)
        && (!from.marked || to.marked)
}

/// Whether a frame has the same locals and flag as another one. Only handlers need it: without them this isn't told.
fn is_same(code: &Code, from: &TypeFrame, to: &TypeFrame) -> bool
    ensures { IsTrue result → IsSame from.now to.now }
{
    !code.handlers.is_empty() && has_same(from, to)
}

fn has_same(from: &TypeFrame, to: &TypeFrame) -> bool
    ensures { IsTrue result → IsSame from.now to.now }
{
    is_same_flag(from.marked, to.marked)
        && are_same_types(from.locals.as_slice(), to.locals.as_slice())
}

fn is_same_flag(one: bool, other: bool) -> bool
    ensures { IsTrue result → one ≡ other }
{
    one == other
}

// ---- frames that flow to other instructions

/// Whether a frame fits at each target of an instruction.
fn fits_targets(alloc: Global, env: &Env, places: &Places, frame: &TypeFrame, op: &Op) -> M<bool>
    requires places { ArePlaces env.now.code.now places.now }
    ensures { IfOk result (λ fits. fits ≡ fits_targets (environment_of env.now) op.now frame.now) }
{
    match op {
        Op::IfZero(_, to)
        | Op::IfCmp(_, to)
        | Op::IfRef { to, .. }
        | Op::IfNull { to, .. }
        | Op::Goto(to) => fits_at(alloc, env, places, frame, *to),
        Op::TableSwitch { other, cases, .. } => {
            Ok(
                fits_at(alloc, env, places, frame, *other)?
                    && fits_all(alloc, env, places, frame, cases.as_slice())?,
            )
        }
        Op::LookupSwitch { other, cases } => Ok(
            fits_at(alloc, env, places, frame, *other)?
                && fits_cases(alloc, env, places, frame, cases.as_slice())?,
        ),
        _ => Ok(true),
    }
}

fn fits_all(
    alloc: Global,
    env: &Env,
    places: &Places,
    frame: &TypeFrame,
    targets: &[u32],
) -> M<bool>
    requires places { ArePlaces env.now.code.now places.now }
    ensures { IfOk result (λ fits. fits ≡ list_all (fits_at (environment_of env.now) frame.now) targets.now) }
{
    for to in targets {
        if !fits_at(alloc, env, places, frame, *to)? {
            return Ok(false);
        }
    }
    Ok(true)
}

fn fits_cases(
    alloc: Global,
    env: &Env,
    places: &Places,
    frame: &TypeFrame,
    cases: &[Case],
) -> M<bool>
    requires places { ArePlaces env.now.code.now places.now }
    ensures { IfOk result (λ fits. fits ≡ list_all (fits_at (environment_of env.now) frame.now)
        (map (λ (c : Case). c.to) cases.now)) }
{
    for case in cases {
        if !fits_at(alloc, env, places, frame, case.to)? {
            return Ok(false);
        }
    }
    Ok(true)
}

/// Whether there is an instruction with a number, and a frame fits there.
fn fits_at(alloc: Global, env: &Env, places: &Places, frame: &TypeFrame, to: u32) -> M<bool>
    requires places { ArePlaces env.now.code.now places.now }
    ensures { IfOk result (λ fits. fits ≡ fits_at (environment_of env.now) frame.now to) }
{
    let to = to as usize;
    if env.code.ins.len() <= to {
        return Ok(false);
    }
    match look_up(alloc, env, places, to)? {
        Some(declared) => Ok(is_frame_assignable(env.set, frame, declared.frame())),
        None => Ok(true),
    }
}
