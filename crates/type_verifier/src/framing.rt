// Frames of type checking from those that are declared, and the one before the first instruction (JVMS 4.10.1.6).
ghost use Rattle.std.specs.Prelude.{◌≡◌, ◌++◌, IfOk, OnOk, map, reverse};
ghost use Rattle.std.specs.List.{flat_map, list_any};
ghost use Rattle.class_model.specs.Flags.{is_static};
ghost use Rattle.class_model.specs.Frames.{initial_locals, this_type, vtype_of};
ghost use Rattle.type_verifier.specs.Environment.{initial_frame};
ghost use Rattle.type_verifier.specs.Frames.{expanded, framed, is_uninit_this, padded, local_words};
ghost use Rattle.type_verifier.specs.bodies.Marks.{declared_numbered};
ghost use Rattle.type_verifier.specs.bodies.Longs.{is_long};
ghost use Rattle.type_verifier.specs.bodies.Seen.{environment_of};

use crate::descriptors::vtype_of;
use crate::environment::Env;
use crate::frame::TypeFrame;
use crate::locals::Locals;
use crate::stack::Stack;
use crate::types::is_uninit_this;
use bitflags::Flags;
use class_model::{Code, Frame, VType};
use jv_base::{Access, FieldType, M};
use std::alloc::Global;

/// The frame of these locals and this stack, which is told from the bottom.
pub(crate) fn framed(
    alloc: Global,
    max_locals: u16,
    locals: Vec<VType>,
    stack: Vec<VType>,
) -> M<TypeFrame>
    ensures { IfOk result (λ f. f ≡ framed max_locals locals.items stack.items) }
{
    let marked = has_uninit_this(locals.as_slice());
    let words = expanded(alloc, usize::from(max_locals), locals)?;
    let stack = stack_of(alloc, stack)?;
    Ok(TypeFrame {
        locals: Locals::from_words(words),
        stack,
        marked,
    })
}

/// The frame of a number among those that are declared.
pub(crate) fn declared_frame(alloc: Global, code: &Code, number: usize) -> M<Option<TypeFrame>>
    ensures { IfOk result (λ d. d ≡ declared_numbered code.now number) }
{
    if number >= code.frames.len() {
        return Ok(None);
    }
    let Frame { locals, stack } = code.frames.frame(alloc, number)?;
    let frame = framed(alloc, code.max_locals, locals.into_vec(), stack.into_vec())?;
    Ok(Some(frame))
}

fn has_uninit_this(types: &[VType]) -> bool
    ensures { result ≡ list_any is_uninit_this types.now }
{
    types.iter().any(|ty| is_uninit_this(ty))
}

fn stack_of(alloc: Global, types: Vec<VType>) -> M<Stack>
    ensures { IfOk result (λ stack. stack ≡ reverse types.items) }
{
    let mut stack = Stack::new(alloc);
    for ty in types {
        stack.push(ty)?;
    }
    Ok(stack)
}

fn expanded(alloc: Global, max_locals: usize, types: Vec<VType>) -> M<Vec<VType>>
    ensures { IfOk result (λ words. words.items ≡ expanded max_locals types.items) }
{
    let mut words = words_of_all(alloc, types)?;
    pad(&mut words, max_locals)?;
    Ok(words)
}

/// The words of locals. Where each takes one, no other list is made.
fn words_of_all(alloc: Global, types: Vec<VType>) -> M<Vec<VType>>
    ensures { IfOk result (λ words. words.items ≡ flat_map local_words types.items) }
{
    if has_long(types.as_slice()) {
        all_words(alloc, types)
    } else {
        Ok(types)
    }
}

fn has_long(types: &[VType]) -> bool
    ensures { result ≡ list_any is_long types.now }
{
    types.iter().any(|ty| is_long(ty))
}

fn is_long(ty: &VType) -> bool
    ensures { result ≡ is_long ty.now }
{
    matches!(ty, VType::Long)
}

fn all_words(alloc: Global, types: Vec<VType>) -> M<Vec<VType>>
    ensures { IfOk result (λ words. words.items ≡ flat_map local_words types.items) }
{
    let mut words = Vec::new(alloc);
    for ty in types {
        push_words(&mut words, ty)?;
    }
    Ok(words)
}

fn push_words(words: &mut Vec<VType>, ty: VType) -> M<()>
    ensures { OnOk result (words.new.items ≡ words.old.items ++ local_words ty) }
{
    let is_long = is_long(&ty);
    words.push(ty)?;
    if is_long {
        words.push(VType::Top)?;
    }
    Ok(())
}

fn pad(words: &mut Vec<VType>, max_locals: usize) -> M<()>
    ensures { OnOk result (words.new.items ≡ padded max_locals words.old.items) }
{
    while words.len() < max_locals {
        words.push(VType::Top)?;
    }
    Ok(())
}

// ---- the first frame

/// The frame before the first instruction.
pub(crate) fn initial_frame(alloc: Global, env: &Env) -> M<TypeFrame>
    ensures { IfOk result (λ f. f ≡ initial_frame (environment_of env.now)) }
{
    let locals = initial_locals(alloc, env)?;
    framed(alloc, env.code.max_locals, locals, Vec::new(alloc))
}

fn initial_locals(alloc: Global, env: &Env) -> M<Vec<VType>>
    ensures { IfOk result (λ locals. locals.items ≡ initial_locals env.now.class.now.name
        (is_static env.now.method.now.flags.0) env.now.method.now.name env.now.method.now.ty) }
{
    let mut locals = Vec::new(alloc);
    if !env.method.flags.contains(Access::STATIC) {
        locals.push(this_type(env)?)?;
    }
    push_types(&mut locals, env.method.ty.args.as_slice())?;
    Ok(locals)
}

fn this_type(env: &Env) -> M<VType>
    ensures { IfOk result (λ ty. ty ≡ this_type env.now.class.now.name env.now.method.now.name) }
{
    if env.is_in_constructor() {
        Ok(VType::UninitThis)
    } else {
        env.own_type()
    }
}

fn push_types(locals: &mut Vec<VType>, types: &[FieldType]) -> M<()>
    ensures { OnOk result (locals.new.items ≡ locals.old.items ++ map vtype_of types.now) }
{
    for ty in types {
        locals.push(vtype_of(ty)?)?;
    }
    Ok(())
}
