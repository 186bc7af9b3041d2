// Whether a code is that of a method.
ghost use Rattle.std.specs.Prelude.{◌<◌, length};

use class_model::{Class, Code, Frames, Handler, Ins, VType, same_op};
use jv_base::{Items, M};
use std::alloc::Global;

/// Whether a code is that of the method of this number.
pub fn is_code_of(alloc: Global, code: &Code, class: &Class, index: usize) -> M<bool> {
    match class.methods.get(index) {
        Some(method) => match &method.code {
            Some(other) => Ok(
                is_same_but_frames(code, other)
                    && are_same_frames(alloc, &code.frames, &other.frames)?,
            ),
            None => Ok(false),
        },
        None => Ok(false),
    }
}

fn is_same_but_frames(code: &Code, other: &Code) -> bool {
    code.max_stack == other.max_stack
        && code.max_locals == other.max_locals
        && are_same_ins(&code.ins, &other.ins)
        && are_same_handlers(&code.handlers, &other.handlers)
}

fn are_same_ins(ins: &Items<Ins>, others: &Items<Ins>) -> bool {
    ins.len() == others.len()
        && ins.as_slice().iter().zip(others.as_slice()).all(|(ins, other)| same_op(
            &ins.op, &other.op,
        ) && ins.line == other.line)
}

fn are_same_handlers(handlers: &Items<Handler>, others: &Items<Handler>) -> bool {
    handlers.len() == others.len()
        && handlers
            .as_slice()
            .iter()
            .zip(others.as_slice())
            .all(|(handler, other)| is_same_handler(handler, other))
}

fn is_same_handler(handler: &Handler, other: &Handler) -> bool {
    handler.from == other.from
        && handler.to == other.to
        && handler.entry == other.entry
        && match (&handler.caught, &other.caught) {
            (Some(name), Some(other)) => name == other,
            (None, None) => true,
            _ => false,
        }
}

fn are_same_frames(alloc: Global, frames: &Frames, others: &Frames) -> M<bool> {
    if frames.len() != others.len() {
        return Ok(false);
    }
    for number in 0..frames.len() {
        if !is_same_frame(alloc, frames, others, number)? {
            return Ok(false);
        }
    }
    Ok(true)
}

/// Whether the frames of a number are one, and at one instruction.
fn is_same_frame(alloc: Global, frames: &Frames, others: &Frames, number: usize) -> M<bool>
    requires one { number < length frames.now }
    requires other { number < length others.now }
{
    let frame = frames.frame(alloc, number)?;
    let other = others.frame(alloc, number)?;
    Ok(
        frames.index(number) == others.index(number)
            && are_same_types(&frame.locals, &other.locals)
            && are_same_types(&frame.stack, &other.stack),
    )
}

fn are_same_types(types: &Items<VType>, others: &Items<VType>) -> bool {
    types.len() == others.len()
        && types
            .as_slice()
            .iter()
            .zip(others.as_slice())
            .all(|(ty, other)| is_same_type(ty, other))
}

fn is_same_type(ty: &VType, other: &VType) -> bool {
    match (ty, other) {
        (VType::Top, VType::Top)
        | (VType::Int, VType::Int)
        | (VType::Long, VType::Long)
        | (VType::Null, VType::Null)
        | (VType::UninitThis, VType::UninitThis) => true,
        (VType::Object(class), VType::Object(other)) => class == other,
        (VType::Uninit(number), VType::Uninit(other)) => number == other,
        _ => false,
    }
}
