// Which handlers are asked about locals that change. One stands for another one that covers no more instructions, and
// where it begins the same locals are declared.
ghost use Rattle.std.specs.Prelude.{◌≡◌, ◌<◌, ◌+◌, IfOk, IfSome, IsTrue, None, length, slice_index_or};
ghost use Rattle.class_model.specs.FrameLists.{frame_numbered};
ghost use Rattle.type_verifier.specs.bodies.Asked.{AreAsked, AreAskedBefore, AreThere, IsStoodFor, StandsFor};
ghost use Rattle.type_verifier.specs.bodies.Asked.{StandsForPlace};
ghost use Rattle.type_verifier.specs.bodies.Asked.{locals_at};
ghost use Rattle.type_verifier.specs.bodies.Marks.{AreNumbers};

use crate::same::are_same_types;
use class_model::{Code, Frames, Handler};
use jv_base::M;
use std::alloc::Global;

/// The numbers of handlers that stand for all. `numbers` tells which frame is declared at each instruction.
pub(crate) fn asked_of(alloc: Global, code: &Code, numbers: &[Option<usize>]) -> M<Vec<usize>>
    requires numbers { AreNumbers code.now.frames (length code.now.ins) numbers.now }
    ensures { IfOk result (λ asked. AreAsked code.now asked.items) }
{
    let mut asked = Vec::new(alloc);
    for number in 0..code.handlers.len() {
        put_asked(alloc, code, numbers, &mut asked, number)?;
    }
    Ok(asked)
}

/// Puts a handler behind these, or in place of the last of them if it stands for that, where the last doesn't stand for
/// it.
fn put_asked(
    alloc: Global,
    code: &Code,
    numbers: &[Option<usize>],
    asked: &mut Vec<usize>,
    number: usize,
) -> M<()>
    requires numbers { AreNumbers code.now.frames (length code.now.ins) numbers.now }
    requires number { number < length code.now.handlers }
    requires asked { AreAskedBefore code.now number asked.old.items }
    ensures { IfOk result (λ _. AreAskedBefore code.now (number + 1) asked.new.items) }
{
    let stood = is_stood_for(alloc, code, numbers, asked.as_slice(), number)?;
    if stood {
        return Ok(());
    }
    let place = place_stood_for(alloc, code, numbers, asked.as_slice(), number)?;
    if let Some(at) = place {
        asked[at] = number;
        return Ok(());
    }
    asked.push(number)?;
    Ok(())
}

/// Whether the last of these handlers stands for another one.
fn is_stood_for(
    alloc: Global,
    code: &Code,
    numbers: &[Option<usize>],
    asked: &[usize],
    number: usize,
) -> M<bool>
    requires numbers { AreNumbers code.now.frames (length code.now.ins) numbers.now }
    requires there { AreThere code.now asked.now }
    requires number { number < length code.now.handlers }
    ensures { IfOk result (λ is. IsTrue is → IsStoodFor code.now asked.now number) }
{
    let count = asked.len();
    if count == 0 {
        return Ok(false);
    }
    let last = &code.handlers[asked[count - 1]];
    stands_for(alloc, code, numbers, last, &code.handlers[number])
}

/// The place of the last of these handlers, if another one stands for it.
fn place_stood_for(
    alloc: Global,
    code: &Code,
    numbers: &[Option<usize>],
    asked: &[usize],
    number: usize,
) -> M<Option<usize>>
    requires numbers { AreNumbers code.now.frames (length code.now.ins) numbers.now }
    requires there { AreThere code.now asked.now }
    requires number { number < length code.now.handlers }
    ensures { IfOk result (λ place. IfSome place (StandsForPlace code.now asked.now number)) }
{
    let count = asked.len();
    if count == 0 {
        return Ok(None);
    }
    let at = count - 1;
    let last = &code.handlers[asked[at]];
    if stands_for(alloc, code, numbers, &code.handlers[number], last)? {
        Ok(Some(at))
    } else {
        Ok(None)
    }
}

fn stands_for(
    alloc: Global,
    code: &Code,
    numbers: &[Option<usize>],
    one: &Handler,
    other: &Handler,
) -> M<bool>
    requires numbers { AreNumbers code.now.frames (length code.now.ins) numbers.now }
    ensures { IfOk result (λ does. IsTrue does → StandsFor code.now one.now other.now) }
{
    if other.from < one.from || one.to < other.to {
        return Ok(false);
    }
    has_same_locals(alloc, code, numbers, one.entry, other.entry)
}

/// Whether the same locals are declared at two instructions. Where none are, this isn't told.
fn has_same_locals(
    alloc: Global,
    code: &Code,
    numbers: &[Option<usize>],
    one: u32,
    other: u32,
) -> M<bool>
    requires numbers { AreNumbers code.now.frames (length code.now.ins) numbers.now }
    ensures { IfOk result (λ has. IsTrue has → locals_at code.now one ≡ locals_at code.now other) }
{
    match (number_at(numbers, one), number_at(numbers, other)) {
        (Some(one), Some(other)) if one < code.frames.len() && other < code.frames.len() => {
            are_same_locals(alloc, &code.frames, one, other)
        }
        _ => Ok(false),
    }
}

fn number_at(numbers: &[Option<usize>], at: u32) -> Option<usize>
    ensures { result ≡ slice_index_or numbers.now at None }
{
    match numbers.get(at as usize) {
        Some(number) => *number,
        None => None,
    }
}

fn are_same_locals(alloc: Global, frames: &Frames, one: usize, other: usize) -> M<bool>
    requires one { one < length frames.now }
    requires other { other < length frames.now }
    ensures { IfOk result (λ are. IsTrue are → (frame_numbered frames.now one).frame.locals
        ≡ (frame_numbered frames.now other).frame.locals) }
{
    let shared = frames.shared(one, other);
    let one = frames.locals(alloc, one, shared)?;
    let other = frames.locals(alloc, other, shared)?;
    Ok(are_same_types(one.as_slice(), other.as_slice()))
}
