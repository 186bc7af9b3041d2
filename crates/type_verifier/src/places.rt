// What is declared at the instructions of a code, and which of them are entered (JVMS 4.10.1.6).
ghost use Rattle.std.specs.Prelude.{◌≡◌, ◌<◌, nat_eq, false, IfOk, IfSome, None, Some, length, option_copied};
ghost use Rattle.std.specs.Prelude.{slice_get};
ghost use Rattle.std.specs.Prelude.{slice_index_or};
ghost use Rattle.std.specs.Option.{is_some};
ghost use Rattle.type_verifier.specs.declared.frame.TypeFrame.{TypeFrame};
ghost use Rattle.type_verifier.specs.Environment.{targets};
ghost use Rattle.type_verifier.specs.bodies.Places.{ArePlaces};
ghost use Rattle.type_verifier.specs.bodies.Marking.{is_among, is_begun, is_case, is_target};
ghost use Rattle.type_verifier.specs.bodies.Marks.{AreKept, AreNumbers, IsEntered, Marks, declared_numbered};

use crate::asked::asked_of;
use crate::chain::{Chain, chain_of};
use crate::frame::TypeFrame;
use crate::framing::declared_frame;
use class_model::{Case, Code, Frames, Handler, Ins, Op};
use jv_base::M;
use std::alloc::Global;

/// How many words the locals of the frames that are compared most often and kept take at most.
const KEPT_WORDS: usize = 4_194_304;

/// The same of the other frames at instructions that are entered.
const SPARE_WORDS: usize = 262_144;

/// For each instruction of a code the number of the frame that is declared there, whether it is a target or begins a
/// handler, and which handlers cover it as the first one; frames that are compared again, and handlers that are
/// asked about locals that change.
#[derive(Drop)]
pub(crate) struct Places {
    frames: Vec<Option<usize>>,
    entered: Vec<bool>,
    covered: Chain,
    /// By the numbers of the frames.
    kept: Vec<Option<TypeFrame>>,
    /// The numbers of the handlers that are asked about locals that change.
    asked: Vec<usize>,
}

pub(crate) fn places_of(alloc: Global, code: &Code) -> M<Places>
    ensures { IfOk result (ArePlaces code.now) }
{
    let frames = frame_numbers(alloc, &code.frames, code.ins.len())?;
    let entered = entered_of(alloc, code)?;
    let covered = chain_of(alloc, code.handlers.as_slice(), code.ins.len())?;
    let asked = asked_of(alloc, code, frames.as_slice())?;
    let kept = frames_compared(alloc, code, entered.as_slice(), asked.as_slice())?;
    Ok(Places {
        frames,
        entered,
        covered,
        kept,
        asked,
    })
}

// ---- frames

/// For each instruction the number of the first frame that is declared there.
fn frame_numbers(alloc: Global, frames: &Frames, count: usize) -> M<Vec<Option<usize>>>
    ensures { IfOk result (λ numbers. AreNumbers frames.now count numbers.items) }
{
    let mut numbers = vec![in alloc; None; count]?;
    let mut number = frames.len();
    while number > 0 {
        number -= 1;
        let at = frames.index(number) as usize;
        if at < count {
            numbers[at] = Some(number);
        }
    }
    Ok(numbers)
}

/// The frames that are compared again: at targets, and where handlers begin, those first that are asked about locals
/// that change.
fn frames_compared(
    alloc: Global,
    code: &Code,
    entered: &[bool],
    asked: &[usize],
) -> M<Vec<Option<TypeFrame>>>
    ensures { IfOk result (λ kept. AreKept code.now kept.items) }
{
    let mut compared = vec![in alloc; false; code.ins.len()]?;
    mark_instructions(compared.as_mut_slice(), code.ins.as_slice());
    mark_asked(compared.as_mut_slice(), code.handlers.as_slice(), asked);
    kept_frames(alloc, code, entered, compared.as_slice())
}

/// Marks where the handlers of these numbers begin.
fn mark_asked(compared: &mut [bool], handlers: &[Handler], asked: &[usize]) {
    for number in asked {
        if let Some(handler) = handlers.get(*number) {
            mark(compared, handler.entry);
        }
    }
}

/// The frames at instructions that are entered, as many as the bounds allow.
fn kept_frames(
    alloc: Global,
    code: &Code,
    entered: &[bool],
    compared: &[bool],
) -> M<Vec<Option<TypeFrame>>>
    ensures { IfOk result (λ kept. AreKept code.now kept.items) }
{
    let mut kept = Vec::new(alloc);
    let words = usize::from(code.max_locals) + 1;
    let (mut left, mut spare) = (KEPT_WORDS / words, SPARE_WORDS / words);
    for number in 0..code.frames.len() {
        let at = code.frames.index(number);
        let bound = if is_marked(compared, at) {
            &mut left
        } else {
            &mut spare
        };
        let wanted = is_marked(entered, at) && *bound > 0;
        if wanted {
            *bound -= 1;
        }
        kept.push(kept_frame(alloc, code, number, wanted)?)?;
    }
    Ok(kept)
}

/// A frame, where it is wanted.
fn kept_frame(alloc: Global, code: &Code, number: usize, wanted: bool) -> M<Option<TypeFrame>>
    ensures { IfOk result (λ kept. (f : TypeFrame) → kept ≡ Some f → declared_numbered code.now number ≡ Some f) }
{
    if wanted {
        declared_frame(alloc, code, number)
    } else {
        Ok(None)
    }
}

fn is_marked(marks: &[bool], at: u32) -> bool {
    matches!(marks.get(at as usize), Some(true))
}

// ---- instructions that are entered

fn entered_of(alloc: Global, code: &Code) -> M<Vec<bool>>
    ensures { IfOk result (λ entered. IsEntered code.now entered.items) }
{
    let mut entered = vec![in alloc; false; code.ins.len()]?;
    mark_instructions(entered.as_mut_slice(), code.ins.as_slice());
    mark_handlers(entered.as_mut_slice(), code.handlers.as_slice());
    Ok(entered)
}

/// Marks the targets of instructions.
fn mark_instructions(entered: &mut [bool], ins: &[Ins])
    ensures { Marks entered.old entered.new (is_target ins.now) }
{
    for i in ins {
        mark_targets(entered, &i.op);
    }
}

/// Marks where handlers begin.
fn mark_handlers(entered: &mut [bool], handlers: &[Handler])
    ensures { Marks entered.old entered.new (is_begun handlers.now) }
{
    for handler in handlers {
        mark(entered, handler.entry);
    }
}

fn mark_targets(entered: &mut [bool], op: &Op)
    ensures { Marks entered.old entered.new (is_among (targets op.now)) }
{
    match op {
        Op::IfZero(_, to)
        | Op::IfCmp(_, to)
        | Op::IfRef { to, .. }
        | Op::IfNull { to, .. }
        | Op::Goto(to) => mark_all(entered, &[*to]),
        Op::TableSwitch { other, cases, .. } => {
            mark(entered, *other);
            mark_all(entered, cases.as_slice());
        }
        Op::LookupSwitch { other, cases } => {
            mark(entered, *other);
            mark_cases(entered, cases.as_slice());
        }
        _ => {}
    }
}

fn mark_all(entered: &mut [bool], places: &[u32])
    ensures { Marks entered.old entered.new (is_among places.now) }
{
    for to in places {
        mark(entered, *to);
    }
}

fn mark_cases(entered: &mut [bool], cases: &[Case])
    ensures { Marks entered.old entered.new (is_case cases.now) }
{
    for case in cases {
        mark(entered, case.to);
    }
}

fn mark(entered: &mut [bool], to: u32)
    ensures { Marks entered.old entered.new (λ at. nat_eq at to) }
{
    let to = to as usize;
    if to < entered.len() {
        entered[to] = true;
    }
}

// ---- what the table has

impl Places {
    /// The number of the frame that is declared at an instruction.
    pub(crate) fn frame_number(&self, at: usize) -> Option<usize>
        requires { at < length self.now.frames.items }
        ensures { result ≡ slice_index_or self.now.frames.items at None }
    {
        self.frames[at]
    }

    /// Whether an instruction is a target or begins a handler.
    pub(crate) fn is_entered(&self, at: usize) -> bool
        requires { at < length self.now.entered.items }
        ensures { result ≡ slice_index_or self.now.entered.items at false }
    {
        self.entered[at]
    }

    /// Whether some handler covers an instruction as the first one.
    pub(crate) fn is_first_covered(&self, at: usize) -> bool
        requires { at < length self.now.covered.first.items }
        ensures { result ≡ is_some (slice_index_or self.now.covered.first.items at None) }
    {
        self.covered.first_at(at).is_some()
    }

    /// The handlers by the instructions that they cover as the first ones.
    pub(crate) fn covered(&self) -> &Chain
        ensures { result.now ≡ self.now.covered }
    {
        &self.covered
    }

    /// The frame of a number, if it is kept.
    pub(crate) fn kept(&self, number: usize) -> Option<&TypeFrame>
        ensures { IfSome (option_copied result) (λ f. slice_get self.now.kept.items number ≡ Some (Some f)) }
    {
        match self.kept.get(number) {
            Some(Some(frame)) => Some(frame),
            _ => None,
        }
    }

    /// The numbers of the handlers that are asked about locals that change.
    pub(crate) fn asked(&self) -> &[usize]
        ensures { result.now ≡ self.now.asked.items }
    {
        self.asked.as_slice()
    }
}
