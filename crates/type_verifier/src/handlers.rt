// Whether frames fit where handlers begin (JVMS 4.10.1.6).
//
// Handlers look at the locals and the flag alone. So where these are the same as at the previous instruction, which
// satisfied its handlers, only handlers that didn't cover that one are looked at. Where some words may have changed,
// and it is noted that the types that they hold fit, again only those are looked at; else those that stand for the
// others are looked at in these words.
ghost use Rattle.std.specs.Prelude.{◌≡◌, ◌<◌, ◌+◌, ◌⊎◌, false, length, IfOk, IsTrue, Some};
ghost use Rattle.std.specs.Cmp.Lexicographic.{pointwise};
ghost use Rattle.type_verifier.specs.Assignable.{is_assignable, is_frame_assignable};
ghost use Rattle.type_verifier.specs.Effects.{with_stack};
ghost use Rattle.type_verifier.specs.Walk.{caught_type, covers, fits_at, satisfies, satisfies_handlers};
ghost use Rattle.type_verifier.specs.bodies.Asked.{IsUncovered, covers_behind, covers_first, handler_at};
ghost use Rattle.type_verifier.specs.bodies.Asked.{satisfies_behind, satisfies_first, satisfies_if_behind};
ghost use Rattle.type_verifier.specs.bodies.Asked.{satisfies_if_first};
ghost use Rattle.type_verifier.specs.bodies.Noting.{AreFitting};
ghost use Rattle.type_verifier.specs.bodies.Places.{ArePlaces};
ghost use Rattle.type_verifier.specs.bodies.Seen.{environment_of};
ghost use Rattle.type_verifier.specs.bodies.Since.{AreElse, IsKnown, IsSince};

use crate::assignability::{are_assignable, assignable, is_stack_assignable};
use crate::changed::Changed;
use crate::declared::look_up;
use crate::environment::Env;
use crate::fitting::{Fitting, go_on, is_told};
use crate::frame::TypeFrame;
use crate::hierarchy::Hierarchy;
use crate::places::Places;
use crate::stack::Stack;
use crate::types::class_type;
use class_model::{Handler, VType};
use jv_base::M;
use std::alloc::Global;

/// Whether the frame before an instruction satisfies each handler that covers it, by what is noted and what changed
/// since the previous one. If it does, what it has is noted.
pub(crate) fn satisfies_handlers(
    alloc: Global,
    env: &Env,
    places: &Places,
    fitting: &mut Fitting,
    frame: &TypeFrame,
    since: Option<Changed>,
    at: u32,
) -> M<bool>
    requires places { ArePlaces env.now.code.now places.now }
    requires instruction { at < length env.now.code.now.ins }
    requires since { IsSince (environment_of env.now) at since frame.now }
    requires fitting { AreFitting (environment_of env.now) at fitting.old }
    ensures ok { IfOk result (λ ok. ok ≡ satisfies_handlers (environment_of env.now) at frame.now) }
    ensures fitting { IfOk result (λ ok. IsTrue ok → AreFitting (environment_of env.now) (at + 1) fitting.new) }
{
    if !are_satisfied(alloc, env, places, fitting, frame, since, at)? {
        return Ok(false);
    }
    go_on(env, places, fitting, frame, since, at)?;
    Ok(true)
}

fn are_satisfied(
    alloc: Global,
    env: &Env,
    places: &Places,
    fitting: &Fitting,
    frame: &TypeFrame,
    since: Option<Changed>,
    at: u32,
) -> M<bool>
    requires places { ArePlaces env.now.code.now places.now }
    requires instruction { at < length env.now.code.now.ins }
    requires since { IsSince (environment_of env.now) at since frame.now }
    requires fitting { AreFitting (environment_of env.now) at fitting.now }
    ensures { IfOk result (λ ok. ok ≡ satisfies_handlers (environment_of env.now) at frame.now) }
{
    if is_told(fitting, frame, since) {
        satisfies_first(alloc, env, places, frame, at)
    } else {
        ask_handlers(alloc, env, places, frame, since, at)
    }
}

/// The same by the handlers.
fn ask_handlers(
    alloc: Global,
    env: &Env,
    places: &Places,
    frame: &TypeFrame,
    since: Option<Changed>,
    at: u32,
) -> M<bool>
    requires places { ArePlaces env.now.code.now places.now }
    requires instruction { at < length env.now.code.now.ins }
    requires since { IsSince (environment_of env.now) at since frame.now }
    ensures { IfOk result (λ ok. ok ≡ satisfies_handlers (environment_of env.now) at frame.now) }
{
    let Some(changed) = since else {
        return satisfies_all(alloc, env, places, frame, at);
    };
    if changed.is_nothing() && !places.is_first_covered(at as usize) {
        return Ok(true);
    }
    satisfies_since(alloc, env, places, frame, changed, at)
}

fn satisfies_all(alloc: Global, env: &Env, places: &Places, frame: &TypeFrame, at: u32) -> M<bool>
    requires places { ArePlaces env.now.code.now places.now }
    ensures { IfOk result (λ ok. ok ≡ satisfies_handlers (environment_of env.now) at frame.now) }
{
    if !is_covered(env, places, at) {
        return Ok(true);
    }
    for handler in env.code.handlers.as_slice() {
        if covers(at, handler) && !satisfies(alloc, env, places, frame, handler)? {
            return Ok(false);
        }
    }
    Ok(true)
}

/// Whether some handler covers an instruction: then one does that stands for it.
fn is_covered(env: &Env, places: &Places, at: u32) -> bool
    requires places { ArePlaces env.now.code.now places.now }
    ensures { result ≡ false → IsUncovered env.now.code.now at }
{
    for number in places.asked() {
        if covers(at, &env.code.handlers[*number]) {
            return true;
        }
    }
    false
}

fn covers(at: u32, handler: &Handler) -> bool
    ensures { result ≡ covers at handler.now }
{
    handler.from <= at && at < handler.to
}

/// Whether what is caught is thrown, and fits with the locals where the handler begins.
fn satisfies(
    alloc: Global,
    env: &Env,
    places: &Places,
    frame: &TypeFrame,
    handler: &Handler,
) -> M<bool>
    requires places { ArePlaces env.now.code.now places.now }
    ensures { IfOk result (λ ok. ok ≡ satisfies (environment_of env.now) frame.now handler.now) }
{
    let caught = caught_type(env, handler)?;
    if frame.marked || !assignable(env.set, &caught, env.known.throwable()) {
        return Ok(false);
    }
    let mut stack = Stack::new(alloc);
    stack.push(caught)?;
    fits_handler(alloc, env, places, frame, &stack, handler.entry)
}

fn caught_type(env: &Env, handler: &Handler) -> M<VType>
    ensures { IfOk result (λ ty. ty ≡ caught_type handler.now) }
{
    match &handler.caught {
        Some(name) => Ok(VType::Object(class_type(name)?)),
        None => Ok(env.known.throwable().clone()?),
    }
}

/// Whether the locals of an unmarked frame and another stack fit where a handler begins.
fn fits_handler(
    alloc: Global,
    env: &Env,
    places: &Places,
    frame: &TypeFrame,
    stack: &Stack,
    entry: u32,
) -> M<bool>
    requires places { ArePlaces env.now.code.now places.now }
    requires marked { frame.now.marked ≡ false }
    ensures { IfOk result (λ fits. fits ≡ fits_at (environment_of env.now) (with_stack frame.now stack.now) entry) }
{
    let entry = entry as usize;
    if env.code.ins.len() <= entry {
        return Ok(false);
    }
    match look_up(alloc, env, places, entry)? {
        Some(declared) => Ok(is_handler_frame(env.set, frame, stack, declared.frame())),
        None => Ok(true),
    }
}

/// Whether the locals of an unmarked frame and another stack fit a frame.
fn is_handler_frame(set: &Hierarchy, from: &TypeFrame, stack: &Stack, to: &TypeFrame) -> bool
    requires { from.now.marked ≡ false }
    ensures { result ≡ is_frame_assignable set.now (with_stack from.now stack.now) to.now }
{
    are_assignable(set, from.locals.as_slice(), to.locals.as_slice())
        && is_stack_assignable(set, stack, &to.stack)
}

// ---- by what changed

fn satisfies_since(
    alloc: Global,
    env: &Env,
    places: &Places,
    frame: &TypeFrame,
    changed: Changed,
    at: u32,
) -> M<bool>
    requires places { ArePlaces env.now.code.now places.now }
    requires instruction { at < length env.now.code.now.ins }
    requires since { IsSince (environment_of env.now) at (Some changed) frame.now }
    ensures { IfOk result (λ ok. ok ≡ satisfies_handlers (environment_of env.now) at frame.now) }
{
    if !satisfies_first(alloc, env, places, frame, at)? {
        return Ok(false);
    }
    satisfies_behind(alloc, env, places, frame, changed, at)
}

/// The same of the handlers that cover the instruction as the first one, of which nothing is known.
fn satisfies_first(alloc: Global, env: &Env, places: &Places, frame: &TypeFrame, at: u32) -> M<bool>
    requires places { ArePlaces env.now.code.now places.now }
    requires instruction { at < length env.now.code.now.ins }
    ensures { IfOk result (λ ok. ok ≡ satisfies_first (environment_of env.now) at frame.now) }
{
    let chain = places.covered();
    let mut next = chain.first_at(at as usize);
    while let Some(number) = next {
        if !satisfies_if_first(alloc, env, places, frame, at, number)? {
            return Ok(false);
        }
        next = chain.next_of(number);
    }
    Ok(true)
}

/// The same of the handler of a number.
fn satisfies_if_first(
    alloc: Global,
    env: &Env,
    places: &Places,
    frame: &TypeFrame,
    at: u32,
    number: usize,
) -> M<bool>
    requires places { ArePlaces env.now.code.now places.now }
    requires there { number < length env.now.code.now.handlers }
    ensures { IfOk result (λ ok.
        ok ≡ satisfies_if_first (environment_of env.now) at frame.now (handler_at env.now.code.now number)) }
{
    let handler = &env.code.handlers[number];
    if covers_first(at, handler) {
        satisfies(alloc, env, places, frame, handler)
    } else {
        Ok(true)
    }
}

fn covers_first(at: u32, handler: &Handler) -> bool
    ensures { result ≡ covers_first at handler.now }
{
    at == handler.from && covers(at, handler)
}

/// The same of the handlers that cover the previous instruction too, which that satisfied. Those are asked that stand
/// for all.
fn satisfies_behind(
    alloc: Global,
    env: &Env,
    places: &Places,
    frame: &TypeFrame,
    changed: Changed,
    at: u32,
) -> M<bool>
    requires places { ArePlaces env.now.code.now places.now }
    requires since { IsSince (environment_of env.now) at (Some changed) frame.now }
    ensures { IfOk result (λ ok. ok ≡ satisfies_behind (environment_of env.now) at frame.now) }
{
    if changed.is_nothing() {
        return Ok(true);
    }
    for number in places.asked() {
        if !satisfies_if_behind(alloc, env, places, frame, changed, at, *number)? {
            return Ok(false);
        }
    }
    Ok(true)
}

/// The same of the handler of a number, if it covers the previous instruction too.
fn satisfies_if_behind(
    alloc: Global,
    env: &Env,
    places: &Places,
    frame: &TypeFrame,
    changed: Changed,
    at: u32,
    number: usize,
) -> M<bool>
    requires places { ArePlaces env.now.code.now places.now }
    requires since { IsSince (environment_of env.now) at (Some changed) frame.now }
    requires there { number < length env.now.code.now.handlers }
    ensures { IfOk result (λ ok.
        ok ≡ satisfies_if_behind (environment_of env.now) at frame.now (handler_at env.now.code.now number)) }
{
    let handler = &env.code.handlers[number];
    if covers_behind(at, handler) {
        fits_changed(alloc, env, places, frame, changed, handler)
    } else {
        Ok(true)
    }
}

fn covers_behind(at: u32, handler: &Handler) -> bool
    ensures { result ≡ covers_behind at handler.now }
{
    handler.from < at && at < handler.to
}

/// The same of a handler that the frame satisfied before some words changed.
fn fits_changed(
    alloc: Global,
    env: &Env,
    places: &Places,
    frame: &TypeFrame,
    changed: Changed,
    handler: &Handler,
) -> M<bool>
    requires places { ArePlaces env.now.code.now places.now }
    requires known { IsKnown (environment_of env.now) handler.now changed frame.now }
    ensures { IfOk result (λ ok. ok ≡ satisfies (environment_of env.now) frame.now handler.now) }
{
    let entry = handler.entry as usize;
    if env.code.ins.len() <= entry {
        return Ok(false);
    }
    match look_up(alloc, env, places, entry)? {
        Some(declared) => {
            let locals = declared.frame().locals.as_slice();
            Ok(are_assignable_in(env.set, changed, frame.locals.as_slice(), locals))
        }
        None => Ok(true),
    }
}

/// Whether locals fit others, where all but those that may have changed do.
fn are_assignable_in(set: &Hierarchy, changed: Changed, from: &[VType], to: &[VType]) -> bool
    requires known { AreElse (is_assignable set.now) changed from.now to.now }
    ensures { result ≡ pointwise (is_assignable set.now) from.now to.now }
{
    let end = changed.to.min(from.len());
    for index in changed.from..end {
        if !assignable(set, &from[index], &to[index]) {
            return false;
        }
    }
    true
}
