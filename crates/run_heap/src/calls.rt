// Calls of methods (JVMS 6.5.invokespecial, 6.5.invokevirtual, 6.5.invokeinterface).
ghost use Rattle.std.specs.Prelude.{◌≡◌, IfOk, List, Option};
ghost use Rattle.jvm_model.specs.Answers.{of_some};
ghost use Rattle.jvm_model.specs.Calls.{call_selected, call_special, called, target_on};
ghost use Rattle.jvm_model.specs.Heap.{World as Whole, string};
ghost use Rattle.jvm_model.specs.Program.{Target as Run};
ghost use Rattle.jvm_model.specs.Value.{Value};
ghost use Rattle.run_heap.specs.Answers.{Changes};
ghost use Rattle.run_heap.specs.bodies.Receivers.{IsChoice, IsReceiver, IsReceiverOf, choice_answer};
ghost use Rattle.run_heap.specs.Targets.{IsTarget, target_of};
ghost use Rattle.run_heap.specs.Worlds.{object_of};

use crate::acting::library;
use crate::objects::object_at;
use crate::pointed::{Pointed, refers_to};
use crate::{Answer, Known, Object, Shapes, Target, World};
use class_model::MemberRef;
use jv_base::{Items, M, Name};
use run_library::Exception;
use run_values::Value;
use std::alloc::Global;

/// What a call runs, with its arguments.
pub fn called(alloc: Global, world: &mut World, operands: Items<Value>, target: Target) -> M<Answer>
    ensures { IfOk result (λ a. Changes a world.old world.new (λ w. called w operands (target_of target))) }
{
    match target {
        Target::Program(method) => Ok(Answer::Begins(method, operands)),
        Target::Library(row) => library(alloc, world, row, operands.as_slice()),
        Target::Fails(exception) => Ok(Answer::Raises(exception)),
    }
}

/// What a call with a receiver runs.
#[derive(Drop)]
enum Choice {
    Runs(Target),
    /// The receiver is null.
    Null,
    /// There is no receiver, or it is no object, or nothing is told of the method.
    Nothing,
}

/// The receiver of a call.
enum Receiver<'a> {
    Null,
    Object(&'a Object),
    /// The string of a literal.
    Text,
    /// There is none, or it is no object.
    Missing,
}

fn first_receiver<'a>(world: &'a World, operands: &[Value]) -> Receiver<'a>
    ensures { IsReceiver result world.now operands.now }
{
    match operands {
        [first, ..] => receiver_of(world, first),
        [] => Receiver::Missing,
    }
}

fn receiver_of<'a>(world: &'a World, first: &Value) -> Receiver<'a>
    ensures { IsReceiverOf result world.now first.now }
{
    match refers_to(first) {
        Pointed::Null => Receiver::Null,
        Pointed::Object(number) => match object_at(world, number) {
            Some(object) => Receiver::Object(object),
            None => Receiver::Missing,
        },
        Pointed::Other => {
            if first.is_reference() {
                Receiver::Text
            } else {
                Receiver::Missing
            }
        }
    }
}

/// The target runs, if there is one.
fn runs(target: Option<Target>) -> Choice
    ensures { (due : Option Run) → IsTarget target due → (w : Whole) (vs : List Value)
        → choice_answer result w vs ≡ of_some (called w vs) due }
{
    match target {
        Some(target) => Choice::Runs(target),
        None => Choice::Nothing,
    }
}

fn special_choice<S: Shapes>(
    shapes: &S,
    world: &World,
    from: &Name,
    method: &MemberRef,
    operands: &[Value],
) -> M<Choice>
    ensures { IfOk result (λ c. IsChoice c world.now operands.now
        (λ o. (S.shape shapes.now).special_target from.now method.now)) }
{
    match first_receiver(world, operands) {
        Receiver::Null => Ok(Choice::Null),
        Receiver::Object(_) => Ok(runs(shapes.special_target(from, method)?)),
        Receiver::Text => Ok(runs(shapes.special_target(from, method)?)),
        Receiver::Missing => Ok(Choice::Nothing),
    }
}

fn selected_choice<S: Shapes>(
    shapes: &S,
    world: &World,
    method: &MemberRef,
    operands: &[Value],
) -> M<Choice>
    ensures { IfOk result (λ c. IsChoice c world.now operands.now (target_on (S.shape shapes.now) method.now)) }
{
    match first_receiver(world, operands) {
        Receiver::Null => Ok(Choice::Null),
        Receiver::Object(object) => Ok(runs(target_on(shapes, object, method)?)),
        Receiver::Text => Ok(runs(target_on_text(shapes, method)?)),
        Receiver::Missing => Ok(Choice::Nothing),
    }
}

/// What runs on an object.
fn target_on<S: Shapes>(shapes: &S, object: &Object, method: &MemberRef) -> M<Option<Target>>
    ensures { IfOk result (λ t. IsTarget t (target_on (S.shape shapes.now) method.now (object_of object.now))) }
{
    match object {
        Object::Instance(instance) => shapes.selected_target(&instance.class, method),
        Object::Array { .. } => shapes.array_target(method),
        Object::Text(_) => target_on_text(shapes, method),
        Object::Builder(_) => shapes.selected_target(shapes.name_of(Known::StringBuilder), method),
    }
}

/// What runs on a string.
fn target_on_text<S: Shapes>(shapes: &S, method: &MemberRef) -> M<Option<Target>>
    ensures { IfOk result (λ t. IsTarget t ((S.shape shapes.now).selected_target string method.now)) }
{
    shapes.selected_target(shapes.name_of(Known::String), method)
}

fn chosen(alloc: Global, world: &mut World, operands: Items<Value>, choice: Choice) -> M<Answer>
    ensures { IfOk result (λ a. Changes a world.old world.new (λ w. choice_answer choice w operands)) }
{
    match choice {
        Choice::Runs(target) => called(alloc, world, operands, target),
        Choice::Null => Ok(Answer::Raises(Exception::NullPointer)),
        Choice::Nothing => Ok(Answer::NoAnswer),
    }
}

/// A constructor, a private method or one of a superclass is called in a method of a class; the receiver is the first
/// operand, and isn't null (JVMS 6.5.invokespecial).
pub fn call_special<S: Shapes>(
    alloc: Global,
    shapes: &S,
    world: &mut World,
    from: &Name,
    method: &MemberRef,
    operands: Items<Value>,
) -> M<Answer>
    ensures { IfOk result (λ a. Changes a world.old world.new
        (λ w. call_special (S.shape shapes.now) from.now w method.now operands)) }
{
    let choice = special_choice(shapes, world, from, method, operands.as_slice())?;
    chosen(alloc, world, operands, choice)
}

/// A method is called that is selected by the class of the receiver, which is the first operand and isn't null
/// (JVMS 6.5.invokevirtual, 6.5.invokeinterface).
pub fn call_selected<S: Shapes>(
    alloc: Global,
    shapes: &S,
    world: &mut World,
    method: &MemberRef,
    operands: Items<Value>,
) -> M<Answer>
    ensures { IfOk result (λ a. Changes a world.old world.new
        (λ w. call_selected (S.shape shapes.now) w method.now operands)) }
{
    let choice = selected_choice(shapes, world, method, operands.as_slice())?;
    chosen(alloc, world, operands, choice)
}
