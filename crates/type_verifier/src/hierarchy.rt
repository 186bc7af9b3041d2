// Whether classes are below others, without going over all superclasses (JVMS 4.10.1.2, isJavaSubclassOf).
//
// Of each class it is known how many stand from it upwards, and a class above it to which a walk may go at once. Which
// one that is isn't proved, and only speed rests on it: it is chosen so that a walk takes a number of steps in the
// order of the logarithm of the height. Nor is proved in which order classes are looked at (`known` of `class_pool`).
ghost use Rattle.std.specs.Prelude.{◌≡◌, ◌≤◌, ◌<◌, IfOk, IfSome, None, Some, length, slice_index_or};
ghost use Rattle.std.specs.List.{All};
ghost use Rattle.class_pool.specs.declared.id.ClassId.{ClassId};
ghost use Rattle.class_pool.specs.declared.id.ClassId.TheVariants.{Prog};
ghost use Rattle.class_pool.specs.Hierarchy.{IsClass, class_named, superclass};
ghost use Rattle.class_pool.specs.Resolution.{is_class_below, is_interface_in};
ghost use Rattle.type_verifier.specs.bodies.Steps.{AreSteps, IsFar, IsFloor, IsStep, height};

use class_pool::{ClassId, ClassSet, Superclasses, known_at, superclass_number, unknown_from};
use jv_base::{M, Name};
use link_check::is_class_below;
use std::alloc::Global;
use std::marker::Model;

/// What is known of a class of the set.
#[derive(Clone, Copy)]
pub(crate) struct Step {
    /// How many classes stand from it upwards, itself with them.
    pub(crate) height: u64,
    /// The number of a class of the set above it, or its own.
    pub(crate) far: u32,
}

/// The classes of a set, with what is known of them.
#[derive(Drop)]
pub(crate) struct Hierarchy<'a> {
    set: &'a ClassSet,
    steps: &'a [Option<Step>],
}

impl<'a> Model for Hierarchy<'a> {
    ghost use Rattle.std.specs.Prelude.{List};
    ghost use Rattle.class_model.specs.declared.class.Class.{Class};
    ghost use Rattle.type_verifier.specs.bodies.Steps.{AreSteps};

    ghost Value = { List Class };

    ghost view = { λ h. h.set.now };

    ghost invariant = { λ h. AreSteps h.set.now h.steps.now };
}

impl<'a> Hierarchy<'a> {
    /// The classes of a set of which nothing is known.
    pub(crate) fn of(set: &'a ClassSet) -> Self
        ensures { result ≡ set.now }
    {
        Hierarchy { set, steps: &[] }
    }

    /// The classes of a set, with what is known of them.
    pub(crate) fn with(set: &'a ClassSet, steps: &'a [Option<Step>]) -> Self
        requires { AreSteps set.now steps.now }
        ensures { result ≡ set.now }
    {
        Hierarchy { set, steps }
    }

    /// The set.
    pub(crate) fn class_set(&self) -> &'a ClassSet
        ensures { result.now ≡ self.now }
    {
        self.set
    }

    /// The class of a name in internal form, in the set or in the library.
    pub(crate) fn find(&self, name: &Name) -> Option<ClassId>
        ensures found { result ≡ class_named self.now name.now }
        ensures there { IfSome result (IsClass self.now) }
    {
        self.set.find(name)
    }

    /// Whether a class is an interface.
    pub(crate) fn is_interface(&self, id: ClassId) -> bool
        requires { IsClass self.now id }
        ensures { result ≡ is_interface_in self.now id }
    {
        self.set.is_interface(id)
    }

    /// Whether a class is another one or a subclass of it. Takes no memory.
    pub(crate) fn is_below(&self, from: ClassId, to: ClassId) -> bool
        requires from { IsClass self.now from }
        requires to { IsClass self.now to }
        ensures { result ≡ is_class_below self.now from to }
    {
        match (from, to) {
            (ClassId::Prog(from), ClassId::Prog(to)) => {
                is_below_program(self.set, self.steps, from, to)
            }
            (ClassId::Prog(from), ClassId::Lib(_)) => {
                is_below_library(self.set, self.steps, from, to)
            }
            _ => is_class_below(self.set, from, to),
        }
    }
}

// ---- going up

fn is_below_program(set: &ClassSet, steps: &[Option<Step>], from: u32, to: u32) -> bool
    requires from { from < length set.now }
    requires to { to < length set.now }
    requires steps { AreSteps set.now steps.now }
    ensures { result ≡ is_class_below set.now (Prog from) (Prog to) }
{
    match known_at(steps, to) {
        Some(step) => is_below_at(set, steps, from, to, step.height),
        None => is_class_below(set, ClassId::Prog(from), ClassId::Prog(to)),
    }
}

/// The same where it is known how many classes stand from the other class upwards.
fn is_below_at(set: &ClassSet, steps: &[Option<Step>], from: u32, to: u32, floor: u64) -> bool
    requires from { from < length set.now }
    requires to { to < length set.now }
    requires steps { AreSteps set.now steps.now }
    requires floor { floor ≡ height set.now (Prog to) }
    ensures { result ≡ is_class_below set.now (Prog from) (Prog to) }
{
    let at = climb(set, steps, from, floor);
    is_met(set, steps, at, to, floor)
}

/// The same without going up where no higher class can be the other one.
fn is_met(set: &ClassSet, steps: &[Option<Step>], from: u32, to: u32, floor: u64) -> bool
    requires from { from < length set.now }
    requires to { to < length set.now }
    requires steps { AreSteps set.now steps.now }
    requires floor { floor ≡ height set.now (Prog to) }
    ensures { result ≡ is_class_below set.now (Prog from) (Prog to) }
{
    set.has_ranks();
    let _count = set.len();
    match known_at(steps, from) {
        Some(step) if step.height <= floor => from == to,
        _ => is_class_below(set, ClassId::Prog(from), ClassId::Prog(to)),
    }
}

fn is_below_library(set: &ClassSet, steps: &[Option<Step>], from: u32, to: ClassId) -> bool
    requires from { from < length set.now }
    requires to { IsClass set.now to }
    requires steps { AreSteps set.now steps.now }
    requires floor { IsFloor set.now 0 to }
    ensures { result ≡ is_class_below set.now (Prog from) to }
{
    let at = climb(set, steps, from, 0);
    is_class_below(set, ClassId::Prog(at), to)
}

/// The class to which a walk upwards comes: it is below each other class of at most such a height where the first one
/// is.
fn climb(set: &ClassSet, steps: &[Option<Step>], from: u32, floor: u64) -> u32
    requires there { from < length set.now }
    requires steps { AreSteps set.now steps.now }
    ensures there { result < length set.now }
    ensures same { (to : ClassId) → IsFloor set.now floor to
        → is_class_below set.now (Prog result) to ≡ is_class_below set.now (Prog from) to }
{
    let mut at = from;
    for _ in 0..set.len() {
        match next(set, steps, at, floor) {
            Some(next) => at = next,
            None => return at,
        }
    }
    at
}

fn next(set: &ClassSet, steps: &[Option<Step>], at: u32, floor: u64) -> Option<u32>
    requires there { at < length set.now }
    requires steps { AreSteps set.now steps.now }
    ensures there { IfSome result (λ next. next < length set.now) }
    ensures same { IfSome result (λ next. (to : ClassId) → IsFloor set.now floor to
        → is_class_below set.now (Prog next) to ≡ is_class_below set.now (Prog at) to) }
{
    let step = known_at(steps, at)?;
    if step.height <= floor {
        return None;
    }
    let far = known_at(steps, step.far)?;
    if floor <= far.height && far.height < step.height {
        Some(step.far)
    } else {
        next_above(set, at, floor, step.height)
    }
}

/// The superclass, which is another class than those of at most such a height.
fn next_above(set: &ClassSet, at: u32, floor: u64, over: u64) -> Option<u32>
    requires there { at < length set.now }
    requires height { over ≡ height set.now (Prog at) }
    requires floor { floor < over }
    ensures there { IfSome result (λ next. next < length set.now) }
    ensures same { IfSome result (λ next. (to : ClassId) → IsFloor set.now floor to
        → is_class_below set.now (Prog next) to ≡ is_class_below set.now (Prog at) to) }
{
    set.has_ranks();
    let _count = set.len();
    superclass_number(set, at)
}

// ---- what is known of each class

/// What is known of each class of a set, by its number.
pub(crate) fn steps_of(alloc: Global, set: &ClassSet) -> M<Vec<Option<Step>>>
    ensures { IfOk result (λ steps. AreSteps set.now steps.items) }
{
    let mut steps = vec![in alloc; None; set.len() as usize]?;
    for number in 0..set.len() {
        let unknown = unknown_from(alloc, set, steps.as_slice(), number)?;
        know(set, &mut steps, unknown.as_slice());
    }
    Ok(steps)
}

/// Looks at these classes, the last one first.
fn know(set: &ClassSet, steps: &mut Vec<Option<Step>>, numbers: &[u32])
    requires there { All (λ n. n < length set.now) numbers.now }
    requires count { length steps.old.items ≡ length set.now }
    requires steps { AreSteps set.now steps.old.items }
    ensures count { length steps.new.items ≡ length set.now }
    ensures steps { AreSteps set.now steps.new.items }
{
    let count = numbers.len();
    for at in 0..count {
        let number = numbers[count - 1 - at];
        let step = step_of(set, steps.as_slice(), number);
        steps[number as usize] = Some(step);
    }
}

fn step_of(set: &ClassSet, steps: &[Option<Step>], number: u32) -> Step
    requires there { number < length set.now }
    requires steps { AreSteps set.now steps.now }
    ensures { IsStep set.now number result }
{
    let Some(above) = superclass_number(set, number) else {
        return first_step(set, number);
    };
    match known_at(steps, above) {
        Some(step) => step_below(set, steps, number, above, step),
        None => first_step(set, number),
    }
}

/// What is known of a class by itself.
fn first_step(set: &ClassSet, number: u32) -> Step
    requires there { number < length set.now }
    ensures { IsStep set.now number result }
{
    Step {
        height: height_of(set, ClassId::Prog(number)),
        far: number,
    }
}

fn height_of(set: &ClassSet, class: ClassId) -> u64
    requires { IsClass set.now class }
    ensures { result ≡ height set.now class }
{
    let mut height = 0;
    for _ in Superclasses::of(set, class) {
        height += 1;
    }
    height
}

/// What is known of a class by its superclass.
fn step_below(set: &ClassSet, steps: &[Option<Step>], number: u32, above: u32, step: Step) -> Step
    requires there { number < length set.now }
    requires above { superclass set.now (Prog number) ≡ Some (Prog above) }
    requires step { IsStep set.now above step }
    requires steps { AreSteps set.now steps.now }
    ensures { IsStep set.now number result }
{
    set.has_ranks();
    let _count = set.len();
    Step {
        height: step.height + 1,
        far: far_above(set, steps, above, step),
    }
}

/// The class to which a walk goes at once from a class below this one: that to which two steps lead from here, where
/// both are as long, or this one.
fn far_above(set: &ClassSet, steps: &[Option<Step>], above: u32, step: Step) -> u32
    requires there { above < length set.now }
    requires step { IsStep set.now above step }
    requires steps { AreSteps set.now steps.now }
    ensures { IsFar set.now above result }
{
    let _count = set.len();
    match far_twice(set, steps, above, step) {
        Some(far) => far,
        None => above,
    }
}

fn far_twice(set: &ClassSet, steps: &[Option<Step>], above: u32, step: Step) -> Option<u32>
    requires step { IsStep set.now above step }
    requires steps { AreSteps set.now steps.now }
    ensures { IfSome result (IsFar set.now above) }
{
    let _count = set.len();
    let one = known_at(steps, step.far)?;
    let two = known_at(steps, one.far)?;
    if step.height.saturating_sub(one.height) == one.height.saturating_sub(two.height) {
        Some(one.far)
    } else {
        None
    }
}
