// Which codes, methods and sets are typed (JVMS 4.10.1).
ghost use Rattle.std.specs.Prelude.{◌≡◌, ◌<◌, Ok, Some, IfOk, length, slice_get};
ghost use Rattle.jv_base.specs.Longest.{IfFault};
ghost use Rattle.jv_base.specs.Outcome.{IsDue};
ghost use Rattle.class_model.specs.declared.class.Class.{Class};
ghost use Rattle.class_pool.specs.Resolution.{first};
ghost use Rattle.type_verifier.specs.Assignable.{is_assignable};
ghost use Rattle.type_verifier.specs.Verified.{AreTyped, IsPlace, IsTypedAt, JudgesMethod};
ghost use Rattle.type_verifier.specs.Verified.{JudgesSet, environment};
ghost use Rattle.type_verifier.specs.WithCode.{set_with_code};
ghost use Rattle.type_verifier.specs.bodies.FirstFaults.{fault_of, fault_of_set, faults_of, method_checked};
ghost use Rattle.type_verifier.specs.bodies.Walked.{code_checked};

use crate::TypeFault;
use crate::assignability::assignable as is_assignable;
use crate::environment::Env;
use crate::hierarchy::{Hierarchy, steps_of};
use crate::known::Known;
use crate::walk::check_code;
use class_model::{Class, Code, Method, VType};
use class_pool::ClassSet;
use jv_base::{M, Or, OutOfMemory};
use std::alloc::Global;

/// Whether a value of one type fits where one of another type is wanted. Takes no memory; superclasses are gone over
/// upwards.
pub fn assignable(set: &ClassSet, from: &VType, to: &VType) -> bool
    ensures { result ≡ is_assignable set.now from.now to.now }
{
    is_assignable(&Hierarchy::of(set), from, to)
}

/// Checks a code as that of a method, by the numbers of the class and of the method there: the answer is that for the
/// set in which the method has this code. The error is the first fault.
pub fn verify_code(
    alloc: Global,
    set: &ClassSet,
    class: u32,
    method: u32,
    code: &Code,
) -> Result<(), Or<TypeFault>>
    requires class { class < length set.now }
    requires method { (c : Class) → slice_get set.now class ≡ Some c → method < length c.methods }
    ensures judged { JudgesMethod result (set_with_code set.now class method code.now) class method }
    ensures typed { IsTypedAt (set_with_code set.now class method code.now) class method → IsDue result (Ok tt) }
{
    let of = set.class(class);
    check_alone(
        alloc,
        set,
        class,
        of,
        method,
        &of.methods[method as usize],
        code,
    )
}

/// Checks the code of a method, by the numbers of the class and of the method there; one without a code is taken. The
/// error is the first fault.
pub fn verify_method(
    alloc: Global,
    set: &ClassSet,
    class: u32,
    method: u32,
) -> Result<(), Or<TypeFault>>
    requires class { class < length set.now }
    requires method { (c : Class) → slice_get set.now class ≡ Some c → method < length c.methods }
    ensures judged { JudgesMethod result set.now class method }
    ensures typed { IsTypedAt set.now class method → IsDue result (Ok tt) }
{
    let of = set.class(class);
    check_own_code(alloc, set, class, of, method, &of.methods[method as usize])
}

/// The same of a method that is handed in.
fn check_own_code(
    alloc: Global,
    set: &ClassSet,
    own: u32,
    class: &Class,
    number: u32,
    method: &Method,
) -> Result<(), Or<TypeFault>>
    requires there { own < length set.now }
    ensures { IsDue result (method_checked set.now own class.now number method.now) }
{
    match &method.code {
        Some(code) => check_alone(alloc, set, own, class, number, method, code),
        None => Ok(()),
    }
}

/// Checks one code, with what is known of no class.
fn check_alone(
    alloc: Global,
    set: &ClassSet,
    own: u32,
    class: &Class,
    number: u32,
    method: &Method,
    code: &Code,
) -> Result<(), Or<TypeFault>>
    requires there { own < length set.now }
    ensures { IsDue result (code_checked (environment set.now own class.now number method.now code.now)) }
{
    let known = Known::new(alloc)?;
    let hierarchy = Hierarchy::of(set);
    check_one(alloc, &hierarchy, own, class, number, method, code, &known)
}

/// Checks the codes of all methods. The error is the first fault, class after class in order, method after method.
pub fn verify_set(alloc: Global, set: &ClassSet) -> Result<(), Or<TypeFault>>
    ensures judged { JudgesSet result set.now }
    ensures typed { AreTyped set.now → IsDue result (Ok tt) }
    ensures place { IfFault result (IsPlace set.now) }
{
    match first_fault(alloc, set)? {
        Some(fault) => Err(Or::Fault(fault)),
        None => Ok(()),
    }
}

fn first_fault(alloc: Global, set: &ClassSet) -> M<Option<TypeFault>>
    ensures { IfOk result (λ fault. fault ≡ fault_of_set set.now) }
{
    let known = Known::new(alloc)?;
    fault_by_steps(alloc, set, &known)
}

/// The same, with what is to be known of the classes.
fn fault_by_steps(alloc: Global, set: &ClassSet, known: &Known) -> M<Option<TypeFault>>
    ensures { IfOk result (λ fault. fault ≡ fault_of_set set.now) }
{
    let steps = steps_of(alloc, set)?;
    let hierarchy = Hierarchy::with(set, steps.as_slice());
    set_fault(alloc, set, &hierarchy, known)
}

/// The same, by what is known of the classes.
fn set_fault(
    alloc: Global,
    set: &ClassSet,
    hierarchy: &Hierarchy,
    known: &Known,
) -> M<Option<TypeFault>>
    requires same { hierarchy.now ≡ set.now }
    ensures { IfOk result (λ fault. fault ≡ fault_of_set set.now) }
{
    for number in 0..set.len() {
        if let Some(fault) = class_fault(alloc, hierarchy, number, set.class(number), known)? {
            return Ok(Some(fault));
        }
    }
    Ok(None)
}

/// The first fault of the methods of a class.
fn class_fault(
    alloc: Global,
    set: &Hierarchy,
    own: u32,
    class: &Class,
    known: &Known,
) -> M<Option<TypeFault>>
    requires there { own < length set.now }
    requires few { length class.now.methods < 4294967295 }
    ensures { IfOk result (λ fault. fault ≡ first (faults_of set.now own class.now)) }
{
    for number in 0..class.methods.len() as u32 {
        let method = &class.methods[number as usize];
        if let Some(fault) = method_fault(alloc, set, own, class, number, method, known)? {
            return Ok(Some(fault));
        }
    }
    Ok(None)
}

fn method_fault(
    alloc: Global,
    set: &Hierarchy,
    own: u32,
    class: &Class,
    number: u32,
    method: &Method,
    known: &Known,
) -> M<Option<TypeFault>>
    requires there { own < length set.now }
    ensures { IfOk result (λ fault. fault ≡ fault_of (method_checked set.now own class.now number method.now)) }
{
    match check_method(alloc, set, own, class, number, method, known) {
        Ok(()) => Ok(None),
        Err(Or::Fault(fault)) => Ok(Some(fault)),
        Err(Or::OutOfMemory) => Err(OutOfMemory),
    }
}

fn check_method(
    alloc: Global,
    set: &Hierarchy,
    own: u32,
    class: &Class,
    number: u32,
    method: &Method,
    known: &Known,
) -> Result<(), Or<TypeFault>>
    requires there { own < length set.now }
    ensures { IsDue result (method_checked set.now own class.now number method.now) }
{
    match &method.code {
        Some(code) => check_one(alloc, set, own, class, number, method, code, known),
        None => Ok(()),
    }
}

pub(crate) fn check_one(
    alloc: Global,
    set: &Hierarchy,
    own: u32,
    class: &Class,
    number: u32,
    method: &Method,
    code: &Code,
    known: &Known,
) -> Result<(), Or<TypeFault>>
    requires there { own < length set.now }
    ensures { IsDue result (code_checked (environment set.now own class.now number method.now code.now)) }
{
    let env = Env {
        set,
        own,
        class,
        number,
        method,
        code,
        known,
    };
    check_code(alloc, &env)
}
