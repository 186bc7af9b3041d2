// Which sets of classes are taken.
ghost use Rattle.std.specs.Prelude.{◌≡◌, ◌+◌, ◌<◌, IfOk, Some, length, slice_get};
ghost use Rattle.std.specs.List.{enumerate_from, filter_map, flat_map};
ghost use Rattle.jv_base.specs.Longest.{IfFault};
ghost use Rattle.jv_base.specs.Outcome.{IsDue};
ghost use Rattle.class_pool.specs.Resolution.{first};
ghost use Rattle.link_check.specs.bodies.Inherited.{AreKnown};
ghost use Rattle.link_check.specs.bodies.Tested.{AreTested};
ghost use Rattle.link_check.specs.Profile.{IsPlace, fault_at, faults_of, kinds_of_field, kinds_of_method};
ghost use Rattle.link_check.specs.Profile.{links_checked};

use crate::ProfileFault;
use crate::overriding::inherited::{Known, known_of_all};
use crate::rules::places::{kind_of_class, kind_of_field, kind_of_method};
use crate::rules::tested::{TestedRef, none_tested};
use class_model::Class;
use class_pool::ClassSet;
use jv_base::{M, Or};
use std::alloc::Global;

/// Tests the rules that the classes of a set have to meet beside those of the format: nothing is left out, and
/// references, overriding and what runs for the methods of interfaces are as they have to be (JVMS 4.10, 5.4.3 to
/// 5.4.5, 6.5). The error is the first place that breaks a rule, class after class in order, in each the class itself,
/// its fields and then its methods; of several kinds there the first one in the order of `ProfileKind`. A descriptor
/// that a reference names and that is longer than any class file has room for is answered as want of memory.
pub fn check_links(alloc: Global, set: &ClassSet) -> Result<(), Or<ProfileFault>>
    ensures due { IsDue result (links_checked set.now) }
    ensures place { IfFault result (IsPlace set.now) }
{
    match first_fault(alloc, set)? {
        Some(fault) => Err(Or::Fault(fault)),
        None => Ok(()),
    }
}

fn first_fault(alloc: Global, set: &ClassSet) -> M<Option<ProfileFault>>
    ensures { IfOk result (λ fault. fault ≡ first
        (flat_map (λ p. faults_of set.now p.0 p.1) (enumerate_from 0 set.now))) }
{
    let known = known_of_all(alloc, set)?;
    let mut tested = none_tested(alloc)?;
    for number in 0..set.len() {
        let fault = fault_of(
            alloc,
            set,
            known.as_slice(),
            &mut tested,
            number,
            set.class(number),
        )?;
        if fault.is_some() {
            return Ok(fault);
        }
    }
    Ok(None)
}

/// The first fault of a class.
fn fault_of(
    alloc: Global,
    set: &ClassSet,
    known: &[Option<Known>],
    tested: &mut Vec<Option<TestedRef>>,
    number: u32,
    class: &Class,
) -> M<Option<ProfileFault>>
    requires there { number < length set.now }
    requires known { AreKnown set.now known.now }
    requires class { slice_get set.now number ≡ Some class.now }
    requires few { length class.now.fields + length class.now.methods < 4294967295 }
    requires tested { AreTested set.now tested.old.items }
    ensures tested { AreTested set.now tested.new.items }
    ensures fault { IfOk result (λ fault. fault ≡ first (faults_of set.now number class.now)) }
{
    if let Some(kind) = kind_of_class(set, known, number, class) {
        return Ok(Some(ProfileFault {
            class: number,
            member: None,
            kind,
        }));
    }
    if let Some(fault) = field_fault(set, number, class) {
        return Ok(Some(fault));
    }
    method_fault(alloc, set, known, tested, number, class)
}

/// The first fault of its fields.
fn field_fault(set: &ClassSet, number: u32, class: &Class) -> Option<ProfileFault>
    requires there { number < length set.now }
    requires few { length class.now.fields + length class.now.methods < 4294967295 }
    ensures { result ≡ first (filter_map (λ p. fault_at number (Some p.0)
        (kinds_of_field set.now number class.now p.0 p.1)) (enumerate_from 0 class.now.fields)) }
{
    for index in 0..class.fields.len() as u32 {
        let field = &class.fields[index as usize];
        if let Some(kind) = kind_of_field(set, number, class, index, field) {
            return Some(ProfileFault {
                class: number,
                member: Some(index),
                kind,
            });
        }
    }
    None
}

/// The first fault of its methods.
fn method_fault(
    alloc: Global,
    set: &ClassSet,
    known: &[Option<Known>],
    tested: &mut Vec<Option<TestedRef>>,
    number: u32,
    class: &Class,
) -> M<Option<ProfileFault>>
    requires there { number < length set.now }
    requires known { AreKnown set.now known.now }
    requires class { slice_get set.now number ≡ Some class.now }
    requires few { length class.now.fields + length class.now.methods < 4294967295 }
    requires tested { AreTested set.now tested.old.items }
    ensures tested { AreTested set.now tested.new.items }
    ensures fault { IfOk result (λ fault. fault ≡ first
        (filter_map (λ p. fault_at number (Some p.0) (kinds_of_method set.now number class.now p.0 p.1))
        (enumerate_from (length class.now.fields) class.now.methods))) }
{
    let before = class.fields.len() as u32;
    for at in 0..class.methods.len() as u32 {
        let method = &class.methods[at as usize];
        let index = before + at;
        if let Some(kind) = kind_of_method(
            alloc, set, known, tested, number, class, index, method,
        )? {
            return Ok(Some(ProfileFault {
                class: number,
                member: Some(index),
                kind,
            }));
        }
    }
    Ok(None)
}
