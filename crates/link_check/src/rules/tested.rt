// The references that break no rule in their class, remembered: a class has most of them many times.
//
// Each has one place by its texts, where the one that was tested last is remembered.
ghost use Rattle.std.specs.Prelude.{◌≡◌, ◌<◌, IfOk, IsTrue, List, None, Some, length, set};
ghost use Rattle.class_model.specs.declared.class.Class.{Class};
ghost use Rattle.link_check.specs.Profile.{least};
ghost use Rattle.link_check.specs.bodies.Tested.{AreTested, IsFor, use_kinds};

use crate::ProfileKind;
use crate::rules::calls::{plain_call_kind, special_call_kind};
use crate::rules::field_uses::{GET_FIELD, GET_STATIC, field_kind};
use crate::same::is_same_ref;
use crate::text_places::{PLACES, ref_place};
use class_model::MemberRef;
use class_pool::ClassSet;
use jv_base::{M, Name, Shared};
use std::alloc::Global;

/// What an instruction does with its reference, where it is the same in each method.
#[derive(Clone, Copy, PartialEq, Eq)]
pub(crate) enum RefUse {
    GetStatic,
    GetField,
    /// It calls a method that isn't static, and isn't invokespecial.
    Call,
    CallStatic,
    CallSpecial,
}

/// A reference that breaks no rule.
#[derive(Drop)]
pub(crate) struct TestedRef {
    /// The class that has the reference, by its number.
    pub from: u32,
    pub how: RefUse,
    pub reference: Shared<MemberRef>,
}

impl TestedRef {
    fn is_for(&self, from: u32, how: RefUse, r: &MemberRef) -> bool
        ensures { IsTrue result → IsFor from how r.now self.now }
    {
        self.from == from && self.how == how && is_same_ref(&self.reference, r)
    }
}

/// No reference at any place.
pub(crate) fn none_tested(alloc: Global) -> M<Vec<Option<TestedRef>>>
    ensures { IfOk result (λ tested. (classes : List Class) → AreTested classes tested.items) }
{
    let mut tested = Vec::with_capacity(alloc, PLACES)?;
    for _ in 0..PLACES {
        tested.push(None)?;
    }
    Ok(tested)
}

/// What is wrong with a reference that an instruction in a method of this name uses.
pub(crate) fn ref_kind(
    alloc: Global,
    set: &ClassSet,
    tested: &mut Vec<Option<TestedRef>>,
    number: u32,
    method: &Name,
    how: RefUse,
    r: &Shared<MemberRef>,
) -> M<Option<ProfileKind>>
    requires there { number < length set.now }
    requires tested { AreTested set.now tested.old.items }
    ensures tested { AreTested set.now tested.new.items }
    ensures kind { IfOk result (λ kind. kind ≡ least (use_kinds set.now number how r.now)) }
{
    let place = ref_place(r);
    if is_tested(tested.as_slice(), place, number, how, r) {
        return Ok(None);
    }
    let kind = use_kind(alloc, set, number, method, how, r)?;
    if kind.is_none() {
        keep(tested, place, number, how, r)?;
    }
    Ok(kind)
}

/// Whether the reference at this place is this one.
fn is_tested(
    tested: &[Option<TestedRef>],
    place: usize,
    from: u32,
    how: RefUse,
    r: &MemberRef,
) -> bool
    ensures { IsTrue result → (classes : List Class) → AreTested classes tested.now
        → least (use_kinds classes from how r.now) ≡ None }
{
    match tested.get(place) {
        Some(Some(one)) => one.is_for(from, how, r),
        _ => false,
    }
}

/// Remembers a reference in the stead of the one at its place.
fn keep(
    tested: &mut Vec<Option<TestedRef>>,
    place: usize,
    from: u32,
    how: RefUse,
    r: &Shared<MemberRef>,
) -> M<()>
    ensures { (classes : List Class) → AreTested classes tested.old.items
        → least (use_kinds classes from how r.now) ≡ None → AreTested classes tested.new.items }
{
    let reference = r.clone()?;
    put(
        tested,
        place,
        TestedRef {
            from,
            how,
            reference,
        },
    );
    Ok(())
}

fn put(tested: &mut Vec<Option<TestedRef>>, place: usize, one: TestedRef)
    ensures { tested.new.items ≡ set tested.old.items place (Some one) }
{
    if place < tested.len() {
        tested[place] = Some(one);
    }
}

/// What is wrong with a reference that is used so.
fn use_kind(
    alloc: Global,
    set: &ClassSet,
    number: u32,
    method: &Name,
    how: RefUse,
    r: &MemberRef,
) -> M<Option<ProfileKind>>
    requires there { number < length set.now }
    ensures { IfOk result (λ kind. kind ≡ least (use_kinds set.now number how r.now)) }
{
    match how {
        RefUse::GetStatic => field_kind(alloc, set, number, method, &GET_STATIC, r),
        RefUse::GetField => field_kind(alloc, set, number, method, &GET_FIELD, r),
        RefUse::Call => plain_call_kind(alloc, set, number, false, r),
        RefUse::CallStatic => plain_call_kind(alloc, set, number, true, r),
        RefUse::CallSpecial => special_call_kind(alloc, set, number, r),
    }
}
