// What is said of a set of class files.
ghost use Rattle.std.specs.Prelude.{◌≡◌, IfOk, Ok};
ghost use Rattle.link_check.specs.Profile.{links_checked};
ghost use Rattle.set_vectors.specs.Judgement.{IsJudged, IsJudgedSet};

use class_model::Class;
use class_pool::{ClassSet, NamedClass, PoolFault, build};
use jv_base::{Items, M, Or, OutOfMemory, Text};
use line_sets::are_listed;
use link_check::{ProfileFault, check_links};
use report_text::{class_text, member_text, name_text};
use std::alloc::Global;
use type_verifier::{TypeFault, verify_set};

/// What is said of a set.
#[derive(Drop)]
pub enum Judgement {
    Taken,
    /// The paths of the files don't ascend, or they are too many.
    NotListed,
    /// The files are no set.
    NoSet(PoolFault),
    /// A class breaks a rule of those that are taken.
    Breaks(Place, ProfileFault),
    /// A code isn't typed.
    Untyped(Place, TypeFault),
}

/// A class and a member of it, or the class itself, by their texts.
#[derive(Drop)]
pub struct Place {
    class: Text,
    member: Text,
}

/// Whether class files are taken as a set, or the first rule that they break.
pub fn judge(alloc: Global, files: Items<NamedClass>) -> M<Judgement>
    ensures { IfOk result (IsJudged files) }
{
    if !are_listed(files.as_slice()) {
        return Ok(Judgement::NotListed);
    }
    let set = match build(alloc, files) {
        Ok(set) => set,
        Err(Or::Fault(fault)) => return Ok(Judgement::NoSet(fault)),
        Err(Or::OutOfMemory) => return Err(OutOfMemory),
    };
    judge_set(alloc, &set)
}

fn judge_set(alloc: Global, set: &ClassSet) -> M<Judgement>
    ensures { IfOk result (IsJudgedSet set.now) }
{
    match check_links(alloc, set) {
        Ok(()) => judge_codes(alloc, set),
        Err(Or::Fault(fault)) => {
            let place = place_of(alloc, set, fault.class, fault.member)?;
            Ok(Judgement::Breaks(place, fault))
        }
        Err(Or::OutOfMemory) => Err(OutOfMemory),
    }
}

fn judge_codes(alloc: Global, set: &ClassSet) -> M<Judgement>
    requires { links_checked set.now ≡ Ok tt }
    ensures { IfOk result (IsJudgedSet set.now) }
{
    match verify_set(alloc, set) {
        Ok(()) => Ok(Judgement::Taken),
        Err(Or::Fault(fault)) => {
            let place = method_place(alloc, set, fault.class, fault.method)?;
            Ok(Judgement::Untyped(place, fault))
        }
        Err(Or::OutOfMemory) => Err(OutOfMemory),
    }
}

// ---- places

/// The texts of a class and of a method of it, by its number among the methods.
fn method_place(alloc: Global, set: &ClassSet, class: u32, method: u32) -> M<Place> {
    let member = if class < set.len() {
        let before = set.class(class).fields.len() as u32;
        before.checked_add(method)
    } else {
        None
    };
    place_of(alloc, set, class, member)
}

/// The texts of a class and of a member of it. Those of none are question marks.
fn place_of(alloc: Global, set: &ClassSet, class: u32, member: Option<u32>) -> M<Place> {
    if class < set.len() {
        let of = set.class(class);
        Ok(Place {
            class: class_text(alloc, of)?,
            member: text_of_member(alloc, of, member)?,
        })
    } else {
        Ok(Place {
            class: Text::from_str(alloc, "?")?,
            member: Text::from_str(alloc, "?")?,
        })
    }
}

fn text_of_member(alloc: Global, class: &Class, member: Option<u32>) -> M<Text> {
    let Some(number) = member else {
        return Ok(Text::from_str(alloc, "-")?);
    };
    let count = class.fields.len().saturating_add(class.methods.len());
    if (number as usize) < count {
        member_text(alloc, class, number)
    } else {
        Ok(Text::from_str(alloc, "?")?)
    }
}

// ---- texts

/// The line of an answer.
pub fn judgement_text(alloc: Global, judgement: &Judgement) -> M<Text> {
    match judgement {
        Judgement::Taken => Ok(Text::from_str(alloc, "ok")?),
        Judgement::NotListed => Ok(Text::from_str(alloc, "no list")?),
        Judgement::NoSet(fault) => no_set_text(alloc, fault),
        Judgement::Breaks(place, fault) => line_of(alloc, place, fault.kind.name()),
        Judgement::Untyped(place, fault) => untyped_text(alloc, place, fault),
    }
}

fn no_set_text(alloc: Global, fault: &PoolFault) -> M<Text> {
    let place = Place {
        class: name_text(alloc, &fault.class)?,
        member: Text::from_str(alloc, "-")?,
    };
    line_of(alloc, &place, fault.kind.name())
}

fn untyped_text(alloc: Global, place: &Place, fault: &TypeFault) -> M<Text> {
    let (kind, index) = (fault.kind.name(), fault.index);
    let rule = format!(in alloc; "Type {kind} {index}")?;
    line_of(alloc, place, rule.as_str())
}

fn line_of(alloc: Global, place: &Place, rule: &str) -> M<Text> {
    let (class, member) = (place.class.as_str(), place.member.as_str());
    let text = format!(in alloc; "profile {class} {member} {rule}")?;
    Ok(Text::from_string(alloc, text)?)
}
