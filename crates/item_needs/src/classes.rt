// What a class wants (JVMS 5.3.5, 5.5, 6.5).
#![tactic(auto, using(item_numbers::proofs::Gathering::in_turn, item_numbers::proofs::Gathering::nothing))]

ghost use Rattle.std.specs.Prelude.{◌≡◌, ◌<◌, [], ◌∷◌, OnOk, Some, if◌then◌else◌, length, map, slice_get};
ghost use Rattle.std.specs.Prelude.{slice_index_or};
ghost use Rattle.std.specs.List.{All, cons_option, flat_map};
ghost use Rattle.class_pool.specs.Found.{IsMember, IsMethod, is_instance_method, rows_in};
ghost use Rattle.class_pool.specs.declared.id.ClassId.TheVariants.{Lib, Prog};
ghost use Rattle.require_sys.specs.Requires.Item.{OfMember};
ghost use Rattle.require_sys.specs.Requires.{called_wants, class_wants, initialisation_wants, rule_wants, super_wants};
ghost use Rattle.item_needs.specs.bodies.Asked.{AreMembers};
ghost use Rattle.item_numbers.specs.bodies.Selecting.{called_by, called_in, called_item};
ghost use Rattle.item_numbers.specs.bodies.Wanting.{wanting};

use crate::named::{want_name, want_names};
use crate::wants::Wants;
use class_model::Class;
use class_pool::{ClassId, MemberAt};
use item_numbers::{has_member, is_declared_above, is_interface, library_supers};
use jv_base::{M, Text};
use lib_table::LibId;
use link_check::select;
use require_sys::KeptByRules;
use std::alloc::Global;

/// What the class with a number wants.
pub(crate) fn want_of_class(
    alloc: Global,
    wants: &mut Wants<'_>,
    kept: &KeptByRules,
    number: u32,
    class: &Class,
) -> M<()>
    requires there { slice_get wants.old.classes number ≡ Some class.now }
    requires members { AreMembers wants.old.classes kept.now.members }
    ensures { OnOk result (wants.new ≡ wanting wants.old (class_wants wants.old.classes kept.now number class.now)) }
{
    want_supertypes(wants, class)?;
    want_initialisation(alloc, wants, number)?;
    want_asked(wants, kept, number)?;
    want_called(alloc, wants, number, class)
}

fn want_supertypes(wants: &mut Wants<'_>, class: &Class) -> M<()>
    ensures { OnOk result (wants.new ≡ wanting wants.old (super_wants wants.old.classes class.now)) }
{
    want_name(wants, &class.super_name)?;
    want_names(wants, class.interfaces.as_slice())
}

/// The class initialisation method.
fn want_initialisation(alloc: Global, wants: &mut Wants<'_>, number: u32) -> M<()>
    requires { number < length wants.old.classes }
    ensures { OnOk result (wants.new ≡ wanting wants.old (initialisation_wants wants.old.classes number)) }
{
    let name = Text::from_str(alloc, "<clinit>")?;
    let ty = Text::from_str(alloc, "()V")?;
    match wants.set().declared_in(ClassId::Prog(number), &name, &ty) {
        Some(m) => wants.want_member(m),
        None => Ok(()),
    }
}

/// The members that rules on members alone ask for.
fn want_asked(wants: &mut Wants<'_>, kept: &KeptByRules, number: u32) -> M<()>
    requires there { number < length wants.old.classes }
    requires members { AreMembers wants.old.classes kept.now.members }
    ensures { OnOk result (wants.new ≡ wanting wants.old (rule_wants wants.old.classes kept.now number)) }
{
    want_members(wants, number, asked_of(kept, number))
}

fn asked_of(kept: &KeptByRules, number: u32) -> &[u32]
    ensures { result.now ≡ slice_index_or kept.now.members number [] }
{
    match kept.members.get(number as usize) {
        Some(members) => members.as_slice(),
        None => &[],
    }
}

fn want_members(wants: &mut Wants<'_>, number: u32, members: &[u32]) -> M<()>
    requires there { number < length wants.old.classes }
    requires members { All (λ k. k < length (rows_in wants.old.classes (Prog number))) members.now }
    ensures { OnOk result (wants.new ≡ wanting wants.old (map (λ k. OfMember
        (record { class = Prog number; index = k })) members.now)) }
{
    for index in members {
        want_numbered(wants, number, index)?;
    }
    Ok(())
}

fn want_numbered(wants: &mut Wants<'_>, number: u32, index: &u32) -> M<()>
    requires { IsMember wants.old.classes (record { class = Prog number; index = index.now }) }
    ensures { OnOk result (wants.new
        ≡ wanting wants.old (OfMember (record { class = Prog number; index = index.now }) ∷ [])) }
{
    let class = ClassId::Prog(number);
    let index = *index;
    wants.want_member(MemberAt { class, index })
}

/// The methods that run where the library calls those that it knows; no object is of an interface.
fn want_called(alloc: Global, wants: &mut Wants<'_>, number: u32, class: &Class) -> M<()>
    requires { number < length wants.old.classes }
    ensures { OnOk result (wants.new ≡ wanting wants.old (called_wants wants.old.classes number class.now)) }
{
    if is_interface(class) {
        return Ok(());
    }
    let top = wants.top(number);
    let libraries = library_supers(alloc, wants.set(), wants.library_top(top))?;
    want_called_by(wants, top, libraries.as_slice())
}

fn want_called_by(wants: &mut Wants<'_>, number: u32, ids: &[ClassId]) -> M<()>
    requires { number < length wants.old.classes }
    ensures { OnOk result (wants.new
        ≡ wanting wants.old (flat_map (called_by wants.old.classes number) ids.now)) }
{
    for id in ids {
        want_called_of(wants, number, id)?;
    }
    Ok(())
}

/// Those that run where the methods of one class are called, if that is of the library.
fn want_called_of(wants: &mut Wants<'_>, number: u32, id: &ClassId) -> M<()>
    requires { number < length wants.old.classes }
    ensures { OnOk result (wants.new ≡ wanting wants.old (called_by wants.old.classes number id.now)) }
{
    match id {
        ClassId::Lib(library) => want_called_in(wants, number, *library),
        ClassId::Prog(_) => Ok(()),
    }
}

/// Those that run where the methods of one class of the library are called.
fn want_called_in(wants: &mut Wants<'_>, number: u32, id: LibId) -> M<()>
    requires { number < length wants.old.classes }
    ensures { OnOk result (wants.new ≡ wanting wants.old (called_in wants.old.classes number (Lib id))) }
{
    for at in 0..u32::MAX {
        if !has_member(id, at) {
            return Ok(());
        }
        let m = MemberAt {
            class: ClassId::Lib(id),
            index: at,
        };
        want_run(wants, number, &m)?;
    }
    Ok(())
}

/// The method that runs where a member of the library is called, if this is an instance method. Where no class of the
/// set has its name and descriptor, that is of the library too.
fn want_run(wants: &mut Wants<'_>, number: u32, m: &MemberAt) -> M<()>
    requires there { number < length wants.old.classes }
    requires member { IsMember wants.old.classes m.now }
    ensures { OnOk result (wants.new ≡ wanting wants.old (if is_instance_method wants.old.classes m.now
        then cons_option (called_item wants.old.classes number m.now) [] else [])) }
{
    if wants.is_alone(m) {
        return Ok(());
    }
    if wants.set().is_instance_method(*m) {
        want_selected(wants, number, m)
    } else {
        Ok(())
    }
}

/// The method that runs where another one is called. Where no class of the set has one alike, that is of the library.
fn want_selected(wants: &mut Wants<'_>, number: u32, m: &MemberAt) -> M<()>
    requires there { number < length wants.old.classes }
    requires member { IsMember wants.old.classes m.now }
    requires method { IsMethod wants.old.classes m.now }
    ensures { OnOk result (wants.new
        ≡ wanting wants.old (cons_option (called_item wants.old.classes number m.now) [])) }
{
    if !is_declared_above(wants.set(), number, m) {
        return Ok(());
    }
    match select(wants.set(), ClassId::Prog(number), *m) {
        Some(selected) => wants.want_member(selected),
        None => Ok(()),
    }
}
