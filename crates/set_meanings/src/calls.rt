// What calls run (JVMS 6.5.invokestatic, 6.5.invokespecial, 6.5.invokevirtual, 6.5.invokeinterface).
ghost use Rattle.std.specs.Prelude.{◌≡◌, IfOk, IfSome, Some, if◌then◌else◌, true};
ghost use Rattle.std.specs.Option.{option_map, option_map_or};
ghost use Rattle.lib_table.specs.Lookups.{class_at};
ghost use Rattle.class_pool.specs.Found.{IsMember, is_public_member, named_at};
ghost use Rattle.class_pool.specs.Hierarchy.{IsClass};
ghost use Rattle.class_pool.specs.Selection.{selected};
ghost use Rattle.jvm_model.specs.Exceptions.{AbstractMethod};
ghost use Rattle.jvm_model.specs.LibraryRows.{row_of};
ghost use Rattle.jvm_model.specs.Program.{Fails, Library};
ghost use Rattle.run_heap.specs.Targets.{IsTarget};
ghost use Rattle.set_view.specs.ViewOf.{array_from, array_target_of, checked, is_selected, key_at, method_of};
ghost use Rattle.set_view.specs.ViewOf.{selected_from, selected_of, shape_of, special_of, static_of, target_at};
ghost use Rattle.set_view.specs.ViewOf.{target_in, target_of};

use crate::members::key_at;
use crate::names::{class_text, is_above_arrays};
use class_model::MemberRef;
use class_pool::{ClassId, ClassSet, MemberAt};
use jv_base::{M, Name};
use lib_table::{LibId, lib_name};
use link_check::{class_of, is_below, method_found, select_for, select_special_for};
use run_heap::Target;
use run_library::{Exception, row_of};
use std::alloc::Global;

/// What invokestatic runs.
pub fn static_target(alloc: Global, set: &ClassSet, r: &MemberRef) -> M<Option<Target>>
    ensures { IfOk result (λ target. IsTarget target (static_of set.now r.now)) }
{
    let Some(class) = class_of(set, r) else {
        return Ok(None);
    };
    match method_of(set, class, r) {
        Some(m) => target_at(alloc, set, r, &m),
        None => Ok(None),
    }
}

/// What invokespecial runs in a class.
pub fn special_target(
    alloc: Global,
    set: &ClassSet,
    from: &Name,
    r: &MemberRef,
) -> M<Option<Target>>
    ensures { IfOk result (λ target. IsTarget target ((shape_of set.now).special_target from.now r.now)) }
{
    match set.find(from) {
        Some(from) => special_of(alloc, set, from, r),
        None => Ok(None),
    }
}

fn special_of(alloc: Global, set: &ClassSet, from: ClassId, r: &MemberRef) -> M<Option<Target>>
    requires { IsClass set.now from }
    ensures { IfOk result (λ target. IsTarget target (special_of set.now r.now from)) }
{
    let Some(class) = &class_of(set, r) else {
        return Ok(None);
    };
    match method_of(set, *class, r) {
        Some(m) => target_of(alloc, set, r, select_special_for(set, from, *class, r, m)),
        None => Ok(None),
    }
}

/// What invokevirtual and invokeinterface run on a receiver of a class.
pub fn selected_target(
    alloc: Global,
    set: &ClassSet,
    class: &Name,
    r: &MemberRef,
) -> M<Option<Target>>
    ensures { IfOk result (λ target. IsTarget target ((shape_of set.now).selected_target class.now r.now)) }
{
    match set.find(class) {
        Some(class) => selected_of(alloc, set, class, r),
        None => Ok(None),
    }
}

fn selected_of(alloc: Global, set: &ClassSet, of: ClassId, r: &MemberRef) -> M<Option<Target>>
    requires { IsClass set.now of }
    ensures { IfOk result (λ target. IsTarget target (selected_of set.now r.now of)) }
{
    let of = &of;
    if set.is_interface(*of) {
        return Ok(None);
    }
    let Some(class) = &class_of(set, r) else {
        return Ok(None);
    };
    match method_of(set, *class, r) {
        Some(m) => selected_from(alloc, set, r, of, class, &m),
        None => Ok(None),
    }
}

fn selected_from(
    alloc: Global,
    set: &ClassSet,
    r: &MemberRef,
    of: &ClassId,
    class: &ClassId,
    m: &MemberAt,
) -> M<Option<Target>>
    requires of { IsClass set.now of.now }
    requires there { IsMember set.now m.now }
    requires named { named_at set.now m.now ≡ (r.now.name, r.now.ty) }
    ensures { IfOk result (λ target. IsTarget target (selected_from set.now r.now of.now class.now m.now)) }
{
    if is_below(set, *of, *class) && is_below(set, *of, m.class) {
        selected_by(alloc, set, r, of, m)
    } else if r.of_interface {
        Ok(Some(Target::Fails(Exception::IncompatibleChange)))
    } else {
        Ok(None)
    }
}

fn selected_by(
    alloc: Global,
    set: &ClassSet,
    r: &MemberRef,
    of: &ClassId,
    m: &MemberAt,
) -> M<Option<Target>>
    requires of { IsClass set.now of.now }
    requires there { IsMember set.now m.now }
    requires named { named_at set.now m.now ≡ (r.now.name, r.now.ty) }
    ensures { IfOk result (λ target. IsTarget target (if is_selected set.now m.now
        then checked set.now r.now.of_interface (selected set.now of.now m.now) else Some (Fails AbstractMethod))) }
{
    if is_selected(set, m) {
        checked(alloc, set, r, select_for(set, *of, r, *m))
    } else {
        Ok(Some(Target::Fails(Exception::AbstractMethod)))
    }
}

/// Whether a method is selected by the receiver's class.
fn is_selected(set: &ClassSet, m: &MemberAt) -> bool
    requires { IsMember set.now m.now }
    ensures { result ≡ is_selected set.now m.now }
{
    !set.is_interface(m.class) || (set.is_instance_method(*m) && !set.is_private_member(*m))
}

/// A method that was selected, which has to be public where the reference is to one of an interface.
fn checked(alloc: Global, set: &ClassSet, r: &MemberRef, m: Option<MemberAt>) -> M<Option<Target>>
    requires there { IfSome m (IsMember set.now) }
    requires named { IfSome m (λ x. named_at set.now x ≡ (r.now.name, r.now.ty)) }
    ensures { IfOk result (λ target. IsTarget target (checked set.now r.now.of_interface m)) }
{
    if r.of_interface && !is_open(set, &m) {
        return Ok(Some(Target::Fails(Exception::IllegalAccess)));
    }
    target_of(alloc, set, r, m)
}

fn is_open(set: &ClassSet, m: &Option<MemberAt>) -> bool
    requires { IfSome m.now (IsMember set.now) }
    ensures { result ≡ option_map_or (is_public_member set.now) m.now true }
{
    match m {
        Some(m) => set.is_public_member(*m),
        None => true,
    }
}

/// What invokevirtual and invokeinterface run on an array.
pub fn array_target(alloc: Global, set: &ClassSet, r: &MemberRef) -> M<Option<Target>>
    ensures { IfOk result (λ target. IsTarget target (array_target_of set.now r.now)) }
{
    let Some(class) = &class_of(set, r) else {
        return Ok(None);
    };
    match method_of(set, *class, r) {
        Some(m) => array_from(alloc, set, r, class, &m),
        None => Ok(None),
    }
}

fn array_from(
    alloc: Global,
    set: &ClassSet,
    r: &MemberRef,
    class: &ClassId,
    m: &MemberAt,
) -> M<Option<Target>>
    requires class { IsClass set.now class.now }
    requires there { IsMember set.now m.now }
    requires named { named_at set.now m.now ≡ (r.now.name, r.now.ty) }
    ensures { IfOk result (λ target. IsTarget target (array_from set.now r.now class.now m.now)) }
{
    if is_above_arrays(class_text(set, *class)) {
        target_at(alloc, set, r, m)
    } else if r.of_interface {
        Ok(Some(Target::Fails(Exception::IncompatibleChange)))
    } else {
        Ok(None)
    }
}

/// The method that a class finds for a reference.
fn method_of(set: &ClassSet, class: ClassId, r: &MemberRef) -> Option<MemberAt>
    requires { IsClass set.now class }
    ensures is { result ≡ method_of set.now r.now class }
    ensures there { IfSome result (IsMember set.now) }
    ensures named { IfSome result (λ m. named_at set.now m ≡ (r.now.name, r.now.ty)) }
{
    method_found(set, &class, &r.name, &r.ty)
}

/// A method that was selected; where none is, an exception is due.
fn target_of(alloc: Global, set: &ClassSet, r: &MemberRef, m: Option<MemberAt>) -> M<Option<Target>>
    requires there { IfSome m (IsMember set.now) }
    requires named { IfSome m (λ x. named_at set.now x ≡ (r.now.name, r.now.ty)) }
    ensures { IfOk result (λ target. IsTarget target (target_of set.now m)) }
{
    match m {
        Some(m) => target_at(alloc, set, r, &m),
        None => Ok(Some(Target::Fails(Exception::AbstractMethod))),
    }
}

/// A method runs, unless it is abstract.
fn target_at(alloc: Global, set: &ClassSet, r: &MemberRef, m: &MemberAt) -> M<Option<Target>>
    requires there { IsMember set.now m.now }
    requires named { named_at set.now m.now ≡ (r.now.name, r.now.ty) }
    ensures { IfOk result (λ target. IsTarget target (target_at set.now m.now)) }
{
    if set.is_abstract_member(*m) {
        return Ok(Some(Target::Fails(Exception::AbstractMethod)));
    }
    target_in(alloc, set, r, m)
}

fn target_in(alloc: Global, set: &ClassSet, r: &MemberRef, m: &MemberAt) -> M<Option<Target>>
    requires there { IsMember set.now m.now }
    requires named { named_at set.now m.now ≡ (r.now.name, r.now.ty) }
    ensures { IfOk result (λ target. IsTarget target (target_in m.now.class (key_at set.now m.now))) }
{
    match m.class {
        ClassId::Prog(_) => {
            let key = key_at(alloc, set, m, &r.name, &r.ty)?;
            Ok(Some(Target::Program(key)))
        }
        ClassId::Lib(id) => Ok(library_target(id, r)),
    }
}

fn library_target(id: LibId, r: &MemberRef) -> Option<Target>
    ensures { IsTarget result (option_map Library (row_of
        (record { class = (class_at id).name; name = r.now.name; descriptor = r.now.ty }))) }
{
    let row = row_of(lib_name(id), r.name.as_str(), r.ty.as_str())?;
    Some(Target::Library(row))
}
