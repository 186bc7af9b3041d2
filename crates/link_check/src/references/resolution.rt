// Which field or method a reference means (JVMS 5.4.3.2 to 5.4.3.4).
ghost use Rattle.std.specs.Prelude.{◌≡◌, ◌<◌, IfOk, IfSome, Ok, Err, length, if◌then◌else◌};
ghost use Rattle.class_pool.specs.Found.{IsMember, role_at};
ghost use Rattle.class_pool.specs.Hierarchy.{IsClass};
ghost use Rattle.class_pool.specs.Resolution.{is_interface_in};
ghost use Rattle.std.specs.Bool.{beq};
ghost use Rattle.class_pool.specs.declared.id.ClassId.TheVariants.{Prog};
ghost use Rattle.link_check.specs.Links.{is_callable_role, linked, linked_field, linked_method, of_array};
ghost use Rattle.link_check.specs.Links.{resolved_field, resolved_method};
ghost use Rattle.link_check.specs.bodies.Walks.{class_linked};
ghost use Rattle.link_check.specs.declared.fault.LinkKind.TheVariants.{LeftOutMember};

use crate::LinkKind;
use crate::references::access::{is_class_accessible, is_member_accessible};
use crate::references::found::{field_found, method_found};
use class_model::MemberRef;
use class_pool::{ClassId, ClassSet, MemberAt};
use jv_base::{Base, Name};
use lib_table::Role;

/// The field that a reference in a class means (JVMS 5.4.3.2), by the class's number. Takes no memory.
pub fn resolve_field(set: &ClassSet, from: u32, r: &MemberRef) -> Result<MemberAt, LinkKind>
    requires there { from < length set.now }
    ensures is { result ≡ resolved_field set.now (Prog from) r.now }
    ensures found { IfOk result (IsMember set.now) }
{
    let MemberAt { class, index } = linked_field(set, from, r)?;
    callable(set, MemberAt { class, index })
}

/// The method that a reference in a class means (JVMS 5.4.3.3, 5.4.3.4), by the class's number. Takes no memory.
pub fn resolve_method(set: &ClassSet, from: u32, r: &MemberRef) -> Result<MemberAt, LinkKind>
    requires there { from < length set.now }
    ensures is { result ≡ resolved_method set.now (Prog from) r.now }
    ensures found { IfOk result (IsMember set.now) }
{
    let MemberAt { class, index } = linked_method(set, from, r)?;
    callable(set, MemberAt { class, index })
}

/// The field of a reference, one too that a program may not name.
pub(crate) fn linked_field(set: &ClassSet, from: u32, r: &MemberRef) -> Result<MemberAt, LinkKind>
    requires there { from < length set.now }
    ensures is { result ≡ linked_field set.now (Prog from) r.now }
    ensures found { IfOk result (IsMember set.now) }
{
    if r.class.dims != 0 {
        return of_array(set, from, true, &r.class.base);
    }
    let Base::Class(name) = &r.class.base else {
        return Err(LinkKind::Unresolved);
    };
    let named = &accessible_class(set, from, name)?;
    let found = field_found(set, *named, &r.name, &r.ty);
    linked(set, from, named, true, found)
}

/// The method of a reference, one too that a program may not name.
pub(crate) fn linked_method(set: &ClassSet, from: u32, r: &MemberRef) -> Result<MemberAt, LinkKind>
    requires there { from < length set.now }
    ensures is { result ≡ linked_method set.now (Prog from) r.now }
    ensures found { IfOk result (IsMember set.now) }
{
    if r.class.dims != 0 {
        return of_array(set, from, !r.of_interface, &r.class.base);
    }
    let Base::Class(name) = &r.class.base else {
        return Err(LinkKind::Unresolved);
    };
    let named = &accessible_class(set, from, name)?;
    let right = is_named_rightly(set, named, r.of_interface);
    let found = method_found(set, named, &r.name, &r.ty);
    linked(set, from, named, right, found)
}

/// Whether a class is named as one, and an interface as one.
fn is_named_rightly(set: &ClassSet, named: &ClassId, of_interface: bool) -> bool
    requires { IsClass set.now named.now }
    ensures { result ≡ beq (is_interface_in set.now named.now) of_interface }
{
    set.is_interface(*named) == of_interface
}

/// A member that a program may name.
fn callable(set: &ClassSet, m: MemberAt) -> Result<MemberAt, LinkKind>
    requires { IsMember set.now m }
    ensures is { result ≡ (if is_callable_role (role_at m) then Ok m else Err LeftOutMember) }
    ensures found { IfOk result (IsMember set.now) }
{
    let m = &m;
    match set.role(*m) {
        Role::Callable => Ok(*m),
        _ => Err(LinkKind::LeftOutMember),
    }
}

/// The member that was found through a class, where it is accessible and the class is named as it has to be.
fn linked(
    set: &ClassSet,
    from: u32,
    named: &ClassId,
    right: bool,
    found: Option<MemberAt>,
) -> Result<MemberAt, LinkKind>
    requires from { from < length set.now }
    requires named { IsClass set.now named.now }
    requires there { IfSome found (IsMember set.now) }
    ensures is { result ≡ linked set.now (Prog from) named.now right found }
    ensures found { IfOk result (IsMember set.now) }
{
    let Some(m) = &found else {
        return Err(LinkKind::Unresolved);
    };
    if !is_member_accessible(set, ClassId::Prog(from), *named, *m) {
        return Err(LinkKind::Inaccessible);
    }
    if right {
        Ok(*m)
    } else {
        Err(LinkKind::WrongKind)
    }
}

/// The class of a name, where it is there and accessible.
fn accessible_class(set: &ClassSet, from: u32, name: &Name) -> Result<ClassId, LinkKind>
    requires { from < length set.now }
    ensures is { result ≡ class_linked set.now (Prog from) name.now }
    ensures there { IfOk result (IsClass set.now) }
{
    let Some(class) = &set.find(name) else {
        return Err(LinkKind::Unresolved);
    };
    if is_class_accessible(set, ClassId::Prog(from), *class) {
        Ok(*class)
    } else {
        Err(LinkKind::Inaccessible)
    }
}

/// Why no member of an array is taken: the class of its elements comes first.
fn of_array(set: &ClassSet, from: u32, right: bool, base: &Base) -> Result<MemberAt, LinkKind>
    requires { from < length set.now }
    ensures is { result ≡ of_array set.now (Prog from) right base.now }
    ensures found { IfOk result (IsMember set.now) }
{
    if let Base::Class(name) = base {
        accessible_class(set, from, name)?;
    }
    if right {
        Err(LinkKind::LeftOutMember)
    } else {
        Err(LinkKind::WrongKind)
    }
}
