// The methods that instructions call, and the classes that they make objects of (JVMS 5.4.3.3, 5.4.3.4, 6.5).
#![tactic(auto, using(crate::proofs::Least::is_none, crate::proofs::Least::is_one))]

ghost use Rattle.std.specs.Prelude.{◌≡◌, ◌<◌, ◌&&◌, ◌++◌, [], IfOk, IfSome, if◌then◌else◌, length, not};
ghost use Rattle.std.specs.Option.{option_map_or};
ghost use Rattle.class_model.specs.Flags.{is_init};
ghost use Rattle.class_pool.specs.Hierarchy.{IsClass, class_named};
ghost use Rattle.class_pool.specs.Resolution.{is_interface_in};
ghost use Rattle.class_pool.specs.declared.id.ClassId.TheVariants.{Prog};
ghost use Rattle.link_check.specs.Links.{linked_method};
ghost use Rattle.link_check.specs.Profile.{call_kinds, class_of, init_kinds, is_abstract_class, least, made_kinds};
ghost use Rattle.link_check.specs.Profile.{member_kinds, new_kinds, no_init_kinds, special_class_kinds, special_kinds};
ghost use Rattle.link_check.specs.Profile.{static_kinds, super_kinds};

use crate::ProfileKind;
use crate::references::access::is_class_below;
use crate::references::resolution::linked_method;
use crate::rules::kind_order::{lesser, unless};
use crate::rules::member_uses::{is_same_class, role_kind, static_kind};
use crate::rules::named_classes::{method_text_kind, name_kind};
use bitflags::Flags;
use class_model::MemberRef;
use class_pool::{ClassId, ClassSet};
use jv_base::{Access, Base, M, Name};
use std::alloc::Global;

/// What is wrong with a method that an instruction other than invokespecial calls.
pub(crate) fn plain_call_kind(
    alloc: Global,
    set: &ClassSet,
    number: u32,
    is_static: bool,
    r: &MemberRef,
) -> M<Option<ProfileKind>>
    requires there { number < length set.now }
    ensures { IfOk result (λ kind. kind ≡ least (call_kinds set.now number is_static r.now ++ no_init_kinds r.now)) }
{
    let of_call = call_kind(alloc, set, number, is_static, r)?;
    let of_name = no_init_kind(r);
    Ok(lesser(of_call, of_name))
}

fn no_init_kind(r: &MemberRef) -> Option<ProfileKind>
    ensures { result ≡ least (no_init_kinds r.now) }
{
    unless(r.name.as_str() != "<init>", ProfileKind::WrongKind)
}

/// What is wrong with a method that is called.
fn call_kind(
    alloc: Global,
    set: &ClassSet,
    number: u32,
    is_static: bool,
    r: &MemberRef,
) -> M<Option<ProfileKind>>
    requires there { number < length set.now }
    ensures { IfOk result (λ kind. kind ≡ least (call_kinds set.now number is_static r.now)) }
{
    let of_text = method_text_kind(alloc, set, number, &r.ty)?;
    let of_name = unless(r.name.as_str() != "<clinit>", ProfileKind::WrongKind);
    let of_method = found_method_kind(set, number, is_static, r);
    Ok(lesser(lesser(of_text, of_name), of_method))
}

fn found_method_kind(
    set: &ClassSet,
    number: u32,
    is_static: bool,
    r: &MemberRef,
) -> Option<ProfileKind>
    requires there { number < length set.now }
    ensures { result ≡ least (member_kinds (linked_method set.now (Prog number) r.now)
        (static_kinds set.now is_static)) }
{
    match linked_method(set, number, r) {
        Ok(m) => lesser(role_kind(set, &m), static_kind(set, is_static, &m)),
        Err(kind) => Some(ProfileKind::from(kind)),
    }
}

/// What is wrong with a method that invokespecial calls.
pub(crate) fn special_call_kind(
    alloc: Global,
    set: &ClassSet,
    number: u32,
    r: &MemberRef,
) -> M<Option<ProfileKind>>
    requires there { number < length set.now }
    ensures { IfOk result (λ kind. kind ≡ least (special_kinds set.now number r.now)) }
{
    let of_call = call_kind(alloc, set, number, false, r)?;
    let of_class = special_class_kind(set, number, r);
    Ok(lesser(of_call, of_class))
}

fn special_class_kind(set: &ClassSet, number: u32, r: &MemberRef) -> Option<ProfileKind>
    requires there { number < length set.now }
    ensures { result ≡ least (special_class_kinds set.now number r.now) }
{
    match class_of(set, r) {
        Some(named) => special_named_kind(set, number, &named, r),
        None => Some(ProfileKind::WrongKind),
    }
}

/// The class that a reference names, where it is there and none of an array.
pub fn class_of(set: &ClassSet, r: &MemberRef) -> Option<ClassId>
    ensures is { result ≡ class_of set.now r.now }
    ensures there { IfSome result (IsClass set.now) }
{
    if r.class.dims != 0 {
        return None;
    }
    match &r.class.base {
        Base::Class(name) => set.find(name),
        _ => None,
    }
}

fn special_named_kind(
    set: &ClassSet,
    number: u32,
    named: &ClassId,
    r: &MemberRef,
) -> Option<ProfileKind>
    requires there { number < length set.now }
    requires named { IsClass set.now named.now }
    ensures { result
        ≡ least (if is_init r.now.name then init_kinds set.now number named.now r.now else super_kinds set.now number
        named.now) }
{
    if r.name.as_str() == "<init>" {
        init_kind(set, number, named, r)
    } else {
        super_kind(set, number, named)
    }
}

fn init_kind(set: &ClassSet, number: u32, named: &ClassId, r: &MemberRef) -> Option<ProfileKind>
    requires there { number < length set.now }
    ensures { result ≡ least (init_kinds set.now number named.now r.now) }
{
    match linked_method(set, number, r) {
        Ok(m) => {
            let of_class = unless(is_same_class(&m.class, named), ProfileKind::WrongKind);
            lesser(role_kind(set, &m), of_class)
        }
        Err(kind) => Some(ProfileKind::from(kind)),
    }
}

fn super_kind(set: &ClassSet, number: u32, named: &ClassId) -> Option<ProfileKind>
    requires there { number < length set.now }
    requires named { IsClass set.now named.now }
    ensures { result ≡ least (super_kinds set.now number named.now) }
{
    let below = is_class_below(set, ClassId::Prog(number), *named);
    unless(below, ProfileKind::WrongKind)
}

/// What is wrong with a class of which `New` makes an object.
pub(crate) fn new_kind(set: &ClassSet, number: u32, name: &Name) -> Option<ProfileKind>
    requires there { number < length set.now }
    ensures { result ≡ least (new_kinds set.now number name.now) }
{
    lesser(name_kind(set, number, name), made_kind(set, name))
}

fn made_kind(set: &ClassSet, name: &Name) -> Option<ProfileKind>
    ensures { result ≡ least (option_map_or (made_kinds set.now) (class_named set.now name.now) []) }
{
    match set.find(name) {
        Some(class) => unless(has_objects(set, &class), ProfileKind::WrongKind),
        None => None,
    }
}

/// Whether a class is neither an interface nor abstract.
fn has_objects(set: &ClassSet, class: &ClassId) -> bool
    requires there { IsClass set.now class.now }
    ensures { result ≡ (not (is_interface_in set.now class.now) && not (is_abstract_class set.now class.now)) }
{
    !set.is_interface(*class) && !is_abstract_class(set, class)
}

fn is_abstract_class(set: &ClassSet, class: &ClassId) -> bool
    requires there { IsClass set.now class.now }
    ensures { result ≡ is_abstract_class set.now class.now }
{
    match class {
        ClassId::Prog(number) => set.class(*number).flags.contains(Access::ABSTRACT),
        ClassId::Lib(_) => false,
    }
}
