// The fields that instructions read and write (JVMS 5.4.3.2, 6.5).
#![tactic(auto, using(crate::proofs::Least::is_none, crate::proofs::Least::is_one))]

ghost use Rattle.std.specs.Prelude.{◌≡◌, ◌<◌, ◌&&◌, ◌||◌, IfOk, codes, if◌then◌else◌, length, not};
ghost use Rattle.jv_base.specs.Names.{is_text};
ghost use Rattle.class_pool.specs.Found.{IsMember, is_final_member};
ghost use Rattle.class_pool.specs.Walk.{same_class};
ghost use Rattle.class_pool.specs.declared.id.ClassId.TheVariants.{Prog};
ghost use Rattle.link_check.specs.Links.{linked_field};
ghost use Rattle.link_check.specs.Profile.{changed_kinds, field_kinds, is_of_library, least, member_kinds, unless};
ghost use Rattle.link_check.specs.Profile.{used_kinds, written_kinds};
ghost use Rattle.link_check.specs.declared.fault.ProfileKind.TheVariants.{LeftOutMember};

use crate::ProfileKind;
use crate::references::resolution::linked_field;
use crate::rules::kind_order::{lesser, unless};
use crate::rules::member_uses::{is_same_class, role_kind, static_kind};
use crate::rules::named_classes::field_text_kind;
use class_model::MemberRef;
use class_pool::{ClassId, ClassSet, MemberAt};
use jv_base::{M, Name};
use std::alloc::Global;

/// What an instruction does with a field.
#[derive(Clone, Copy)]
pub(crate) struct FieldUse {
    is_static: bool,
    is_written: bool,
}

pub(crate) const GET_STATIC: FieldUse = FieldUse {
    is_static: true,
    is_written: false,
};

pub(crate) const PUT_STATIC: FieldUse = FieldUse {
    is_static: true,
    is_written: true,
};

pub(crate) const GET_FIELD: FieldUse = FieldUse {
    is_static: false,
    is_written: false,
};

pub(crate) const PUT_FIELD: FieldUse = FieldUse {
    is_static: false,
    is_written: true,
};

/// What is wrong with a field that an instruction in a method of this name uses.
pub(crate) fn field_kind(
    alloc: Global,
    set: &ClassSet,
    number: u32,
    method: &Name,
    how: &FieldUse,
    r: &MemberRef,
) -> M<Option<ProfileKind>>
    requires there { number < length set.now }
    ensures { IfOk result (λ kind. kind ≡ least
        (field_kinds set.now number method.now how.now.is_static how.now.is_written r.now)) }
{
    let of_text = field_text_kind(alloc, set, number, &r.ty)?;
    let of_field = found_field_kind(set, number, method, how, r);
    Ok(lesser(of_text, of_field))
}

fn found_field_kind(
    set: &ClassSet,
    number: u32,
    method: &Name,
    how: &FieldUse,
    r: &MemberRef,
) -> Option<ProfileKind>
    requires there { number < length set.now }
    ensures { result ≡ least (member_kinds (linked_field set.now (Prog number) r.now)
        (used_kinds set.now number method.now how.now.is_static how.now.is_written)) }
{
    match linked_field(set, number, r) {
        Ok(m) => lesser(role_kind(set, &m), used_kind(set, number, method, how, &m)),
        Err(kind) => Some(ProfileKind::from(kind)),
    }
}

fn used_kind(
    set: &ClassSet,
    number: u32,
    method: &Name,
    how: &FieldUse,
    m: &MemberAt,
) -> Option<ProfileKind>
    requires there { IsMember set.now m.now }
    ensures { result ≡ least (used_kinds set.now number method.now how.now.is_static how.now.is_written m.now) }
{
    let of_static = static_kind(set, how.is_static, m);
    let of_change = changed_kind(set, number, method, how, m);
    lesser(of_static, of_change)
}

fn changed_kind(
    set: &ClassSet,
    number: u32,
    method: &Name,
    how: &FieldUse,
    m: &MemberAt,
) -> Option<ProfileKind>
    requires there { IsMember set.now m.now }
    ensures { result ≡ least (changed_kinds set.now number method.now how.now.is_static how.now.is_written m.now) }
{
    if !how.is_written {
        return None;
    }
    let of_final = written_kind(set, number, method, how.is_static, m);
    let of_library = library_kind(how.is_static, m);
    lesser(of_final, of_library)
}

fn library_kind(is_static: bool, m: &MemberAt) -> Option<ProfileKind>
    ensures { result ≡ least (unless (not (is_static && is_of_library m.now.class)) LeftOutMember) }
{
    unless(
        !(is_static && is_of_library(&m.class)),
        ProfileKind::LeftOutMember,
    )
}

fn written_kind(
    set: &ClassSet,
    number: u32,
    method: &Name,
    is_static: bool,
    m: &MemberAt,
) -> Option<ProfileKind>
    requires there { IsMember set.now m.now }
    ensures { result ≡ least (written_kinds set.now number
        (if is_static then codes "<clinit>" else codes "<init>") method.now m.now) }
{
    unless(
        is_writer(set, number, method, is_static, m),
        ProfileKind::WrongKind,
    )
}

/// Whether a method of this name may write a field.
fn is_writer(set: &ClassSet, number: u32, method: &Name, is_static: bool, m: &MemberAt) -> bool
    requires there { IsMember set.now m.now }
    ensures { result ≡ (not (is_final_member set.now m.now) ||
        (same_class m.now.class (Prog number) && is_text method.now
        (if is_static then codes "<clinit>" else codes "<init>"))) }
{
    !set.is_final_member(*m)
        || is_same_class(&m.class, &ClassId::Prog(number)) && is_initial(method, is_static)
}

/// Whether a method of this name initialises a class, or an object (JVMS 2.9).
fn is_initial(method: &Name, is_static: bool) -> bool
    ensures { result ≡ is_text method.now (if is_static then codes "<clinit>" else codes "<init>") }
{
    if is_static {
        method.as_str() == "<clinit>"
    } else {
        method.as_str() == "<init>"
    }
}

fn is_of_library(class: &ClassId) -> bool
    ensures { result ≡ is_of_library class.now }
{
    matches!(class, ClassId::Lib(_))
}
