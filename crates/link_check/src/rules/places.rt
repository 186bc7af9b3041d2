// The places of a class at which rules may be broken (JVMS 4.1, 4.5, 4.6).
#![tactic(auto, using(crate::proofs::Least::is_none))]

ghost use Rattle.std.specs.Prelude.{◌≡◌, ◌<◌, ◌∷◌, ◌||◌, [], IfOk, codes, false, length, not};
ghost use Rattle.std.specs.List.{flat_map};
ghost use Rattle.std.specs.Option.{option_map_or};
ghost use Rattle.jv_base.specs.Names.{is_text};
ghost use Rattle.class_model.specs.Flags.{acc_abstract, has, is_interface, is_left_out_class, is_native};
ghost use Rattle.class_pool.specs.Found.{IsMethod, IsMember};
ghost use Rattle.class_pool.specs.declared.id.ClassId.TheVariants.{Prog};
ghost use Rattle.link_check.specs.bodies.Inherited.{AreKnown};
ghost use Rattle.link_check.specs.bodies.Tested.{AreTested};
ghost use Rattle.link_check.specs.Profile.{body_kinds, code_kinds, declaration_kinds, kinds_of_class, kinds_of_field};
ghost use Rattle.link_check.specs.Profile.{kinds_of_method, least, left_out_at, name_kinds, same_place};

use crate::ProfileKind;
use crate::overriding::implemented::implementing_kind;
use crate::overriding::inherited::Known;
use crate::overriding::overridden::overriding_kind;
use crate::rules::instructions::code_kind;
use crate::rules::kind_order::{lesser, unless};
use crate::rules::named_classes::{method_type_kind, name_kind, names_kind, type_kind};
use crate::rules::tested::TestedRef;
use bitflags::Flags;
use class_model::{Class, Field, Method};
use class_pool::{ClassId, ClassSet, MemberAt};
use jv_base::{Access, M};
use std::alloc::Global;

/// The flags of annotations and of enums (JVMS 4.1, table 4.1-A).
const ANNOTATION_OR_ENUM: u16 = 0x2000 | 0x4000;

/// What is wrong with a class itself.
pub(crate) fn kind_of_class(
    set: &ClassSet,
    known: &[Option<Known>],
    number: u32,
    class: &Class,
) -> Option<ProfileKind>
    requires there { number < length set.now }
    requires known { AreKnown set.now known.now }
    ensures { result ≡ least (kinds_of_class set.now number class.now) }
{
    let of_file = left_out_kind(class, None);
    let of_flags = unless(!is_left_out(class), ProfileKind::LeftOutFlag);
    let of_supertypes = supertypes_kind(set, number, class);
    let of_methods = implementing_kind(set, known, number, class);
    lesser(lesser(lesser(of_file, of_flags), of_supertypes), of_methods)
}

fn is_left_out(class: &Class) -> bool
    ensures { result ≡ is_left_out_class class.now.flags.0 }
{
    class.flags.0 & ANNOTATION_OR_ENUM != 0
}

fn supertypes_kind(set: &ClassSet, number: u32, class: &Class) -> Option<ProfileKind>
    requires there { number < length set.now }
    ensures { result ≡ least (flat_map (name_kinds set.now number) (class.now.super_name ∷ class.now.interfaces)) }
{
    let of_super = name_kind(set, number, &class.super_name);
    lesser(
        of_super,
        names_kind(set, number, class.interfaces.as_slice()),
    )
}

/// What is wrong with a field, which has this number among the members.
pub(crate) fn kind_of_field(
    set: &ClassSet,
    number: u32,
    class: &Class,
    index: u32,
    field: &Field,
) -> Option<ProfileKind>
    requires there { number < length set.now }
    ensures { result ≡ least (kinds_of_field set.now number class.now index field.now) }
{
    let of_file = left_out_kind(class, Some(index));
    lesser(of_file, type_kind(set, number, &field.ty))
}

/// What is wrong with a method, which has this number among the members.
pub(crate) fn kind_of_method(
    alloc: Global,
    set: &ClassSet,
    known: &[Option<Known>],
    tested: &mut Vec<Option<TestedRef>>,
    number: u32,
    class: &Class,
    index: u32,
    method: &Method,
) -> M<Option<ProfileKind>>
    requires there { number < length set.now }
    requires known { AreKnown set.now known.now }
    requires member { IsMember set.now (record { class = Prog number; index = index }) }
    requires method { IsMethod set.now (record { class = Prog number; index = index }) }
    requires tested { AreTested set.now tested.old.items }
    ensures tested { AreTested set.now tested.new.items }
    ensures kind { IfOk result (λ kind. kind ≡ least (kinds_of_method set.now number class.now index method.now)) }
{
    let m = MemberAt {
        class: ClassId::Prog(number),
        index,
    };
    let of_declaration = declaration_kind(set, number, class, index, method);
    let of_body = body_kind(class, method);
    let of_overridden = overriding_kind(set, known, number, &m);
    let of_code = method_code_kind(alloc, set, tested, number, method)?;
    Ok(lesser(
        lesser(lesser(of_declaration, of_body), of_overridden),
        of_code,
    ))
}

fn declaration_kind(
    set: &ClassSet,
    number: u32,
    class: &Class,
    index: u32,
    method: &Method,
) -> Option<ProfileKind>
    requires there { number < length set.now }
    ensures { result ≡ least (declaration_kinds set.now number class.now index method.now) }
{
    let of_file = left_out_kind(class, Some(index));
    let of_flags = unless(!is_native(method), ProfileKind::LeftOutFlag);
    let of_type = method_type_kind(set, number, &method.ty);
    let of_throws = names_kind(set, number, method.throws.as_slice());
    lesser(lesser(lesser(of_file, of_flags), of_type), of_throws)
}

fn is_native(method: &Method) -> bool
    ensures { result ≡ is_native method.now.flags.0 }
{
    method.flags.contains(Access::NATIVE)
}

fn body_kind(class: &Class, method: &Method) -> Option<ProfileKind>
    ensures { result ≡ least (body_kinds class.now method.now) }
{
    unless(may_have_body(class, method), ProfileKind::LeftOutMember)
}

/// Whether a method that isn't abstract may stand in the class: in an interface that is the one that initialises it.
fn may_have_body(class: &Class, method: &Method) -> bool
    ensures { result
        ≡ (not (is_interface class.now.flags.0) || has acc_abstract method.now.flags.0 || is_text method.now.name
        (codes "<clinit>")) }
{
    !class.flags.contains(Access::INTERFACE)
        || method.flags.contains(Access::ABSTRACT)
        || method.name.as_str() == "<clinit>"
}

fn method_code_kind(
    alloc: Global,
    set: &ClassSet,
    tested: &mut Vec<Option<TestedRef>>,
    number: u32,
    method: &Method,
) -> M<Option<ProfileKind>>
    requires there { number < length set.now }
    requires tested { AreTested set.now tested.old.items }
    ensures tested { AreTested set.now tested.new.items }
    ensures kind { IfOk result (λ kind. kind ≡ least
        (option_map_or (code_kinds set.now number method.now.name) method.now.code [])) }
{
    match &method.code {
        Some(code) => code_kind(alloc, set, tested, number, &method.name, code),
        None => Ok(None),
    }
}

/// What the reader left out at a place of the class.
fn left_out_kind(class: &Class, place: Option<u32>) -> Option<ProfileKind>
    ensures { result ≡ least (left_out_at class.now.left_out place) }
{
    match &class.left_out {
        Some(left) => unless(
            !is_same_place(left.member, place),
            ProfileKind::from(left.kind),
        ),
        None => None,
    }
}

fn is_same_place(one: Option<u32>, other: Option<u32>) -> bool
    ensures { result ≡ same_place one other }
{
    match (one, other) {
        (Some(one), Some(other)) => one == other,
        (None, None) => true,
        _ => false,
    }
}
