// The names and types of members (JVMS 4.5, 4.6).
ghost use Rattle.std.specs.Prelude.{◌≡◌, ◌≤◌};
ghost use Rattle.format_reading.specs.declared.fault.FormatKind.TheVariants.{BadName};
ghost use Rattle.format_reading.specs.Reader.{Reads, u2, item};
ghost use Rattle.class_model.specs.Lookups.{good_text_at};
ghost use Rattle.class_model.specs.MemberTypes.{field_type_at, method_type_at};
ghost use Rattle.class_model.specs.Members.{has_room_for_this, is_initial_type};
ghost use Rattle.jv_base.specs.Types.{argument_words};
ghost use Rattle.class_read.specs.bodies.Seen.{lent_value};
ghost use Rattle.known_pool.specs.bodies.Texts.{obeys};

use crate::faults::fault;
use crate::flags::{are_initial_flags, is_static};
use crate::lookups::{good_text_at, test, text_at};
use format_reading::{FormatFault, FormatKind};
use jv_base::{Cursor, MethodType, Name, argument_words};
use known_pool::{DescribedField, DescribedMethod, KnownPool, KnownText, TextRule};

/// A name that obeys a rule.
pub fn read_name<'a>(
    pool: &'a KnownPool,
    rule: TextRule,
    cursor: &mut Cursor,
) -> Result<&'a KnownText, FormatFault>
    ensures { Reads (lent_value result) cursor.new (item u2 (good_text_at BadName (obeys rule) pool.now) cursor.old) }
{
    let at = cursor.place();
    let index = cursor.u2()?;
    match good_text_at(pool, FormatKind::BadName, rule, index) {
        Ok(name) => Ok(name),
        Err(kind) => Err(fault(at, kind)),
    }
}

#[tactic(auto, unfolding(class_model::specs::MemberTypes::field_type_at))]
fn field_type_at(pool: &KnownPool, index: u16) -> Result<&DescribedField, FormatKind>
    ensures { lent_value result ≡ field_type_at pool.now index }
{
    let text = text_at(pool, FormatKind::BadDescriptor, index)?;
    match text.field_type() {
        Some(ty) => Ok(ty),
        None => Err(FormatKind::BadDescriptor),
    }
}

/// The type of a field.
pub fn read_field_type<'a>(
    pool: &'a KnownPool,
    cursor: &mut Cursor,
) -> Result<&'a DescribedField, FormatFault>
    ensures { Reads (lent_value result) cursor.new (item u2 (field_type_at pool.now) cursor.old) }
{
    let at = cursor.place();
    let index = cursor.u2()?;
    match field_type_at(pool, index) {
        Ok(ty) => Ok(ty),
        Err(kind) => Err(fault(at, kind)),
    }
}

// A method that isn't static has at most 254 argument words, since `this` counts as one (JVMS 4.3.3).
fn has_room_for_this(flags: u16, ty: &MethodType) -> bool
    requires { argument_words ty.now.args ≤ 255 }
    ensures { result ≡ has_room_for_this flags ty.now }
{
    is_static(flags) || argument_words(ty.args.as_slice()) != 255
}

// An initialisation method gives nothing, and that of a class takes nothing (JVMS 2.9).
fn is_initial_type(name: &str, ty: &MethodType) -> bool
    ensures { result ≡ is_initial_type name.now ty.now }
{
    let is_initial = name == "<init>" || name == "<clinit>";
    (!is_initial || ty.ret.is_none()) && (name != "<clinit>" || ty.args.is_empty())
}

#[tactic(auto, unfolding(class_model::specs::MemberTypes::method_type_at))]
fn method_type_at<'a>(
    pool: &'a KnownPool,
    in_interface: bool,
    flags: u16,
    name: &str,
    index: u16,
) -> Result<&'a DescribedMethod, FormatKind>
    ensures { lent_value result ≡ method_type_at pool.now in_interface flags name.now index }
{
    let text = text_at(pool, FormatKind::BadDescriptor, index)?;
    let Some(described) = text.method_type() else {
        return Err(FormatKind::BadDescriptor);
    };
    let ty = described.ty();
    test(FormatKind::BadDescriptor, has_room_for_this(flags, ty))?;
    test(
        FormatKind::BadFlags,
        are_initial_flags(in_interface, flags, name),
    )?;
    test(FormatKind::BadDescriptor, is_initial_type(name, ty))?;
    Ok(described)
}

/// The type of a method with these flags and this name.
pub fn read_method_type<'a>(
    pool: &'a KnownPool,
    in_interface: bool,
    flags: u16,
    name: &Name,
    cursor: &mut Cursor,
) -> Result<&'a DescribedMethod, FormatFault>
    ensures { Reads (lent_value result) cursor.new
        (item u2 (method_type_at pool.now in_interface flags name.now) cursor.old) }
{
    let at = cursor.place();
    let index = cursor.u2()?;
    match method_type_at(pool, in_interface, flags, name.as_str(), index) {
        Ok(ty) => Ok(ty),
        Err(kind) => Err(fault(at, kind)),
    }
}
