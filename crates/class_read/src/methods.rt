// Methods (JVMS 4.6).
#![tactic(auto, unfolding(crate::proofs::Unfolding::contents))]

ghost use Rattle.std.specs.Prelude.{◌≡◌, [], ◌∷◌, ◌++◌, ◌||◌, not, false, IfOk, OnOk};
ghost use Rattle.std.specs.List.{list_any};
ghost use Rattle.format_reading.specs.Reader.{ReadsOr, part};
ghost use Rattle.format_reading.specs.declared.fault.FormatKind.TheVariants.{BadAttribute};
ghost use Rattle.jv_base.specs.Types.{method_text};
ghost use Rattle.class_model.specs.Flags.{has_body};
ghost use Rattle.class_model.specs.Lookups.{test};
ghost use Rattle.class_model.specs.ReadingAttributes.{attribute, attributes, counted_attributes};
ghost use Rattle.class_model.specs.ReadingCodeAttribute.{is_there};
ghost use Rattle.class_model.specs.ReadingMembers.{no_method_attribute, body_of, method_of, same_signature};
ghost use Rattle.class_model.specs.ReadingMembers.{read_method_info, read_methods};
ghost use Rattle.class_read.specs.bodies.Entries.{found_at};
ghost use Rattle.class_read.specs.bodies.Methods.{code_of_method, known_of, method_head, method_attribute};
ghost use Rattle.class_read.specs.bodies.Methods.{method_contents};
ghost use Rattle.class_read.specs.declared.methods.MethodAttribute.TheVariants as kinds;

use crate::attributes::{check_end, check_once, exceptions, read_units};
use crate::code::read_code;
use crate::faults::fault;
use crate::flags::{has_body, is_native, method_access, read_method_flags};
use crate::members::{read_method_type, read_name};
use crate::names::is_named;
use crate::signatures::{Signature, Signatures, signature_of};
use class_model::{Code, LeftKind, Method};
use format_reading::{FormatFault, FormatKind, of_part};
use jv_base::{Cursor, Items, M, MethodType, Name, Or, Units};
use known_pool::{DescribedMethod, KnownPool, KnownText, TextRule};
use std::alloc::Global;
use std::marker::Model;

/// A code, with what is left out in it.
pub type Body = (Option<Code>, Option<LeftKind>);

/// What stands before the attributes of a method.
#[derive(Drop)]
pub struct MethodHead {
    pub flags: u16,
    pub name: Name,
    pub ty: MethodType,
}

/// An attribute of a method that is read (JVMS 4.7.3, 4.7.5, 4.7.8, 4.7.15).
#[derive(Clone, Copy)]
pub enum MethodAttribute {
    Code,
    Exceptions,
    Synthetic,
    Deprecated,
}

/// What was seen of a method's attributes.
#[derive(Drop)]
pub struct SeenOfMethod {
    body: Option<Body>,
    throws: Option<Items<Name>>,
    synthetic: bool,
    deprecated: bool,
}

impl Model for SeenOfMethod {
    ghost use Rattle.class_model.specs.ReadingMembers.{MethodSeen};

    ghost Value = { MethodSeen };

    ghost view = { λ s.
        record { body = s.body; throws = s.throws; synthetic = s.synthetic; deprecated = s.deprecated } };
}

/// A method, its signature, and what is left out in it.
pub type MethodRead = (Method, Signature, Option<LeftKind>);

/// So many methods in a class of this name, each unlike all before it, and what is left out in each.
#[tactic(auto)]
pub fn read_methods(
    alloc: Global,
    count: u16,
    pool: &KnownPool,
    in_interface: bool,
    class: &Name,
    cursor: &mut Cursor,
) -> Result<(Items<Method>, Items<Option<LeftKind>>), Or<FormatFault>>
    ensures { ReadsOr result cursor.new (read_methods count pool.now in_interface class.now [] cursor.old) }
{
    let mut before = Signatures::new(alloc);
    let mut methods = Items::with_capacity(alloc, usize::from(count))?;
    let mut left_out = Items::with_capacity(alloc, usize::from(count))?;
    for _ in 0..count {
        let member = method_info(alloc, pool, in_interface, class, &before, cursor)?;
        keep(&mut methods, &mut left_out, &mut before, member)?;
    }
    Ok((methods, left_out))
}

// One more method, whose signature is none of those before.
#[tactic(auto)]
fn keep(
    methods: &mut Items<Method>,
    left_out: &mut Items<Option<LeftKind>>,
    before: &mut Signatures,
    member: MethodRead,
) -> M<()>
    requires { list_any (same_signature member.1) before.old ≡ false }
    ensures methods { OnOk result (methods.new ≡ methods.old ++ member.0 ∷ []) }
    ensures left_out { OnOk result (left_out.new ≡ left_out.old ++ member.2 ∷ []) }
    ensures before { OnOk result (before.new ≡ member.1 ∷ before.old) }
{
    let (method, signature, kind) = member;
    methods.push(method)?;
    before.push(signature)?;
    left_out.push(kind)?;
    Ok(())
}

// A method behind those of these signatures, in a class of this name.
#[tactic(auto)]
fn method_info(
    alloc: Global,
    pool: &KnownPool,
    in_interface: bool,
    class: &Name,
    before: &Signatures,
    cursor: &mut Cursor,
) -> Result<MethodRead, Or<FormatFault>>
    ensures read { ReadsOr result cursor.new (read_method_info pool.now in_interface class.now before.now cursor.old) }
    ensures fresh { IfOk result (λ member. list_any (same_signature member.1) before.now ≡ false) }
{
    let at = cursor.place();
    let begun = method_head(pool, in_interface, before, cursor)?;
    let seen = counted(alloc, pool, class, &begun.0, cursor)?;
    check_body(at, has_body(begun.0.flags), &seen)?;
    let made = method_of(alloc, begun.0, seen);
    Ok((made.0, begun.1, made.1))
}

// What stands before the attributes of a method behind those of these signatures.
#[tactic(auto, unfolding(crate::specs::bodies::Methods::method_head, crate::proofs::Unfolding::rows))]
fn method_head(
    pool: &KnownPool,
    in_interface: bool,
    before: &Signatures,
    cursor: &mut Cursor,
) -> Result<(MethodHead, Signature), Or<FormatFault>>
    ensures read { ReadsOr result cursor.new (method_head pool.now in_interface before.now cursor.old) }
    ensures fresh { IfOk result (λ head. list_any (same_signature head.1) before.now ≡ false) }
{
    let at = cursor.place();
    let flags = read_method_flags(cursor)?;
    let name = read_name(pool, TextRule::MethodName, cursor)?;
    let described = read_method_type(pool, in_interface, flags, name.text(), cursor)?;
    let signature = method_signature(name, described)?;
    before.check_fresh(at, &signature)?;
    let head = copied_head(flags, name, described)?;
    Ok((head, signature))
}

fn method_signature(name: &KnownText, described: &DescribedMethod) -> M<Signature>
    ensures { IfOk result (λ signature. signature ≡ (name.now, method_text described.now)) }
{
    let text = described.text().clone()?;
    Ok(signature_of(name.text().clone()?, text))
}

fn copied_head(flags: u16, name: &KnownText, described: &DescribedMethod) -> M<MethodHead>
    ensures { IfOk result (λ head. head ≡ record { flags = flags; name = name.now; ty = described.now }) }
{
    let name = name.text().clone()?;
    let ty = described.ty().clone()?;
    Ok(MethodHead { flags, name, ty })
}

// A method that has to have a Code has one.
fn check_body(at: u32, wanted: bool, seen: &SeenOfMethod) -> Result<(), FormatFault>
    ensures { result ≡ found_at at (test BadAttribute (not wanted || is_there seen.now.body)) }
{
    if wanted && seen.body.is_none() {
        Err(fault(at, FormatKind::BadAttribute))
    } else {
        Ok(())
    }
}

fn method_of(alloc: Global, head: MethodHead, seen: SeenOfMethod) -> (Method, Option<LeftKind>)
    ensures { result ≡ (method_of head.flags head.name head.ty seen, (body_of head.flags seen.body).1) }
{
    let MethodHead { flags, name, ty } = head;
    let SeenOfMethod {
        body,
        throws,
        synthetic,
        deprecated,
    } = seen;
    let (code, left_out) = body_of(flags, body);
    let method = Method {
        flags: method_access(flags),
        name,
        ty,
        code,
        throws: throws.unwrap_or(Items::new(alloc)),
        synthetic,
        deprecated,
    };
    (method, left_out)
}

// The code, with what is left out: a native method is.
fn body_of(flags: u16, body: Option<Body>) -> Body
    ensures { result ≡ body_of flags body }
{
    match body {
        Some(body) => body,
        None if is_native(flags) => (None, Some(LeftKind::Flag)),
        None => (None, None),
    }
}

// ---- attributes

fn counted(
    alloc: Global,
    pool: &KnownPool,
    class: &Name,
    head: &MethodHead,
    cursor: &mut Cursor,
) -> Result<SeenOfMethod, Or<FormatFault>>
    ensures { ReadsOr result cursor.new
        (counted_attributes pool.now (known_of pool.now class.now head.now) no_method_attribute cursor.old) }
{
    let count = cursor.u2()?;
    attributes(alloc, count, pool, class, head, cursor)
}

#[tactic(auto)]
fn attributes(
    alloc: Global,
    count: u16,
    pool: &KnownPool,
    class: &Name,
    head: &MethodHead,
    cursor: &mut Cursor,
) -> Result<SeenOfMethod, Or<FormatFault>>
    ensures { ReadsOr result cursor.new (attributes count pool.now
        (known_of pool.now class.now head.now) no_method_attribute cursor.old) }
{
    let mut seen = SeenOfMethod {
        body: None,
        throws: None,
        synthetic: false,
        deprecated: false,
    };
    for _ in 0..count {
        seen = attribute(alloc, pool, class, head, seen, cursor)?;
    }
    Ok(seen)
}

#[tactic(auto, unfolding(crate::proofs::Unfolding::attribute), using(crate::proofs::KnownMethods::of_method))]
fn attribute(
    alloc: Global,
    pool: &KnownPool,
    class: &Name,
    head: &MethodHead,
    seen: SeenOfMethod,
    cursor: &mut Cursor,
) -> Result<SeenOfMethod, Or<FormatFault>>
    ensures { ReadsOr result cursor.new (attribute pool.now (known_of pool.now class.now head.now) seen cursor.old) }
{
    let at = cursor.place();
    let name = read_units(pool, cursor)?;
    let length = cursor.u4()?;
    let Some(known) = method_attribute(name) else {
        cursor.take(length)?;
        return Ok(seen);
    };
    known_attribute(alloc, pool, class, head, at, length, known, seen, cursor)
}

// The contents of the attribute at an offset, of a length, all of them.
#[tactic(auto, unfolding(format_reading::specs::Reader::part))]
fn known_attribute(
    alloc: Global,
    pool: &KnownPool,
    class: &Name,
    head: &MethodHead,
    at: u32,
    length: u32,
    known: MethodAttribute,
    seen: SeenOfMethod,
    cursor: &mut Cursor,
) -> Result<SeenOfMethod, Or<FormatFault>>
    ensures { ReadsOr result cursor.new (part at length
        (method_contents pool.now class.now head.now at seen known) cursor.old) }
{
    let mut part = cursor.part(length)?;
    match contents(alloc, pool, class, head, at, known, seen, &mut part) {
        Ok(seen) => {
            check_end(at, &part, cursor)?;
            Ok(seen)
        }
        Err(fault) => Err(of_part(at, fault)),
    }
}

fn method_attribute(name: &Units) -> Option<MethodAttribute>
    ensures { result ≡ method_attribute name.now }
{
    if is_named(name.as_slice(), b"Code") {
        Some(MethodAttribute::Code)
    } else if is_named(name.as_slice(), b"Exceptions") {
        Some(MethodAttribute::Exceptions)
    } else if is_named(name.as_slice(), b"Synthetic") {
        Some(MethodAttribute::Synthetic)
    } else if is_named(name.as_slice(), b"Deprecated") {
        Some(MethodAttribute::Deprecated)
    } else {
        None
    }
}

fn contents(
    alloc: Global,
    pool: &KnownPool,
    class: &Name,
    head: &MethodHead,
    at: u32,
    known: MethodAttribute,
    seen: SeenOfMethod,
    part: &mut Cursor,
) -> Result<SeenOfMethod, Or<FormatFault>>
    ensures { ReadsOr result part.new (method_contents pool.now class.now head.now at seen known part.old) }
{
    match known {
        MethodAttribute::Code => code_seen(alloc, pool, class, head, at, seen, part),
        MethodAttribute::Exceptions => throws_seen(alloc, pool, class, head, at, seen, part),
        MethodAttribute::Synthetic => {
            check_once(at, seen.synthetic)?;
            Ok(SeenOfMethod {
                synthetic: true,
                ..seen
            })
        }
        MethodAttribute::Deprecated => {
            check_once(at, seen.deprecated)?;
            Ok(SeenOfMethod {
                deprecated: true,
                ..seen
            })
        }
    }
}

fn code_seen(
    alloc: Global,
    pool: &KnownPool,
    class: &Name,
    head: &MethodHead,
    at: u32,
    seen: SeenOfMethod,
    part: &mut Cursor,
) -> Result<SeenOfMethod, Or<FormatFault>>
    ensures { ReadsOr result part.new (method_contents pool.now class.now head.now at seen kinds.Code part.old) }
{
    check_code(at, has_body(head.flags))?;
    check_once(at, seen.body.is_some())?;
    let body = read_code(alloc, pool, class, head, at, part)?;
    Ok(SeenOfMethod {
        body: Some(body),
        ..seen
    })
}

fn throws_seen(
    alloc: Global,
    pool: &KnownPool,
    class: &Name,
    head: &MethodHead,
    at: u32,
    seen: SeenOfMethod,
    part: &mut Cursor,
) -> Result<SeenOfMethod, Or<FormatFault>>
    ensures { ReadsOr result part.new (method_contents pool.now class.now head.now at seen kinds.Exceptions part.old) }
{
    check_once(at, seen.throws.is_some())?;
    let throws = exceptions(alloc, pool, part)?;
    Ok(SeenOfMethod {
        throws: Some(throws),
        ..seen
    })
}

// A Code stands where a method may have one.
fn check_code(at: u32, wanted: bool) -> Result<(), FormatFault>
    ensures { result ≡ found_at at (test BadAttribute wanted) }
{
    if wanted {
        Ok(())
    } else {
        Err(fault(at, FormatKind::BadAttribute))
    }
}
