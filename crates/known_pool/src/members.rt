// A reference to a member, with the count that invokeinterface has for it (JVMS 4.4.2, 6.5).
ghost use Rattle.std.specs.Prelude.{◌≡◌, ◌≤◌, ◌+◌, IfOk, map, option_map};
ghost use Rattle.jv_base.specs.Types.{argument_words};
ghost use Rattle.jv_base.specs.declared.types.MethodType.{MethodType};
ghost use Rattle.class_model.specs.InstructionMeaning.{count_of};
ghost use Rattle.class_model.specs.Lookups.{method_type_of, reference_of};
ghost use Rattle.known_pool.specs.Members.{member_in, named_reference};

use crate::text_pool::TextPool;
use crate::texts::{KnownText, method_type_of};
use class_model::{Entry, MemberRef};
use jv_base::{FieldType, Items, M, Shared, Text, argument_words};
use std::alloc::Global;
use std::marker::Model;

/// A reference to a member, which all that names it shares.
#[derive(Drop)]
pub struct KnownMember {
    reference: Shared<MemberRef>,
    count: Option<u32>,
}

impl Model for KnownMember {
    ghost use Rattle.std.specs.Prelude.{◌≡◌};
    ghost use Rattle.class_model.specs.declared.op.MemberRef.{MemberRef};
    ghost use Rattle.class_model.specs.InstructionMeaning.{count_of};

    ghost Value = { MemberRef };

    ghost view = { λ m. m.reference };

    ghost invariant = { λ m. m.count ≡ count_of m.reference };
}

impl KnownMember {
    /// The reference itself.
    pub fn reference(&self) -> &Shared<MemberRef>
        ensures { result.now ≡ self.now }
    {
        &self.reference
    }

    /// The count that invokeinterface has for it, if it is a method.
    pub fn count(&self) -> Option<u32>
        ensures { result ≡ count_of self.now }
    {
        self.count
    }
}

// ---- the count of invokeinterface

/// The count that invokeinterface has for a method: its argument words with the object's.
pub fn count_of(alloc: Global, method: &MemberRef) -> M<Option<u32>>
    ensures { IfOk result (λ count. count ≡ count_of method.now) }
{
    match method_type_of(alloc, &method.ty)? {
        Some(described) => Ok(Some(argument_words(described.ty().args.as_slice()) + 1)),
        None => Ok(None),
    }
}

// The same, of a descriptor of the pool.
fn count_told(descriptor: &KnownText) -> Option<u32>
    ensures { result ≡ option_map (λ (ty : MethodType). argument_words ty.args + 1) (method_type_of descriptor.now) }
{
    match descriptor.method_type() {
        Some(described) => Some(argument_words(described.ty().args.as_slice()) + 1),
        None => None,
    }
}

// ---- the references of a pool

fn known_member(alloc: Global, reference: MemberRef, count: Option<u32>) -> M<KnownMember>
    requires { count ≡ count_of reference }
    ensures { IfOk result (λ member. member ≡ reference) }
{
    let reference = Shared::new(alloc, reference)?;
    Ok(KnownMember { reference, count })
}

// A member of a class, with a name and a descriptor of the pool.
fn described(
    alloc: Global,
    of_interface: bool,
    class: FieldType,
    name: &Text,
    descriptor: &KnownText,
) -> M<KnownMember>
    ensures { IfOk result (λ member. member
        ≡ record { class = class; name = name.now; ty = descriptor.now; of_interface = of_interface }) }
{
    let reference = MemberRef {
        class,
        name: name.clone()?,
        ty: descriptor.text().clone()?,
        of_interface,
    };
    known_member(alloc, reference, count_told(descriptor))
}

fn reference_of(
    alloc: Global,
    of_interface: bool,
    pool: &TextPool,
    class_index: u16,
    indices: (u16, u16),
) -> M<Option<KnownMember>>
    ensures { IfOk result (λ member. member ≡ reference_of of_interface pool.now class_index indices) }
{
    let Some(class) = pool.type_at(class_index)? else {
        return Ok(None);
    };
    let Some(name) = pool.text_there(indices.0) else {
        return Ok(None);
    };
    let Some(descriptor) = pool.text_there(indices.1) else {
        return Ok(None);
    };
    Ok(Some(described(alloc, of_interface, class, name.text(), descriptor)?))
}

// The reference of a class, and of a name and type.
fn named_reference(
    alloc: Global,
    of_interface: bool,
    pool: &TextPool,
    class_index: u16,
    index: u16,
) -> M<Option<KnownMember>>
    ensures { IfOk result (λ member. member ≡ named_reference of_interface pool.now class_index index) }
{
    match pool.name_and_type_at(index) {
        Some(indices) => reference_of(alloc, of_interface, pool, class_index, indices),
        None => Ok(None),
    }
}

fn member_in(alloc: Global, pool: &TextPool, entry: &Entry) -> M<Option<KnownMember>>
    ensures { IfOk result (λ member. member ≡ member_in pool.now entry.now) }
{
    match entry {
        Entry::Field(class_index, index) | Entry::Method(class_index, index) => {
            named_reference(alloc, false, pool, *class_index, *index)
        }
        Entry::InterfaceMethod(class_index, index) => {
            named_reference(alloc, true, pool, *class_index, *index)
        }
        _ => Ok(None),
    }
}

/// What each of these entries of a pool refers to.
pub fn members_of(
    alloc: Global,
    pool: &TextPool,
    entries: &[Entry],
) -> M<Items<Option<KnownMember>>>
    ensures { IfOk result (λ members. members ≡ map (member_in pool.now) entries.now) }
{
    let mut members = Items::with_capacity(alloc, entries.len())?;
    for entry in entries {
        let member = member_in(alloc, pool, entry)?;
        members.push(member)?;
    }
    Ok(members)
}
