// What the entries of a constant pool say (JVMS 4.4).
ghost use Rattle.std.specs.Prelude.{◌≡◌, ◌≤◌, IfOk, option_copied};
ghost use Rattle.class_model.specs.Pool.{units_at};
ghost use Rattle.class_model.specs.declared.constant.PoolConstant.TheVariants as constant;
ghost use Rattle.code_write.specs.Constants.{nothing, of_text, of_texts, member_at, fieldref_of, methodref_of};
ghost use Rattle.code_write.specs.Constants.{interface_methodref_of, second_of, said_at};

use crate::lookups::{class_units_at, name_and_type_at, units_at};
use class_model::{Entry, Pool, PoolConstant};
use jv_base::{Items, M, Units};
use std::alloc::Global;

/// The texts of a reference to a member (JVMS 4.4.2).
#[derive(Drop)]
pub struct Member {
    pub class: Units,
    pub name: Units,
    pub descriptor: Units,
}

/// The same units once more.
pub fn copied_units(alloc: Global, units: &Units) -> M<Units>
    ensures { IfOk result (λ copy. copy ≡ units.now) }
{
    Ok(Items::from_vec(units.as_slice().to_vec(alloc)?))
}

// What is told of an entry that says nothing here.
fn nothing() -> PoolConstant
    ensures { result ≡ nothing }
{
    PoolConstant::SecondOfLong(0)
}

fn second_of(before: Option<&Entry>) -> PoolConstant
    ensures { result ≡ second_of (option_copied before.entry) }
{
    match before {
        Some(Entry::Long(number)) => PoolConstant::SecondOfLong(*number),
        _ => nothing(),
    }
}

fn class_said(alloc: Global, pool: &Pool, index: u16) -> M<PoolConstant>
    ensures { IfOk result (λ k. k ≡ of_text (λ name. constant.Class name) (units_at pool.now.entries index)) }
{
    match units_at(pool, index) {
        Some(name) => Ok(PoolConstant::Class(copied_units(alloc, name)?)),
        None => Ok(nothing()),
    }
}

fn string_said(alloc: Global, pool: &Pool, index: u16) -> M<PoolConstant>
    ensures { IfOk result (λ k. k ≡ of_text (λ text. constant.Str text) (units_at pool.now.entries index)) }
{
    match units_at(pool, index) {
        Some(text) => Ok(PoolConstant::Str(copied_units(alloc, text)?)),
        None => Ok(nothing()),
    }
}

// The units of a text, if it is there.
fn text_there(alloc: Global, pool: &Pool, index: u16) -> M<Option<Units>>
    ensures { IfOk result (λ units. units ≡ units_at pool.now.entries index) }
{
    match units_at(pool, index) {
        Some(units) => Ok(Some(copied_units(alloc, units)?)),
        None => Ok(None),
    }
}

fn name_and_type_said(alloc: Global, pool: &Pool, name: u16, descriptor: u16) -> M<PoolConstant>
    ensures { IfOk result (λ k. k ≡ of_texts (λ n d. constant.NameAndType n d) (units_at pool.now.entries name)
        (units_at pool.now.entries descriptor)) }
{
    match (
        text_there(alloc, pool, name)?,
        text_there(alloc, pool, descriptor)?,
    ) {
        (Some(name), Some(descriptor)) => Ok(PoolConstant::NameAndType { name, descriptor }),
        _ => Ok(nothing()),
    }
}

// The texts of a reference to a member, if all are there.
fn member_at(alloc: Global, pool: &Pool, class: u16, index: u16) -> M<Option<Member>>
    ensures { IfOk result (λ member. member ≡ member_at pool.now.entries class index) }
{
    let Some(class) = class_units_at(pool, class) else {
        return Ok(None);
    };
    let Some((name, descriptor)) = name_and_type_at(pool, index) else {
        return Ok(None);
    };
    let Some(name) = units_at(pool, name) else {
        return Ok(None);
    };
    let Some(descriptor) = units_at(pool, descriptor) else {
        return Ok(None);
    };
    Ok(Some(Member {
        class: copied_units(alloc, class)?,
        name: copied_units(alloc, name)?,
        descriptor: copied_units(alloc, descriptor)?,
    }))
}

fn fieldref_of(member: Option<Member>) -> PoolConstant
    ensures { result ≡ fieldref_of member }
{
    match member {
        Some(
            Member {
                class,
                name,
                descriptor,
            },
        ) => PoolConstant::Fieldref {
            class,
            name,
            descriptor,
        },
        None => nothing(),
    }
}

fn methodref_of(member: Option<Member>) -> PoolConstant
    ensures { result ≡ methodref_of member }
{
    match member {
        Some(
            Member {
                class,
                name,
                descriptor,
            },
        ) => PoolConstant::Methodref {
            class,
            name,
            descriptor,
        },
        None => nothing(),
    }
}

fn interface_methodref_of(member: Option<Member>) -> PoolConstant
    ensures { result ≡ interface_methodref_of member }
{
    match member {
        Some(
            Member {
                class,
                name,
                descriptor,
            },
        ) => PoolConstant::InterfaceMethodref {
            class,
            name,
            descriptor,
        },
        None => nothing(),
    }
}

/// What the entry at an index says, which isn't index 0.
#[tactic(auto, unfolding(crate::specs::Constants::said_at))]
pub fn said_at(alloc: Global, pool: &Pool, index: usize) -> M<PoolConstant>
    requires { 1 ≤ index }
    ensures { IfOk result (λ k. k ≡ said_at pool.now.entries index) }
{
    match pool.entries.get(index) {
        Some(Entry::Utf8(text)) => Ok(PoolConstant::Utf8(copied_units(alloc, text)?)),
        Some(Entry::Integer(number)) => Ok(PoolConstant::Integer(*number)),
        Some(Entry::Long(number)) => Ok(PoolConstant::Long(*number)),
        Some(Entry::Class(name)) => class_said(alloc, pool, *name),
        Some(Entry::Str(text)) => string_said(alloc, pool, *text),
        Some(Entry::NameAndType(name, descriptor)) => {
            name_and_type_said(alloc, pool, *name, *descriptor)
        }
        Some(Entry::Field(class, index)) => {
            Ok(fieldref_of(member_at(alloc, pool, *class, *index)?))
        }
        Some(Entry::Method(class, index)) => {
            Ok(methodref_of(member_at(alloc, pool, *class, *index)?))
        }
        Some(Entry::InterfaceMethod(class, index)) => {
            Ok(interface_methodref_of(member_at(alloc, pool, *class, *index)?))
        }
        Some(Entry::Gap) => Ok(second_of(pool.entries.get(index - 1))),
        _ => Ok(nothing()),
    }
}
