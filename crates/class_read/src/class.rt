// The class of a whole class file (JVMS 4.1).
#![tactic(auto, unfolding(crate::proofs::Unfolding::class))]

ghost use Rattle.std.specs.Prelude.{◌≡◌, ◌<◌, length, Ok, IfOk};
ghost use Rattle.jv_base.specs.Outcome.{IsDue};
ghost use Rattle.format_reading.specs.Reader.{ReadsOr};
ghost use Rattle.class_model.specs.declared.class.Class.{Class};
ghost use Rattle.class_model.specs.ClassFile.{File};
ghost use Rattle.class_model.specs.ReadingClass.{read_class_file, class_read};
ghost use Rattle.class_read.specs.bodies.Classes.{behind_flags, behind_names, class_named};

use crate::attributes::{interfaces, read_class as read_class_name};
use crate::class_attributes::{SeenOfClass, read_class_attributes};
use crate::entries::read_pool;
use crate::faults::fault;
use crate::flags::{class_access, read_class_flags};
use crate::head::read_head;
use crate::parts::{first_left_out, left_out_of_class, read_all_fields, read_all_methods};
use class_model::{Class, Field, LeftKind, Method};
use format_reading::{FormatFault, FormatKind};
use jv_base::{Cursor, Items, M, Name, Or, OutOfMemory};
use known_pool::KnownPool;
use std::alloc::Global;

/// The names that a class file begins with (JVMS 4.1).
#[derive(Drop)]
pub struct ClassNames {
    pub name: Name,
    pub super_name: Name,
    pub interfaces: Items<Name>,
}

/// The class that the bytes of a class file of version 52 spell (JVMS 4), or the first fault from left to right: the
/// rule that is broken, and the offset of the first byte of the item that breaks it. What is left out of a class is
/// told by its kind, and is no fault.
pub fn read_class(alloc: Global, bytes: &[u8]) -> Result<Class, Or<FormatFault>>
    requires { length bytes.now < 4294967295 }
    ensures found { IfOk result (λ class. File bytes.now class) }
    ensures only { (class : Class) → File bytes.now class → IsDue result (Ok class) }
    ensures exact { IsDue result (class_read bytes.now) }
{
    read_whole(alloc, bytes)
}

#[tactic(auto, unfolding(class_model::specs::ReadingClass::class_read))]
fn read_whole(alloc: Global, bytes: &[u8]) -> Result<Class, Or<FormatFault>>
    requires { length bytes.now < 4294967295 }
    ensures { IsDue result (class_read bytes.now) }
{
    let mut cursor = Cursor::new(bytes);
    let class = read_class_file(alloc, &mut cursor)?;
    if cursor.is_at_end() {
        Ok(class)
    } else {
        Err(Or::Fault(fault(cursor.place(), FormatKind::Trailing)))
    }
}

fn read_class_file(alloc: Global, cursor: &mut Cursor) -> Result<Class, Or<FormatFault>>
    ensures { ReadsOr result cursor.new (read_class_file cursor.old) }
{
    read_head(cursor)?;
    let pool = read_pool(alloc, cursor)?;
    let flags = read_class_flags(cursor)?;
    behind_flags(alloc, &pool, flags, cursor)
}

#[tactic(auto, unfolding(crate::specs::bodies::Classes::behind_flags, crate::proofs::Unfolding::steps))]
fn behind_flags(
    alloc: Global,
    pool: &KnownPool,
    flags: u16,
    cursor: &mut Cursor,
) -> Result<Class, Or<FormatFault>>
    ensures { ReadsOr result cursor.new (behind_flags pool.now flags cursor.old) }
{
    let name = read_class_name(pool, cursor)?;
    let super_name = read_class_name(pool, cursor)?;
    let interfaces = interfaces(alloc, pool, cursor)?;
    let names = ClassNames {
        name,
        super_name,
        interfaces,
    };
    behind_names(alloc, pool, flags, names, cursor)
}

#[tactic(auto, unfolding(crate::specs::bodies::Classes::behind_names, crate::proofs::Unfolding::steps))]
fn behind_names(
    alloc: Global,
    pool: &KnownPool,
    flags: u16,
    names: ClassNames,
    cursor: &mut Cursor,
) -> Result<Class, Or<FormatFault>>
    ensures { ReadsOr result cursor.new (behind_names pool.now flags names cursor.old) }
{
    let fields = read_all_fields(alloc, pool, flags, cursor)?;
    let methods = read_all_methods(alloc, pool, flags, &names.name, cursor)?;
    let seen = read_class_attributes(alloc, pool, cursor)?;
    let class = class_of(flags, pool, names, fields, methods, seen)?;
    Ok(class)
}

// The class of these items. No class file has more than 65,535 fields or methods; more are more than the memory
// that there is for them.
#[tactic(auto)]
fn class_of(
    flags: u16,
    pool: &KnownPool,
    names: ClassNames,
    fields: Items<Field>,
    methods: (Items<Method>, Items<Option<LeftKind>>),
    seen: SeenOfClass,
) -> M<Class>
    ensures { IfOk result (λ class. class ≡ class_named flags pool.now names fields methods seen) }
{
    let (methods, kinds) = methods;
    if fields.len() > 65_535 || kinds.len() > 65_535 {
        return Err(OutOfMemory);
    }
    let own = left_out_of_class(flags, pool);
    let left_out = first_left_out(own, fields.len() as u32, kinds.as_slice());
    let ClassNames {
        name,
        super_name,
        interfaces,
    } = names;
    let SeenOfClass {
        source,
        synthetic,
        deprecated,
    } = seen;
    Ok(Class {
        flags: class_access(flags),
        name,
        super_name,
        interfaces,
        fields,
        methods,
        source,
        synthetic,
        deprecated,
        left_out,
    })
}
