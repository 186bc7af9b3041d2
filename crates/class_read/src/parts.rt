// The members of a class file, and what is left out in it (JVMS 4.1).
#![tactic(auto, unfolding(crate::proofs::Unfolding::members))]

ghost use Rattle.std.specs.Prelude.{◌≡◌, ◌+◌, ◌<◌, length};
ghost use Rattle.std.specs.List.{list_any};
ghost use Rattle.format_reading.specs.Reader.{ReadsOr};
ghost use Rattle.class_model.specs.ClassFile.{is_left_out_entry, left_out_of_class, left_out_of_members};
ghost use Rattle.class_model.specs.ClassFile.{first_left_out};
ghost use Rattle.class_model.specs.ReadingClass.{read_all_fields, read_all_methods};

use crate::fields::read_fields;
use crate::flags::{is_interface, is_left_out_class};
use crate::methods::read_methods;
use class_model::{Entry, Field, LeftKind, LeftOut, Method};
use format_reading::FormatFault;
use jv_base::{Cursor, Items, Name, Or};
use known_pool::KnownPool;
use std::alloc::Global;

/// The fields of a class with these flags.
pub fn read_all_fields(
    alloc: Global,
    pool: &KnownPool,
    flags: u16,
    cursor: &mut Cursor,
) -> Result<Items<Field>, Or<FormatFault>>
    ensures { ReadsOr result cursor.new (read_all_fields pool.now flags cursor.old) }
{
    let count = cursor.u2()?;
    read_fields(alloc, count, pool, is_interface(flags), cursor)
}

/// The methods of a class with these flags and of this name, and what is left out in each.
pub fn read_all_methods(
    alloc: Global,
    pool: &KnownPool,
    flags: u16,
    class: &Name,
    cursor: &mut Cursor,
) -> Result<(Items<Method>, Items<Option<LeftKind>>), Or<FormatFault>>
    ensures { ReadsOr result cursor.new (read_all_methods pool.now flags class.now cursor.old) }
{
    let count = cursor.u2()?;
    read_methods(alloc, count, pool, is_interface(flags), class, cursor)
}

/// What is left out of the class itself: a flag before a constant, which counts where it is unused too.
pub fn left_out_of_class(flags: u16, pool: &KnownPool) -> Option<LeftKind>
    ensures { result ≡ left_out_of_class flags pool.now }
{
    if is_left_out_class(flags) {
        Some(LeftKind::Flag)
    } else if has_left_out_entry(pool.pool().entries.as_slice()) {
        Some(LeftKind::Constant)
    } else {
        None
    }
}

fn has_left_out_entry(entries: &[Entry]) -> bool
    ensures { result ≡ list_any is_left_out_entry entries.now }
{
    for entry in entries {
        if matches!(entry, Entry::LeftOut(_)) {
            return true;
        }
    }
    false
}

/// What is left out first: of the class itself, and then by members, the methods being numbered behind so
/// many fields.
pub fn first_left_out(
    own: Option<LeftKind>,
    fields: u32,
    kinds: &[Option<LeftKind>],
) -> Option<LeftOut>
    requires { fields + length kinds.now < 4294967296 }
    ensures { result ≡ first_left_out own fields kinds.now }
{
    match own {
        Some(kind) => Some(LeftOut { member: None, kind }),
        None => left_out_of_members(fields, kinds),
    }
}

fn left_out_of_members(fields: u32, kinds: &[Option<LeftKind>]) -> Option<LeftOut>
    requires { fields + length kinds.now < 4294967296 }
    ensures { result ≡ left_out_of_members fields kinds.now }
{
    let mut member = fields;
    for kind in kinds {
        if let Some(kind) = kind {
            return Some(LeftOut {
                member: Some(member),
                kind: *kind,
            });
        }
        member += 1;
    }
    None
}
