// The attributes of a class (JVMS 4.1).
#![tactic(auto, unfolding(crate::proofs::Unfolding::contents))]

ghost use Rattle.std.specs.Prelude.{◌≡◌};
ghost use Rattle.format_reading.specs.Reader.{ReadsOr};
ghost use Rattle.class_model.specs.ReadingAttributes.{attribute, attributes, counted_attributes};
ghost use Rattle.class_model.specs.ReadingClass.{known_of_class, no_class_attribute};
ghost use Rattle.class_read.specs.bodies.ClassAttributes.{class_attribute, class_contents};

use crate::attributes::{check_end, check_once, read_units, source_file};
use crate::names::is_named;
use format_reading::{FormatFault, of_part};
use jv_base::{Cursor, Or, Units};
use known_pool::KnownPool;
use std::alloc::Global;
use std::marker::Model;

/// An attribute of a class that is read (JVMS 4.7.8, 4.7.10, 4.7.15).
#[derive(Clone, Copy)]
pub enum ClassAttribute {
    SourceFile,
    Synthetic,
    Deprecated,
}

/// What was seen of a class's attributes.
#[derive(Drop)]
pub struct SeenOfClass {
    pub source: Option<Units>,
    pub synthetic: bool,
    pub deprecated: bool,
}

impl Model for SeenOfClass {
    ghost use Rattle.class_model.specs.ReadingClass.{ClassSeen};

    ghost Value = { ClassSeen };

    ghost view = { λ s. record { source = s.source; synthetic = s.synthetic; deprecated = s.deprecated } };
}

/// The attributes behind their count.
pub fn read_class_attributes(
    alloc: Global,
    pool: &KnownPool,
    cursor: &mut Cursor,
) -> Result<SeenOfClass, Or<FormatFault>>
    ensures { ReadsOr result cursor.new (counted_attributes pool.now
        (known_of_class pool.now) no_class_attribute cursor.old) }
{
    let count = cursor.u2()?;
    attributes(alloc, count, pool, cursor)
}

#[tactic(auto)]
fn attributes(
    alloc: Global,
    count: u16,
    pool: &KnownPool,
    cursor: &mut Cursor,
) -> Result<SeenOfClass, Or<FormatFault>>
    ensures { ReadsOr result cursor.new (attributes count pool.now
        (known_of_class pool.now) no_class_attribute cursor.old) }
{
    let mut seen = SeenOfClass {
        source: None,
        synthetic: false,
        deprecated: false,
    };
    for _ in 0..count {
        seen = attribute(alloc, pool, seen, cursor)?;
    }
    Ok(seen)
}

#[tactic(auto, unfolding(crate::proofs::Unfolding::attribute), using(crate::proofs::KnownClass::of_class))]
fn attribute(
    alloc: Global,
    pool: &KnownPool,
    seen: SeenOfClass,
    cursor: &mut Cursor,
) -> Result<SeenOfClass, Or<FormatFault>>
    ensures { ReadsOr result cursor.new (attribute pool.now (known_of_class pool.now) seen cursor.old) }
{
    let at = cursor.place();
    let name = read_units(pool, cursor)?;
    let length = cursor.u4()?;
    let Some(known) = class_attribute(name) else {
        cursor.take(length)?;
        return Ok(seen);
    };
    let mut part = cursor.part(length)?;
    match contents(alloc, pool, at, known, seen, &mut part) {
        Ok(seen) => {
            check_end(at, &part, cursor)?;
            Ok(seen)
        }
        Err(fault) => Err(of_part(at, fault)),
    }
}

fn class_attribute(name: &Units) -> Option<ClassAttribute>
    ensures { result ≡ class_attribute name.now }
{
    if is_named(name.as_slice(), b"SourceFile") {
        Some(ClassAttribute::SourceFile)
    } else if is_named(name.as_slice(), b"Synthetic") {
        Some(ClassAttribute::Synthetic)
    } else if is_named(name.as_slice(), b"Deprecated") {
        Some(ClassAttribute::Deprecated)
    } else {
        None
    }
}

fn contents(
    alloc: Global,
    pool: &KnownPool,
    at: u32,
    known: ClassAttribute,
    seen: SeenOfClass,
    part: &mut Cursor,
) -> Result<SeenOfClass, Or<FormatFault>>
    ensures { ReadsOr result part.new (class_contents pool.now at seen known part.old) }
{
    match known {
        ClassAttribute::SourceFile => {
            check_once(at, seen.source.is_some())?;
            let source = source_file(alloc, pool, part)?;
            Ok(SeenOfClass {
                source: Some(source),
                ..seen
            })
        }
        ClassAttribute::Synthetic => {
            check_once(at, seen.synthetic)?;
            Ok(SeenOfClass {
                synthetic: true,
                ..seen
            })
        }
        ClassAttribute::Deprecated => {
            check_once(at, seen.deprecated)?;
            Ok(SeenOfClass {
                deprecated: true,
                ..seen
            })
        }
    }
}
