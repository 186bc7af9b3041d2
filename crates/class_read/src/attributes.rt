// The header of an attribute, and attributes whose contents are short (JVMS 4.7).
ghost use Rattle.std.specs.Prelude.{◌≡◌, ◌==◌, Ok, Err, not, IfOk, option_map, slice_get, if◌then◌else◌};
ghost use Rattle.format_reading.specs.declared.fault.FormatKind.TheVariants.{BadIndex, BadAttribute, Repeated};
ghost use Rattle.format_reading.specs.Fault.{fault};
ghost use Rattle.format_reading.specs.Reader.{Reads, ReadsOr, u2, item, many};
ghost use Rattle.jv_base.specs.Outcome.{IsDue};
ghost use Rattle.class_model.specs.Pool.{units_at};
ghost use Rattle.class_model.specs.ConstantPool.{string_units_at};
ghost use Rattle.class_model.specs.Lookups.{due, test, class_at};
ghost use Rattle.class_model.specs.ReadingAttributes.{source_file, exceptions, read_line, line_number_table};
ghost use Rattle.class_model.specs.ReadingAttributes.{is_int_base, is_long_base, is_string_base, is_float_base};
ghost use Rattle.class_model.specs.ReadingAttributes.{is_double_base, plain, constant_in, constant_value};
ghost use Rattle.class_model.specs.ReadingClass.{read_interfaces};
ghost use Rattle.class_read.specs.bodies.Entries.{found_at};
ghost use Rattle.class_read.specs.bodies.Seen.{lent_value};

use crate::faults::fault;
use crate::lookups::class_at;
use class_model::{Constant, Entry};
use format_reading::{FormatFault, FormatKind};
use jv_base::{Base, Cursor, FieldType, Items, M, Name, Or, Shared, Units};
use known_pool::KnownPool;
use std::alloc::Global;
use std::marker::Model;

// ---- the header

/// The name of an attribute, or what the attribute SourceFile holds (JVMS 4.7, 4.7.10).
pub fn read_units<'a>(
    pool: &'a KnownPool,
    cursor: &mut Cursor,
) -> Result<&'a Shared<Units>, FormatFault>
    ensures { Reads (lent_value result) cursor.new
        (item u2 (λ index. due BadIndex (units_at pool.now index)) cursor.old) }
{
    let at = cursor.place();
    let index = cursor.u2()?;
    match pool.units_at(index) {
        Some(units) => Ok(units),
        None => Err(fault(at, FormatKind::BadIndex)),
    }
}

/// The attribute at an offset may stand once in its place.
pub fn check_once(at: u32, had: bool) -> Result<(), FormatFault>
    ensures { result ≡ found_at at (test Repeated (not had)) }
{
    if had {
        Err(fault(at, FormatKind::Repeated))
    } else {
        Ok(())
    }
}

/// The contents of the attribute at an offset end where the whole goes on.
pub fn check_end(at: u32, part: &Cursor, whole: &Cursor) -> Result<(), FormatFault>
    ensures { result ≡ (if part.now.at == whole.now.at then Ok tt else Err (fault at BadAttribute)) }
{
    if part.place() == whole.place() {
        Ok(())
    } else {
        Err(fault(at, FormatKind::BadAttribute))
    }
}

// ---- contents

/// A copy of units.
pub fn copy_of(alloc: Global, units: &Units) -> M<Units>
    ensures { IfOk result (λ copy. copy ≡ units.now) }
{
    Ok(Items::from_vec(units.as_slice().to_vec(alloc)?))
}

/// What the attribute SourceFile holds (JVMS 4.7.10).
pub fn source_file(
    alloc: Global,
    pool: &KnownPool,
    cursor: &mut Cursor,
) -> Result<Units, Or<FormatFault>>
    ensures { ReadsOr result cursor.new (source_file pool.now cursor.old) }
{
    let units = read_units(pool, cursor)?;
    Ok(copy_of(alloc, units)?)
}

/// The name of a class that is no array type (JVMS 4.4.1).
pub fn read_class(pool: &KnownPool, cursor: &mut Cursor) -> Result<Name, Or<FormatFault>>
    ensures { ReadsOr result cursor.new (item u2 (class_at pool.now) cursor.old) }
{
    let at = cursor.place();
    let index = cursor.u2()?;
    match class_at(pool, index) {
        Ok(name) => Ok(name.text().clone()?),
        Err(kind) => Err(Or::Fault(fault(at, kind))),
    }
}

#[tactic(auto)]
fn classes(
    alloc: Global,
    count: u16,
    pool: &KnownPool,
    cursor: &mut Cursor,
) -> Result<Items<Name>, Or<FormatFault>>
    ensures { ReadsOr result cursor.new (many count (item u2 (class_at pool.now)) cursor.old) }
{
    let mut classes = Items::with_capacity(alloc, usize::from(count))?;
    for _ in 0..count {
        let class = read_class(pool, cursor)?;
        classes.push(class)?;
    }
    Ok(classes)
}

/// The classes that the attribute Exceptions names (JVMS 4.7.5).
#[tactic(auto, unfolding(class_model::specs::ReadingAttributes::exceptions, crate::proofs::Unfolding::numbers))]
pub fn exceptions(
    alloc: Global,
    pool: &KnownPool,
    cursor: &mut Cursor,
) -> Result<Items<Name>, Or<FormatFault>>
    ensures { ReadsOr result cursor.new (exceptions pool.now cursor.old) }
{
    let count = cursor.u2()?;
    classes(alloc, count, pool, cursor)
}

/// The direct superinterfaces (JVMS 4.1).
#[tactic(auto, unfolding(class_model::specs::ReadingClass::read_interfaces, crate::proofs::Unfolding::numbers))]
pub fn interfaces(
    alloc: Global,
    pool: &KnownPool,
    cursor: &mut Cursor,
) -> Result<Items<Name>, Or<FormatFault>>
    ensures { ReadsOr result cursor.new (read_interfaces pool.now cursor.old) }
{
    let count = cursor.u2()?;
    classes(alloc, count, pool, cursor)
}

/// A row of LineNumberTable (JVMS 4.7.12).
#[derive(Drop)]
pub struct Line {
    pub start_pc: u16,
    pub line_number: u16,
}

impl Model for Line {
    ghost use Rattle.class_model.specs.LineNumbers.{LineNumber};

    ghost Value = { LineNumber };

    ghost view = { λ l. record { start_pc = l.start_pc; line_number = l.line_number } };
}

fn read_line(cursor: &mut Cursor) -> Result<Line, FormatFault>
    ensures { Reads result cursor.new (read_line cursor.old) }
{
    let start_pc = cursor.u2()?;
    let line_number = cursor.u2()?;
    Ok(Line {
        start_pc,
        line_number,
    })
}

// So many rows.
#[tactic(auto)]
fn lines(alloc: Global, count: u16, cursor: &mut Cursor) -> Result<Items<Line>, Or<FormatFault>>
    ensures { ReadsOr result cursor.new (many count read_line cursor.old) }
{
    let mut lines = Items::with_capacity(alloc, usize::from(count))?;
    for _ in 0..count {
        let line = read_line(cursor)?;
        lines.push(line)?;
    }
    Ok(lines)
}

/// The rows of a LineNumberTable, in any order (JVMS 4.7.12).
#[tactic(auto, unfolding(class_model::specs::ReadingAttributes::line_number_table, crate::proofs::Unfolding::numbers))]
pub fn line_number_table(alloc: Global, cursor: &mut Cursor) -> Result<Items<Line>, Or<FormatFault>>
    ensures { ReadsOr result cursor.new (line_number_table cursor.old) }
{
    let count = cursor.u2()?;
    lines(alloc, count, cursor)
}

// ---- ConstantValue (JVMS 4.7.2)

fn is_int(ty: &FieldType) -> bool
    ensures { result ≡ plain is_int_base ty.now }
{
    ty.dims == 0
        && matches!(
            ty.base,
            Base::Int | Base::Short | Base::Char | Base::Byte | Base::Boolean
        )
}

fn is_long(ty: &FieldType) -> bool
    ensures { result ≡ plain is_long_base ty.now }
{
    ty.dims == 0 && matches!(ty.base, Base::Long)
}

fn is_string(ty: &FieldType) -> bool
    ensures { result ≡ plain is_string_base ty.now }
{
    ty.dims == 0 && matches!(&ty.base, Base::Class(name) if name.as_str() == "java/lang/String")
}

fn is_float(ty: &FieldType) -> bool
    ensures { result ≡ plain is_float_base ty.now }
{
    ty.dims == 0 && matches!(ty.base, Base::Float)
}

fn is_double(ty: &FieldType) -> bool
    ensures { result ≡ plain is_double_base ty.now }
{
    ty.dims == 0 && matches!(ty.base, Base::Double)
}

fn text_constant(pool: &KnownPool, index: u16) -> M<Option<Constant>>
    ensures { IfOk result (λ value. value ≡ option_map (λ units. Constant.Text units)
        (string_units_at pool.now index)) }
{
    match pool.string_units_at(index) {
        Some(units) => Ok(Some(Constant::Text(units.clone()?))),
        None => Ok(None),
    }
}

// The constant that the entry at an index is for a static field of a type.
fn constant_in(
    pool: &KnownPool,
    ty: &FieldType,
    index: u16,
) -> Result<Option<Constant>, Or<FormatKind>>
    ensures { IsDue result (constant_in pool.now index ty.now (slice_get pool.now index)) }
{
    let Some(entry) = pool.entry_at(index) else {
        return Err(Or::Fault(FormatKind::BadIndex));
    };
    match entry {
        Entry::Integer(n) if is_int(ty) => Ok(Some(Constant::Int(*n))),
        Entry::Long(n) if is_long(ty) => Ok(Some(Constant::Long(*n))),
        Entry::Str(_) if is_string(ty) => Ok(text_constant(pool, index)?),
        Entry::LeftOut(4) if is_float(ty) => Ok(None),
        Entry::LeftOut(6) if is_double(ty) => Ok(None),
        Entry::Integer(_) | Entry::Long(_) | Entry::Str(_) | Entry::LeftOut(4 | 6) => {
            Err(Or::Fault(FormatKind::BadConstant))
        }
        _ => Err(Or::Fault(FormatKind::BadIndex)),
    }
}

/// The contents of a ConstantValue, for a static field of this type. A float or a double is left out.
pub fn constant_value(
    pool: &KnownPool,
    ty: &FieldType,
    cursor: &mut Cursor,
) -> Result<Option<Constant>, Or<FormatFault>>
    ensures { ReadsOr result cursor.new (constant_value pool.now ty.now cursor.old) }
{
    let at = cursor.place();
    let index = cursor.u2()?;
    match constant_in(pool, ty, index) {
        Ok(value) => Ok(value),
        Err(Or::Fault(kind)) => Err(Or::Fault(fault(at, kind))),
        Err(Or::OutOfMemory) => Err(Or::OutOfMemory),
    }
}
