// Reading a mapping file line by line.
ghost use Rattle.std.specs.Prelude.{◌≡◌, ◌<◌, length, Some, IfOk, OnOk, Ok};
ghost use Rattle.jv_base.specs.Outcome.{IsDue};
ghost use Rattle.text_lines.specs.bodies.Steps.{ChangesOr};
ghost use Rattle.mapping_file.specs.MapReading.{IsFirstFault, with_line, all_classes, empty_class, nothing};
ghost use Rattle.mapping_file.specs.MapReading.{read_mapping, step};
ghost use Rattle.text_lines.specs.Lines.{read_lines};
ghost use Rattle.std.specs.Str.Lines.{lines};
ghost use Rattle.jv_base.specs.declared.outcome.Or.TheVariants.{Fault};
ghost use Rattle.mapping_file.specs.declared.line.MapLine.TheVariants as line;
ghost use Rattle.mapping_file.specs.Mappings.{IsOneMapping, Reading};
ghost use Rattle.mapping_file.specs.bodies.NameTable.{TellsNames};
ghost use Rattle.mapping_file.specs.declared.mapping.Mapping.{Mapping};

use crate::line::{MapLine, line_of};
use crate::names::ClassNames;
use crate::{MapClass, MapFault, MapField, MapKind, MapMethod, Mapping};
use jv_base::{Items, M, Name, Or};
use std::alloc::Global;
use text_lines::{Known, is_passed_over, next_line};

/// What was read: classes, and the last one, to which members may be added.
#[derive(Drop)]
pub(crate) struct ClassesRead {
    pub(crate) before: Items<MapClass>,
    pub(crate) last: Option<MapClass>,
}

/// The mapping that a text stands for, or the first line that no mapping file has there, and why. Members of a class
/// may come in any order, and so may classes; a comment begins with `#`.
pub fn read_mapping(alloc: Global, bytes: &[u8]) -> Result<Mapping, Or<MapFault>>
    requires { length bytes.now < 4294967295 }
    ensures found { IfOk result (Reading bytes.now) }
    ensures only { (map : Mapping) → Reading bytes.now map → IsDue result (Ok map) }
    ensures exact { IsDue result (read_mapping bytes.now) }
{
    let read = read_classes(alloc, bytes)?;
    Ok(mapping_of(read)?)
}

/// A text stands for one mapping at most.
pub fn one_mapping()
    ensures { IsOneMapping }
{}

/// The line that is told is the first at fault: a mapping can begin with those before it, and none with it behind them.
pub fn first_fault()
    ensures { IsFirstFault }
{}

fn mapping_of(read: ClassesRead) -> M<Mapping>
    ensures { IfOk result (λ map. map.classes ≡ all_classes read) }
{
    let ClassesRead { before, last } = read;
    let mut classes = before;
    if let Some(class) = last {
        classes.push(class)?;
    }
    Ok(Mapping { classes })
}

fn read_classes(alloc: Global, bytes: &[u8]) -> Result<ClassesRead, Or<MapFault>>
    requires { length bytes.now < 4294967295 }
    ensures { IsDue result (read_lines step 1 (lines bytes.now) nothing) }
{
    let mut known = Known::new(alloc, bytes.len())?;
    let mut read = ClassesRead {
        before: Items::new(alloc),
        last: None,
    };
    let mut names = ClassNames::new(alloc);
    let mut rest = bytes;
    let mut number = 1;
    while let Some(line) = next_line(rest) {
        read_line(alloc, &mut known, &mut names, &mut read, number, line.line)?;
        rest = line.rest;
        number += 1;
    }
    Ok(read)
}

// Adds what the line of this number says to what was read before it.
fn read_line<'a>(
    alloc: Global,
    known: &mut Known<'a>,
    names: &mut ClassNames,
    read: &mut ClassesRead,
    number: u32,
    line: &'a [u8],
) -> Result<(), Or<MapFault>>
    requires { TellsNames names.old (all_classes read.old) }
    ensures read { ChangesOr result read.new (step number line.now read.old) }
    ensures names { OnOk result (TellsNames names.new (all_classes read.new)) }
{
    let Ok(text) = std::str::from_utf8(line) else {
        return Err(fault(number, MapKind::NotUtf8));
    };
    if is_passed_over(line) {
        return Ok(());
    }
    let Some(said) = line_of(alloc, known, text)? else {
        return Err(fault(number, MapKind::BadLine));
    };
    match add(alloc, names, read, said) {
        Ok(()) => Ok(()),
        Err(Or::Fault(kind)) => Err(fault(number, kind)),
        Err(Or::OutOfMemory) => Err(Or::OutOfMemory),
    }
}

fn fault(line: u32, kind: MapKind) -> Or<MapFault>
    ensures { result ≡ Fault (record { line = line; kind = kind }) }
{
    Or::Fault(MapFault { line, kind })
}

fn add(
    alloc: Global,
    names: &mut ClassNames,
    read: &mut ClassesRead,
    line: MapLine,
) -> Result<(), Or<MapKind>>
    requires { TellsNames names.old (all_classes read.old) }
    ensures read { ChangesOr result read.new (with_line line read.old) }
    ensures names { OnOk result (TellsNames names.new (all_classes read.new)) }
{
    match line {
        MapLine::Class { old, new } => add_class(alloc, names, read, old, new),
        MapLine::Field(field) => add_field(read, field),
        MapLine::Method(method) => add_method(read, method),
    }
}

fn add_field(read: &mut ClassesRead, field: MapField) -> Result<(), Or<MapKind>>
    ensures { ChangesOr result read.new (with_line (line.Field field) read.old) }
{
    match &mut read.last {
        Some(class) => {
            class.fields.push(field)?;
            Ok(())
        }
        None => Err(Or::Fault(MapKind::NoClass)),
    }
}

fn add_method(read: &mut ClassesRead, method: MapMethod) -> Result<(), Or<MapKind>>
    ensures { ChangesOr result read.new (with_line (line.Method method) read.old) }
{
    match &mut read.last {
        Some(class) => {
            class.methods.push(method)?;
            Ok(())
        }
        None => Err(Or::Fault(MapKind::NoClass)),
    }
}

fn add_class(
    alloc: Global,
    names: &mut ClassNames,
    read: &mut ClassesRead,
    old: Name,
    new: Name,
) -> Result<(), Or<MapKind>>
    requires { TellsNames names.old (all_classes read.old) }
    ensures read { ChangesOr result read.new (with_line (line.Class old new) read.old) }
    ensures names { OnOk result (TellsNames names.new (all_classes read.new)) }
{
    if !names.put(&old, &new)? {
        return Err(Or::Fault(MapKind::Repeated));
    }
    begin(alloc, read, old, new)?;
    Ok(())
}

// Begins a class without members.
fn begin(alloc: Global, read: &mut ClassesRead, old: Name, new: Name) -> M<()>
    ensures { OnOk result (read.new ≡ record { before = all_classes read.old; last = Some (empty_class old new) }) }
{
    let class = MapClass {
        old,
        new,
        fields: Items::new(alloc),
        methods: Items::new(alloc),
    };
    if let Some(last) = read.last.replace(class) {
        read.before.push(last)?;
    }
    Ok(())
}
