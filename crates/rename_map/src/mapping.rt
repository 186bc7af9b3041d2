// The mapping of classes to their new names (ProGuard manual, "-printmapping").
ghost use Rattle.std.specs.Prelude.{◌≡◌, ◌++◌, [], ℕ, List, None, IfOk, if◌then◌else◌, map};
ghost use Rattle.std.specs.List.{cons_option};
ghost use Rattle.std.specs.Option.{option_and_then};
ghost use Rattle.class_model.specs.declared.code.Code.{Code};
ghost use Rattle.class_rename.specs.Names.{names_in};
ghost use Rattle.rename_map.specs.MappingOf.{class_lines, field_line, lines_of, mapping_of, method_line, range_of};
ghost use Rattle.rename_map.specs.bodies.Widening.{with_line};

use class_model::{Class, Code, Field, Method};
use class_rename::NewNames;
use jv_base::{FieldType, Items, M, MethodType, Name};
use mapping_file::{MapClass, MapField, MapMethod, Mapping, Range};
use std::alloc::Global;

/// What each class with its members was named and what it is named now, in their order. Where lines are kept, a method
/// has the least and the greatest line of its code, if that has lines.
pub fn mapping_of(alloc: Global, names: &NewNames, kept: &Items<Class>, lines: bool) -> M<Mapping>
    ensures { IfOk result (λ mapping. mapping ≡ mapping_of (names_in names.now) lines kept.now) }
{
    let mut classes = Items::new(alloc);
    for class in kept.as_slice() {
        classes.push(class_lines(alloc, names, class, lines)?)?;
    }
    Ok(Mapping { classes })
}

fn class_lines(alloc: Global, names: &NewNames, class: &Class, lines: bool) -> M<MapClass>
    ensures { IfOk result (λ told. told ≡ class_lines (names_in names.now) lines class.now) }
{
    let fields = field_lines(alloc, names, class.fields.as_slice())?;
    let methods = method_lines(alloc, names, class.methods.as_slice(), lines)?;
    let old = class.name.clone()?;
    let new = new_class_name(names, &class.name)?;
    Ok(MapClass {
        old,
        new,
        fields,
        methods,
    })
}

fn new_class_name(names: &NewNames, name: &Name) -> M<Name>
    ensures { IfOk result (λ new. new ≡ (names_in names.now).class name.now) }
{
    match names.class(name)? {
        Some(new) => Ok(new),
        None => Ok(name.clone()?),
    }
}

fn field_lines(alloc: Global, names: &NewNames, fields: &[Field]) -> M<Items<MapField>>
    ensures { IfOk result (λ lines. lines ≡ map (field_line (names_in names.now)) fields.now) }
{
    let mut lines = Items::new(alloc);
    for field in fields {
        lines.push(field_line(names, field)?)?;
    }
    Ok(lines)
}

fn field_line(names: &NewNames, field: &Field) -> M<MapField>
    ensures { IfOk result (λ line. line ≡ field_line (names_in names.now) field.now) }
{
    let ty = field.ty.clone()?;
    let old = field.name.clone()?;
    let new = names.field(&field.name)?;
    Ok(MapField { ty, old, new })
}

fn method_lines(
    alloc: Global,
    names: &NewNames,
    methods: &[Method],
    lines: bool,
) -> M<Items<MapMethod>>
    ensures { IfOk result (λ told. told ≡ map (method_line (names_in names.now) lines) methods.now) }
{
    let mut told = Items::new(alloc);
    for method in methods {
        told.push(method_line(alloc, names, method, lines)?)?;
    }
    Ok(told)
}

fn method_line(alloc: Global, names: &NewNames, method: &Method, lines: bool) -> M<MapMethod>
    ensures { IfOk result (λ line. line ≡ method_line (names_in names.now) lines method.now) }
{
    let lines = range_of(&method.code, lines);
    let ty = type_copy(alloc, &method.ty)?;
    let old = method.name.clone()?;
    let new = names.method_of_type(alloc, &method.name, &method.ty)?;
    Ok(MapMethod {
        lines,
        ty,
        old,
        new,
    })
}

fn type_copy(alloc: Global, ty: &MethodType) -> M<MethodType>
    ensures { IfOk result (λ copy. copy ≡ ty.now) }
{
    let args = types_copy(alloc, ty.args.as_slice())?;
    let ret = result_copy(&ty.ret)?;
    Ok(MethodType { args, ret })
}

fn types_copy(alloc: Global, types: &[FieldType]) -> M<Items<FieldType>>
    ensures { IfOk result (λ copies. copies ≡ types.now) }
{
    let mut copies = Items::with_capacity(alloc, types.len())?;
    for ty in types {
        copies.push(ty.clone()?)?;
    }
    Ok(copies)
}

fn result_copy(ty: &Option<FieldType>) -> M<Option<FieldType>>
    ensures { IfOk result (λ copy. copy ≡ ty.now) }
{
    match ty {
        Some(ty) => Ok(Some(ty.clone()?)),
        None => Ok(None),
    }
}

/// From the least to the greatest line of a code, if lines are kept and it has any.
fn range_of(code: &Option<Code>, lines: bool) -> Option<Range>
    ensures { result ≡ (if lines then option_and_then (λ (c : Code). range_of (lines_of c)) code.now else None) }
{
    if !lines {
        return None;
    }
    match code {
        Some(code) => lines_in(code),
        None => None,
    }
}

fn lines_in(code: &Code) -> Option<Range>
    ensures { result ≡ range_of (lines_of code.now) }
{
    let mut range = None;
    for instruction in code.ins.as_slice() {
        range = with_line_of(range, instruction.line);
    }
    range
}

/// A range with the line of one instruction more, if it has one.
#[tactic(auto, using(crate::proofs::Ranges::range_more))]
fn with_line_of(range: Option<Range>, line: Option<u16>) -> Option<Range>
    ensures { (lines : List ℕ) → range ≡ range_of lines → result ≡ range_of (lines ++ cons_option line []) }
{
    match line {
        Some(line) => Some(with_line(range, line)),
        None => range,
    }
}

/// A range with one line more.
fn with_line(range: Option<Range>, line: u16) -> Range
    ensures { result ≡ with_line range line }
{
    match range {
        Some(range) => Range {
            first: range.first.min(line),
            last: range.last.max(line),
        },
        None => Range {
            first: line,
            last: line,
        },
    }
}
