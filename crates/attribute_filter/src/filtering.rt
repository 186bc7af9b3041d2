// Classes with the optional attributes that are kept.
ghost use Rattle.std.specs.Prelude.{◌≡◌, ◌&&◌, IfOk, OnOk, map};
ghost use Rattle.attribute_filter.specs.Filtered.{code_kept, field_filtered, filtered, members_filtered};
ghost use Rattle.attribute_filter.specs.Filtered.{method_filtered};
ghost use Rattle.attribute_filter.specs.Filtered.{source_filtered, source_kept, source_named, throws_kept};
ghost use Rattle.attribute_filter.specs.Filtered.{without_line, without_lines};

use crate::AttributeFilter;
use class_model::{Class, Code, Field, Ins, Method};
use jv_base::{Items, M, Name, Units, units_of_text};
use std::alloc::Global;
use std::mem;

/// The class with those of its optional attributes and of its members' that are kept: SourceFile, Exceptions,
/// LineNumberTable, Synthetic and Deprecated (JVMS 4.7). The flag ACC_SYNTHETIC stays. A SourceFile that is kept holds
/// the name of the filter, if it has one. Memory is wanted for that name alone.
pub fn filtered(alloc: Global, filter: &AttributeFilter, class: Class) -> M<Class>
    ensures { IfOk result (λ kept. kept ≡ filtered filter.now class) }
{
    let mut class = class;
    filter_source(alloc, filter, &mut class)?;
    Ok(members_filtered(alloc, filter, class))
}

// ---- the name of the source file

fn filter_source(alloc: Global, filter: &AttributeFilter, class: &mut Class) -> M<()>
    ensures { OnOk result (class.new ≡ source_filtered filter.now class.old) }
{
    let source = class.source.take();
    class.source = source_kept(alloc, filter, source)?;
    Ok(())
}

fn source_kept(alloc: Global, filter: &AttributeFilter, source: Option<Units>) -> M<Option<Units>>
    ensures { IfOk result (λ kept. kept ≡ source_kept filter.now source) }
{
    if !filter.source_file {
        return Ok(None);
    }
    match source {
        Some(own) => Ok(Some(source_named(alloc, filter, own)?)),
        None => Ok(None),
    }
}

/// What a SourceFile holds that is kept and that held this name.
fn source_named(alloc: Global, filter: &AttributeFilter, own: Units) -> M<Units>
    ensures { IfOk result (λ units. units ≡ source_named filter.now own) }
{
    match &filter.source_name {
        Some(name) => units_of_text(alloc, name),
        None => Ok(own),
    }
}

// ---- members, and marks

/// The class without the other attributes that aren't kept. Takes no memory.
fn members_filtered(alloc: Global, filter: &AttributeFilter, class: Class) -> Class
    ensures { result ≡ members_filtered filter.now class }
{
    let mut class = class;
    let fields = mem::replace(&mut class.fields, Items::new(alloc));
    class.fields = fields_filtered(filter, fields);
    let methods = mem::replace(&mut class.methods, Items::new(alloc));
    class.methods = methods_filtered(alloc, filter, methods);
    class.synthetic = both(filter.synthetic, class.synthetic);
    class.deprecated = both(filter.deprecated, class.deprecated);
    class
}

/// Whether an attribute is kept and there.
fn both(kept: bool, there: bool) -> bool
    ensures { result ≡ (kept && there) }
{
    kept && there
}

/// Each field with the attributes that are kept.
fn fields_filtered(filter: &AttributeFilter, fields: Items<Field>) -> Items<Field>
    ensures { result ≡ map (field_filtered filter.now) fields }
{
    let mut fields = fields.into_vec();
    for field in fields.iter_mut() {
        filter_field(filter, field);
    }
    Items::from_vec(fields)
}

/// Takes those attributes of a field away that aren't kept.
fn filter_field(filter: &AttributeFilter, field: &mut Field)
    ensures { field.new ≡ field_filtered filter.now field.old }
{
    field.synthetic = both(filter.synthetic, field.synthetic);
    field.deprecated = both(filter.deprecated, field.deprecated);
}

/// Each method with the attributes that are kept.
fn methods_filtered(
    alloc: Global,
    filter: &AttributeFilter,
    methods: Items<Method>,
) -> Items<Method>
    ensures { result ≡ map (method_filtered filter.now) methods }
{
    let mut methods = methods.into_vec();
    for method in methods.iter_mut() {
        filter_method(alloc, filter, method);
    }
    Items::from_vec(methods)
}

/// Takes those attributes of a method away that aren't kept.
fn filter_method(alloc: Global, filter: &AttributeFilter, method: &mut Method)
    ensures { method.new ≡ method_filtered filter.now method.old }
{
    let code = method.code.take();
    method.code = code_kept(alloc, filter, code);
    filter_throws(alloc, filter, &mut method.throws);
    method.synthetic = both(filter.synthetic, method.synthetic);
    method.deprecated = both(filter.deprecated, method.deprecated);
}

fn filter_throws(alloc: Global, filter: &AttributeFilter, throws: &mut Items<Name>)
    ensures { throws.new ≡ throws_kept filter.now throws.old }
{
    if filter.exceptions {
        return;
    }
    *throws = Items::new(alloc);
}

/// The code, with its lines where these are kept.
fn code_kept(alloc: Global, filter: &AttributeFilter, code: Option<Code>) -> Option<Code>
    ensures { result ≡ code_kept filter.now code }
{
    if filter.line_numbers {
        return code;
    }
    match code {
        Some(code) => Some(without_lines(alloc, code)),
        None => None,
    }
}

/// The code without the lines of its instructions.
fn without_lines(alloc: Global, code: Code) -> Code
    ensures { result ≡ without_lines code }
{
    let mut code = code;
    let ins = mem::replace(&mut code.ins, Items::new(alloc));
    code.ins = instructions_without_line(ins);
    code
}

/// Each instruction without its line.
fn instructions_without_line(instructions: Items<Ins>) -> Items<Ins>
    ensures { result ≡ map without_line instructions }
{
    let mut instructions = instructions.into_vec();
    for instruction in instructions.iter_mut() {
        instruction.line = None;
    }
    Items::from_vec(instructions)
}
