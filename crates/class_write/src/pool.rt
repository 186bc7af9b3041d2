// The constants of a class in the order of the file, each once (JVMS 4.4).
ghost use Rattle.std.specs.Prelude.{◌≡◌, [], ◌++◌, IfOk, OnOk, codes, None};
ghost use Rattle.std.specs.List.{flat_map};
ghost use Rattle.indexmap.specs.IndexSet.{insert_all};
ghost use Rattle.class_model.specs.CanonicalPool.{same, class_constants};
ghost use Rattle.class_model.specs.CanonicalCode as code;
ghost use Rattle.class_model.specs.CanonicalFrames as written;
ghost use Rattle.class_model.specs.CanonicalClass as canonical;
ghost use Rattle.class_model.specs.declared.code.Ins.{Ins};
ghost use Rattle.class_model.specs.declared.code.Handler.{Handler};
ghost use Rattle.frame_write.specs.Forms.{form_of_row};
ghost use Rattle.class_write.specs.bodies.Pushes.{pushes_of_body};

use crate::frames::first_frame;
use crate::lines::has_rows;
use class_model::{Class, Code, Constant, Field, Frames, Handler, Ins, Method, Op, VType};
use constant_table::ConstantTable;
use frame_write::{FrameForm, frame_form};
use jv_base::{Items, M, Name, Text, Units, field_text, method_text};
use std::alloc::Global;

// ---- instructions

/// The constant that a push loads by ldc: those of all codes come first, so that they have the lowest indices.
fn add_pushed(alloc: Global, pool: &mut ConstantTable, op: &Op) -> M<()>
    ensures { OnOk result (pool.new ≡ insert_all same pool.old (code.pushed_constants op.now)) }
{
    match op {
        Op::PushInt(number) if -32_768 <= *number && *number <= 32_767 => Ok(()),
        Op::PushInt(number) => pool.add_int(*number),
        Op::PushText(units) => pool.add_string(alloc, units),
        _ => Ok(()),
    }
}

/// The constants that an instruction names.
fn add_op(alloc: Global, pool: &mut ConstantTable, op: &Op) -> M<()>
    ensures { OnOk result (pool.new ≡ insert_all same pool.old (code.op_constants op.now)) }
{
    match op {
        Op::PushLong(number) if 0 <= *number && *number <= 1 => Ok(()),
        Op::PushLong(number) => pool.add_long(*number),
        Op::GetStatic(field) | Op::PutStatic(field) | Op::GetField(field) | Op::PutField(field) => {
            pool.add_field(alloc, field)
        }
        Op::InvokeVirtual(method)
        | Op::InvokeSpecial(method)
        | Op::InvokeStatic(method)
        | Op::InvokeInterface(method) => pool.add_method(alloc, method),
        Op::New(name) => pool.add_class(alloc, name),
        Op::ANewArray(ty) | Op::CheckCast(ty) | Op::InstanceOf(ty) | Op::MultiNewArray(ty, _) => {
            pool.add_type(alloc, ty)
        }
        op => add_pushed(alloc, pool, op),
    }
}

fn add_pushes_of_code(alloc: Global, pool: &mut ConstantTable, ins: &[Ins]) -> M<()>
    ensures { OnOk result (pool.new ≡ insert_all same pool.old
        (flat_map (λ (i : Ins). code.pushed_constants i.op) ins.now)) }
{
    for instruction in ins {
        add_pushed(alloc, pool, &instruction.op)?;
    }
    Ok(())
}

fn add_instructions(alloc: Global, pool: &mut ConstantTable, ins: &[Ins]) -> M<()>
    ensures { OnOk result (pool.new ≡ insert_all same pool.old
        (flat_map (λ (i : Ins). code.op_constants i.op) ins.now)) }
{
    for instruction in ins {
        add_op(alloc, pool, &instruction.op)?;
    }
    Ok(())
}

// ---- frames

fn add_vtype(alloc: Global, pool: &mut ConstantTable, ty: &VType) -> M<()>
    ensures { OnOk result (pool.new ≡ insert_all same pool.old (written.type_constants ty.now)) }
{
    match ty {
        VType::Object(ty) => pool.add_type(alloc, ty),
        _ => Ok(()),
    }
}

fn add_vtypes(alloc: Global, pool: &mut ConstantTable, types: &[VType]) -> M<()>
    ensures { OnOk result (pool.new ≡ insert_all same pool.old (flat_map written.type_constants types.now)) }
{
    for ty in types {
        add_vtype(alloc, pool, ty)?;
    }
    Ok(())
}

/// The classes that a form names.
fn add_form(alloc: Global, pool: &mut ConstantTable, form: &FrameForm) -> M<()>
    ensures { OnOk result (pool.new ≡ insert_all same pool.old
        (flat_map written.type_constants (written.types_written (form_of_row form.now)))) }
{
    match form {
        FrameForm::Same | FrameForm::Chop(_) => Ok(()),
        FrameForm::SameWithItem(item) => add_vtype(alloc, pool, item),
        FrameForm::Append(new) => add_vtypes(alloc, pool, new.as_slice()),
        FrameForm::Full(frame) => {
            add_vtypes(alloc, pool, frame.locals.as_slice())?;
            add_vtypes(alloc, pool, frame.stack.as_slice())
        }
    }
}

/// The classes that frames name where they write them, the first of them behind these locals.
fn add_frames(alloc: Global, pool: &mut ConstantTable, first: &[VType], frames: &Frames) -> M<()>
    ensures { OnOk result (pool.new ≡ insert_all same pool.old (written.frame_constants first.now frames.now)) }
{
    for number in 0..frames.len() {
        let form = frame_form(alloc, first, frames, number)?;
        add_form(alloc, pool, &form)?;
    }
    Ok(())
}

// ---- attributes

/// The name of an attribute that is written.
fn add_name(alloc: Global, pool: &mut ConstantTable, written: bool, name: &str) -> M<()>
    ensures { OnOk result (pool.new ≡ insert_all same pool.old (canonical.attribute_constants written name.now [])) }
{
    if !written {
        return Ok(());
    }
    let name = Text::from_str(alloc, name)?;
    pool.add_text(alloc, &name)
}

/// The names of the attributes Synthetic and Deprecated.
fn add_marks(alloc: Global, pool: &mut ConstantTable, synthetic: bool, deprecated: bool) -> M<()>
    ensures { OnOk result (pool.new ≡ insert_all same pool.old (canonical.mark_constants synthetic deprecated)) }
{
    add_name(alloc, pool, synthetic, "Synthetic")?;
    add_name(alloc, pool, deprecated, "Deprecated")
}

// ---- code

/// The class that a handler catches.
fn add_caught(alloc: Global, pool: &mut ConstantTable, caught: &Option<Name>) -> M<()>
    ensures { OnOk result (pool.new ≡ insert_all same pool.old (canonical.caught_constants caught.now)) }
{
    match caught {
        Some(name) => pool.add_class(alloc, name),
        None => Ok(()),
    }
}

fn add_handlers(alloc: Global, pool: &mut ConstantTable, handlers: &[Handler]) -> M<()>
    ensures { OnOk result (pool.new ≡ insert_all same pool.old
        (flat_map (λ (h : Handler). canonical.caught_constants h.caught) handlers.now)) }
{
    for handler in handlers {
        add_caught(alloc, pool, &handler.caught)?;
    }
    Ok(())
}

/// The name of the StackMapTable, and the classes that its rows name.
fn add_stack_map(alloc: Global, pool: &mut ConstantTable, first: &[VType], frames: &Frames) -> M<()>
    ensures { OnOk result (pool.new ≡ insert_all same pool.old (canonical.attribute_constants
        (canonical.is_some_item frames.now) (codes "StackMapTable") (written.frame_constants first.now frames.now))) }
{
    if frames.is_empty() {
        return Ok(());
    }
    add_name(alloc, pool, true, "StackMapTable")?;
    add_frames(alloc, pool, first, frames)
}

/// The name of the LineNumberTable.
fn add_lines(alloc: Global, pool: &mut ConstantTable, ins: &[Ins]) -> M<()>
    ensures { OnOk result (pool.new ≡ insert_all same pool.old (canonical.attribute_constants
        (canonical.is_some_item (canonical.line_rows None [] ins.now)) (codes "LineNumberTable") [])) }
{
    add_name(alloc, pool, has_rows(ins), "LineNumberTable")
}

/// Instructions, handlers, attributes.
fn add_code(alloc: Global, pool: &mut ConstantTable, first: &[VType], code: &Code) -> M<()>
    ensures { OnOk result (pool.new ≡ insert_all same pool.old (canonical.code_constants first.now code.now)) }
{
    add_instructions(alloc, pool, code.ins.as_slice())?;
    add_handlers(alloc, pool, code.handlers.as_slice())?;
    add_lines(alloc, pool, code.ins.as_slice())?;
    add_stack_map(alloc, pool, first, &code.frames)
}

/// The name of the attribute Code, and what it names.
fn add_body(alloc: Global, pool: &mut ConstantTable, class: &Name, method: &Method) -> M<()>
    ensures { OnOk result (pool.new ≡ insert_all same pool.old
        (canonical.body_constants (canonical.first_locals class.now method.now) method.now.code)) }
{
    match &method.code {
        Some(code) => {
            let first = first_frame(alloc, class, method)?;
            add_name(alloc, pool, true, "Code")?;
            add_code(alloc, pool, first.locals.as_slice(), code)
        }
        None => Ok(()),
    }
}

// ---- members

/// The classes of these names, one behind the other.
fn add_classes(alloc: Global, pool: &mut ConstantTable, names: &[Name]) -> M<()>
    ensures { OnOk result (pool.new ≡ insert_all same pool.old (flat_map class_constants names.now)) }
{
    for name in names {
        pool.add_class(alloc, name)?;
    }
    Ok(())
}

/// The name of the attribute Exceptions, and the classes that it names.
fn add_throws(alloc: Global, pool: &mut ConstantTable, throws: &[Name]) -> M<()>
    ensures { OnOk result (pool.new ≡ insert_all same pool.old (canonical.attribute_constants
        (canonical.is_some_item throws.now) (codes "Exceptions") (flat_map class_constants throws.now))) }
{
    if throws.is_empty() {
        return Ok(());
    }
    add_name(alloc, pool, true, "Exceptions")?;
    add_classes(alloc, pool, throws)
}

/// Name, descriptor, and the attributes Code, Exceptions, Synthetic and Deprecated (JVMS 4.6).
fn add_method(alloc: Global, pool: &mut ConstantTable, class: &Name, method: &Method) -> M<()>
    ensures { OnOk result (pool.new ≡ insert_all same pool.old (canonical.method_constants class.now method.now)) }
{
    pool.add_text(alloc, &method.name)?;
    pool.add_text(alloc, &method_text(alloc, &method.ty)?)?;
    add_body(alloc, pool, class, method)?;
    add_throws(alloc, pool, method.throws.as_slice())?;
    add_marks(alloc, pool, method.synthetic, method.deprecated)
}

fn add_methods(alloc: Global, pool: &mut ConstantTable, class: &Name, methods: &[Method]) -> M<()>
    ensures { OnOk result (pool.new ≡ insert_all same pool.old
        (flat_map (canonical.method_constants class.now) methods.now)) }
{
    for method in methods {
        add_method(alloc, pool, class, method)?;
    }
    Ok(())
}

/// What constantvalue_index refers to (JVMS 4.7.2).
fn add_value(alloc: Global, pool: &mut ConstantTable, value: &Constant) -> M<()>
    ensures { OnOk result (pool.new ≡ insert_all same pool.old (canonical.value_constants value.now)) }
{
    match value {
        Constant::Int(number) => pool.add_int(*number),
        Constant::Long(number) => pool.add_long(*number),
        Constant::Text(units) => pool.add_string(alloc, units),
    }
}

/// The name of the attribute ConstantValue, and its value.
fn add_constant(alloc: Global, pool: &mut ConstantTable, constant: &Option<Constant>) -> M<()>
    ensures { OnOk result (pool.new ≡ insert_all same pool.old (canonical.constant_value_constants constant.now)) }
{
    match constant {
        Some(value) => {
            add_name(alloc, pool, true, "ConstantValue")?;
            add_value(alloc, pool, value)
        }
        None => Ok(()),
    }
}

/// Name, descriptor, and the attributes ConstantValue, Synthetic and Deprecated (JVMS 4.5).
fn add_field(alloc: Global, pool: &mut ConstantTable, field: &Field) -> M<()>
    ensures { OnOk result (pool.new ≡ insert_all same pool.old (canonical.field_constants field.now)) }
{
    pool.add_text(alloc, &field.name)?;
    pool.add_text(alloc, &field_text(alloc, &field.ty)?)?;
    add_constant(alloc, pool, &field.constant)?;
    add_marks(alloc, pool, field.synthetic, field.deprecated)
}

fn add_fields(alloc: Global, pool: &mut ConstantTable, fields: &[Field]) -> M<()>
    ensures { OnOk result (pool.new ≡ insert_all same pool.old (flat_map canonical.field_constants fields.now)) }
{
    for field in fields {
        add_field(alloc, pool, field)?;
    }
    Ok(())
}

// ---- the class

/// The constants of the pushes of a method that has a code.
fn add_pushes_of_body(alloc: Global, pool: &mut ConstantTable, code: &Option<Code>) -> M<()>
    ensures { OnOk result (pool.new ≡ insert_all same pool.old (pushes_of_body code.now)) }
{
    match code {
        Some(code) => add_pushes_of_code(alloc, pool, code.ins.as_slice()),
        None => Ok(()),
    }
}

/// The constants that are pushed, over all methods and instructions.
fn add_pushes(alloc: Global, pool: &mut ConstantTable, methods: &[Method]) -> M<()>
    ensures { OnOk result (pool.new ≡ insert_all same pool.old (canonical.class_pushes methods.now)) }
{
    for method in methods {
        add_pushes_of_body(alloc, pool, &method.code)?;
    }
    Ok(())
}

/// The name of the attribute SourceFile, and the file's.
fn add_source(alloc: Global, pool: &mut ConstantTable, source: &Option<Units>) -> M<()>
    ensures { OnOk result (pool.new ≡ insert_all same pool.old (canonical.source_constants source.now)) }
{
    match source {
        Some(units) => {
            add_name(alloc, pool, true, "SourceFile")?;
            pool.add_units(alloc, units)
        }
        None => Ok(()),
    }
}

/// This class, its superclass and its interfaces.
fn add_names(alloc: Global, pool: &mut ConstantTable, class: &Class) -> M<()>
    ensures { OnOk result (pool.new ≡ insert_all same pool.old (class_constants class.now.name
        ++ (class_constants class.now.super_name ++ flat_map class_constants class.now.interfaces))) }
{
    pool.add_class(alloc, &class.name)?;
    pool.add_class(alloc, &class.super_name)?;
    add_classes(alloc, pool, class.interfaces.as_slice())
}

/// All that a class needs, into a pool without constants.
#[tactic(auto, unfolding(class_model::specs::CanonicalPool::filled, class_model::specs::CanonicalClass::pool_of))]
fn add_all(alloc: Global, pool: &mut ConstantTable, class: &Class) -> M<()>
    requires { pool.old ≡ [] }
    ensures { OnOk result (pool.new ≡ canonical.pool_of class.now) }
{
    add_pushes(alloc, pool, class.methods.as_slice())?;
    add_names(alloc, pool, class)?;
    add_fields(alloc, pool, class.fields.as_slice())?;
    add_methods(alloc, pool, &class.name, class.methods.as_slice())?;
    add_source(alloc, pool, &class.source)?;
    add_marks(alloc, pool, class.synthetic, class.deprecated)
}

/// The constants that a class needs, each once, where the file needs it first. That of index i stands at place i - 1;
/// those that instructions push have the lowest indices.
pub fn pool_of(alloc: Global, class: &Class) -> M<ConstantTable>
    ensures { IfOk result (λ pool. pool ≡ canonical.pool_of class.now) }
{
    let mut pool = ConstantTable::new(alloc);
    add_all(alloc, &mut pool, class)?;
    Ok(pool)
}
