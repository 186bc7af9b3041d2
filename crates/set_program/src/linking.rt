// What the names and references of a set mean is found out, once for each.
ghost use Rattle.std.specs.Prelude.{◌≡◌, IfOk, IfSome, OnOk};
ghost use Rattle.set_program.specs.bodies.Links.{AreLinks, IsClassRow, IsCodeRow, IsFieldRow, IsSpecialRow};
ghost use Rattle.set_program.specs.bodies.Links.{IsKindsRow, IsStaticRow};

use crate::counts::counts_of;
use crate::links::{
    CallRow, ClassRow, CodeRow, FieldRow, KindsRow, Links, StaticRow, call_row, field_row,
    kinds_row, no_links, static_row,
};
use crate::marks::{call_mark, key_mark, reference_mark, text_mark};
use crate::receivers::{RECEIVERS, link_receivers};
use crate::rows::{place_of, put_row};
use class_model::{Class, Code, MemberRef, Method, Op};
use class_pool::ClassSet;
use jv_base::{M, Name, Shared, Text, method_text};
use run_heap::Key;
use run_steps::operand_kinds;
use set_meanings::member_of;
use std::alloc::Global;

/// What the names and references of a set mean.
pub(crate) fn links_of(alloc: Global, set: &ClassSet, names: &[Name]) -> M<Links>
    ensures { IfOk result (AreLinks set.now) }
{
    let mut counts = counts_of(set);
    counts.selections = counts.selections.saturating_mul(RECEIVERS);
    let mut links = no_links(alloc, names.len(), counts)?;
    link_names(&mut links, set, names)?;
    link_classes(alloc, &mut links, set)?;
    link_receivers(alloc, &mut links, set, names, counts.selections)?;
    Ok(links)
}

fn link_names(links: &mut Links, set: &ClassSet, names: &[Name]) -> M<()>
    requires { AreLinks set.now links.old }
    ensures { OnOk result (AreLinks set.now links.new) }
{
    for name in names {
        if let Some(row) = class_row_of(set, name)? {
            keep_class(links, set, row);
        }
    }
    Ok(())
}

fn class_row_of(set: &ClassSet, name: &Name) -> M<Option<ClassRow>>
    ensures { IfOk result (λ row. IfSome row (IsClassRow set.now)) }
{
    match set.find(name) {
        Some(id) => Ok(Some(ClassRow {
            name: name.clone()?,
            id,
        })),
        None => Ok(None),
    }
}

fn keep_class(links: &mut Links, set: &ClassSet, row: ClassRow)
    requires row { IsClassRow set.now row }
    requires links { AreLinks set.now links.old }
    ensures { AreLinks set.now links.new }
{
    let place = place_of(text_mark(&row.name), links.classes.len());
    put_row(&mut links.classes, place, row);
}

fn link_classes(alloc: Global, links: &mut Links, set: &ClassSet) -> M<()>
    requires { AreLinks set.now links.old }
    ensures { OnOk result (AreLinks set.now links.new) }
{
    for number in 0..set.len() {
        link_class(alloc, links, set, set.class(number))?;
    }
    Ok(())
}

fn link_class(alloc: Global, links: &mut Links, set: &ClassSet, class: &Class) -> M<()>
    requires { AreLinks set.now links.old }
    ensures { OnOk result (AreLinks set.now links.new) }
{
    for method in class.methods.as_slice() {
        if let Some(row) = code_row_of(alloc, set, class, method)? {
            keep_code(links, set, row);
        }
        if let Some(code) = &method.code {
            link_code(alloc, links, set, &class.name, code)?;
        }
    }
    Ok(())
}

fn code_row_of(alloc: Global, set: &ClassSet, class: &Class, method: &Method) -> M<Option<CodeRow>>
    ensures { IfOk result (λ row. IfSome row (IsCodeRow set.now)) }
{
    let descriptor = method_text(alloc, &method.ty)?;
    let name = method.name.clone()?;
    let key = Key::new(class.name.clone()?, name, descriptor);
    match member_of(set, &key) {
        Some(member) => Ok(Some(CodeRow { key, member })),
        None => Ok(None),
    }
}

fn keep_code(links: &mut Links, set: &ClassSet, row: CodeRow)
    requires row { IsCodeRow set.now row }
    requires links { AreLinks set.now links.old }
    ensures { AreLinks set.now links.new }
{
    let place = place_of(key_mark(&row.key), links.codes.len());
    put_row(&mut links.codes, place, row);
}

fn link_code(alloc: Global, links: &mut Links, set: &ClassSet, from: &Name, code: &Code) -> M<()>
    requires { AreLinks set.now links.old }
    ensures { OnOk result (AreLinks set.now links.new) }
{
    for ins in code.ins.as_slice() {
        link_op(alloc, links, set, from, &ins.op)?;
    }
    Ok(())
}

fn link_op(alloc: Global, links: &mut Links, set: &ClassSet, from: &Name, op: &Op) -> M<()>
    requires { AreLinks set.now links.old }
    ensures { OnOk result (AreLinks set.now links.new) }
{
    match op {
        Op::GetStatic(r) => link_field(alloc, links, set, r),
        Op::PutStatic(r) => link_field(alloc, links, set, r),
        Op::GetField(r) => link_field(alloc, links, set, r),
        Op::PutField(r) => link_field(alloc, links, set, r),
        Op::InvokeStatic(r) => {
            link_kinds(alloc, links, set, &r.ty)?;
            link_static(alloc, links, set, r)
        }
        Op::InvokeSpecial(r) => {
            link_kinds(alloc, links, set, &r.ty)?;
            link_special(alloc, links, set, from, r)
        }
        Op::InvokeVirtual(r) => link_kinds(alloc, links, set, &r.ty),
        Op::InvokeInterface(r) => link_kinds(alloc, links, set, &r.ty),
        _ => Ok(()),
    }
}

fn link_field(alloc: Global, links: &mut Links, set: &ClassSet, r: &Shared<MemberRef>) -> M<()>
    requires { AreLinks set.now links.old }
    ensures { OnOk result (AreLinks set.now links.new) }
{
    if field_row(links.fields.as_slice(), r).is_some() {
        return Ok(());
    }
    let row = field_row_of(alloc, set, r)?;
    keep_field(links, set, row);
    Ok(())
}

fn field_row_of(alloc: Global, set: &ClassSet, r: &Shared<MemberRef>) -> M<FieldRow>
    ensures { IfOk result (IsFieldRow set.now) }
{
    let key = set_meanings::field(alloc, set, r)?;
    let reference = r.clone()?;
    Ok(FieldRow { reference, key })
}

fn keep_field(links: &mut Links, set: &ClassSet, row: FieldRow)
    requires row { IsFieldRow set.now row }
    requires links { AreLinks set.now links.old }
    ensures { AreLinks set.now links.new }
{
    let place = place_of(reference_mark(&row.reference), links.fields.len());
    put_row(&mut links.fields, place, row);
}

fn link_static(alloc: Global, links: &mut Links, set: &ClassSet, r: &Shared<MemberRef>) -> M<()>
    requires { AreLinks set.now links.old }
    ensures { OnOk result (AreLinks set.now links.new) }
{
    if static_row(links.statics.as_slice(), r).is_some() {
        return Ok(());
    }
    let row = static_row_of(alloc, set, r)?;
    keep_static(links, set, row);
    Ok(())
}

fn static_row_of(alloc: Global, set: &ClassSet, r: &Shared<MemberRef>) -> M<StaticRow>
    ensures { IfOk result (IsStaticRow set.now) }
{
    let target = set_meanings::static_target(alloc, set, r)?;
    let reference = r.clone()?;
    Ok(StaticRow { reference, target })
}

fn keep_static(links: &mut Links, set: &ClassSet, row: StaticRow)
    requires row { IsStaticRow set.now row }
    requires links { AreLinks set.now links.old }
    ensures { AreLinks set.now links.new }
{
    let place = place_of(reference_mark(&row.reference), links.statics.len());
    put_row(&mut links.statics, place, row);
}

fn link_special(
    alloc: Global,
    links: &mut Links,
    set: &ClassSet,
    from: &Name,
    r: &Shared<MemberRef>,
) -> M<()>
    requires { AreLinks set.now links.old }
    ensures { OnOk result (AreLinks set.now links.new) }
{
    if call_row(links.specials.as_slice(), from, r).is_some() {
        return Ok(());
    }
    let row = special_row_of(alloc, set, from, r)?;
    keep_special(links, set, row);
    Ok(())
}

fn special_row_of(alloc: Global, set: &ClassSet, from: &Name, r: &Shared<MemberRef>) -> M<CallRow>
    ensures { IfOk result (IsSpecialRow set.now) }
{
    let target = set_meanings::special_target(alloc, set, from, r)?;
    let reference = r.clone()?;
    let class = from.clone()?;
    Ok(CallRow {
        class,
        reference,
        target,
    })
}

fn keep_special(links: &mut Links, set: &ClassSet, row: CallRow)
    requires row { IsSpecialRow set.now row }
    requires links { AreLinks set.now links.old }
    ensures { AreLinks set.now links.new }
{
    let place = place_of(call_mark(&row.class, &row.reference), links.specials.len());
    put_row(&mut links.specials, place, row);
}

fn link_kinds(alloc: Global, links: &mut Links, set: &ClassSet, descriptor: &Text) -> M<()>
    requires { AreLinks set.now links.old }
    ensures { OnOk result (AreLinks set.now links.new) }
{
    if kinds_row(links.kinds.as_slice(), descriptor).is_some() {
        return Ok(());
    }
    let row = kinds_row_of(alloc, descriptor)?;
    keep_kinds(links, set, row);
    Ok(())
}

fn kinds_row_of(alloc: Global, descriptor: &Text) -> M<KindsRow>
    ensures { IfOk result IsKindsRow }
{
    let arguments = operand_kinds(alloc, false, descriptor)?;
    let operands = operand_kinds(alloc, true, descriptor)?;
    let descriptor = descriptor.clone()?;
    Ok(KindsRow {
        descriptor,
        arguments,
        operands,
    })
}

fn keep_kinds(links: &mut Links, set: &ClassSet, row: KindsRow)
    requires row { IsKindsRow row }
    requires links { AreLinks set.now links.old }
    ensures { AreLinks set.now links.new }
{
    let place = place_of(text_mark(&row.descriptor), links.kinds.len());
    put_row(&mut links.kinds, place, row);
}
