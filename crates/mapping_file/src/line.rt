// What a line says.
ghost use Rattle.std.specs.Prelude.{◌≡◌, IfOk};
ghost use Rattle.mapping_file.specs.LineReading.{class_parts, field_parts, line_said, method_parts, said, kept_parts};

use crate::parts::{Parts, parts_of};
use crate::{MapField, MapMethod, Range};
use jv_base::{M, Name, is_member_name, is_method_name};
use std::alloc::Global;
use text_lines::Known;

/// What a line of a mapping file says.
#[derive(Drop)]
pub(crate) enum MapLine {
    /// `old -> new:`
    Class { old: Name, new: Name },
    /// `    type old -> new`
    Field(MapField),
    /// `    type old(types) -> new`, or with `first:last:` before the type.
    Method(MapMethod),
}

/// What a line says, if it is one of a mapping file.
#[tactic(auto, unfolding(crate::specs::LineReading::line_said))]
pub(crate) fn line_of<'a>(alloc: Global, known: &mut Known<'a>, text: &'a str) -> M<Option<MapLine>>
    ensures { IfOk result (λ line. line ≡ line_said text.now) }
{
    match parts_of(text) {
        Some(parts) => said(alloc, known, &parts),
        None => Ok(None),
    }
}

fn said<'a>(alloc: Global, known: &mut Known<'a>, parts: &Parts<'a>) -> M<Option<MapLine>>
    ensures { IfOk result (λ line. line ≡ said (kept_parts parts.now)) }
{
    match *parts {
        Parts::Class { old, new } => class_said(alloc, known, old, new),
        Parts::Field { ty, old, new } => field_said(alloc, known, ty, old, new),
        Parts::Method {
            lines,
            ret,
            old,
            args,
            new,
        } => method_said(alloc, known, lines, ret, old, args, new),
    }
}

#[tactic(auto, unfolding(crate::specs::LineReading::said))]
fn class_said<'a>(
    alloc: Global,
    known: &mut Known<'a>,
    old: &'a str,
    new: &'a str,
) -> M<Option<MapLine>>
    ensures { IfOk result (λ line. line ≡ said (class_parts old.now new.now)) }
{
    let Some(old) = known.class_name(alloc, old)? else {
        return Ok(None);
    };
    let Some(new) = known.class_name(alloc, new)? else {
        return Ok(None);
    };
    Ok(Some(MapLine::Class { old, new }))
}

#[tactic(auto, unfolding(crate::specs::LineReading::said))]
fn field_said<'a>(
    alloc: Global,
    known: &mut Known<'a>,
    ty: &'a str,
    old: &'a str,
    new: &'a str,
) -> M<Option<MapLine>>
    ensures { IfOk result (λ line. line ≡ said (field_parts ty.now old.now new.now)) }
{
    let Some(ty) = known.field_type(alloc, ty)? else {
        return Ok(None);
    };
    if !is_member_name(old) || !is_member_name(new) {
        return Ok(None);
    }
    let old = known.name(alloc, old)?;
    let new = known.name(alloc, new)?;
    Ok(Some(MapLine::Field(MapField { ty, old, new })))
}

#[tactic(auto, unfolding(crate::specs::LineReading::said))]
fn method_said<'a>(
    alloc: Global,
    known: &mut Known<'a>,
    lines: Option<Range>,
    ret: &'a str,
    old: &'a str,
    args: &'a str,
    new: &'a str,
) -> M<Option<MapLine>>
    ensures { IfOk result (λ line. line ≡ said (method_parts lines ret.now old.now args.now new.now)) }
{
    let Some(ty) = known.method_type(alloc, ret, args)? else {
        return Ok(None);
    };
    if !is_method_name(old) || !is_method_name(new) {
        return Ok(None);
    }
    let old = known.name(alloc, old)?;
    let new = known.name(alloc, new)?;
    Ok(Some(MapLine::Method(MapMethod {
        lines,
        ty,
        old,
        new,
    })))
}
