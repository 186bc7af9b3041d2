// A trace, line by line.
ghost use Rattle.std.specs.Prelude.{◌≡◌, ◌<◌, ◌≤◌, ◌++◌, ◌∷◌, [], Some, IfNone, IfOk, IfSome, OnOk, codes, length};
ghost use Rattle.std.specs.List.{flat_map};
ghost use Rattle.std.specs.Str.Lines.{strip_carriage_return};
ghost use Rattle.mapping_file.specs.declared.mapping.MapClass.{MapClass};
ghost use Rattle.mapping_file.specs.declared.mapping.Mapping.{Mapping};
ghost use Rattle.retrace_core.specs.Heads.{head_of};
ghost use Rattle.retrace_core.specs.OldNames.{class_named};
ghost use Rattle.retrace_core.specs.Retraced.{ended_retraced, frame_retraced, head_retraced};
ghost use Rattle.retrace_core.specs.Retraced.{joined, line_retraced, old_frame_text, other_retraced, retraced};
ghost use Rattle.retrace_core.specs.bodies.Parts.{frame_shown, head_shown};
ghost use Rattle.retrace_core.specs.bodies.Tables.{TellsClass, TellsClasses};

use crate::candidates::{line_of, old_names};
use crate::cutting::place_of;
use crate::frame::{FrameParts, frame_of};
use crate::head::{HeadParts, head_of};
use crate::old_names::{OldClass, OldClasses, class_named, old_classes};
use jv_base::{Bytes, Items, M, Name};
use mapping_file::Mapping;
use std::alloc::Global;

/// A stack trace with the old names of classes and methods in place of their new ones, line by line.
///
/// A frame's line, as `    at demo.a.a(SourceFile:10)`, gets the old name of its class, an old name of its method, and the
/// source file of the outermost class; its number stays. There is one line for each old name that a method of this class
/// with this new name has in the mapping; with a number those count that have no range or one that holds it, where there
/// are such. A line that a thrown object begins, as `Caused by: demo.a: text`, gets the old name of its class. All other
/// lines stay, and so do the ends of lines: where the last line has none, what it becomes is separated by LF.
pub fn retrace(alloc: Global, map: &Mapping, trace: &[u8]) -> M<Bytes>
    ensures { IfOk result (λ text. text ≡ retraced map.now trace.now) }
{
    let table = old_classes(alloc, map)?;
    let mut out = Vec::with_capacity(alloc, trace.len())?;
    push_lines(alloc, &mut out, &table, trace)?;
    Ok(Items::from_vec(out))
}

fn push_lines(alloc: Global, out: &mut Vec<u8>, table: &OldClasses<'_>, trace: &[u8]) -> M<()>
    ensures { (m : Mapping) → TellsClasses table.now m.classes
        → OnOk result (out.new.items ≡ out.old.items ++ retraced m trace.now) }
{
    let mut rest = trace;
    while let Some((part, behind)) = first_part(rest) {
        push_ended(alloc, out, table, part)?;
        rest = behind;
    }
    push_line(alloc, out, table, rest, b"\n")
}

// What stands before and behind the first LF.
fn first_part(text: &[u8]) -> Option<(&[u8], &[u8])>
    ensures some { IfSome result (λ p. (m : Mapping)
        → retraced m text.now ≡ ended_retraced m p.0.now ++ retraced m p.1.now) }
    ensures none { IfNone result ((m : Mapping) → retraced m text.now ≡ joined (10 ∷ []) (line_retraced m text.now)) }
    ensures shorter { IfSome result (λ p. length p.1.now < length text.now) }
{
    let end = place_of(b'\n', text)?;
    Some((&text[..end], &text[end + 1..]))
}

// A line that ends with LF or CR LF; the part has no LF.
fn push_ended(alloc: Global, out: &mut Vec<u8>, table: &OldClasses<'_>, part: &[u8]) -> M<()>
    ensures { (m : Mapping) → TellsClasses table.now m.classes
        → OnOk result (out.new.items ≡ out.old.items ++ ended_retraced m part.now) }
{
    let line = without_return(part);
    let end: &[u8] = if line.len() == part.len() {
        b"\n"
    } else {
        b"\r\n"
    };
    push_line(alloc, out, table, line, end)?;
    push_text(out, end)
}

// A line without the CR at its end, if it has one.
fn without_return(part: &[u8]) -> &[u8]
    ensures line { result.now ≡ strip_carriage_return part.now }
    ensures within { length result.now ≤ length part.now }
{
    match part {
        [line @ .., b'\r'] => line,
        _ => part,
    }
}

// What a line becomes, with an end of lines between.
#[tactic(auto, unfolding(crate::specs::Retraced::line_retraced, crate::specs::Retraced::joined))]
fn push_line(
    alloc: Global,
    out: &mut Vec<u8>,
    table: &OldClasses<'_>,
    line: &[u8],
    between: &[u8],
) -> M<()>
    ensures { (m : Mapping) → TellsClasses table.now m.classes
        → OnOk result (out.new.items ≡ out.old.items ++ joined between.now (line_retraced m line.now)) }
{
    match frame_of(line) {
        Some(frame) => push_frame(alloc, out, table, line, &frame, between),
        None => push_other(out, table, line),
    }
}

// A line that is no frame's.
fn push_other(out: &mut Vec<u8>, table: &OldClasses<'_>, line: &[u8]) -> M<()>
    ensures { (m : Mapping) → TellsClasses table.now m.classes
        → OnOk result (out.new.items ≡ out.old.items ++ other_retraced m line.now (head_of line.now)) }
{
    match head_of(line) {
        Some(head) => push_head(out, table, line, &head),
        None => push_text(out, line),
    }
}

fn push_text(out: &mut Vec<u8>, text: &[u8]) -> M<()>
    ensures { OnOk result (out.new.items ≡ out.old.items ++ text.now) }
{
    out.extend_from_slice(text)?;
    Ok(())
}

#[tactic(auto, unfolding(crate::specs::Retraced::joined))]
fn push_frame(
    alloc: Global,
    out: &mut Vec<u8>,
    table: &OldClasses<'_>,
    line: &[u8],
    frame: &FrameParts<'_>,
    between: &[u8],
) -> M<()>
    ensures { (m : Mapping) → TellsClasses table.now m.classes → OnOk result (out.new.items
        ≡ out.old.items ++ joined between.now
        (frame_retraced line.now (frame_shown frame.now) (class_named m.classes frame.now.class.now))) }
{
    match class_named(table, frame.class) {
        Some(class) => push_old_frames(alloc, out, frame, class, between),
        None => push_text(out, line),
    }
}

// A frame of a class with an old name: a line for each old name that its method may have had.
fn push_old_frames(
    alloc: Global,
    out: &mut Vec<u8>,
    frame: &FrameParts<'_>,
    class: &OldClass<'_>,
    between: &[u8],
) -> M<()>
    ensures { (c : MapClass) → TellsClass class.now c → OnOk result (out.new.items
        ≡ out.old.items ++ joined between.now
        (frame_retraced [] (frame_shown frame.now) (Some c))) }
{
    let names = old_names(alloc, &class.methods, frame.method, line_of(frame.number))?;
    match names.as_slice() {
        [first, others @ ..] => push_several(out, frame, class, first, others, between),
        [] => push_old_frame(out, frame, class, frame.method),
    }
}

// A line of a frame for each of these old names of its method.
fn push_several(
    out: &mut Vec<u8>,
    frame: &FrameParts<'_>,
    class: &OldClass<'_>,
    first: &Name,
    others: &[Name],
    between: &[u8],
) -> M<()>
    ensures { (c : MapClass) → TellsClass class.now c → OnOk result (out.new.items
        ≡ out.old.items ++ (old_frame_text (frame_shown frame.now) c first.now
        ++ flat_map (λ n. between.now ++ old_frame_text (frame_shown frame.now) c n) others.now)) }
{
    push_old_frame(out, frame, class, first.as_bytes())?;
    push_others(out, frame, class, others, between)
}

fn push_others(
    out: &mut Vec<u8>,
    frame: &FrameParts<'_>,
    class: &OldClass<'_>,
    others: &[Name],
    between: &[u8],
) -> M<()>
    ensures { (c : MapClass) → TellsClass class.now c → OnOk result (out.new.items
        ≡ out.old.items ++ flat_map (λ n. between.now ++ old_frame_text (frame_shown frame.now) c n) others.now) }
{
    for name in others {
        push_text(out, between)?;
        push_old_frame(out, frame, class, name.as_bytes())?;
    }
    Ok(())
}

fn push_old_frame(
    out: &mut Vec<u8>,
    frame: &FrameParts<'_>,
    class: &OldClass<'_>,
    method: &[u8],
) -> M<()>
    ensures { (c : MapClass) → TellsClass class.now c → OnOk result (out.new.items
        ≡ out.old.items ++ old_frame_text (frame_shown frame.now) c method.now) }
{
    push_class(out, frame.blanks, &class.old)?;
    push_text(out, method)?;
    push_source(out, &class.source, frame.number)
}

fn push_class(out: &mut Vec<u8>, blanks: &[u8], class: &[u8]) -> M<()>
    ensures { OnOk result (out.new.items
        ≡ out.old.items ++ (blanks.now ++ (codes "at " ++ (class.now ++ codes ".")))) }
{
    out.extend_from_slice(blanks)?;
    out.extend_from_slice(b"at ")?;
    out.extend_from_slice(class)?;
    out.extend_from_slice(b".")?;
    Ok(())
}

fn push_source(out: &mut Vec<u8>, source: &[u8], number: &[u8]) -> M<()>
    ensures { OnOk result (out.new.items
        ≡ out.old.items ++ (codes "(" ++ (source.now ++ (number.now ++ codes ")")))) }
{
    out.extend_from_slice(b"(")?;
    out.extend_from_slice(source)?;
    out.extend_from_slice(number)?;
    out.extend_from_slice(b")")?;
    Ok(())
}

fn push_head(out: &mut Vec<u8>, table: &OldClasses<'_>, line: &[u8], head: &HeadParts<'_>) -> M<()>
    ensures { (m : Mapping) → TellsClasses table.now m.classes → OnOk result (out.new.items
        ≡ out.old.items ++ head_retraced line.now (head_shown head.now) (class_named m.classes head.now.class.now)) }
{
    match class_named(table, head.class) {
        Some(class) => push_old_head(out, head, &class.old),
        None => push_text(out, line),
    }
}

fn push_old_head(out: &mut Vec<u8>, head: &HeadParts<'_>, class: &[u8]) -> M<()>
    ensures { OnOk result (out.new.items
        ≡ out.old.items ++ (head.now.front.now ++ (class.now ++ head.now.text.now))) }
{
    out.extend_from_slice(head.front)?;
    out.extend_from_slice(class)?;
    out.extend_from_slice(head.text)?;
    Ok(())
}
