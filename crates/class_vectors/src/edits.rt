// Acts on the code of a method: which are legal, the code after them, and which a pass finds.
ghost use Rattle.std.specs.Prelude.{◌<◌, ◌≡◌, ◌-◌, IfOk, IfSome, length};
ghost use Rattle.class_model.specs.WellFormed.{IsGoodCode, IsWellFormed};
ghost use Rattle.code_edit.specs.Flow.{goes_elsewhere, of_ins};
ghost use Rattle.code_edit.specs.Legal.{AreRightActs};
ghost use Rattle.code_edit.specs.SoundCode.{IsSound};

use crate::acts::{acts_of, acts_text, number_of, pass_of};
use crate::codes::is_code_of;
use crate::lines::bytes_of;
use class_model::{Class, Code};
use class_read::read_class;
use class_write::spelled_classes_can_be_written;
use code_edit::{Pass, PassEdits};
use const_laws::acts::left_codes_are_reached;
use edit_check::apply;
use edit_legal::legal;
use edit_passes::{jumps_edits, reach_edits, slots_edits};
use edit_tables::flow::goes_elsewhere;
use frame_rebuild::rebuild;
use jv_base::{M, Or, OutOfMemory, Text};
use line_answers::{first_word, unescaped};
use std::alloc::Global;

/// `legal PASS INDEX ACTS FILE`, or the same with the class file after the acts: `ok` where the
/// acts are legal and the code of the method after them is that of the other file, `other` where it
/// isn't, `bad K` where the act of the number K is the first that isn't legal. `carry` is the same of
/// the code with its frames. `pass PASS INDEX FILE`: the acts that the pass finds. None where a line
/// has another form.
pub fn edit_answer(alloc: Global, line: &[u8]) -> M<Option<Text>> {
    let (word, rest) = first_word(line);
    let (pass, rest) = first_word(rest);
    let (index, rest) = first_word(rest);
    let (Some(pass), Some(index)) = (pass_of(pass), number_of(index)) else {
        return Ok(None);
    };
    match word {
        b"legal" => judged_row(alloc, Asked::Code, pass, index as usize, rest),
        b"carry" => judged_row(alloc, Asked::Frames, pass, index as usize, rest),
        b"pass" => found_row(alloc, pass, index as usize, rest),
        _ => Ok(None),
    }
}

/// What of a method after acts is looked at.
#[derive(Clone, Copy)]
enum Asked {
    /// Its code without frames.
    Code,
    /// Its code with the frames that were carried.
    Frames,
}

fn judged_row(
    alloc: Global,
    asked: Asked,
    pass: Pass,
    index: usize,
    rest: &[u8],
) -> M<Option<Text>> {
    let (acts, rest) = first_word(rest);
    let (file, after) = first_word(rest);
    let Some(acts) = unescaped(alloc, acts)? else {
        return Ok(None);
    };
    let Some(acts) = acts_of(alloc, acts.as_slice())? else {
        return Ok(None);
    };
    let Some(class) = class_of(alloc, file)? else {
        return Ok(None);
    };
    let after = class_of(alloc, after)?;
    judged(
        alloc,
        asked,
        &class,
        index,
        &PassEdits { pass, acts },
        after.as_ref(),
    )
}

fn judged(
    alloc: Global,
    asked: Asked,
    class: &Class,
    index: usize,
    edits: &PassEdits,
    after: Option<&Class>,
) -> M<Option<Text>>
    requires { IsWellFormed class.now }
{
    let Some(code) = sound_code(class, index) else {
        return Ok(None);
    };
    match legal(alloc, code, edits) {
        Ok(()) => {
            let edited = after_acts(alloc, asked, code, edits)?;
            let is_same = match after {
                Some(class) => is_code_of(alloc, &edited, class, index)?,
                None => false,
            };
            Ok(Some(Text::from_str(alloc, if is_same { "ok" } else { "other" })?))
        }
        Err(Or::Fault(bad)) => {
            let index = bad.index;
            Ok(Some(Text::from_string(alloc, format!(in alloc; "bad {index}")?)?))
        }
        Err(Or::OutOfMemory) => Err(OutOfMemory),
    }
}

/// The code after the acts of a step.
fn after_acts(alloc: Global, asked: Asked, code: &Code, edits: &PassEdits) -> M<Code>
    requires few { length code.now.ins < 4294967295 }
    requires good { IsGoodCode code.now }
    requires sound { IsSound code.now }
    requires right { AreRightActs edits.now.pass edits.now.acts code.now }
{
    match asked {
        Asked::Code => apply(alloc, code, edits),
        Asked::Frames => rebuild(alloc, code, edits),
    }
}

fn found_row(alloc: Global, pass: Pass, index: usize, file: &[u8]) -> M<Option<Text>> {
    let Some(class) = class_of(alloc, file)? else {
        return Ok(None);
    };
    found(alloc, pass, &class, index)
}

fn found(alloc: Global, pass: Pass, class: &Class, index: usize) -> M<Option<Text>>
    requires { IsWellFormed class.now }
{
    let Some(code) = sound_code(class, index) else {
        return Ok(None);
    };
    let edits = match pass {
        Pass::Reach => reach_edits(alloc, code)?,
        Pass::Slots => slots_edits(alloc, code)?,
        Pass::Jumps => jumps_edits(alloc, code)?,
        Pass::Const => match const_found(alloc, code)? {
            Some(edits) => edits,
            None => return Ok(None),
        },
    };
    Ok(Some(acts_text(alloc, &edits.acts)?))
}

/// What const finds on a code, where reach finds nothing on it.
fn const_found(alloc: Global, code: &Code) -> M<Option<PassEdits>>
    requires few { length code.now.ins < 4294967295 }
    requires sound { IsSound code.now }
{
    let left_out = reach_edits(alloc, code)?;
    if !left_out.acts.is_empty() {
        return Ok(None);
    }
    left_codes_are_reached();
    Ok(Some(pass_const::edits(alloc, code)?))
}

// ---- class files

/// The class of a field `PATH=HEX`, if it is one.
fn class_of(alloc: Global, field: &[u8]) -> M<Option<Class>>
    ensures { IfOk result (λ found. IfSome found IsWellFormed) }
{
    spelled_classes_can_be_written();
    let Some(at) = field.iter().position(|byte| *byte == b'=') else {
        return Ok(None);
    };
    let Some(bytes) = bytes_of(alloc, &field[at + 1..])? else {
        return Ok(None);
    };
    match read_class(alloc, bytes.as_slice()) {
        Ok(class) => match class.left_out {
            Some(_) => Ok(None),
            None => Ok(Some(class)),
        },
        Err(Or::Fault(_)) => Ok(None),
        Err(Or::OutOfMemory) => Err(OutOfMemory),
    }
}

/// The code of a method, where it is sound.
#[tactic(auto, using(crate::proofs::Sound::code_is_good, crate::proofs::Sound::code_is_sound))]
fn sound_code(class: &Class, index: usize) -> Option<&Code>
    requires { IsWellFormed class.now }
    ensures good { IfSome result (λ code. IsGoodCode code.now) }
    ensures sound { IfSome result (λ code. IsSound code.now) }
    ensures few { IfSome result (λ code. length code.now.ins < 4294967295) }
{
    let method = class.methods.get(index)?;
    let Some(code) = &method.code else {
        return None;
    };
    if code.ins.len() < u32::MAX as usize && ends(code) {
        Some(code)
    } else {
        None
    }
}

/// Whether the last instruction doesn't go on.
fn ends(code: &Code) -> bool
    ensures { result ≡ of_ins goes_elsewhere code.now (length code.now.ins - 1) }
{
    match code.ins.get(code.ins.len().saturating_sub(1)) {
        Some(ins) => goes_elsewhere(&ins.op),
        None => false,
    }
}
