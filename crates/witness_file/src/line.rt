// What a line says.
ghost use Rattle.std.specs.Prelude.{◌≡◌, IfOk};
ghost use Rattle.std.specs.Option.{option_map};
ghost use Rattle.witness_file.specs.LineReading.{kept_method_parts, step_of};
ghost use Rattle.witness_file.specs.LineReading.{line_said, method_of, method_parts, method_said, said};
ghost use Rattle.witness_file.specs.declared.line.WitnessLine.TheVariants as line;

use crate::acts::act_of;
use code_edit::Act;
use jv_base::{M, Name, Text, is_method_name};
use std::alloc::Global;
use text_lines::{Known, cut, number_below};

/// What a line of a witness says.
#[derive(Drop)]
pub(crate) enum WitnessLine {
    /// `witness 1`
    Head,
    /// `method class type name(types)`; the type is a descriptor here.
    Method { class: Name, name: Name, ty: Text },
    /// `step number`
    Step(u32),
    /// The word of an act and its numbers.
    Act(Act),
}

/// What a line says, if it is one of a witness.
#[tactic(auto, unfolding(crate::specs::LineReading::line_said))]
pub(crate) fn line_of<'a>(
    alloc: Global,
    known: &mut Known<'a>,
    text: &'a str,
) -> M<Option<WitnessLine>>
    ensures { IfOk result (λ line. line ≡ line_said text.now) }
{
    match cut(text, ' ') {
        Some((word, rest)) => said(alloc, known, word, rest),
        None => Ok(None),
    }
}

#[tactic(auto, unfolding(crate::specs::LineReading::said))]
fn said<'a>(
    alloc: Global,
    known: &mut Known<'a>,
    word: &'a str,
    text: &'a str,
) -> M<Option<WitnessLine>>
    ensures { IfOk result (λ line. line ≡ said word.now text.now) }
{
    match word {
        "witness" if text == "1" => Ok(Some(WitnessLine::Head)),
        "witness" => Ok(None),
        "method" => method_of(alloc, known, text),
        "step" => Ok(step_of(text)),
        _ => Ok(act_line(act_of(word, text))),
    }
}

fn act_line(act: Option<Act>) -> Option<WitnessLine>
    ensures { result ≡ option_map (λ a. line.Act a) act }
{
    let act = act?;
    Some(WitnessLine::Act(act))
}

fn step_of(text: &str) -> Option<WitnessLine>
    ensures { result ≡ step_of text.now }
{
    let number = number_below(text, 7)?;
    if number == 0 {
        return None;
    }
    Some(WitnessLine::Step(number))
}

/// The parts of a method's line.
#[derive(Clone, Copy)]
struct MethodParts<'a> {
    class: &'a str,
    ret: &'a str,
    name: &'a str,
    args: &'a str,
}

fn method_of<'a>(alloc: Global, known: &mut Known<'a>, text: &'a str) -> M<Option<WitnessLine>>
    ensures { IfOk result (λ line. line ≡ method_of text.now) }
{
    match method_parts(text) {
        Some(parts) => method_said(alloc, known, &parts),
        None => Ok(None),
    }
}

#[tactic(auto, unfolding(crate::specs::LineReading::method_parts))]
fn method_parts(text: &str) -> Option<MethodParts<'_>>
    ensures { option_map kept_method_parts result ≡ method_parts text.now }
{
    let (class, rest) = cut(text, ' ')?;
    let (ret, rest) = cut(rest, ' ')?;
    let (name, rest) = cut(rest, '(')?;
    let (args, rest) = cut(rest, ')')?;
    if !rest.is_empty() {
        return None;
    }
    Some(MethodParts {
        class,
        ret,
        name,
        args,
    })
}

#[tactic(auto, unfolding(crate::specs::LineReading::method_said))]
fn method_said<'a>(
    alloc: Global,
    known: &mut Known<'a>,
    parts: &MethodParts<'a>,
) -> M<Option<WitnessLine>>
    ensures { IfOk result (λ line. line ≡ method_said (kept_method_parts parts.now)) }
{
    let Some(class) = known.class_name(alloc, parts.class)? else {
        return Ok(None);
    };
    let Some(ty) = known.descriptor(alloc, parts.ret, parts.args)? else {
        return Ok(None);
    };
    if !is_method_name(parts.name) {
        return Ok(None);
    }
    let name = known.name(alloc, parts.name)?;
    Ok(Some(WitnessLine::Method { class, name, ty }))
}
