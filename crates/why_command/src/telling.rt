// The text of an answer.
ghost use Rattle.std.specs.Prelude.{◌≡◌, ◌++◌, IfOk, OnOk, codes, string_bytes};
ghost use Rattle.command_frame.specs.Steps.{Makes};
ghost use Rattle.why_command.specs.Telling.{IsDerivationTold, IsTold, depth_line, item_text, source_text, step_line};
ghost use Rattle.why_command.specs.bodies.Limits.{IsWithin};

use command_frame::{Quantity, Stop};
use jv_base::{Bytes, Items, M, Text};
use std::alloc::Global;
use why_kept::{By, WhyStep};

/// What is said of an item that is kept by these steps: `none` where there are none, else the depth of its derivation
/// and a line for each step. It is refused where it is longer than a text may be; then no more of it is made.
pub(crate) fn why_text(
    alloc: Global,
    texts: &[Text],
    depth: u32,
    steps: &[WhyStep],
) -> Result<Bytes, Stop>
    ensures { Makes result (IsTold texts.now depth steps.now) }
{
    if steps.is_empty() {
        return Ok(none_text(alloc)?);
    }
    derivation_text(alloc, texts, depth, steps)
}

/// What is said of an item that isn't kept.
fn none_text(alloc: Global) -> M<Bytes>
    ensures { IfOk result (λ text. text ≡ codes "none\n") }
{
    Ok(Items::from_vec(b"none\n".to_vec(alloc)?))
}

/// The depth of a derivation, and a line for each of its steps.
fn derivation_text(
    alloc: Global,
    texts: &[Text],
    depth: u32,
    steps: &[WhyStep],
) -> Result<Bytes, Stop>
    ensures { Makes result (IsDerivationTold texts.now depth steps.now) }
{
    let mut text = depth_line(alloc, depth)?;
    for step in steps {
        push_step(&mut text, texts, *step)?;
        check_length(alloc, text.as_str())?;
    }
    Ok(bytes_of(text))
}

fn depth_line(alloc: Global, depth: u32) -> M<String>
    ensures { IfOk result (λ line. string_bytes line ≡ depth_line depth) }
{
    Ok(format!(in alloc; "depth {depth}\n")?)
}

fn bytes_of(text: String) -> Bytes
    ensures { result ≡ string_bytes text }
{
    Items::from_vec(text.into_bytes())
}

/// Whether a text isn't longer than it may be.
fn check_length(alloc: Global, text: &str) -> Result<(), Stop>
    ensures { IsWithin result text.now }
{
    if text.len() as u64 > Quantity::Text.limit() {
        return Err(Stop::Refused(Quantity::Text.passed(alloc)?));
    }
    Ok(())
}

/// Appends the line of a step.
fn push_step(out: &mut String, texts: &[Text], step: WhyStep) -> M<()>
    ensures { OnOk result (string_bytes out.new ≡ string_bytes out.old ++ step_line texts.now step) }
{
    out.push_str(item_text(texts, step.id))?;
    push_source(out, texts, step.by)?;
    out.push_str("\n")?;
    Ok(())
}

/// Appends by what an item is kept.
fn push_source(out: &mut String, texts: &[Text], by: By) -> M<()>
    ensures { OnOk result (string_bytes out.new ≡ string_bytes out.old ++ source_text texts.now by) }
{
    match by {
        By::Seed => out.push_str(" seed")?,
        By::Need(item) => push_item(out, " from ", texts, item)?,
        By::Pair(one, two) => {
            push_item(out, " from ", texts, one)?;
            push_item(out, " and ", texts, two)?;
        }
    }
    Ok(())
}

/// Appends a word and an item.
fn push_item(out: &mut String, word: &str, texts: &[Text], item: u32) -> M<()>
    ensures { OnOk result (string_bytes out.new ≡ string_bytes out.old ++ (word.now ++ item_text texts.now item)) }
{
    out.push_str(word)?;
    out.push_str(item_text(texts, item))?;
    Ok(())
}

/// The text of an item; one behind the last has none.
fn item_text<'a>(texts: &'a [Text], item: u32) -> &'a str
    ensures { result.now ≡ item_text texts.now item }
{
    match texts.get(item as usize) {
        Some(text) => text.as_str(),
        None => "",
    }
}
