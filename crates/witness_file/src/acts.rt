// Acts in words. An act stands in `parts_of`, in `act_with`, and in the two tables of `specs/ActWords`.
ghost use Rattle.std.specs.Prelude.{◌≡◌, ◌≤◌, ◌++◌, codes, neg_ℤ, pos, OnOk};
ghost use Rattle.text_lines.specs.Cut.{cut};
ghost use Rattle.witness_file.specs.ActWords.{act_with, parts_of};
ghost use Rattle.witness_file.specs.LineReading.{act_of, first_in, second_in, third_in, value_of};
ghost use Rattle.witness_file.specs.WitnessLines.{act_text, numbers_text};

use code_edit::Act;
use jv_base::M;
use std::alloc::Global;
use text_lines::{after, cut, number, number_below};

/// The numbers behind the word of an act; the fourth one is a value.
#[derive(Clone, Copy)]
pub(crate) enum Numbers {
    One(u32),
    Two(u32, u32),
    Three(u32, u32, u32),
    Four(u32, u32, u32, i32),
}

/// The word of an act, and its numbers.
fn parts_of(act: &Act) -> (&'static str, Numbers)
    ensures word { result.0.now ≡ (parts_of act.now).0 }
    ensures numbers { result.1 ≡ (parts_of act.now).1 }
{
    match *act {
        Act::Drop { from, to } => ("drop", Numbers::Two(from, to)),
        Act::Fact {
            from,
            to,
            slot,
            value,
        } => ("fact", Numbers::Four(from, to, slot, value)),
        Act::Fold { at, to } => ("fold", Numbers::Two(at, to)),
        Act::Cut { at } => ("cut", Numbers::One(at)),
        Act::Aim { at, which, to } => ("aim", Numbers::Three(at, which, to)),
        Act::Skip { at } => ("skip", Numbers::One(at)),
    }
}

/// The act of a word and numbers.
#[tactic(auto, unfolding(crate::specs::ActWords::act_with))]
fn act_with(word: &str, numbers: Numbers) -> Option<Act>
    ensures { result ≡ act_with word.now numbers }
{
    match (numbers, word) {
        (Numbers::Two(from, to), "drop") => Some(Act::Drop { from, to }),
        (Numbers::Four(from, to, slot, value), "fact") => Some(Act::Fact {
            from,
            to,
            slot,
            value,
        }),
        (Numbers::Two(at, to), "fold") => Some(Act::Fold { at, to }),
        (Numbers::One(at), "cut") => Some(Act::Cut { at }),
        (Numbers::Three(at, which, to), "aim") => Some(Act::Aim { at, which, to }),
        (Numbers::One(at), "skip") => Some(Act::Skip { at }),
        _ => None,
    }
}

/// The act of a word and what stands behind it, if it is one of a witness.
#[tactic(auto, unfolding(crate::specs::LineReading::act_of))]
pub fn act_of(word: &str, text: &str) -> Option<Act>
    ensures { result ≡ act_of word.now text.now }
{
    act_with(word, numbers_in(text)?)
}

fn numbers_in(text: &str) -> Option<Numbers>
    ensures { result ≡ first_in text.now (cut 32 text.now) }
{
    match cut(text, ' ') {
        None => Some(Numbers::One(number(text)?)),
        Some((first, rest)) => behind_one(number(first)?, rest),
    }
}

fn behind_one(first: u32, text: &str) -> Option<Numbers>
    ensures { result ≡ second_in first text.now (cut 32 text.now) }
{
    match cut(text, ' ') {
        None => Some(Numbers::Two(first, number(text)?)),
        Some((second, rest)) => behind_two(first, number(second)?, rest),
    }
}

fn behind_two(first: u32, second: u32, text: &str) -> Option<Numbers>
    ensures { result ≡ third_in first second text.now (cut 32 text.now) }
{
    match cut(text, ' ') {
        None => Some(Numbers::Three(first, second, number(text)?)),
        Some((third, value)) => {
            let third = number(third)?;
            Some(Numbers::Four(first, second, third, value_of(value)?))
        }
    }
}

// A number of 32 bits, which may have a sign. `-0` is 0.
#[tactic(auto, unfolding(crate::specs::LineReading::value_of))]
fn value_of(text: &str) -> Option<i32>
    ensures { result ≡ value_of text.now }
{
    match after(text, "-") {
        Some(digits) => {
            let number = number_below(digits, 2_147_483_649)?;
            Some(negated(number))
        }
        None => {
            let number = number_below(text, 2_147_483_648)?;
            Some(number as i32)
        }
    }
}

fn negated(number: u32) -> i32
    requires { number ≤ 2147483648 }
    ensures { result ≡ neg_ℤ (pos number) }
{
    -(number as i64) as i32
}

/// Adds an act in words, without the end of its line.
#[tactic(auto, unfolding(crate::specs::WitnessLines::act_text))]
pub fn push_act(alloc: Global, out: &mut Vec<u8>, act: &Act) -> M<()>
    ensures { OnOk result (out.new.items ≡ out.old.items ++ act_text act.now) }
{
    let (word, numbers) = parts_of(act);
    out.extend_from_slice(word.as_bytes())?;
    push_numbers(alloc, out, numbers)
}

fn push_numbers(alloc: Global, out: &mut Vec<u8>, numbers: Numbers) -> M<()>
    ensures { OnOk result (out.new.items ≡ out.old.items ++ (codes " " ++ numbers_text numbers)) }
{
    let text = match numbers {
        Numbers::One(a) => format!(in alloc; " {a}")?,
        Numbers::Two(a, b) => format!(in alloc; " {a} {b}")?,
        Numbers::Three(a, b, c) => format!(in alloc; " {a} {b} {c}")?,
        Numbers::Four(a, b, c, value) => format!(in alloc; " {a} {b} {c} {value}")?,
    };
    out.extend_from_slice(text.as_bytes())?;
    Ok(())
}
