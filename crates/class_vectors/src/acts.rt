// Acts, and texts of acts: each a line as in a witness.
use code_edit::{Act, Pass};
use jv_base::{Items, M, Text};
use line_answers::push_escaped;
use std::alloc::Global;
use witness_file::push_act;

/// The pass of a word.
pub fn pass_of(word: &[u8]) -> Option<Pass> {
    match word {
        b"Reach" => Some(Pass::Reach),
        b"Const" => Some(Pass::Const),
        b"Slots" => Some(Pass::Slots),
        b"Jumps" => Some(Pass::Jumps),
        _ => None,
    }
}

/// A number of 32 bits.
pub fn number_of(word: &[u8]) -> Option<u32> {
    std::str::from_utf8(word).ok()?.parse::<u32>().ok()
}

/// The act of a line.
fn act_of(line: &[u8]) -> Option<Act> {
    let (word, text) = std::str::from_utf8(line).ok()?.split_once(' ')?;
    witness_file::act_of(word, text)
}

/// The acts of a text, if each line is one.
pub fn acts_of(alloc: Global, text: &[u8]) -> M<Option<Items<Act>>> {
    let mut acts = Items::new(alloc);
    for line in text.split(|byte| *byte == b'\n') {
        if !line.is_empty() {
            match act_of(line) {
                Some(act) => acts.push(act)?,
                None => return Ok(None),
            }
        }
    }
    Ok(Some(acts))
}

/// The text of acts, as one field of a line.
pub fn acts_text(alloc: Global, acts: &Items<Act>) -> M<Text> {
    let mut text = Vec::new(alloc);
    for act in acts.as_slice() {
        push_act(alloc, &mut text, act)?;
        text.push(b'\n')?;
    }
    let mut line = String::new(alloc);
    push_escaped(&mut line, text.as_slice())?;
    Ok(Text::from_string(alloc, line)?)
}
