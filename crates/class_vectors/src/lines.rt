// Lines that are class files in hex.
ghost use Rattle.std.specs.Prelude.{◌≡◌, ◌<◌, IfOk, IfSome, length};
ghost use Rattle.std.specs.Option.{option_map};
ghost use Rattle.class_vectors.specs.Lines.{bytes_of};

use crate::answer::answer;
use crate::cuts::cuts_answer;
use crate::edits::edit_answer;
use hex::FromHexError;
use jv_base::{M, OutOfMemory, Text};
use line_answers::Answers;
use std::alloc::Global;

/// Says of a class file in hex what reading it gives, of its fronts whether they are cut, and of acts whether they are legal.
pub struct ClassFiles;

impl Answers for ClassFiles {
    fn answer(&self, alloc: Global, line: &[u8]) -> M<Option<Text>> {
        match bytes_of(alloc, line)? {
            Some(bytes) => Ok(Some(answer(alloc, bytes.as_slice())?)),
            None => match cuts_answer(alloc, line)? {
                Some(text) => Ok(Some(text)),
                None => edit_answer(alloc, line),
            },
        }
    }
}

/// The bytes that a line is in hex. A class file is shorter than 4 GiB.
pub fn bytes_of(alloc: Global, line: &[u8]) -> M<Option<Vec<u8>>>
    ensures bytes { IfOk result (λ found. option_map (λ bytes. bytes.items) found ≡ bytes_of line.now) }
    ensures short { IfOk result (λ found. IfSome found (λ bytes. length bytes.items < 4294967295)) }
{
    match hex::decode(alloc, line) {
        Ok(bytes) if bytes.len() < u32::MAX as usize => Ok(Some(bytes)),
        Err(FromHexError::OutOfMemory) => Err(OutOfMemory),
        _ => Ok(None),
    }
}
