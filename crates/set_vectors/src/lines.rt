// Lines that are class files in hex.
use crate::judging::{judge, judgement_text};
use jv_base::{M, Text};
use line_answers::Answers;
use line_sets::files_of;
use std::alloc::Global;

/// Says of class files in hex whether they are taken as a set.
pub struct Sets;

impl Answers for Sets {
    fn answer(&self, alloc: Global, line: &[u8]) -> M<Option<Text>> {
        match files_of(alloc, line)? {
            Some(files) => Ok(Some(judgement_text(alloc, &judge(alloc, files)?)?)),
            None => Ok(None),
        }
    }
}
