//! The instructions of a code, from their bytes (JVMS 4.9.1, 6.5).
#![tactic(auto, unfolding(format_reading::specs::Reader::u1, format_reading::specs::Reader::u2, format_reading::specs::Reader::u4, format_reading::specs::Reader::bytes, format_reading::specs::Reader::lead, format_reading::specs::Reader::bind, format_reading::specs::Reader::give, class_model::specs::InstructionMeaning::op_of))]

mod decoding;
mod fault;
mod instruction;
mod opcodes;
mod reading;
mod targets;
mod unaimed;

pub use decoding::{Decoded, canonical_is_decoded, decode_code};
pub use fault::CodeFault;
