//! What every crate of the shrinker speaks of: lists and texts that contracts see as such, want of
//! memory beside faults, a cursor over bytes, and the names, types and access flags of a class file.
#![tactic(auto)]

mod access;
mod arguments;
mod cursor;
mod descriptors;
mod external_form;
mod items;
mod mutf8;
mod names;
mod outcome;
mod shared;
mod text;
mod types;
mod utf16;

pub use access::Access;
pub use arguments::{argument_words, words_of};
pub use cursor::{Cursor, End};
pub use descriptors::{BadDescriptor, field_text, method_text, read_field_type, read_method_type};
pub use external_form::{external, read_external};
pub use items::{Bytes, Items, Units};
pub use mutf8::{BadUtf8, mutf8_of_units, units_of_mutf8};
pub use names::{is_class_name, is_member_name, is_method_name};
pub use outcome::{M, Or, OutOfMemory};
pub use shared::Shared;
pub use text::Text;
pub use types::{Base, FieldType, MethodType, Name};
pub use utf16::{text_of_units, units_of_text};
