//! The constants of a class in the order of their indices, each text stored once (JVMS 4.4).
#![tactic(auto)]

mod bytes;
mod finding;
mod indices;
mod items;
mod key;
mod keys;
mod limits;
mod putting;
mod slots;
mod table;
mod texts;

pub use bytes::{put, put_u2, put_u4};
pub use finding::MemberNumbers;
pub use key::Key;
pub use keys::Keys;
pub use table::ConstantTable;
pub use texts::Texts;
