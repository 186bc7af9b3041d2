// The rules of a set, from a name to the whole.
pub mod calls;
pub mod field_uses;
pub mod instructions;
pub mod kind_order;
pub mod kinds;
pub mod member_uses;
pub mod named_classes;
pub mod places;
pub mod profile;
pub mod tested;
