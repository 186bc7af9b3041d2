// What an entry is given, and what a run of it has come to.
use jv_base::{Items, Name, Units};

/// An argument of an entry.
#[derive(Drop)]
pub enum Arg {
    /// For a parameter of type int, short, byte, char or boolean.
    Int(i32),
    /// For a parameter of type long.
    Long(i64),
    /// For a parameter of type String: a new string, in UTF-16.
    Text(Units),
    /// For a parameter of type String[]: a new array of new strings.
    Texts(Items<Units>),
}

/// What a run has come to after some steps.
#[derive(Drop)]
pub struct Ended {
    /// What was printed, in UTF-16.
    pub printed: Units,
    pub how: End,
}

/// How a run has ended, if it has.
#[derive(Drop)]
pub enum End {
    /// It hasn't.
    Running,
    /// The entry has returned.
    Returned(Back),
    /// It has thrown an object, which is told by its class and its number on the heap.
    Threw { class: Name, number: u64 },
    /// An operand was missing or of another kind.
    Wrong,
}

/// What an entry has returned.
#[derive(Drop)]
pub enum Back {
    Nothing,
    Int(i32),
    Long(i64),
    Null,
    /// An object, by its number on the heap.
    Ref(u64),
    /// The string of a literal, in UTF-16.
    Lit(Units),
}
