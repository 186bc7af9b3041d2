// The methods of the library (Java SE 8 API).

/// The type of what is told as a text.
#[derive(Clone, Copy, PartialEq, Eq)]
pub enum Told {
    Int,
    Long,
    Char,
    Boolean,
    Text,
}

/// A method, a row of the API's tables.
#[derive(Clone, Copy, PartialEq, Eq)]
pub enum Row {
    ObjectInit,
    ObjectEquals,
    StringLength,
    StringCharAt,
    StringEquals,
    StringHashCode,
    StringIsEmpty,
    StringFrom,
    StringBetween,
    StringCompareTo,
    StringToString,
    StringValueOf(Told),
    BuilderInit,
    BuilderInitWith,
    BuilderAppend(Told),
    BuilderLength,
    BuilderToString,
    Print(Told),
    PrintLine(Told),
    EndLine,
    ThrowableInit,
    ThrowableInitWith,
    ThrowableInitFrom,
    GetMessage,
    GetCause,
}
