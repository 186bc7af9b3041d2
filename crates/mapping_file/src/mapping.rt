// What a mapping file tells.
ghost use Rattle.std.specs.Prelude.{◌≡◌};
ghost use Rattle.jv_base.specs.declared.outcome.Or.TheVariants.{Fault};
ghost use Rattle.mapping_file.specs.KindNames.{map_kind_name};

use jv_base::{FieldType, Items, MethodType, Name, Or};
use thiserror::Error;

/// The names of classes and of their members, before and after.
#[derive(Drop)]
pub struct Mapping {
    pub classes: Items<MapClass>,
}

/// A class. Its names are in internal form, as `java/lang/Object`.
#[derive(Drop)]
pub struct MapClass {
    pub old: Name,
    pub new: Name,
    pub fields: Items<MapField>,
    pub methods: Items<MapMethod>,
}

/// A field. Classes in its type have their old names.
#[derive(Drop)]
pub struct MapField {
    pub ty: FieldType,
    pub old: Name,
    pub new: Name,
}

/// A method. Classes in its type have their old names.
#[derive(Drop)]
pub struct MapMethod {
    /// The line numbers of its code, where they are told.
    pub lines: Option<Range>,
    pub ty: MethodType,
    pub old: Name,
    pub new: Name,
}

/// The first and the last of a range of lines.
#[derive(Clone, Copy)]
pub struct Range {
    pub first: u16,
    pub last: u16,
}

/// What is wrong with a line of a mapping file.
#[derive(Clone, Copy, Debug, PartialEq, Eq)]
pub enum MapKind {
    /// The line isn't in UTF-8.
    NotUtf8,
    /// The line is neither a class's nor a member's, nor a comment or blank.
    BadLine,
    /// A member's line comes before the first class's.
    NoClass,
    /// A class's line has the old or the new name of a class before.
    Repeated,
}

impl MapKind {
    /// Its name, as it stands in the texts of faults.
    pub fn name(self) -> &'static str
        ensures { result.now ≡ map_kind_name self }
    {
        match self {
            MapKind::NotUtf8 => "NotUtf8",
            MapKind::BadLine => "BadLine",
            MapKind::NoClass => "NoClass",
            MapKind::Repeated => "Repeated",
        }
    }
}

/// The first line, from 1, that no mapping file has there.
#[derive(Clone, Copy, Debug, Error, PartialEq, Eq)]
#[error("{kind:?} at line {line}")]
pub struct MapFault {
    pub line: u32,
    pub kind: MapKind,
}

impl From<MapFault> for Or<MapFault> {
    ghost from_gives = { λ fault either. either ≡ Fault fault };

    fn from(fault: MapFault) -> Self {
        Or::Fault(fault)
    }
}
