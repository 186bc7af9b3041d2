// The classes of the table.
ghost use Rattle.std.specs.Prelude.{◌≡◌, ◌<◌, length, option_copied, slice_get};
ghost use Rattle.std.specs.List.{position};
ghost use Rattle.jv_base.specs.Names.{is_text};
ghost use Rattle.lib_table.specs.Library.{library};
ghost use Rattle.lib_table.specs.Lookups.{class_at, class_named, interfaces_of, super_of};
ghost use Rattle.lib_table.specs.bodies.Rows.{told_class};

use crate::table::{ClassRow, classes};
use jv_base::Name;
use std::marker::Model;

/// The number of a class of the table.
#[derive(Clone, Copy, PartialEq, Eq)]
pub struct LibId {
    number: u8,
}

impl Model for LibId {
    ghost use Rattle.std.specs.Prelude.{ℕ, ◌<◌, length};
    ghost use Rattle.lib_table.specs.Library.{library};

    ghost Value = { ℕ };

    ghost view = { λ id. id.number };

    ghost inverse = { λ n. record { number = n } };

    ghost invariant = { λ id. id.number < length library };
}

/// What may be done with a class of the library.
#[derive(Clone, Copy, PartialEq, Eq)]
pub enum LibKind {
    /// It is an interface.
    Interface,
    /// It has no subclass.
    Final,
    /// A program class may be its subclass.
    Open,
}

/// The class with a name in internal form, as `java/lang/String`, if the table has it.
pub fn lib_class(name: &Name) -> Option<LibId>
    ensures { result ≡ class_named name.now }
{
    class_of_name(name.as_str())
}

/// The name in internal form (JVMS 4.2.1).
pub fn lib_name(id: LibId) -> &'static str
    ensures { result.now ≡ (class_at id).name }
{
    row(id).name
}

/// The direct superclass (JVMS 4.1); only Object has none. That of an interface is Object.
pub fn lib_super(id: LibId) -> Option<LibId>
    ensures { result ≡ super_of id }
{
    class_of_name(row(id).super_name?)
}

/// The direct superinterface with a number, from 0 (JVMS 4.1).
#[tactic(auto, using(crate::proofs::Classes::interface_at))]
pub fn lib_interface(id: LibId, k: u32) -> Option<LibId>
    ensures { result ≡ slice_get (interfaces_of id) k }
{
    class_of_name(interface_name(row(id), k)?)
}

fn interface_name(row: &ClassRow, k: u32) -> Option<&'static str>
    ensures { option_copied result ≡ slice_get (told_class row.now).interfaces k }
{
    row.interfaces.get(k as usize).copied()
}

/// Whether the class is an interface, final, or neither.
pub fn lib_kind(id: LibId) -> LibKind
    ensures { result ≡ (class_at id).kind }
{
    row(id).kind
}

/// The row of a class.
pub(crate) fn row(id: LibId) -> &'static ClassRow
    ensures told { told_class result.now ≡ class_at id }
    ensures there { id < length library }
{
    &classes()[id.number as usize]
}

fn class_of_name(name: &str) -> Option<LibId>
    ensures { result ≡ class_named name.now }
{
    let number = row_of_name(classes(), name)?;
    Some(LibId {
        number: number as u8,
    })
}

fn row_of_name(rows: &[ClassRow], name: &str) -> Option<usize>
    ensures { result ≡ position (λ row. is_text row.name.now name.now) rows.now }
{
    rows.iter().position(|row| row.name == name)
}
