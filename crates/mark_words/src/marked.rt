//! The marks of a closed table.
ghost use Rattle.std.specs.Prelude.{◌≡◌};

use jv_base::Items;
use std::marker::Model;

/// For each item whether it is marked, by a table that was closed. Nothing but `MarkTable::close` makes one.
#[derive(Drop)]
pub struct Marked {
    pub(crate) marks: Items<bool>,
}

impl Model for Marked {
    ghost use Rattle.std.specs.Prelude.{List, Bool};

    ghost Value = { List Bool };

    ghost view = { λ m. m.marks };
}

impl Marked {
    /// For each item whether it is marked.
    pub fn marks(&self) -> &Items<bool>
        ensures { result.now ≡ self.now }
    {
        &self.marks
    }
}
