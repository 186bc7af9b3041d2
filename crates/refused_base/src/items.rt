// Calls on items and members.
ghost use Rattle.std.specs.Prelude.{◌≡◌, IfOk};
ghost use Rattle.lib_table.specs.Lookups.{class_at, member_named};
ghost use Rattle.mark_core.specs.Marks.{Marks};
ghost use Rattle.mark_core.specs.Valid.{Valid};

use jv_base::{Items, M, Name, Text};
use lib_table::{LibId, LibMember};
use mark_core::System;
use std::alloc::Global;

/// `lib_member` of `lib_table`.
pub fn lib_member(id: LibId, name: &Name, ty: &Text) -> Option<LibMember>
    ensures { result ≡ member_named (class_at id).members name.now ty.now }
{
    lib_table::lib_member(id, name, ty)
}

/// `plain_marks` of `mark_core`.
pub fn plain_marks(alloc: Global, sys: &System) -> M<Items<bool>>
    requires { Valid sys.now }
    ensures { IfOk result (Marks sys.now) }
{
    mark_core::plain_marks(alloc, sys)
}
