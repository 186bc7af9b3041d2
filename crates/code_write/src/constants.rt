// The constants of a pool that was read, by what they say (JVMS 4.4).
ghost use Rattle.std.specs.Prelude.{◌≡◌, IfOk};
ghost use Rattle.code_write.specs.Constants.{constants_in};

use crate::said::said_at;
use class_model::Pool;
use constant_table::ConstantTable;
use jv_base::M;
use std::alloc::Global;

/// What the entries of a pool say. One that says nothing here has an index, but is no constant that an
/// instruction names.
#[tactic(auto, unfolding(crate::specs::Constants::first_constants))]
pub fn constants_in(alloc: Global, pool: &Pool) -> M<ConstantTable>
    ensures { IfOk result (λ table. table ≡ constants_in pool.now.entries) }
{
    let mut table = ConstantTable::new(alloc);
    for index in 1..pool.entries.len() {
        let constant = said_at(alloc, pool, index)?;
        table.push(alloc, constant)?;
    }
    Ok(table)
}
