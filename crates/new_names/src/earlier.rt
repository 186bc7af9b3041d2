// The names that an earlier mapping gives (ProGuard manual, "-applymapping").
ghost use Rattle.std.specs.Prelude.{IfOk, Some};
ghost use Rattle.new_names.specs.NewNames.{AreAlike, tables_of};

use crate::tables::{class_names_of, fields_of, methods_of};
use class_rename::NewNames;
use jv_base::M;
use key_table::Table;
use mapping_file::Mapping;
use std::alloc::Global;

/// The names that an earlier mapping gives, as tables of their own; none where there is none. Of several lines with one
/// old name, and with one descriptor of methods, the first counts.
pub fn tables_of(alloc: Global, mapping: &Option<Mapping>) -> M<NewNames>
    ensures { IfOk result (λ tables. AreAlike tables (tables_of mapping.now)) }
{
    match mapping {
        Some(mapping) => tables_in(alloc, mapping),
        None => Ok(NewNames::new(Table::new(alloc), Table::new(alloc), Table::new(alloc))),
    }
}

fn tables_in(alloc: Global, mapping: &Mapping) -> M<NewNames>
    ensures { IfOk result (λ tables. AreAlike tables (tables_of (Some mapping.now))) }
{
    let lines = mapping.classes.as_slice();
    let classes = class_names_of(alloc, lines)?;
    let fields = fields_of(alloc, lines)?;
    let methods = methods_of(alloc, lines)?;
    Ok(NewNames::new(classes, fields, methods))
}
