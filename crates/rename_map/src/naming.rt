// New names of what is kept of a set (ProGuard manual, "Usage": obfuscation).
ghost use Rattle.std.specs.Prelude.{◌≡◌, List, IfOk};
ghost use Rattle.class_model.specs.declared.class.Class.{Class};
ghost use Rattle.keep_rules.specs.declared.rules.Rules.{Rules};
ghost use Rattle.class_rename.specs.Names.{names_in, same_names};
ghost use Rattle.fresh_names.specs.Given.{names_given};
ghost use Rattle.new_names.specs.NewNames.{tables_of};
ghost use Rattle.rename_map.specs.Names.{AreFixed, names_of};

use crate::fixed::fixed_names;
use class_model::Class;
use class_pool::ClassSet;
use class_rename::NewNames;
use fresh_names::{TakenNames, new_names};
use jv_base::{Items, M};
use keep_rules::Rules;
use key_table::Table;
use mapping_file::Mapping;
use new_names::tables_of;
use std::alloc::Global;

/// The new names of what is kept of a set, for rules and an earlier mapping, if there is one: names that stay are found
/// over the whole set; each other kept class gets one in its package, all fields of a name one, and all methods of a
/// name and a descriptor one. Each first takes what the earlier mapping has for it, in the order in which names stand
/// first, where that is free; the others get `a` to `z`, `aa` and so on in the same order. The time is near linear in the
/// set and the names.
pub fn names(
    alloc: Global,
    input: &ClassSet,
    kept: &Items<Class>,
    rules: &Rules,
    old: &Option<Mapping>,
) -> M<NewNames>
    ensures { IfOk result (λ names. names_in names ≡ names_of input.now kept.now rules.now old.now) }
{
    let fixed = fixed_names(alloc, rules, input)?;
    names_beside(alloc, &fixed, kept, old)
}

/// The same, beside the names that stay by these rules in this set.
pub fn names_beside(
    alloc: Global,
    fixed: &Option<TakenNames>,
    kept: &Items<Class>,
    old: &Option<Mapping>,
) -> M<NewNames>
    ensures { (rules : Rules) (input : List Class) → AreFixed rules input fixed.now
        → IfOk result (λ names. names_in names ≡ names_of input kept.now rules old.now) }
{
    match fixed {
        Some(taken) => given_names(alloc, taken, kept, old),
        None => Ok(same_names(alloc)),
    }
}

/// The same, where not all names stay.
fn given_names(
    alloc: Global,
    taken: &TakenNames,
    kept: &Items<Class>,
    old: &Option<Mapping>,
) -> M<NewNames>
    ensures { IfOk result (λ names. names_in names ≡ names_given taken.now (tables_of old.now) kept.now) }
{
    let tables = tables_of(alloc, old)?;
    new_names(alloc, taken, &tables, kept)
}

/// No name gets another one.
fn same_names(alloc: Global) -> NewNames
    ensures { names_in result ≡ same_names }
{
    let classes = Table::new(alloc);
    let fields = Table::new(alloc);
    let methods = Table::new(alloc);
    NewNames::new(classes, fields, methods)
}
