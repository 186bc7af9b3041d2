// The methods that were read.
ghost use Rattle.std.specs.Prelude.{◌≡◌, true, List, ◌++◌, not, IfOk, OnOk, codes};
ghost use Rattle.std.specs.BTreeSet.{Updates};
ghost use Rattle.witness_file.specs.bodies.MethodTable.{TellsMethods, names_order};
ghost use Rattle.witness_file.specs.Witnesses.{has_method, is_before};
ghost use Rattle.witness_file.specs.declared.witness.MethodWitness.{MethodWitness};

use jv_base::{M, Name, Text};
use std::alloc::Global;
use std::collections::BTreeSet;

/// Methods by class, name and descriptor, in order, so that no choice of names makes a search slow.
pub(crate) type MethodNames = BTreeSet<((Name, Name), Text)>;

/// Puts a method, and answers whether it wasn't there.
pub(crate) fn put_method(table: &mut MethodNames, class: &Name, name: &Name, ty: &Text) -> M<bool>
    ensures is_new { (methods : List MethodWitness) → TellsMethods table.old methods
        → IfOk result (λ is_new. is_new ≡ not (has_method methods class.now name.now ty.now)) }
    ensures put { OnOk result (Updates names_order table.old table.new ((class.now, name.now), ty.now) true) }
{
    let names = (class.clone()?, name.clone()?);
    Ok(table.insert((names, ty.clone()?))?)
}

/// Whether the path of a class's file comes before that of another.
pub(crate) fn is_before(alloc: Global, class: &Name, other: &Name) -> M<bool>
    ensures { IfOk result (λ before. before ≡ is_before class.now other.now) }
{
    let path = class_path(alloc, class)?;
    let other = class_path(alloc, other)?;
    Ok(path < other)
}

fn class_path(alloc: Global, class: &Name) -> M<Text>
    ensures { IfOk result (λ path. path ≡ class.now ++ codes ".class") }
{
    let class = class.as_str();
    Ok(Text::from_string(alloc, format!(in alloc; "{class}.class")?)?)
}
