// The names that marks choose of the classes of a set.
ghost use Rattle.std.specs.Prelude.{◌≡◌, ◌+◌, ◌<◌, ℕ, List, [], ◌∷◌, ◌++◌, IfOk, OnOk, length, slice_index_or};
ghost use Rattle.std.specs.Prelude.{if◌then◌else◌};
ghost use Rattle.std.specs.List.{flat_map};
ghost use Rattle.jv_base.specs.Names.{is_text};
ghost use Rattle.member_shrink.specs.Shrunk.{chosen, is_marked};
ghost use Rattle.rename_map.specs.Fixed.{class_marked, marked, of_each};
ghost use Rattle.rename_map.specs.bodies.Adding.{Adds};

use crate::telling::{Tells, Told, add_name};
use class_model::Class;
use class_pool::ClassSet;
use jv_base::{Items, M, Name};
use key_table::KeySet;

/// What marks of a class and its members choose: the name of the class, the classes in the descriptors of members, or
/// the names of fields.
#[derive(Clone, Copy)]
pub(crate) enum Chosen {
    Class,
    Described,
    Fields,
}

/// Adds what the marks of each class choose.
pub(crate) fn gather(
    input: &ClassSet,
    rows: &[Items<bool>],
    what: Chosen,
    names: &mut KeySet<Name>,
) -> M<()>
    ensures { OnOk result (Adds is_text names.old (of_each what rows.now input.now) names.new) }
{
    for number in 0..input.len() {
        add_marked(names, what, row_of(rows, number), input.class(number))?;
    }
    Ok(())
}

/// The marks of a class.
pub(crate) fn row_of(rows: &[Items<bool>], number: u32) -> &[bool]
    ensures { result.now ≡ slice_index_or rows.now number [] }
{
    match rows.get(number as usize) {
        Some(row) => row.as_slice(),
        None => &[],
    }
}

/// Adds what the marks of a class choose.
#[tactic(auto, using(crate::proofs::Added::adds_both))]
fn add_marked(names: &mut KeySet<Name>, what: Chosen, row: &[bool], class: &Class) -> M<()>
    requires { length class.now.fields + length class.now.methods < 4294967295 }
    ensures { OnOk result (Adds is_text names.old (marked what row.now class.now) names.new) }
{
    let fields = class.fields.as_slice();
    let methods = class.methods.as_slice();
    let behind = 1 + fields.len();
    match what {
        Chosen::Class => add_class(names, row, class),
        Chosen::Described => {
            add_chosen(names, Told::Classes, row, 1, fields)?;
            add_chosen(names, Told::Classes, row, behind, methods)
        }
        Chosen::Fields => add_chosen(names, Told::Names, row, 1, fields),
    }
}

/// Adds the name of a class, if it is marked.
#[tactic(auto, using(crate::proofs::Added::adds_none))]
fn add_class(names: &mut KeySet<Name>, row: &[bool], class: &Class) -> M<()>
    ensures { OnOk result (Adds is_text names.old (class_marked row.now class.now) names.new) }
{
    if is_marked(row, 0) {
        add_name(names, &class.name)
    } else {
        Ok(())
    }
}

/// Whether an item is marked.
pub(crate) fn is_marked(row: &[bool], item: usize) -> bool
    ensures { result ≡ is_marked row.now item }
{
    match row.get(item) {
        Some(marked) => *marked,
        None => false,
    }
}

/// Adds what those members tell that are marked; their items follow one another from the first on.
fn add_chosen<T: Tells>(
    names: &mut KeySet<Name>,
    told: Told,
    row: &[bool],
    first: usize,
    members: &[T],
) -> M<()>
    requires { first + length members.now < 4294967296 }
    ensures { OnOk result (Adds is_text names.old (flat_map (T.tells told) (chosen row.now first members.now))
        names.new) }
{
    let mut item = first;
    for member in members {
        let is_chosen = is_marked(row, item);
        add_if(names, told, member, is_chosen)?;
        item += 1;
    }
    Ok(())
}

/// Adds what a member tells, if it is chosen.
#[tactic(auto, using(crate::proofs::Added::adds_none))]
fn add_if<T: Tells>(names: &mut KeySet<Name>, told: Told, member: &T, is_chosen: bool) -> M<()>
    ensures { OnOk result (Adds is_text names.old (if is_chosen then T.tells told member.now else []) names.new) }
{
    if is_chosen {
        member.add_told(told, names)
    } else {
        Ok(())
    }
}
