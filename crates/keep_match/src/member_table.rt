// The member specifications of a rule by the names that they are for, so that a member is tried on those alone that may
// match it.
ghost use Rattle.std.specs.Prelude.{◌≡◌, [], IfOk, IsTrue, OnOk, slice_index_or};
ghost use Rattle.std.specs.List.{list_any};
ghost use Rattle.keep_match.specs.Matches.{matches_field, matches_method};
ghost use Rattle.keep_match.specs.bodies.Tables.{Adds, IsNamed, IsTable, has_form, in_group, passes_at, with_number};

use crate::member_spec::{matches_field, matches_method};
use crate::named::has_wildcard;
use class_model::{Field, Method};
use jv_base::{Items, M, Text};
use keep_rules::MemberSpec;
use key_table::KeySet;
use std::alloc::Global;

/// So many are tried one by one.
const FEW: usize = 8;

/// The specifications of a rule, by their numbers.
#[derive(Drop)]
pub(crate) struct MemberTable {
    /// The names of those that are for members of one name.
    names: KeySet<Text>,
    /// For each name those that are for it.
    groups: Vec<Items<usize>>,
    /// The others.
    others: Vec<usize>,
}

pub(crate) fn member_table(alloc: Global, specs: &Items<MemberSpec>) -> M<MemberTable>
    ensures { IfOk result (IsTable specs.now) }
{
    let few = specs.len() <= FEW;
    let count = if few { 0 } else { specs.len() };
    let mut table = MemberTable {
        names: KeySet::new(alloc),
        groups: no_groups(alloc, count)?,
        others: Vec::new(alloc),
    };
    for number in 0..specs.len() {
        add_spec(&mut table, few, number, &specs[number])?;
    }
    Ok(table)
}

fn no_groups(alloc: Global, count: usize) -> M<Vec<Items<usize>>> {
    let mut groups = Vec::with_capacity(alloc, count)?;
    for _ in 0..count {
        groups.push(Items::new(alloc))?;
    }
    Ok(groups)
}

/// Puts one more specification into a table; where there are few it is one of the others.
fn add_spec(table: &mut MemberTable, few: bool, number: usize, spec: &MemberSpec) -> M<()>
    ensures { OnOk result (Adds number spec.now table.old table.new) }
{
    if few || !is_named(spec) {
        table.others.push(number)?;
        return Ok(());
    }
    let name = spec.name.clone()?;
    let place = table.names.keep(name)?;
    if place >= table.groups.len() {
        table.others.push(number)?;
        return Ok(());
    }
    put(&mut table.groups, place, number)
}

fn put(groups: &mut Vec<Items<usize>>, place: usize, number: usize) -> M<()>
    ensures { OnOk result (groups.new.items ≡ with_number place number groups.old.items) }
{
    if place < groups.len() {
        groups[place].push(number)?;
    }
    Ok(())
}

/// Whether a specification is for members of one name, which is the one that it has itself.
#[tactic(auto, using(crate::proofs::LiteralLaw::no_wildcard))]
fn is_named(spec: &MemberSpec) -> bool
    ensures { IsTrue result → IsNamed spec.now }
{
    has_form(spec) && !has_wildcard(spec.name.as_str().as_bytes())
}

/// Whether it has more than a name.
fn has_form(spec: &MemberSpec) -> bool
    ensures { result ≡ has_form spec.now }
{
    spec.ty.is_some() || spec.args.is_some()
}

/// Whether one of the specifications of a table matches a field.
pub(crate) fn is_field_kept(table: &MemberTable, specs: &[MemberSpec], field: &Field) -> bool
    requires { IsTable specs.now table.now }
    ensures { result ≡ list_any (λ spec. matches_field spec field.now) specs.now }
{
    let _name = field.name.as_str();
    any_field(specs, table.others.as_slice(), field)
        || any_field(specs, group_of(table, &field.name), field)
}

/// The same of a method.
pub(crate) fn is_method_kept(table: &MemberTable, specs: &[MemberSpec], method: &Method) -> bool
    requires { IsTable specs.now table.now }
    ensures { result ≡ list_any (λ spec. matches_method spec method.now) specs.now }
{
    let _name = method.name.as_str();
    any_method(specs, table.others.as_slice(), method)
        || any_method(specs, group_of(table, &method.name), method)
}

/// The specifications for members of a name.
fn group_of<'a>(table: &'a MemberTable, name: &Text) -> &'a [usize]
    ensures { result.now ≡ in_group name.now table.now }
{
    match table.names.place(name) {
        Some(place) => group_at(table.groups.as_slice(), place),
        None => &[],
    }
}

fn group_at(groups: &[Items<usize>], place: usize) -> &[usize]
    ensures { result.now ≡ slice_index_or groups.now place [] }
{
    if place < groups.len() {
        groups[place].as_slice()
    } else {
        &[]
    }
}

fn any_field(specs: &[MemberSpec], numbers: &[usize], field: &Field) -> bool
    ensures { result ≡ list_any (passes_at (λ spec. matches_field spec field.now) specs.now) numbers.now }
{
    numbers
        .iter()
        .any(|number| matches_field_at(specs, *number, field))
}

fn matches_field_at(specs: &[MemberSpec], number: usize, field: &Field) -> bool
    ensures { result ≡ passes_at (λ spec. matches_field spec field.now) specs.now number }
{
    match specs.get(number) {
        Some(spec) => matches_field(spec, field),
        None => false,
    }
}

fn any_method(specs: &[MemberSpec], numbers: &[usize], method: &Method) -> bool
    ensures { result ≡ list_any (passes_at (λ spec. matches_method spec method.now) specs.now) numbers.now }
{
    numbers
        .iter()
        .any(|number| matches_method_at(specs, *number, method))
}

fn matches_method_at(specs: &[MemberSpec], number: usize, method: &Method) -> bool
    ensures { result ≡ passes_at (λ spec. matches_method spec method.now) specs.now number }
{
    match specs.get(number) {
        Some(spec) => matches_method(spec, method),
        None => false,
    }
}
