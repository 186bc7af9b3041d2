// The instance methods that may override others, by name, descriptor and package.
//
// A method that its package alone may override is overridden by the nearest one of its place. No place is told of other
// methods, of which most sets have no others.
ghost use Rattle.std.specs.Prelude.{◌≡◌, [], IfOk, IsTrue, OnOk, ◌++◌, map};
ghost use Rattle.std.specs.List.{cons_option, filter_map};
ghost use Rattle.std.specs.List.Sorted.{IsSorted};
ghost use Rattle.std.specs.Ordering.{nat_cmp};
ghost use Rattle.class_pool.specs.Found.{package_of};
ghost use Rattle.method_places.specs.bodies.Alike.{place_of};
ghost use Rattle.method_places.specs.bodies.Nearest.{is_overriding};
ghost use Rattle.method_places.specs.bodies.Places.{HavePlaces, is_part, joined, key_in, package_number, part_row};
ghost use Rattle.method_places.specs.bodies.Places.{place_at, place_in};

use crate::alike::place_of;
use crate::methods::{InstanceMethod, Openness};
use class_model::Class;
use class_pool::ClassSet;
use jv_base::{Items, M};
use key_table::KeySet;
use std::alloc::Global;

/// Which methods of a table are meant.
#[derive(Clone, Copy)]
pub enum Part {
    Each,
    /// Those that methods of all packages may override.
    Open,
}

/// The methods of a table that may override others, with their places.
#[derive(Drop)]
pub struct Places {
    /// For each class the number of its package.
    pub packages: Items<usize>,
    /// The numbers of names and descriptors, each with that of a package, ascending.
    pub keys: Vec<u64>,
    /// Of each class those that have a place, which is their number here.
    pub each: Items<Items<InstanceMethod>>,
    /// Of these the ones that methods of all packages may override.
    pub opening: Items<Items<InstanceMethod>>,
    /// For each item how many keys are less than that of its method; only speed rests on it.
    hints: Vec<usize>,
}

impl Places {
    /// Those of the methods that only methods of their package may override, and of the ones that may override these.
    pub fn of(alloc: Global, set: &ClassSet, table: &[Items<InstanceMethod>]) -> M<Self>
        ensures { IfOk result (HavePlaces set.now table.now) }
    {
        let names = names_of(alloc, set)?;
        let packages = packages_of(alloc, set, &names)?;
        let keys = keys_of(alloc, packages.as_slice(), table)?;
        let each = part_of(
            alloc,
            packages.as_slice(),
            keys.as_slice(),
            table,
            Part::Each,
        )?;
        let opening = part_of(
            alloc,
            packages.as_slice(),
            keys.as_slice(),
            table,
            Part::Open,
        )?;
        let hints = hints_of(alloc, each.as_slice())?;
        Ok(Places {
            packages,
            keys,
            each,
            opening,
            hints,
        })
    }

    /// No place is greater.
    pub fn highest(&self) -> usize {
        self.keys.len()
    }

    /// The place of a method, 0 where it has none.
    pub fn place(&self, row: &InstanceMethod) -> usize
        requires { IsSorted nat_cmp self.now.keys.items }
        ensures { result ≡ place_in self.now.packages self.now.keys.items row.now }
    {
        let hint = hint_of(self.hints.as_slice(), row);
        place_in(self.packages.as_slice(), self.keys.as_slice(), row, hint)
    }
}

/// The names of the packages of a set.
fn names_of(alloc: Global, set: &ClassSet) -> M<KeySet<Items<u8>>> {
    let mut names = KeySet::new(alloc);
    for number in 0..set.len() {
        let class = set.class(number);
        names.insert(package_name(alloc, class)?)?;
    }
    Ok(names)
}

/// For each class the number of its package.
fn packages_of(alloc: Global, set: &ClassSet, names: &KeySet<Items<u8>>) -> M<Items<usize>>
    ensures { IfOk result (λ packages. packages
        ≡ map (λ c. package_number names.now (package_of c.name)) set.now) }
{
    let mut packages = Items::new(alloc);
    for number in 0..set.len() {
        let class = set.class(number);
        packages.push(package_number(alloc, names, class)?)?;
    }
    Ok(packages)
}

/// The place of the package of a class among names, and the highest number where it isn't there.
fn package_number(alloc: Global, names: &KeySet<Items<u8>>, class: &Class) -> M<usize>
    ensures { IfOk result (λ number. number ≡ package_number names.now (package_of class.now.name)) }
{
    let name = package_name(alloc, class)?;
    match names.place(&name) {
        Some(place) => Ok(place),
        None => Ok(usize::MAX),
    }
}

fn package_name(alloc: Global, class: &Class) -> M<Items<u8>>
    ensures { IfOk result (λ name. name ≡ package_of class.now.name) }
{
    let name = package_of(class.name.as_bytes());
    Ok(Items::from_vec(name.to_vec(alloc)?))
}

/// The name of a class without its last part: its package, of no bytes where that has no name.
fn package_of(name: &[u8]) -> &[u8]
    ensures { result.now ≡ package_of name.now }
{
    let mut end = name.len();
    while end > 0 && name[end - 1] != b'/' {
        end -= 1;
    }
    &name[..end.saturating_sub(1)]
}

/// The keys of the methods that only methods of their package may override, ascending, each once.
fn keys_of(alloc: Global, packages: &[usize], table: &[Items<InstanceMethod>]) -> M<Vec<u64>>
    ensures { IfOk result (λ keys. IsSorted nat_cmp keys.items) }
{
    let mut keys = Vec::new(alloc);
    for rows in table {
        add_keys(&mut keys, packages, rows.as_slice())?;
    }
    keys.sort_unstable();
    keys.dedup();
    Ok(keys)
}

fn add_keys(keys: &mut Vec<u64>, packages: &[usize], rows: &[InstanceMethod]) -> M<()> {
    for row in rows {
        if matches!(row.openness, Openness::Package) {
            if let Some(key) = key_of(packages, row) {
                keys.push(key)?;
            }
        }
    }
    Ok(())
}

/// The numbers of the name and descriptor and of the package of a method as one.
fn key_of(packages: &[usize], row: &InstanceMethod) -> Option<u64>
    ensures { result ≡ key_in packages.now row.now }
{
    let home = packages.get(row.class as usize)?;
    joined(row.number, *home)
}

/// Two numbers as one, where they are so low that they can be told apart in it.
fn joined(number: usize, home: usize) -> Option<u64>
    ensures { result ≡ joined number home }
{
    if number == 0 || number > 4_294_967_295 || home > 4_294_967_295 {
        return None;
    }
    Some(number as u64 * 4_294_967_296 + home as u64)
}

/// The rows of a part of a table, each with its place as its number.
fn part_of(
    alloc: Global,
    packages: &[usize],
    keys: &[u64],
    table: &[Items<InstanceMethod>],
    part: Part,
) -> M<Items<Items<InstanceMethod>>>
    requires { IsSorted nat_cmp keys.now }
    ensures { IfOk result (λ rows. rows ≡ map (filter_map (part_row packages.now keys.now part)) table.now) }
{
    let mut lists = Items::with_capacity(alloc, table.len())?;
    for rows in table {
        lists.push(part_rows(alloc, packages, keys, rows.as_slice(), part)?)?;
    }
    Ok(lists)
}

fn part_rows(
    alloc: Global,
    packages: &[usize],
    keys: &[u64],
    rows: &[InstanceMethod],
    part: Part,
) -> M<Items<InstanceMethod>>
    requires { IsSorted nat_cmp keys.now }
    ensures { IfOk result (λ placed. placed ≡ filter_map (part_row packages.now keys.now part) rows.now) }
{
    let mut placed = Items::new(alloc);
    for row in rows {
        add_placed(&mut placed, packages, keys, row, part)?;
    }
    Ok(placed)
}

fn add_placed(
    placed: &mut Items<InstanceMethod>,
    packages: &[usize],
    keys: &[u64],
    row: &InstanceMethod,
    part: Part,
) -> M<()>
    requires { IsSorted nat_cmp keys.now }
    ensures { OnOk result (placed.new
        ≡ placed.old ++ cons_option (part_row packages.now keys.now part row.now) []) }
{
    if !is_part(part, row) {
        return Ok(());
    }
    let place = place_in(packages, keys, row, keys.len());
    if place != 0 {
        placed.push(InstanceMethod {
            class: row.class,
            index: row.index,
            item: row.item,
            openness: row.openness,
            number: place,
        })?;
    }
    Ok(())
}

fn is_part(part: Part, row: &InstanceMethod) -> bool
    ensures { result ≡ is_part part row.now.openness }
{
    match part {
        Part::Each => true,
        Part::Open => matches!(row.openness, Openness::Open),
    }
}

/// For each item how many keys are less than that of its method, of the methods that have places.
fn hints_of(alloc: Global, table: &[Items<InstanceMethod>]) -> M<Vec<usize>> {
    let mut hints = vec![in alloc; 0; item_bound(table)]?;
    for rows in table {
        add_hints(&mut hints, rows.as_slice());
    }
    Ok(hints)
}

fn add_hints(hints: &mut Vec<usize>, rows: &[InstanceMethod]) {
    for row in rows {
        let item = row.item as usize;
        if item < hints.len() {
            hints[item] = row.number.saturating_sub(1);
        }
    }
}

/// No item is as great.
fn item_bound(table: &[Items<InstanceMethod>]) -> usize {
    let mut bound = 0;
    for rows in table {
        bound = bound.max(bound_of(rows.as_slice()));
    }
    bound
}

fn bound_of(rows: &[InstanceMethod]) -> usize {
    let mut bound = 0;
    for row in rows {
        bound = bound.max((row.item as usize).saturating_add(1));
    }
    bound
}

fn hint_of(hints: &[usize], row: &InstanceMethod) -> usize {
    match hints.get(row.item as usize) {
        Some(hint) => *hint,
        None => 0,
    }
}

/// The place of a method that may override others, 0 where it has none. Perhaps so many keys are less than its own.
fn place_in(packages: &[usize], keys: &[u64], row: &InstanceMethod, hint: usize) -> usize
    requires { IsSorted nat_cmp keys.now }
    ensures { result ≡ place_in packages.now keys.now row.now }
{
    if !is_overriding(row) {
        return 0;
    }
    match key_of(packages, row) {
        Some(key) => place_at(keys, key, hint),
        None => 0,
    }
}

/// The place of a key, 0 where it isn't there.
fn place_at(keys: &[u64], key: u64, hint: usize) -> usize
    requires { IsSorted nat_cmp keys.now }
    ensures { result ≡ place_at keys.now key }
{
    let place = place_near(keys, key, hint);
    match keys.get(place) {
        Some(found) if *found == key => place + 1,
        _ => 0,
    }
}

/// How many of the first keys are less than one.
fn place_near(keys: &[u64], key: u64, hint: usize) -> usize
    requires { IsSorted nat_cmp keys.now }
    ensures { result ≡ place_of keys.now key }
{
    if is_place(keys, key, hint) {
        hint
    } else {
        place_of(keys, key)
    }
}

/// Whether so many are.
fn is_place(keys: &[u64], key: u64, hint: usize) -> bool
    requires { IsSorted nat_cmp keys.now }
    ensures { IsTrue result → place_of keys.now key ≡ hint }
{
    if hint >= keys.len() || keys[hint] < key {
        return false;
    }
    hint == 0 || keys[hint - 1] < key
}

/// Whether a method may override others.
pub fn is_overriding(row: &InstanceMethod) -> bool
    ensures { result ≡ is_overriding row.now.openness }
{
    matches!(row.openness, Openness::Package | Openness::Open)
}
