// The instance methods of each class of a set in a table.
ghost use Rattle.std.specs.Prelude.{◌≡◌, ◌+◌, ◌++◌, ◌<◌, [], IfOk, IfSome, OnOk, Some, if◌then◌else◌, length};
ghost use Rattle.std.specs.Prelude.{slice_get};
ghost use Rattle.std.specs.List.{cons_option};
ghost use Rattle.std.specs.Option.{ForSome};
ghost use Rattle.std.specs.List.Sorted.{IsSorted};
ghost use Rattle.std.specs.Ordering.{nat_cmp};
ghost use Rattle.class_pool.specs.Count.{item_count};
ghost use Rattle.class_pool.specs.Found.{IsMember, IsMethod, is_instance_method};
ghost use Rattle.class_pool.specs.Hierarchy.{IsClass};
ghost use Rattle.class_pool.specs.Items.{class_item};
ghost use Rattle.class_pool.specs.declared.id.ClassId.TheVariants.{Prog};
ghost use Rattle.method_places.specs.bodies.Alike.{AreAlike, AreRows, class_marks, class_rows, number_in, openness};
ghost use Rattle.method_places.specs.bodies.Alike.{row_of};
ghost use Rattle.item_numbers.specs.bodies.Alone.{AreAlone};

use crate::alike::Alike;
use crate::calls::declared_by_others;
use class_model::Class;
use class_pool::{ClassId, ClassSet, MemberAt};
use jv_base::{Items, M};
use std::alloc::Global;

/// Who may override an instance method by its flags (JVMS 5.4.5).
#[derive(Clone, Copy)]
pub enum Openness {
    /// No method, since it is private.
    Private,
    /// It is one of an interface.
    Abstract,
    /// Methods of its package.
    Package,
    /// Methods of all packages.
    Open,
}

/// An instance method of a class.
#[derive(Clone, Copy)]
pub struct InstanceMethod {
    /// The number of the class.
    pub class: u32,
    /// Its number among the members of the class.
    pub index: u32,
    pub item: u32,
    pub openness: Openness,
    /// Methods with one number, other than 0, have one name and descriptor.
    pub number: usize,
}

/// The instance methods of each class.
#[derive(Drop)]
pub struct Methods {
    pub of_classes: Items<Items<InstanceMethod>>,
    /// No method has a greater number.
    pub highest: usize,
    /// For each member of one class whether a class of the set may have one with its name and descriptor.
    pub declared: Items<bool>,
}

/// The methods of a set, and the flags of the members of a class, if there is one.
pub fn methods_of(alloc: Global, set: &ClassSet, class: &Option<ClassId>) -> M<Methods>
    requires { IfSome class.now (IsClass set.now) }
    ensures rows { IfOk result (λ methods. AreRows set.now methods.of_classes) }
    ensures alone { IfOk result (λ methods. ForSome class.now (λ class. AreAlone set.now class methods.declared)) }
{
    let alike = Alike::of(alloc, set)?;
    let declared = declared_by_others(alloc, &alike, class)?;
    let of_classes = rows_of(alloc, &alike)?;
    let highest = alike.highest();
    Ok(Methods {
        of_classes,
        highest,
        declared,
    })
}

fn rows_of(alloc: Global, alike: &Alike) -> M<Items<Items<InstanceMethod>>>
    requires { AreAlike alike.now.set.now alike.now.marks alike.now.keys.items alike.now.groups.items }
    ensures { IfOk result (AreRows alike.now.set.now) }
{
    alike.set.few_items();
    let mut rows = Items::new(alloc);
    let mut item = 0;
    for number in 0..alike.set.len() {
        let class = alike.set.class(number);
        let marks = alike.marks[number as usize].as_slice();
        rows.push(class_rows(alloc, alike, item, number, class, marks)?)?;
        item = next_item(alike.set, number, item, class);
    }
    Ok(rows)
}

/// The item of the class behind another one.
fn next_item(set: &ClassSet, number: u32, item: u32, class: &Class) -> u32
    requires items { item_count set.now < 4294967295 }
    requires there { slice_get set.now number ≡ Some class.now }
    requires few { length class.now.fields + length class.now.methods < 4294967295 }
    requires item { item ≡ class_item set.now number }
    ensures { result ≡ class_item set.now (number + 1) }
{
    let _count = set.len();
    item + 1 + (class.fields.len() + class.methods.len()) as u32
}

fn class_rows(
    alloc: Global,
    alike: &Alike,
    item: u32,
    number: u32,
    class: &Class,
    marks: &[u64],
) -> M<Items<InstanceMethod>>
    requires marks { marks.now ≡ class_marks class.now }
    requires there { slice_get alike.now.set.now number ≡ Some class.now }
    requires sorted { IsSorted nat_cmp alike.now.keys.items }
    requires few { length class.now.fields + length class.now.methods < 4294967295 }
    requires items { item_count alike.now.set.now < 4294967295 }
    requires item { item ≡ class_item alike.now.set.now number }
    ensures { IfOk result (λ rows. rows ≡ class_rows alike.now.set.now
        (number_in alike.now.keys.items alike.now.groups.items) number) }
{
    let mut rows = Items::new(alloc);
    let count = class.fields.len() + class.methods.len();
    for index in 0..count as u32 {
        add_row(&mut rows, alike, item, number, class, marks, index)?;
    }
    Ok(rows)
}

/// The row of a member, if it is an instance method.
fn add_row(
    rows: &mut Items<InstanceMethod>,
    alike: &Alike,
    item: u32,
    number: u32,
    class: &Class,
    marks: &[u64],
    index: u32,
) -> M<()>
    requires marks { marks.now ≡ class_marks class.now }
    requires there { slice_get alike.now.set.now number ≡ Some class.now }
    requires sorted { IsSorted nat_cmp alike.now.keys.items }
    requires member { index < length class.now.fields + length class.now.methods }
    requires items { item_count alike.now.set.now < 4294967295 }
    requires item { item ≡ class_item alike.now.set.now number }
    ensures { OnOk result (rows.new ≡ rows.old
        ++ (if is_instance_method alike.now.set.now (record { class = Prog number; index = index })
        then cons_option (row_of alike.now.set.now (number_in alike.now.keys.items alike.now.groups.items)
        (record { class = Prog number; index = index })) [] else [])) }
{
    let m = MemberAt {
        class: ClassId::Prog(number),
        index,
    };
    if alike.set.is_instance_method(m) {
        rows.push(row_of(alike, item, number, class, marks, &m))?;
    }
    Ok(())
}

fn row_of(
    alike: &Alike,
    item: u32,
    number: u32,
    class: &Class,
    marks: &[u64],
    m: &MemberAt,
) -> InstanceMethod
    requires marks { marks.now ≡ class_marks class.now }
    requires there { slice_get alike.now.set.now number ≡ Some class.now }
    requires class { m.now.class ≡ Prog number }
    requires member { IsMember alike.now.set.now m.now }
    requires method { IsMethod alike.now.set.now m.now }
    requires sorted { IsSorted nat_cmp alike.now.keys.items }
    requires items { item_count alike.now.set.now < 4294967295 }
    requires item { item ≡ class_item alike.now.set.now number }
    ensures { row_of alike.now.set.now (number_in alike.now.keys.items alike.now.groups.items) m.now ≡ Some result }
{
    let mark = marks[m.index as usize - class.fields.len()];
    let item = item + 1 + m.index;
    InstanceMethod {
        class: number,
        index: m.index,
        item,
        openness: openness_of(alike.set, m),
        number: alike.number_of(mark),
    }
}

fn openness_of(set: &ClassSet, m: &MemberAt) -> Openness
    requires { IsMember set.now m.now }
    ensures { result ≡ openness set.now m.now }
{
    if set.is_private_member(*m) {
        Openness::Private
    } else if set.is_interface(m.class) {
        Openness::Abstract
    } else if set.is_public_member(*m) || set.is_protected_member(*m) {
        Openness::Open
    } else {
        Openness::Package
    }
}
