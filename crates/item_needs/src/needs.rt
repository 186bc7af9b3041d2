// What each item needs.
ghost use Rattle.std.specs.Prelude.{◌≡◌, ◌+◌, ◌<◌, [], ◌∷◌, IfOk, OnOk, Some, length, slice_get};
ghost use Rattle.class_pool.specs.Items.{class_item};
ghost use Rattle.require_sys.specs.Requires.{class_needs, class_wants, field_wants, method_wants, needs_of};
ghost use Rattle.item_needs.specs.bodies.Asked.{AreMembers};
ghost use Rattle.item_needs.specs.bodies.Counting.{AddsNeeds, HasNeeds};
ghost use Rattle.item_needs.specs.bodies.Needs.{all_needs, fields_needs, methods_needs};
ghost use Rattle.item_numbers.specs.bodies.Wanting.{wanting_nothing};

use crate::classes::want_of_class;
use crate::members::{want_of_field, want_of_method};
use crate::wants::Wants;
use class_model::{Class, Field, Method};
use item_numbers::Numbered;
use jv_base::{Items, M};
use require_sys::{Counted, KeptByRules};
use std::alloc::Global;

/// What items need, counted. The lists are no longer made where they are too long together.
#[derive(Drop)]
pub struct Needs {
    pub lists: Items<Items<u32>>,
    pub count: u64,
}

impl Needs {
    /// What one more item needs.
    fn add(&mut self, needs: Items<u32>) -> M<()>
        ensures { OnOk result (AddsNeeds self.old (needs ∷ []) self.new) }
    {
        self.count = self.count.saturating_add(needs.len() as u64);
        if self.count <= Counted::Needs.limit() {
            self.lists.push(needs)?;
        }
        Ok(())
    }
}

/// What each item of a set needs, in the order of the items.
pub fn needs_of(alloc: Global, numbered: &Numbered, kept: &KeptByRules) -> M<Needs>
    requires { AreMembers numbered.now.set.now kept.now.members }
    ensures { IfOk result (HasNeeds (all_needs numbered.now.set.now kept.now)) }
{
    let set = numbered.set;
    let mut needs = Needs {
        lists: Items::new(alloc),
        count: 0,
    };
    let mut wants = Wants::new(alloc, numbered)?;
    for number in 0..set.len() {
        let class = set.class(number);
        add_class(alloc, &mut wants, numbered, kept, number, class, &mut needs)?;
    }
    Ok(needs)
}

/// What the items of a class need: the class, its fields, its methods.
fn add_class(
    alloc: Global,
    wants: &mut Wants<'_>,
    numbered: &Numbered,
    kept: &KeptByRules,
    number: u32,
    class: &Class,
    needs: &mut Needs,
) -> M<()>
    requires before { wants.old ≡ wanting_nothing numbered.now.set.now }
    requires there { slice_get numbered.now.set.now number ≡ Some class.now }
    requires few { length class.now.fields + length class.now.methods < 4294967295 }
    requires members { AreMembers numbered.now.set.now kept.now.members }
    ensures added { OnOk result (AddsNeeds needs.old (class_needs numbered.now.set.now kept.now
        (number, class.now)) needs.new) }
    ensures after { OnOk result (wants.new ≡ wanting_nothing numbered.now.set.now) }
{
    needs.add(class_needs(alloc, wants, numbered, kept, number, class)?)?;
    add_fields(alloc, wants, numbered, number, class, needs)?;
    add_methods(alloc, wants, numbered, kept, number, class, needs)
}

fn add_fields(
    alloc: Global,
    wants: &mut Wants<'_>,
    numbered: &Numbered,
    number: u32,
    class: &Class,
    needs: &mut Needs,
) -> M<()>
    requires before { wants.old ≡ wanting_nothing numbered.now.set.now }
    requires there { slice_get numbered.now.set.now number ≡ Some class.now }
    requires few { length class.now.fields + length class.now.methods < 4294967295 }
    ensures added { OnOk result (AddsNeeds needs.old (fields_needs numbered.now.set.now number class.now) needs.new) }
    ensures after { OnOk result (wants.new ≡ wanting_nothing numbered.now.set.now) }
{
    for index in 0..class.fields.len() {
        let own = numbered.member_item(number, index as u32);
        needs.add(field_needs(alloc, wants, own, number, &class.fields[index])?)?;
    }
    Ok(())
}

fn add_methods(
    alloc: Global,
    wants: &mut Wants<'_>,
    numbered: &Numbered,
    kept: &KeptByRules,
    number: u32,
    class: &Class,
    needs: &mut Needs,
) -> M<()>
    requires before { wants.old ≡ wanting_nothing numbered.now.set.now }
    requires there { slice_get numbered.now.set.now number ≡ Some class.now }
    requires few { length class.now.fields + length class.now.methods < 4294967295 }
    ensures added { OnOk result (AddsNeeds needs.old
        (methods_needs numbered.now.set.now kept.now number class.now) needs.new) }
    ensures after { OnOk result (wants.new ≡ wanting_nothing numbered.now.set.now) }
{
    for index in 0..class.methods.len() {
        let own = method_item(numbered, number, class, index);
        let method = &class.methods[index];
        needs.add(method_needs(alloc, wants, kept, own, number, method)?)?;
    }
    Ok(())
}

/// The item of a method by its number among the methods of its class.
fn method_item(numbered: &Numbered, number: u32, class: &Class, index: usize) -> u32
    requires there { slice_get numbered.now.set.now number ≡ Some class.now }
    requires few { length class.now.fields + length class.now.methods < 4294967295 }
    requires method { index < length class.now.methods }
    ensures { result ≡ class_item numbered.now.set.now number + 1 + (length class.now.fields + index) }
{
    numbered.member_item(number, (class.fields.len() + index) as u32)
}

/// What a class needs. Nothing is wanted before, nor after.
fn class_needs(
    alloc: Global,
    wants: &mut Wants<'_>,
    numbered: &Numbered,
    kept: &KeptByRules,
    number: u32,
    class: &Class,
) -> M<Items<u32>>
    requires before { wants.old ≡ wanting_nothing numbered.now.set.now }
    requires there { slice_get numbered.now.set.now number ≡ Some class.now }
    requires members { AreMembers numbered.now.set.now kept.now.members }
    ensures needs { IfOk result (λ needs. needs ≡ needs_of numbered.now.set.now
        (class_item numbered.now.set.now number) (class_wants numbered.now.set.now kept.now number class.now)) }
    ensures after { OnOk result (wants.new ≡ wanting_nothing numbered.now.set.now) }
{
    want_of_class(alloc, wants, kept, number, class)?;
    wants.take_needs(alloc, numbered.class_item(number))
}

/// What a field needs. Nothing is wanted before, nor after.
fn field_needs(
    alloc: Global,
    wants: &mut Wants<'_>,
    own: u32,
    number: u32,
    field: &Field,
) -> M<Items<u32>>
    requires there { number < length wants.old.classes }
    requires before { wants.old ≡ wanting_nothing wants.old.classes }
    ensures needs { IfOk result (λ needs. needs ≡ needs_of wants.old.classes own
        (field_wants wants.old.classes number field.now)) }
    ensures after { OnOk result (wants.new ≡ wanting_nothing wants.old.classes) }
{
    want_of_field(wants, number, field)?;
    wants.take_needs(alloc, own)
}

/// What a method needs. Nothing is wanted before, nor after.
fn method_needs(
    alloc: Global,
    wants: &mut Wants<'_>,
    kept: &KeptByRules,
    own: u32,
    number: u32,
    method: &Method,
) -> M<Items<u32>>
    requires there { number < length wants.old.classes }
    requires before { wants.old ≡ wanting_nothing wants.old.classes }
    ensures needs { IfOk result (λ needs. needs ≡ needs_of wants.old.classes own
        (method_wants wants.old.classes number kept.now method.now)) }
    ensures after { OnOk result (wants.new ≡ wanting_nothing wants.old.classes) }
{
    want_of_method(alloc, wants, kept, number, method)?;
    wants.take_needs(alloc, own)
}
