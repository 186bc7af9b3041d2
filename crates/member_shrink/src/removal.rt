// The classes and the members that are kept, without the rest.
ghost use Rattle.std.specs.Prelude.{◌≡◌, ◌≤◌, ◌+◌, [], ◌∷◌, ◌++◌, if◌then◌else◌, OnOk, IfOk, length};
ghost use Rattle.class_pool.specs.Count.{item_count, items_of};
ghost use Rattle.member_shrink.specs.Shrunk.{is_marked, chosen, with_marked_members, shrunk};

use class_model::Class;
use jv_base::{Items, M};
use mark_words::Marked;
use std::alloc::Global;
use std::mem;

/// The classes whose items are marked, in their order, each with its marked fields and its marked
/// methods in their order (ProGuard manual, "Usage": what isn't kept is removed). Items are
/// numbered from 0: each class is followed by its fields, then by its methods, then by the next
/// class. The marks are those of a closed table. What is kept is moved, so no code is copied.
pub fn shrunk(alloc: Global, classes: Items<Class>, marked: &Marked) -> M<Items<Class>>
    requires { length marked.now ≡ item_count classes }
    ensures { IfOk result (λ kept. kept ≡ shrunk classes marked.now) }
{
    let marks = marked.marks().as_slice();
    let mut kept = Items::new(alloc);
    let mut item = 0usize;
    for class in classes.into_vec() {
        let behind = item + 1 + class.fields.len() + class.methods.len();
        keep_class(alloc, &mut kept, class, marks, item)?;
        item = behind;
    }
    Ok(kept)
}

/// Keeps a class with its marked members, if its item is marked.
fn keep_class(
    alloc: Global,
    kept: &mut Items<Class>,
    class: Class,
    marks: &[bool],
    item: usize,
) -> M<()>
    requires { item + items_of class ≤ length marks.now }
    ensures { OnOk result (kept.new ≡ (if is_marked marks.now item then kept.old
        ++ with_marked_members marks.now item class ∷ [] else kept.old)) }
{
    if marks[item] {
        kept.push(with_marked_members(alloc, class, marks, item)?)?;
    }
    Ok(())
}

/// The class, whose item is given, with its marked members.
fn with_marked_members(alloc: Global, class: Class, marks: &[bool], item: usize) -> M<Class>
    requires { item + items_of class ≤ length marks.now }
    ensures { IfOk result (λ left. left ≡ with_marked_members marks.now item class) }
{
    let first_field = item + 1;
    let first_method = first_field + class.fields.len();
    let mut class = class;
    let fields = mem::replace(&mut class.fields, Items::new(alloc));
    class.fields = chosen(alloc, fields, marks, first_field)?;
    let methods = mem::replace(&mut class.methods, Items::new(alloc));
    class.methods = chosen(alloc, methods, marks, first_method)?;
    Ok(class)
}

/// Of elements whose items follow one another from the first on, those that are marked.
fn chosen<T: Drop>(alloc: Global, elements: Items<T>, marks: &[bool], first: usize) -> M<Items<T>>
    requires { first + length elements ≤ length marks.now }
    ensures { IfOk result (λ kept. kept ≡ chosen marks.now first elements) }
{
    let mut kept = Items::new(alloc);
    let mut item = first;
    for element in elements.into_vec() {
        let marked = marks[item];
        keep(&mut kept, element, marked)?;
        item += 1;
    }
    Ok(kept)
}

/// Keeps an element, if it is marked.
fn keep<T: Drop>(kept: &mut Items<T>, element: T, marked: bool) -> M<()>
    ensures { OnOk result (kept.new ≡ (if marked then kept.old ++ element ∷ [] else kept.old)) }
{
    if marked {
        kept.push(element)?;
    }
    Ok(())
}
