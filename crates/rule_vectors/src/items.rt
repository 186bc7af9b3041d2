// The items of a set that are asked for, in words.
ghost use Rattle.std.specs.Prelude.{◌≡◌, ◌+◌, ◌<◌, Some, length, slice_get};
ghost use Rattle.class_model.specs.declared.class.Class.{Class};

use class_pool::ClassSet;
use jv_base::{M, Text};
use keep_match::{class_matches, member_matches};
use keep_rules::{ClassSpec, MemberSpec};
use line_answers::push_escaped;
use report_text::{class_text, member_text};
use std::alloc::Global;

/// Which items of a set are asked for.
#[derive(Clone, Copy)]
pub enum Question<'a> {
    /// The classes that a specification matches.
    Class(&'a ClassSpec),
    /// The members that a specification matches, whatever their class is.
    Member(&'a MemberSpec),
    /// The items of these numbers, which ascend.
    Seeds(&'a [u32]),
}

/// The items of a set that are asked for, in their order with a blank between each two; `-` where there is none.
pub fn items_text(alloc: Global, set: &ClassSet, question: &Question) -> M<Option<Text>> {
    let mut text = String::new(alloc);
    let mut item = 0u64;
    for number in 0..set.len() {
        push_items(alloc, &mut text, set, number, item, question)?;
        let class = set.class(number);
        item = item.saturating_add(1 + class.fields.len() as u64 + class.methods.len() as u64);
    }
    if text.is_empty() {
        text.push_str("-")?;
    }
    Ok(Some(Text::from_string(alloc, text)?))
}

// Appends what is asked for of a class and its members, the class being this item.
fn push_items(
    alloc: Global,
    text: &mut String,
    set: &ClassSet,
    number: u32,
    item: u64,
    question: &Question,
) -> M<()>
    requires { number < length set.now }
{
    let class = set.class(number);
    if is_class_asked(question, set, number, item)? {
        push_item(text, class_text(alloc, class)?.as_str())?;
    }
    for member in 0..class.fields.len() + class.methods.len() {
        let place = member as u32;
        if is_member_asked(question, set, number, place, item)? {
            push_member(alloc, text, set, number, place)?;
        }
    }
    Ok(())
}

fn is_class_asked(question: &Question, set: &ClassSet, number: u32, item: u64) -> M<bool>
    requires { number < length set.now }
{
    match question {
        Question::Class(spec) => class_matches(spec, set, number),
        Question::Member(_) => Ok(false),
        Question::Seeds(seeds) => Ok(has_item(seeds, item)),
    }
}

fn is_member_asked(
    question: &Question,
    set: &ClassSet,
    number: u32,
    member: u32,
    item: u64,
) -> M<bool>
    requires class { number < length set.now }
    requires member { (c : Class) → slice_get set.now number ≡ Some c → member < length c.fields + length c.methods }
{
    match question {
        Question::Class(_) => Ok(false),
        Question::Member(spec) => member_matches(spec, set, number, member),
        Question::Seeds(seeds) => Ok(has_item(seeds, item.saturating_add(1 + u64::from(member)))),
    }
}

fn has_item(items: &[u32], item: u64) -> bool {
    match u32::try_from(item) {
        Ok(item) => items.binary_search(&item).is_ok(),
        Err(_) => false,
    }
}

// Appends the class and the member, as `demo.Main: int x`.
fn push_member(alloc: Global, text: &mut String, set: &ClassSet, number: u32, member: u32) -> M<()>
    requires class { number < length set.now }
    requires member { (c : Class) → slice_get set.now number ≡ Some c → member < length c.fields + length c.methods }
{
    let class = set.class(number);
    let (of, name) = (
        class_text(alloc, class)?,
        member_text(alloc, class, member)?,
    );
    let (of, name) = (of.as_str(), name.as_str());
    push_item(text, format!(in alloc; "{of}: {name}")?.as_str())
}

// Appends an item, behind a blank where one stands before it.
fn push_item(text: &mut String, item: &str) -> M<()> {
    if !text.is_empty() {
        text.push_str(" ")?;
    }
    push_escaped(text, item.as_bytes())?;
    Ok(())
}
