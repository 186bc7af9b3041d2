// The list of what rules keep.
ghost use Rattle.std.specs.Prelude.{◌≡◌, ◌≤◌, ◌+◌, ◌<◌, ◌++◌, [], IfOk, OnOk, length, map, slice_index_or};
ghost use Rattle.std.specs.Prelude.{string_bytes, if◌then◌else◌};
ghost use Rattle.std.specs.List.{All, enumerate_from, flat_map};
ghost use Rattle.jv_base.specs.Outcome.{Gives, IsDue};
ghost use Rattle.mark_core.specs.Marks.{set_of};
ghost use Rattle.class_pool.specs.Count.{item_count, items_of};
ghost use Rattle.list_texts.specs.ItemTexts.{item_texts, item_texts_of, line, line_if, member_text_of, seeds_text};
ghost use Rattle.list_texts.specs.ItemTexts.{up_to};
ghost use Rattle.list_texts.specs.bodies.Appends.{Appends};
ghost use Rattle.report_text.specs.Spelled.{class_text, member_texts};
ghost use Rattle.list_texts.specs.bodies.Places.{AreMarksOf};

use crate::items::{count_of, push_member};
use crate::limit::{TooLong, check_length};
use class_model::Class;
use class_pool::ClassSet;
use jv_base::{Items, M, Or, Text};
use report_text::class_text;
use std::alloc::Global;

/// A list of seeds: for each of these items a line, in the order of the set, which has the name of a class, or behind
/// it `: ` and a member (ProGuard manual, "-printseeds"). The error is that the list has more bytes than the limit;
/// then no more of it is made.
pub fn seeds_text(
    alloc: Global,
    set: &ClassSet,
    seeds: &Items<u32>,
    limit: usize,
) -> Result<Text, Or<TooLong>>
    requires { All (λ x. x < item_count set.now) seeds.now }
    ensures { IsDue result (up_to limit (seeds_text set.now seeds.now)) }
{
    let marks = marks_of(alloc, set, seeds.as_slice())?;
    let text = marked_lines(alloc, set, marks.as_slice(), limit)?;
    Ok(Text::from_string(alloc, text)?)
}

/// For each item whether it is one of these.
fn marks_of(alloc: Global, set: &ClassSet, items: &[u32]) -> M<Vec<bool>>
    requires { All (λ x. x < item_count set.now) items.now }
    ensures { IfOk result (λ marks. AreMarksOf set.now items.now marks.items) }
{
    let mut marks = vec![in alloc; false; item_count(set) as usize]?;
    for item in items {
        marks[*item as usize] = true;
    }
    Ok(marks)
}

/// How many items a set has.
fn item_count(set: &ClassSet) -> u32
    ensures { result ≡ item_count set.now }
{
    set.few_items();
    let mut count = 0;
    for number in 0..set.len() {
        count += count_of(set.class(number));
    }
    count
}

/// A line for each item that is marked.
fn marked_lines(
    alloc: Global,
    set: &ClassSet,
    marks: &[bool],
    limit: usize,
) -> Result<String, Or<TooLong>>
    requires { length marks.now ≡ item_count set.now }
    ensures { Gives string_bytes result (up_to limit
        (flat_map (line_if (set_of marks.now)) (enumerate_from 0 (item_texts set.now)))) }
{
    let mut text = String::new(alloc);
    let mut item = 0;
    for number in 0..set.len() {
        let class = set.class(number);
        push_class(alloc, &mut text, class, marks, item, limit)?;
        check_length(text.as_str(), limit)?;
        item += count_of(class) as usize;
    }
    Ok(text)
}

/// Appends a line for the class, whose item is given, and for each of its members, where they are marked.
fn push_class(
    alloc: Global,
    out: &mut String,
    class: &Class,
    marks: &[bool],
    item: usize,
    limit: usize,
) -> Result<(), Or<TooLong>>
    requires few { length class.now.fields + length class.now.methods < 4294967295 }
    requires within { item + items_of class.now ≤ length marks.now }
    ensures { Appends result limit (string_bytes out.old)
        (flat_map (line_if (set_of marks.now)) (enumerate_from item (item_texts_of class.now))) (string_bytes out.new) }
{
    push_name(alloc, out, class, marks[item])?;
    push_members(alloc, out, class, marks, item + 1, limit)
}

/// Appends a line for the class, where it is marked.
fn push_name(alloc: Global, out: &mut String, class: &Class, marked: bool) -> M<()>
    ensures { OnOk result (string_bytes out.new
        ≡ string_bytes out.old ++ (if marked then line (class_text class.now) else [])) }
{
    if !marked {
        return Ok(());
    }
    out.push_str(class_text(alloc, class)?.as_str())?;
    out.push_str("\n")?;
    Ok(())
}

/// Appends a line for each member that is marked; the first one has this item.
fn push_members(
    alloc: Global,
    out: &mut String,
    class: &Class,
    marks: &[bool],
    first: usize,
    limit: usize,
) -> Result<(), Or<TooLong>>
    requires few { length class.now.fields + length class.now.methods < 4294967295 }
    requires within { first + length class.now.fields + length class.now.methods ≤ length marks.now }
    ensures { Appends result limit (string_bytes out.old) (flat_map (line_if (set_of marks.now))
        (enumerate_from first (map (member_text_of class.now) (member_texts class.now)))) (string_bytes out.new) }
{
    for member in 0..class.fields.len() + class.methods.len() {
        let marked = marks[first + member];
        push_member_line(alloc, out, class, member as u32, marked)?;
        check_length(out.as_str(), limit)?;
    }
    Ok(())
}

/// Appends a line for a member, where it is marked.
fn push_member_line(
    alloc: Global,
    out: &mut String,
    class: &Class,
    member: u32,
    marked: bool,
) -> M<()>
    requires { member < length class.now.fields + length class.now.methods }
    ensures { OnOk result (string_bytes out.new ≡ string_bytes out.old ++ (if marked
        then line (member_text_of class.now (slice_index_or (member_texts class.now) member [])) else [])) }
{
    if !marked {
        return Ok(());
    }
    push_member(alloc, out, class, member)?;
    out.push_str("\n")?;
    Ok(())
}
