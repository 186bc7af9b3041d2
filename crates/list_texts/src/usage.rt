// The list of what is dropped.
ghost use Rattle.std.specs.Prelude.{◌≡◌, ◌≤◌, ◌+◌, ◌<◌, ◌++◌, [], IfOk, OnOk, codes, length, slice_index_or};
ghost use Rattle.std.specs.Prelude.{string_bytes, if◌then◌else◌};
ghost use Rattle.jv_base.specs.Outcome.{Gives, IsDue};
ghost use Rattle.class_pool.specs.Count.{item_count, items_of};
ghost use Rattle.report_text.specs.Spelled.{class_text, member_texts};
ghost use Rattle.list_texts.specs.ItemTexts.{class_usage, dropped_lines, kept_class_lines, line, usage_text};
ghost use Rattle.list_texts.specs.ItemTexts.{up_to};
ghost use Rattle.list_texts.specs.bodies.Appends.{Appends};

use crate::items::count_of;
use crate::limit::{TooLong, check_length};
use class_model::Class;
use class_pool::ClassSet;
use jv_base::{Items, M, Or, Text};
use report_text::{class_text, member_text};
use std::alloc::Global;

/// A list of what is dropped where the marked items are kept: each class that isn't marked, and of each other one its
/// name and a colon before its members that aren't, each in a line behind four blanks (ProGuard manual, "-printusage").
/// A class without members that are dropped isn't named where it is marked. The error is that the list has more bytes
/// than the limit; then no more of it is made.
pub fn usage_text(
    alloc: Global,
    set: &ClassSet,
    marks: &Items<bool>,
    limit: usize,
) -> Result<Text, Or<TooLong>>
    requires { length marks.now ≡ item_count set.now }
    ensures { IsDue result (up_to limit (usage_text set.now marks.now)) }
{
    let text = usage_lines(alloc, set, marks.as_slice(), limit)?;
    Ok(Text::from_string(alloc, text)?)
}

fn usage_lines(
    alloc: Global,
    set: &ClassSet,
    marks: &[bool],
    limit: usize,
) -> Result<String, Or<TooLong>>
    requires { length marks.now ≡ item_count set.now }
    ensures { Gives string_bytes result (up_to limit (usage_text set.now marks.now)) }
{
    let mut text = String::new(alloc);
    let mut item = 0;
    for number in 0..set.len() {
        let class = set.class(number);
        push_class(alloc, &mut text, class, marks, item, limit)?;
        check_length(text.as_str(), limit)?;
        item += count_of(class) as usize;
    }
    Ok(text)
}

/// Appends what is dropped of a class, which has this item.
fn push_class(
    alloc: Global,
    out: &mut String,
    class: &Class,
    marks: &[bool],
    item: usize,
    limit: usize,
) -> Result<(), Or<TooLong>>
    requires few { length class.now.fields + length class.now.methods < 4294967295 }
    requires within { item + items_of class.now ≤ length marks.now }
    ensures { Appends result limit (string_bytes out.old) (class_usage marks.now item class.now)
        (string_bytes out.new) }
{
    if marks[item] {
        push_kept_class(alloc, out, class, marks, item + 1, limit)
    } else {
        push_class_line(alloc, out, class, "\n")?;
        Ok(())
    }
}

/// Appends the name of a class, and behind it how its line ends.
fn push_class_line(alloc: Global, out: &mut String, class: &Class, end: &str) -> M<()>
    ensures { OnOk result (string_bytes out.new ≡ string_bytes out.old ++ (class_text class.now ++ end.now)) }
{
    out.push_str(class_text(alloc, class)?.as_str())?;
    out.push_str(end)?;
    Ok(())
}

/// Appends a class before its members that are dropped, if there are any; the first member has this item.
fn push_kept_class(
    alloc: Global,
    out: &mut String,
    class: &Class,
    marks: &[bool],
    first: usize,
    limit: usize,
) -> Result<(), Or<TooLong>>
    requires few { length class.now.fields + length class.now.methods < 4294967295 }
    requires within { first + length class.now.fields + length class.now.methods ≤ length marks.now }
    ensures { Appends result limit (string_bytes out.old)
        (kept_class_lines class.now (dropped_lines marks.now first class.now)) (string_bytes out.new) }
{
    let lines = lines_dropped(alloc, class, marks, first, limit)?;
    push_below(alloc, out, class, lines.as_str())?;
    Ok(())
}

/// Appends a class before lines, if there are any.
fn push_below(alloc: Global, out: &mut String, class: &Class, lines: &str) -> M<()>
    ensures { OnOk result (string_bytes out.new ≡ string_bytes out.old ++ kept_class_lines class.now lines.now) }
{
    if lines.is_empty() {
        return Ok(());
    }
    push_class_line(alloc, out, class, ":\n")?;
    out.push_str(lines)?;
    Ok(())
}

/// A line for each member that isn't marked; the first one has this item.
fn lines_dropped(
    alloc: Global,
    class: &Class,
    marks: &[bool],
    first: usize,
    limit: usize,
) -> Result<String, Or<TooLong>>
    requires few { length class.now.fields + length class.now.methods < 4294967295 }
    requires within { first + length class.now.fields + length class.now.methods ≤ length marks.now }
    ensures { Gives string_bytes result (up_to limit (dropped_lines marks.now first class.now)) }
{
    let mut lines = String::new(alloc);
    for member in 0..class.fields.len() + class.methods.len() {
        let marked = marks[first + member];
        push_dropped_line(alloc, &mut lines, class, member as u32, marked)?;
        check_length(lines.as_str(), limit)?;
    }
    Ok(lines)
}

/// Appends a line for a member, unless it is marked.
fn push_dropped_line(
    alloc: Global,
    out: &mut String,
    class: &Class,
    member: u32,
    marked: bool,
) -> M<()>
    requires { member < length class.now.fields + length class.now.methods }
    ensures { OnOk result (string_bytes out.new ≡ string_bytes out.old ++ (if marked then []
        else line (codes "    " ++ slice_index_or (member_texts class.now) member []))) }
{
    if marked {
        return Ok(());
    }
    out.push_str("    ")?;
    out.push_str(member_text(alloc, class, member)?.as_str())?;
    out.push_str("\n")?;
    Ok(())
}
