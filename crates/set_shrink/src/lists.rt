// The lists that rules ask for.
ghost use Rattle.std.specs.Prelude.{◌≡◌, ◌++◌, [], IfOk, OnOk, length};
ghost use Rattle.std.specs.List.{cons_option};
ghost use Rattle.jv_base.specs.Outcome.{IsDue};
ghost use Rattle.class_pool.specs.Count.{item_count};
ghost use Rattle.set_shrink.specs.Lists.{lists_due, seeds_due, usage_due};

use class_pool::ClassSet;
use jv_base::{Bytes, Items, M, Or, Text};
use keep_match::seeds_of;
use keep_rules::Rules;
use list_texts::{TooLong, seeds_text, usage_text};
use mark_words::Marked;
use std::alloc::Global;
use tree_io::FileAt;

/// The greatest length of a text, in bytes.
pub(crate) const MAX_TEXT: usize = 67_108_864;

/// The lists that rules ask for, as files at the paths that they name: first what the rules keep of a set (ProGuard
/// manual, "-printseeds"), then what is dropped of it ("-printusage"), which is what isn't marked. There is a mark for
/// each item: each class of the set in its order, then its fields, then its methods. The error is that a list has more
/// than 67,108,864 bytes.
pub fn lists_of(
    alloc: Global,
    set: &ClassSet,
    marked: &Marked,
    rules: &Rules,
) -> Result<Items<FileAt>, Or<TooLong>>
    requires { length marked.now ≡ item_count set.now }
    ensures { IsDue result (lists_due set.now marked.now rules.now) }
{
    let mut lists = Items::new(alloc);
    push_list(&mut lists, seeds_list(alloc, set, rules)?)?;
    push_list(&mut lists, usage_list(alloc, set, marked, rules)?)?;
    Ok(lists)
}

/// Appends a list, if there is one.
fn push_list(lists: &mut Items<FileAt>, list: Option<FileAt>) -> M<()>
    ensures { OnOk result (lists.new ≡ lists.old ++ cons_option list []) }
{
    if let Some(list) = list {
        lists.push(list)?;
    }
    Ok(())
}

/// The list of what rules keep, if they ask for it.
fn seeds_list(alloc: Global, set: &ClassSet, rules: &Rules) -> Result<Option<FileAt>, Or<TooLong>>
    ensures { IsDue result (seeds_due set.now rules.now) }
{
    let Some(path) = &rules.seeds else {
        return Ok(None);
    };
    let seeds = seeds_of(alloc, rules, set)?;
    let text = seeds_text(alloc, set, &seeds, MAX_TEXT)?;
    Ok(Some(list_at(alloc, path, &text)?))
}

/// The list of what is dropped, if rules ask for it.
fn usage_list(
    alloc: Global,
    set: &ClassSet,
    marked: &Marked,
    rules: &Rules,
) -> Result<Option<FileAt>, Or<TooLong>>
    requires { length marked.now ≡ item_count set.now }
    ensures { IsDue result (usage_due set.now marked.now rules.now) }
{
    let Some(path) = &rules.usage else {
        return Ok(None);
    };
    let text = usage_text(alloc, set, marked.marks(), MAX_TEXT)?;
    Ok(Some(list_at(alloc, path, &text)?))
}

/// A file at a path that has a text.
fn list_at(alloc: Global, path: &Text, text: &Text) -> M<FileAt>
    ensures { IfOk result (λ file. file ≡ record { path = path.now; bytes = text.now }) }
{
    Ok(FileAt {
        path: path.clone()?,
        bytes: Bytes::from_vec(text.as_bytes().to_vec(alloc)?),
    })
}
