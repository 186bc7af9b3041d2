// Which methods rules keep in any case.
ghost use Rattle.std.specs.Prelude.{◌≡◌, ◌+◌, ◌<◌, IfOk, Some, false, length, slice_get};
ghost use Rattle.std.specs.Option.{option_map_or};
ghost use Rattle.class_pool.specs.Count.{item_count};
ghost use Rattle.class_pool.specs.Found.{IsMember};
ghost use Rattle.class_pool.specs.Items.{class_item, item_of};
ghost use Rattle.class_pool.specs.declared.id.ClassId.TheVariants.{Prog};
ghost use Rattle.compare_command.specs.Seeds.{is_kept_item, is_seed};

use class_model::Class;
use class_pool::{ClassId, ClassSet, MemberAt};
use jv_base::M;
use keep_match::seeds_of;
use keep_rules::Rules;
use run_heap::Key;
use set_meanings::member_of;
use std::alloc::Global;

/// Whether rules keep a method in any case.
pub(crate) fn is_seed(alloc: Global, rules: &Rules, set: &ClassSet, key: &Key) -> M<bool>
    ensures { IfOk result (λ is. is ≡ is_seed rules.now set.now key.now) }
{
    if !rules.shrink {
        return Ok(true);
    }
    match member_of(set, key) {
        Some(m) => is_kept_member(alloc, rules, set, &m),
        None => Ok(false),
    }
}

/// Whether rules keep a member.
fn is_kept_member(alloc: Global, rules: &Rules, set: &ClassSet, m: &MemberAt) -> M<bool>
    requires { IsMember set.now m.now }
    ensures { IfOk result (λ is. is
        ≡ option_map_or (is_kept_item rules.now set.now) (item_of set.now m.now) false) }
{
    match item_of(set, *m) {
        Some(item) => is_kept_item(alloc, rules, set, item),
        None => Ok(false),
    }
}

fn is_kept_item(alloc: Global, rules: &Rules, set: &ClassSet, item: u32) -> M<bool>
    ensures { IfOk result (λ is. is ≡ is_kept_item rules.now set.now item) }
{
    let seeds = seeds_of(alloc, rules, set)?;
    Ok(seeds.iter().any(|n| *n == item))
}

// ---- items

/// The item of a member; one of the library is none.
fn item_of(set: &ClassSet, m: MemberAt) -> Option<u32>
    requires { IsMember set.now m }
    ensures { result ≡ item_of set.now m }
{
    match m.class {
        ClassId::Prog(number) => Some(member_item(set, number, m.index)),
        ClassId::Lib(_) => None,
    }
}

/// The item of a member of a class of the set, by its number there.
fn member_item(set: &ClassSet, number: u32, index: u32) -> u32
    requires { IsMember set.now (record { class = Prog number; index = index }) }
    ensures { result ≡ class_item set.now number + 1 + index }
{
    set.few_items();
    class_item(set, number) + 1 + index
}

/// The item of a class of the set: as many stand before it as the classes before it have.
fn class_item(set: &ClassSet, number: u32) -> u32
    requires { number < length set.now }
    ensures { result ≡ class_item set.now number }
{
    set.few_items();
    let mut item = 0;
    for before in 0..number {
        item = next_item(set, before, item, set.class(before));
    }
    item
}

/// The item of the class behind another one.
fn next_item(set: &ClassSet, number: u32, item: u32, class: &Class) -> u32
    requires items { item_count set.now < 4294967295 }
    requires there { slice_get set.now number ≡ Some class.now }
    requires few { length class.now.fields + length class.now.methods < 4294967295 }
    requires item { item ≡ class_item set.now number }
    ensures { result ≡ class_item set.now (number + 1) }
{
    let _count = set.len();
    item + 1 + (class.fields.len() + class.methods.len()) as u32
}
