// The texts of all items of a set.
ghost use Rattle.std.specs.Prelude.{◌≡◌, ◌+◌, ◌<◌, ◌++◌, IfOk, OnOk, [], length, map, slice_index_or};
ghost use Rattle.report_text.specs.Spelled.{class_text, member_texts};
ghost use Rattle.list_texts.specs.ItemTexts.{item_texts, item_texts_of, member_text_of};

use class_model::Class;
use class_pool::ClassSet;
use jv_base::{Items, M, Text};
use report_text::{class_text, member_text};
use std::alloc::Global;

/// The text of each item of a set, as a list of seeds has it (ProGuard manual, "-printseeds").
pub(crate) fn item_texts(alloc: Global, set: &ClassSet) -> M<Items<Text>>
    ensures { IfOk result (λ texts. texts ≡ item_texts set.now) }
{
    let mut texts = Items::new(alloc);
    for number in 0..set.len() {
        push_items(alloc, &mut texts, set.class(number))?;
    }
    Ok(texts)
}

/// Appends the texts of a class and of its members.
fn push_items(alloc: Global, texts: &mut Items<Text>, class: &Class) -> M<()>
    requires { length class.now.fields + length class.now.methods < 4294967295 }
    ensures { OnOk result (texts.new ≡ texts.old ++ item_texts_of class.now) }
{
    let name = class_text(alloc, class)?;
    texts.push(name.clone()?)?;
    push_members(alloc, texts, &name, class)
}

/// Appends the texts of the members of a class that has this name.
fn push_members(alloc: Global, texts: &mut Items<Text>, name: &Text, class: &Class) -> M<()>
    requires few { length class.now.fields + length class.now.methods < 4294967295 }
    requires name { name.now ≡ class_text class.now }
    ensures { OnOk result (texts.new ≡ texts.old ++ map (member_text_of class.now) (member_texts class.now)) }
{
    for member in 0..class.fields.len() + class.methods.len() {
        texts.push(member_item(alloc, name, class, member as u32)?)?;
    }
    Ok(())
}

/// The text of a member behind the name of its class.
fn member_item(alloc: Global, name: &Text, class: &Class, member: u32) -> M<Text>
    requires there { member < length class.now.fields + length class.now.methods }
    requires name { name.now ≡ class_text class.now }
    ensures { IfOk result (λ text. text
        ≡ member_text_of class.now (slice_index_or (member_texts class.now) member [])) }
{
    let member = member_text(alloc, class, member)?;
    let (name, member) = (name.as_str(), member.as_str());
    Ok(Text::from_string(alloc, format!(in alloc; "{name}: {member}")?)?)
}
