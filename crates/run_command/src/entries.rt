// The method that an entry names, and what a run of it begins with.
ghost use Rattle.std.specs.Prelude.{◌≡◌, IfOk, string_bytes};
ghost use Rattle.command_frame.specs.Steps.{Makes};
ghost use Rattle.run_command.specs.Due.{IsStart, no_entry, start_in, with_args};
ghost use Rattle.run_command.specs.Entries.{class_entry, class_front, entry_in, entry_of, is_entry_of, key_of};
ghost use Rattle.run_command.specs.Entries.{method_entry, method_spelled};

use crate::arguments::args_in;
use class_model::{Class, Method};
use class_pool::ClassSet;
use class_run::Arg;
use command_frame::{Reason, Refusal, Stop};
use jv_base::{Items, M, MethodType, Text, method_text};
use report_text::{name_text, push_types};
use run_heap::Key;
use set_program::is_startable;
use std::alloc::Global;
use text_lines::after;

/// A method with which a run may begin, and its type.
#[derive(Drop)]
pub struct Entry {
    pub key: Key,
    pub ty: MethodType,
}

/// What a run begins with: a method, and its arguments.
#[derive(Drop)]
pub struct Start {
    pub entry: Entry,
    pub args: Items<Arg>,
}

/// What a run of an entry of a set begins with, where these words are its arguments. Where there is no such method, or
/// the words are no arguments of it, the entry is refused.
pub fn start_of(
    alloc: Global,
    set: &ClassSet,
    entry: &Text,
    words: &Items<Text>,
) -> Result<Start, Stop>
    ensures { Makes result (IsStart set.now entry.now words.now) }
{
    match start_in(alloc, set, entry.as_str(), words.as_slice())? {
        Some(start) => Ok(start),
        None => Err(Stop::Refused(no_entry(entry.clone()?))),
    }
}

/// No method can be run as this entry.
pub fn no_entry(entry: Text) -> Refusal
    ensures { result ≡ no_entry entry }
{
    Refusal {
        reason: Reason::Entry,
        told: entry,
    }
}

fn start_in(alloc: Global, set: &ClassSet, text: &str, words: &[Text]) -> M<Option<Start>>
    ensures { IfOk result (λ start. start ≡ start_in set.now text.now words.now) }
{
    match entry_in(alloc, set, text)? {
        Some(entry) => with_args(alloc, entry, words),
        None => Ok(None),
    }
}

fn with_args(alloc: Global, entry: Entry, words: &[Text]) -> M<Option<Start>>
    ensures { IfOk result (λ start. start ≡ with_args words.now entry) }
{
    match args_in(alloc, entry.ty.args.as_slice(), words)? {
        Some(args) => Ok(Some(Start { entry, args })),
        None => Ok(None),
    }
}

/// The method of a set that a text `class.name(types)` names as an entry; of several, which differ in their result, it
/// is the first of its class.
pub fn entry_in(alloc: Global, set: &ClassSet, text: &str) -> M<Option<Entry>>
    ensures { IfOk result (λ entry. entry ≡ entry_in set.now text.now) }
{
    for number in 0..set.len() {
        let entry = class_entry(alloc, set, text, set.class(number))?;
        if entry.is_some() {
            return Ok(entry);
        }
    }
    Ok(None)
}

/// The method of a class that a text names so.
fn class_entry(alloc: Global, set: &ClassSet, text: &str, class: &Class) -> M<Option<Entry>>
    ensures { IfOk result (λ entry. entry ≡ class_entry set.now text.now class.now) }
{
    let front = class_front(alloc, class)?;
    match after(text, front.as_str()) {
        Some(spelled) => method_entry(alloc, set, class, class.methods.as_slice(), spelled),
        None => Ok(None),
    }
}

/// The name of a class and a dot.
fn class_front(alloc: Global, class: &Class) -> M<String>
    ensures { IfOk result (λ front. string_bytes front ≡ class_front class.now) }
{
    let name = name_text(alloc, &class.name)?;
    let name = name.as_str();
    Ok(format!(in alloc; "{name}.")?)
}

/// The first of these methods that is spelled so behind the name of its class, and with which a run may begin.
fn method_entry(
    alloc: Global,
    set: &ClassSet,
    class: &Class,
    methods: &[Method],
    spelled: &str,
) -> M<Option<Entry>>
    ensures { IfOk result (λ entry. entry ≡ method_entry set.now class.now methods.now spelled.now) }
{
    for method in methods {
        if is_entry_of(alloc, set, class, spelled, method)? {
            return Ok(Some(entry_of(alloc, class, method)?));
        }
    }
    Ok(None)
}

fn is_entry_of(
    alloc: Global,
    set: &ClassSet,
    class: &Class,
    spelled: &str,
    method: &Method,
) -> M<bool>
    ensures { IfOk result (λ is. is ≡ is_entry_of set.now class.now spelled.now method.now) }
{
    let text = method_spelled(alloc, method)?;
    if text.as_str() != spelled {
        return Ok(false);
    }
    let key = key_of(alloc, class, method)?;
    is_startable(alloc, set, &key)
}

/// The name of a method, and the types of its parameters.
fn method_spelled(alloc: Global, method: &Method) -> M<String>
    ensures { IfOk result (λ text. string_bytes text ≡ method_spelled method.now) }
{
    let mut types = String::new(alloc);
    push_types(alloc, &mut types, method.ty.args.as_slice())?;
    let (name, types) = (method.name.as_str(), types.as_str());
    Ok(format!(in alloc; "{name}({types})")?)
}

fn key_of(alloc: Global, class: &Class, method: &Method) -> M<Key>
    ensures { IfOk result (λ key. key ≡ key_of class.now method.now) }
{
    let descriptor = method_text(alloc, &method.ty)?;
    let name = method.name.clone()?;
    Ok(Key::new(class.name.clone()?, name, descriptor))
}

fn entry_of(alloc: Global, class: &Class, method: &Method) -> M<Entry>
    ensures { IfOk result (λ entry. entry ≡ entry_of class.now method.now) }
{
    let key = key_of(alloc, class, method)?;
    let ty = method.ty.clone()?;
    Ok(Entry { key, ty })
}
