// What patterns match, and specifications and rules in a set of class files.
use crate::config::rules_of;
use crate::items::{Question, items_text};
use class_pool::ClassSet;
use jv_base::{M, Or, OutOfMemory, Text};
use keep_match::{seeds_of, wild};
use keep_rules::{Keep, Rules};
use line_answers::{first_word, unescaped, unescaped_text};
use line_sets::{files_of, set_of};
use std::alloc::Global;

/// The options before the keep options that are asked about.
const BEFORE_KEEPS: &str = "-injars in -outjars out -printmapping map.txt ";

/// `yes` where a pattern matches a text, else `no`; none where one of the two isn't well formed.
pub fn wild_answer(alloc: Global, words: &[u8]) -> M<Option<Text>> {
    let (pattern, text) = first_word(words);
    let Some(pattern) = unescaped_text(alloc, pattern)? else {
        return Ok(None);
    };
    let Some(text) = unescaped_text(alloc, text)? else {
        return Ok(None);
    };
    let answer = if wild(&pattern, &text) { "yes" } else { "no" };
    Ok(Some(Text::from_str(alloc, answer)?))
}

/// What is asked of the rules of a config and of a set.
#[derive(Clone, Copy)]
enum Asked {
    /// The classes that the specification of the one rule matches.
    Classes,
    /// The members that the one member specification of the one rule matches.
    Members,
    /// What the rules keep.
    Seeds,
}

/// The classes of a set that a class specification matches.
pub fn class_answer(alloc: Global, words: &[u8]) -> M<Option<Text>> {
    answer(alloc, b"-keep ", words, Asked::Classes)
}

/// The members of all classes of a set that the one member specification of a class specification matches.
pub fn member_answer(alloc: Global, words: &[u8]) -> M<Option<Text>> {
    answer(alloc, b"-keep ", words, Asked::Members)
}

/// The items of a set that rules keep.
pub fn seeds_answer(alloc: Global, words: &[u8]) -> M<Option<Text>> {
    answer(alloc, b"", words, Asked::Seeds)
}

// What is asked of the rules that the first word is the end of, behind `before`, and of the set of the files behind it;
// none where one of them isn't well formed.
fn answer(alloc: Global, before: &[u8], words: &[u8], asked: Asked) -> M<Option<Text>> {
    let (text, files) = first_word(words);
    match config_behind(alloc, before, text)? {
        Some(config) => answer_of_config(alloc, config.as_slice(), files, asked),
        None => Ok(None),
    }
}

fn config_behind(alloc: Global, before: &[u8], text: &[u8]) -> M<Option<Vec<u8>>> {
    match unescaped(alloc, text)? {
        Some(text) => Ok(Some(joined(alloc, before, text.as_slice())?)),
        None => Ok(None),
    }
}

fn joined(alloc: Global, before: &[u8], text: &[u8]) -> M<Vec<u8>> {
    let mut config = Vec::new(alloc);
    config.extend_from_slice(BEFORE_KEEPS.as_bytes())?;
    config.extend_from_slice(before)?;
    config.extend_from_slice(text)?;
    Ok(config)
}

fn answer_of_config(alloc: Global, config: &[u8], files: &[u8], asked: Asked) -> M<Option<Text>> {
    match rules_of(alloc, config) {
        Ok(rules) => answer_of_rules(alloc, &rules, files, asked),
        Err(Or::Fault(_)) => Ok(None),
        Err(Or::OutOfMemory) => Err(OutOfMemory),
    }
}

fn answer_of_rules(alloc: Global, rules: &Rules, files: &[u8], asked: Asked) -> M<Option<Text>> {
    match set_in(alloc, files)? {
        Some(set) => answer_of_set(alloc, rules, &set, asked),
        None => Ok(None),
    }
}

fn answer_of_set(alloc: Global, rules: &Rules, set: &ClassSet, asked: Asked) -> M<Option<Text>> {
    match (asked, rules.keeps.as_slice()) {
        (Asked::Classes, [keep]) => items_text(alloc, set, &Question::Class(&keep.spec)),
        (Asked::Members, [keep]) => member_items(alloc, set, keep),
        (Asked::Seeds, _) => seed_items(alloc, rules, set),
        _ => Ok(None),
    }
}

fn member_items(alloc: Global, set: &ClassSet, keep: &Keep) -> M<Option<Text>> {
    match keep.spec.members.as_slice() {
        [spec] => items_text(alloc, set, &Question::Member(spec)),
        _ => Ok(None),
    }
}

fn seed_items(alloc: Global, rules: &Rules, set: &ClassSet) -> M<Option<Text>> {
    let seeds = seeds_of(alloc, rules, set)?;
    items_text(alloc, set, &Question::Seeds(seeds.as_slice()))
}

fn set_in(alloc: Global, words: &[u8]) -> M<Option<ClassSet>> {
    match files_of(alloc, words)? {
        Some(files) => set_of(alloc, files),
        None => Ok(None),
    }
}
