// What the rules of a config are.
use crate::printing::{fault_text, rules_text};
use conf_words::{WordFault, words};
use jv_base::{M, Or, OutOfMemory, Text};
use keep_rules::{RuleFault, RuleKind, Rules, read_rules};
use line_answers::unescaped;
use std::alloc::Global;

/// The answer to a config, whose witness goes to `wit.txt`; none where the text isn't well formed.
pub fn answer(alloc: Global, text: &[u8]) -> M<Option<Text>> {
    match unescaped(alloc, text)? {
        Some(bytes) => Ok(Some(config_text(alloc, bytes.as_slice())?)),
        None => Ok(None),
    }
}

fn config_text(alloc: Global, bytes: &[u8]) -> M<Text> {
    match rules_of(alloc, bytes) {
        Ok(rules) => text_of_rules(alloc, &rules),
        Err(Or::Fault(fault)) => text_of_fault(alloc, &fault),
        Err(Or::OutOfMemory) => Err(OutOfMemory),
    }
}

fn text_of_rules(alloc: Global, rules: &Rules) -> M<Text> {
    Ok(Text::from_string(alloc, rules_text(alloc, rules)?)?)
}

fn text_of_fault(alloc: Global, fault: &RuleFault) -> M<Text> {
    Ok(Text::from_string(alloc, fault_text(alloc, fault)?)?)
}

/// The rules of a config, whose witness goes to `wit.txt`, or its first fault.
pub fn rules_of(alloc: Global, bytes: &[u8]) -> Result<Rules, Or<RuleFault>> {
    if bytes.len() >= u32::MAX as usize {
        return Err(Or::OutOfMemory);
    }
    let words = match words(alloc, bytes) {
        Ok(words) => words,
        Err(Or::Fault(fault)) => return Err(Or::Fault(of_words(fault))),
        Err(Or::OutOfMemory) => return Err(Or::OutOfMemory),
    };
    let witness = Text::from_str(alloc, "wit.txt")?;
    read_rules(alloc, &words, &witness)
}

fn of_words(fault: WordFault) -> RuleFault {
    match fault {
        WordFault::NotUtf8(_) => RuleFault {
            line: 0,
            kind: RuleKind::NotUtf8,
        },
        WordFault::QuoteOpen(line) => RuleFault {
            line,
            kind: RuleKind::QuoteOpen,
        },
    }
}
