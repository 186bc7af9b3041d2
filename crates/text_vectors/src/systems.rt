// Systems of requirements: by what their items are kept, and whether levels are certified.
use jv_base::{Items, M, Text};
use line_answers::{first_word, push_escaped, unescaped_text};
use mark_core::{Pair, System, valid};
use std::alloc::Global;
use text_lines::number_below;
use why_kept::{By, Reasons, WhyStep, levels_ok, why};

/// `ITEM SYSTEM`: the least depth of each item, each a line, and the steps by which the item is kept.
pub(crate) fn why_row(alloc: Global, texts: &[u8]) -> M<Option<Text>> {
    let (item, rest) = first_word(texts);
    let Some(sys) = system_in(alloc, rest)? else {
        return Ok(None);
    };
    match numbers_in(alloc, item)? {
        Some(items) => why_answer(alloc, &sys, items.as_slice()),
        None => Ok(None),
    }
}

fn why_answer(alloc: Global, sys: &System, items: &[u32]) -> M<Option<Text>> {
    let [item] = items else {
        return Ok(None);
    };
    if !valid(sys) || *item >= sys.n {
        return Ok(None);
    }
    let reasons = why(alloc, sys, *item)?;
    Ok(Some(reasons_text(alloc, &reasons)?))
}

/// `LEVELS SYSTEM`: whether the levels, each a line, are certified.
pub(crate) fn levels_row(alloc: Global, texts: &[u8]) -> M<Option<Text>> {
    let (levels, rest) = first_word(texts);
    let Some(sys) = system_in(alloc, rest)? else {
        return Ok(None);
    };
    match numbers_in(alloc, levels)? {
        Some(levels) => levels_answer(alloc, &sys, &levels),
        None => Ok(None),
    }
}

fn levels_answer(alloc: Global, sys: &System, levels: &Items<u32>) -> M<Option<Text>> {
    if !valid(sys) {
        return Ok(None);
    }
    let answer = if levels_ok(sys, levels) { "yes" } else { "no" };
    Ok(Some(Text::from_str(alloc, answer)?))
}

// ---- what is asked

// The numbers that a text has, each a line.
fn numbers_in(alloc: Global, text: &[u8]) -> M<Option<Items<u32>>> {
    match unescaped_text(alloc, text)? {
        Some(text) => split_numbers(alloc, text.as_str(), '\n'),
        None => Ok(None),
    }
}

fn split_numbers(alloc: Global, text: &str, between: char) -> M<Option<Items<u32>>> {
    let mut numbers = Items::new(alloc);
    for word in text.split(between) {
        if word.is_empty() {
            continue;
        }
        match number_below(word, u32::MAX) {
            Some(number) => numbers.push(number)?,
            None => return Ok(None),
        }
    }
    Ok(Some(numbers))
}

// The system of a text: a line `n N`, then one of `seeds` with the seeds, then lines `need X` with what X needs, and
// lines `pair ONE TWO DERIVED`.
fn system_in(alloc: Global, text: &[u8]) -> M<Option<System>> {
    let Some(text) = unescaped_text(alloc, text)? else {
        return Ok(None);
    };
    let mut draft = Draft {
        n: 0,
        seeds: Items::new(alloc),
        needs: Vec::new(alloc),
        pairs: Items::new(alloc),
    };
    for line in text.as_str().split('\n') {
        if !draft.take(alloc, line)? {
            return Ok(None);
        }
    }
    Ok(Some(System {
        n: draft.n,
        seeds: draft.seeds,
        needs: Items::from_vec(draft.needs),
        pairs: draft.pairs,
    }))
}

// A system of which some lines were read.
#[derive(Drop)]
struct Draft {
    n: u32,
    seeds: Items<u32>,
    needs: Vec<Items<u32>>,
    pairs: Items<Pair>,
}

impl Draft {
    // Takes a line, where it has a form.
    fn take(&mut self, alloc: Global, line: &str) -> M<bool> {
        if line.is_empty() {
            return Ok(true);
        }
        let Some((word, rest)) = parts_of(line) else {
            return Ok(false);
        };
        match split_numbers(alloc, rest, ' ')? {
            Some(numbers) => self.take_numbers(alloc, word, numbers),
            None => Ok(false),
        }
    }

    fn take_numbers(&mut self, alloc: Global, word: Word, numbers: Items<u32>) -> M<bool> {
        match (word, numbers.as_slice()) {
            (Word::Count, [count]) => self.take_count(alloc, *count),
            (Word::Seeds, _) => {
                self.seeds = numbers;
                Ok(true)
            }
            (Word::Need, [item, needs @ ..]) => self.take_needs(*item, needs),
            (Word::Pair, [one, two, derived]) => {
                self.pairs.push(Pair {
                    one: *one,
                    two: *two,
                    derived: *derived,
                })?;
                Ok(true)
            }
            _ => Ok(false),
        }
    }

    fn take_count(&mut self, alloc: Global, count: u32) -> M<bool> {
        self.n = count;
        for _ in 0..count {
            self.needs.push(Items::new(alloc))?;
        }
        Ok(true)
    }

    fn take_needs(&mut self, item: u32, needs: &[u32]) -> M<bool> {
        let Some(list) = self.needs.get_mut(item as usize) else {
            return Ok(false);
        };
        for need in needs {
            list.push(*need)?;
        }
        Ok(true)
    }
}

// What a line of a system tells.
#[derive(Clone, Copy)]
enum Word {
    Count,
    Seeds,
    Need,
    Pair,
}

fn parts_of(line: &str) -> Option<(Word, &str)> {
    if let Some(rest) = line.strip_prefix("n ") {
        return Some((Word::Count, rest));
    }
    if let Some(rest) = line.strip_prefix("seeds") {
        return Some((Word::Seeds, rest));
    }
    if let Some(rest) = line.strip_prefix("need ") {
        return Some((Word::Need, rest));
    }
    match line.strip_prefix("pair ") {
        Some(rest) => Some((Word::Pair, rest)),
        None => None,
    }
}

// ---- what is answered

fn reasons_text(alloc: Global, reasons: &Reasons) -> M<Text> {
    let levels = levels_text(alloc, reasons.levels.as_slice())?;
    let steps = steps_text(alloc, reasons.steps.as_slice())?;
    let mut line = String::new(alloc);
    push_escaped(&mut line, levels.as_bytes())?;
    line.push(' ')?;
    push_escaped(&mut line, steps.as_bytes())?;
    Ok(Text::from_string(alloc, line)?)
}

fn levels_text(alloc: Global, levels: &[u32]) -> M<String> {
    let mut text = String::new(alloc);
    for level in levels {
        let level = *level;
        text.push_str(&format!(in alloc; "{level}\n")?)?;
    }
    Ok(text)
}

fn steps_text(alloc: Global, steps: &[WhyStep]) -> M<String> {
    let mut text = String::new(alloc);
    for step in steps {
        text.push_str(&step_line(alloc, *step)?)?;
    }
    Ok(text)
}

fn step_line(alloc: Global, step: WhyStep) -> M<String> {
    let id = step.id;
    Ok(match step.by {
        By::Seed => format!(in alloc; "{id} seed\n")?,
        By::Need(by) => format!(in alloc; "{id} need {by}\n")?,
        By::Pair(one, two) => format!(in alloc; "{id} pair {one} {two}\n")?,
    })
}
