// What the words of a command line ask for.
ghost use Rattle.std.specs.Prelude.{◌≡◌, ◌≢◌, None, IfOk, OnOk, codes, map, option_map};
ghost use Rattle.clap.specs.Words.{all_of, found_of, kind_of, rows_of};
ghost use Rattle.command_words.specs.Words.{both_files, check_asked, command_named, commanded, compare_asked};
ghost use Rattle.command_words.specs.Words.{entry_in, gen_asked, gen_number, retrace_asked, run_asked, said_in};
ghost use Rattle.command_words.specs.Words.{shrink_asked, steps_in, two_asked, two_named, why_asked, workers_in};
ghost use Rattle.command_words.specs.bodies.Reads.{ReadsWords};
ghost use Rattle.path_text.specs.Path.{file_in};

use crate::Command;
use crate::arguments::command_line;
use crate::entries::is_entry;
use clap::error::ErrorKind;
use clap::{ArgMatches, Error};
use jv_base::{Items, M, OutOfMemory, Text};
use path_text::{directory_in, file_in};
use std::alloc::Global;
use text_lines::number_below;

/// The command that words ask for, none where they ask for none. They are the words behind the program's name: the
/// name of a command and its operands, and anywhere `--workers N` with N from 1 to 64.
pub fn read_command(alloc: Global, words: &Items<Text>) -> M<Option<Command>>
    ensures { IfOk result (λ command. command ≡ commanded words.now) }
{
    let texts = texts_of(alloc, words.as_slice())?;
    match matches_in(alloc, texts.as_slice())? {
        Some(matches) => said_in(alloc, &matches),
        None => Ok(None),
    }
}

pub(crate) fn texts_of(alloc: Global, words: &[Text]) -> M<Vec<&str>>
    ensures { IfOk result (λ texts. map (λ t. t.now) texts.items ≡ words.now) }
{
    let mut texts = Vec::new(alloc);
    for word in words {
        texts.push(word.as_str())?;
    }
    Ok(texts)
}

// What clap finds in words, where it takes them.
pub(crate) fn matches_in<'a>(alloc: Global, words: &'a [&'a str]) -> M<Option<ArgMatches<'a>>>
    ensures { IfOk result (ReadsWords (map (λ t. t.now) words.now)) }
{
    let line = command_line(alloc)?;
    match line.try_get_matches_from(words) {
        Ok(matches) => Ok(Some(matches)),
        Err(error) => refused(&error),
    }
}

// No matches, unless memory was wanting.
fn refused<'a>(error: &Error) -> M<Option<ArgMatches<'a>>>
    ensures none { IfOk result (λ matches. matches ≡ None) }
    ensures kind { OnOk result (kind_of error.now ≢ ErrorKind.OutOfMemory) }
{
    if error.kind() == ErrorKind::OutOfMemory {
        Err(OutOfMemory)
    } else {
        Ok(None)
    }
}

fn said_in(alloc: Global, matches: &ArgMatches<'_>) -> M<Option<Command>>
    ensures { IfOk result (λ command. command ≡ said_in (rows_of (found_of matches.now))) }
{
    let Some(name) = matches.get_str("command") else {
        return Ok(None);
    };
    let workers = workers_in(matches);
    match matches.get_strs("operands") {
        Some(operands) => command_named(alloc, name, operands, workers),
        None => Ok(None),
    }
}

// How many workers are asked for.
pub(crate) fn workers_in(matches: &ArgMatches<'_>) -> u32
    ensures { result ≡ workers_in (rows_of (found_of matches.now)) }
{
    u32::from(matches.get_one::<u8>("workers").unwrap_or(0))
}

#[tactic(auto, unfolding(crate::specs::Words::command_named))]
fn command_named(alloc: Global, name: &str, operands: &[&str], workers: u32) -> M<Option<Command>>
    ensures { IfOk result (λ command. command ≡ command_named name.now (map (λ s. s.now) operands.now) workers) }
{
    if name == "run" {
        run_asked(alloc, operands)
    } else if name == "compare" {
        compare_asked(alloc, operands)
    } else {
        two_asked(alloc, name, operands, workers)
    }
}

fn two_asked(alloc: Global, name: &str, operands: &[&str], workers: u32) -> M<Option<Command>>
    ensures { IfOk result (λ command. command ≡ two_asked name.now (map (λ s. s.now) operands.now) workers) }
{
    match operands {
        [first, second] => two_named(alloc, name, *first, *second, workers),
        _ => Ok(None),
    }
}

#[tactic(auto, unfolding(crate::specs::Words::two_named))]
fn two_named(
    alloc: Global,
    name: &str,
    first: &str,
    second: &str,
    workers: u32,
) -> M<Option<Command>>
    ensures { IfOk result (λ command. command ≡ two_named name.now first.now second.now workers) }
{
    if name == "shrink" {
        shrink_asked(alloc, first, second, workers)
    } else if name == "check" {
        check_asked(alloc, first, second)
    } else if name == "retrace" {
        retrace_asked(alloc, first, second)
    } else if name == "gen" {
        gen_asked(alloc, first, second)
    } else if name == "why" {
        why_asked(alloc, first, second)
    } else {
        Ok(None)
    }
}

fn shrink_asked(alloc: Global, first: &str, second: &str, workers: u32) -> M<Option<Command>>
    ensures { IfOk result (λ command. command ≡ shrink_asked (both_files first.now second.now) workers) }
{
    match both_files(alloc, first, second)? {
        Some((config, witness)) => Ok(Some(Command::Shrink {
            config,
            witness,
            workers,
        })),
        None => Ok(None),
    }
}

fn check_asked(alloc: Global, first: &str, second: &str) -> M<Option<Command>>
    ensures { IfOk result (λ command. command ≡ check_asked (both_files first.now second.now)) }
{
    match both_files(alloc, first, second)? {
        Some((config, witness)) => Ok(Some(Command::Check { config, witness })),
        None => Ok(None),
    }
}

fn retrace_asked(alloc: Global, first: &str, second: &str) -> M<Option<Command>>
    ensures { IfOk result (λ command. command ≡ retrace_asked (both_files first.now second.now)) }
{
    match both_files(alloc, first, second)? {
        Some((mapping, trace)) => Ok(Some(Command::Retrace { mapping, trace })),
        None => Ok(None),
    }
}

fn both_files(alloc: Global, first: &str, second: &str) -> M<Option<(Text, Text)>>
    ensures { IfOk result (λ files. files ≡ both_files first.now second.now) }
{
    match (file_in(first), file_in(second)) {
        (Some(first), Some(second)) => {
            let first = Text::from_str(alloc, first)?;
            Ok(Some((first, Text::from_str(alloc, second)?)))
        }
        _ => Ok(None),
    }
}

fn gen_asked(alloc: Global, first: &str, second: &str) -> M<Option<Command>>
    ensures { IfOk result (λ command. command ≡ gen_asked first.now second.now) }
{
    match (gen_number(first), directory_in(second)) {
        (Some(number), Some(directory)) => {
            let directory = Text::from_str(alloc, directory)?;
            Ok(Some(Command::Gen { number, directory }))
        }
        _ => Ok(None),
    }
}

// A number from 1 to 4,000.
fn gen_number(text: &str) -> Option<u32>
    ensures { result ≡ gen_number text.now }
{
    match number_below(text, 4001) {
        Some(0) => None,
        number => number,
    }
}

fn why_asked(alloc: Global, first: &str, item: &str) -> M<Option<Command>>
    ensures { IfOk result (λ command. command ≡ why_asked (file_in first.now) item.now) }
{
    match file_in(first) {
        Some(config) => {
            let config = Text::from_str(alloc, config)?;
            let item = Text::from_str(alloc, item)?;
            Ok(Some(Command::Why { config, item }))
        }
        None => Ok(None),
    }
}

fn run_asked(alloc: Global, operands: &[&str]) -> M<Option<Command>>
    ensures { IfOk result (λ command. command ≡ run_asked (map (λ s. s.now) operands.now)) }
{
    let [directory, entry, steps, words @ ..] = operands else {
        return Ok(None);
    };
    let entry = entry_in(alloc, *entry)?;
    match (directory_in(*directory), entry, steps_in(*steps)) {
        (Some(directory), Some(entry), Some(steps)) => {
            let directory = Text::from_str(alloc, directory)?;
            let words = words_in(alloc, words)?;
            Ok(Some(Command::Run {
                directory,
                entry,
                steps,
                words,
            }))
        }
        _ => Ok(None),
    }
}

fn compare_asked(alloc: Global, operands: &[&str]) -> M<Option<Command>>
    ensures { IfOk result (λ command. command ≡ compare_asked (map (λ s. s.now) operands.now)) }
{
    let [config, entry, steps, words @ ..] = operands else {
        return Ok(None);
    };
    let entry = entry_in(alloc, *entry)?;
    match (file_in(*config), entry, steps_in(*steps)) {
        (Some(config), Some(entry), Some(steps)) => {
            let config = Text::from_str(alloc, config)?;
            let words = words_in(alloc, words)?;
            Ok(Some(Command::Compare {
                config,
                entry,
                steps,
                words,
            }))
        }
        _ => Ok(None),
    }
}

fn entry_in(alloc: Global, word: &str) -> M<Option<Text>>
    ensures { IfOk result (λ entry. entry ≡ entry_in word.now) }
{
    if is_entry(alloc, word)? {
        Ok(Some(Text::from_str(alloc, word)?))
    } else {
        Ok(None)
    }
}

// A number up to 100,000,000.
fn steps_in(word: &str) -> Option<u32>
    ensures { result ≡ steps_in word.now }
{
    number_below(word, 100_000_001)
}

fn words_in(alloc: Global, words: &[&str]) -> M<Items<Text>>
    ensures { IfOk result (λ copied. copied ≡ map (λ s. s.now) words.now) }
{
    let mut copied = Items::new(alloc);
    for word in words {
        copied.push(Text::from_str(alloc, *word)?)?;
    }
    Ok(copied)
}
