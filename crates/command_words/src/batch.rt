// The words of a batch.
ghost use Rattle.std.specs.Prelude.{◌≡◌, IfOk, map};
ghost use Rattle.clap.specs.Words.{found_of, rows_of};
ghost use Rattle.command_words.specs.Batch.{batch_asked, batch_commanded, batch_in, batch_named, batch_of};
ghost use Rattle.path_text.specs.Path.{file_in};

use crate::words::{matches_in, texts_of, workers_in};
use clap::ArgMatches;
use jv_base::{Items, M, Text};
use path_text::file_in;
use std::alloc::Global;

/// What `batch LIST` names: the list of its jobs, and how many workers there are.
#[derive(Drop)]
pub struct Batch {
    pub list: Text,
    pub workers: u32,
}

/// The batch that words ask for, none where they ask for none. They are the words behind the program's name: `batch` and
/// the path of a list, and anywhere `--workers N` with N from 1 to 64.
pub fn read_batch(alloc: Global, words: &Items<Text>) -> M<Option<Batch>>
    ensures { IfOk result (λ batch. batch ≡ batch_commanded words.now) }
{
    let texts = texts_of(alloc, words.as_slice())?;
    match matches_in(alloc, texts.as_slice())? {
        Some(matches) => batch_in(alloc, &matches),
        None => Ok(None),
    }
}

fn batch_in(alloc: Global, matches: &ArgMatches<'_>) -> M<Option<Batch>>
    ensures { IfOk result (λ batch. batch ≡ batch_in (rows_of (found_of matches.now))) }
{
    let Some(name) = matches.get_str("command") else {
        return Ok(None);
    };
    let workers = workers_in(matches);
    match matches.get_strs("operands") {
        Some(operands) => batch_named(alloc, name, operands, workers),
        None => Ok(None),
    }
}

#[tactic(auto, unfolding(crate::specs::Batch::batch_named))]
fn batch_named(alloc: Global, name: &str, operands: &[&str], workers: u32) -> M<Option<Batch>>
    ensures { IfOk result (λ batch. batch ≡ batch_named name.now (map (λ s. s.now) operands.now) workers) }
{
    if name == "batch" {
        batch_asked(alloc, operands, workers)
    } else {
        Ok(None)
    }
}

fn batch_asked(alloc: Global, operands: &[&str], workers: u32) -> M<Option<Batch>>
    ensures { IfOk result (λ batch. batch ≡ batch_asked (map (λ s. s.now) operands.now) workers) }
{
    match operands {
        [list] => batch_of(alloc, *list, workers),
        _ => Ok(None),
    }
}

fn batch_of(alloc: Global, list: &str, workers: u32) -> M<Option<Batch>>
    ensures { IfOk result (λ batch. batch ≡ batch_of (file_in list.now) workers) }
{
    match file_in(list) {
        Some(list) => Ok(Some(Batch {
            list: Text::from_str(alloc, list)?,
            workers,
        })),
        None => Ok(None),
    }
}
