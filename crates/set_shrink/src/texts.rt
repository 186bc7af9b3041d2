// The texts that are written behind the classes.
ghost use Rattle.std.specs.Prelude.{◌≡◌, ◌∷◌, ◌++◌, [], List, IfOk, Result};
ghost use Rattle.jv_base.specs.Outcome.{IsDue};
ghost use Rattle.tree_io.specs.declared.file_at.FileAt.{FileAt};
ghost use Rattle.list_texts.specs.declared.limit.TooLong.{TooLong as LongList};
ghost use Rattle.set_shrink.specs.Texts.{mapping_due, texts_beside, witness_due};

use crate::lists::MAX_TEXT;
use jv_base::{Items, M, Or, Text};
use keep_rules::Rules;
use list_texts::TooLong;
use mapping_file::{Mapping, write_mapping_within};
use std::alloc::Global;
use tree_io::FileAt;
use witness_file::{Witness, write_witness};

/// The texts that are written behind the classes, in their order: the mapping at the path that the rules name (ProGuard
/// manual, "-printmapping"), the lists, which are made before (`lists_of`), and at its path the witness, which tells how
/// methods were edited. The error is that the mapping, a list or the witness has more than 67,108,864 bytes.
pub fn texts_of(
    alloc: Global,
    mapping: &Mapping,
    edits: &Witness,
    lists: Result<Items<FileAt>, Or<TooLong>>,
    rules: &Rules,
    witness: &Text,
) -> Result<Items<FileAt>, Or<TooLong>>
    ensures { (due : Result (List FileAt) LongList) → IsDue lists due
        → IsDue result (texts_beside mapping.now edits.now due rules.now witness.now) }
{
    let mapping = mapping_file(alloc, mapping, rules)?;
    let lists = lists?;
    let witness = witness_file(alloc, edits, witness)?;
    Ok(joined(alloc, mapping, lists, witness)?)
}

/// A mapping as a file.
fn mapping_file(alloc: Global, mapping: &Mapping, rules: &Rules) -> Result<FileAt, Or<TooLong>>
    ensures { IsDue result (mapping_due mapping.now rules.now) }
{
    match write_mapping_within(alloc, mapping, MAX_TEXT)? {
        Some(bytes) => Ok(FileAt {
            path: rules.mapping.clone()?,
            bytes,
        }),
        None => Err(Or::Fault(TooLong { limit: MAX_TEXT })),
    }
}

/// A witness as a file.
fn witness_file(alloc: Global, edits: &Witness, path: &Text) -> Result<FileAt, Or<TooLong>>
    ensures { IsDue result (witness_due edits.now path.now) }
{
    let bytes = write_witness(alloc, edits)?;
    if bytes.len() > MAX_TEXT {
        return Err(Or::Fault(TooLong { limit: MAX_TEXT }));
    }
    Ok(FileAt {
        path: path.clone()?,
        bytes,
    })
}

/// One file, others, and one more.
fn joined(alloc: Global, first: FileAt, others: Items<FileAt>, last: FileAt) -> M<Items<FileAt>>
    ensures { IfOk result (λ all. all ≡ first ∷ (others ++ last ∷ [])) }
{
    let mut all = Vec::new(alloc);
    all.push(first)?;
    all.append(&mut others.into_vec())?;
    all.push(last)?;
    Ok(Items::from_vec(all))
}
