// Paths that stand in one another's way.
ghost use Rattle.std.specs.Prelude.{◌≡◌, ◌++◌, [], IfOk, OnOk};
ghost use Rattle.std.specs.List.{list_any};
ghost use Rattle.keep_rules.specs.Paths.{any_meet, before_texts, files_of, is_at, is_below_file, meets, meets_config};
ghost use Rattle.keep_rules.specs.Paths.{meets_file, paths_meet};

use crate::Rules;
use jv_base::{Items, M, Text};
use path_text::is_below;
use std::alloc::Global;

// The files that a run writes beside the classes; the witness is the empty text where none is written.
fn files_of(alloc: Global, rules: &Rules, witness: &Text) -> M<Items<Text>>
    ensures { IfOk result (λ files. files ≡ files_of rules.now witness.now) }
{
    let mut files = Items::new(alloc);
    files.push(rules.mapping.clone()?)?;
    push_file(&mut files, &rules.seeds)?;
    push_file(&mut files, &rules.usage)?;
    files.push(witness.clone()?)?;
    Ok(files)
}

fn push_file(files: &mut Items<Text>, file: &Option<Text>) -> M<()>
    ensures { OnOk result (files.new ≡ files.old ++ before_texts file.now []) }
{
    if let Some(file) = file {
        files.push(file.clone()?)?;
    }
    Ok(())
}

// ---- directories and files

// Whether two paths are one, or one of them lies below the other.
fn meets(path: &Text, other: &Text) -> bool
    ensures { result ≡ meets path.now other.now }
{
    let (path, other) = (path.as_str(), other.as_str());
    path == other || is_below(path, other) || is_below(other, path)
}

// Below the empty text, which stands for no file, lies none.
fn is_below_file(path: &Text, file: &Text) -> bool
    ensures { result ≡ is_below_file path.now file.now }
{
    !file.as_str().is_empty() && is_below(path.as_str(), file.as_str())
}

fn meets_file(path: &Text, file: &Text) -> bool
    ensures { result ≡ meets_file path.now file.now }
{
    path.as_str() == file.as_str()
        || is_below_file(path, file)
        || is_below(file.as_str(), path.as_str())
}

fn meets_any(path: &Text, files: &[Text]) -> bool
    ensures { result ≡ list_any (meets_file path.now) files.now }
{
    files.iter().any(|file| meets_file(path, file))
}

fn any_meet(files: &[Text]) -> bool
    ensures { result ≡ any_meet files.now }
{
    let mut rest = files;
    while let [file, others @ ..] = rest {
        if meets_any(file, others) {
            return true;
        }
        rest = others;
    }
    false
}

/// Whether two of both directories and of the files that are written meet; the witness is the empty text where none is
/// written.
#[tactic(auto, unfolding(crate::specs::Paths::paths_meet))]
pub(crate) fn paths_meet(alloc: Global, rules: &Rules, witness: &Text) -> M<bool>
    ensures { IfOk result (λ meet. meet ≡ paths_meet rules.now witness.now) }
{
    let files = files_of(alloc, rules, witness)?;
    let files = files.as_slice();
    Ok(
        meets(&rules.in_dir, &rules.out_dir)
            || meets_any(&rules.in_dir, files)
            || meets_any(&rules.out_dir, files)
            || any_meet(files),
    )
}

// ---- the config

fn is_at(place: &Text, path: &Text) -> bool
    ensures { result ≡ is_at place.now path.now }
{
    place.as_str() == path.as_str() || is_below(path.as_str(), place.as_str())
}

fn any_at(place: &Text, paths: &[Text]) -> bool
    ensures { result ≡ list_any (is_at place.now) paths.now }
{
    paths.iter().any(|path| is_at(place, path))
}

/// Whether what a run writes would destroy its config, or stand below it: the config lies below the output directory, or
/// this or a file that is written, the witness among them, is the config or lies below it.
#[tactic(auto, unfolding(crate::specs::Paths::meets_config))]
pub fn meets_config(alloc: Global, config: &Text, rules: &Rules, witness: &Text) -> M<bool>
    ensures { IfOk result (λ meet. meet ≡ meets_config config.now rules.now witness.now) }
{
    let files = files_of(alloc, rules, witness)?;
    Ok(
        is_below(config.as_str(), rules.out_dir.as_str())
            || is_at(config, &rules.out_dir)
            || any_at(config, files.as_slice()),
    )
}
