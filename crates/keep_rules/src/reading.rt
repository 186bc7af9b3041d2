// The rules that the words of a config stand for.
ghost use Rattle.std.specs.Prelude.{◌≡◌, ◌≤◌, ◌++◌, [], IfOk, IsTrue, OnOk, drop, length, take};
ghost use Rattle.std.specs.List.{position, position_or_len};
ghost use Rattle.jv_base.specs.Outcome.{IsDue};
ghost use Rattle.keep_rules.specs.Reader.{IsFault, fault};
ghost use Rattle.keep_rules.specs.Reading.{begins_so, blank, finished, needed, options_read, rules_read, sections_of};
ghost use Rattle.keep_rules.specs.Reading.{whole_rules, word_is_option};
ghost use Rattle.keep_rules.specs.declared.fault.RuleKind.TheVariants.{MissingOption};

use crate::draft::Draft;
use crate::paths::paths_meet;
use crate::texts::is_option;
use crate::values::none_left;
use crate::{RuleFault, RuleKind, Rules};
use conf_words::Word;
use jv_base::{Items, M, Or, Text};
use std::alloc::Global;

/// The rules that the words of a config stand for, where the witness goes to this file (to none where its path is the
/// empty text), or the first fault (ProGuard
/// manual, "Usage").
///
/// Words are read in their order, and the fault of the first word at fault is told; then an option that is missing, and
/// then paths that meet. An option ends at the next word that begins with `-`.
#[tactic(auto, using(crate::proofs::OptionSteps::begins_here))]
pub fn read_rules(
    alloc: Global,
    words: &Items<Word>,
    witness: &Text,
) -> Result<Rules, Or<RuleFault>>
    ensures { IsDue result (rules_read words.now witness.now) }
{
    let words = words.as_slice();
    let (front, sections) = words.split_at(option_in(words));
    none_left(front)?;
    let draft = read_options(alloc, sections)?;
    finished(alloc, draft, witness)
}

// Where the first option stands, or how many words there are.
fn option_in(words: &[Word]) -> usize
    ensures at { result ≡ position_or_len word_is_option words.now }
    ensures within { result ≤ length words.now }
{
    match position(words) {
        Some(at) => at,
        None => words.len(),
    }
}

fn position(words: &[Word]) -> Option<usize>
    ensures { result ≡ position word_is_option words.now }
{
    words.iter().position(|word| is_option(word.text.as_str()))
}

fn behind_first(words: &[Word]) -> &[Word]
    ensures { result.now ≡ drop 1 words.now }
{
    match words {
        [_, rest @ ..] => rest,
        [] => words,
    }
}

// The values of an option that stands first, and what stands behind them.
fn values_of(words: &[Word]) -> (&[Word], &[Word])
    ensures values { result.0.now ≡ take (position_or_len word_is_option (drop 1 words.now)) (drop 1 words.now) }
    ensures others { result.1.now ≡ drop (position_or_len word_is_option (drop 1 words.now)) (drop 1 words.now) }
{
    let behind = behind_first(words);
    behind.split_at(option_in(behind))
}

// What options say, one behind the other. The first word is an option.
fn read_options(alloc: Global, words: &[Word]) -> Result<Draft, Or<RuleFault>>
    requires { IsTrue (begins_so words.now) }
    ensures { IsDue result (options_read blank (sections_of words.now).sections) }
{
    let mut draft = Draft::new(alloc);
    let mut rest = words;
    while let Some(option) = rest.first() {
        let (values, others) = values_of(rest);
        draft.read(alloc, option, values)?;
        rest = others;
    }
    Ok(draft)
}

// ---- the config as a whole

fn missing(alloc: Global, option: &str) -> Or<RuleFault>
    ensures { IsFault result (fault 0 (MissingOption option.now)) }
{
    match Text::from_str(alloc, option) {
        Ok(option) => Or::Fault(RuleFault {
            line: 0,
            kind: RuleKind::MissingOption(option),
        }),
        Err(_) => Or::OutOfMemory,
    }
}

// A value that has to be there.
fn needed(alloc: Global, option: &str, value: Option<Text>) -> Result<Text, Or<RuleFault>>
    ensures { IsDue result (needed option.now value) }
{
    match value {
        Some(value) => Ok(value),
        None => Err(missing(alloc, option)),
    }
}

// What was read, as rules.
#[tactic(auto, unfolding(crate::specs::Reading::finished))]
fn finished(alloc: Global, draft: Draft, witness: &Text) -> Result<Rules, Or<RuleFault>>
    ensures { IsDue result (finished witness.now draft) }
{
    let rules = rules_of(alloc, draft)?;
    if paths_meet(alloc, &rules, witness)? {
        return Err(Or::Fault(RuleFault {
            line: 0,
            kind: RuleKind::SamePath,
        }));
    }
    Ok(rules)
}

#[tactic(auto, unfolding(crate::specs::Reading::whole_rules))]
fn rules_of(alloc: Global, draft: Draft) -> Result<Rules, Or<RuleFault>>
    ensures { IsDue result (whole_rules draft) }
{
    let Draft {
        in_dir,
        out_dir,
        mapping,
        seeds,
        usage,
        apply,
        source_name,
        shrink,
        optimise,
        obfuscate,
        attrs,
        keeps,
    } = draft;
    let in_dir = needed(alloc, "-injars", in_dir)?;
    let out_dir = needed(alloc, "-outjars", out_dir)?;
    let mapping = needed(alloc, "-printmapping", mapping)?;
    Ok(Rules {
        in_dir,
        out_dir,
        mapping,
        seeds,
        usage,
        apply,
        shrink,
        optimise,
        obfuscate,
        attrs,
        source_name,
        keeps,
    })
}
