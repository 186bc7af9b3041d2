// The config of a command.
ghost use Rattle.std.specs.Prelude.{◌≡◌, ◌<◌, length};
ghost use Rattle.jv_base.specs.Outcome.{IsDue};
ghost use Rattle.command_frame.specs.Steps.{Finds, Makes, seen};
ghost use Rattle.command_steps.specs.Config.{IsConfigApart, IsConfigured, IsRules, config_read, of_words, rules_apart};
ghost use Rattle.command_steps.specs.Config.{same_path};

use crate::refusals::faulty_rules;
use command_frame::{Quantity, Stop, read_file};
use conf_words::{WordFault, words};
use jv_base::{Or, Text};
use keep_rules::{RuleFault, RuleKind, Rules, meets_config, read_rules};
use std::alloc::Global;
use tree_io::Tree;

/// The rules of the config at a path, where the witness goes to this file.
pub fn find_config<T: Tree>(
    alloc: Global,
    config: &Text,
    witness: &Text,
    tree: &mut T,
) -> Result<Rules, Stop>
    ensures { Finds result (λ fs. IsConfigured fs config.now witness.now)
        (seen (T.files tree.old) (T.faults tree.old) (T.log tree.old))
        (seen (T.files tree.new) (T.faults tree.new) (T.log tree.new)) }
{
    let bytes = read_file(alloc, Quantity::Config, config, tree)?;
    config_in(alloc, bytes.as_slice(), witness)
}

/// The rules of the config at a path, where the witness goes to this file, for a command that writes: where the config
/// lies below the output directory, or this or a file that is written is the config or lies below it, it is refused.
pub fn find_config_apart<T: Tree>(
    alloc: Global,
    config: &Text,
    witness: &Text,
    tree: &mut T,
) -> Result<Rules, Stop>
    ensures { Finds result (λ fs. IsConfigApart fs config.now witness.now)
        (seen (T.files tree.old) (T.faults tree.old) (T.log tree.old))
        (seen (T.files tree.new) (T.faults tree.new) (T.log tree.new)) }
{
    let rules = find_config(alloc, config, witness, tree)?;
    rules_apart(alloc, config, witness, rules)
}

/// The rules, where nothing that is written meets the config.
fn rules_apart(alloc: Global, config: &Text, witness: &Text, rules: Rules) -> Result<Rules, Stop>
    ensures { Makes result (λ due. due ≡ rules_apart config.now witness.now rules) }
{
    if meets_config(alloc, config, &rules, witness)? {
        return Err(Stop::Refused(faulty_rules(alloc, &same_path())?));
    }
    Ok(rules)
}

/// A run would write over its config, or below it.
fn same_path() -> RuleFault
    ensures { result ≡ same_path }
{
    RuleFault {
        line: 0,
        kind: RuleKind::SamePath,
    }
}

/// The rules that bytes give, where the witness goes to this file.
fn config_in(alloc: Global, bytes: &[u8], witness: &Text) -> Result<Rules, Stop>
    requires { length bytes.now < 4294967295 }
    ensures { Makes result (IsRules bytes.now witness.now) }
{
    match read_config(alloc, bytes, witness) {
        Ok(rules) => Ok(rules),
        Err(Or::Fault(fault)) => Err(Stop::Refused(faulty_rules(alloc, &fault)?)),
        Err(Or::OutOfMemory) => Err(Stop::OutOfMemory),
    }
}

/// The rules that the bytes of a config give, where the witness goes to this file, or the first fault (ProGuard manual,
/// "Usage"): that of its words, or else that of what they stand for.
fn read_config(alloc: Global, bytes: &[u8], witness: &Text) -> Result<Rules, Or<RuleFault>>
    requires { length bytes.now < 4294967295 }
    ensures { IsDue result (config_read bytes.now witness.now) }
{
    match words(alloc, bytes) {
        Ok(words) => read_rules(alloc, &words, witness),
        Err(Or::Fault(fault)) => Err(Or::Fault(of_words(fault))),
        Err(Or::OutOfMemory) => Err(Or::OutOfMemory),
    }
}

/// The fault of bytes that have no words.
fn of_words(fault: WordFault) -> RuleFault
    ensures { result ≡ of_words fault }
{
    match fault {
        WordFault::NotUtf8(_) => RuleFault {
            line: 0,
            kind: RuleKind::NotUtf8,
        },
        WordFault::QuoteOpen(line) => RuleFault {
            line,
            kind: RuleKind::QuoteOpen,
        },
    }
}
