// Keep options (ProGuard manual, "Keep Options", "Keep Option Modifiers").
ghost use Rattle.std.specs.Prelude.{◌≡◌};
ghost use Rattle.keep_rules.specs.Reader.{ReadsOr};
ghost use Rattle.keep_rules.specs.Specifications.{keep, modifiers, modifier_of, unmodified, with_modifier};
ghost use Rattle.keep_rules.specs.Reader.{item};
ghost use Rattle.keep_rules.specs.declared.fault.RuleKind.TheVariants.{MissingName};

use crate::ahead::Words;
use crate::filtering::bad_value;
use crate::specifications::read_class_spec;
use crate::{Keep, KeepKind, RuleFault, RuleKind};
use jv_base::{Or, Text};
use std::alloc::Global;

/// The modifiers of a keep option.
#[derive(Clone, Copy, PartialEq, Eq)]
pub(crate) struct Modifiers {
    pub descriptor_classes: bool,
    pub allow_shrinking: bool,
    pub allow_obfuscation: bool,
}

fn unmodified(shrinking: bool) -> Modifiers
    ensures { result ≡ unmodified shrinking }
{
    Modifiers {
        descriptor_classes: false,
        allow_shrinking: shrinking,
        allow_obfuscation: false,
    }
}

// The modifiers with one more, if the word is one.
#[tactic(auto, unfolding(crate::specs::Specifications::with_modifier))]
fn with_modifier(modifiers: Modifiers, word: &str) -> Option<Modifiers>
    ensures { result ≡ with_modifier modifiers word.now }
{
    match word {
        "includedescriptorclasses" => Some(Modifiers {
            descriptor_classes: true,
            ..modifiers
        }),
        "allowshrinking" => Some(Modifiers {
            allow_shrinking: true,
            ..modifiers
        }),
        "allowoptimization" => Some(modifiers),
        "allowobfuscation" => Some(Modifiers {
            allow_obfuscation: true,
            ..modifiers
        }),
        _ => None,
    }
}

// The modifiers with that of the next word.
#[tactic(auto, unfolding(crate::specs::Reader::item, crate::specs::Reader::bind))]
fn read_modifier(
    words: &mut Words<'_>,
    option: &Text,
    modifiers: Modifiers,
) -> Result<Modifiers, Or<RuleFault>>
    ensures { ReadsOr result words.new (item MissingName (modifier_of option.now modifiers) words.old) }
{
    let word = words.take(RuleKind::MissingName)?;
    match with_modifier(modifiers, word.text.as_str()) {
        Some(more) => Ok(more),
        None => Err(bad_value(word.line, option)),
    }
}

// Modifiers, each behind a comma, as many as there are.
fn read_modifiers(
    words: &mut Words<'_>,
    option: &Text,
    shrinking: bool,
) -> Result<Modifiers, Or<RuleFault>>
    ensures { ReadsOr result words.new (modifiers option.now (unmodified shrinking) words.old) }
{
    let mut modifiers = unmodified(shrinking);
    while words.pass(",") {
        modifiers = read_modifier(words, option, modifiers)?;
    }
    Ok(modifiers)
}

/// What a keep option says behind its name.
#[tactic(auto, unfolding(crate::specs::Specifications::keep, crate::specs::Reader::bind, crate::specs::Reader::give))]
pub(crate) fn read_keep(
    alloc: Global,
    words: &mut Words<'_>,
    option: &Text,
    kind: KeepKind,
    shrinking: bool,
) -> Result<Keep, Or<RuleFault>>
    ensures { ReadsOr result words.new (keep kind shrinking option.now words.old) }
{
    let modifiers = read_modifiers(words, option, shrinking)?;
    let spec = read_class_spec(alloc, words)?;
    Ok(Keep {
        kind,
        descriptor_classes: modifiers.descriptor_classes,
        allow_shrinking: modifiers.allow_shrinking,
        allow_obfuscation: modifiers.allow_obfuscation,
        spec,
    })
}
