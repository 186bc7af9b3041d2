// What is said of class files.
ghost use Rattle.std.specs.Prelude.{◌≡◌, ◌<◌, IfOk, [], length};
ghost use Rattle.std.specs.List.{position};
ghost use Rattle.jv_base.specs.Names.{is_text};
ghost use Rattle.mark_core.specs.Valid.{Valid};
ghost use Rattle.command_frame.specs.Steps.{Makes};
ghost use Rattle.command_steps.specs.Sets.{AreClassFiles};
ghost use Rattle.why_command.specs.Due.{FollowsInput, FollowsSet, FollowsSystem, IsExplained, IsNumbered};

use crate::items::item_texts;
use crate::telling::why_text;
use class_pool::ClassSet;
use command_frame::{Plan, Reason, Refusal, Stop};
use command_steps::{requirements, set_of};
use jv_base::{Items, Text};
use keep_rules::Rules;
use mark_core::System;
use std::alloc::Global;
use tree_io::FileAt;
use why_kept::why;

/// The answer for the class files of an input directory, by rules.
pub(crate) fn answer(
    alloc: Global,
    rules: &Rules,
    item: &Text,
    inputs: Items<FileAt>,
) -> Result<Plan, Stop>
    requires { AreClassFiles inputs }
    ensures made { IfOk result (λ plan. plan.files ≡ []) }
    ensures answered { Makes result (FollowsInput rules.now item.now inputs) }
{
    let set = set_of(alloc, &rules.in_dir, inputs)?;
    set_answer(alloc, rules, item, &set)
}

/// The answer for a set.
fn set_answer(alloc: Global, rules: &Rules, item: &Text, set: &ClassSet) -> Result<Plan, Stop>
    ensures made { IfOk result (λ plan. plan.files ≡ []) }
    ensures answered { Makes result (FollowsSet rules.now item.now set.now) }
{
    let sys = requirements(alloc, rules, set)?;
    let texts = item_texts(alloc, set)?;
    system_answer(alloc, &sys, texts.as_slice(), item)
}

/// The answer for items that have these texts.
fn system_answer(alloc: Global, sys: &System, texts: &[Text], item: &Text) -> Result<Plan, Stop>
    requires valid { Valid sys.now }
    requires count { length texts.now ≡ sys.now.n }
    ensures made { IfOk result (λ plan. plan.files ≡ []) }
    ensures answered { Makes result (FollowsSystem texts.now item.now sys.now) }
{
    let id = item_number(texts, sys.n, item)?;
    explained(alloc, sys, texts, id)
}

/// The number of the item that is spelled so, of so many items.
fn item_number(texts: &[Text], count: u32, item: &Text) -> Result<u32, Stop>
    requires { length texts.now ≡ count }
    ensures there { IfOk result (λ number. number < length texts.now) }
    ensures found { Makes result (IsNumbered texts.now item.now) }
{
    match place_of(texts, item) {
        Some(number) => Ok(number as u32),
        None => Err(Stop::Refused(Refusal {
            reason: Reason::Item,
            told: item.clone()?,
        })),
    }
}

/// The place of the first text that is this one.
fn place_of(texts: &[Text], item: &Text) -> Option<usize>
    ensures { result ≡ position (λ text. is_text text item.now) texts.now }
{
    texts.iter().position(|text| text == item)
}

/// The answer for an item by its number.
fn explained(alloc: Global, sys: &System, texts: &[Text], id: u32) -> Result<Plan, Stop>
    requires valid { Valid sys.now }
    requires below { id < sys.now.n }
    ensures made { IfOk result (λ plan. plan.files ≡ []) }
    ensures answered { Makes result (IsExplained texts.now sys.now id) }
{
    let reasons = why(alloc, sys, id)?;
    let depth = reasons.levels[id as usize];
    let text = why_text(alloc, texts, depth, reasons.steps.as_slice())?;
    Ok(Plan {
        files: Items::new(alloc),
        text,
    })
}
