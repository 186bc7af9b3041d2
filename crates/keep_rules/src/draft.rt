// What was read so far of a config.
ghost use Rattle.std.specs.Prelude.{◌≡◌, ◌++◌, OnOk};
ghost use Rattle.keep_rules.specs.Reader.{IsFault, fault};
ghost use Rattle.keep_rules.specs.Reading.{Sets, blank, option_read, set, without, with_attributes, with_keep};
ghost use Rattle.keep_rules.specs.declared.fault.RuleKind.TheVariants.{LeftOut};

use crate::options::{Setting, Step, setting_of};
use crate::values::{Value, attributes_of, keep_of, none_left, read_once};
use crate::{Filter, Keep, KeepKind, RuleFault, RuleKind};
use conf_words::Word;
use jv_base::{Items, M, Or, Text};
use std::alloc::Global;

/// What the options that were read say.
#[derive(Drop)]
pub(crate) struct Draft {
    pub in_dir: Option<Text>,
    pub out_dir: Option<Text>,
    pub mapping: Option<Text>,
    pub seeds: Option<Text>,
    pub usage: Option<Text>,
    pub apply: Option<Text>,
    pub source_name: Option<Text>,
    pub shrink: bool,
    pub optimise: bool,
    pub obfuscate: bool,
    pub attrs: Items<Filter>,
    pub keeps: Items<Keep>,
}

impl Draft {
    /// Nothing is read.
    pub fn new(alloc: Global) -> Draft
        ensures { result ≡ blank }
    {
        Draft {
            in_dir: None,
            out_dir: None,
            mapping: None,
            seeds: None,
            usage: None,
            apply: None,
            source_name: None,
            shrink: true,
            optimise: true,
            obfuscate: true,
            attrs: Items::new(alloc),
            keeps: Items::new(alloc),
        }
    }

    /// Adds what an option says with its values. After a fault nothing is said of the draft.
    #[tactic(auto, unfolding(crate::specs::Reading::option_read))]
    pub fn read(
        &mut self,
        alloc: Global,
        option: &Word,
        values: &[Word],
    ) -> Result<(), Or<RuleFault>>
        ensures { Sets result self.new (option_read self.old option.now values.now) }
    {
        match setting_of(option.text.as_str()) {
            Some(setting) => self.set(alloc, setting, option, values),
            None => Err(Or::Fault(RuleFault {
                line: option.line,
                kind: RuleKind::UnknownOption,
            })),
        }
    }

    #[tactic(auto, unfolding(crate::specs::Reading::set))]
    fn set(
        &mut self,
        alloc: Global,
        setting: Setting,
        option: &Word,
        values: &[Word],
    ) -> Result<(), Or<RuleFault>>
        ensures { Sets result self.new (set setting self.old option.now values.now) }
    {
        match setting {
            Setting::InDir => {
                self.in_dir = Some(read_once(
                    alloc,
                    Value::Directory,
                    &self.in_dir,
                    option,
                    values,
                )?);
                Ok(())
            }
            Setting::OutDir => {
                self.out_dir = Some(read_once(
                    alloc,
                    Value::Directory,
                    &self.out_dir,
                    option,
                    values,
                )?);
                Ok(())
            }
            Setting::Mapping => {
                self.mapping = Some(read_once(alloc, Value::File, &self.mapping, option, values)?);
                Ok(())
            }
            Setting::Seeds => {
                self.seeds = Some(read_once(alloc, Value::File, &self.seeds, option, values)?);
                Ok(())
            }
            Setting::Usage => {
                self.usage = Some(read_once(alloc, Value::File, &self.usage, option, values)?);
                Ok(())
            }
            Setting::Apply => {
                self.apply = Some(read_once(alloc, Value::File, &self.apply, option, values)?);
                Ok(())
            }
            Setting::SourceName => {
                self.source_name = Some(read_once(
                    alloc,
                    Value::AnyWord,
                    &self.source_name,
                    option,
                    values,
                )?);
                Ok(())
            }
            Setting::Off(step) => self.leave_out(step, values),
            Setting::Attributes => self.add_attributes(alloc, option, values),
            Setting::Keep(kind, shrinking) => self.add_keep(alloc, kind, shrinking, option, values),
            Setting::Ignored => Ok(()),
            Setting::LeftOut => Err(left_out(option)),
        }
    }

    #[tactic(auto, unfolding(crate::specs::Reading::without))]
    fn leave_out(&mut self, step: Step, values: &[Word]) -> Result<(), Or<RuleFault>>
        ensures { Sets result self.new (without step self.old values.now) }
    {
        none_left(values)?;
        match step {
            Step::Shrink => self.shrink = false,
            Step::Optimise => self.optimise = false,
            Step::Obfuscate => self.obfuscate = false,
        }
        Ok(())
    }

    #[tactic(auto, unfolding(crate::specs::Reading::with_attributes))]
    fn add_attributes(
        &mut self,
        alloc: Global,
        option: &Word,
        values: &[Word],
    ) -> Result<(), Or<RuleFault>>
        ensures { Sets result self.new (with_attributes self.old option.now values.now) }
    {
        let filters = attributes_of(alloc, option, values)?;
        append(&mut self.attrs, filters)?;
        Ok(())
    }

    #[tactic(auto, unfolding(crate::specs::Reading::with_keep))]
    fn add_keep(
        &mut self,
        alloc: Global,
        kind: KeepKind,
        shrinking: bool,
        option: &Word,
        values: &[Word],
    ) -> Result<(), Or<RuleFault>>
        ensures { Sets result self.new (with_keep kind shrinking self.old option.now values.now) }
    {
        let keep = keep_of(alloc, kind, shrinking, option, values)?;
        self.keeps.push(keep)?;
        Ok(())
    }
}

// Appends filters to others.
fn append(filters: &mut Items<Filter>, others: Items<Filter>) -> M<()>
    ensures { OnOk result (filters.new ≡ filters.old ++ others) }
{
    for filter in others.into_vec() {
        filters.push(filter)?;
    }
    Ok(())
}

// An option that isn't built.
fn left_out(option: &Word) -> Or<RuleFault>
    ensures { IsFault result (fault option.now.line (LeftOut option.now.text)) }
{
    match option.text.clone() {
        Ok(text) => Or::Fault(RuleFault {
            line: option.line,
            kind: RuleKind::LeftOut(text),
        }),
        Err(_) => Or::OutOfMemory,
    }
}
