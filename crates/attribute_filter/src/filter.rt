// Which optional attributes a config keeps.
ghost use Rattle.std.specs.Prelude.{◌≡◌, IfOk, IfSome};
ghost use Rattle.std.specs.Str.{IsUtf8};
ghost use Rattle.attribute_filter.specs.KeptAttributes.{filter_of, is_kept};

use jv_base::{M, Text};
use keep_match::accepts_attribute;
use keep_rules::Rules;
use std::alloc::Global;

/// Which optional attributes are kept (JVMS 4.7), and what those hold that are.
#[derive(Drop)]
pub struct AttributeFilter {
    /// Exceptions of a method (JVMS 4.7.5).
    pub exceptions: bool,
    /// LineNumberTable of a code (JVMS 4.7.12).
    pub line_numbers: bool,
    /// SourceFile of a class (JVMS 4.7.10).
    pub source_file: bool,
    /// Synthetic of a class or a member (JVMS 4.7.8).
    pub synthetic: bool,
    /// Deprecated of a class or a member (JVMS 4.7.15).
    pub deprecated: bool,
    /// The name that each SourceFile which is kept holds in place of its own.
    pub source_name: Option<Text>,
}

/// Which optional attributes rules keep: those whose names a filter of `-keepattributes` accepts, and all where
/// `-dontobfuscate` is given (ProGuard manual, "-keepattributes", "-renamesourcefileattribute").
pub fn attribute_filter(alloc: Global, rules: &Rules) -> M<AttributeFilter>
    ensures is { IfOk result (λ filter. filter ≡ filter_of rules.now) }

    // The name of the source files is in UTF-8, as each text is.
    ensures name { IfOk result (λ filter. IfSome filter.source_name IsUtf8) }
{
    let exceptions = is_kept(alloc, rules, "Exceptions")?;
    let line_numbers = is_kept(alloc, rules, "LineNumberTable")?;
    let source_file = is_kept(alloc, rules, "SourceFile")?;
    let synthetic = is_kept(alloc, rules, "Synthetic")?;
    let deprecated = is_kept(alloc, rules, "Deprecated")?;
    let source_name = copied(alloc, &rules.source_name)?;
    Ok(AttributeFilter {
        exceptions,
        line_numbers,
        source_file,
        synthetic,
        deprecated,
        source_name,
    })
}

/// Whether rules keep an attribute of this name.
fn is_kept(alloc: Global, rules: &Rules, name: &str) -> M<bool>
    ensures { IfOk result (λ kept. kept ≡ is_kept rules.now name.now) }
{
    if !rules.obfuscate {
        return Ok(true);
    }
    let name = Text::from_str(alloc, name)?;
    Ok(accepts_attribute(&rules.attrs, &name))
}

fn copied(alloc: Global, name: &Option<Text>) -> M<Option<Text>>
    ensures same { IfOk result (λ copy. copy ≡ name.now) }
    ensures utf8 { IfOk result (λ copy. IfSome copy IsUtf8) }
{
    match name {
        Some(name) => Ok(Some(Text::from_str(alloc, name.as_str())?)),
        None => Ok(None),
    }
}
