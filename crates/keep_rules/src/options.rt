// The options of a config (ProGuard manual, "Usage").
ghost use Rattle.std.specs.Prelude.{◌≡◌};
ghost use Rattle.keep_rules.specs.Options.{inert_setting, is_ignored, is_left_out, keep_setting, plain_setting};
ghost use Rattle.keep_rules.specs.Options.{setting_of};

use crate::KeepKind;

/// What is done with classes, unless an option says otherwise.
#[derive(Clone, Copy)]
pub(crate) enum Step {
    Shrink,
    Optimise,
    Obfuscate,
}

/// What an option sets.
#[derive(Clone, Copy)]
pub(crate) enum Setting {
    /// `-injars`
    InDir,
    /// `-outjars`
    OutDir,
    /// `-printmapping`
    Mapping,
    /// `-printseeds`
    Seeds,
    /// `-printusage`
    Usage,
    /// `-applymapping`
    Apply,
    /// `-renamesourcefileattribute`
    SourceName,
    /// `-dontshrink`, `-dontoptimize` and `-dontobfuscate`
    Off(Step),
    /// `-keepattributes`
    Attributes,
    /// A keep option: what it keeps, and whether that may be dropped.
    Keep(KeepKind, bool),
    /// An option that changes nothing here.
    Ignored,
    /// An option that ProGuard has and that isn't built.
    LeftOut,
}

/// What an option sets.
#[tactic(auto, unfolding(crate::specs::Options::setting_of))]
pub(crate) fn setting_of(word: &str) -> Option<Setting>
    ensures { result ≡ setting_of word.now }
{
    match keep_setting(word) {
        Some(setting) => Some(setting),
        None => plain_setting(word),
    }
}

#[tactic(auto, unfolding(crate::specs::Options::keep_setting))]
fn keep_setting(word: &str) -> Option<Setting>
    ensures { result ≡ keep_setting word.now }
{
    match word {
        "-keep" => Some(Setting::Keep(KeepKind::Keep, false)),
        "-keepclassmembers" => Some(Setting::Keep(KeepKind::Members, false)),
        "-keepclasseswithmembers" => Some(Setting::Keep(KeepKind::WithMembers, false)),
        "-keepnames" => Some(Setting::Keep(KeepKind::Keep, true)),
        "-keepclassmembernames" => Some(Setting::Keep(KeepKind::Members, true)),
        "-keepclasseswithmembernames" => Some(Setting::Keep(KeepKind::WithMembers, true)),
        _ => None,
    }
}

#[tactic(auto, unfolding(crate::specs::Options::plain_setting))]
fn plain_setting(word: &str) -> Option<Setting>
    ensures { result ≡ plain_setting word.now }
{
    match word {
        "-injars" => Some(Setting::InDir),
        "-outjars" => Some(Setting::OutDir),
        "-printmapping" => Some(Setting::Mapping),
        "-printseeds" => Some(Setting::Seeds),
        "-printusage" => Some(Setting::Usage),
        "-applymapping" => Some(Setting::Apply),
        "-renamesourcefileattribute" => Some(Setting::SourceName),
        "-dontshrink" => Some(Setting::Off(Step::Shrink)),
        "-dontoptimize" => Some(Setting::Off(Step::Optimise)),
        "-dontobfuscate" => Some(Setting::Off(Step::Obfuscate)),
        "-keepattributes" => Some(Setting::Attributes),
        _ => inert_setting(word),
    }
}

// An option that sets nothing.
fn inert_setting(word: &str) -> Option<Setting>
    ensures { result ≡ inert_setting word.now }
{
    if is_ignored(word) {
        Some(Setting::Ignored)
    } else if is_left_out(word) {
        Some(Setting::LeftOut)
    } else {
        None
    }
}

#[tactic(auto, unfolding(crate::specs::Options::is_ignored))]
fn is_ignored(word: &str) -> bool
    ensures { result ≡ is_ignored word.now }
{
    matches!(
        word,
        "-libraryjars"
            | "-dontwarn"
            | "-dontnote"
            | "-verbose"
            | "-ignorewarnings"
            | "-dontusemixedcaseclassnames"
            | "-dontskipnonpubliclibraryclasses"
            | "-useuniqueclassmembernames"
            | "-optimizationpasses"
            | "-allowaccessmodification"
    )
}

#[tactic(auto, unfolding(crate::specs::Options::is_left_out))]
fn is_left_out(word: &str) -> bool
    ensures { result ≡ is_left_out word.now }
{
    matches!(
        word,
        "-assumenosideeffects"
            | "-if"
            | "-overloadaggressively"
            | "-repackageclasses"
            | "-include"
            | "-basedirectory"
            | "-target"
            | "-optimizations"
            | "-dump"
            | "-printconfiguration"
    )
}
