// Flags and the words that name them (JVMS 4.1, 4.5, 4.6).
ghost use Rattle.std.specs.Prelude.{◌≡◌, ◌&&◌};
ghost use Rattle.std.specs.List.{list_all, list_any};
ghost use Rattle.std.specs.Option.{option_map};
ghost use Rattle.keep_match.specs.Filters.{asks_access, flags_met, is_access_word, is_flag_met};
ghost use Rattle.keep_match.specs.FlagWords.{class_flag, field_flag, flag_of, is_word_set, member_flag, method_flag};
ghost use Rattle.keep_match.specs.FlagWords.{shared_flag};

use bitflags::Flags;
use jv_base::Access;
use keep_rules::Filter;

/// What has flags, since some words name flags of one of these alone.
#[derive(Clone, Copy)]
pub(crate) enum FlagsOf {
    Class,
    Field,
    Method,
}

/// Whether flags meet what a specification asks: none behind a `!` is set, each other one is, but of those for access
/// one is enough.
#[tactic(auto, unfolding(crate::specs::Filters::flags_met))]
pub(crate) fn flags_met(of: FlagsOf, flags: Access, filters: &[Filter]) -> bool
    ensures { result ≡ flags_met (is_word_set of flags.0) filters.now }
{
    is_each_met(of, flags, filters) && (!ask_access(filters) || has_asked(of, flags, filters))
}

fn is_each_met(of: FlagsOf, flags: Access, filters: &[Filter]) -> bool
    ensures { result ≡ list_all (is_flag_met (is_word_set of flags.0)) filters.now }
{
    filters.iter().all(|filter| is_flag_met(of, flags, filter))
}

fn ask_access(filters: &[Filter]) -> bool
    ensures { result ≡ list_any asks_access filters.now }
{
    filters.iter().any(asks_access)
}

/// Whether one of the flags for access that are asked for is set.
fn has_asked(of: FlagsOf, flags: Access, filters: &[Filter]) -> bool
    ensures { result ≡ list_any (λ filter. asks_access filter && is_word_set of flags.0 filter.pattern) filters.now }
{
    filters.iter().any(|filter| asks_access(filter)
        && is_word_set(of, flags, filter.pattern.as_str()))
}

fn is_flag_met(of: FlagsOf, flags: Access, filter: &Filter) -> bool
    ensures { result ≡ is_flag_met (is_word_set of flags.0) filter.now }
{
    let word = filter.pattern.as_str();
    if filter.negated {
        !is_word_set(of, flags, word)
    } else {
        is_access_word(word) || is_word_set(of, flags, word)
    }
}

fn asks_access(filter: &Filter) -> bool
    ensures { result ≡ asks_access filter.now }
{
    !filter.negated && is_access_word(filter.pattern.as_str())
}

fn is_access_word(word: &str) -> bool
    ensures { result ≡ is_access_word word.now }
{
    word == "public" || word == "protected" || word == "private"
}

fn is_word_set(of: FlagsOf, flags: Access, word: &str) -> bool
    ensures { result ≡ is_word_set of flags.0 word.now }
{
    match flag_of(of, word) {
        Some(flag) => flags.contains(flag),
        None => false,
    }
}

fn flag_of(of: FlagsOf, word: &str) -> Option<Access>
    ensures { option_map (λ flag. flag.0) result ≡ flag_of of word.now }
{
    match of {
        FlagsOf::Class => class_flag(word),
        FlagsOf::Field => field_flag(word),
        FlagsOf::Method => method_flag(word),
    }
}

#[tactic(auto, unfolding(crate::specs::FlagWords::class_flag))]
fn class_flag(word: &str) -> Option<Access>
    ensures { option_map (λ flag. flag.0) result ≡ class_flag word.now }
{
    match word {
        "abstract" => Some(Access::ABSTRACT),
        _ => shared_flag(word),
    }
}

#[tactic(auto, unfolding(crate::specs::FlagWords::field_flag))]
fn field_flag(word: &str) -> Option<Access>
    ensures { option_map (λ flag. flag.0) result ≡ field_flag word.now }
{
    match word {
        "volatile" => Some(Access::VOLATILE),
        "transient" => Some(Access::TRANSIENT),
        _ => member_flag(word),
    }
}

#[tactic(auto, unfolding(crate::specs::FlagWords::method_flag))]
fn method_flag(word: &str) -> Option<Access>
    ensures { option_map (λ flag. flag.0) result ≡ method_flag word.now }
{
    match word {
        "synchronized" => Some(Access::SYNCHRONIZED),
        "bridge" => Some(Access::BRIDGE),
        "varargs" => Some(Access::VARARGS),
        "native" => Some(Access::NATIVE),
        "abstract" => Some(Access::ABSTRACT),
        "strictfp" => Some(Access::STRICT),
        _ => member_flag(word),
    }
}

#[tactic(auto, unfolding(crate::specs::FlagWords::member_flag))]
fn member_flag(word: &str) -> Option<Access>
    ensures { option_map (λ flag. flag.0) result ≡ member_flag word.now }
{
    match word {
        "private" => Some(Access::PRIVATE),
        "protected" => Some(Access::PROTECTED),
        "static" => Some(Access::STATIC),
        _ => shared_flag(word),
    }
}

#[tactic(auto, unfolding(crate::specs::FlagWords::shared_flag))]
fn shared_flag(word: &str) -> Option<Access>
    ensures { option_map (λ flag. flag.0) result ≡ shared_flag word.now }
{
    match word {
        "public" => Some(Access::PUBLIC),
        "final" => Some(Access::FINAL),
        "synthetic" => Some(Access::SYNTHETIC),
        _ => None,
    }
}
