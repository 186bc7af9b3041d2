// Filters of names (ProGuard manual, "Filters").
ghost use Rattle.std.specs.Prelude.{◌≡◌};
ghost use Rattle.keep_match.specs.Filters.{accepts, accepts_attribute};
ghost use Rattle.keep_match.specs.Matches.{matches_class_name};

use crate::wildcard::{wild, wild_class};
use jv_base::{Items, Text};
use keep_rules::Filter;

/// Whether a filter accepts the name of an attribute: the first pattern that matches decides, and rejects where it
/// stands behind a `!`; where none matches, the name is accepted exactly where the last one stands behind a `!`.
pub fn accepts_attribute(filters: &Items<Filter>, name: &Text) -> bool
    ensures { result ≡ accepts_attribute filters.now name.now }
{
    let mut accepted = false;
    for filter in filters.as_slice() {
        if wild(&filter.pattern, name) {
            return !filter.negated;
        }
        accepted = filter.negated;
    }
    accepted
}

/// The same of the name of a class in internal form, and patterns for these.
pub(crate) fn accepts_class(filters: &[Filter], name: &str) -> bool
    ensures { result ≡ accepts (λ pattern. matches_class_name pattern name.now) filters.now }
{
    let mut accepted = false;
    for filter in filters {
        if matches_class_name(&filter.pattern, name) {
            return !filter.negated;
        }
        accepted = filter.negated;
    }
    accepted
}

/// Whether a pattern matches the name of a class in internal form, `*` alone each name. It is read with dots in place
/// of slashes.
pub(crate) fn matches_class_name(pattern: &Text, name: &str) -> bool
    ensures { result ≡ matches_class_name pattern.now name.now }
{
    pattern.as_str() == "*" || wild_class(pattern.as_str(), name)
}
