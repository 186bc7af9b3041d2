// Patterns with wildcards.
ghost use Rattle.std.specs.Prelude.{◌≡◌, ◌↔◌, IsTrue};
ghost use Rattle.keep_match.specs.Wildcards.{Wild, wild, wild_class};

use crate::scan::is_cut;
use jv_base::Text;

/// Whether a pattern matches a text (ProGuard manual, "Class Specifications"): `?` stands for one character that is no
/// dot, `*` for any number of such, `**` for any number of characters, and every other character for itself.
///
/// It takes no memory, and time of the lengths multiplied at most.
#[tactic(auto, using(crate::proofs::WildLaw::wild_cut, crate::proofs::WildLaw::wild_is))]
pub fn wild(pattern: &Text, text: &Text) -> bool
    ensures cut { IsTrue result ↔ Wild pattern.now text.now }
    ensures is { result ≡ wild pattern.now text.now }
{
    is_cut('.', pattern.as_str(), text.as_str())
}

/// Whether a pattern matches the name of a class in internal form, read with dots in place of slashes.
#[tactic(auto, using(crate::proofs::WildLaw::wild_class_is))]
pub(crate) fn wild_class(pattern: &str, name: &str) -> bool
    ensures { result ≡ wild_class pattern.now name.now }
{
    is_cut('/', pattern, name)
}
