// Rules that name their classes without wildcards, so that these can be looked up.
ghost use Rattle.std.specs.Prelude.{◌≡◌, true, not, [], ◌∷◌, ◌++◌, IfOk, IfSome, IsTrue, MatchOption, length};
ghost use Rattle.jv_base.specs.Names.{is_text};
ghost use Rattle.std.specs.List.{list_any};
ghost use Rattle.keep_match.specs.bodies.Marks.{AreLiteral, AreNames, IsLiteral, IsNumber, IsUnnamed, is_wildcard};

use class_pool::ClassSet;
use jv_base::{M, Text};
use keep_rules::Filter;
use key_table::KeySet;
use report_text::class_text;
use std::alloc::Global;

/// The names of the classes with dots, in the order of the set; none where two classes have one of them.
pub(crate) fn names_of(alloc: Global, set: &ClassSet) -> M<Option<KeySet<Text>>>
    ensures { IfOk result (λ found. IfSome found (λ names. AreNames set.now (length set.now) names)) }
{
    let mut names = KeySet::new(alloc);
    for number in 0..set.len() {
        let class = set.class(number);
        let _name = class.name.as_str();
        if !add_name(&mut names, class_text(alloc, class)?)? {
            return Ok(None);
        }
    }
    Ok(Some(names))
}

/// Whether the name is a new one, which is then put behind the others.
fn add_name(names: &mut KeySet<Text>, name: Text) -> M<bool>
    ensures new { IfOk result (λ is_new. is_new ≡ not (list_any (is_text name) names.old)) }
    ensures names { IfOk result (λ is_new. is_new ≡ true → names.new ≡ names.old ++ name ∷ []) }
{
    names.insert(name)
}

/// The number of the class with a name.
pub(crate) fn number_of(names: &KeySet<Text>, set: &ClassSet, name: &Text) -> Option<u32>
    requires { AreNames set.now (length set.now) names.now }
    ensures { MatchOption result (IsUnnamed set.now name.now) (IsNumber set.now name.now) }
{
    let _count = set.len();
    let number = names.place(name)?;
    Some(number as u32)
}

/// Whether each pattern stands for one name alone, which it is itself.
pub(crate) fn are_literal(filters: &[Filter]) -> bool
    ensures { IsTrue result → AreLiteral (length filters.now) filters.now }
{
    for filter in filters {
        if !is_literal(filter) {
            return false;
        }
    }
    true
}

#[tactic(auto, using(crate::proofs::LiteralLaw::no_wildcard))]
fn is_literal(filter: &Filter) -> bool
    ensures { IsTrue result → IsLiteral filter.now }
{
    !filter.negated && !has_wildcard(filter.pattern.as_str().as_bytes())
}

/// In UTF-8 the bytes of these characters stand in no other one.
pub(crate) fn has_wildcard(pattern: &[u8]) -> bool
    ensures { result ≡ list_any is_wildcard pattern.now }
{
    pattern.iter().any(|byte| *byte == b'*' || *byte == b'?')
}
