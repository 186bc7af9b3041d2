// Member specifications (ProGuard manual, "Class Specifications").
ghost use Rattle.std.specs.Prelude.{◌≡◌, ◌+◌, ◌<◌, IfOk, Some, length, slice_get};
ghost use Rattle.class_model.specs.declared.class.Class.{Class};
ghost use Rattle.keep_match.specs.Matches.{fits_field, fits_method, is_all_or, is_result_met, matches_field};
ghost use Rattle.keep_match.specs.Matches.{matches_method, member_matches, members_matched};

use crate::flag_word::{FlagsOf, flags_met};
use crate::type_pattern::{match_arguments, matches_result, matches_type};
use crate::wildcard::wild;
use class_model::{Class, Field, Method};
use class_pool::ClassSet;
use jv_base::{M, Text};
use keep_rules::MemberSpec;

/// Whether a member specification matches the member of a number of the class of a number (ProGuard manual, "Class
/// Specifications"), whether or not the class is matched. Fields are numbered first, then methods.
pub fn member_matches(spec: &MemberSpec, set: &ClassSet, class: u32, member: u32) -> M<bool>
    requires class { class < length set.now }
    requires member { (c : Class) → slice_get set.now class ≡ Some c → member < length c.fields + length c.methods }
    ensures { IfOk result (λ matched. matched ≡ member_matches spec.now set.now class member) }
{
    Ok(matches_member(spec, set.class(class), member))
}

pub(crate) fn matches_member(spec: &MemberSpec, class: &Class, member: u32) -> bool
    requires { member < length class.now.fields + length class.now.methods }
    ensures { Some result ≡ slice_get (members_matched spec.now class.now) member }
{
    let index = member as usize;
    let fields = class.fields.len();
    if index < fields {
        matches_field(spec, &class.fields[index])
    } else {
        matches_method(spec, &class.methods[index - fields])
    }
}

#[tactic(auto, unfolding(crate::specs::Matches::matches_field))]
pub(crate) fn matches_field(spec: &MemberSpec, field: &Field) -> bool
    ensures { result ≡ matches_field spec.now field.now }
{
    fits_field(spec, field) && flags_met(FlagsOf::Field, field.flags, spec.flags.as_slice())
}

fn fits_field(spec: &MemberSpec, field: &Field) -> bool
    ensures { result ≡ fits_field spec.now.ty spec.now.name spec.now.args field.now }
{
    match (&spec.ty, &spec.args) {
        (None, None) => is_all_or("<fields>", spec.name.as_str()),
        (Some(ty), None) => wild(&spec.name, &field.name) && matches_type(ty.as_str(), &field.ty),
        (_, Some(_)) => false,
    }
}

fn is_all_or(word: &str, name: &str) -> bool
    ensures { result ≡ is_all_or word.now name.now }
{
    name == "*" || name == word
}

#[tactic(auto, unfolding(crate::specs::Matches::matches_method))]
pub(crate) fn matches_method(spec: &MemberSpec, method: &Method) -> bool
    ensures { result ≡ matches_method spec.now method.now }
{
    fits_method(spec, method) && flags_met(FlagsOf::Method, method.flags, spec.flags.as_slice())
}

fn fits_method(spec: &MemberSpec, method: &Method) -> bool
    ensures { result ≡ fits_method spec.now.ty spec.now.name spec.now.args method.now }
{
    match (&spec.ty, &spec.args) {
        (None, None) => {
            is_all_or("<methods>", spec.name.as_str()) && method.name.as_str() != "<clinit>"
        }
        (Some(_), None) => false,
        (_, Some(args)) => {
            wild(&spec.name, &method.name)
                && is_result_met(&spec.ty, method)
                && match_arguments(args.as_slice(), method.ty.args.as_slice())
        }
    }
}

fn is_result_met(ty: &Option<Text>, method: &Method) -> bool
    ensures { result ≡ is_result_met ty.now method.now }
{
    match ty {
        None => true,
        Some(pattern) => matches_result(pattern.as_str(), &method.ty.ret),
    }
}
