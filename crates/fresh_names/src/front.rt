// The fronts of class names (JVMS 4.2.1).
ghost use Rattle.std.specs.Prelude.{◌≡◌, ◌++◌, [], IfOk, MatchOption, codes};
ghost use Rattle.fresh_names.specs.Given.{front_of};

use jv_base::{M, Name, Text};
use std::alloc::Global;

/// The package of a class with the `/` behind it, or nothing.
pub(crate) fn front_of(alloc: Global, name: &Name) -> M<Text>
    ensures { IfOk result (λ front. front ≡ front_of name.now) }
{
    let text = name.as_str();
    let split = text.rsplit_once('/');
    front_in(alloc, text, split)
}

/// The same of a name that is split at its last `/`.
fn front_in(alloc: Global, text: &str, split: Option<(&str, &str)>) -> M<Text>
    requires { MatchOption split ([] ≡ front_of text.now) (λ x. x.0.now ++ codes "/" ≡ front_of text.now) }
    ensures { IfOk result (λ front. front ≡ front_of text.now) }
{
    let _ = text;
    match split {
        Some((before, _)) => with_slash(alloc, before),
        None => Ok(Text::from_str(alloc, "")?),
    }
}

fn with_slash(alloc: Global, before: &str) -> M<Text>
    ensures { IfOk result (λ front. front ≡ before.now ++ codes "/") }
{
    let mut front = String::from_str(alloc, before)?;
    front.push_str("/")?;
    Ok(Text::from_string(alloc, front)?)
}
