// The words that arguments take (JVMS 4.3.3).
ghost use Rattle.std.specs.Prelude.{◌≡◌, ◌≤◌};
ghost use Rattle.jv_base.specs.Types.{argument_words, words_of};

use crate::{Base, FieldType};

/// How many words an argument of this type takes.
#[tactic(auto, unfolding(crate::specs::Types::words_of))]
pub fn words_of(ty: &FieldType) -> u32
    ensures words { result ≡ words_of ty.now }
    ensures few { result ≤ 2 }
{
    match ty.base {
        Base::Long | Base::Double if ty.dims == 0 => 2,
        _ => 1,
    }
}

/// How many words the arguments take, `this` aside.
#[tactic(auto, unfolding(crate::specs::Types::argument_words))]
pub fn argument_words(args: &[FieldType]) -> u32
    requires { argument_words args.now ≤ 255 }
    ensures { result ≡ argument_words args.now }
{
    let mut words = 0;
    for ty in args {
        words += words_of(ty);
    }
    words
}
