// The arguments of an entry, by the words behind it.
ghost use Rattle.std.specs.Prelude.{◌≡◌, ◌<◌, ◌≤◌, ◌^◌, ◌==◌, ◌&&◌, if◌then◌else◌, IfOk, IfSome, None, Some, length};
ghost use Rattle.std.specs.Prelude.{neg_ℤ, pos};
ghost use Rattle.text_lines.specs.Numbers.{are_digits, is_numeral, number_below};
ghost use Rattle.run_command.specs.Arguments.{arg_in, arg_of_base, args_in, char_number, int, is_string, is_texts, long};
ghost use Rattle.run_command.specs.Arguments.{signed, string_in, strings_in, text_arg, texts_in, truth};

use class_run::Arg;
use jv_base::{Base, FieldType, Items, M, Text, Units, units_of_text};
use std::alloc::Global;
use text_lines::{after, number_below};

/// A String has fewer units than this, and an array fewer components: a length is an int (Java SE 8 API, String; JVMS
/// 6.5.arraylength).
const LENGTHS: usize = 2_147_483_648;

/// The arguments that words are for parameters of these types, if they are: one word for each, and for a last String[]
/// all words that are left.
pub(crate) fn args_in(alloc: Global, types: &[FieldType], words: &[Text]) -> M<Option<Items<Arg>>>
    ensures { IfOk result (λ args. args ≡ args_in types.now words.now) }
{
    let mut args = Items::new(alloc);
    let mut others = types;
    let mut left = words;
    while let [ty, behind @ ..] = others {
        if takes_rest(ty, behind) {
            let Some(texts) = texts_in(alloc, left)? else {
                return Ok(None);
            };
            args.push(Arg::Texts(texts))?;
            return Ok(Some(args));
        }
        let [word, rest @ ..] = left else {
            return Ok(None);
        };
        let Some(arg) = arg_in(alloc, ty, word)? else {
            return Ok(None);
        };
        args.push(arg)?;
        others = behind;
        left = rest;
    }
    Ok(whole(args, left))
}

/// Whether a parameter with others behind it takes all words that are left.
fn takes_rest(ty: &FieldType, behind: &[FieldType]) -> bool
    ensures { result ≡ (length behind.now == 0 && is_texts ty.now) }
{
    behind.is_empty() && is_texts(ty)
}

/// The arguments of all parameters, where no word is left.
fn whole(args: Items<Arg>, left: &[Text]) -> Option<Items<Arg>>
    ensures { result ≡ (if length left.now == 0 then Some args else None) }
{
    if left.is_empty() { Some(args) } else { None }
}

/// The strings that words spell, if an array can have as many.
fn texts_in(alloc: Global, words: &[Text]) -> M<Option<Items<Units>>>
    ensures { IfOk result (λ texts. texts ≡ texts_in words.now) }
{
    if words.len() < LENGTHS {
        strings_in(alloc, words)
    } else {
        Ok(None)
    }
}

/// The strings that words spell, if each spells one.
fn strings_in(alloc: Global, words: &[Text]) -> M<Option<Items<Units>>>
    ensures { IfOk result (λ texts. texts ≡ strings_in words.now) }
{
    let mut texts = Items::new(alloc);
    for word in words {
        let Some(units) = string_in(alloc, word)? else {
            return Ok(None);
        };
        texts.push(units)?;
    }
    Ok(Some(texts))
}

/// The string that a word spells, if a String can have as many units.
fn string_in(alloc: Global, word: &Text) -> M<Option<Units>>
    ensures { IfOk result (λ units. units ≡ string_in word.now) }
{
    let units = units_of_text(alloc, word)?;
    if units.len() < LENGTHS {
        Ok(Some(units))
    } else {
        Ok(None)
    }
}

fn is_texts(ty: &FieldType) -> bool
    ensures { result ≡ is_texts ty.now }
{
    ty.dims == 1 && is_string(&ty.base)
}

fn is_string(base: &Base) -> bool
    ensures { result ≡ is_string base.now }
{
    match base {
        Base::Class(name) => name.as_str() == "java/lang/String",
        _ => false,
    }
}

/// The argument that a word is for a parameter of a type.
fn arg_in(alloc: Global, ty: &FieldType, word: &Text) -> M<Option<Arg>>
    ensures { IfOk result (λ arg. arg ≡ arg_in ty.now word.now) }
{
    if ty.dims == 0 {
        arg_of_base(alloc, &ty.base, word)
    } else {
        Ok(None)
    }
}

#[tactic(auto, unfolding(crate::specs::Arguments::arg_of_base))]
fn arg_of_base(alloc: Global, base: &Base, word: &Text) -> M<Option<Arg>>
    ensures { IfOk result (λ arg. arg ≡ arg_of_base base.now word.now) }
{
    let text = word.as_str();
    match base {
        Base::Boolean => Ok(truth(text)),
        Base::Byte => Ok(int(text, 128)),
        Base::Char => Ok(char_number(text)),
        Base::Short => Ok(int(text, 32_768)),
        Base::Int => Ok(int(text, 2_147_483_648)),
        Base::Long => Ok(long(text)),
        Base::Class(name) if name.as_str() == "java/lang/String" => text_arg(alloc, word),
        _ => Ok(None),
    }
}

fn text_arg(alloc: Global, word: &Text) -> M<Option<Arg>>
    ensures { IfOk result (λ arg. arg ≡ text_arg word.now) }
{
    let Some(units) = string_in(alloc, word)? else {
        return Ok(None);
    };
    Ok(Some(Arg::Text(units)))
}

fn truth(word: &str) -> Option<Arg>
    ensures { result ≡ truth word.now }
{
    if word == "true" {
        Some(Arg::Int(1))
    } else if word == "false" {
        Some(Arg::Int(0))
    } else {
        None
    }
}

fn char_number(word: &str) -> Option<Arg>
    ensures { result ≡ char_number word.now }
{
    let number = number_below(word, 65_536)?;
    Some(Arg::Int(number as i32))
}

fn int(word: &str, limit: u32) -> Option<Arg>
    requires { limit ≤ 2147483648 }
    ensures { result ≡ int limit word.now }
{
    let number = signed(word, limit)?;
    Some(Arg::Int(number))
}

fn long(word: &str) -> Option<Arg>
    ensures { result ≡ long word.now }
{
    let number = signed_long(word)?;
    Some(Arg::Long(number))
}

// ---- numbers

/// An int below a limit and not below its negation.
#[tactic(auto, unfolding(crate::specs::Arguments::signed))]
fn signed(word: &str, limit: u32) -> Option<i32>
    requires { limit ≤ 2147483648 }
    ensures { result ≡ signed limit word.now }
{
    match after(word, "~") {
        Some(digits) => {
            let number = number_below(digits, limit + 1)?;
            Some(negated(number))
        }
        None => {
            let number = number_below(word, limit)?;
            Some(number as i32)
        }
    }
}

fn negated(number: u32) -> i32
    requires { number ≤ 2147483648 }
    ensures { result ≡ neg_ℤ (pos number) }
{
    -(number as i64) as i32
}

/// A long.
#[tactic(auto, unfolding(crate::specs::Arguments::signed))]
fn signed_long(word: &str) -> Option<i64>
    ensures { result ≡ signed 9223372036854775808 word.now }
{
    match after(word, "~") {
        Some(digits) => {
            let number = long_below(digits, 9_223_372_036_854_775_809)?;
            Some(negated_long(number))
        }
        None => {
            let number = long_below(word, 9_223_372_036_854_775_808)?;
            Some(number as i64)
        }
    }
}

fn negated_long(number: u64) -> i64
    requires { number ≤ 9223372036854775808 }
    ensures { result ≡ neg_ℤ (pos number) }
{
    -(number as i128) as i64
}

/// The number of 64 bits below a limit that a text spells in decimal digits without a leading zero.
#[tactic(auto, using(crate::proofs::Longs::narrow_none, crate::proofs::Longs::narrow_some))]
fn long_below(text: &str, limit: u64) -> Option<u64>
    ensures is { result ≡ number_below limit text.now }
    ensures below { IfSome result (λ n. n < limit) }
{
    let number = long_number(text)?;
    if number < limit { Some(number) } else { None }
}

#[tactic(auto, unfolding(text_lines::specs::Numbers::number_below))]
fn long_number(text: &str) -> Option<u64>
    ensures { result ≡ number_below (2 ^ 64) text.now }
{
    if !is_numeral(text) {
        return None;
    }
    text.parse().ok()
}

#[tactic(auto, unfolding(text_lines::specs::Numbers::is_numeral))]
fn is_numeral(text: &str) -> bool
    ensures { result ≡ is_numeral text.now }
{
    match text.as_bytes() {
        [] => false,
        [first, rest @ ..] => are_digits(text.as_bytes()) && (*first != b'0' || rest.is_empty()),
    }
}

fn are_digits(bytes: &[u8]) -> bool
    ensures { result ≡ are_digits bytes.now }
{
    bytes.iter().all(|b| b.is_ascii_digit())
}
