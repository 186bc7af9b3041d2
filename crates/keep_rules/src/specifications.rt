// Class specifications and member specifications (ProGuard manual, "Class Specifications").
ghost use Rattle.std.specs.Prelude.{◌≡◌, ◌&&◌, IfOk, codes, if◌then◌else◌};
ghost use Rattle.jv_base.specs.Names.{is_text};
ghost use Rattle.keep_rules.specs.Texts.{is_any_member, is_constructor, names_above};
ghost use Rattle.keep_rules.specs.Reader.{ReadsOr, ReadsSo, next_passes, passed};
ghost use Rattle.keep_rules.specs.Specifications.{above, any_arguments, arguments, body, class_spec, constructor};
ghost use Rattle.keep_rules.specs.Specifications.{closed_types, form_of, form_seen, in_braces, member, members};
ghost use Rattle.keep_rules.specs.Specifications.{or_constructor, typed, types, without_parameters};

use crate::ahead::{Words, read_kind, read_mark, read_pattern};
use crate::filtering::{Filtered, read_filters, read_flags};
use crate::texts::{Part, is_any_member, is_constructor, names_above};
use crate::{ClassSpec, Filter, MemberSpec, RuleFault};
use jv_base::{Items, M, Or, Text};
use std::alloc::Global;

// ---- members

/// A member specification without its flags.
#[derive(Drop)]
pub(crate) struct Form {
    pub ty: Option<Text>,
    pub name: Text,
    pub args: Option<Items<Text>>,
}

// Types, joined by commas.
fn read_types(alloc: Global, words: &mut Words<'_>) -> Result<Items<Text>, Or<RuleFault>>
    ensures { ReadsOr result words.new (types words.old) }
{
    let mut types = Items::new(alloc);
    loop {
        types.push(read_pattern(words, Part::Member)?)?;
        if !words.pass(",") {
            return Ok(types);
        }
    }
}

// Types, and the closing parenthesis.
#[tactic(auto, unfolding(crate::specs::Specifications::closed_types, crate::proofs::Unfolding::steps))]
fn read_closed_types(alloc: Global, words: &mut Words<'_>) -> Result<Items<Text>, Or<RuleFault>>
    ensures { ReadsOr result words.new (closed_types words.old) }
{
    let types = read_types(alloc, words)?;
    read_mark(words, Part::Member, ")")?;
    Ok(types)
}

// What stands behind an opening parenthesis.
#[tactic(auto, unfolding(crate::specs::Specifications::arguments, crate::proofs::Unfolding::steps))]
fn read_arguments(alloc: Global, words: &mut Words<'_>) -> Result<Items<Text>, Or<RuleFault>>
    ensures { ReadsOr result words.new (arguments words.old) }
{
    if words.pass(")") {
        Ok(Items::new(alloc))
    } else {
        read_closed_types(alloc, words)
    }
}

// The parameters' types, if there are parentheses.
#[tactic(auto, unfolding(crate::specs::Specifications::any_arguments, crate::proofs::Unfolding::steps))]
fn read_any_arguments(
    alloc: Global,
    words: &mut Words<'_>,
) -> Result<Option<Items<Text>>, Or<RuleFault>>
    ensures { ReadsOr result words.new (any_arguments words.old) }
{
    if words.pass("(") {
        Ok(Some(read_arguments(alloc, words)?))
    } else {
        Ok(None)
    }
}

// A constructor's parameters, behind the opening parenthesis.
#[tactic(auto, unfolding(crate::specs::Specifications::constructor, crate::proofs::Unfolding::steps))]
fn read_constructor(alloc: Global, words: &mut Words<'_>) -> Result<Form, Or<RuleFault>>
    ensures { ReadsSo form_seen result words.new (constructor words.old) }
{
    let args = read_arguments(alloc, words)?;
    let name = Text::from_str(alloc, "<init>")?;
    Ok(Form {
        ty: None,
        name,
        args: Some(args),
    })
}

// A name behind a type, and perhaps parameters.
#[tactic(auto, unfolding(crate::specs::Specifications::typed, crate::specs::Reader::bind, crate::specs::Reader::give))]
fn read_typed(alloc: Global, words: &mut Words<'_>, ty: Text) -> Result<Form, Or<RuleFault>>
    ensures { ReadsSo form_seen result words.new (typed ty words.old) }
{
    let name = read_pattern(words, Part::Member)?;
    let args = read_any_arguments(alloc, words)?;
    Ok(Form {
        ty: Some(ty),
        name,
        args,
    })
}

// What a member specification is that begins with a word.
#[tactic(auto, unfolding(crate::specs::Specifications::form_of, crate::proofs::Unfolding::steps))]
fn read_form(
    alloc: Global,
    words: &mut Words<'_>,
    names: &[Filter],
    first: Text,
) -> Result<Form, Or<RuleFault>>
    ensures { ReadsSo form_seen result words.new (form_of names.now first words.old) }
{
    if is_any_next(words, first.as_str()) {
        return Ok(Form {
            ty: None,
            name: first,
            args: None,
        });
    }
    if is_constructor_next(words, names, first.as_str()) {
        words.skip();
        return read_constructor(alloc, words);
    }
    read_typed(alloc, words, first)
}

// Whether a word stands for any members: `;` is next.
#[tactic(auto, using(crate::proofs::Loops::passes_and))]
fn is_any_next(words: &Words<'_>, first: &str) -> bool
    ensures { result ≡ next_passes (λ word. is_any_member first.now && is_text word (codes ";")) words.now }
{
    is_any_member(first) && words.is_next(";")
}

// Whether a word is the name of a constructor: `(` is next.
#[tactic(auto, using(crate::proofs::Loops::and_passes))]
fn is_constructor_next(words: &Words<'_>, names: &[Filter], first: &str) -> bool
    ensures { result ≡ next_passes (λ word. is_constructor names.now first.now && is_text word (codes "(")) words.now }
{
    words.is_next("(") && is_constructor(names, first)
}

// A member specification with its `;`.
#[tactic(auto, unfolding(crate::specs::Specifications::member, crate::specs::Reader::bind, crate::specs::Reader::give))]
fn read_member(
    alloc: Global,
    words: &mut Words<'_>,
    names: &[Filter],
) -> Result<MemberSpec, Or<RuleFault>>
    ensures { ReadsOr result words.new (member names.now words.old) }
{
    let flags = read_flags(alloc, words, Part::Member)?;
    let first = read_pattern(words, Part::Member)?;
    let form = read_form(alloc, words, names, first)?;
    read_mark(words, Part::Member, ";")?;
    let Form { ty, name, args } = form;
    Ok(MemberSpec {
        flags,
        ty,
        name,
        args,
    })
}

// Member specifications up to the closing brace.
fn read_members(
    alloc: Global,
    words: &mut Words<'_>,
    names: &[Filter],
) -> Result<Items<MemberSpec>, Or<RuleFault>>
    ensures { ReadsOr result words.new (members names.now words.old) }
{
    let mut members = Items::new(alloc);
    while !words.pass("}") {
        members.push(read_member(alloc, words, names)?)?;
    }
    Ok(members)
}

// ---- classes

// The constructor without parameters.
fn without_parameters(alloc: Global) -> M<MemberSpec>
    ensures { IfOk result (λ m. m ≡ without_parameters) }
{
    let name = Text::from_str(alloc, "<init>")?;
    let flags = Items::new(alloc);
    let args = Some(Items::new(alloc));
    Ok(MemberSpec {
        flags,
        ty: None,
        name,
        args,
    })
}

// The members of a specification; where none is written, there is the constructor without parameters.
fn or_constructor(alloc: Global, members: Items<MemberSpec>) -> M<Items<MemberSpec>>
    ensures { IfOk result (λ all. all ≡ or_constructor members) }
{
    let mut members = members;
    if members.is_empty() {
        members.push(without_parameters(alloc)?)?;
    }
    Ok(members)
}

// The members in braces.
#[tactic(auto, unfolding(crate::specs::Specifications::in_braces, crate::proofs::Unfolding::steps))]
fn read_in_braces(
    alloc: Global,
    words: &mut Words<'_>,
    names: &[Filter],
) -> Result<Items<MemberSpec>, Or<RuleFault>>
    ensures { ReadsOr result words.new (in_braces names.now words.old) }
{
    read_mark(words, Part::Class, "{")?;
    let members = read_members(alloc, words, names)?;
    Ok(or_constructor(alloc, members)?)
}

// The members in braces, if there are braces; nothing else may stand there.
#[tactic(auto, unfolding(crate::specs::Specifications::body, crate::specs::Reader::if_end, crate::specs::Reader::give))]
fn read_body(
    alloc: Global,
    words: &mut Words<'_>,
    names: &[Filter],
) -> Result<Items<MemberSpec>, Or<RuleFault>>
    ensures { ReadsOr result words.new (body names.now words.old) }
{
    if words.is_end() {
        Ok(or_constructor(alloc, Items::new(alloc))?)
    } else {
        read_in_braces(alloc, words, names)
    }
}

// Passes over `extends` or `implements`, and says whether it stands there.
fn pass_above(words: &mut Words<'_>) -> bool
    ensures test { result ≡ next_passes names_above words.old }
    ensures passed { words.new ≡ (if result then passed words.old else words.old) }
{
    let is_next = is_above_next(words);
    if is_next {
        words.skip();
    }
    is_next
}

#[tactic(auto, unfolding(crate::specs::Reader::next_passes))]
fn is_above_next(words: &Words<'_>) -> bool
    ensures { result ≡ next_passes names_above words.now }
{
    match words.peek() {
        Some(word) => names_above(word),
        None => false,
    }
}

// The name of a class above, if there is one.
#[tactic(auto, unfolding(crate::specs::Specifications::above, crate::proofs::Unfolding::steps_above))]
fn read_above(words: &mut Words<'_>) -> Result<Option<Text>, Or<RuleFault>>
    ensures { ReadsOr result words.new (above words.old) }
{
    if pass_above(words) {
        Ok(Some(read_pattern(words, Part::Class)?))
    } else {
        Ok(None)
    }
}

/// A class specification.
#[tactic(auto, unfolding(crate::specs::Specifications::class_spec, crate::proofs::Unfolding::steps))]
pub(crate) fn read_class_spec(
    alloc: Global,
    words: &mut Words<'_>,
) -> Result<ClassSpec, Or<RuleFault>>
    ensures { ReadsOr result words.new (class_spec words.old) }
{
    let flags = read_flags(alloc, words, Part::Class)?;
    let kind = read_kind(words)?;
    let names = read_filters(alloc, words, Filtered::Classes)?;
    let above = read_above(words)?;
    let members = read_body(alloc, words, names.as_slice())?;
    Ok(ClassSpec {
        flags,
        kind,
        names,
        above,
        members,
    })
}
