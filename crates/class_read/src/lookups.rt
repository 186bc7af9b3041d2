// What is found at an index of the constant pool, or why not (JVMS 4.4).
ghost use Rattle.std.specs.Prelude.{◌≡◌};
ghost use Rattle.class_model.specs.Pool.{units_at};
ghost use Rattle.class_model.specs.Lookups.{test, text_at, good_text_at, class_at, names_right, refers_right};
ghost use Rattle.class_model.specs.Lookups.{test_of_units};
ghost use Rattle.class_read.specs.bodies.Seen.{lent_value};
ghost use Rattle.class_read.specs.bodies.Lookups.{referred, type_named_right};
ghost use Rattle.known_pool.specs.bodies.Texts.{obeys};

use class_model::Entry;
use format_reading::FormatKind;
use known_pool::{KnownPool, KnownText, TextRule};

/// A test that has to pass, else a fault of the kind.
pub fn test(kind: FormatKind, passed: bool) -> Result<(), FormatKind>
    ensures { result ≡ test kind passed }
{
    if passed { Ok(()) } else { Err(kind) }
}

/// The text at an index; one with an unpaired surrogate is a fault of the kind.
pub fn text_at(pool: &KnownPool, kind: FormatKind, index: u16) -> Result<&KnownText, FormatKind>
    ensures { lent_value result ≡ text_at kind pool.now index }
{
    if !pool.is_utf8_at(index) {
        return Err(FormatKind::BadIndex);
    }
    match pool.text_there(index) {
        Some(text) => Ok(text),
        None => Err(kind),
    }
}

/// The text at an index, which has to obey a rule, else a fault of the kind.
pub fn good_text_at(
    pool: &KnownPool,
    kind: FormatKind,
    rule: TextRule,
    index: u16,
) -> Result<&KnownText, FormatKind>
    ensures { lent_value result ≡ good_text_at kind (obeys rule) pool.now index }
{
    let text = text_at(pool, kind, index)?;
    test(kind, text.obeys(rule))?;
    Ok(text)
}

/// The name of the class, no array type, that a CONSTANT_Class at an index names (JVMS 4.4.1).
#[tactic(auto, unfolding(class_model::specs::Lookups::class_at))]
pub fn class_at(pool: &KnownPool, index: u16) -> Result<&KnownText, FormatKind>
    ensures { lent_value result ≡ class_at pool.now index }
{
    let Some(Entry::Class(name_index)) = pool.entry_at(index) else {
        return Err(FormatKind::BadIndex);
    };
    let name = text_at(pool, FormatKind::BadName, *name_index)?;
    test(FormatKind::BadName, name.is_class_name())?;
    Ok(name)
}

/// The first thing that an entry names and that isn't there, or isn't what it has to be (JVMS 4.4).
#[tactic(auto, unfolding(class_model::specs::Lookups::names_right))]
pub fn names_right(pool: &KnownPool, entry: &Entry) -> Result<(), FormatKind>
    ensures { result ≡ names_right pool.now entry.now }
{
    match entry {
        Entry::Class(name_index) => type_named_right(pool, *name_index),
        Entry::Str(string_index) => test(FormatKind::BadIndex, pool.is_utf8_at(*string_index)),
        Entry::NameAndType(name_index, descriptor_index) => {
            good_text_at(pool, FormatKind::BadName, TextRule::MethodName, *name_index)?;
            good_text_at(
                pool,
                FormatKind::BadDescriptor,
                TextRule::Descriptor,
                *descriptor_index,
            )?;
            Ok(())
        }
        Entry::Field(class_index, index) => {
            refers_right(
                pool,
                TextRule::MemberName,
                TextRule::FieldDescriptor,
                *class_index,
                *index,
            )
        }
        Entry::Method(class_index, index) | Entry::InterfaceMethod(class_index, index) => {
            refers_right(
                pool,
                TextRule::MethodName,
                TextRule::MethodDescriptor,
                *class_index,
                *index,
            )
        }
        _ => Ok(()),
    }
}

fn type_named_right(pool: &KnownPool, index: u16) -> Result<(), FormatKind>
    ensures { result ≡ type_named_right pool.now index }
{
    let text = text_at(pool, FormatKind::BadName, index)?;
    test(FormatKind::BadName, text.names_type())
}

// The indices of the name and the descriptor of a reference, where the tags of its two entries are right.
fn referred(pool: &KnownPool, class_index: u16, index: u16) -> Result<(u16, u16), FormatKind>
    ensures { result ≡ referred pool.now class_index index }
{
    let Some(Entry::Class(_)) = pool.entry_at(class_index) else {
        return Err(FormatKind::BadIndex);
    };
    match pool.entry_at(index) {
        Some(Entry::NameAndType(name_index, descriptor_index)) => {
            Ok((*name_index, *descriptor_index))
        }
        _ => Err(FormatKind::BadIndex),
    }
}

// A text of a name and type obeys a rule, where its index leads to a text.
fn test_there(
    pool: &KnownPool,
    kind: FormatKind,
    rule: TextRule,
    index: u16,
) -> Result<(), FormatKind>
    ensures { result ≡ test_of_units kind (obeys rule) (units_at pool.now index) }
{
    if !pool.is_utf8_at(index) {
        return Ok(());
    }
    match pool.text_there(index) {
        Some(text) => test(kind, text.obeys(rule)),
        None => Err(kind),
    }
}

fn refers_right(
    pool: &KnownPool,
    name_rule: TextRule,
    descriptor_rule: TextRule,
    class_index: u16,
    index: u16,
) -> Result<(), FormatKind>
    ensures { result ≡ refers_right (obeys name_rule) (obeys descriptor_rule) pool.now class_index index }
{
    let indices = referred(pool, class_index, index)?;
    test_there(pool, FormatKind::BadName, name_rule, indices.0)?;
    test_there(pool, FormatKind::BadDescriptor, descriptor_rule, indices.1)
}
