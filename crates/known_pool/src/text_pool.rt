// A constant pool with what its texts may stand for (JVMS 4.4).
ghost use Rattle.std.specs.Prelude.{◌≡◌, IfOk, map, option_and_then, option_copied, slice_get, Some, is_some};
ghost use Rattle.class_model.specs.Pool.{units_at, class_units_at};
ghost use Rattle.class_model.specs.ConstantPool.{string_units_at, name_and_type_at};
ghost use Rattle.class_model.specs.Lookups.{text_of, text_there, type_at, class_at, value_of};
ghost use Rattle.known_pool.specs.bodies.Texts.{text_in};

use crate::texts::{KnownText, known_text, text_of};
use class_model::{Entry, Pool};
use jv_base::{FieldType, Items, M, Name, Shared, Units};
use std::alloc::Global;
use std::marker::Model;

/// A constant pool. What each of its texts may stand for is known, so that it isn't asked for again at each
/// place that names the text.
#[derive(Drop)]
pub struct TextPool {
    pool: Pool,
    texts: Items<Option<KnownText>>,
}

impl Model for TextPool {
    ghost use Rattle.std.specs.Prelude.{List, map, ◌≡◌};
    ghost use Rattle.class_model.specs.declared.pool.Entry.{Entry};
    ghost use Rattle.known_pool.specs.bodies.Texts.{text_in};

    ghost Value = { List Entry };

    ghost view = { λ p. p.pool.entries };

    ghost invariant = { λ p. p.texts ≡ map text_in p.pool.entries };
}

impl TextPool {
    /// The pool itself.
    pub fn pool(&self) -> &Pool
        ensures { result.now.entries ≡ self.now }
    {
        &self.pool
    }

    /// The entry at an index.
    pub fn entry_at(&self, index: u16) -> Option<&Entry>
        ensures { option_copied result ≡ slice_get self.now index }
    {
        self.pool.entries.get(usize::from(index))
    }

    /// The text at an index. There is none where the entry is no CONSTANT_Utf8, or where a surrogate in it is
    /// unpaired.
    pub fn text_there(&self, index: u16) -> Option<&KnownText>
        ensures { option_copied result ≡ text_there self.now index }
    {
        match self.texts.get(usize::from(index)) {
            Some(Some(text)) => Some(text),
            _ => None,
        }
    }

    /// The units of the CONSTANT_Utf8 at an index.
    pub fn units_at(&self, index: u16) -> Option<&Shared<Units>>
        ensures { option_copied result ≡ units_at self.now index }
    {
        match self.entry_at(index) {
            Some(Entry::Utf8(units)) => Some(units),
            _ => None,
        }
    }

    /// The units of the text that the CONSTANT_String at an index names (JVMS 4.4.3).
    pub fn string_units_at(&self, index: u16) -> Option<&Shared<Units>>
        ensures { option_copied result ≡ string_units_at self.now index }
    {
        match self.entry_at(index) {
            Some(Entry::Str(string_index)) => self.units_at(*string_index),
            _ => None,
        }
    }

    /// The text that the CONSTANT_Class at an index names.
    fn class_text_at(&self, index: u16) -> Option<&KnownText>
        ensures { option_copied result ≡ option_and_then text_of (class_units_at self.now index) }
    {
        match self.entry_at(index) {
            Some(Entry::Class(name_index)) => self.text_there(*name_index),
            _ => None,
        }
    }

    /// The class or array type that the CONSTANT_Class at an index names (JVMS 4.4.1).
    #[tactic(auto, unfolding(class_model::specs::Lookups::type_at))]
    pub fn type_at(&self, index: u16) -> M<Option<FieldType>>
        ensures { IfOk result (λ ty. ty ≡ type_at self.now index) }
    {
        match self.class_text_at(index) {
            Some(text) => text.named_type(),
            None => Ok(None),
        }
    }

    /// The name of the class, no array type, that the CONSTANT_Class at an index names (JVMS 4.4.1).
    #[tactic(auto, unfolding(class_model::specs::Lookups::class_at))]
    pub fn class_at(&self, index: u16) -> Option<&Name>
        ensures { option_copied result ≡ value_of (class_at self.now index) }
    {
        match self.class_text_at(index) {
            Some(text) if text.is_class_name() => Some(text.text()),
            _ => None,
        }
    }

    /// The indices of the name and the descriptor in the CONSTANT_NameAndType at an index (JVMS 4.4.6).
    pub fn name_and_type_at(&self, index: u16) -> Option<(u16, u16)>
        ensures { result ≡ name_and_type_at self.now index }
    {
        match self.entry_at(index) {
            Some(Entry::NameAndType(name_index, descriptor_index)) => {
                Some((*name_index, *descriptor_index))
            }
            _ => None,
        }
    }

    /// Whether there is a CONSTANT_Utf8 at an index.
    pub fn is_utf8_at(&self, index: u16) -> bool
        ensures { result ≡ is_some (units_at self.now index) }
    {
        matches!(self.entry_at(index), Some(Entry::Utf8(_)))
    }
}

/// The pool of these entries.
pub fn text_pool(alloc: Global, entries: Items<Entry>) -> M<TextPool>
    ensures { IfOk result (λ pool. pool ≡ entries) }
{
    let texts = known_texts(alloc, entries.as_slice())?;
    Ok(TextPool {
        pool: Pool { entries },
        texts,
    })
}

fn known_texts(alloc: Global, entries: &[Entry]) -> M<Items<Option<KnownText>>>
    ensures { IfOk result (λ texts. texts ≡ map text_in entries.now) }
{
    let mut texts = Items::with_capacity(alloc, entries.len())?;
    for entry in entries {
        let text = text_in(alloc, entry)?;
        texts.push(text)?;
    }
    Ok(texts)
}

fn text_in(alloc: Global, entry: &Entry) -> M<Option<KnownText>>
    ensures { IfOk result (λ text. text ≡ text_in entry.now) }
{
    let Entry::Utf8(units) = entry else {
        return Ok(None);
    };
    match text_of(alloc, units.as_slice())? {
        Some(text) => Ok(Some(known_text(alloc, text)?)),
        None => Ok(None),
    }
}
