// A constant pool with what its texts and its references stand for (JVMS 4.4).
ghost use Rattle.std.specs.Prelude.{◌≡◌, IfOk, option_and_then, option_copied, slice_get, is_some};
ghost use Rattle.class_model.specs.Pool.{units_at};
ghost use Rattle.class_model.specs.ConstantPool.{string_units_at};
ghost use Rattle.class_model.specs.Lookups.{text_there, type_at, class_at, value_of, fieldref_at, methodref_at};
ghost use Rattle.class_model.specs.Lookups.{interface_methodref_at};
ghost use Rattle.known_pool.specs.Members.{member_in};

use crate::members::{KnownMember, members_of};
use crate::text_pool::{TextPool, text_pool};
use crate::texts::KnownText;
use class_model::{Entry, Pool};
use jv_base::{FieldType, Items, M, Name, Shared, Units};
use std::alloc::Global;
use std::marker::Model;

/// A constant pool. What each of its texts may stand for is known, and each reference to a member is there once, so
/// that neither is asked for again at each place that names it.
#[derive(Drop)]
pub struct KnownPool {
    texts: TextPool,
    members: Items<Option<KnownMember>>,
}

impl Model for KnownPool {
    ghost use Rattle.std.specs.Prelude.{List, map, ◌≡◌};
    ghost use Rattle.class_model.specs.declared.pool.Entry.{Entry};
    ghost use Rattle.known_pool.specs.Members.{member_in};

    ghost Value = { List Entry };

    ghost view = { λ p. p.texts };

    ghost invariant = { λ p. p.members ≡ map (member_in p.texts) p.texts };
}

impl KnownPool {
    /// The pool itself.
    pub fn pool(&self) -> &Pool
        ensures { result.now.entries ≡ self.now }
    {
        self.texts.pool()
    }

    /// The entry at an index.
    pub fn entry_at(&self, index: u16) -> Option<&Entry>
        ensures { option_copied result ≡ slice_get self.now index }
    {
        self.texts.entry_at(index)
    }

    /// The text at an index. There is none where the entry is no CONSTANT_Utf8, or where a surrogate in it is
    /// unpaired.
    pub fn text_there(&self, index: u16) -> Option<&KnownText>
        ensures { option_copied result ≡ text_there self.now index }
    {
        self.texts.text_there(index)
    }

    /// The units of the CONSTANT_Utf8 at an index.
    pub fn units_at(&self, index: u16) -> Option<&Shared<Units>>
        ensures { option_copied result ≡ units_at self.now index }
    {
        self.texts.units_at(index)
    }

    /// The units of the text that the CONSTANT_String at an index names (JVMS 4.4.3).
    pub fn string_units_at(&self, index: u16) -> Option<&Shared<Units>>
        ensures { option_copied result ≡ string_units_at self.now index }
    {
        self.texts.string_units_at(index)
    }

    /// Whether there is a CONSTANT_Utf8 at an index.
    pub fn is_utf8_at(&self, index: u16) -> bool
        ensures { result ≡ is_some (units_at self.now index) }
    {
        self.texts.is_utf8_at(index)
    }

    /// The class or array type that the CONSTANT_Class at an index names (JVMS 4.4.1).
    pub fn type_at(&self, index: u16) -> M<Option<FieldType>>
        ensures { IfOk result (λ ty. ty ≡ type_at self.now index) }
    {
        self.texts.type_at(index)
    }

    /// The name of the class, no array type, that the CONSTANT_Class at an index names (JVMS 4.4.1).
    pub fn class_at(&self, index: u16) -> Option<&Name>
        ensures { option_copied result ≡ value_of (class_at self.now index) }
    {
        self.texts.class_at(index)
    }

    // The member that the entry at an index refers to.
    fn member_at(&self, index: u16) -> Option<&KnownMember>
        ensures { option_copied result ≡ option_and_then (member_in self.now) (slice_get self.now index) }
    {
        match self.members.get(usize::from(index)) {
            Some(Some(member)) => Some(member),
            _ => None,
        }
    }

    /// The field that the CONSTANT_Fieldref at an index names (JVMS 4.4.2).
    #[tactic(auto, unfolding(class_model::specs::Lookups::fieldref_at))]
    pub fn fieldref_at(&self, index: u16) -> Option<&KnownMember>
        ensures { option_copied result ≡ fieldref_at self.now index }
    {
        match self.entry_at(index) {
            Some(Entry::Field(..)) => self.member_at(index),
            _ => None,
        }
    }

    /// The method that the CONSTANT_Methodref at an index names (JVMS 4.4.2).
    #[tactic(auto, unfolding(class_model::specs::Lookups::methodref_at))]
    pub fn methodref_at(&self, index: u16) -> Option<&KnownMember>
        ensures { option_copied result ≡ methodref_at self.now index }
    {
        match self.entry_at(index) {
            Some(Entry::Method(..)) => self.member_at(index),
            _ => None,
        }
    }

    /// The method that the CONSTANT_InterfaceMethodref at an index names (JVMS 4.4.2).
    #[tactic(auto, unfolding(class_model::specs::Lookups::interface_methodref_at))]
    pub fn interface_methodref_at(&self, index: u16) -> Option<&KnownMember>
        ensures { option_copied result ≡ interface_methodref_at self.now index }
    {
        match self.entry_at(index) {
            Some(Entry::InterfaceMethod(..)) => self.member_at(index),
            _ => None,
        }
    }
}

/// The pool of these entries.
pub fn pool_of(alloc: Global, entries: Items<Entry>) -> M<KnownPool>
    ensures { IfOk result (λ pool. pool ≡ entries) }
{
    let texts = text_pool(alloc, entries)?;
    let members = members_of(alloc, &texts, texts.pool().entries.as_slice())?;
    Ok(KnownPool { texts, members })
}
