// Fields and methods by their names (JVMS 4.5, 4.6).
ghost use Rattle.std.specs.Prelude.{◌≡◌, ◌++◌};
ghost use Rattle.std.specs.Cmp as compared;
ghost use Rattle.std.specs.Cmp.{and_equiv, on_equiv};
ghost use Rattle.std.specs.Cmp.Lexicographic.{nat_list_eq_equiv};
ghost use Rattle.std.specs.Cmp.Rules.{hashing};
ghost use Rattle.std.specs.Hash as fed;
ghost use Rattle.std.proofs.Common.{rules};
ghost use Rattle.jvm_model.specs.Value.{same_key};
ghost use Rattle.run_heap.specs.Held.{key_of, same_names};

use jv_base::{Name, Text};
use std::alloc::AllocError;
use std::hash::{Hash, Hasher};
use std::marker::Model;

/// The class that declares a field or a method, its name and its descriptor.
#[derive(Drop)]
pub struct MemberNames {
    pub class: Name,
    pub name: Name,
    pub descriptor: Text,
}

impl PartialEq for MemberNames {
    ghost eq = { same_names };

    ghost laws = { compared.partial_equiv_from_equiv (and_equiv
        (and_equiv (on_equiv (λ n. n.class) nat_list_eq_equiv) (on_equiv (λ n. n.name) nat_list_eq_equiv))
        (on_equiv (λ n. n.descriptor) nat_list_eq_equiv)) };

    /// Most are told apart by their names.
    fn eq(&self, other: &MemberNames) -> bool {
        self.name == other.name && self.class == other.class && self.descriptor == other.descriptor
    }
}

impl Eq for MemberNames {
    ghost laws = { and_equiv
        (and_equiv (on_equiv (λ n. n.class) nat_list_eq_equiv) (on_equiv (λ n. n.name) nat_list_eq_equiv))
        (on_equiv (λ n. n.descriptor) nat_list_eq_equiv) };
}

impl Hash for MemberNames {
    ghost hash_input = { λ n. fed.str n.class ++ fed.str n.name ++ fed.str n.descriptor };

    ghost respects_eq = { Prim.search (hashing, rules) };

    fn hash<H: Hasher>(&self, state: &mut H) {
        self.class.hash(state);
        self.name.hash(state);
        self.descriptor.hash(state);
    }
}

/// A field or a method: the class that declares it, its name and its descriptor. A clone shares them.
#[derive(Drop)]
pub struct Key {
    pub(crate) names: MemberNames,
}

impl Model for Key {
    ghost use Rattle.jvm_model.specs.Value as machine;

    ghost Value = { machine.Key };

    ghost view = { λ k. record { class = k.names.class; name = k.names.name; descriptor = k.names.descriptor } };
}

impl Key {
    /// The member of a class with a name and a descriptor.
    pub fn new(class: Name, name: Name, descriptor: Text) -> Self
        ensures { result ≡ record { class = class; name = name; descriptor = descriptor } }
    {
        Key {
            names: MemberNames {
                class,
                name,
                descriptor,
            },
        }
    }

    /// The class that declares it.
    pub fn class(&self) -> &Name
        ensures { result.now ≡ self.now.class }
    {
        &self.names.class
    }

    /// Its name.
    pub fn name(&self) -> &Name
        ensures { result.now ≡ self.now.name }
    {
        &self.names.name
    }

    /// Its descriptor.
    pub fn descriptor(&self) -> &Text
        ensures { result.now ≡ self.now.descriptor }
    {
        &self.names.descriptor
    }

    /// Whether two are one.
    pub fn is_same(&self, other: &Key) -> bool
        ensures { result ≡ same_key self.now other.now }
    {
        self.names == other.names
    }

    /// The names of it.
    pub(crate) fn names(&self) -> &MemberNames
        ensures { key_of result.now ≡ self.now }
    {
        &self.names
    }
}

impl Clone for Key {
    ghost is_clone = { λ a b. b ≡ a };

    fn clone(&self) -> Result<Key, AllocError> {
        let class = self.names.class.clone()?;
        let name = self.names.name.clone()?;
        let descriptor = self.names.descriptor.clone()?;
        Ok(Key::new(class, name, descriptor))
    }
}
