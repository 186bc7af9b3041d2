// The signatures by which the members of a class differ (JVMS 4.5, 4.6).
ghost use Rattle.std.specs.Prelude.{◌≡◌, [], ◌∷◌, ◌++◌, true, not, IfOk, OnOk, OnErr, is_ok, if◌then◌else◌};
ghost use Rattle.std.specs.List.{list_any};
ghost use Rattle.format_reading.specs.declared.fault.FormatKind.TheVariants.{Repeated};
ghost use Rattle.class_model.specs.Lookups.{test};
ghost use Rattle.class_model.specs.ReadingMembers.{same_signature};
ghost use Rattle.class_read.specs.bodies.Entries.{found_at};
ghost use Rattle.class_read.specs.bodies.Signatures.{SignatureKey, Knows, key_of, same_key};

use crate::faults::fault;
use format_reading::{FormatFault, FormatKind};
use jv_base::{M, Text};
use std::alloc::Global;
use std::collections::BTreeSet;
use std::marker::Model;

/// The lengths and the tails of a name and a descriptor, then the shorter of the two and the longer one. In this order
/// few texts are compared: those whose lengths and tails agree, and the longer ones only where the shorter ones are
/// equal.
type Key = (Marks, Text, Text);

/// The lengths of two texts, and their tails.
type Marks = (usize, usize, u64, u64);

/// A member's name and its descriptor, which contracts see as a pair.
#[derive(Drop)]
pub struct Signature {
    key: Key,
}

impl Model for Signature {
    ghost use Rattle.std.specs.Prelude.{◌≡◌};
    ghost use Rattle.class_model.specs.ReadingMembers.{Signature};
    ghost use Rattle.class_read.specs.bodies.Signatures.{key_of, signature_of};

    ghost Value = { Signature };

    ghost view = { λ s. signature_of s.key };

    ghost invariant = { λ s. key_of (signature_of s.key) ≡ s.key };
}

/// The signature of a name and a descriptor.
#[tactic(auto, using(crate::proofs::SignatureKeys::told_back))]
pub fn signature_of(name: Text, descriptor: Text) -> Signature
    ensures { result ≡ (name, descriptor) }
{
    Signature {
        key: key_of(name, descriptor),
    }
}

fn key_of(name: Text, descriptor: Text) -> Key
    ensures { result ≡ key_of (name, descriptor) }
{
    let marks = (name.len(), descriptor.len(), name.tail(), descriptor.tail());
    if marks.0 <= marks.1 {
        (marks, name, descriptor)
    } else {
        (marks, descriptor, name)
    }
}

/// The signatures of the members that stand before one, the last one first.
#[derive(Drop)]
pub struct Signatures {
    before: Vec<Signature>,
    /// They are found in a tree, so that no choice of texts makes a look-up slow.
    keys: BTreeSet<Key>,
}

impl Model for Signatures {
    ghost use Rattle.std.specs.Prelude.{List};
    ghost use Rattle.class_model.specs.ReadingMembers.{Signature};
    ghost use Rattle.class_read.specs.bodies.Signatures.{Knows, newest_first};

    ghost Value = { List Signature };

    ghost view = { λ s. newest_first s.before.items };

    ghost invariant = { λ s. Knows s.before.items s.keys.keys };
}

impl Signatures {
    /// None.
    pub fn new(alloc: Global) -> Self
        ensures { result ≡ [] }
    {
        Signatures {
            before: Vec::new(alloc),
            keys: BTreeSet::new(alloc),
        }
    }

    /// The member at an offset is none of those before, else it is at fault.
    pub fn check_fresh(&self, at: u32, signature: &Signature) -> Result<(), FormatFault>
        ensures { result ≡ found_at at (test Repeated (not (list_any (same_signature signature.now) self.now))) }
    {
        check_key(&self.keys, at, &signature.key)
    }

    /// One more.
    #[tactic(auto, using(crate::proofs::Newest::newest_more))]
    pub fn push(&mut self, signature: Signature) -> M<()>
        ensures { OnOk result (self.new ≡ signature ∷ self.old) }
    {
        push_signature(&mut self.before, &mut self.keys, signature)
    }
}

fn check_key(keys: &BTreeSet<Key>, at: u32, key: &Key) -> Result<(), FormatFault>
    ensures { result ≡ found_at at (test Repeated (not (list_any (same_key key.now) keys.now.keys))) }
{
    if has_key(keys, key) {
        Err(fault(at, FormatKind::Repeated))
    } else {
        Ok(())
    }
}

fn has_key(keys: &BTreeSet<Key>, key: &Key) -> bool
    ensures { result ≡ list_any (same_key key.now) keys.now.keys }
{
    keys.contains(key)
}

fn put_key(keys: &mut BTreeSet<Key>, key: Key) -> M<()>
    ensures kept { OnOk result ((k : SignatureKey) → list_any (same_key k) keys.new.keys
        ≡ (if same_key key k then true else list_any (same_key k) keys.old.keys)) }
    ensures unchanged { OnErr result (keys.new.keys ≡ keys.old.keys) }
{
    keys.insert(key)?;
    Ok(())
}

fn key_copy(signature: &Signature) -> M<Key>
    ensures { IfOk result (λ key. key ≡ key_of signature.now) }
{
    let key = &signature.key;
    let shorter = key.1.clone()?;
    Ok((key.0, shorter, key.2.clone()?))
}

fn push_signature(
    before: &mut Vec<Signature>,
    keys: &mut BTreeSet<Key>,
    signature: Signature,
) -> M<()>
    requires { Knows before.old.items keys.old.keys }
    ensures before { before.new.items ≡ (if is_ok result then before.old.items
        ++ signature ∷ [] else before.old.items) }
    ensures keys { Knows before.new.items keys.new.keys }
{
    let key = key_copy(&signature)?;
    push_key(before, keys, signature, key)
}

fn push_key(
    before: &mut Vec<Signature>,
    keys: &mut BTreeSet<Key>,
    signature: Signature,
    key: Key,
) -> M<()>
    requires knows { Knows before.old.items keys.old.keys }
    requires key { key ≡ key_of signature }
    ensures before { before.new.items ≡ (if is_ok result then before.old.items
        ++ signature ∷ [] else before.old.items) }
    ensures keys { Knows before.new.items keys.new.keys }
{
    let count = before.len();
    before.push(signature)?;
    match put_key(keys, key) {
        Ok(()) => Ok(()),
        Err(error) => {
            before.truncate(count);
            Err(error)
        }
    }
}
