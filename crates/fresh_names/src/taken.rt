// Names that stay, and that nothing else gets.
ghost use Rattle.std.specs.Prelude.{◌≡◌, ◌++◌, ◌∷◌, [], codes};
ghost use Rattle.lib_table.specs.Lookups.{is_named};
ghost use Rattle.fresh_names.specs.Fresh.{is_taken};
ghost use Rattle.fresh_names.specs.Given.{stays_for};
ghost use Rattle.fresh_names.specs.Reserved.{library_names, reserved, type_words};

use jv_base::{Name, Text};
use key_table::KeySet;
use lib_table::lib_named;
use std::marker::Model;

/// What is named.
#[derive(Clone, Copy)]
pub enum Named {
    Class,
    Field,
    Method,
}

/// Names of classes or of fields that stay, with those that none of these can get in any case.
#[derive(Drop)]
pub struct TakenSet {
    names: KeySet<Name>,
    named: Named,
}

impl Model for TakenSet {
    ghost use Rattle.std.specs.Prelude.{◌++◌, List, ℕ};
    ghost use Rattle.fresh_names.specs.Reserved.{reserved};

    ghost Value = { List (List ℕ) };

    ghost view = { λ t. t.names ++ reserved t.named };
}

impl TakenSet {
    /// These names.
    pub fn new(names: KeySet<Name>, named: Named) -> Self
        ensures { result ≡ names ++ reserved named }
    {
        TakenSet { names, named }
    }

    /// Whether a name is among them. It takes no memory, and the logarithm of how many there are.
    #[tactic(auto, using(crate::proofs::Reserved::taken_parts))]
    pub fn has(&self, name: &Name) -> bool
        ensures { result ≡ is_taken self.now name.now }
    {
        let is_fixed = self.names.has(name);
        let is_reserved = is_reserved(self.named, name);
        is_fixed || is_reserved
    }
}

/// Whether none of these can get a name in any case.
#[tactic(auto, using(crate::proofs::Reserved::taken_parts))]
fn is_reserved(named: Named, name: &Name) -> bool
    ensures { result ≡ is_taken (reserved named) name.now }
{
    match named {
        Named::Class => is_type_word(name.as_str()),
        Named::Field => is_of_library(name, false),
        Named::Method => is_initialisation(name.as_str()) || is_of_library(name, true),
    }
}

/// Whether it stands for another type in Java source, or for none.
#[tactic(auto, unfolding(crate::specs::Reserved::type_words))]
fn is_type_word(name: &str) -> bool
    ensures { result ≡ is_taken type_words name.now }
{
    matches!(
        name,
        "boolean" | "byte" | "char" | "short" | "int" | "long" | "float" | "double" | "void"
    )
}

fn is_initialisation(name: &str) -> bool
    ensures { result ≡ is_taken (codes "<init>" ∷ (codes "<clinit>" ∷ [])) name.now }
{
    name == "<init>" || name == "<clinit>"
}

/// Whether a class of the library has a field or a method of this name.
#[tactic(auto, using(crate::proofs::Reserved::library_named))]
fn is_of_library(name: &Name, method: bool) -> bool
    ensures { result ≡ is_taken (library_names method) name.now }
{
    lib_named(name, method)
}

/// Methods whose names stay, by their names and descriptors. `<init>`, `<clinit>` and the names of the library's methods
/// stay for each descriptor.
#[derive(Drop)]
pub struct TakenMethods {
    methods: KeySet<(Name, Text)>,
}

impl Model for TakenMethods {
    ghost use Rattle.std.specs.Prelude.{List};
    ghost use Rattle.class_rename.specs.Names.{MethodName};

    ghost Value = { List MethodName };

    ghost view = { λ t. t.methods };
}

impl TakenMethods {
    /// These methods.
    pub fn new(methods: KeySet<(Name, Text)>) -> Self
        ensures { result ≡ methods }
    {
        TakenMethods { methods }
    }

    /// Whether the name of a method stays, or is reserved. It takes no memory, and the logarithm of how many there are.
    #[tactic(auto, using(crate::proofs::Groups::stays_by_parts))]
    pub fn has(&self, method: &(Name, Text)) -> bool
        ensures { result ≡ is_taken (stays_for self.now method.now.1) method.now.0 }
    {
        let is_fixed = self.methods.has(method);
        let is_reserved = is_reserved(Named::Method, &method.0);
        is_fixed || is_reserved
    }
}

/// Names that stay, and that nothing else gets: of classes, of fields and of methods.
#[derive(Drop)]
pub struct TakenNames {
    pub classes: TakenSet,
    pub fields: TakenSet,
    pub methods: TakenMethods,
}
