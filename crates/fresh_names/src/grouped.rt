// What gets new names, by groups.
ghost use Rattle.std.specs.Prelude.{◌≡◌, Some, IfOk};
ghost use Rattle.std.specs.Map.{lookup};
ghost use Rattle.fresh_names.specs.Given.{if_in_package};
ghost use Rattle.fresh_names.specs.bodies.Giving.{group_of, told_in};

use crate::Named;
use crate::front::front_of;
use jv_base::{M, Name, Text};
use key_table::{Key, Table};
use std::alloc::Global;

/// What gets a new name: a class or a field by its name, a method by its name and its descriptor.
pub(crate) trait Grouped: Key {
    ghost use Rattle.std.specs.Prelude.{◌≡◌, IfOk};
    ghost use Rattle.class_rename.specs.Names.{MethodName, is_same_method};
    ghost use Rattle.fresh_names.specs.declared.taken.Named.{Named};

    ghost pair: { Named → Self → MethodName };

    /// Its name and its group.
    fn member(&self, alloc: Global, named: Named) -> M<(Name, Text)>
        ensures { IfOk result (λ member. member ≡ pair named self.now) };

    ghost told_apart: { (named : Named) (a b : Self) → Self.eq a b ≡ is_same_method (pair named a) (pair named b) };
}

impl Grouped for Text {
    ghost use Rattle.fresh_names.specs.bodies.Apart.{names_apart};
    ghost use Rattle.fresh_names.specs.bodies.Giving.{name_in_group};

    ghost pair = { name_in_group };

    ghost told_apart = { names_apart };

    fn member(&self, alloc: Global, named: Named) -> M<(Name, Text)> {
        let group = group_of(alloc, named, self)?;
        Ok((self.clone()?, group))
    }
}

/// A text.
pub(crate) trait Textual: Key {
    ghost use Rattle.std.specs.Prelude.{◌≡◌, ℕ, List, IfOk};
    ghost use Rattle.jv_base.specs.Names.{is_text};

    ghost text: { Self → List ℕ };

    /// A copy.
    fn copied(&self) -> M<Text>
        ensures { IfOk result (λ copy. copy ≡ text self.now) };

    ghost as_text: { (a b : Self) → Self.eq a b ≡ is_text (text a) (text b) };
}

impl Textual for Text {
    ghost use Rattle.std.proofs.Common.{refl};

    ghost text = { λ t. t };

    ghost as_text = { λ a b. refl };

    fn copied(&self) -> M<Text> {
        Ok(self.clone()?)
    }
}

impl<N: Textual, D: Textual> Grouped for (N, D) {
    ghost use Rattle.std.specs.Prelude.{◌&&◌};

    ghost pair = { λ named method. (N.text method.0, D.text method.1) };

    ghost told_apart = { λ named a b. (λ i. N.as_text a.0 b.0 i && D.as_text a.1 b.1 i) };

    fn member(&self, _alloc: Global, _named: Named) -> M<(Name, Text)> {
        Ok((self.0.copied()?, self.1.copied()?))
    }
}

/// The group of a class or a field.
fn group_of(alloc: Global, named: Named, name: &Name) -> M<Text>
    ensures { IfOk result (λ group. group ≡ group_of named name.now) }
{
    match named {
        Named::Class => front_of(alloc, name),
        Named::Field => Ok(Text::from_str(alloc, "")?),
        Named::Method => Ok(Text::from_str(alloc, "")?),
    }
}

/// What an earlier mapping gives: a class none of another package.
pub(crate) fn earlier<K: Grouped>(
    alloc: Global,
    named: Named,
    key: &K,
    old: &Table<K, Name>,
) -> M<Option<Name>>
    ensures { IfOk result (λ new. new
        ≡ told_in named (K.pair named key.now).1 (lookup (K.eq key.now) old.now)) }
{
    match old.get(key) {
        Some(new) => in_group(alloc, named, &key.member(alloc, named)?, new),
        None => Ok(None),
    }
}

fn in_group(alloc: Global, named: Named, member: &(Name, Text), new: &Name) -> M<Option<Name>>
    ensures { IfOk result (λ found. found ≡ told_in named member.now.1 (Some new.now)) }
{
    match named {
        Named::Class => in_package(alloc, &member.1, new),
        Named::Field => Ok(Some(new.clone()?)),
        Named::Method => Ok(Some(new.clone()?)),
    }
}

fn in_package(alloc: Global, front: &Text, new: &Name) -> M<Option<Name>>
    ensures { IfOk result (λ found. found ≡ if_in_package front.now (Some new.now)) }
{
    let its = front_of(alloc, new)?;
    if *front == its {
        Ok(Some(new.clone()?))
    } else {
        Ok(None)
    }
}
