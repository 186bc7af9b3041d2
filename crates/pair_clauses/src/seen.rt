// What the lines of a mapping that were gone over have told.
ghost use Rattle.std.specs.Prelude.{◌≡◌, [], ◌∷◌, ◌++◌, false, not, IfOk, OnOk, List, ℕ};
ghost use Rattle.std.specs.List.{list_any};
ghost use Rattle.std.specs.Option.{option_copied};
ghost use Rattle.jv_base.specs.Names.{is_text};
ghost use Rattle.new_names.specs.NewNames.{NameAndType, is_same};
ghost use Rattle.pair_clauses.specs.Shape.{clashes, is_other};
ghost use Rattle.pair_clauses.specs.bodies.Seen.{HasMembers, HasNames, TellsMethods, TellsPairs};

use jv_base::{M, Name, Text};
use key_table::{KeySet, Table};
use std::alloc::Global;

/// Names, each once.
#[derive(Drop)]
pub(crate) struct SeenNames {
    names: KeySet<Name>,
}

impl SeenNames {
    pub(crate) fn new(alloc: Global) -> SeenNames
        ensures { HasNames result [] }
    {
        SeenNames {
            names: KeySet::new(alloc),
        }
    }

    pub(crate) fn has(&self, name: &Name) -> bool
        ensures { (names : List (List ℕ)) → HasNames self.now names
            → result ≡ list_any (λ seen. is_text seen name.now) names }
    {
        self.names.has(name)
    }

    /// Puts a name, and answers whether it is new.
    pub(crate) fn put(&mut self, name: &Name) -> M<bool>
        ensures is_new { (names : List (List ℕ)) → HasNames self.old names
            → IfOk result (λ is_new. is_new ≡ not (list_any (λ seen. is_text seen name.now) names)) }
        ensures put { (names : List (List ℕ)) → HasNames self.old names
            → OnOk result (HasNames self.new (names ++ name.now ∷ [])) }
    {
        self.names.insert(name.clone()?)
    }
}

/// Members, each once, by names and descriptors.
#[derive(Drop)]
pub(crate) struct SeenMembers {
    members: KeySet<(Name, Text)>,
}

impl SeenMembers {
    pub(crate) fn new(alloc: Global) -> SeenMembers
        ensures { HasMembers result [] }
    {
        SeenMembers {
            members: KeySet::new(alloc),
        }
    }

    /// Puts a member, and answers whether it is new.
    pub(crate) fn put(&mut self, name: &Name, ty: &Text) -> M<bool>
        ensures is_new { (members : List NameAndType) → HasMembers self.old members
            → IfOk result (λ is_new. is_new ≡ not (list_any (λ seen. is_same seen (name.now, ty.now)) members)) }
        ensures put { (members : List NameAndType) → HasMembers self.old members
            → OnOk result (HasMembers self.new (members ++ (name.now, ty.now) ∷ [])) }
    {
        self.members.insert((name.clone()?, ty.clone()?))
    }
}

/// Old and new names, one to one.
#[derive(Drop)]
pub(crate) struct SeenPairs {
    /// New names by old ones.
    by_old: Table<Name, Name>,
    /// Old names by new ones.
    by_new: Table<Name, Name>,
}

impl SeenPairs {
    pub(crate) fn new(alloc: Global) -> SeenPairs
        ensures { TellsPairs result [] }
    {
        SeenPairs {
            by_old: Table::new(alloc),
            by_new: Table::new(alloc),
        }
    }

    /// Whether an old name has another new one already, or a new one another old one.
    pub(crate) fn clashes(&self, old: &Name, new: &Name) -> bool
        ensures { (pairs : List (List ℕ × List ℕ)) → TellsPairs self.now pairs
            → result ≡ clashes is_text pairs old.now new.now }
    {
        is_other(self.by_old.get(old), new) || is_other(self.by_new.get(new), old)
    }

    /// Puts an old name with its new one, which clash with none.
    pub(crate) fn put(&mut self, old: &Name, new: &Name) -> M<()>
        ensures { (pairs : List (List ℕ × List ℕ)) → TellsPairs self.old pairs
            → clashes is_text pairs old.now new.now ≡ false
            → OnOk result (TellsPairs self.new (pairs ++ (old.now, new.now) ∷ [])) }
    {
        self.by_old.insert(old.clone()?, new.clone()?)?;
        self.by_new.insert(new.clone()?, old.clone()?)
    }
}

/// Another name than the one that is there, if one is.
fn is_other(there: Option<&Name>, name: &Name) -> bool
    ensures { result ≡ is_other is_text (option_copied there.entry) name.now }
{
    match there {
        Some(there) => *there != *name,
        None => false,
    }
}

/// Old and new names of methods, one to one for each descriptor: each stands with it.
#[derive(Drop)]
pub(crate) struct SeenMethodPairs {
    /// New names by old ones.
    by_old: Table<(Name, Text), (Name, Text)>,
    /// Old names by new ones.
    by_new: Table<(Name, Text), (Name, Text)>,
}

impl SeenMethodPairs {
    pub(crate) fn new(alloc: Global) -> SeenMethodPairs
        ensures { TellsMethods result [] }
    {
        SeenMethodPairs {
            by_old: Table::new(alloc),
            by_new: Table::new(alloc),
        }
    }

    /// Whether an old name has another new one already, or a new one another old one.
    pub(crate) fn clashes(&self, old: &(Name, Text), new: &(Name, Text)) -> bool
        ensures { (pairs : List (NameAndType × NameAndType)) → TellsMethods self.now pairs
            → result ≡ clashes is_same pairs old.now new.now }
    {
        is_other_method(self.by_old.get(old), new) || is_other_method(self.by_new.get(new), old)
    }

    /// Puts an old name with its new one, which clash with none.
    pub(crate) fn put(&mut self, old: &(Name, Text), new: &(Name, Text)) -> M<()>
        ensures { (pairs : List (NameAndType × NameAndType)) → TellsMethods self.old pairs
            → clashes is_same pairs old.now new.now ≡ false
            → OnOk result (TellsMethods self.new (pairs ++ (old.now, new.now) ∷ [])) }
    {
        self.by_old.insert(copied(old)?, copied(new)?)?;
        self.by_new.insert(copied(new)?, copied(old)?)
    }
}

fn copied(method: &(Name, Text)) -> M<(Name, Text)>
    ensures { IfOk result (λ copy. copy ≡ method.now) }
{
    name_and_type(&method.0, &method.1)
}

/// A name with a descriptor.
pub(crate) fn name_and_type(name: &Name, ty: &Text) -> M<(Name, Text)>
    ensures { IfOk result (λ member. member ≡ (name.now, ty.now)) }
{
    Ok((name.clone()?, ty.clone()?))
}

/// Another method than the one that is there, if one is.
fn is_other_method(there: Option<&(Name, Text)>, method: &(Name, Text)) -> bool
    ensures { result ≡ is_other is_same (option_copied there.entry) method.now }
{
    match there {
        Some(there) => !is_same_method(there, method),
        None => false,
    }
}

fn is_same_method(one: &(Name, Text), other: &(Name, Text)) -> bool
    ensures { result ≡ is_same one.now other.now }
{
    one.0 == other.0 && one.1 == other.1
}
