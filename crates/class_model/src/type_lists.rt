// Lists of types that share their beginnings.
ghost use Rattle.std.specs.Prelude.{◌≡◌, ◌≤◌, ◌<◌, ◌+◌, [], ◌∷◌, ◌++◌, drop, length, take, IfOk, option_copied};
ghost use Rattle.std.specs.Prelude.{unwrap_or};
ghost use Rattle.class_model.specs.Frames.{cut_tops, is_top, words_of_type};
ghost use Rattle.class_model.specs.bodies.TypeLists.{nothing, numbered, types_in, up_to, Grows, IsHeld};

use crate::VType;
use jv_base::{Items, M, OutOfMemory};
use std::alloc::Global;
use std::marker::Model;

/// A type, and the number of the one below it in a list. Numbers are counted from 1, and 0 is for none.
#[derive(Drop)]
pub(crate) struct TypeAbove {
    ty: VType,
    below: u32,
}

/// Types that stand above each other.
#[derive(Drop)]
pub(crate) struct TypeLists {
    types: Vec<TypeAbove>,
}

/// One of the lists: how many types it has, and the number of the topmost.
#[derive(Clone, Copy)]
pub(crate) struct TypeList {
    pub(crate) len: u32,
    pub(crate) top: u32,
}

impl Model for TypeLists {
    ghost use Rattle.std.specs.Prelude.{◌<◌, ◌≤◌, ◌^◌, All, List, length};
    ghost use Rattle.class_model.specs.declared.type_lists.TypeAbove.{TypeAbove};

    ghost Value = { List TypeAbove };

    ghost view = { λ l. l.types.items };

    ghost invariant = { λ l. All (λ (t : TypeAbove). t.below ≤ length l.types.items) l.types.items
        × (length l.types.items < 2 ^ 32) };
}

impl TypeList {
    pub(crate) fn empty() -> TypeList
        ensures { result ≡ record { len = 0; top = 0 } }
    {
        TypeList { len: 0, top: 0 }
    }
}

impl TypeLists {
    pub(crate) fn new(alloc: Global) -> Self
        ensures { result ≡ [] }
    {
        TypeLists {
            types: Vec::new(alloc),
        }
    }

    fn at(&self, number: u32) -> Option<&TypeAbove>
        ensures is { unwrap_or (option_copied result) nothing ≡ numbered self.now number }
        ensures lies { (numbered self.now number).below ≤ length self.now }
    {
        match number {
            0 => None,
            number => self.types.get(number as usize - 1),
        }
    }

    /// The topmost type of a list.
    pub(crate) fn last(&self, list: TypeList) -> M<VType>
        ensures { IfOk result (λ ty. ty ≡ (numbered self.now list.top).ty) }
    {
        match self.at(list.top) {
            Some(above) => Ok(above.ty.clone()?),
            None => Ok(VType::Top),
        }
    }

    /// What the topmost type of a list takes of max_locals.
    pub(crate) fn words_of_last(&self, list: TypeList) -> u16
        ensures { result ≡ words_of_type (numbered self.now list.top).ty }
    {
        match self.at(list.top) {
            Some(above) => above.ty.words(),
            None => 1,
        }
    }

    /// Whether the topmost type of a list is Top.
    pub(crate) fn ends_in_top(&self, list: TypeList) -> bool
        ensures { result ≡ is_top (numbered self.now list.top).ty }
    {
        match self.at(list.top) {
            Some(above) => above.ty.is_top(),
            None => true,
        }
    }

    /// A list without its topmost type.
    pub(crate) fn below(&self, list: TypeList) -> TypeList
        requires { 0 < list.len }
        ensures len { result.len + 1 ≡ list.len }
        ensures top { result.top ≡ (numbered self.now list.top).below }
        ensures lies { result.top ≤ length self.now }
    {
        let top = match self.at(list.top) {
            Some(above) => above.below,
            None => 0,
        };
        TypeList {
            len: list.len - 1,
            top,
        }
    }

    /// The first types of a list, so many.
    pub(crate) fn beginning(&self, list: TypeList, len: u32) -> TypeList
        requires { len ≤ list.len }
        ensures len { result.len ≡ len }
        ensures types { up_to self.now len result.top ≡ take len (types_in self.now list) }
    {
        let mut beginning = list;
        while beginning.len > len {
            beginning = self.below(beginning);
        }
        beginning
    }

    /// A list without the Tops at its end.
    pub(crate) fn without_tops(&self, list: TypeList) -> TypeList
        requires { IsHeld self.now list }
        ensures held { IsHeld self.now result }
        ensures types { types_in self.now result ≡ cut_tops (types_in self.now list) }
    {
        let mut cut = list;
        while cut.len > 0 && self.ends_in_top(cut) {
            cut = self.below(cut);
        }
        cut
    }

    /// How many types two lists share. They may agree in more.
    pub(crate) fn shared(&self, one: TypeList, other: TypeList) -> u32
        ensures one { result ≤ one.len }
        ensures other { result ≤ other.len }
        ensures same { take result (types_in self.now one) ≡ take result (types_in self.now other) }
    {
        let len = one.len.min(other.len);
        let mut left = self.beginning(one, len);
        let mut right = self.beginning(other, len);
        while left.len > 0 && left.top != right.top {
            left = self.below(left);
            right = self.below(right);
        }
        left.len
    }

    /// The types of a list behind so many.
    pub(crate) fn types(&self, alloc: Global, list: TypeList, from: usize) -> M<Items<VType>>
        ensures { IfOk result (λ types. types ≡ drop from (types_in self.now list)) }
    {
        let count = (list.len as usize).saturating_sub(from);
        let mut types = Vec::with_capacity(alloc, count)?;
        let mut rest = list;
        for _ in 0..count {
            types.push(self.last(rest)?)?;
            rest = self.below(rest);
        }
        types.reverse();
        Ok(Items::from_vec(types))
    }

    /// A list with one more type. There are fewer than 2^32 types, and where they don't suffice memory is said to be
    /// wanting.
    pub(crate) fn push(&mut self, list: TypeList, ty: VType) -> M<TypeList>
        requires { IsHeld self.old list }
        ensures grows { Grows self.old self.new }
        ensures held { IfOk result (IsHeld self.new) }
        ensures types { IfOk result (λ more. types_in self.new more
            ≡ types_in self.old list ++ ty ∷ []) }
    {
        if self.types.len() >= 4_294_967_295 {
            return Err(OutOfMemory);
        }
        self.types.push(TypeAbove {
            ty,
            below: list.top,
        })?;
        Ok(TypeList {
            len: list.len + 1,
            top: self.types.len() as u32,
        })
    }

    /// A list of these types alone.
    pub(crate) fn push_all(&mut self, types: Items<VType>) -> M<TypeList>
        ensures grows { Grows self.old self.new }
        ensures held { IfOk result (IsHeld self.new) }
        ensures types { IfOk result (λ list. types_in self.new list ≡ types) }
    {
        let mut list = TypeList::empty();
        for ty in types.into_vec() {
            list = self.push(list, ty)?;
        }
        Ok(list)
    }
}
