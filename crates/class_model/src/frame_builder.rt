// The frames of a StackMapTable, row by row (JVMS 4.7.4).
ghost use Rattle.std.specs.Prelude.{◌≡◌, ◌≤◌, ◌<◌, ◌-◌, [], ◌∷◌, ◌++◌, length, take, OnOk, if◌then◌else◌};
ghost use Rattle.class_model.specs.Frames.{cut_tops, words_of_types};

use crate::frame_list::FrameRow;
use crate::type_lists::{TypeList, TypeLists};
use crate::{Frames, VType};
use jv_base::{Items, M};
use std::alloc::Global;
use std::marker::Model;

/// The frames of the rows so far, and the locals of the last one with the Tops at their end, on which the next row
/// stands.
#[derive(Drop)]
pub struct FrameBuilder {
    lists: TypeLists,
    rows: Vec<FrameRow>,
    locals: TypeList,
    // The locals without the Tops at their end.
    cut: TypeList,
    // What the locals take of max_locals.
    words: u64,
}

impl Model for FrameBuilder {
    ghost use Rattle.std.specs.Prelude.{map};
    ghost use Rattle.class_model.specs.FrameLists.{Built};
    ghost use Rattle.class_model.specs.bodies.TypeLists.{types_in};
    ghost use Rattle.class_model.specs.bodies.HeldFrames.{frame_of};

    ghost Value = { Built };

    ghost use Rattle.class_model.specs.bodies.Building.{IsBuilt};

    ghost view = { λ b. record { frames = map (frame_of b.lists) b.rows.items; locals = types_in b.lists b.locals } };

    ghost invariant = { IsBuilt };
}

impl FrameBuilder {
    /// No frames, and no locals.
    pub fn new(alloc: Global) -> Self
        ensures { result ≡ record { frames = []; locals = [] } }
    {
        FrameBuilder {
            lists: TypeLists::new(alloc),
            rows: Vec::new(alloc),
            locals: TypeList::empty(),
            cut: TypeList::empty(),
            words: 0,
        }
    }

    /// How many locals there are.
    pub fn len(&self) -> usize
        ensures { result ≡ length self.now.locals }
    {
        self.locals.len as usize
    }

    /// How many words the locals take.
    pub fn words(&self) -> u64
        ensures { result ≡ words_of_types self.now.locals }
    {
        self.words
    }

    /// Takes all locals away.
    pub fn clear(&mut self)
        ensures { self.new ≡ record { frames = self.old.frames; locals = [] } }
    {
        self.locals = TypeList::empty();
        self.cut = TypeList::empty();
        self.words = 0;
    }

    fn append_one(&mut self, ty: VType) -> M<()>
        ensures { OnOk result (self.new ≡ record { frames = self.old.frames; locals = self.old.locals ++ ty ∷ [] }) }
    {
        let words = self.words + u64::from(ty.words());
        let is_top = ty.is_top();
        let locals = self.lists.push(self.locals, ty)?;
        self.cut = choice(is_top, self.cut, locals);
        self.locals = locals;
        self.words = words;
        Ok(())
    }

    /// Appends locals.
    pub fn append(&mut self, types: Items<VType>) -> M<()>
        ensures { OnOk result (self.new ≡ record { frames = self.old.frames; locals = self.old.locals ++ types }) }
    {
        for ty in types.into_vec() {
            self.append_one(ty)?;
        }
        Ok(())
    }

    fn chop_one(&mut self)
        requires { 0 < length self.old.locals }
        ensures { self.new ≡ record {
          frames = self.old.frames;
          locals = take (length self.old.locals - 1)
              self.old.locals;
        } }
    {
        let was_top = self.lists.ends_in_top(self.locals);
        let words = self.lists.words_of_last(self.locals);
        let locals = self.lists.below(self.locals);
        let cut = if was_top {
            self.cut
        } else {
            self.lists.without_tops(locals)
        };
        self.words -= u64::from(words);
        self.locals = locals;
        self.cut = cut;
    }

    /// Takes the last locals away, so many.
    pub fn chop(&mut self, count: usize)
        requires { count ≤ length self.old.locals }
        ensures { self.new ≡ record {
          frames = self.old.frames;
          locals = take (length self.old.locals - count)
              self.old.locals;
        } }
    {
        for _ in 0..count {
            self.chop_one();
        }
    }

    /// Appends the frame of these locals without the Tops at their end, and a stack.
    pub fn push(&mut self, index: u32, stack: Items<VType>) -> M<()>
        ensures { OnOk result (self.new ≡ record {
          frames = self.old.frames
              ++ record { index = index; frame = record { locals = cut_tops self.old.locals; stack = stack } } ∷ [];
          locals = self.old.locals;
        }) }
    {
        let stack = self.lists.push_all(stack)?;
        self.rows.push(FrameRow {
            index,
            locals: self.cut,
            stack,
        })?;
        Ok(())
    }

    /// The frames.
    pub fn into_frames(self) -> Frames
        ensures { result ≡ self.frames }
    {
        Frames::of_rows(self.lists, self.rows)
    }
}

fn choice(first: bool, one: TypeList, other: TypeList) -> TypeList
    ensures { result ≡ (if first then one else other) }
{
    if first { one } else { other }
}
