// The frames of a code, which share their types.
ghost use Rattle.std.specs.Prelude.{◌≡◌, ◌≤◌, ◌<◌, ◌-◌, [], ◌∷◌, ◌++◌, ◌==◌, drop, length, map, slice_get, take, All};
ghost use Rattle.std.specs.Prelude.{IfOk, OnOk, Some};
ghost use Rattle.class_model.specs.FrameLists.{frame_numbered};
ghost use Rattle.class_model.specs.bodies.HeldFrames.{frame_of, IsRowHeld};

use crate::type_lists::{TypeList, TypeLists};
use crate::{Frame, FrameAt, VType};
use jv_base::{Items, M};
use std::alloc::Global;
use std::marker::Model;

/// A frame's instruction, locals and stack.
#[derive(Clone, Copy)]
pub(crate) struct FrameRow {
    pub(crate) index: u32,
    pub(crate) locals: TypeList,
    pub(crate) stack: TypeList,
}

/// The frames of a code, which contracts see as their list. They take memory for the types that they don't share.
#[derive(Drop)]
pub struct Frames {
    lists: TypeLists,
    rows: Vec<FrameRow>,
}

impl Model for Frames {
    ghost use Rattle.std.specs.Prelude.{All, List, map};
    ghost use Rattle.class_model.specs.declared.frame.FrameAt.{FrameAt};
    ghost use Rattle.class_model.specs.bodies.HeldFrames.{frame_of, IsRowHeld};

    ghost Value = { List FrameAt };

    ghost view = { λ f. map (frame_of f.lists) f.rows.items };

    ghost invariant = { λ f. All (IsRowHeld f.lists) f.rows.items };
}

impl Frames {
    /// No frames.
    pub fn new(alloc: Global) -> Self
        ensures { result ≡ [] }
    {
        Frames {
            lists: TypeLists::new(alloc),
            rows: Vec::new(alloc),
        }
    }

    pub(crate) fn of_rows(lists: TypeLists, rows: Vec<FrameRow>) -> Self
        requires { All (IsRowHeld lists) rows.items }
        ensures { result ≡ map (frame_of lists) rows.items }
    {
        Frames { lists, rows }
    }

    /// How many frames there are.
    pub fn len(&self) -> usize
        ensures { result ≡ length self.now }
    {
        self.rows.len()
    }

    /// Whether there is no frame.
    pub fn is_empty(&self) -> bool
        ensures { result ≡ (length self.now == 0) }
    {
        self.rows.is_empty()
    }

    /// The instruction at which a frame is declared.
    pub fn index(&self, number: usize) -> u32
        requires { number < length self.now }
        ensures { result ≡ (frame_numbered self.now number).index }
    {
        self.rows[number].index
    }

    /// How many locals a frame has.
    pub fn locals_len(&self, number: usize) -> usize
        requires { number < length self.now }
        ensures { result ≡ length (frame_numbered self.now number).frame.locals }
    {
        self.rows[number].locals.len as usize
    }

    /// How many types are on a frame's stack.
    pub fn stack_len(&self, number: usize) -> usize
        requires { number < length self.now }
        ensures { result ≡ length (frame_numbered self.now number).frame.stack }
    {
        self.rows[number].stack.len as usize
    }

    /// The locals of a frame behind the first ones, of which there may be fewer.
    pub fn locals(&self, alloc: Global, number: usize, from: usize) -> M<Items<VType>>
        requires { number < length self.now }
        ensures { IfOk result (λ types. types ≡ drop from (frame_numbered self.now number).frame.locals) }
    {
        self.lists.types(alloc, self.rows[number].locals, from)
    }

    /// The types on a frame's stack, from the bottom to the top.
    pub fn stack(&self, alloc: Global, number: usize) -> M<Items<VType>>
        requires { number < length self.now }
        ensures { IfOk result (λ types. types ≡ (frame_numbered self.now number).frame.stack) }
    {
        self.lists.types(alloc, self.rows[number].stack, 0)
    }

    /// The type on top of a frame's stack, on which there is one.
    pub fn top_of_stack(&self, number: usize) -> M<VType>
        requires number { number < length self.now }
        requires some { 0 < length (frame_numbered self.now number).frame.stack }
        ensures { IfOk result (λ ty. slice_get (frame_numbered self.now number).frame.stack
            (length (frame_numbered self.now number).frame.stack - 1) ≡ Some ty) }
    {
        self.lists.last(self.rows[number].stack)
    }

    /// The locals and the stack of a frame.
    pub fn frame(&self, alloc: Global, number: usize) -> M<Frame>
        requires { number < length self.now }
        ensures { IfOk result (λ frame. frame ≡ (frame_numbered self.now number).frame) }
    {
        Ok(Frame {
            locals: self.locals(alloc, number, 0)?,
            stack: self.stack(alloc, number)?,
        })
    }

    /// How many locals two frames share. They may agree in more.
    ///
    /// For two frames of which one appends locals to those of the other it takes the time of these.
    pub fn shared(&self, one: usize, other: usize) -> usize
        requires one { one < length self.now }
        requires other { other < length self.now }
        ensures one { result ≤ length (frame_numbered self.now one).frame.locals }
        ensures other { result ≤ length (frame_numbered self.now other).frame.locals }
        ensures same { take result (frame_numbered self.now one).frame.locals ≡ take result
            (frame_numbered self.now other).frame.locals }
    {
        self.lists
            .shared(self.rows[one].locals, self.rows[other].locals) as usize
    }

    /// Appends a frame, which shares no type.
    pub fn push(&mut self, frame: FrameAt) -> M<()>
        ensures { OnOk result (self.new ≡ self.old ++ frame ∷ []) }
    {
        let Frame { locals, stack } = frame.frame;
        let locals = self.lists.push_all(locals)?;
        let stack = self.lists.push_all(stack)?;
        self.rows.push(FrameRow {
            index: frame.index,
            locals,
            stack,
        })?;
        Ok(())
    }
}
