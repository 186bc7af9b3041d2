// The frame that is declared at an instruction (JVMS 4.10.1.5).
ghost use Rattle.std.specs.Prelude.{◌≡◌, ◌<◌, IfOk, length};
ghost use Rattle.std.specs.Option.{option_map};
ghost use Rattle.type_verifier.specs.Environment.{declared_frame_at};
ghost use Rattle.type_verifier.specs.bodies.Declared.{frame_of};
ghost use Rattle.type_verifier.specs.bodies.Places.{ArePlaces};
ghost use Rattle.type_verifier.specs.bodies.Seen.{environment_of};

use crate::environment::Env;
use crate::frame::TypeFrame;
use crate::framing::declared_frame;
use crate::places::Places;
use jv_base::M;
use std::alloc::Global;

/// A frame that is kept, or one that was made for this use.
#[derive(Drop)]
pub(crate) enum Declared<'a> {
    Kept(&'a TypeFrame),
    Made(TypeFrame),
}

impl<'a> Declared<'a> {
    /// The frame.
    pub(crate) fn frame(&self) -> &TypeFrame
        ensures { result.now ≡ frame_of self.now }
    {
        match self {
            Declared::Kept(frame) => *frame,
            Declared::Made(frame) => frame,
        }
    }
}

/// The frame that is declared at an instruction, to be compared with.
pub(crate) fn look_up<'a>(
    alloc: Global,
    env: &Env,
    places: &'a Places,
    at: usize,
) -> M<Option<Declared<'a>>>
    requires places { ArePlaces env.now.code.now places.now }
    requires instruction { at < length env.now.code.now.ins }
    ensures { IfOk result (λ d. option_map frame_of d ≡ declared_frame_at (environment_of env.now) at) }
{
    let Some(number) = places.frame_number(at) else {
        return Ok(None);
    };
    if let Some(frame) = places.kept(number) {
        return Ok(Some(Declared::Kept(frame)));
    }
    match declared_frame(alloc, env.code, number)? {
        Some(frame) => Ok(Some(Declared::Made(frame))),
        None => Ok(None),
    }
}

/// The frame that is declared at an instruction, made anew.
pub(crate) fn make(alloc: Global, env: &Env, places: &Places, at: usize) -> M<Option<TypeFrame>>
    requires places { ArePlaces env.now.code.now places.now }
    requires instruction { at < length env.now.code.now.ins }
    ensures { IfOk result (λ d. d ≡ declared_frame_at (environment_of env.now) at) }
{
    match places.frame_number(at) {
        Some(number) => declared_frame(alloc, env.code, number),
        None => Ok(None),
    }
}
