// A frame without its method (JVMS 2.6).
ghost use Rattle.std.specs.Prelude.{◌≡◌, ◌+◌, ◌-◌, ◌<◌, ◌^◌, IfOk};
ghost use Rattle.jvm_model.specs.Instructions.{jump_if};
ghost use Rattle.jvm_model.specs.Local.{called_with};
ghost use Rattle.run_steps.specs.Frames.{body_of};
ghost use Rattle.std.specs.Option.{unwrap_or};

use jv_base::M;
use run_values::{Locals, Stack, Value};
use std::alloc::Global;

/// The index of the instruction, the local variables and the operand stack of a frame. There is no bound on the latter
/// two.
#[derive(Drop)]
pub struct Body {
    pub at: usize,
    pub locals: Locals,
    pub stack: Stack,
}

impl Body {
    /// That of a method that is called with these arguments (JVMS 2.6.1, 6.5.invokestatic).
    pub fn begun(alloc: Global, arguments: &[Value]) -> M<Self>
        ensures { IfOk result (λ body. body_of body ≡ called_with arguments.now) }
    {
        Ok(Body {
            at: 0,
            locals: Locals::of_arguments(alloc, arguments)?,
            stack: Stack::new(alloc),
        })
    }

    /// It goes on at the next instruction.
    pub(crate) fn go_on(&mut self)
        requires { self.old.at < 2 ^ 64 - 1 }
        ensures { self.new ≡ record self.old { at = self.old.at + 1 } }
    {
        self.at += 1;
    }

    /// It goes on at a target where a condition holds, else at the next instruction.
    pub(crate) fn go_if(&mut self, holds: bool, target: u32)
        requires { self.old.at < 2 ^ 64 - 1 }
        ensures { self.new ≡ record self.old { at = unwrap_or (jump_if holds target) (self.old.at + 1) } }
    {
        if holds {
            self.at = target as usize;
        } else {
            self.at += 1;
        }
    }
}
