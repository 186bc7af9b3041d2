// The run of a command.
ghost use Rattle.std.specs.Prelude.{◌≡◌, ◌≢◌, ◌⊎◌, ◌≤◌, ◌<◌, IfOk, IsErrOf, Result};
ghost use Rattle.tree_io.specs.Count.{Rose};
ghost use Rattle.tree_io.specs.Files.{Files};
ghost use Rattle.tree_io.specs.Runs.{AddsCalls, memory_faults};
ghost use Rattle.command_frame.specs.Answer.{Ended};
ghost use Rattle.command_frame.specs.Output.{outside, output};
ghost use Rattle.command_frame.specs.Steps.{Finds, seen};
ghost use Rattle.command_frame.specs.bodies.Steps.{CarriesOut};
ghost use Rattle.command_frame.specs.declared.command.Plan.{Plan as PlanValue};
ghost use Rattle.command_frame.specs.declared.refusal.Refusal.{Refusal as RefusalValue};

use crate::Stop;
use crate::saying::{say_stop, say_text};
use class_files::write_files;
use jv_base::{Bytes, Items};
use std::alloc::Global;
use tree_io::{FileAt, Sink, Tree, WriteFault};

/// What a command is to write and to say.
#[derive(Drop)]
pub struct Plan {
    /// In the order in which they are written.
    pub files: Items<FileAt>,
    pub text: Bytes,
}

/// A command: what is due of it, and how that is found in a tree of files.
pub trait Command {
    /// What has to hold of it before it is run: that it may call what it was handed.
    ghost ready: { Self → Type 0 };

    /// The plans that it may have, whatever the tree answers.
    ghost plans: { Self → PlanValue → Type 0 };

    /// The plan that is due of told files, or the refusal.
    ghost due: { Self → Files → Result PlanValue RefusalValue → Type 0 };

    /// The plan that is due, or why there is none. No file changes.
    fn due_plan<T: Tree>(&self, alloc: Global, tree: &mut T) -> Result<Plan, Stop>
        requires { ready self.now }
        ensures made { IfOk result (plans self.now) }
        ensures found { Finds result (due self.now)
            (seen (T.files tree.old) (T.faults tree.old) (T.log tree.old))
            (seen (T.files tree.new) (T.faults tree.new) (T.log tree.new)) };
}

/// Finds the plan of a command, writes its files, says its text, and answers the status: 0 where all was said, that of
/// the refusal where one is due, 7 only where a count of faults rose, and 10 where memory is wanting. Where the plan
/// isn't done, the line of the status is said.
pub fn run_command<C: Command, T: Tree, S: Sink>(
    alloc: Global,
    command: &C,
    tree: &mut T,
    out: &mut S,
) -> u8
    requires { C.ready command.now }

    // The words aren't refused.
    ensures words { result ≢ 1 }

    // A device is blamed only where its count rose.
    ensures device { result ≡ 7 → Rose (T.faults tree.old) (T.faults tree.new)
        ⊎ Rose (S.faults out.old) (S.faults out.new) }

    // Where memory was wanting for a call of the tree, the status says so.
    ensures memory { memory_faults (T.log tree.old) < memory_faults (T.log tree.new) → result ≡ 10 }

    // The run has an ending, which tells its status, which device is blamed, what the tree was asked, what became of
    // all files that its answers fit, told ones among them, and what was said.
    ensures ended { Ended (C.plans command.now) (C.due command.now) result
        (outside (T.files tree.old) (T.faults tree.old) (T.log tree.old)
        (output (S.written out.old) (S.faults out.old) (S.log out.old)))
        (outside (T.files tree.new) (T.faults tree.new) (T.log tree.new)
        (output (S.written out.new) (S.faults out.new) (S.log out.new))) }
{
    match carry_out(alloc, command, tree) {
        Ok(plan) => say_text(plan.text.as_slice(), out),
        Err(stop) => say_stop(alloc, &stop, out),
    }
}

/// Writes the files of the plan that is due.
fn carry_out<C: Command, T: Tree>(alloc: Global, command: &C, tree: &mut T) -> Result<Plan, Stop>
    requires { C.ready command.now }
    ensures device { IsErrOf result Stop.Device → Rose (T.faults tree.old) (T.faults tree.new) }
    ensures left { AddsCalls (T.log tree.old) (T.log tree.new) (T.files tree.old) (T.files tree.new)
        (CarriesOut (C.plans command.now) (C.due command.now) result) }
{
    let plan = command.due_plan(alloc, tree)?;
    match write_files(alloc, &plan.files, tree) {
        Ok(()) => Ok(plan),
        Err(WriteFault::Failed) => Err(Stop::Device),
        Err(WriteFault::OutOfMemory) => Err(Stop::OutOfMemory),
    }
}
