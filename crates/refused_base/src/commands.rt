// The words of a command line.
ghost use Rattle.std.specs.Prelude.{◌≡◌, IfOk};
ghost use Rattle.command_words.specs.Words.{commanded};

use command_words::Command;
use jv_base::{Items, M, Text};
use std::alloc::Global;

/// `read_command` of `command_words`.
pub fn read_command(alloc: Global, words: &Items<Text>) -> M<Option<Command>>
    ensures { IfOk result (λ command. command ≡ commanded words.now) }
{
    command_words::read_command(alloc, words)
}
