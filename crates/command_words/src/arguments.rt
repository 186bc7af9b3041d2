// The arguments that clap reads.
ghost use Rattle.std.specs.Prelude.{◌≡◌, false, IfOk};
ghost use Rattle.clap.specs.Words.{app_of, rule_of};
ghost use Rattle.command_words.specs.CommandLine.{command_line, command_rule, operands_rule, workers_rule};

use clap::{Arg, Command, value_parser};
use jv_base::M;
use std::alloc::Global;

/// The command line: the name of a command, its operands, and how many workers there are.
pub(crate) fn command_line<'a>(alloc: Global) -> M<Command<'a>>
    ensures { IfOk result (λ line. app_of line ≡ command_line) }
{
    let line = Command::new(alloc, "cixorradde").no_binary_name(true);
    Ok(
        line.arg(command_argument(alloc))?
            .arg(operands_argument(alloc))?
            .arg(workers_argument(alloc))?,
    )
}

pub(crate) fn command_argument<'a>(alloc: Global) -> Arg<'a>
    ensures rule { rule_of result ≡ command_rule }
    ensures local { result.global ≡ false }
{
    Arg::new(alloc, "command").required(true)
}

pub(crate) fn operands_argument<'a>(alloc: Global) -> Arg<'a>
    ensures rule { rule_of result ≡ operands_rule }
    ensures local { result.global ≡ false }
{
    Arg::new(alloc, "operands").num_args(0..)
}

pub(crate) fn workers_argument<'a>(alloc: Global) -> Arg<'a>
    ensures rule { rule_of result ≡ workers_rule }
    ensures local { result.global ≡ false }
{
    Arg::new(alloc, "workers")
        .long("workers")
        .value_name("N")
        .value_parser(value_parser!(u32).range(1..=64))
        .default_value("4")
}
