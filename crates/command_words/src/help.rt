// The text of `--help`.
use crate::arguments::{command_argument, operands_argument, workers_argument};
use clap::Command;
use jv_base::M;
use std::alloc::Global;

const ABOUT: &str =
    "Shrinks class files in the manner of ProGuard, checks what was shrunk, and turns traces back.";

// The commands that can be run, an example, and what their statuses say.
const COMMANDS: &str = "Commands:
  shrink CONFIG WITNESS   writes the classes that CONFIG keeps, as its options say
  check CONFIG WITNESS    prints ok where CONFIG's output belongs to its input, or why it doesn't
  retrace MAPPING TRACE   prints TRACE with the old names of MAPPING in place of the new ones
  why CONFIG ITEM         prints by what ITEM of CONFIG's input is kept, or none where it goes
  run DIRECTORY ENTRY STEPS WORD..
                          prints what the method ENTRY of DIRECTORY's classes prints, and its end
  compare CONFIG ENTRY STEPS WORD..
                          prints same where CONFIG's output shows from ENTRY what its input shows
  gen NUMBER DIRECTORY    writes a set of 2 NUMBER + 1 classes to try the others on, up to gen 4000
  batch LIST              does shrink for each line CONFIG WITNESS of LIST, and reports on each
  --version               alone, prints the version

CONFIG, WITNESS, MAPPING, TRACE, DIRECTORY and LIST are paths: an optional / and names with a /
between two, none of them empty, . or .. . ENTRY is class.name(types), STEPS a number up to
100000000, and each WORD an argument. docs/MANUAL.md has the options of a config and every message.

Example:
  cixorradde shrink examples/app/shrink.pro out.wit
  cixorradde check examples/app/shrink.pro out.wit
  cixorradde retrace map.txt trace.txt
  cixorradde why examples/minimal/shrink.pro Hello
  cixorradde run examples/minimal/in 'Hello.main(java.lang.String[])' 1000 you
  cixorradde compare examples/minimal/shrink.pro 'Hello.main(java.lang.String[])' 1000 you
  cixorradde gen 1000 in
  cixorradde batch examples/batch/list.txt

Status: 0 done, 1 faulty words, 2 a file isn't there, 3 faulty config, 4 no class file, 5 a class
that breaks a rule, 6 a limit passed, 7 a device failed, 8 a file below the output directory, 9 an
output that doesn't belong to its input, 10 memory was wanting, 11 faulty mapping or witness, 12 no
such entry, or other arguments, 13 an output that shows something else, 14 no such item, 15 jobs in
one another's way.";

/// The text of `--help`: usage, options with their defaults, each command that can be run in a line, and an example.
pub fn help_text(alloc: Global) -> M<String> {
    let command = command_argument(alloc).help("What to do, one of the commands below");
    let operands = operands_argument(alloc).help("The words that the command takes");
    let workers = workers_argument(alloc).help("How many threads may work, from 1 to 64");
    let mut line = Command::new(alloc, "cixorradde")
        .about(ABOUT)
        .after_help(COMMANDS)
        .arg(command)?
        .arg(operands)?
        .arg(workers)?;
    Ok(line.render_help()?)
}
