// The command line: words in, a status out.
ghost use Rattle.std.specs.Prelude.{◌≡◌, ◌≢◌, ◌⊎◌, ◌<◌, IfOk, Some, codes, false};
ghost use Rattle.std.specs.Thread.{IsSync};
ghost use Rattle.mark_core.specs.Marks.{Marks};
ghost use Rattle.mark_core.specs.Valid.{Valid};
ghost use Rattle.tree_io.specs.Count.{Rose};
ghost use Rattle.tree_io.specs.Runs.{memory_faults};
ghost use Rattle.command_frame.specs.Answer.{Ended};
ghost use Rattle.command_frame.specs.Output.{SaysLine, outside, output};
ghost use Rattle.command_words.specs.Words.{commanded};
ghost use Rattle.shrink_core.specs.Commands.{Does, IsAny, PairIsDue, Ran, is_there};

use check_command::CheckFiles;
use command_frame::{run_command, say_line, say_no_memory};
use command_words::{Command, read_command};
use compare_command::CompareFiles;
use gen_command::GenFiles;
use jv_base::{Items, M, Text};
use mark_core::System;
use mark_words::Marked;
use mark_workers::mark_all;
use retrace_command::RetraceFiles;
use run_command::RunFiles;
use shrink_command::{ShrinkFiles, Shrinking};
use std::alloc::Global;
use std::thread::Threads;
use tree_io::{Gate, Sink, Tree};
use why_command::WhyFiles;

/// The most workers that there are.
pub(crate) const MOST_WORKERS: u32 = 64;

/// The most pairs of classes that `gen` makes.
const MOST_PAIRS: u32 = 4000;

/// Runs a command and answers the status with which the program ends. The words are read by `read_command` of
/// `command_words`. What `shrink CONFIG OUTWIT`, `check CONFIG WITNESS`, `retrace MAPPING TRACE`, `gen NUMBER DIRECTORY`,
/// `why CONFIG ITEM`, `run DIRECTORY ENTRY STEPS WORD..` and `compare CONFIG ENTRY STEPS WORD..` do, and what their
/// statuses say, is told where their files are: `ShrinkFiles`, `CheckFiles`, `RetraceFiles`, `GenFiles`, `WhyFiles`,
/// `RunFiles` and `CompareFiles`. The gate is told of turns of those who mark what `shrink` keeps (`mark_all` of
/// `mark_workers`); what is due, written and said is the same for each number of workers and each gate.
///
/// | Status | Comes | Text |
/// |---|---|---|
/// | 0 | where all that is due was written and said | the command's text |
/// | 1 | where the words ask for no command | `error 1 words` |
/// | 2 to 6, 8, 9, 11 to 14 | where a refusal is due | `error STATUS WORD ..` |
/// | 7 | only where a count of faults rose, the tree's or (once the files stand) the sink's | `error 7 device` |
/// | 10 | where memory is wanting | `error 10 memory` |
pub fn run<Rt: Threads + Sync, T: Tree, S: Sink, G: Gate>(
    rt: &Rt,
    alloc: Global,
    words: &Items<Text>,
    tree: &mut T,
    out: &mut S,
    gate: &G,
) -> u8
    // The words are refused only where they ask for no command that is there, and no status but want of memory comes
    // then beside.
    ensures refused { result ≡ 1 → is_there (commanded words.now) ≡ false }
    ensures words { is_there (commanded words.now) ≡ false → (result ≡ 1) ⊎ (result ≡ 10) }

    // A device is blamed only where its count rose.
    ensures device { result ≡ 7 → Rose (T.faults tree.old) (T.faults tree.new)
        ⊎ Rose (S.faults out.old) (S.faults out.new) }

    // Where memory was wanting for a call of the tree, the status says so.
    ensures memory { memory_faults (T.log tree.old) < memory_faults (T.log tree.new) → result ≡ 10 }

    // The run has an ending, which tells its status, which device is blamed, what the tree was asked, what became of
    // all files that its answers fit, told ones among them, and what was said.
    ensures ended { Ran (commanded words.now) result
        (outside (T.files tree.old) (T.faults tree.old) (T.log tree.old)
        (output (S.written out.old) (S.faults out.old) (S.log out.old)))
        (outside (T.files tree.new) (T.faults tree.new) (T.log tree.new)
        (output (S.written out.new) (S.faults out.new) (S.log out.new))) }
{
    match read_command(alloc, words) {
        Ok(Some(command)) => run_asked(rt, alloc, command, tree, out, gate),
        Ok(None) => refuse_words(out),
        Err(_) => say_no_memory(out),
    }
}

/// Runs the command that words ask for.
fn run_asked<Rt: Threads + Sync, T: Tree, S: Sink, G: Gate>(
    rt: &Rt,
    alloc: Global,
    command: Command,
    tree: &mut T,
    out: &mut S,
    gate: &G,
) -> u8
    ensures refused { result ≡ 1 → is_there (Some command) ≡ false }
    ensures words { is_there (Some command) ≡ false → result ≡ 1 }
    ensures device { result ≡ 7 → Rose (T.faults tree.old) (T.faults tree.new)
        ⊎ Rose (S.faults out.old) (S.faults out.new) }
    ensures memory { memory_faults (T.log tree.old) < memory_faults (T.log tree.new) → result ≡ 10 }
    ensures ended { Does (Some command) result
        (outside (T.files tree.old) (T.faults tree.old) (T.log tree.old)
        (output (S.written out.old) (S.faults out.old) (S.log out.old)))
        (outside (T.files tree.new) (T.faults tree.new) (T.log tree.new)
        (output (S.written out.new) (S.faults out.new) (S.log out.new))) }
{
    match command {
        Command::Shrink {
            config,
            witness,
            workers,
        } => {
            let files = ShrinkFiles { config, witness };
            run_shrink(rt, alloc, files, workers, tree, out, gate)
        }
        Command::Check { config, witness } => {
            run_command(alloc, &CheckFiles { config, witness }, tree, out)
        }
        Command::Retrace { mapping, trace } => {
            run_command(alloc, &RetraceFiles { mapping, trace }, tree, out)
        }
        Command::Gen { number, directory } if number <= MOST_PAIRS => {
            run_command(alloc, &GenFiles { number, directory }, tree, out)
        }
        Command::Why { config, item } => {
            run_command(alloc, &WhyFiles { config, item }, tree, out)
        }
        Command::Run {
            directory,
            entry,
            steps,
            words,
        } => {
            let files = RunFiles {
                directory,
                entry,
                steps,
                words,
            };
            run_command(alloc, &files, tree, out)
        }
        Command::Compare {
            config,
            entry,
            steps,
            words,
        } => {
            let files = CompareFiles {
                config,
                entry,
                steps,
                words,
            };
            run_command(alloc, &files, tree, out)
        }
        Command::Gen { .. } => refuse_words(out),
    }
}

/// Shrinks by the files that words name, with as many workers as they ask for.
fn run_shrink<Rt: Threads + Sync, T: Tree, S: Sink, G: Gate>(
    rt: &Rt,
    alloc: Global,
    files: ShrinkFiles,
    workers: u32,
    tree: &mut T,
    out: &mut S,
    gate: &G,
) -> u8
    ensures words { result ≢ 1 }
    ensures device { result ≡ 7 → Rose (T.faults tree.old) (T.faults tree.new)
        ⊎ Rose (S.faults out.old) (S.faults out.new) }
    ensures memory { memory_faults (T.log tree.old) < memory_faults (T.log tree.new) → result ≡ 10 }
    ensures ended { Ended IsAny (PairIsDue files) result
        (outside (T.files tree.old) (T.faults tree.old) (T.log tree.old)
        (output (S.written out.old) (S.faults out.old) (S.log out.old)))
        (outside (T.files tree.new) (T.faults tree.new) (T.log tree.new)
        (output (S.written out.new) (S.faults out.new) (S.log out.new))) }
{
    let mark = |sys: &System| -> M<Marked>
        requires { IsSync Rt.row × IsSync G.row × Valid sys.now }
        ensures { IfOk result (Marks sys.now) }
    { mark_all(rt, alloc, sys, workers.clamp(1, MOST_WORKERS), gate) };
    let shrinking = Shrinking {
        files,
        rt,
        workers: workers.clamp(1, MOST_WORKERS) as usize,
        mark,
    };
    run_command(alloc, &shrinking, tree, out)
}

/// Refuses words that ask for no command.
pub(crate) fn refuse_words<S: Sink>(out: &mut S) -> u8
    ensures { SaysLine 1 (codes "error 1 words\n") result
        (output (S.written out.old) (S.faults out.old) (S.log out.old))
        (output (S.written out.new) (S.faults out.new) (S.log out.new)) }
{
    say_line(1, b"error 1 words\n", out)
}
