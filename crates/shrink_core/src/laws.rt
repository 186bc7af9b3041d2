// What holds of runs of commands, and of a pair that `check` takes.
ghost use Rattle.std.specs.Prelude.{ℕ, List};
ghost use Rattle.batch_command.specs.Batch.{IsDue};
ghost use Rattle.batch_command.specs.Laws as batches;
ghost use Rattle.check_command.specs.Due as check;
ghost use Rattle.check_command.specs.declared.command.CheckFiles.{CheckFiles};
ghost use Rattle.command_frame.specs.LeftFiles.{LeavesTold};
ghost use Rattle.compare_command.specs.Due as comparing;
ghost use Rattle.compare_command.specs.declared.command.CompareFiles.{CompareFiles};
ghost use Rattle.gen_command.specs.Due as generation;
ghost use Rattle.gen_command.specs.declared.command.GenFiles.{GenFiles};
ghost use Rattle.retrace_command.specs.Due as retrace;
ghost use Rattle.retrace_command.specs.declared.command.RetraceFiles.{RetraceFiles};
ghost use Rattle.run_command.specs.Due as running;
ghost use Rattle.run_command.specs.declared.command.RunFiles.{RunFiles};
ghost use Rattle.shrink_command.specs.declared.command.ShrinkFiles.{ShrinkFiles};
ghost use Rattle.why_command.specs.Due as why;
ghost use Rattle.why_command.specs.declared.command.WhyFiles.{WhyFiles};
ghost use Rattle.shrink_core.specs.Again.{PlanIsChecked};
ghost use Rattle.shrink_core.specs.Batches.{IsOfShrinks, shrink_parts};
ghost use Rattle.shrink_core.specs.Checked.{IsOk, OkDoesTheSame};
ghost use Rattle.shrink_core.specs.Commands.{IsAny, IsGenerated, IsSame, IsText, PairIsDue};

/// Where a tree tells its files, what `run` and `run_batch` say of their calls settles them: after status 0 they are the old ones with
/// the plan that is due put, after a refusal that is due they are as they were, after 10 they are as they were or hold
/// the first files of the plan that is due, and after 7 the same, while the path of the next file may hold any bytes.
/// It does nothing.
pub fn told_files_are_left_as_due()
    ensures shrink { (named : ShrinkFiles) → LeavesTold IsAny (PairIsDue named) }
    ensures check { (named : CheckFiles) → LeavesTold IsOk (check.IsDue named) }
    ensures retrace { (named : RetraceFiles) → LeavesTold IsText (retrace.IsDue named) }
    ensures generation { (named : GenFiles) → LeavesTold (IsGenerated named) (generation.IsDue named) }
    ensures why { (named : WhyFiles) → LeavesTold IsText (why.IsDue named) }
    ensures running { (named : RunFiles) → LeavesTold IsText (running.IsDue named) }
    ensures comparing { (named : CompareFiles) → LeavesTold IsSame (comparing.IsDue named) }
    ensures batch { (list : List ℕ) → batches.LeavesTold (IsDue shrink_parts list) }
{}

/// A batch that is due of told files is what `shrink` is due to write and to say for each of its jobs alone, of the same
/// files: its files are theirs and its reports tell their texts, in the order of the list. It does nothing.
pub fn a_batch_does_its_shrinks()
    ensures { IsOfShrinks }
{}

/// Of files at which `check` has to say `ok`, what stands below the output directory does what stands below the input
/// directory does, and is typed. It does nothing.
pub fn what_is_ok_does_the_same()
    ensures { OkDoesTheSame }
{}

/// Of told files to which a plan was put that was due of `shrink`, `check` by the same config and witness has to say `ok`,
/// unless the class files below the output directory pass a limit on what is read. It does nothing.
pub fn what_is_written_is_ok()
    ensures { PlanIsChecked }
{}
