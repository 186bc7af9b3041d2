// What holds of batches.
ghost use Rattle.std.specs.Prelude.{ℕ, List};
ghost use Rattle.batch_command.specs.Batch.{IsDue};
ghost use Rattle.batch_command.specs.Laws.{IsOfJobs, LeavesTold};

use crate::work::Work;

/// A batch that is due of told files is what each of its jobs is due to write and to say alone, of the same files: its
/// files are theirs and its reports tell their texts, in the order of the list. It does nothing.
pub fn a_batch_does_its_jobs<W: Work>()
    ensures { IsOfJobs W.parts }
{}

/// Where a tree tells its files, what `run_jobs` says of its calls settles them: after the status of the jobs they are
/// the old ones with the files of all jobs put in the order of the list, after a refusal that is due they are as they
/// were, after 10 they are as they were or hold the first of these files, and after 7 the same, while the path of the
/// next file may hold any bytes. It does nothing.
pub fn told_files_are_left_as_due<W: Work>()
    ensures { (list : List ℕ) → LeavesTold (IsDue W.parts list) }
{}
