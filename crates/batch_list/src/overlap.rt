// Jobs that would get in one another's way.
ghost use Rattle.std.specs.Prelude.{◌≡◌};
ghost use Rattle.batch_list.specs.Overlap.{first_overlap, meets, meets_any, overlap, overlap_any, overlaps_any};
ghost use Rattle.batch_list.specs.Overlap.{writes_into};

use jv_base::{Items, Text};
use path_text::is_below;

/// What a job reads and writes, each a file or a directory with all that is below it.
#[derive(Drop)]
pub struct JobPaths {
    /// The line of the list that names the job, counted from 1.
    pub line: usize,
    pub reads: Items<Text>,
    pub writes: Items<Text>,
}

/// The line of the first job that would write over what an earlier one reads or writes, or over the list, or of which an
/// earlier one would write over what it reads or writes; none where the jobs can be done in any order.
///
/// A path is written over where the same path is written, one below it or one above it. Of two jobs each path of one is
/// compared with each of the other, as many at most as a config names: a list has few jobs.
pub fn first_overlap(list: &Text, jobs: &[JobPaths]) -> Option<usize>
    ensures { result ≡ first_overlap list.now jobs.now }
{
    for at in 0..jobs.len() {
        if overlaps_any(list, &jobs[..at], &jobs[at]) {
            return Some(jobs[at].line);
        }
    }
    None
}

// Whether two paths are one, or one of them lies below the other.
#[tactic(auto, unfolding(crate::specs::Overlap::meets))]
fn meets(path: &Text, other: &Text) -> bool
    ensures { result ≡ meets path.now other.now }
{
    let (path, other) = (path.as_str(), other.as_str());
    path == other || is_below(path, other) || is_below(other, path)
}

fn meets_any(path: &Text, others: &Items<Text>) -> bool
    ensures { result ≡ meets_any path.now others.now }
{
    others.iter().any(|other| meets(path, other))
}

// Whether a path that a job writes meets one that the other reads or writes.
#[tactic(auto, unfolding(crate::specs::Overlap::writes_into))]
fn writes_into(job: &JobPaths, other: &JobPaths) -> bool
    ensures { result ≡ writes_into job.now other.now }
{
    job.writes.iter().any(|path| meets_any(path, &other.writes) || meets_any(path, &other.reads))
}

#[tactic(auto, unfolding(crate::specs::Overlap::overlap))]
fn overlap(job: &JobPaths, other: &JobPaths) -> bool
    ensures { result ≡ overlap job.now other.now }
{
    writes_into(job, other) || writes_into(other, job)
}

fn overlap_any(job: &JobPaths, others: &[JobPaths]) -> bool
    ensures { result ≡ overlap_any job.now others.now }
{
    others.iter().any(|other| overlap(job, other))
}

// Whether a job writes into the list, or overlaps with one of the others.
fn overlaps_any(list: &Text, others: &[JobPaths], job: &JobPaths) -> bool
    ensures { result ≡ overlaps_any list.now others.now job.now }
{
    meets_any(list, &job.writes) || overlap_any(job, others)
}
