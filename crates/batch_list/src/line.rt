// A line of the list.
ghost use Rattle.std.specs.Prelude.{◌≡◌, IfOk, is_some};
ghost use Rattle.batch_list.specs.Line.{Jobs, both_paths, has_blank, job_in, paths_in, paths_of};
ghost use Rattle.text_lines.specs.Cut.{parts_copied};

use jv_base::{M, Text};
use path_text::is_path;
use std::alloc::Global;
use text_lines::cut;

/// The files of a job: the config that it reads, and where its witness goes.
#[derive(Drop)]
pub struct JobFiles {
    pub config: Text,
    pub witness: Text,
}

/// The job whose files a line names: two paths without a blank, and one blank between.
pub(crate) fn job_in(alloc: Global, line: &[u8]) -> M<Option<JobFiles>>
    ensures { IfOk result (λ job. job ≡ job_in line.now) }
{
    match paths_of(line) {
        Some((config, witness)) => Ok(Some(JobFiles {
            config: Text::from_str(alloc, config)?,
            witness: Text::from_str(alloc, witness)?,
        })),
        None => Ok(None),
    }
}

/// Whether a line names the files of a job.
pub(crate) fn is_job(line: &[u8]) -> bool
    ensures { result ≡ is_some (job_in line.now) }
{
    paths_of(line).is_some()
}

/// The two paths of a line.
fn paths_of(line: &[u8]) -> Option<(&str, &str)>
    ensures { parts_copied result ≡ paths_of line.now }
{
    match std::str::from_utf8(line) {
        Ok(text) => paths_in(text),
        Err(_) => None,
    }
}

#[tactic(auto, unfolding(crate::specs::Line::paths_in))]
fn paths_in(text: &str) -> Option<(&str, &str)>
    ensures { parts_copied result ≡ paths_in text.now }
{
    match cut(text, ' ') {
        Some((config, witness)) => both_paths(config, witness),
        None => None,
    }
}

fn both_paths<'a>(config: &'a str, witness: &'a str) -> Option<(&'a str, &'a str)>
    ensures { parts_copied result ≡ both_paths config.now witness.now }
{
    if is_path(config) && is_path(witness) && !has_blank(witness) {
        Some((config, witness))
    } else {
        None
    }
}

fn has_blank(text: &str) -> bool
    ensures { result ≡ has_blank text.now }
{
    cut(text, ' ').is_some()
}

/// A line names the files of a job exactly where it is two paths without a blank, and one blank between. It does nothing.
pub fn lines_name_jobs()
    ensures { Jobs }
{}
