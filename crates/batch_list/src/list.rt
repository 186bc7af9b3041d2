// The text of the list.
ghost use Rattle.std.specs.Prelude.{◌≡◌, ◌<◌, IfOk, OnOk, length};
ghost use Rattle.std.specs.Str.Lines.{lines};
ghost use Rattle.jv_base.specs.Outcome.{IsDue};
ghost use Rattle.batch_list.specs.Line.{jobs_in};
ghost use Rattle.batch_list.specs.List.{first_bad, list_read};

use crate::line::{JobFiles, is_job, job_in};
use jv_base::{Items, M, Or};
use std::alloc::Global;
use text_lines::next_line;

/// How many jobs a list may have.
const MOST_JOBS: u32 = 64;

/// Why a text is no list.
#[derive(Clone, Copy)]
pub enum ListFault {
    /// The line of this number, counted from 1, is the first that doesn't name the files of a job.
    BadLine(u32),
    /// Each line names the files of a job, and there are more than 64.
    TooMany,
}

/// The jobs of a list, line by line: each line has the paths of a config and of a witness, with one blank between. Lines
/// end with LF, before which a CR is dropped, or with the text.
pub fn read_list(alloc: Global, bytes: &[u8]) -> Result<Items<JobFiles>, Or<ListFault>>
    requires { length bytes.now < 4294967295 }
    ensures { IsDue result (list_read bytes.now) }
{
    if let Some(line) = first_bad(bytes) {
        return Err(Or::Fault(ListFault::BadLine(line)));
    }
    if line_count(bytes) > MOST_JOBS {
        return Err(Or::Fault(ListFault::TooMany));
    }
    Ok(jobs_in(alloc, bytes)?)
}

/// The number of the first line that doesn't name the files of a job.
fn first_bad(bytes: &[u8]) -> Option<u32>
    requires { length bytes.now < 4294967295 }
    ensures { result ≡ first_bad 1 (lines bytes.now) }
{
    let mut rest = bytes;
    let mut number = 1;
    while let Some(line) = next_line(rest) {
        if !is_job(line.line) {
            return Some(number);
        }
        rest = line.rest;
        number += 1;
    }
    None
}

fn line_count(bytes: &[u8]) -> u32
    requires { length bytes.now < 4294967295 }
    ensures { result ≡ length (lines bytes.now) }
{
    let mut rest = bytes;
    let mut count = 0;
    while let Some(line) = next_line(rest) {
        rest = line.rest;
        count += 1;
    }
    count
}

/// The jobs of those lines that name one.
fn jobs_in(alloc: Global, bytes: &[u8]) -> M<Items<JobFiles>>
    ensures { IfOk result (λ jobs. jobs ≡ jobs_in (lines bytes.now)) }
{
    let mut jobs = Items::new(alloc);
    let mut rest = bytes;
    while let Some(line) = next_line(rest) {
        if let Some(job) = job_in(alloc, line.line)? {
            jobs.push(job)?;
        }
        rest = line.rest;
    }
    Ok(jobs)
}
