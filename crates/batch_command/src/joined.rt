// What a batch writes and says.
ghost use Rattle.std.specs.Prelude.{◌≡◌, ◌++◌, IfOk, OnOk, string_bytes};
ghost use Rattle.batch_command.specs.Batch.{batch_of, files_of, job_line, or_else, report, status_of, text_of};

use command_frame::{Plan, Refusal};
use jv_base::{Items, M};
use std::alloc::Global;
use tree_io::FileAt;

/// What a batch is to write and to say, and its status where all was said: that of the first job whose status isn't 0.
#[derive(Drop)]
pub struct Batch {
    pub plan: Plan,
    pub status: u8,
}

/// The batch of what all jobs are to write and to say.
pub(crate) fn batch_of(alloc: Global, answers: Items<Result<Plan, Refusal>>) -> M<Batch>
    ensures { IfOk result (λ batch. batch ≡ batch_of answers) }
{
    let mut files = Items::new(alloc);
    let mut text = Vec::new(alloc);
    let mut status = 0;
    let count = answers.len();
    let mut number = 0;
    for answer in answers.into_vec() {
        prove!(number < count);
        number += 1;
        push_report(alloc, &mut text, number, &answer)?;
        status = or_else(status, status_of(&answer));
        push_files(&mut files, answer)?;
    }
    Ok(Batch {
        plan: Plan {
            files,
            text: Items::from_vec(text),
        },
        status,
    })
}

/// Puts the report of a job behind others.
fn push_report(
    alloc: Global,
    text: &mut Vec<u8>,
    number: usize,
    answer: &Result<Plan, Refusal>,
) -> M<()>
    ensures { OnOk result (text.new.items ≡ text.old.items ++ report number answer.now) }
{
    let line = job_line(alloc, number)?;
    text.extend_from_slice(line.as_bytes())?;
    push_text(alloc, text, answer)
}

fn job_line(alloc: Global, number: usize) -> M<String>
    ensures { IfOk result (λ line. string_bytes line ≡ job_line number) }
{
    Ok(format!(in alloc; "job {number}\n")?)
}

/// Puts what a job says behind other text.
fn push_text(alloc: Global, text: &mut Vec<u8>, answer: &Result<Plan, Refusal>) -> M<()>
    ensures { OnOk result (text.new.items ≡ text.old.items ++ text_of answer.now) }
{
    match answer {
        Ok(plan) => text.extend_from_slice(plan.text.as_slice())?,
        Err(refusal) => text.extend_from_slice(refusal.line(alloc)?.as_bytes())?,
    }
    Ok(())
}

/// The status of a job.
fn status_of(answer: &Result<Plan, Refusal>) -> u8
    ensures { result ≡ status_of answer.now }
{
    match answer {
        Ok(_) => 0,
        Err(refusal) => refusal.reason.status(),
    }
}

/// This status, or the other one where it is 0.
fn or_else(status: u8, other: u8) -> u8
    ensures { result ≡ or_else status other }
{
    if status == 0 { other } else { status }
}

/// Puts the files of a job behind others.
fn push_files(files: &mut Items<FileAt>, answer: Result<Plan, Refusal>) -> M<()>
    ensures { OnOk result (files.new ≡ files.old ++ files_of answer) }
{
    if let Ok(plan) = answer {
        for file in plan.files.into_vec() {
            files.push(file)?;
        }
    }
    Ok(())
}
