// What the workers of a batch share, and what each of them has.
use crate::shared_files::SharedFiles;
use crate::work::JobConfig;
use command_frame::{Plan, Refusal};
use job_queue::JobQueue;
use jv_base::Items;

/// A job whose class files were read: the place of its config among all, from 0, and the files.
#[derive(Drop)]
pub(crate) struct Job {
    pub number: usize,
    pub files: SharedFiles,
}

/// What the workers share: the configs of all jobs, and the queue of those whose class files were read.
#[derive(Drop)]
pub(crate) struct Board {
    pub configs: Items<Result<JobConfig, Refusal>>,
    pub queue: JobQueue<Job>,
}

/// What a worker made of the class files of a job.
#[derive(Drop)]
pub(crate) struct Made {
    pub number: usize,
    pub files: SharedFiles,
    pub answer: Result<Plan, Refusal>,
}

/// A worker, by the number by which the gate knows it, and what it made so far.
#[derive(Drop)]
pub(crate) struct Member {
    pub number: u32,
    pub made: Vec<Made>,
}
