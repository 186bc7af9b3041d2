// The answers of all jobs, those of the workers among them.
ghost use Rattle.std.specs.Prelude.{◌≡◌, ◌<◌, ◌++◌, IfOk, IfSome, Ok, OnOk, Result, Some, length, slice_get};
ghost use Rattle.std.specs.List.{All, AllByRecursion};
ghost use Rattle.batch_command.specs.Finding.{MakesAll};
ghost use Rattle.batch_command.specs.Jobs.{Each, IsNamed, IsPlan};
ghost use Rattle.batch_command.specs.bodies.Workers.{IsMade, IsMadeOf, IsPlaceOf, MakesDue, given, input_in, inputs_in};

use crate::board::{Board, Made, Member};
use crate::configs::{caught, put};
use crate::inputs::again;
use crate::shared_files::SharedFiles;
use crate::work::{JobConfig, Work};
use crate::workers::make_plan;
use command_frame::{Plan, Refusal, Stop};
use jv_base::{Items, M};
use std::alloc::Global;
use tree_io::{Gate, Turn};

impl Board {
    /// What a worker and a crew made.
    pub(crate) fn all_made<W: Work>(&self, own: Member, crew: Vec<Member>) -> M<Vec<Made>>
        requires own { MakesDue W.parts self.now.configs own }
        requires crew { All (MakesDue W.parts self.now.configs) crew.items }
        ensures { IfOk result (λ made. All (IsMade W.parts self.now.configs) made.items) }
    {
        let mut crew = crew;
        let mut all = own.made;
        while let Some(member) = crew.pop() {
            add_made(&mut all, member.made)?;
        }
        Ok(all)
    }

    /// Takes what was made of these class files of a job, if it was.
    fn take_made<W: Work>(
        &self,
        number: usize,
        files: &SharedFiles,
        made: &mut Vec<Made>,
    ) -> Option<Result<Plan, Refusal>>
        requires { All (IsMade W.parts self.now.configs) made.old.items }
        ensures made { All (IsMade W.parts self.now.configs) made.new.items }
        ensures answer { IfSome result (IsMadeOf W.parts (slice_get self.now.configs number) files.now) }
    {
        let at = place_of(number, made.as_slice())?;
        let one = made.remove(at);
        if one.files.is(files) {
            Some(one.answer)
        } else {
            None
        }
    }
}

/// Puts what was made behind the rest.
fn add_made(all: &mut Vec<Made>, made: Vec<Made>) -> M<()>
    ensures { OnOk result (all.new.items ≡ all.old.items ++ made.items) }
{
    let mut made = made;
    Ok(all.append(&mut made)?)
}

/// Where something stands that was made of the job of this number.
fn place_of(number: usize, made: &[Made]) -> Option<usize>
    ensures { IfSome result (IsPlaceOf number made.now) }
{
    for at in 0..made.len() {
        if made[at].number == number {
            return Some(at);
        }
    }
    None
}

/// The plan of each job that has an input, or why it is refused: what was made of this input, or else what the caller
/// makes of it, with so many workers inside.
pub(crate) fn gather<W: Work, G: Gate>(
    alloc: Global,
    work: &W,
    workers: u32,
    board: &Board,
    gate: &G,
    made: Vec<Made>,
    inputs: Items<Result<SharedFiles, Refusal>>,
) -> Result<Items<Result<Plan, Refusal>>, Stop>
    requires ready { W.ready work.now }
    requires names { AllByRecursion IsNamed board.now.configs }
    requires made { All (IsMade W.parts board.now.configs) made.items }
    requires count { length inputs ≡ length board.now.configs }
    ensures { MakesAll result (Each (IsPlan W.parts) (inputs_in board.now.configs inputs)) }
{
    let mut made = made;
    let mut plans = Items::new(alloc);
    let mut number = 0;
    for input in inputs.into_vec() {
        let plan = caught(answer_of(alloc, work, workers, board, gate, number, input, &mut made))?;
        put(&mut plans, plan)?;
        number += 1;
    }
    Ok(plans)
}

/// The plan of a job that has an input.
fn answer_of<W: Work, G: Gate>(
    alloc: Global,
    work: &W,
    workers: u32,
    board: &Board,
    gate: &G,
    number: usize,
    input: Result<SharedFiles, Refusal>,
    made: &mut Vec<Made>,
) -> Result<Plan, Stop>
    requires ready { W.ready work.now }
    requires names { AllByRecursion IsNamed board.now.configs }
    requires number { number < length board.now.configs }
    requires made { All (IsMade W.parts board.now.configs) made.old.items }
    ensures made { All (IsMade W.parts board.now.configs) made.new.items }
    ensures plan { (config : Result JobConfig Refusal) → slice_get board.now.configs number ≡ Some config
        → MakesAll result (IsPlan W.parts (input_in config input)) }
{
    match input {
        Ok(files) => match board.take_made::<W>(number, &files, made) {
            Some(answer) => given(answer),
            None => own_plan(alloc, work, workers, &board.configs[number], gate, files),
        },
        Err(refusal) => Err(Stop::Refused(refusal)),
    }
}

/// What was answered, a refusal of it as such.
fn given(answer: Result<Plan, Refusal>) -> Result<Plan, Stop>
    ensures { result ≡ given answer }
{
    match answer {
        Ok(plan) => Ok(plan),
        Err(refusal) => Err(Stop::Refused(refusal)),
    }
}

/// The plan that the caller makes of the class files of a job.
fn own_plan<W: Work, G: Gate>(
    alloc: Global,
    work: &W,
    workers: u32,
    config: &Result<JobConfig, Refusal>,
    gate: &G,
    files: SharedFiles,
) -> Result<Plan, Stop>
    requires ready { W.ready work.now }
    requires names { IsNamed config.now }
    ensures { MakesAll result (IsPlan W.parts (input_in config.now (Ok files))) }
{
    match config {
        Ok(config) => {
            gate.turn(0, Turn::Took);
            let plan = make_plan(alloc, work, workers, config, files);
            gate.turn(0, Turn::Finished);
            plan
        }
        Err(refusal) => Err(Stop::Refused(again(refusal)?)),
    }
}
