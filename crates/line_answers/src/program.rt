// The program as a whole.
use crate::lines::{Answers, Stop, answer_lines};
use std::io::{self, BufReader, BufWriter, Write};
use std::process::ExitCode;

// Answers all lines of standard input on standard output.
fn answer_all<A: Answers>(rt: &HostRuntime, answers: &A) -> Result<(), Stop> {
    let alloc = rt.alloc();
    let mut input = BufReader::new(alloc, rt.reader())?;
    let mut output = BufWriter::new(alloc, io::writer(rt))?;
    let answered = answer_lines(alloc, answers, &mut input, &mut output);
    output.flush()?;
    answered
}

/// Answers all lines of standard input on standard output, and gives the status with which the program ends. A line of
/// another form is told on standard error, with the form that it should have.
pub fn answer_standard_input<A: Answers>(rt: &HostRuntime, answers: &A, form: &str) -> ExitCode {
    let ended = answer_all(rt, answers);
    exit_code(rt, &ended, form)
}

/// The status with which a program ends whose lines were answered so; on standard error it is said why not all were.
pub fn exit_code(rt: &HostRuntime, ended: &Result<(), Stop>, form: &str) -> ExitCode {
    match ended {
        Ok(()) => ExitCode::from(0),
        Err(Stop::Form(number)) => {
            let number = *number;
            let _ = eprintln!(rt; "line {number}: no {form}");
            ExitCode::from(1)
        }
        Err(Stop::Device) => {
            let _ = eprintln!(rt; "a device failed");
            ExitCode::from(7)
        }
        Err(Stop::OutOfMemory) => {
            let _ = eprintln!(rt; "memory was wanting");
            ExitCode::from(10)
        }
    }
}
