// Lines of input, each answered.
use jv_base::{M, OutOfMemory, Text};
use std::alloc::{AllocError, Global};
use std::io::{BufRead, ErrorKind, Write};

/// What a program answers.
pub trait Answers {
    /// The answer to a line, which comes without its end; none where the line is of another form.
    fn answer(&self, alloc: Global, line: &[u8]) -> M<Option<Text>>;
}

/// Why not all lines are answered.
#[derive(Debug, Drop)]
pub enum Stop {
    /// The line of this number, from 1, is of another form.
    Form(u64),
    /// A device failed.
    Device,
    OutOfMemory,
}

impl From<AllocError> for Stop {
    fn from(_: AllocError) -> Self {
        Stop::OutOfMemory
    }
}

impl From<OutOfMemory> for Stop {
    fn from(_: OutOfMemory) -> Self {
        Stop::OutOfMemory
    }
}

impl From<std::io::Error> for Stop {
    fn from(error: std::io::Error) -> Self {
        match error.kind() {
            ErrorKind::OutOfMemory => Stop::OutOfMemory,
            _ => Stop::Device,
        }
    }
}

/// Answers each line of the input, the last one with its end or without it.
pub fn answer_lines<A: Answers, R: BufRead, W: Write>(
    alloc: Global,
    answers: &A,
    input: &mut R,
    output: &mut W,
) -> Result<(), Stop> {
    let mut line = Vec::new(alloc);
    for number in 1..u64::MAX {
        if !read_line(input, &mut line)? {
            return Ok(());
        }
        if is_title(line.as_slice()) {
            put_line(line.as_slice(), output)?;
        } else {
            let answer = answers.answer(alloc, line.as_slice())?;
            put_answer(number, &answer, output)?;
        }
    }
    Err(Stop::Device)
}

/// Reads the next line, without its end; false where there is none.
pub fn read_line<R: BufRead>(input: &mut R, line: &mut Vec<u8>) -> Result<bool, Stop> {
    line.clear();
    if input.read_until(b'\n', line)? == 0 {
        return Ok(false);
    }
    if line.last() == Some(&b'\n') {
        line.pop();
    }
    Ok(true)
}

/// Whether a line is a title, which is put out as it is.
pub fn is_title(line: &[u8]) -> bool {
    line.starts_with(b"#")
}

/// Puts the answer to the line of this number; where there is none, the line is of another form.
pub fn put_answer<W: Write>(
    number: u64,
    answer: &Option<Text>,
    output: &mut W,
) -> Result<(), Stop> {
    match answer {
        Some(text) => put_line(text.as_bytes(), output),
        None => Err(Stop::Form(number)),
    }
}

/// Puts a line with its end.
pub fn put_line<W: Write>(line: &[u8], output: &mut W) -> Result<(), Stop> {
    output.write_all(line)?;
    output.write_all(b"\n")?;
    Ok(())
}
