use jv_base::{M, Text};
use line_answers::{Answers, Stop, answer_lines};
use std::alloc::Global;
use std::test::Fail;

// Answers a line of letters by the line, and takes no other.
struct Letters;

impl Answers for Letters {
    fn answer(&self, alloc: Global, line: &[u8]) -> M<Option<Text>> {
        match std::str::from_utf8(line) {
            Ok(text) if line.iter().all(|byte| byte.is_ascii_lowercase()) => Ok(Some(Text::from_str(
                alloc, text,
            )?)),
            _ => Ok(None),
        }
    }
}

// What is written for an input, with how it ended.
fn answered(rt: &HostRuntime, input: &[u8]) -> (Vec<u8>, Result<(), Stop>) {
    let alloc = rt.alloc();
    let mut rest = input;
    let mut output = Vec::new(alloc);
    let ended = answer_lines(alloc, &Letters, &mut rest, &mut output);
    (output, ended)
}

#[test]
fn a_line_of_another_form_is_told_by_its_number(rt: HostRuntime) -> Result<(), Fail> {
    let (output, ended) = answered(&rt, b"one\ntwo\n3\nfour\n");
    assert!(rt; matches!(ended, Err(Stop::Form(3))));
    assert!(rt; output.as_slice() == b"one\ntwo\n".as_slice());
    Ok(())
}

#[test]
fn a_title_is_put_out_as_it_is_and_the_last_line_may_lack_its_end(
    rt: HostRuntime,
) -> Result<(), Fail> {
    let (output, ended) = answered(&rt, b"# 1\n\none");
    assert!(rt; ended.is_ok());
    assert!(rt; output.as_slice() == b"# 1\n\none\n".as_slice());
    Ok(())
}
