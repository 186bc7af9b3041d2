// Class files that are cut.
use crate::answer::answer;
use crate::lines::bytes_of;
use jv_base::{M, Text};
use line_answers::first_word;
use std::alloc::Global;

/// `cuts HEX`: how many shorter lengths the file has, where each of its fronts has the fault `Cut` at its end; else the first
/// length at which that isn't so, and what reading the front gives. None where a line has another form.
pub fn cuts_answer(alloc: Global, line: &[u8]) -> M<Option<Text>> {
    let (word, rest) = first_word(line);
    if word != b"cuts".as_slice() {
        return Ok(None);
    }
    let Some(bytes) = bytes_of(alloc, rest)? else {
        return Ok(None);
    };
    for length in 0..bytes.len() {
        let said = answer(alloc, &bytes.as_slice()[..length])?;
        let due = format!(in alloc; "fault {length} Cut")?;
        if said.as_str() != due.as_str() {
            let said = said.as_str();
            let text = format!(in alloc; "at {length} {said}")?;
            return Ok(Some(Text::from_string(alloc, text)?));
        }
    }
    let count = bytes.len();
    let text = format!(in alloc; "cut at each of {count}")?;
    Ok(Some(Text::from_string(alloc, text)?))
}
