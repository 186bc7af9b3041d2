// How a run's end is told.
use class_run::{Back, End, Ended};
use jv_base::{Base, FieldType, M, Name, Text, external};
use line_answers::push_escaped;
use std::alloc::Global;

/// What was printed, as a text of the line, and how the run has ended.
pub fn ended_text(alloc: Global, ended: &Ended) -> M<Text> {
    let bytes = bytes_of(alloc, ended.printed.as_slice())?;
    let mut line = String::new(alloc);
    push_escaped(&mut line, bytes.as_slice())?;
    line.push_str(" ")?;
    push_end(alloc, &mut line, &ended.how)?;
    Ok(Text::from_string(alloc, line)?)
}

fn push_end(alloc: Global, line: &mut String, how: &End) -> M<()> {
    match how {
        End::Running => line.push_str("running")?,
        End::Returned(back) => push_back(alloc, line, back)?,
        End::Threw { class, .. } => push_thrown(alloc, line, class)?,
        End::Wrong => line.push_str("wrong")?,
    }
    Ok(())
}

fn push_back(alloc: Global, line: &mut String, back: &Back) -> M<()> {
    line.push_str("returned")?;
    match back {
        Back::Nothing => {}
        Back::Int(number) => line.push_str(format!(in alloc; " {number}")?.as_str())?,
        Back::Long(number) => line.push_str(format!(in alloc; " {number}")?.as_str())?,
        Back::Null => line.push_str(" null")?,
        Back::Ref(_) => line.push_str(" ref")?,
        Back::Lit(_) => line.push_str(" ref")?,
    }
    Ok(())
}

fn push_thrown(alloc: Global, line: &mut String, class: &Name) -> M<()> {
    let ty = FieldType {
        dims: 0,
        base: Base::Class(class.clone()?),
    };
    line.push_str("threw ")?;
    line.push_str(external(alloc, &ty)?.as_str())?;
    Ok(())
}

// The units in UTF-8, a pair of surrogates as one character, and an unpaired one as the three bytes of its number.
fn bytes_of(alloc: Global, units: &[u16]) -> M<Vec<u8>> {
    let mut bytes = Vec::new(alloc);
    let mut high = None;
    for unit in units {
        match *unit {
            0xD800..=0xDBFF => {
                push_alone(&mut bytes, high)?;
                high = Some(*unit);
            }
            0xDC00..=0xDFFF => {
                push_low(alloc, &mut bytes, high, *unit)?;
                high = None;
            }
            _ => {
                push_alone(&mut bytes, high)?;
                push_character(alloc, &mut bytes, u32::from(*unit))?;
                high = None;
            }
        }
    }
    push_alone(&mut bytes, high)?;
    Ok(bytes)
}

// A surrogate that no other one follows or precedes, if there is one.
fn push_alone(bytes: &mut Vec<u8>, unit: Option<u16>) -> M<()> {
    if let Some(unit) = unit {
        let [first, second] = unit.to_be_bytes();
        bytes.push(0xE0 | (first >> 4))?;
        bytes.push(0x80 | ((first & 0x0F) << 2) | (second >> 6))?;
        bytes.push(0x80 | (second & 0x3F))?;
    }
    Ok(())
}

// A low surrogate, with the high one before it if there is one.
fn push_low(alloc: Global, bytes: &mut Vec<u8>, high: Option<u16>, low: u16) -> M<()> {
    match high {
        Some(high) => {
            let front = u32::from(high & 0x03FF);
            let back = u32::from(low & 0x03FF);
            push_character(alloc, bytes, 0x10000 + (front << 10 | back))
        }
        None => push_alone(bytes, Some(low)),
    }
}

fn push_character(alloc: Global, bytes: &mut Vec<u8>, code: u32) -> M<()> {
    if let Some(character) = char::from_u32(code) {
        let mut one = String::new(alloc);
        one.push(character)?;
        bytes.extend_from_slice(one.as_bytes())?;
    }
    Ok(())
}
