// Texts in a line.
//
// A byte from 21 to 7E other than `\` stands for itself, and a backslash begins an escape: `\n`, `\r`, `\t` and `\f`
// for LF, CR, a tab and a form feed, `\s` for a blank, `\\` for a backslash, `\e` for nothing, `\xHH` for a byte. In a
// text that ends its line a blank may stand for itself.
use jv_base::{M, Text};
use std::alloc::{AllocError, Global};

/// A line up to its first blank, and what stands behind that.
pub fn first_word(line: &[u8]) -> (&[u8], &[u8]) {
    match line.iter().position(|byte| *byte == b' ') {
        Some(at) => (&line[..at], &line[at + 1..]),
        None => (line, &line[line.len()..]),
    }
}

/// The text that a text of a line stands for, where it is well formed and in UTF-8.
pub fn unescaped_text(alloc: Global, text: &[u8]) -> M<Option<Text>> {
    let Some(bytes) = unescaped(alloc, text)? else {
        return Ok(None);
    };
    match std::str::from_utf8(bytes.as_slice()) {
        Ok(text) => Ok(Some(Text::from_str(alloc, text)?)),
        Err(_) => Ok(None),
    }
}

/// The bytes that a text of a line stands for, where it is well formed.
pub fn unescaped(alloc: Global, text: &[u8]) -> M<Option<Vec<u8>>> {
    let mut bytes = Vec::new(alloc);
    let mut rest = text;
    for _ in 0..text.len() {
        match rest {
            [] => break,
            [b'\\', behind @ ..] => {
                let Some((byte, others)) = escape_in(behind) else {
                    return Ok(None);
                };
                if let Some(byte) = byte {
                    bytes.push(byte)?;
                }
                rest = others;
            }
            [byte, behind @ ..] => {
                bytes.push(*byte)?;
                rest = behind;
            }
        }
    }
    Ok(Some(bytes))
}

// The byte that an escape stands for behind its backslash, if it stands for one, and what stands behind it.
fn escape_in(text: &[u8]) -> Option<(Option<u8>, &[u8])> {
    match text {
        [b'n', rest @ ..] => Some((Some(b'\n'), rest)),
        [b'r', rest @ ..] => Some((Some(b'\r'), rest)),
        [b't', rest @ ..] => Some((Some(b'\t'), rest)),
        [b'f', rest @ ..] => Some((Some(12), rest)),
        [b's', rest @ ..] => Some((Some(b' '), rest)),
        [b'\\', rest @ ..] => Some((Some(b'\\'), rest)),
        [b'e', rest @ ..] => Some((None, rest)),
        [b'x', high, low, rest @ ..] => Some((Some(hex_byte(*high, *low)?), rest)),
        _ => None,
    }
}

fn hex_byte(high: u8, low: u8) -> Option<u8> {
    let high = (high as char).to_digit(16)?;
    let low = (low as char).to_digit(16)?;
    u8::try_from(high * 16 + low).ok()
}

const DIGITS: &[u8; 16] = b"0123456789abcdef";

/// Appends a text as a word of a line.
pub fn push_escaped(line: &mut String, text: &[u8]) -> Result<(), AllocError> {
    push_front(line, text)?;
    for byte in text {
        push_byte(line, *byte)?;
    }
    Ok(())
}

/// A text as a whole line, in which each blank stands for itself.
pub fn escaped_line(alloc: Global, text: &[u8]) -> M<Text> {
    let mut line = String::new(alloc);
    for byte in text {
        match byte {
            b' ' => line.push(' ')?,
            _ => push_byte(&mut line, *byte)?,
        }
    }
    Ok(Text::from_string(alloc, line)?)
}

/// Appends a text as a list in a line has it, each comma as an escape too.
pub fn push_listed(line: &mut String, text: &[u8]) -> Result<(), AllocError> {
    push_front(line, text)?;
    for byte in text {
        match byte {
            b',' => push_number(line, *byte)?,
            _ => push_byte(line, *byte)?,
        }
    }
    Ok(())
}

// A text that is empty, or begins as a title does, can be told by what stands before it.
fn push_front(line: &mut String, text: &[u8]) -> Result<(), AllocError> {
    if text.is_empty() || text.starts_with(b"#") {
        line.push_str("\\e")?;
    }
    Ok(())
}

fn push_byte(line: &mut String, byte: u8) -> Result<(), AllocError> {
    match byte {
        b'\n' => line.push_str("\\n"),
        b'\r' => line.push_str("\\r"),
        b'\t' => line.push_str("\\t"),
        12 => line.push_str("\\f"),
        b' ' => line.push_str("\\s"),
        b'\\' => line.push_str("\\\\"),
        0x21..=0x7E => line.push(byte as char),
        _ => push_number(line, byte),
    }
}

fn push_number(line: &mut String, byte: u8) -> Result<(), AllocError> {
    line.push_str("\\x")?;
    line.push(DIGITS[(byte / 16) as usize] as char)?;
    line.push(DIGITS[(byte % 16) as usize] as char)
}
