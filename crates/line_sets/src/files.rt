// Class files in hex.
use class_model::Class;
use class_pool::NamedClass;
use class_read::read_class;
use hex::FromHexError;
use jv_base::{Bytes, Items, M, Or, OutOfMemory, Text};
use std::alloc::Global;

/// A file of a line.
#[derive(Drop)]
pub struct LineFile {
    pub path: Text,
    pub bytes: Bytes,
}

/// The files of the words `PATH=HEX` of a line; none where a word is of another form.
pub fn bytes_of(alloc: Global, line: &[u8]) -> M<Option<Items<LineFile>>> {
    let mut files = Items::new(alloc);
    for word in line.split(|byte| *byte == b' ') {
        match file_of(alloc, word)? {
            Some(file) => files.push(file)?,
            None => return Ok(None),
        }
    }
    Ok(Some(files))
}

/// The classes of the words `PATH=HEX` of a line; none where a word is of another form, or its bytes are no class file.
pub fn files_of(alloc: Global, line: &[u8]) -> M<Option<Items<NamedClass>>> {
    let mut classes = Items::new(alloc);
    for word in line.split(|byte| *byte == b' ') {
        match named_class(alloc, word)? {
            Some(class) => classes.push(class)?,
            None => return Ok(None),
        }
    }
    Ok(Some(classes))
}

fn named_class(alloc: Global, word: &[u8]) -> M<Option<NamedClass>> {
    let Some(file) = file_of(alloc, word)? else {
        return Ok(None);
    };
    match class_of(alloc, file.bytes.as_slice())? {
        Some(class) => Ok(Some(NamedClass {
            path: file.path,
            class,
        })),
        None => Ok(None),
    }
}

fn file_of(alloc: Global, word: &[u8]) -> M<Option<LineFile>> {
    let Some(at) = word.iter().position(|byte| *byte == b'=') else {
        return Ok(None);
    };
    let Ok(path) = std::str::from_utf8(&word[..at]) else {
        return Ok(None);
    };
    let bytes = match hex::decode(alloc, &word[at + 1..]) {
        Ok(bytes) => Bytes::from_vec(bytes),
        Err(FromHexError::OutOfMemory) => return Err(OutOfMemory),
        Err(_) => return Ok(None),
    };
    Ok(Some(LineFile {
        path: Text::from_str(alloc, path)?,
        bytes,
    }))
}

fn class_of(alloc: Global, bytes: &[u8]) -> M<Option<Class>> {
    if bytes.len() >= u32::MAX as usize {
        return Ok(None);
    }
    match read_class(alloc, bytes) {
        Ok(class) => Ok(Some(class)),
        Err(Or::Fault(_)) => Ok(None),
        Err(Or::OutOfMemory) => Err(OutOfMemory),
    }
}
