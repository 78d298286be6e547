//! Files that are told by their lines, or by their bytes.

use crate::fields::{Field, fields_of, unknown};
use crate::shelf::Shelf;
use std::alloc::{AllocError, Global};
use std::test::Fail;

/// Adds lines to a text, each with its end.
pub fn push_lines(out: &mut Vec<u8>, lines: &[&str]) -> Result<(), AllocError> {
    for line in lines {
        out.extend_from_slice(line.as_bytes())?;
        out.push(b'\n')?;
    }
    Ok(())
}

/// The bytes that these words are, as numbers.
fn bytes_of(alloc: Global, words: &str) -> Result<Vec<u8>, Fail> {
    let mut bytes = Vec::new(alloc);
    for word in words.split(' ') {
        bytes.push(word.parse::<u8>()?)?;
    }
    Ok(bytes)
}

/// The file of a line `bytes NAME 10 0`.
fn file_of_bytes<'a>(alloc: Global, words: &'a str) -> Result<(&'a str, Vec<u8>), Fail> {
    match words.split_once(' ') {
        Some((name, numbers)) => Ok((name, bytes_of(alloc, numbers)?)),
        None => Ok((words, Vec::new(alloc))),
    }
}

/// The file of a line `text NAME` or `text NAME after OTHER`: its lines below, behind those of the other file.
fn file_of_lines<'a>(
    alloc: Global,
    before: &Shelf,
    field: &Field<'a>,
) -> Result<(&'a str, Vec<u8>), Fail> {
    let (name, front) = match field.rest.split_once(" after ") {
        Some((name, other)) => (name, before.get(other)),
        None => (field.rest, Some([].as_slice())),
    };
    let Some(front) = front else {
        return Err(unknown(field.line));
    };
    let mut text = front.to_vec(alloc)?;
    push_lines(&mut text, &field.below)?;
    Ok((name, text))
}

/// The file of a line, by its bytes or its lines. None where the line tells of no file.
pub fn file_of<'a>(
    alloc: Global,
    before: &Shelf,
    field: &Field<'a>,
) -> Result<Option<(&'a str, Vec<u8>)>, Fail> {
    match field.key {
        "bytes" => Ok(Some(file_of_bytes(alloc, field.rest)?)),
        "text" => Ok(Some(file_of_lines(alloc, before, field)?)),
        _ => Ok(None),
    }
}

/// Puts each file of the text onto the shelf.
pub fn put_texts(alloc: Global, shelf: &mut Shelf, text: &str) -> Result<(), Fail> {
    for field in fields_of(alloc, text)? {
        match file_of(alloc, shelf, &field)? {
            Some((name, bytes)) => shelf.put(alloc, name, bytes)?,
            None => return Err(unknown(field.line)),
        }
    }
    Ok(())
}
