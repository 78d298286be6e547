//! Changes of a text: a line that reads otherwise or is left out.

use crate::fields::unknown;
use crate::shelf::Shelf;
use std::alloc::{AllocError, Global};
use std::str;
use std::test::Fail;

/// The text whose line with this number, counted from 1, reads so, or is left out.
fn changed(
    alloc: Global,
    text: &str,
    number: usize,
    other: Option<&str>,
) -> Result<Vec<u8>, AllocError> {
    let mut out = Vec::new(alloc);
    let mut at = 0usize;
    for line in text.lines() {
        at = at.wrapping_add(1);
        let now = if at == number { other } else { Some(line) };
        if let Some(now) = now {
            out.extend_from_slice(now.as_bytes())?;
            out.push(b'\n')?;
        }
    }
    Ok(out)
}

/// What `8 reads B 188 1` or `10 is left out` says of a line.
fn change_of<'a>(words: &'a str) -> Result<(usize, Option<&'a str>), Fail> {
    let Some((number, what)) = words.split_once(' ') else {
        return Err(unknown(words));
    };
    let number = number.parse::<usize>()?;
    if what == "is left out" {
        return Ok((number, None));
    }
    match what.strip_prefix("reads ") {
        Some(line) => Ok((number, Some(line))),
        None => Err(unknown(words)),
    }
}

/// Puts the changed text onto the case's shelf, as `proof_28 line 8 reads L 1 121` says.
pub fn put_changed(
    alloc: Global,
    common: &Shelf,
    own: &mut Shelf,
    words: &str,
) -> Result<(), Fail> {
    let Some((name, what)) = words.split_once(" line ") else {
        return Err(unknown(words));
    };
    let (number, other) = change_of(what)?;
    let Some(bytes) = own.get(name).or(common.get(name)) else {
        return Err(unknown(words));
    };
    let now = changed(alloc, str::from_utf8(bytes)?, number, other)?;
    own.put(alloc, name, now)?;
    Ok(())
}
