//! Many changes of one file, told by a number that runs over a range.

use crate::fields::unknown;
use crate::texts::push_lines;
use std::alloc::{AllocError, Global};
use std::str;
use std::test::Fail;

/// What the number says of the file.
#[derive(Clone, Copy)]
enum Change {
    /// As many bytes are left of it as the number says.
    Cut,
    /// The byte at this place is the number.
    Byte(usize),
    /// The line of this number is left out.
    LeftOut,
    /// It stands twice.
    Doubled,
    /// It is exchanged with the next.
    Exchanged,
    /// The number that is this one in order is greater by one.
    Raised,
    /// It is less by one.
    Lowered,
}

/// The file, what changes in it, and the first and the last number.
#[derive(Clone, Copy)]
pub struct Series<'a> {
    pub file: &'a str,
    change: Change,
    pub from: usize,
    pub to: usize,
}

fn change_of(word: &str) -> Result<Change, Fail> {
    Ok(match word {
        "cut" => Change::Cut,
        "left-out" => Change::LeftOut,
        "doubled" => Change::Doubled,
        "exchanged" => Change::Exchanged,
        "raised" => Change::Raised,
        "lowered" => Change::Lowered,
        _ => match word.strip_prefix("byte-") {
            Some(at) => Change::Byte(at.parse::<usize>()?),
            None => return Err(unknown(word)),
        },
    })
}

/// The series of words like `corridor_27 cut 0 to 12632`.
pub fn series_of<'a>(alloc: Global, words: &'a str) -> Result<Series<'a>, Fail> {
    let parts: Vec<&'a str> = words.split(' ').collect(alloc)?;
    match parts.as_slice() {
        [file, change, from, _, to] => Ok(Series {
            file: *file,
            change: change_of(change)?,
            from: from.parse::<usize>()?,
            to: to.parse::<usize>()?,
        }),
        _ => Err(unknown(words)),
    }
}

/// The bytes, of which the one at this place is another.
fn with_byte(alloc: Global, bytes: &[u8], at: usize, value: usize) -> Result<Vec<u8>, AllocError> {
    let mut out = bytes.to_vec(alloc)?;
    if let (Some(place), Ok(value)) = (out.get_mut(at), u8::try_from(value)) {
        *place = value;
    }
    Ok(out)
}

/// The text without the line of this number, or with that line twice.
fn with_line(
    alloc: Global,
    text: &str,
    number: usize,
    times: usize,
) -> Result<Vec<u8>, AllocError> {
    let mut out = Vec::new(alloc);
    let mut at = 0usize;
    for line in text.lines() {
        at = at.wrapping_add(1);
        let times = if at == number { times } else { 1 };
        for _ in 0..times {
            push_lines(&mut out, &[line])?;
        }
    }
    Ok(out)
}

/// The text in which the line of this number is exchanged with the next.
fn exchanged(alloc: Global, text: &str, number: usize) -> Result<Vec<u8>, AllocError> {
    let mut lines: Vec<&str> = text.lines().collect(alloc)?;
    if 0 < number && number < lines.len() {
        lines.swap(number - 1, number);
    }
    let mut out = Vec::new(alloc);
    push_lines(&mut out, &lines)?;
    Ok(out)
}

/// A text that is written word by word, in which one of the numbers, counted from 1, is greater or less by one.
#[derive(Drop)]
struct Counted {
    out: Vec<u8>,
    count: usize,
    changes: usize,
    more: bool,
}

impl Counted {
    fn push_word(&mut self, alloc: Global, word: &str) -> Result<(), AllocError> {
        let Ok(number) = word.parse::<u64>() else {
            return self.out.extend_from_slice(word.as_bytes());
        };
        self.count = self.count.wrapping_add(1);
        if self.count != self.changes {
            return self.out.extend_from_slice(word.as_bytes());
        }
        let other = if self.more {
            number.wrapping_add(1)
        } else {
            number.wrapping_sub(1)
        };
        let word = format!(in alloc; "{other}")?;
        self.out.extend_from_slice(word.as_str().as_bytes())
    }

    fn push_line(&mut self, alloc: Global, line: &str) -> Result<(), AllocError> {
        let mut is_first = true;
        for word in line.split(' ') {
            if !is_first {
                self.out.push(b' ')?;
            }
            is_first = false;
            self.push_word(alloc, word)?;
        }
        self.out.push(b'\n')?;
        Ok(())
    }
}

/// The text in which one of its numbers, counted from 1, is greater or less by one.
fn counted_otherwise(
    alloc: Global,
    text: &str,
    changes: usize,
    more: bool,
) -> Result<Vec<u8>, AllocError> {
    let mut counted = Counted {
        out: Vec::new(alloc),
        count: 0,
        changes,
        more,
    };
    for line in text.lines() {
        counted.push_line(alloc, line)?;
    }
    Ok(counted.out)
}

impl Series<'_> {
    /// The file's bytes with the change that this number says.
    pub fn member(&self, alloc: Global, bytes: &[u8], number: usize) -> Result<Vec<u8>, Fail> {
        match self.change {
            Change::Cut => Ok(bytes.get(..number).unwrap_or(bytes).to_vec(alloc)?),
            Change::Byte(at) => Ok(with_byte(alloc, bytes, at, number)?),
            Change::LeftOut => Ok(with_line(alloc, str::from_utf8(bytes)?, number, 0)?),
            Change::Doubled => Ok(with_line(alloc, str::from_utf8(bytes)?, number, 2)?),
            Change::Exchanged => Ok(exchanged(alloc, str::from_utf8(bytes)?, number)?),
            Change::Raised => Ok(counted_otherwise(alloc, str::from_utf8(bytes)?, number, true)?),
            Change::Lowered => Ok(counted_otherwise(alloc, str::from_utf8(bytes)?, number, false)?),
        }
    }
}
