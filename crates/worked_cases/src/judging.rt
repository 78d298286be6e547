//! What came of a run, against what is due.

use crate::due::{Due, Text, Way};
use std::alloc::{AllocError, Global};

/// What came of a run. The lines that were told begin with a word that says how.
#[derive(Drop)]
pub struct Came {
    pub status: u8,
    pub told: Vec<String>,
    pub out: Vec<u8>,
    pub made: Option<Vec<u8>>,
    pub edge: String,
}

/// A difference in words, or none.
type Difference = Result<Option<String>, AllocError>;

fn differs(alloc: Global, what: &str, due: &str, came: &str) -> Difference {
    if due == came {
        return Ok(None);
    }
    Ok(Some(format!(in alloc; "{what}: `{due}` was due, `{came}` came")?))
}

/// The line that is due: `{n}` is the number of the series, `{29n}` 29 times that number.
fn filled(alloc: Global, line: &str, number: usize) -> Result<String, AllocError> {
    let Some((front, rest)) = line.split_once('{') else {
        return String::from_str(alloc, line);
    };
    let Some((often, rest)) = rest.split_once("n}") else {
        return String::from_str(alloc, line);
    };
    let value = number.wrapping_mul(often.parse::<usize>().unwrap_or(1));
    format!(in alloc; "{front}{value}{rest}")
}

/// Of what is told: each line in its turn. Of help and of mistakes in usage a text is due only where there is one.
fn told_otherwise(alloc: Global, due: &[&str], came: &[String], number: usize) -> Difference {
    let mut lines = came.iter();
    for line in due {
        let line = filled(alloc, line, number)?;
        let Some(told) = lines.next() else {
            return differs(alloc, "told", line.as_str(), "nothing");
        };
        let how = told.as_str().split(' ').next().unwrap_or("");
        if line.as_str() != told.as_str() && (line.as_str() != how || how == "fault") {
            return differs(alloc, "told", line.as_str(), told.as_str());
        }
    }
    match lines.next() {
        Some(told) => differs(alloc, "told", "nothing", told.as_str()),
        None => Ok(None),
    }
}

/// The lines stand in the text in this order, with others between.
fn has_lines(bytes: &[u8], lines: &[u8]) -> bool {
    let mut rest = bytes.split(|byte| *byte == b'\n');
    for line in lines.split(|byte| *byte == b'\n') {
        if !rest.any(|other| other == line) {
            return false;
        }
    }
    true
}

/// Whether the bytes are as the text says.
fn is_met(text: &Text, came: &[u8]) -> bool {
    match text.way {
        Way::Whole => came == text.bytes.as_slice(),
        Way::Begins => came.starts_with(&text.bytes),
        Way::Has => has_lines(came, &text.bytes),
        Way::Something => !came.is_empty(),
    }
}

/// The line of this index.
fn line_at(alloc: Global, bytes: &[u8], index: usize) -> Result<String, AllocError> {
    match bytes.split(|byte| *byte == b'\n').nth(index) {
        Some(line) => String::from_utf8_lossy(alloc, line),
        None => String::from_str(alloc, "no more"),
    }
}

/// The first line of which two texts differ.
fn first_difference(alloc: Global, what: &str, due: &[u8], came: &[u8]) -> Difference {
    for index in 0..due.len().max(came.len()).saturating_add(1) {
        let line = line_at(alloc, due, index)?;
        let other = line_at(alloc, came, index)?;
        if line.as_str() != other.as_str() {
            return differs(alloc, what, line.as_str(), other.as_str());
        }
    }
    differs(alloc, what, "a text", "bytes that are none")
}

/// What came in place of a text that it doesn't meet.
fn missed(alloc: Global, what: &str, text: &Text, came: &[u8]) -> Difference {
    match text.way {
        Way::Whole | Way::Begins => first_difference(alloc, what, &text.bytes, came),
        Way::Has => differs(alloc, what, "some lines in their order", "others"),
        Way::Something => differs(alloc, what, "something", "nothing"),
    }
}

/// Of the texts that are due whole one has to come.
fn whole_otherwise(alloc: Global, what: &str, due: &[Text], came: &[u8]) -> Difference {
    let mut other: Option<&Text> = None;
    for text in due {
        if text.way == Way::Whole {
            if is_met(text, came) {
                return Ok(None);
            }
            other = Some(text);
        }
    }
    match other {
        Some(text) => missed(alloc, what, text, came),
        None => Ok(None),
    }
}

/// Of the texts that are due whole one has to come, of the others each; nothing where none is due.
fn text_otherwise(alloc: Global, what: &str, due: &[Text], came: &[u8]) -> Difference {
    if due.is_empty() && !came.is_empty() {
        return first_difference(alloc, what, b"", came);
    }
    for text in due {
        if text.way != Way::Whole && !is_met(text, came) {
            return missed(alloc, what, text, came);
        }
    }
    whole_otherwise(alloc, what, due, came)
}

/// Of the file that is made: whether it is, and what is written there.
fn made_otherwise(alloc: Global, due: &Due<'_>, came: &Option<Vec<u8>>) -> Difference {
    match came {
        None if due.is_made => differs(alloc, "proof", "a file", "none"),
        None => Ok(None),
        Some(_) if !due.is_made => differs(alloc, "proof", "no file", "one"),
        // Where the plan's torches are due alone, the proof is accepted.
        Some(_) if due.proof.is_empty() => Ok(None),
        Some(bytes) => text_otherwise(alloc, "proof", &due.proof, bytes),
    }
}

/// Of the torches: `due` lines `T` stand behind the first two lines, and nowhere else.
fn torches_otherwise(alloc: Global, due: Option<usize>, text: &[u8]) -> Difference {
    let Some(torches) = due else {
        return Ok(None);
    };
    let all = text.split(|byte| *byte == b'\n');
    let count = all.filter(|line| line.starts_with(b"T ")).count();
    let torch_lines = text.split(|byte| *byte == b'\n').skip(2);
    let first = torch_lines
        .take_while(|line| line.starts_with(b"T "))
        .count();
    let due = format!(in alloc; "{torches}, {torches}")?;
    let came = format!(in alloc; "{count}, {first}")?;
    differs(
        alloc,
        "lines T, and those in their place",
        due.as_str(),
        came.as_str(),
    )
}

/// Of the status.
fn status_otherwise(alloc: Global, due: u8, came: u8) -> Difference {
    let due = format!(in alloc; "{due}")?;
    let came = format!(in alloc; "{came}")?;
    differs(alloc, "status", due.as_str(), came.as_str())
}

/// Of what is told of the box's sides, where the case says it.
fn edge_otherwise(alloc: Global, due: Option<&str>, came: &str) -> Difference {
    match due {
        Some(due) => differs(alloc, "edge", due, came),
        None => Ok(None),
    }
}

/// Of what is printed and written.
fn texts_otherwise(alloc: Global, due: &Due<'_>, came: &Came) -> Difference {
    if let Some(difference) = text_otherwise(alloc, "output", &due.out, &came.out)? {
        return Ok(Some(difference));
    }
    if let Some(difference) = torches_otherwise(alloc, due.torches, &came.out)? {
        return Ok(Some(difference));
    }
    made_otherwise(alloc, due, &came.made)
}

/// The first of what came otherwise than it is due, in words; none where all is as it is due.
pub fn difference(alloc: Global, due: &Due<'_>, came: &Came, number: usize) -> Difference {
    if let Some(difference) = status_otherwise(alloc, due.status, came.status)? {
        return Ok(Some(difference));
    }
    if let Some(difference) = told_otherwise(alloc, &due.told, &came.told, number)? {
        return Ok(Some(difference));
    }
    if let Some(difference) = edge_otherwise(alloc, due.edge, came.edge.as_str())? {
        return Ok(Some(difference));
    }
    texts_otherwise(alloc, due, came)
}
