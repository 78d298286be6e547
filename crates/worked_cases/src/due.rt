//! What is due of a run, from the lines of its case.

use crate::fields::Field;
use crate::texts::push_lines;
use cave_files::row_of_cells;
use std::alloc::Global;
use std::test::Fail;

/// How a text has to be met.
#[derive(Clone, Copy, PartialEq, Eq)]
pub enum Way {
    /// By just these bytes; of several such texts by one.
    Whole,
    /// By a beginning.
    Begins,
    /// By lines that stand in this order, with others between.
    Has,
    /// By anything but nothing.
    Something,
}

/// A text that is due.
#[derive(Drop)]
pub struct Text {
    pub way: Way,
    pub bytes: Vec<u8>,
}

/// What is due.
#[derive(Drop)]
pub struct Due<'a> {
    pub status: u8,
    /// The lines that are told, in this order.
    pub told: Vec<&'a str>,
    pub out: Vec<Text>,
    /// Whether a file is made, and what is written there.
    pub is_made: bool,
    pub proof: Vec<Text>,
    /// How many torches the plan has, and its proof is accepted at.
    pub torches: Option<usize>,
    /// What is told of free cells at the sides of the box.
    pub edge: Option<&'a str>,
}

/// Nothing is due but status 0.
pub fn nothing<'a>(alloc: Global) -> Due<'a> {
    Due {
        status: 0,
        told: Vec::new(alloc),
        out: Vec::new(alloc),
        is_made: false,
        proof: Vec::new(alloc),
        torches: None,
        edge: None,
    }
}

/// The text of a line: its words after the key, or the lines below it.
fn text_of(alloc: Global, field: &Field<'_>, way: Way) -> Result<Text, Fail> {
    let mut bytes = Vec::new(alloc);
    if field.rest.is_empty() {
        push_lines(&mut bytes, &field.below)?;
    } else {
        push_lines(&mut bytes, &[field.rest])?;
    }
    Ok(Text { way, bytes })
}

/// The beginning of a first line whose first words are these, with more behind them.
fn first_words(alloc: Global, words: &str) -> Result<Text, Fail> {
    let bytes = format!(in alloc; "{words} ")?.into_bytes();
    Ok(Text {
        way: Way::Begins,
        bytes,
    })
}

/// The range of words like `1-13`.
fn range_of(word: &str) -> Result<(u32, u32), Fail> {
    match word.split_once('-') {
        Some((from, to)) => Ok((from.parse::<u32>()?, to.parse::<u32>()?)),
        None => Err(Fail::new("a range has two ends")),
    }
}

/// The dark text of the cells (x, 1, 1) with x in these ranges.
fn dark_text(alloc: Global, words: &str) -> Result<Text, Fail> {
    let mut ranges = Vec::new(alloc);
    for word in words.split(' ') {
        ranges.push(range_of(word)?)?;
    }
    let bytes = row_of_cells(alloc, &ranges)?.into_bytes();
    Ok(Text {
        way: Way::Whole,
        bytes,
    })
}

impl<'a> Due<'a> {
    /// Takes what a line says of the output. False where it says nothing of it.
    fn take_output(&mut self, alloc: Global, field: &Field<'a>) -> Result<bool, Fail> {
        let text = match field.key {
            "out" => text_of(alloc, field, Way::Whole),
            "out-begins" => text_of(alloc, field, Way::Begins),
            "out-something" => text_of(alloc, field, Way::Something),
            "out-first" => first_words(alloc, field.rest),
            "out-cells" => dark_text(alloc, field.rest),
            _ => return Ok(false),
        };
        self.out.push(text?)?;
        Ok(true)
    }

    /// Takes what a line says of the file that is made. False where it says nothing of it.
    fn take_proof(&mut self, alloc: Global, field: &Field<'a>) -> Result<bool, Fail> {
        let way = match field.key {
            "proof" => Way::Whole,
            "proof-begins" => Way::Begins,
            "proof-has" => Way::Has,
            _ => return Ok(false),
        };
        self.is_made = true;
        self.proof.push(text_of(alloc, field, way)?)?;
        Ok(true)
    }

    /// Takes what a line says of what is told. False where it says nothing of it.
    fn take_told(&mut self, field: &Field<'a>) -> Result<bool, Fail> {
        match field.key {
            "fault" | "usage" | "help" | "objection" | "watched" => {
                self.told.push(field.line)?;
                Ok(true)
            }
            _ => Ok(false),
        }
    }

    /// Takes what a line says of the run as a whole. False where it says nothing of it.
    fn take_run(&mut self, field: &Field<'a>) -> Result<bool, Fail> {
        match field.key {
            "status" => self.status = field.rest.parse::<u8>()?,
            "torches" => {
                self.torches = Some(field.rest.parse::<usize>()?);
                self.is_made = true;
            }
            "edge" => self.edge = Some(field.rest),
            _ => return Ok(false),
        }
        Ok(true)
    }

    /// Takes what a line says is due. False where it says something else.
    pub fn take(&mut self, alloc: Global, field: &Field<'a>) -> Result<bool, Fail> {
        if self.take_run(field)? || self.take_told(field)? {
            return Ok(true);
        }
        if self.take_output(alloc, field)? {
            return Ok(true);
        }
        self.take_proof(alloc, field)
    }
}
