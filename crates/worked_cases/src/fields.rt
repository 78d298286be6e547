//! The lines of a data file. A line is a key and what stands after it; lines that are indented by two spaces belong to
//! the line above. Empty lines, and those that begin with `#`, are left out.

use std::alloc::Global;
use std::test::Fail;

/// A line, its first word, what stands after that, and the indented lines below.
#[derive(Drop)]
pub struct Field<'a> {
    pub line: &'a str,
    pub key: &'a str,
    pub rest: &'a str,
    pub below: Vec<&'a str>,
}

/// A named part of a file: its lines up to the next part.
#[derive(Drop)]
pub struct Part<'a> {
    pub name: &'a str,
    pub fields: Vec<Field<'a>>,
}

/// A line that has nothing below it yet.
fn field_of<'a>(alloc: Global, line: &'a str) -> Field<'a> {
    let (key, rest) = line.split_once(' ').unwrap_or((line, ""));
    Field {
        line,
        key,
        rest,
        below: Vec::new(alloc),
    }
}

/// The lines of a text.
pub fn fields_of<'a>(alloc: Global, text: &'a str) -> Result<Vec<Field<'a>>, Fail> {
    let mut fields: Vec<Field<'a>> = Vec::new(alloc);
    for line in text.lines() {
        if line.is_empty() || line.starts_with('#') {
            continue;
        }
        match (line.strip_prefix("  "), fields.last_mut()) {
            (None, _) => fields.push(field_of(alloc, line))?,
            (Some(below), Some(field)) => field.below.push(below)?,
            (Some(_), None) => return Err(Fail::new("an indented line stands first")),
        }
    }
    Ok(fields)
}

/// The parts of a text, each of which begins with a line of this key that names it.
pub fn parts_of<'a>(alloc: Global, text: &'a str, key: &str) -> Result<Vec<Part<'a>>, Fail> {
    let mut parts: Vec<Part<'a>> = Vec::new(alloc);
    for field in fields_of(alloc, text)? {
        if field.key == key {
            parts.push(Part {
                name: field.rest,
                fields: Vec::new(alloc),
            })?;
            continue;
        }
        match parts.last_mut() {
            Some(part) => part.fields.push(field)?,
            None => return Err(Fail::new("a line stands before the first part")),
        }
    }
    Ok(parts)
}

/// What is told of a line that means nothing where it stands.
pub fn unknown(line: &str) -> Fail {
    Fail::new(format_args!("a line that nobody knows: {line}"))
}
