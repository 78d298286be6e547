//! Caves as text, and their structure files.

use crate::fields::{Field, Part, parts_of, unknown};
use crate::shelf::Shelf;
use cave_files::{Block, Entry, Fill, Structure};
use std::alloc::{AllocError, Global};
use std::test::Fail;

/// A block state of the palette, by the key that the lines of its cave call it by.
#[derive(Drop)]
struct State<'a> {
    key: &'a str,
    name: String,
    props: Vec<(&'a str, &'a str)>,
}

/// A cave as its lines tell it.
#[derive(Drop)]
struct Cave<'a> {
    size: [i32; 3],
    palette: Vec<State<'a>>,
    fills: Vec<Fill>,
    more: Vec<Entry>,
}

/// The number that this word is.
fn number_at(words: &[&str], at: usize) -> Result<i32, Fail> {
    match words.get(at) {
        Some(word) => Ok(word.parse::<i32>()?),
        None => Err(Fail::new("a number is missing")),
    }
}

/// The three numbers from this word on.
fn three_at(words: &[&str], at: usize) -> Result<[i32; 3], Fail> {
    let x = number_at(words, at)?;
    let y = number_at(words, at.saturating_add(1))?;
    let z = number_at(words, at.saturating_add(2))?;
    Ok([x, y, z])
}

/// A name in which `\x` and two hexadecimal digits stand for a byte.
fn unescaped(alloc: Global, word: &str) -> Result<String, Fail> {
    let mut bytes = Vec::new(alloc);
    let mut pieces = word.split("\\x");
    if let Some(first) = pieces.next() {
        bytes.extend_from_slice(first.as_bytes())?;
    }
    for piece in pieces {
        let (Some(digits), Some(rest)) = (piece.get(..2), piece.get(2..)) else {
            return Err(Fail::new("two digits are to follow"));
        };
        bytes.push(u8::from_str_radix(digits, 16)?)?;
        bytes.extend_from_slice(rest.as_bytes())?;
    }
    Ok(String::from_utf8(bytes)?)
}

/// The state of a word like `lamp=minecraft:redstone_lamp[lit=true]`.
fn state_of<'a>(alloc: Global, word: &'a str) -> Result<State<'a>, Fail> {
    let Some((key, rest)) = word.split_once('=') else {
        return Err(unknown(word));
    };
    let (name, listed) = rest.split_once('[').unwrap_or((rest, ""));
    let mut props = Vec::new(alloc);
    for prop in listed.trim_end_matches(']').split(',') {
        if let Some(pair) = prop.split_once('=') {
            props.push(pair)?;
        }
    }
    let name = unescaped(alloc, name)?;
    Ok(State { key, name, props })
}

/// The index of the state with this key.
fn index_of(cave: &Cave<'_>, key: &str) -> Result<i32, Fail> {
    let mut index = 0i32;
    for state in &cave.palette {
        if state.key == key {
            return Ok(index);
        }
        index = index.wrapping_add(1);
    }
    Err(unknown(key))
}

/// What a line like `fill stone 0 0 0 to 28 3 2` fills; `void` leaves the entries out.
fn fill_of(cave: &Cave<'_>, words: &[&str]) -> Result<Fill, Fail> {
    let state = match words.first() {
        Some(key) if *key == "void" => None,
        Some(key) => Some(index_of(cave, key)?),
        None => return Err(Fail::new("a fill has no state")),
    };
    Ok(Fill(three_at(words, 1)?, three_at(words, 5)?, state))
}

/// The entry of a line like `entry stone 14 1 1`.
fn entry_of(cave: &Cave<'_>, words: &[&str]) -> Result<Entry, Fail> {
    let Some(key) = words.first() else {
        return Err(Fail::new("an entry has no state"));
    };
    Ok(Entry {
        at: three_at(words, 1)?,
        state: index_of(cave, key)?,
    })
}

/// Adds the states of these words to the palette.
fn add_states<'a>(alloc: Global, cave: &mut Cave<'a>, words: &[&'a str]) -> Result<(), Fail> {
    for word in words {
        cave.palette.push(state_of(alloc, word)?)?;
    }
    Ok(())
}

/// Adds the fill of these words.
fn add_fill(cave: &mut Cave<'_>, words: &[&str]) -> Result<(), Fail> {
    let fill = fill_of(cave, words)?;
    cave.fills.push(fill)?;
    Ok(())
}

/// Adds the entry of these words.
fn add_entry(cave: &mut Cave<'_>, words: &[&str]) -> Result<(), Fail> {
    let entry = entry_of(cave, words)?;
    cave.more.push(entry)?;
    Ok(())
}

/// What one line adds to a cave.
fn add<'a>(alloc: Global, cave: &mut Cave<'a>, field: &Field<'a>) -> Result<(), Fail> {
    let words: Vec<&'a str> = field.rest.split(' ').collect(alloc)?;
    match field.key {
        "box" => cave.size = three_at(&words, 0)?,
        "palette" => add_states(alloc, cave, &words)?,
        "fill" => add_fill(cave, &words)?,
        "entry" => add_entry(cave, &words)?,
        _ => return Err(unknown(field.line)),
    }
    Ok(())
}

/// The cave of a part's lines.
fn cave_of<'a>(alloc: Global, part: &Part<'a>) -> Result<Cave<'a>, Fail> {
    let mut cave = Cave {
        size: [0, 0, 0],
        palette: Vec::new(alloc),
        fills: Vec::new(alloc),
        more: Vec::new(alloc),
    };
    for field in &part.fields {
        add(alloc, &mut cave, field)?;
    }
    Ok(cave)
}

/// The bytes of the cave's structure file.
fn bytes_of(alloc: Global, cave: &Cave<'_>) -> Result<Vec<u8>, AllocError> {
    let mut palette = Vec::new(alloc);
    for state in &cave.palette {
        palette.push(Block {
            name: state.name.as_str(),
            props: state.props.as_slice(),
        })?;
    }
    let structure = Structure {
        size: cave.size,
        palette: &palette,
        fills: &cave.fills,
        more: &cave.more,
    };
    structure.bytes(alloc)
}

/// Puts the structure file of each cave of the text onto the shelf.
pub fn put_caves(alloc: Global, shelf: &mut Shelf, text: &str) -> Result<(), Fail> {
    for part in parts_of(alloc, text, "cave")? {
        let cave = cave_of(alloc, &part)?;
        shelf.put(alloc, part.name, bytes_of(alloc, &cave)?)?;
    }
    Ok(())
}
