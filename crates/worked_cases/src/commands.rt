//! Command lines, as words.

use crate::fields::unknown;
use crate::shelf::Files;
use std::alloc::{AllocError, Global};
use std::test::Fail;

/// The words of a command line, of which the first is the program's name; the line as it is told; the name of the file
/// that standard input is, none where it has no bytes; and that of the file that a proof is written to.
#[derive(Drop)]
pub struct Command<'a> {
    pub line: String,
    pub words: Vec<String>,
    pub input: &'a str,
    pub proof: &'a str,
}

/// The words of a line.
fn words_of(alloc: Global, line: &str) -> Result<Vec<String>, AllocError> {
    let mut words = Vec::new(alloc);
    words.push(String::from_str(alloc, "torchplan")?)?;
    for word in line.split(' ') {
        if !word.is_empty() {
            words.push(String::from_str(alloc, word)?)?;
        }
    }
    Ok(words)
}

/// What stands behind this word in a line, nothing where the word isn't there.
fn word_behind<'a>(line: &'a str, word: &str) -> &'a str {
    let mut words = line.split(' ');
    if words.any(|other| other == word) {
        return words.next().unwrap_or("");
    }
    ""
}

/// The command of a line, by `workers` workers where a number is named.
pub fn command_of<'a>(
    alloc: Global,
    line: &'a str,
    workers: &str,
    input: &'a str,
) -> Result<Command<'a>, AllocError> {
    let whole = if workers.is_empty() {
        String::from_str(alloc, line)?
    } else {
        format!(in alloc; "{line} --workers {workers}")?
    };
    Ok(Command {
        words: words_of(alloc, whole.as_str())?,
        line: whole,
        input,
        proof: word_behind(line, "--proof"),
    })
}

/// The command with `-` for its second word, where that names a file, which standard input then is.
pub fn piped<'a>(
    alloc: Global,
    files: Files<'_>,
    line: &'a str,
    workers: &str,
) -> Result<Option<Command<'a>>, AllocError> {
    let Some((command, rest)) = line.split_once(' ') else {
        return Ok(None);
    };
    let (file, rest) = rest.split_once(' ').unwrap_or((rest, ""));
    if files.get(file).is_none() {
        return Ok(None);
    }
    let piped = if rest.is_empty() {
        format!(in alloc; "{command} -")?
    } else {
        format!(in alloc; "{command} - {rest}")?
    };
    let proof = word_behind(line, "--proof");
    let Command { line, words, .. } = command_of(alloc, piped.as_str(), workers, file)?;
    Ok(Some(Command {
        line,
        words,
        input: file,
        proof,
    }))
}

/// The command that checks the proof of a plan: its words but for those that a check doesn't have.
pub fn check_of<'a>(alloc: Global, plan: &Command<'a>) -> Result<Command<'a>, Fail> {
    let Some(file) = plan.words.get(2) else {
        return Err(unknown(plan.line.as_str()));
    };
    let proof = plan.proof;
    let mut line = format!(in alloc; "check {file} {proof}")?;
    for option in ["--table", "--rule", "--headroom"] {
        let value = word_behind(plan.line.as_str(), option);
        if !value.is_empty() {
            line.push_str(format!(in alloc; " {option} {value}")?.as_str())?;
        }
    }
    Ok(Command {
        words: words_of(alloc, line.as_str())?,
        line,
        input: plan.input,
        proof,
    })
}
