//! A case: what is run, over which files, and what is due.

use crate::changes::put_changed;
use crate::due::{Due, nothing};
use crate::fields::{Field, Part, unknown};
use crate::series::{Series, series_of};
use crate::shelf::Shelf;
use crate::texts::file_of;
use std::alloc::Global;
use std::test::Fail;

/// A case.
#[derive(Drop)]
pub struct Case<'a> {
    pub name: &'a str,
    /// Command lines, without the program's name.
    pub lines: Vec<&'a str>,
    /// The file that standard input is; none where it has no bytes.
    pub input: &'a str,
    /// By how many workers each line is run; as the line says where none is named.
    pub workers: Vec<&'a str>,
    /// The files of this case alone.
    pub own: Shelf,
    pub series: Option<Series<'a>>,
    pub due: Due<'a>,
}

impl Case<'_> {
    /// Whether lines are run from standard input too: where nothing else is read there, and no series changes a file.
    pub fn is_piped(&self) -> bool {
        self.input.is_empty() && self.series.is_none()
    }
}

/// Takes a file of the case. False where the line tells of none.
fn take_file<'a>(
    alloc: Global,
    common: &Shelf,
    case: &mut Case<'a>,
    field: &Field<'a>,
) -> Result<bool, Fail> {
    if field.key == "change" {
        put_changed(alloc, common, &mut case.own, field.rest)?;
        return Ok(true);
    }
    match file_of(alloc, common, field)? {
        Some((name, bytes)) => {
            case.own.put(alloc, name, bytes)?;
            Ok(true)
        }
        None => Ok(false),
    }
}

/// Takes what a line says of how the case is run. False where it says something else.
fn take_run<'a>(alloc: Global, case: &mut Case<'a>, field: &Field<'a>) -> Result<bool, Fail> {
    match field.key {
        "run" => case.lines.push(field.rest)?,
        "input" => case.input = field.rest,
        "workers" => case.workers = field.rest.split(' ').collect(alloc)?,
        "each" => case.series = Some(series_of(alloc, field.rest)?),
        _ => return Ok(false),
    }
    Ok(true)
}

/// Takes what each line of the part says.
fn take_all<'a>(
    alloc: Global,
    common: &Shelf,
    case: &mut Case<'a>,
    part: &Part<'a>,
) -> Result<(), Fail> {
    for field in &part.fields {
        if !take_run(alloc, case, field)?
            && !take_file(alloc, common, case, field)?
            && !case.due.take(alloc, field)?
        {
            return Err(unknown(field.line));
        }
    }
    if case.lines.is_empty() {
        return Err(Fail::new("a case has no line to run"));
    }
    Ok(())
}

/// The case of a part's lines.
pub fn case_of<'a>(alloc: Global, common: &Shelf, part: &Part<'a>) -> Result<Case<'a>, Fail> {
    let workers = vec![in alloc; ""]?;
    let mut case = Case {
        name: part.name,
        lines: Vec::new(alloc),
        input: "",
        workers,
        own: Shelf::new(alloc),
        series: None,
        due: nothing(alloc),
    };
    take_all(alloc, common, &mut case, part)?;
    Ok(case)
}
