//! Which cells and places of a node belong together: those that places join. Each cell points to an earlier one that it
//! is joined with, or to itself. Source: disjoint sets (Tarjan, "Efficiency of a good but not linear set union
//! algorithm").

use instance_reduction::{InInstance, RowsLeft};
use number_lists::{Bits, is_set, small};
use std::alloc::{AllocError, Global};

/// Cells and places that belong together, ascending, by the instance's numbers.
#[derive(Drop)]
pub(crate) struct Joined {
    pub cells: Vec<u32>,
    pub places: Vec<u32>,
}

/// What is left of an instance, as far as places join it: each by its least cell. A place that lights nothing of it is
/// in none.
pub(crate) fn joined_by_places(
    alloc: Global,
    left: RowsLeft<'_>,
) -> Result<Vec<Joined>, AllocError> {
    let mut earlier = Vec::with_capacity(alloc, left.instance.cells().len())?;
    for cell in 0..left.instance.cells().len() {
        earlier.push(small(cell))?;
    }
    let mut places = Vec::new(alloc);
    for (word, bits) in left.places.iter().enumerate() {
        for place in Bits::of(*bits, word) {
            if let Some(cell) = join(left, InInstance::at(place), earlier.as_mut_slice()) {
                places.push((small(place), cell))?;
            }
        }
    }
    let mut found = Vec::new(alloc);
    let mut numbers = vec![in alloc; 0usize; earlier.len()]?;
    for cell in 0..earlier.len() {
        if is_set(left.cells, cell) {
            let first = first_of(earlier.as_mut_slice(), small(cell)) as usize;
            if first == cell {
                numbers[cell] = found.len();
                found.push(Joined {
                    cells: Vec::new(alloc),
                    places: Vec::new(alloc),
                })?;
            }
            let number = numbers.get(first).copied().unwrap_or(0);
            if number < found.len() {
                found[number].cells.push(small(cell))?;
            }
        }
    }
    for (place, cell) in &places {
        let first = first_of(earlier.as_mut_slice(), *cell) as usize;
        let number = numbers.get(first).copied().unwrap_or(0);
        if number < found.len() {
            found[number].places.push(*place)?;
        }
    }
    Ok(found)
}

/// Joins the cells that a place lights, of those that are left. The first of them, if there is one.
fn join(left: RowsLeft<'_>, place: InInstance, earlier: &mut [u32]) -> Option<u32> {
    let row = left.instance.row(place);
    let mut any = None;
    let mut first = u32::MAX;
    for index in 0..row.words.len() {
        let word = row.from.saturating_add(index);
        let cells = row.words[index] & left.cells.get(word).copied().unwrap_or(0);
        for cell in Bits::of(cells, word) {
            let other = first_of(earlier, small(cell));
            if any.is_none() {
                any = Some(small(cell));
                first = other;
            } else if other < first {
                point(earlier, first, other);
                first = other;
            } else {
                point(earlier, other, first);
            }
        }
    }
    any
}

/// The first cell of those that this one is joined with. On the way to it cells come to point farther.
fn first_of(earlier: &mut [u32], cell: u32) -> u32 {
    let mut cell = cell;
    for _ in 0..earlier.len() {
        let next = earlier.get(cell as usize).copied().unwrap_or(cell);
        if next == cell {
            break;
        }
        let farther = earlier.get(next as usize).copied().unwrap_or(next);
        point(earlier, cell, farther);
        cell = farther;
    }
    cell
}

/// The cell points to another.
fn point(earlier: &mut [u32], cell: u32, other: u32) {
    let cell = cell as usize;
    if cell < earlier.len() {
        earlier[cell] = other;
    }
}
