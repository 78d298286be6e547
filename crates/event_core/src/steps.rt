//! The steps from an opened piece to its kids: `steps_on` of proof_tree.
ghost use Rattle.std.specs.Prelude.{◌≡◌, ◌<◌, ◌++◌, length, IfOk};
ghost use Rattle.proof_tree.specs.Bars.{places_of};
ghost use Rattle.proof_tree.specs.Opened.{step_at, steps_on};

use cave_base::Cell;
use proof_tree::{Bar, Branching};
use std::alloc::AllocError;

/// How many kids a piece has that is opened on this, with these places on a cell.
pub(crate) fn kid_count(on: Branching, places: &[Cell]) -> usize
    ensures { result ≡ length (steps_on on places.now) }
{
    match on {
        Branching::Cell(_) => places.len(),
        Branching::Place(_) => 2,
    }
}

/// The places with those after them that the bars leave out.
pub(crate) fn with_bars(places: Vec<Cell>, bars: &[Bar]) -> Result<Vec<Cell>, AllocError>
    ensures { IfOk result (λ more. more.items ≡ places.items ++ places_of bars.now) }
{
    let mut more = places;
    for bar in bars {
        more.push(bar.place)?;
    }
    Ok(more)
}

/// The chosen places with those of the kid with this number.
pub(crate) fn with_chosen(
    mut chosen: Vec<Cell>,
    on: Branching,
    places: &[Cell],
    number: usize,
) -> Result<Vec<Cell>, AllocError>
    requires { number < length (steps_on on places.now) }
    ensures { IfOk result (λ more. more.items ≡ chosen.items ++ (step_at (steps_on on places.now) number).chosen) }
{
    match on {
        Branching::Cell(_) => {
            chosen.push(places[number])?;
            Ok(chosen)
        }
        Branching::Place(place) => {
            if number != 0 {
                return Ok(chosen);
            }
            chosen.push(place)?;
            Ok(chosen)
        }
    }
}

/// The barred places with those of the kid with this number.
pub(crate) fn with_barred(
    mut barred: Vec<Cell>,
    on: Branching,
    places: &[Cell],
    number: usize,
) -> Result<Vec<Cell>, AllocError>
    requires { number < length (steps_on on places.now) }
    ensures { IfOk result (λ more. more.items ≡ barred.items ++ (step_at (steps_on on places.now) number).barred) }
{
    match on {
        Branching::Cell(_) => {
            barred.extend_from_slice(&places[..number])?;
            Ok(barred)
        }
        Branching::Place(place) => {
            if number != 1 {
                return Ok(barred);
            }
            barred.push(place)?;
            Ok(barred)
        }
    }
}
