//! Which row of a list fits a block state first, by its name or as a wildcard: specs/Rows.antt.
ghost use Rattle.std.specs.Prelude.{◌≡◌, find, option_copied};
ghost use Rattle.block_rows.specs.Rows as look_up;

use crate::row::Row;
use cave_base::Sequence;
use scan_core::BlockState;

/// The row is named `*`.
fn is_wildcard(row: &Row) -> bool
    ensures { result ≡ look_up.is_wildcard row.now }
{
    row.name.as_slice() == b"*".as_slice()
}

/// The state has this property with this value.
fn has_prop(state: &BlockState, asked: &(Sequence<u8>, Sequence<u8>)) -> bool
    ensures { result ≡ look_up.has_prop state.now asked.now }
{
    state.props.as_slice().iter().any(|told| told.0.as_slice() == asked.0.as_slice()
        && told.1.as_slice() == asked.1.as_slice())
}

/// The state has each property that the row asks for.
fn conditions_hold(state: &BlockState, row: &Row) -> bool
    ensures { result ≡ look_up.conditions_hold state.now row.now }
{
    row.when
        .as_slice()
        .iter()
        .all(|asked| has_prop(state, asked))
}

/// The row fits by its name. The names are compared first.
fn fits(row: &Row, state: &BlockState) -> bool
    ensures { result ≡ look_up.fits state.now row.now }
{
    !is_wildcard(row) && row.name.as_slice() == state.name.as_slice() && conditions_hold(state, row)
}

/// The row fits whatever the name.
fn fits_as_wildcard(row: &Row, state: &BlockState) -> bool
    ensures { result ≡ look_up.fits_as_wildcard state.now row.now }
{
    is_wildcard(row) && conditions_hold(state, row)
}

/// The first row that fits by its name.
pub(crate) fn first_by_name<'a>(rows: &'a [Row], state: &BlockState) -> Option<&'a Row>
    ensures { option_copied result ≡ find (look_up.fits state.now) rows.now }
{
    rows.iter().find(|row| fits(row, state))
}

/// The first row that fits whatever the name.
pub(crate) fn first_wildcard<'a>(rows: &'a [Row], state: &BlockState) -> Option<&'a Row>
    ensures { option_copied result ≡ find (look_up.fits_as_wildcard state.now) rows.now }
{
    rows.iter().find(|row| fits_as_wildcard(row, state))
}
