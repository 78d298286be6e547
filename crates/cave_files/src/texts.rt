//! Texts that are due of worked caves.

use std::alloc::{AllocError, Global};

/// The dark text of the cells (x, 1, 1) with x in one of these ranges, both ends included.
pub fn row_of_cells(alloc: Global, ranges: &[(u32, u32)]) -> Result<String, AllocError> {
    let mut count = 0u32;
    let mut lines = String::new(alloc);
    for (from, to) in ranges {
        for x in *from..=*to {
            count = count.wrapping_add(1);
            lines.push_str(format!(in alloc; "{x} 1 1\n")?.as_str())?;
        }
    }
    format!(in alloc; "dark {count}\n{lines}")
}
