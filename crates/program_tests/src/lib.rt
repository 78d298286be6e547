//! Tests of what no clause says and no file of cases can express: runs over streams that fail, inputs at their limits,
//! the words of faults, rings planned by workers that gates hold back, and searches over small regions.
#![tactic(auto)]

#[cfg(test)]
mod tests;
