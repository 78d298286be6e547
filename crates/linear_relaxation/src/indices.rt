//! What is written at indices: marks, and the numbers that a list gives its members.

use number_lists::small;

/// Marks an index, where there is such a one.
pub fn mark(marks: &mut [bool], index: usize) {
    if index < marks.len() {
        marks[index] = true;
    }
}

/// Writes for each of these members its number in their list.
pub fn number_all(numbers: &mut [u32], members: &[u32]) {
    for (number, member) in members.iter().enumerate() {
        let member = *member as usize;
        if member < numbers.len() {
            numbers[member] = small(number);
        }
    }
}
