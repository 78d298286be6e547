//! Rows of bits in one block of memory, of each only the words from that of its first bit to that of its last: where a
//! row's bits stand near each other, that is little of it.

use crate::bits::{clear_all, is_set, join_into, set_bit, words_from};
use crate::lists::{NumberLists, small};
use std::alloc::{AllocError, Global};

/// The words of a row from one on. The row has no bit before them or after them.
#[derive(Clone, Copy)]
pub struct ThinRow<'a> {
    /// The index of the first word.
    pub from: usize,
    pub words: &'a [u64],
}

impl<'a> ThinRow<'a> {
    /// Whether the row has the bit.
    pub fn has(&self, bit: usize) -> bool {
        (self.word(bit / 64) >> (bit % 64)) & 1 == 1
    }

    /// The word with this index in the whole row.
    pub fn word(&self, index: usize) -> u64 {
        self.words
            .get(index.wrapping_sub(self.from))
            .copied()
            .unwrap_or(0)
    }

    /// Whether the row has each of these bits that the part has, looked for from the last on: of rows that are compared
    /// many have the first one. The part is whole.
    pub fn has_each(&self, part: &[u64], bits: &[u32]) -> bool {
        for bit in bits.iter().rev() {
            let bit = *bit as usize;
            if is_set(part, bit) && !self.has(bit) {
                return false;
            }
        }
        true
    }

    /// Whether what is in the row and in the mask is in the other row. The mask is whole.
    pub fn is_part(&self, mask: &[u64], other: ThinRow<'_>) -> bool {
        let mask = words_from(mask, self.from);
        let shift = self.from.wrapping_sub(other.from);
        for index in 0..self.words.len() {
            if index < mask.len() {
                let word = self.words[index] & mask[index];
                let same = other.words.get(index.wrapping_add(shift)).copied();
                if word & !same.unwrap_or(0) != 0 {
                    return false;
                }
            }
        }
        true
    }

    /// Leaves in the words of a row from this index on what is in this row too.
    pub fn keep_in(&self, words: &mut [u64], from: usize) {
        let shift = from.wrapping_sub(self.from);
        for index in 0..words.len() {
            words[index] &= self
                .words
                .get(index.wrapping_add(shift))
                .copied()
                .unwrap_or(0);
        }
    }

    /// Writes what is both in this row and in a whole one, from its first word on, and answers how many words it has.
    pub fn meet_into(&self, row: &[u64], words: &mut [u64]) -> usize {
        let row = words_from(row, self.from);
        let mut count = 0;
        for index in 0..self.words.len() {
            if index < row.len() && index < words.len() {
                words[index] = self.words[index] & row[index];
                count = index + 1;
            }
        }
        count
    }
}

/// Rows by their index. A row that isn't there is read as one without bits.
#[derive(Drop)]
pub struct ThinRows {
    /// The index of each row's first word.
    firsts: Vec<u32>,
    /// Where each row's words end.
    ends: Vec<usize>,
    words: Vec<u64>,
}

impl ThinRows {
    /// Rows without bits that have room for these words: the index of the first, and the one after the last.
    pub fn new(alloc: Global, spans: &[(usize, usize)]) -> Result<ThinRows, AllocError> {
        let mut firsts = Vec::with_capacity(alloc, spans.len())?;
        let mut ends = Vec::with_capacity(alloc, spans.len())?;
        let mut end: usize = 0;
        for (from, to) in spans {
            end = end.saturating_add(to.saturating_sub(*from));
            firsts.push(small(*from))?;
            ends.push(end)?;
        }
        Ok(ThinRows {
            firsts,
            ends,
            words: vec![in alloc; 0u64; end]?,
        })
    }

    /// A row for each list, whose numbers ascend.
    pub fn of(alloc: Global, lists: &NumberLists) -> Result<ThinRows, AllocError> {
        let mut spans = Vec::with_capacity(alloc, lists.count())?;
        for index in 0..lists.count() {
            spans.push(span_of(lists.list(index)))?;
        }
        let mut rows = ThinRows::new(alloc, &spans)?;
        for index in 0..lists.count() {
            rows.set_all(index, lists.list(index));
        }
        Ok(rows)
    }

    /// How many rows there are.
    pub fn count(&self) -> usize {
        self.ends.len()
    }

    /// The row with this index.
    pub fn row(&self, index: usize) -> ThinRow<'_> {
        let words = self.words.as_slice();
        let start = self.start_of(index);
        let end = self.ends.get(index).copied().unwrap_or(start);
        if start <= end && end <= words.len() {
            return ThinRow {
                from: self.first_of(index),
                words: &words[start..end],
            };
        }
        ThinRow {
            from: 0,
            words: &words[0..0],
        }
    }

    /// Adds words to the row, which has room for them, from the word with this index on.
    pub fn join(&mut self, index: usize, from: usize, words: &[u64]) {
        let more = from.saturating_sub(self.first_of(index));
        let start = self.start_of(index).saturating_add(more);
        join_into(self.words.as_mut_slice(), start, words);
    }

    /// The words of all rows.
    pub fn words(&self) -> &[u64] {
        self.words.as_slice()
    }

    /// Clears all rows.
    pub fn clear(&mut self) {
        clear_all(self.words.as_mut_slice());
    }

    /// Sets bits of the row, which has room for them.
    fn set_all(&mut self, index: usize, bits: &[u32]) {
        let first = self.first_of(index).saturating_mul(64);
        let start = self.start_of(index).saturating_mul(64);
        let words = self.words.as_mut_slice();
        for bit in bits {
            let more = (*bit as usize).saturating_sub(first);
            set_bit(words, start.saturating_add(more));
        }
    }

    fn first_of(&self, index: usize) -> usize {
        self.firsts.get(index).copied().unwrap_or(0) as usize
    }

    /// Where the words of the row begin.
    fn start_of(&self, index: usize) -> usize {
        if index == 0 {
            return 0;
        }
        self.ends.get(index - 1).copied().unwrap_or(0)
    }
}

/// The index of the word of the first of these ascending bits, and the one after that of the last.
fn span_of(bits: &[u32]) -> (usize, usize) {
    match (bits.first(), bits.last()) {
        (Some(first), Some(last)) => (*first as usize / 64, *last as usize / 64 + 1),
        _ => (0, 0),
    }
}
