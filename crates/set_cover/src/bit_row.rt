//! A row that keeps only the words from that of its first bit to that of its last: `IsSpan` of specs/Rows.antt.
ghost use Rattle.std.specs.Prelude.{◌≡◌, ◌↔◌, ◌-◌, ◌*◌, ◌^◌, ◌<◌, ◌≤◌, [], length, slice_index, IsTrue, IfOk, OnOk};
ghost use Rattle.std.specs.Prelude.{MatchOption};
ghost use Rattle.set_cover.specs.Bits.{Has, HasNoneFrom, IsNext, IsRowOf, IsWith};
ghost use Rattle.set_cover.specs.Rows.{AreWordsFrom, IsSpan};

use crate::change::{add, empty};
use crate::walk::next;
use std::alloc::{AllocError, Global};
use std::marker::Model;

/// A row of `width` words. It keeps the words from `before` on that have bits, and all others are 0. Callers see the
/// whole row.
#[derive(Debug, Drop)]
pub struct BitRow {
    width: usize,
    before: usize,
    words: Vec<u64>,
}

impl Model for BitRow {
    ghost use Rattle.std.specs.Prelude.{ℕ, ◌+◌, ◌≤◌, List, length};
    ghost use Rattle.set_cover.specs.Rows.{whole_row};

    ghost Value = { List ℕ };

    ghost view = { λ r. whole_row r.width r.before r.words.items };

    ghost invariant = { λ r. r.before + length r.words.items ≤ r.width };
}

impl BitRow {
    /// A row of `width` words without bits. It has room for bits in the words from `first` to the one before `end`.
    pub fn spanning(
        alloc: Global,
        width: usize,
        first: usize,
        end: usize,
    ) -> Result<BitRow, AllocError>
        ensures none { IfOk result (λ row. IsRowOf [] row) }
        ensures whole { IfOk result (λ row. length row ≡ width) }
    {
        let end = usize::min(end, width);
        let before = usize::min(first, end);
        let words = empty(alloc, end - before)?;
        Ok(BitRow {
            width,
            before,
            words,
        })
    }

    /// The words that the row keeps, and how many words stand before them.
    pub fn kept(&self) -> (usize, &[u64])
        ensures { IsSpan self.now result.0 result.1.now }
    {
        (self.before, &self.words)
    }

    /// The word with this index, 0 past the end.
    pub fn word(&self, index: usize) -> u64
        ensures { result ≡ slice_index self.now index }
    {
        if index < self.before || index - self.before >= self.words.len() {
            return 0;
        }
        self.words[index - self.before]
    }

    /// Whether the row has the bit.
    pub fn has(&self, bit: usize) -> bool
        requires { bit < 64 * length self.now }
        ensures { IsTrue result ↔ Has self.now bit }
    {
        (self.word(bit / 64) >> (bit % 64)) & 1 == 1
    }

    /// The least bit of the row that is at least `from`, as `next` over words.
    pub fn next(&self, from: usize) -> Option<usize>
        requires { length self.now < 2 ^ 32 }
        ensures { MatchOption result (HasNoneFrom self.now from) (IsNext self.now from) }
    {
        let start = 64 * self.before;
        match next(&self.words, from.saturating_sub(start)) {
            Some(bit) => Some(start + bit),
            None => None,
        }
    }

    /// Sets a bit. The row grows where it has no room for it.
    #[inline(always)]
    pub fn add(&mut self, alloc: Global, bit: usize) -> Result<(), AllocError>
        requires { bit < 64 * length self.old }
        ensures { OnOk result (IsWith self.old bit self.new) }
    {
        let word = bit / 64;
        if self.before <= word && word - self.before < self.words.len() {
            add(self.words.as_mut_slice(), bit - 64 * self.before);
            return Ok(());
        }
        self.widen(alloc, bit)
    }

    /// Makes room for a bit, and sets it.
    #[cold]
    #[inline(never)]
    fn widen(&mut self, alloc: Global, bit: usize) -> Result<(), AllocError>
        requires { bit < 64 * length self.old }
        ensures { OnOk result (IsWith self.old bit self.new) }
    {
        *self = self.wider(alloc, bit)?;
        Ok(())
    }

    /// A copy with room for a bit, and with this bit.
    fn wider(&self, alloc: Global, bit: usize) -> Result<BitRow, AllocError>
        requires { bit < 64 * length self.now }
        ensures { IfOk result (IsWith self.now bit) }
    {
        let width = self.width;
        let word = bit / 64;
        let before = usize::min(word, self.before);
        let after = width - self.before - self.words.len();
        let end = usize::max(word + 1, width - after);
        let mut words = self.words_between(alloc, before, end)?;
        add(words.as_mut_slice(), bit - 64 * before);
        Ok(BitRow {
            width,
            before,
            words,
        })
    }

    /// The words from one index to the one before another.
    fn words_between(&self, alloc: Global, first: usize, end: usize) -> Result<Vec<u64>, AllocError>
        requires { first ≤ end }
        ensures { IfOk result (λ v. AreWordsFrom self.now first (end - first) v.items) }
    {
        let mut words = Vec::with_capacity(alloc, end - first)?;
        for index in first..end {
            words.push(self.word(index))?;
        }
        Ok(words)
    }

    /// A copy.
    pub fn try_clone(&self) -> Result<BitRow, AllocError>
        ensures { IfOk result (λ row. row ≡ self.now) }
    {
        Ok(BitRow {
            width: self.width,
            before: self.before,
            words: self.words.clone()?,
        })
    }

    /// Whether both have the same bits and as many words.
    pub fn is_same(&self, other: &BitRow) -> bool
        ensures { IsTrue result ↔ (self.now ≡ other.now) }
    {
        if self.width != other.width {
            return false;
        }
        if self.before == other.before && self.words.as_slice() == other.words.as_slice() {
            return true;
        }
        for index in 0..self.width {
            if self.word(index) != other.word(index) {
                return false;
            }
        }
        true
    }
}
