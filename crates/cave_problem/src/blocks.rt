//! Blocks of cells: 64 of the list, which are the bits of a word.
ghost use Rattle.std.specs.Prelude.{◌≡◌, ◌<◌, ◌^◌, length, IfOk, OnOk};
ghost use Rattle.cave_base.specs.Box.{cell_count};
ghost use Rattle.cave_problem.specs.Blocks.{HasRoom};
ghost use Rattle.cave_problem.specs.Filling.{AreIndices};
ghost use Rattle.cave_problem.specs.Storing.{IsBlock, IsPushedWord, Stores};

use crate::levels::word_of;
use crate::reach::Linked;
use cave_base::Cell;
use cave_model::World;
use set_cover::{Buckets, next};
use std::alloc::AllocError;

/// The block with this number: its cells are those with the indices from 64 times the number on.
pub fn block_of(cells: &[Cell], block: usize) -> &[Cell]
    requires small { block < 2 ^ 58 }
    ensures { IsBlock cells.now block result.now }
{
    let start = usize::min(64 * block, cells.len());
    let (_, rest) = cells.split_at(start);
    let (sources, _) = rest.split_at(usize::min(64, rest.len()));
    sources
}

/// A block's column of the table of places and cells: the places, for each cell of the box its index among them, and
/// the block's number.
#[derive(Clone, Copy)]
pub struct Column<'a> {
    pub places: &'a [Cell],
    pub indices: &'a [u32],
    pub block: usize,
}

/// Stores what the places among the linked cells light of a block, from which a flood went out, at the ends of their
/// lists. The word of the block's cells that some place lights.
pub fn store(
    world: &World,
    linked: &Linked<'_>,
    levels: &[u64],
    column: &Column<'_>,
    lit: &mut Buckets,
) -> Result<u64, AllocError>
    requires room { HasRoom world.now linked.now.reach.now linked.now.near.now levels.now
        linked.now.sources linked.now.count }
    requires indices { AreIndices (cell_count world.now.size) column.now.places.now column.now.indices.now }
    requires whole { length lit.old ≡ length column.now.places.now }
    requires small { column.now.block < 2 ^ 26 }
    ensures { IfOk result (Stores world.now linked.now.reach.now linked.now.near.now levels.now column.now.places.now
        linked.now.sources linked.now.count column.now.block lit.old lit.new) }
{
    let mut all = 0;
    for number in 0..linked.count {
        let index = column.indices[linked.reach[number] as usize] as usize;
        if index < column.places.len() {
            let word = word_of(world, linked, levels, number, world.need());
            push_word(lit, index, column.block, word)?;
            all |= word;
        }
    }
    Ok(all)
}

/// Puts the indices of a block's cells whose bits are set in the word at the end of the place's list.
fn push_word(lit: &mut Buckets, place: usize, block: usize, word: u64) -> Result<(), AllocError>
    requires place { place < length lit.old }
    requires small { block < 2 ^ 26 }
    ensures { OnOk result (IsPushedWord lit.old place block word lit.new) }
{
    let words = [word];
    let mut from = 0;
    while let Some(bit) = next(&words, from) {
        lit.push(place, (64 * block + bit) as u32)?;
        from = bit + 1;
    }
    Ok(())
}
