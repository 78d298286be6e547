//! What the worked caves are made of.

use crate::structure::Block;

/// A block state without properties.
macro_rules! plain {
    ($name:literal) => {
        Block { name: $name, props: &[] }
    };
}

/// Ground, which holds torches all about.
pub const STONE: Block<'static> = plain!("minecraft:stone");

/// Room for mobs and torches.
pub const AIR: Block<'static> = plain!("minecraft:air");

/// A torch that stands there already.
pub const TORCH: Block<'static> = plain!("minecraft:torch");

/// A light of 15 in whose cell no mob has room.
pub const LANTERN: Block<'static> = plain!("minecraft:lantern");

/// A block that holds no torch and lets no light through, known by the table below alone.
pub const FELT: Block<'static> = plain!("cave:felt");

/// A table with one row, of felt.
pub const FELT_TABLE: &[u8] = b"[[row]]\nname = \"cave:felt\"\nopacity = 15\nstand = true\n";
