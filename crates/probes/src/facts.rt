//! The table of examples/tables/vanilla-1.18.toml: forty of its blocks, by the game's facts.

use block_rows::Rows;
use cave_base::{Class, Sequence};
use scan_core::BlockState;
use std::alloc::{AllocError, Global};
use std::test::Fail;

fn bytes(alloc: Global, text: &str) -> Result<Sequence<u8>, AllocError> {
    Ok(Sequence::from_vec(Vec::from_slice(alloc, text.as_bytes())?))
}

/// The state of the game's block of that name with these properties.
pub fn state(alloc: Global, name: &str, props: &[(&str, &str)]) -> Result<BlockState, AllocError> {
    let mut whole = String::from_str(alloc, "minecraft:")?;
    whole.push_str(name)?;
    let mut told = Vec::new(alloc);
    for (property, value) in props {
        told.push((bytes(alloc, property)?, bytes(alloc, value)?))?;
    }
    Ok(BlockState {
        name: bytes(alloc, &whole)?,
        props: Sequence::from_vec(told),
    })
}

/// Forty blocks of the table, some of them in several states: a block's name and its properties, and behind the bar its
/// opacity, its emission and the columns that are yes.
pub const FACTS: &[&str] = &[
    "infested_stone | 15 0 stand top side",
    "waxed_oxidized_copper | 15 0 stand top side",
    "black_glazed_terracotta facing=north | 15 0 stand top side",
    "redstone_ore lit=true | 15 0 stand top side",
    "redstone_lamp lit=true | 15 0 stand top side",
    "furnace facing=north lit=true | 15 0 stand top side",
    "respawn_anchor charges=4 | 15 0 stand top side",
    "crying_obsidian | 15 10 stand top side",
    "oak_stairs half=bottom shape=straight waterlogged=false | 15 0",
    "oak_stairs half=top shape=outer_left waterlogged=false | 15 0 stand top",
    "cobbled_deepslate_slab type=bottom | 15 0",
    "cobbled_deepslate_slab type=top | 15 0 stand top",
    "cobbled_deepslate_slab type=double | 15 0 stand top side",
    "petrified_oak_slab | 15 0 stand",
    "piston_head facing=up | 15 0 stand",
    "moving_piston facing=up | 15 0 stand",
    "snow layers=1 | 0 0 free put",
    "snow layers=2 | 0 0",
    "snow layers=7 | 0 0",
    "snow layers=8 | 15 0 stand",
    "oak_fence waterlogged=false | 0 0 top",
    "flowering_azalea_leaves persistent=false | 1 0",
    "grass | 0 0 free put",
    "bamboo_sapling | 0 0 free",
    "moss_carpet | 0 0",
    "cave_vines age=3 berries=true | 0 0 free",
    "glow_lichen down=true | 0 7 free",
    "sea_pickle pickles=4 waterlogged=true | 1 0",
    "iron_door half=lower open=false | 0 0 free",
    "iron_trapdoor half=bottom open=true | 0 0 free",
    "iron_trapdoor half=top open=false | 0 0 free stand",
    "redstone_wire power=0 | 0 0",
    "redstone_torch lit=true | 0 0",
    "candle candles=3 lit=true waterlogged=false | 0 0",
    "red_candle_cake lit=true | 0 0",
    "campfire lit=true | 0 0",
    "soul_fire | 0 0 free",
    "lava_cauldron | 1 0",
    "ender_chest facing=east | 0 7",
    "light level=9 waterlogged=false | 0 9 free",
    "cobweb | 1 0 free",
    "red_bed part=head | 0 0",
    "lime_banner rotation=3 | 0 0 free",
    "cyan_wall_banner facing=east | 0 0 free",
    "player_wall_head facing=east | 0 0",
    "potted_azalea_bush | 0 0",
    "purple_shulker_box facing=up | 1 0 stand",
];

/// The number that a word is.
fn number(word: Option<&str>) -> Result<u8, Fail> {
    Ok(word.unwrap_or("").parse::<u8>()?)
}

/// The class of an opacity, an emission and the columns that are yes.
fn class_of(text: &str) -> Result<Class, Fail> {
    let mut words = text.split(' ');
    Ok(Class {
        opacity: number(words.next())?,
        emission: number(words.next())?,
        free: text.contains("free"),
        stand: text.contains("stand"),
        put: text.contains("put"),
        top: text.contains("top"),
        side: text.contains("side"),
    })
}

/// The state of a block's name and its properties.
fn state_of(alloc: Global, text: &str) -> Result<BlockState, AllocError> {
    let (name, rest) = text.split_once(' ').unwrap_or((text, ""));
    let mut props = Vec::new(alloc);
    for word in rest.split(' ') {
        if let Some(pair) = word.split_once('=') {
            props.push(pair)?;
        }
    }
    state(alloc, name, &props)
}

/// The fact holds by these rows.
pub fn holds(alloc: Global, rows: &Rows, fact: &str) -> Result<bool, Fail> {
    let Some((block, class)) = fact.split_once(" | ") else {
        return Err(Fail::new("a block has no class"));
    };
    let class = class_of(class)?;
    Ok(match rows.row_of(&state_of(alloc, block)?) {
        Some(row) => row.class == class,
        None => false,
    })
}
