//! The shipped table. Every entry is this project's own: that the game lights by, spawns on or holds a torch on each
//! block in just this way is not claimed. Redstone ore counts as unlit, whatever its property `lit` says.

use cave_base::Class;

/// What stands before each name of the table.
pub const PREFIX: &str = "minecraft:";

/// A block of which nothing is said.
const PLAIN: Class = Class {
    opacity: 0,
    emission: 0,
    free: false,
    stand: false,
    put: false,
    top: false,
    side: false,
};

/// A class by its opacity, its emission and the columns that are yes.
macro_rules! class {
    ($opacity:literal, $emission:literal $(, $yes:ident)*) => {
        Class { opacity: $opacity, emission: $emission, $($yes: true,)* ..PLAIN }
    };
}

/// The blocks that fill their cell, give no light, and hold whatever stands on them or hangs on their sides.
pub const FULL_BLOCKS: &[&str] = &[
    "stone",
    "granite",
    "diorite",
    "andesite",
    "deepslate",
    "tuff",
    "calcite",
    "cobblestone",
    "mossy_cobblestone",
    "cobbled_deepslate",
    "polished_deepslate",
    "deepslate_bricks",
    "deepslate_tiles",
    "stone_bricks",
    "mossy_stone_bricks",
    "cracked_stone_bricks",
    "chiseled_stone_bricks",
    "bricks",
    "dirt",
    "coarse_dirt",
    "rooted_dirt",
    "grass_block",
    "gravel",
    "sand",
    "red_sand",
    "sandstone",
    "red_sandstone",
    "clay",
    "terracotta",
    "basalt",
    "smooth_basalt",
    "dripstone_block",
    "moss_block",
    "obsidian",
    "amethyst_block",
    "coal_ore",
    "iron_ore",
    "copper_ore",
    "gold_ore",
    "redstone_ore",
    "emerald_ore",
    "lapis_ore",
    "diamond_ore",
    "deepslate_coal_ore",
    "deepslate_iron_ore",
    "deepslate_copper_ore",
    "deepslate_gold_ore",
    "deepslate_redstone_ore",
    "deepslate_emerald_ore",
    "deepslate_lapis_ore",
    "deepslate_diamond_ore",
    "raw_iron_block",
    "raw_copper_block",
    "raw_gold_block",
    "oak_planks",
];

/// A line of the table: the names of its blocks, the properties that it asks for, each with its value, and the class.
#[derive(Clone, Copy)]
pub struct Line<'a> {
    pub names: &'a [&'a str],
    pub when: &'a [(&'a str, &'a str)],
    pub class: Class,
}

/// A line that asks for no property.
macro_rules! line {
    ($names:expr, $class:expr) => {
        Line { names: $names, when: &[], class: $class }
    };
}

/// The table, line by line. The class has the opacity, the emission and the columns that are yes.
pub const LINES: &[Line<'static>] = &[
    line!(&["air", "cave_air", "void_air"], class!(0, 0, free, put)),
    line!(FULL_BLOCKS, class!(15, 0, stand, top, side)),
    line!(&["bedrock"], class!(15, 0, top, side)),
    line!(&["glass"], class!(0, 0, top, side)),
    line!(&["water"], class!(1, 0)),
    line!(&["lava"], class!(1, 15)),
    line!(&["torch", "wall_torch"], class!(0, 14, free)),
    line!(&["soul_torch", "soul_wall_torch"], class!(0, 10, free)),
    line!(&["lantern"], class!(0, 15)),
    line!(&["soul_lantern"], class!(0, 10)),
    line!(
        &["glowstone", "sea_lantern", "shroomlight"],
        class!(15, 15, top, side)
    ),
    line!(&["magma_block"], class!(15, 3, top, side)),
    line!(&["jack_o_lantern"], class!(15, 15, stand, top, side)),
    Line {
        names: &["redstone_lamp"],
        when: &[("lit", "true")],
        class: class!(15, 15, stand, top, side),
    },
    line!(&["redstone_lamp"], class!(15, 0, stand, top, side)),
    line!(
        &["rail", "powered_rail", "detector_rail", "activator_rail"],
        class!(0, 0)
    ),
];
