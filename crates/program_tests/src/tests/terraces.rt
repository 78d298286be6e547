//! A cave of terraces. Before 1.18 its search takes hundreds of nodes, and picks places.
use cave_files::caves::{AIR, EMPTY, ROCK, STONE};
use cave_files::{Fill, Structure};

/// Rock up to the roof, from one corner to the other: the x and the z of each.
macro_rules! rock {
    ([$west:literal, $north:literal], [$east:literal, $south:literal]) => {
        Fill([$west, 1, $north], [$east, 5, $south], Some(0))
    };
}

/// Air three high over a floor of this height there.
macro_rules! open {
    ($height:literal, [$west:literal, $north:literal], [$east:literal, $south:literal]) => {
        Fill(
            [$west, $height + 1, $north],
            [$east, $height + 3, $south],
            Some(1),
        )
    };
}

/// A hall of 28 by 28 cells with terraces of up to two levels. Before 1.18, 15 torches are fewest.
pub(crate) const TERRACES: Structure<'static> = Structure {
    size: [30, 6, 30],
    palette: &[STONE, AIR],
    fills: &[
        ROCK,
        open!(0, [1, 1], [28, 28]),
        rock!([8, 10], [14, 21]),
        open!(2, [8, 10], [14, 21]),
        rock!([5, 3], [11, 8]),
        open!(2, [5, 3], [11, 8]),
        rock!([18, 12], [27, 19]),
        open!(1, [18, 12], [27, 19]),
        rock!([9, 7], [14, 16]),
        open!(2, [9, 7], [14, 16]),
        rock!([7, 6], [16, 15]),
        open!(0, [7, 6], [16, 15]),
    ],
    ..EMPTY
};
