/// What a cell is, for light, mobs and torches (this project's own, after the Minecraft Wiki's pages "Light",
/// "Spawn" and "Torch").
#[derive(Clone, Copy, Debug, PartialEq, Eq)]
pub struct Class {
    /// What light loses as it enters the cell, where that is more than 1: 0 to 15.
    pub opacity: u8,
    /// The light that the cell gives: 0 to 15.
    pub emission: u8,
    /// Room for a mob.
    pub free: bool,
    /// Ground for a mob.
    pub stand: bool,
    /// A torch may take its place.
    pub put: bool,
    /// A torch may stand on it.
    pub top: bool,
    /// A torch may hang on its side.
    pub side: bool,
}

/// A cell of which nothing is told, and all that lies outside the box (this project's own).
pub const VOID: Class = Class {
    opacity: 15,
    emission: 0,
    free: false,
    stand: false,
    put: false,
    top: false,
    side: false,
};
