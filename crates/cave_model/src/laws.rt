//! Laws over the definitions alone.
ghost use Rattle.std.specs.Prelude.{◌≡◌, ◌↔◌, ◌<◌, ◌+◌, ℕ, List};
ghost use Rattle.cave_base.specs.Box.{cell_count};
ghost use Rattle.cave_model.specs.Cave.{Cave, IsSound};
ghost use Rattle.cave_model.specs.Light.{BringsFrom, IsLevelOf, entering_cost};
ghost use Rattle.cave_model.specs.Plan.{AreLegal, IsSafe, LightsDarkness, Torch, cave_with, cells_of};
ghost use Rattle.cave_model.specs.Relaxation.{relaxed};
ghost use Rattle.cave_model.specs.Spawn.{is_spawnable};

/// Fourteen rounds of relaxation give the greatest level over paths: levels are at most 15, and each step costs one
/// at least, so the last round that can raise a level is the fourteenth.
pub fn relaxation_is_light()
    ensures { (cave : Cave) → (cell : ℕ) → IsSound cave → cell < cell_count cave.size
        → IsLevelOf cave cell (relaxed cave 14 cell) }
{}

/// Light that goes from the first cell to the second goes back as well: the way back enters the first cell in place
/// of the second, and all others between.
pub fn light_goes_back()
    ensures { (cave : Cave) (first second emission level : ℕ) → BringsFrom cave first emission second level
        → BringsFrom cave second (emission + entering_cost cave first) first (level + entering_cost cave second) }
{}

/// Legal torches leave the spawnable cells as they are.
pub fn torches_keep_spawn()
    ensures { (cave : Cave) → (torches : List Torch) → (cell : ℕ) → IsSound cave → AreLegal cave torches
        → is_spawnable (cave_with cave (cells_of torches)) cell ≡ is_spawnable cave cell }
{}

/// Torches are safe exactly where they are legal, at distinct cells, and light each dark cell.
pub fn safe_is_cover()
    ensures { (cave : Cave) → (torches : List Torch) → IsSound cave
        → IsSafe cave torches ↔ LightsDarkness cave torches }
{}
