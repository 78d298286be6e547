//! The cave in which the torches of a plan stand: `IsCaveWith` of specs/Placed.antt.
ghost use Rattle.std.specs.Prelude.{◌≡◌, ◌≢◌, ◌<◌, IfErr, IfOk, IfSome, List, ℕ, MatchBool, MatchOption, length};
ghost use Rattle.cave_base.specs.Answer.{IsRefusal};
ghost use Rattle.cave_base.specs.Box.{cell_count};
ghost use Rattle.cave_model.specs.Cave.{IsSound, class_beyond, class_of_cell};
ghost use Rattle.cave_model.specs.Torches as torches;
ghost use Rattle.plan_reading.specs.Placed.{IsCaveWith, IsPlanFault, NamesIllegal, illegal};
ghost use Rattle.plan_reading.specs.Putting.{ArePut, IsFree, PutsTorch};
ghost use Rattle.plan_reading.specs.declared.fault.TorchesFault.{TorchesFault};

use crate::fault::TorchesFault;
use crate::reading::read_torches;
use crate::torch::ToldTorch;
use cave_base::{Cell, Class, VOID, is_within, number};
use cave_model::{Hang, OutOfMemory, TORCH_LIGHT, World};
use std::alloc::Global;

/// A new torch, on the floor or on a wall.
const TORCH: Class = Class {
    opacity: 0,
    emission: TORCH_LIGHT,
    free: true,
    stand: false,
    put: false,
    top: false,
    side: false,
};

/// What a cell of the box is, or void where there is none.
fn class_of(world: &World, cell: Option<Cell>) -> Class
    requires in_box { IfSome cell (λ c. c < cell_count world.now.size) }
    ensures { result ≡ class_of_cell world.now cell }
{
    match cell {
        Some(cell) => world.class_of(cell),
        None => VOID,
    }
}

/// The cell that a torch in this one hangs on or stands on, if that lies in the box.
fn holder(world: &World, cell: Cell, hang: Hang) -> Option<Cell>
    requires in_box { cell < cell_count world.now.size }
    ensures holder { class_of_cell world.now result ≡ class_beyond world.now (torches.held_at hang) cell }
    ensures in_box { IfSome result (λ c. c < cell_count world.now.size) }
{
    let [west, east, north, south, below, _] = world.neighbours(cell);
    match hang {
        Hang::Floor => below,
        Hang::North => south,
        Hang::East => west,
        Hang::South => north,
        Hang::West => east,
    }
}

/// Whether a block of this class holds a torch that hangs so.
fn can_hold(hang: Hang, class: Class) -> bool
    ensures { result ≡ torches.can_hold hang class }
{
    match hang {
        Hang::Floor => class.top,
        _ => class.side,
    }
}

/// Whether a torch may hang so in the cell.
fn is_legal(world: &World, cell: Cell, hang: Hang) -> bool
    requires in_box { cell < cell_count world.now.size }
    ensures { result ≡ torches.is_legal world.now cell hang }
{
    let holder = class_of(world, holder(world, cell, hang));
    world.class_of(cell).put && can_hold(hang, holder)
}

/// Puts the torch among the classes of the cells, if it may go where it is and none was put there before.
fn put_torch(world: &World, torch: &ToldTorch, classes: &mut Vec<Class>) -> bool
    requires { length classes.old.items ≡ cell_count world.now.size }
    ensures { MatchBool result (PutsTorch world.now torch.now classes.old.items classes.new.items)
        (¬ IsFree world.now classes.old.items torch.now) }
{
    let size = world.size();
    let at = [torch.x, torch.y, torch.z];
    if !is_within(size, at) {
        return false;
    }
    let cell = number(size, at);
    if !is_legal(world, cell, torch.hang) {
        return false;
    }
    if !classes[cell as usize].put {
        return false;
    }
    classes[cell as usize] = TORCH;
    true
}

/// Puts the torches among the classes of the cells, up to the first one that may not go where it is.
fn put_torches(world: &World, torches: &[ToldTorch], classes: &mut Vec<Class>) -> Option<ToldTorch>
    requires sound { IsSound world.now }
    requires classes { classes.old.items ≡ world.now.classes }
    ensures { MatchOption result (ArePut world.now torches.now classes.new.items)
        (λ torch. NamesIllegal world.now torches.now (illegal torch)) }
{
    for torch in torches {
        if !put_torch(world, torch, classes) {
            return Some(*torch);
        }
    }
    None
}

/// The classes of the cells, by their numbers.
fn classes_of(alloc: Global, world: &World) -> Result<Vec<Class>, OutOfMemory>
    ensures { IfOk result (λ v. v.items ≡ world.now.classes) }
{
    let mut classes = Vec::new(alloc);
    for cell in 0..world.cell_count() {
        classes.push(world.class_of(cell))?;
    }
    Ok(classes)
}

/// The cave in which the torches that a plan's text tells stand as well.
pub fn with_torches(alloc: Global, world: &World, text: &[u8]) -> Result<World, TorchesFault>
    // What is answered is that cave.
    ensures found { IfOk result (IsCaveWith world.now text.now) }
    // A fault is that of the first line that doesn't fit, or else of the first torch that may not go where it is.
    ensures fault { IfErr result (λ e. e ≢ TorchesFault.OutOfMemory → IsPlanFault world.now text.now e) }
    // Such a fault is answered.
    ensures refused { (e : TorchesFault) → IsPlanFault world.now text.now e
        → IsRefusal TorchesFault.OutOfMemory result e }
{
    let size = world.size();
    let torches = read_torches(alloc, text)?;
    let mut classes = classes_of(alloc, world)?;
    if let Some(torch) = put_torches(world, &torches, &mut classes) {
        let ToldTorch { x, y, z, .. } = torch;
        return Err(TorchesFault::Illegal { x, y, z });
    }
    Ok(World::new(size, classes, world.rule()))
}
