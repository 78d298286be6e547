//! A cave in memory: `Cave` of specs/Cave.antt, of which `IsWorld` always holds.
ghost use Rattle.std.specs.Prelude.{◌≡◌, ◌<◌, ◌≤◌, IsTrue};
ghost use Rattle.cave_base.specs.Box as grid;
ghost use Rattle.cave_base.specs.Box.{is_small, point};
ghost use Rattle.cave_base.specs.Class.{IsSoundClass};
ghost use Rattle.cave_model.specs.Cave.{IsSound, IsWorld, cave, class_at};
ghost use Rattle.cave_model.specs.RuleOf.{rule_of};

use crate::rule::Rule;
use cave_base::{Cell, Class};
use std::marker::Model;

/// A cave: a box, a class for each of its cells, and the rule of spawning.
#[derive(Debug, Drop)]
pub struct World {
    size: [u32; 3],
    classes: Vec<Class>,
    rule: Rule,
}

impl Model for World {
    ghost use Rattle.cave_model.specs.Cave.{Cave, IsWorld, cave};
    ghost use Rattle.cave_model.specs.RuleOf.{rule_of};
    ghost use Rattle.cave_base.specs.Box.{point};

    ghost Value = { Cave };

    ghost view = { λ w. cave (point w.size) w.classes.items (rule_of w.rule) };

    ghost invariant = { λ w. IsWorld (cave (point w.size) w.classes.items (rule_of w.rule)) };
}

impl World {
    /// The cave of this box, with these classes by the numbers of its cells, and this rule.
    pub fn new(size: [u32; 3], classes: Vec<Class>, rule: Rule) -> World
        requires world { IsWorld (cave (point size) classes.items (rule_of rule)) }
        ensures { result ≡ cave (point size) classes.items (rule_of rule) }
    {
        World {
            size,
            classes,
            rule,
        }
    }

    /// The sides of the box: along x, y and z.
    pub fn size(&self) -> [u32; 3]
        ensures size { point result ≡ self.now.size }
        ensures small { IsTrue (is_small self.now.size) }
        ensures sound { IsSound self.now }
    {
        self.size
    }

    /// The number of cells of the box.
    pub fn cell_count(&self) -> u32
        ensures count { result ≡ grid.cell_count self.now.size }
        ensures few { result ≤ grid.most_cells }
        ensures sound { IsSound self.now }
    {
        let [x, y, z] = self.size();
        x * y * z
    }

    /// The least light that keeps mobs away: 1, or 8 before 1.18 (Minecraft Wiki, "Spawn").
    pub fn need(&self) -> u8
        ensures need { result ≡ self.now.rule.need }
        ensures positive { 1 ≤ result }
        ensures level { result ≤ 15 }
    {
        self.rule.need
    }

    /// The rule of spawning.
    pub fn rule(&self) -> Rule
        ensures { rule_of result ≡ self.now.rule }
    {
        self.rule
    }

    /// What the cell is.
    pub fn class_of(&self, cell: Cell) -> Class
        requires in_box { cell < grid.cell_count self.now.size }
        ensures class { result ≡ class_at self.now cell }
        ensures sound { IsSoundClass result }
    {
        self.classes[cell as usize]
    }
}
