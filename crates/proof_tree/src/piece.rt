//! Pieces of a region: `Subproblem` of specs/Piece.antt.
ghost use Rattle.std.specs.Arc.{arc_value};
ghost use Rattle.std.specs.Prelude.{◌≡◌, IfOk};
ghost use Rattle.proof_tree.specs.Piece.{IsPiece, root_of};

use crate::name::Name;
use cave_base::Cell;
use cave_model::OutOfMemory;
use instance_regions::Region;
use std::alloc::Global;
use std::marker::Model;
use std::sync::Arc;

/// What is left of a region where some places are chosen and others barred. It has a name by the branches that led to
/// it, and shares its region.
#[derive(Debug, Drop)]
pub struct Piece {
    region: Arc<Region>,
    name: Name,
    chosen: Vec<Cell>,
    barred: Vec<Cell>,
}

impl Model for Piece {
    ghost use Rattle.std.specs.Arc.{arc_value};
    ghost use Rattle.proof_tree.specs.Piece.{IsPiece, Subproblem, subproblem_coded};

    ghost Value = { Subproblem };

    ghost coded = { subproblem_coded };

    ghost view = { λ p. record {
      region = arc_value p.region;
      name = p.name;
      chosen = p.chosen.items;
      barred = p.barred.items;
    } };

    ghost invariant = { λ p. IsPiece (record {
      region = arc_value p.region;
      name = p.name;
      chosen = p.chosen.items;
      barred = p.barred.items;
    }) };
}

impl Piece {
    /// The whole region: nothing is chosen or barred.
    pub fn root(alloc: Global, region: &Arc<Region>) -> Result<Piece, OutOfMemory>
        ensures { IfOk result (λ piece. piece ≡ root_of (arc_value region.now)) }
    {
        Ok(Piece {
            region: Arc::try_clone(region)?,
            name: Name::root(alloc),
            chosen: Vec::new(alloc),
            barred: Vec::new(alloc),
        })
    }

    /// The piece of a region with this name, these places chosen and these barred.
    pub fn new(region: Arc<Region>, name: Name, chosen: Vec<Cell>, barred: Vec<Cell>) -> Piece
        requires { IsPiece (record {
          region = arc_value region;
          name = name;
          chosen = chosen.items;
          barred = barred.items;
        }) }
        ensures { result ≡ record {
          region = arc_value region;
          name = name;
          chosen = chosen.items;
          barred = barred.items;
        } }
    {
        Piece {
            region,
            name,
            chosen,
            barred,
        }
    }

    /// The region that it is of.
    pub fn region(&self) -> &Arc<Region>
        ensures { arc_value result.now ≡ self.now.region }
    {
        &self.region
    }

    /// Its name.
    pub fn name(&self) -> &Name
        ensures { result.now ≡ self.now.name }
    {
        &self.name
    }

    /// The chosen places, in the order in which they were chosen.
    pub fn chosen(&self) -> &[Cell]
        ensures chosen { result.now ≡ self.now.chosen }
        ensures kept { IsPiece self.now }
    {
        &self.chosen
    }

    /// The barred places, in the order in which they were barred.
    pub fn barred(&self) -> &[Cell]
        ensures barred { result.now ≡ self.now.barred }
        ensures kept { IsPiece self.now }
    {
        &self.barred
    }
}
