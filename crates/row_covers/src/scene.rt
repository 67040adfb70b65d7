// A program with its sets.

ghost use Rattle.std.specs.Prelude.{◌≡◌, ◌↔◌, IsTrue};
ghost use Rattle.c_types.specs.declared.term.PathStep.{PathStep as Step};
ghost use Rattle.covering_laws.specs.covered_memory.Spots.{spot};
ghost use Rattle.row_covers.specs.Cells.{Falls};
ghost use Rattle.row_covers.specs.Scene.{IsScene, sets_over};

use crate::edges::has;
use c_types::key::ObjectKey;
use c_types::term::PathStep;
use core_tree::trees::Trees;
use obj_space::Space;
use sol_model::{Rows, System};

/// A program's trees over the machine's table of types, its locations, its system, and a set for each of its rows.
#[derive(Clone, Copy)]
pub struct Scene<'a> {
    pub trees: Trees<'a>,
    pub space: &'a Space,
    pub system: &'a System,
    pub rows: &'a Rows,
}

// Whether the set of a row has a location, where there are both.
fn lands_on(scene: &Scene<'_>, row: Option<u64>, found: Option<u32>) -> bool
    requires { IsScene scene.now }
    ensures { IsTrue result ↔ Falls (sets_over scene.now).family row found }
{
    match row {
        Some(row) => match found {
            Some(location) => has(scene.system, scene.rows, row, location),
            None => false,
        },
        None => false,
    }
}

/// Whether the set of a row has the location of a part of an object, where there are both.
pub fn lands(scene: &Scene<'_>, row: Option<u64>, key: ObjectKey, path: &[PathStep]) -> bool
    requires { IsScene scene.now }
    ensures { let g = sets_over scene.now in IsTrue result ↔ Falls g.family row (spot g.table g.space key path.now) }
{
    lands_on(scene, row, scene.space.spot(scene.trees.types, key, path))
}
