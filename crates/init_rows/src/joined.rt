// The rows of initialisers, their lists and their designators (C11 6.5.2.5, 6.7.9), by their production.
ghost use Rattle.std.specs.Prelude.{◌≡◌, ◌<◌, ℕ, List, length, All, IfOk, true};
ghost use Rattle.c_senses.specs.World.{World};
ghost use Rattle.c_senses.specs.Tree.{production_at, children_at};
ghost use Rattle.c_senses.specs.Sense.{sense_in};
ghost use Rattle.c_senses.specs.Rows.{declaring_row};
ghost use Rattle.core_nodes.specs.Standing.{IsReady, Builds};
ghost use Rattle.c_conversions.specs.constant_values.Constants.{HasConstants};
ghost use Rattle.c_results.specs.Standing.{senses_made, sense_made, IsWithin, Rowed};
ghost use Rattle.tree_reads.specs.Sources.{source_read, source_in};
ghost use Rattle.c_meanings.specs.Known.{AreNamed};
ghost use Rattle.name_places.specs.Named.{IsNamedIn};
ghost use Rattle.c_named.specs.Said.{IsSaidIn};
ghost use Rattle.statement_rows.specs.Kept.{HasAllRows};
ghost use Rattle.init_rows.specs.Around.{IsInit};
ghost use Rattle.init_rows.specs.Joined.{IsInitialPart};

use crate::literals::items_row;
use crate::rows::init_row;
use c_grammar::productions::{INIT, ITEMS};
use c_initials::rows::designator_row;
use c_initials::storage::Scope;
use c_meanings::Names;
use c_named::Said;
use c_results::Made;
use core_nodes::CheckFault;
use core_tree::node::Unit;
use std::alloc::Global;
use tree_reads::{children_of, production_of};

/// The row of a node that is an initialiser, a list of them or a designator (C11 6.5.2.5, 6.7.9), by its production. Each is refused as its
/// own row is. `said` is what is said of the name that `initialised_name` answers, and is asked for that alone.
pub fn initial(
    alloc: Global,
    unit: &mut Unit,
    scope: &Scope,
    names: &Names,
    said: &Said,
    at: u32,
) -> Result<Made, CheckFault>
    requires ready { IsReady unit.old }
    requires results { All (IsWithin unit.old) scope.now.results.now }
    requires rows { All (HasConstants unit.old) scope.now.results.now }
    requires named { All (IsNamedIn (length scope.now.syntax.now.tree.now.nodes.items)) scope.now.results.now }
    requires names { AreNamed scope.now.syntax.now scope.now.results.now names.now }
    requires said { IsSaidIn (length scope.now.syntax.now.tree.now.nodes.items) said.now }
    requires typed { said.now.is_typed ≡ true }
    requires at { at < length scope.now.syntax.now.tree.now.nodes.items }
    requires part { IsInitialPart (production_at (source_read scope.now.syntax.now) at) }
    ensures ready { IsReady unit.new }
    ensures builds { Builds unit.old unit.new }
    ensures within { IfOk result (IsWithin unit.new) }
    ensures kept { IfOk result (λ m. HasAllRows (sense_made unit.new m)) }
    ensures named { (count : ℕ) → IfOk result (IsNamedIn count) }
    ensures row { (w : World) (uses : List (ℕ × ℕ)) →
        IsInit w unit.old uses scope.now said.now at →
        let s = source_in scope.now.syntax.now uses in
        let sense = sense_in (senses_made unit.old scope.now.results.now) in
        Rowed unit.new result (declaring_row w s sense (production_at s at) at (children_at s at)) }
{
    let production = production_of(scope.syntax, at);
    if production == INIT {
        return init_row(alloc, unit, scope, names, said, at);
    }
    if production == ITEMS {
        return items_row(alloc, unit, scope, at);
    }
    let children = children_of(scope.syntax, at);
    designator_row(unit, scope.syntax, scope.results, at, children)
}
