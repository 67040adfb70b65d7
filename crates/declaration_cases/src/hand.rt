// Trees, units and results that are made by hand.

ghost use Rattle.std.specs.Prelude.{IfOk, All};
ghost use Rattle.core_tree.specs.declared.node.Unit.{Unit as UnitSpec};
ghost use Rattle.core_nodes.specs.Standing.{IsReady};
ghost use Rattle.c_results.specs.Standing.{IsWithin};
ghost use Rattle.c_conversions.specs.constant_values.Constants.{HasConstants};

use crate::fields::{number, word};
use c_grammar::productions::{
    DECLARATION, DECLARATOR, EXTERNAL, INIT, PRIMARY, REST, SPECS, STATEMENT, STORAGE, TYPE,
};
use c_grammar::{Children, SyntaxNode, Tree};
use c_results::Results;
use c_types::table::TypeTable;
use core_tree::node::Unit;
use pta_base::Text;
use std::alloc::Global;
use std::test::Fail;

// The production of a leaf.
const LEAF: u32 = 4294967295;

const ENUMERATORS: u32 = 17;

const ENUMERATOR: u32 = 18;

// The production of a name.
pub(crate) fn production_of(name: &str) -> Option<u32> {
    match name {
        "leaf" => Some(LEAF),
        "declaration" => Some(DECLARATION),
        "declarator" => Some(DECLARATOR),
        "enumerators" => Some(ENUMERATORS),
        "enumerator" => Some(ENUMERATOR),
        "external" => Some(EXTERNAL),
        "init" => Some(INIT),
        "primary" => Some(PRIMARY),
        "rest" => Some(REST),
        "specs" => Some(SPECS),
        "statement" => Some(STATEMENT),
        "storage" => Some(STORAGE),
        "type" => Some(TYPE),
        _ => None,
    }
}

// The numbers of a line from a place on.
pub(crate) fn numbers_from(alloc: Global, line: &str, from: usize) -> Result<Vec<u32>, Fail> {
    let mut numbers = Vec::new(alloc);
    for word in line.split(' ').skip(from) {
        numbers.push(word.parse::<u32>()?)?;
    }
    Ok(numbers)
}

// The tree of a text's lines.
pub(crate) fn tree_of(alloc: Global, text: &str) -> Result<Tree, Fail> {
    let mut nodes = Vec::new(alloc);
    for line in text.split('\n').skip(1) {
        if let Some(production) = production_of(word(line, 0)) {
            let children = numbers_from(alloc, line, 2)?;
            nodes.push(SyntaxNode {
                production,
                token: number(line, 1),
                children: Children::of(alloc, children)?,
            })?;
        }
    }
    Ok(Tree {
        unit: 0,
        nodes,
        root: 0,
    })
}

// A unit without types and nodes.
pub(crate) fn empty_unit(alloc: Global) -> Result<Unit, Fail>
    ensures { IfOk result (λ u. IsReady u) }
{
    let name = Text::copy_of(alloc, "a.c")?;
    Ok(Unit {
        name,
        types: TypeTable::new(alloc),
        tags: Vec::new(alloc),
        nodes: Vec::new(alloc),
        entities: Vec::new(alloc),
    })
}

// Nothing has been made.
pub(crate) fn no_results(alloc: Global) -> Results
    ensures within { (u : UnitSpec) → All (IsWithin u) result }
    ensures rows { (u : UnitSpec) → All (HasConstants u) result }
{
    Results::new(alloc)
}
