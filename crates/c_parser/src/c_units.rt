//! Reads whole units.
ghost use Rattle.c_parser.specs.Parse.{Faults};
ghost use Rattle.c_parser.specs.c_units.Units.{IsUnit, ReadsUnit};
ghost use Rattle.std.specs.Prelude.{◌≡◌, ◌+◌, ◌<◌, ◌^◌, length, IfOk, MatchResult};

use crate::{ParseFault, read_production};
use c_grammar::laws::one_node;
use c_grammar::productions::UNIT;
use c_grammar::{Scopes, Tree};
use c_lexer::Tokens;
use pta_base::OutOfMemory;
use std::alloc::Global;

/// The number of the last of so many nodes. More nodes than there are numbers count as want of memory.
fn last_of(nodes: usize) -> Result<u32, OutOfMemory>
    requires { 0 < nodes }
    ensures { IfOk result (λ root. root + 1 ≡ nodes) }
{
    match u32::try_from(nodes - 1) {
        Ok(root) => Ok(root),
        Err(_) => Err(OutOfMemory),
    }
}

/// Reads a unit (C11 6.9) from the first token to the end, within no other construct, and gives its tree with the number
/// `unit`. The last node is the root. A fault has the number of the first token that doesn't fit.
pub fn parse_unit(alloc: Global, tokens: &Tokens, unit: u32) -> Result<Tree, ParseFault>
    requires { length tokens.now.list.items < 2 ^ 32 }
    ensures { MatchResult result (λ tree. IsUnit tokens.now unit tree) (λ fault. Faults (ReadsUnit tokens.now) fault) }
{
    let mut scopes = Scopes::new(alloc);
    let mut tree = Tree {
        unit,
        nodes: Vec::new(alloc),
        root: 0,
    };
    one_node();
    match read_production(alloc, tokens, UNIT, 0, 0, &mut scopes, &mut tree) {
        Ok(_) => match last_of(tree.nodes.len()) {
            Ok(root) => {
                tree.root = root;
                tree.nodes.shrink_to_fit();
                Ok(tree)
            }
            Err(_) => Err(ParseFault::OutOfMemory),
        },
        Err(fault) => Err(fault),
    }
}
