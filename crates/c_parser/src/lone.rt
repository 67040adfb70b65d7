//! Operands that stand alone: a name, an integer, a character or a string behind which an expression ends, up to one of the levels
//! of expressions (C11 6.5). The nodes of all these levels are made at once.
ghost use Rattle.c_grammar.specs.Productions.{p_expression, p_unary};
ghost use Rattle.c_grammar.specs.Reads.{node_of};
ghost use Rattle.c_parser.specs.Lone as spec;
ghost use Rattle.std.specs.Prelude.{◌≡◌, ◌≤◌, ◌++◌, ◌∷◌, [], length, map, IfOk};

use c_grammar::productions::{EXPRESSION, PRIMARY, UNARY};
use c_grammar::{Children, SyntaxNode};
use pta_base::OutOfMemory;

/// The terminal of a name without a meaning of its own.
const NAME: u32 = 93;

const INTEGER: u32 = 98;

const CHARACTER: u32 = 100;

const STRING: u32 = 101;

/// The levels nest three deep, and 256 constructs may be open.
const DEEPEST: u32 = 253;

/// For each terminal the innermost level that goes on with it behind an operand, by its production, or 0 where none does. A
/// string, with which a string goes on, stands within all levels.
pub static LEVELS: [u32; 128] = [
    0, 0, 0, 0, 0, 0, 0, 0, 0, 0, 0, 0, 0, 0, 0, 0, 0, 0, 0, 0, 0, 0, 0, 0, 0, 0, 0, 0, 0, 0, 0, 0,
    0, 0, 0, 0, 0, 0, 0, 0, 0, 0, 0, 0, 0, 45, 0, 45, 0, 0, 0, 45, 45, 45, 45, 38, 43, 42, 42, 0,
    0, 43, 43, 41, 41, 40, 40, 40, 40, 39, 39, 37, 36, 35, 34, 33, 0, 0, 0, 32, 32, 32, 32, 32, 32,
    32, 32, 32, 32, 32, 31, 0, 0, 0, 0, 0, 0, 0, 0, 0, 0, 47, 0, 0, 0, 0, 0, 0, 0, 0, 0, 0, 0, 0,
    0, 0, 0, 0, 0, 0, 0, 0, 0, 0, 0, 0, 0, 0,
];

/// Whether a terminal is an operand by itself.
fn is_operand(terminal: u32) -> bool
    ensures { result ≡ spec.is_operand terminal }
{
    terminal == NAME || terminal == INTEGER || terminal == CHARACTER || terminal == STRING
}

/// Whether no level from a production on inwards goes on with a terminal.
#[tactic(auto, unfolding(crate::specs::Lone::level_of))]
pub(crate) fn ends_within(production: u32, terminal: u32) -> bool
    ensures { result ≡ spec.ends_within production terminal }
{
    terminal < 128 && LEVELS[terminal as usize] < production
}

/// Whether a production is a level of expressions that has the next token alone, by the terminals of the next two tokens, within
/// `depth` open constructs.
#[tactic(auto, unfolding(crate::specs::Lone::is_lone))]
pub(crate) fn is_lone(production: u32, first: u32, second: u32, depth: u32) -> bool
    ensures { result ≡ spec.is_lone production first second depth }
{
    (EXPRESSION <= production && production <= UNARY)
        && (is_operand(first) && (ends_within(production, second) && depth <= DEEPEST))
}

/// Adds a node with one child, and answers its number.
pub(crate) fn add_over(
    nodes: &mut Vec<SyntaxNode>,
    production: u32,
    token: u32,
    child: u32,
) -> Result<u32, OutOfMemory>
    ensures { IfOk result (λ number. (number ≡ length nodes.old.items)
        × (map node_of nodes.new.items
        ≡ map node_of nodes.old.items ++ (record { production = production; token = token; children = child ∷ [] }) ∷ [])) }
{
    let Ok(number) = u32::try_from(nodes.len()) else {
        return Err(OutOfMemory);
    };
    nodes.push(SyntaxNode {
        production,
        token,
        children: Children::one(child),
    })?;
    Ok(number)
}

/// Adds a leaf, and answers its number.
fn add_leaf(nodes: &mut Vec<SyntaxNode>, token: u32) -> Result<u32, OutOfMemory>
    ensures { IfOk result (λ number. (number ≡ length nodes.old.items)
        × (map node_of nodes.new.items ≡ map node_of nodes.old.items ++ spec.leaf_at token ∷ [])) }
{
    let Ok(number) = u32::try_from(nodes.len()) else {
        return Err(OutOfMemory);
    };
    nodes.push(SyntaxNode {
        production: u32::MAX,
        token,
        children: Children::none(),
    })?;
    Ok(number)
}

/// Adds the nodes of an operand that stands alone: its leaf, a primary expression, and the levels up to a production, each
/// over the one before. Answers the number of the last one.
pub(crate) fn add_lone(
    nodes: &mut Vec<SyntaxNode>,
    production: u32,
    token: u32,
) -> Result<u32, OutOfMemory>
    requires from { p_expression ≤ production }
    requires to { production ≤ p_unary }
    ensures { IfOk result
        (λ number. spec.IsGrown (spec.lone_nodes production token (map node_of nodes.old.items))
        (map node_of nodes.new.items) number) }
{
    let leaf = add_leaf(nodes, token)?;
    let mut last = add_over(nodes, PRIMARY, token, leaf)?;
    for inner in 0..UNARY + 1 - production {
        last = add_over(nodes, UNARY - inner, token, last)?;
    }
    Ok(last)
}
