//! Levels of expressions (C11 6.5) that are open one within the other, each as the first part of the one before: they are opened
//! at once, and a level behind whose first part no operator of its own comes is ended at once.
ghost use Rattle.c_grammar.specs.Productions.{p_expression, p_cast};
ghost use Rattle.c_grammar.specs.Reads.{node_of};
ghost use Rattle.c_parser.specs.Leads.{IsRaised};
ghost use Rattle.c_parser.specs.Levels as spec;
ghost use Rattle.std.specs.Prelude.{◌≡◌, ◌-◌, ◌<◌, ◌≤◌, map, IfOk};

use crate::lone::{add_over, ends_within};
use c_grammar::SyntaxNode;
use c_grammar::looks::nests;
use c_grammar::productions::{ASSIGNMENT, CAST, CONDITIONAL, EXPRESSION};
use pta_base::OutOfMemory;

/// The levels nest three deep, and 256 constructs may be open.
const DEEPEST: u32 = 253;

const MOST_NESTED: u32 = 256;

/// The first part of a level, with the number of its node and how many constructs that nest are open within the level.
#[derive(Clone, Copy)]
pub(crate) struct Part {
    pub(crate) level: u32,
    pub(crate) depth: u32,
    pub(crate) number: u32,
}

/// Whether a production is a level within others, from an outermost one on.
#[tactic(auto, unfolding(crate::specs::Levels::is_run))]
pub(crate) fn is_run(outermost: u32, production: u32) -> bool
    ensures { result ≡ spec.is_run outermost production }
{
    EXPRESSION <= outermost && (outermost < production && production <= CAST)
}

/// Whether a level is opened with all levels within it, down to a cast, within `depth` open constructs.
#[tactic(auto, unfolding(crate::specs::Levels::is_chained))]
pub(crate) fn is_chained(production: u32, depth: u32) -> bool
    ensures { result ≡ spec.is_chained production depth }
{
    EXPRESSION <= production && (production < CAST && depth <= DEEPEST)
}

/// How many constructs nest from a level down to a cast.
pub(crate) fn nested_within(level: u32) -> u32
    requires from { p_expression ≤ level }
    requires to { level ≤ p_cast }
    ensures is { result ≡ spec.nested (p_cast - level) p_cast }
    ensures few { result ≤ 3 }
{
    if level <= ASSIGNMENT {
        3
    } else if level <= CONDITIONAL {
        2
    } else {
        1
    }
}

/// Whether a level ends behind its first part at a terminal.
#[tactic(auto, unfolding(crate::specs::Levels::stays))]
fn stays(level: u32, first: u32, depth: u32) -> bool
    ensures { result ≡ spec.stays level first depth }
{
    ends_within(level, first) && depth <= MOST_NESTED
}

/// Makes the nodes of the levels that end behind their first parts at a terminal, from one outwards, each over the one before, and
/// answers the first part of the level that goes on: the outermost one or an earlier one.
pub(crate) fn add_levels(
    nodes: &mut Vec<SyntaxNode>,
    from: Part,
    outermost: u32,
    token: u32,
    first: u32,
) -> Result<Part, OutOfMemory>
    requires from { p_expression ≤ outermost }
    requires order { outermost ≤ from.level }
    requires to { from.level < p_cast }
    ensures raised { IfOk result
        (λ to. IsRaised outermost token first from (map node_of nodes.old.items) to (map node_of nodes.new.items)) }
    ensures from { IfOk result (λ to. outermost ≤ to.level) }
    ensures to { IfOk result (λ to. to.level < p_cast) }
{
    let mut depth = from.depth;
    let mut number = from.number;
    for inner in 0..from.level - outermost {
        let level = from.level - inner;
        if !stays(level, first, depth) {
            return Ok(Part {
                level,
                depth,
                number,
            });
        }
        number = add_over(nodes, level, token, number)?;
        depth = depth.saturating_sub(nests(level));
    }
    Ok(Part {
        level: outermost,
        depth,
        number,
    })
}
