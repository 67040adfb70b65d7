//! Reads the productions of the grammar by its table.
#![tactic(auto)]

pub mod c_units;
mod levels;
mod lone;
mod parts;
mod reader;

ghost use Rattle.c_grammar.specs.Productions.{p_declaration, p_expression, p_init, p_type_name};
ghost use Rattle.c_parser.specs.Parse.{Answers};
ghost use Rattle.std.specs.Prelude.{◌≡◌, ◌<◌, ◌≤◌, ◌^◌, length};

use c_grammar::productions::{DECLARATION, EXPRESSION, INIT, TYPE_NAME};
use c_grammar::{Scopes, Tree};
use c_lexer::Tokens;
use pta_base::{Kind, OutOfMemory};
pub use reader::read_production;
use std::alloc::Global;

/// Why a production isn't read, with the number of the first token that doesn't fit.
#[derive(Clone, Copy, Debug, PartialEq, Eq)]
pub enum ParseFault {
    /// No rule of the grammar takes the token.
    Malformed(u32),
    /// The token begins or is a construct that isn't accepted.
    Unsupported(Kind, u32),
    /// The token opens the 257th of the constructs that nest.
    TooDeep(u32),
    /// Memory ran out.
    OutOfMemory,
}

impl From<OutOfMemory> for ParseFault {
    fn from(_: OutOfMemory) -> Self {
        ParseFault::OutOfMemory
    }
}

/// Reads an expression (C11 6.5.17) from the token `at` on, and answers the number of the token behind it. `depth` is how many
/// of the constructs that nest are open around it, at most 256. The expression's node is the last one of the tree. After a
/// fault the scopes and the tree are only fit to be dropped.
pub fn parse_expression(
    alloc: Global,
    tokens: &Tokens,
    at: usize,
    depth: u32,
    scopes: &mut Scopes,
    tree: &mut Tree,
) -> Result<usize, ParseFault>
    requires tokens { length tokens.now.list.items < 2 ^ 32 }
    requires within { at ≤ length tokens.now.list.items }
    requires nested { depth ≤ 256 }
    ensures { Answers p_expression tokens.now at depth scopes.old tree.old result scopes.new tree.new }
{
    read_production(alloc, tokens, EXPRESSION, at, depth, scopes, tree)
}

/// Reads a type name (C11 6.7.7) from the token `at` on, and answers the number of the token behind it. The rest is as for
/// `parse_expression`.
pub fn parse_type_name(
    alloc: Global,
    tokens: &Tokens,
    at: usize,
    depth: u32,
    scopes: &mut Scopes,
    tree: &mut Tree,
) -> Result<usize, ParseFault>
    requires tokens { length tokens.now.list.items < 2 ^ 32 }
    requires within { at ≤ length tokens.now.list.items }
    requires nested { depth ≤ 256 }
    ensures { Answers p_type_name tokens.now at depth scopes.old tree.old result scopes.new tree.new }
{
    read_production(alloc, tokens, TYPE_NAME, at, depth, scopes, tree)
}

/// Reads a declaration (C11 6.7) from the token `at` on, declares its names in the scopes, and answers the number of the token
/// behind it. The rest is as for `parse_expression`.
pub fn parse_declaration(
    alloc: Global,
    tokens: &Tokens,
    at: usize,
    depth: u32,
    scopes: &mut Scopes,
    tree: &mut Tree,
) -> Result<usize, ParseFault>
    requires tokens { length tokens.now.list.items < 2 ^ 32 }
    requires within { at ≤ length tokens.now.list.items }
    requires nested { depth ≤ 256 }
    ensures { Answers p_declaration tokens.now at depth scopes.old tree.old result scopes.new tree.new }
{
    read_production(alloc, tokens, DECLARATION, at, depth, scopes, tree)
}

/// Reads an initialiser (C11 6.7.9) from the token `at` on, and answers the number of the token behind it. The rest is as for
/// `parse_expression`.
pub fn parse_initialiser(
    alloc: Global,
    tokens: &Tokens,
    at: usize,
    depth: u32,
    scopes: &mut Scopes,
    tree: &mut Tree,
) -> Result<usize, ParseFault>
    requires tokens { length tokens.now.list.items < 2 ^ 32 }
    requires within { at ≤ length tokens.now.list.items }
    requires nested { depth ≤ 256 }
    ensures { Answers p_init tokens.now at depth scopes.old tree.old result scopes.new tree.new }
{
    read_production(alloc, tokens, INIT, at, depth, scopes, tree)
}
