//! The grammar of C11 as a table, what it is to read by it, and the scopes of names.
#![tactic(auto)]

ghost use Rattle.c_grammar.specs.Table.{item_of};
ghost use Rattle.std.specs.Prelude.{◌≡◌, ◌<◌, ◌^◌};
ghost use Rattle.std.specs.Option.{OnSome};

mod children;
mod current;
mod firsts;
pub mod laws;
pub mod looks;
pub mod notes;
pub mod productions;
mod rows;
mod scopes;
pub mod steps;
pub mod terminals;
mod trees;
mod words;

pub use children::Children;
pub use rows::Item;
use rows::{ITEMS, STARTS};
pub use scopes::Scopes;
pub use trees::{SyntaxNode, Tree};

/// The item at a place of a production's row, or `None` past its end. No row is longer than 2^16. The rows are those of C11 Annex A.2 in
/// a form in which
/// at most two tokens decide each choice.
pub fn item(production: u32, at: u32) -> Option<Item>
    ensures is { result ≡ item_of production at }
    ensures low { OnSome result (at < 2 ^ 16) }
{
    if production >= 258 {
        return None;
    }
    let start = u32::from(STARTS[production as usize]);
    let end = u32::from(STARTS[production as usize + 1]);
    if at >= end - start {
        return None;
    }
    Some(ITEMS[(start + at) as usize])
}
