// Specifiers of enumerations.
ghost use Rattle.std.specs.Prelude.{◌≡◌, ◌<◌, ℕ, List, length, IfOk};
ghost use Rattle.c_senses.specs.Sense.{Sense};
ghost use Rattle.c_senses.specs.World.{World};
ghost use Rattle.c_senses.specs.Tags as spec;
ghost use Rattle.core_nodes.specs.Standing.{IsReady, Builds};
ghost use Rattle.c_results.specs.Standing.{IsWithin, Rowed};
ghost use Rattle.tree_reads.specs.Sources.{source_read};
ghost use Rattle.c_tags.specs.Seen.{IsSeen, source_numbered};

use c_results::Made;
use core_nodes::CheckFault;
use core_nodes::trees::int_type;
use core_tree::node::Unit;
use tree_reads::{Syntax, Test, children_of, first_where};

/// What is known of the tag of a specifier before the rows: the number by which types name it, and whether the specifier may
/// stand, with one list and one keyword for each tag (C11 6.7.2.3).
#[derive(Clone, Copy, Debug, PartialEq, Eq)]
pub struct SeenTag {
    pub number: u32,
    pub fits: bool,
}

/// The node that names the tag of a specifier in refusals: its name, or the specifier where it has none.
pub fn named_tag(syntax: &Syntax, at: u32) -> u32
    ensures { result ≡ spec.named_tag (source_read syntax.now) at }
{
    match first_where(syntax, Test::Name, children_of(syntax, at)) {
        Some(leaf) => leaf,
        None => at,
    }
}

/// The row of a specifier of an enumeration (C11 6.7.2.2p4), by what is known of its tag: its type is int. It is refused as
/// `operand` at its tag's name where the tag has a list before, or was declared with another keyword.
pub fn enum_row(unit: &mut Unit, syntax: &Syntax, tag: SeenTag, at: u32) -> Result<Made, CheckFault>
    requires ready { IsReady unit.old }
    ensures ready { IsReady unit.new }
    ensures builds { Builds unit.old unit.new }
    ensures within { IfOk result (IsWithin unit.new) }
    ensures row { (w : World) (uses : List (ℕ × ℕ)) (tag_number : ℕ → ℕ) (sense : ℕ → Sense) →
        let s = source_numbered syntax.now uses tag_number in
        IsSeen s at tag → Rowed unit.new result (spec.enum_row w s sense at) }
{
    if !tag.fits {
        return Err(CheckFault::BadOperand(named_tag(syntax, at)));
    }
    match int_type(unit) {
        Ok(ty) => Ok(Made::Typed(ty)),
        Err(_) => Err(CheckFault::OutOfMemory),
    }
}
