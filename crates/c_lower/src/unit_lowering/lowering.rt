// From the walk over a unit's tree to the unit.
ghost use Rattle.std.specs.Prelude.{◌≡◌, ◌++◌, ℕ, List, All, length, map, IfOk, MatchResult};
ghost use Rattle.core_tree.specs.declared.node.Unit.{Unit as UnitSpec};
ghost use Rattle.core_nodes.specs.declared.fault.CheckFault.TheVariants.{OutOfMemory};
ghost use Rattle.core_nodes.specs.Once.{HasOnce};
ghost use Rattle.core_nodes.specs.Standing.{IsReady};
ghost use Rattle.c_lexer.specs.Cut.{IsTokens};
ghost use Rattle.c_parser.specs.c_units.Units.{IsUnit};
ghost use Rattle.c_literals.specs.Laws.{AreBytes};
ghost use Rattle.c_scope.specs.Resolves.{IsBound};
ghost use Rattle.c_senses.specs.Names.{source_of};
ghost use Rattle.c_senses.specs.Right.{Right};
ghost use Rattle.c_results.specs.Standing.{senses_made};
ghost use Rattle.parsed_tree_laws.specs.sense_laws.Senses.{ChildrenFirst};
ghost use Rattle.tree_reads.specs.Sources.{source_read, source_in};
ghost use Rattle.name_places.specs.Named.{IsNamedIn};
ghost use Rattle.c_meanings.specs.Known.{AreNamed};
ghost use Rattle.unit_finish.specs.declared.unit_parts.declared.Declared.{Declared as DeclaredSpec};
ghost use Rattle.unit_finish.specs.unit_parts.Renamed.{literals_in};
ghost use Rattle.unit_finish.specs.Complete.{IsKept, AlwaysCompletes};
ghost use Rattle.unit_finish.specs.Walked as finish;
ghost use Rattle.unit_finish.specs.Walked.{literal_entry};
ghost use Rattle.struct_rows.specs.Built.{HasTagTypes};
ghost use Rattle.valid_unit_laws.specs.passed.body_node_laws.own_initials.Own.{InitialisesOwn};
ghost use Rattle.unit_walk.specs.PassedOn.{Stand};
ghost use Rattle.unit_walk.specs.Ground.{IsGround, source_ground, nodes_ground};
ghost use Rattle.unit_walk.specs.Walked.{IsWalked, RefusedIn};
ghost use Rattle.valid_unit_laws.specs.lowered_laws.Complete.{PartsComplete};
ghost use Rattle.c_lower.specs.unit_lowering.Lowered.{IsLowered, HasTags};

use c_grammar::Tree;
use c_lexer::Tokens;
use c_meanings::Names;
use c_results::Results;
use c_scope::Bound;
use c_types::table::TypeTable;
use core_nodes::CheckFault;
use core_tree::node::Unit;
use pta_base::Text;
use std::alloc::Global;
use tree_reads::Syntax;
use unit_finish::own_bodies::with_own_bodies;
use unit_finish::{Heading, Kept, finish, keep};
use unit_keys::given_keys::keys_of;
use unit_names::{declared_literals, declared_names};
use unit_walk::{Walked, walk};

// The unit of what was kept, with the compound literals there.
fn finished(
    alloc: Global,
    heading: Heading,
    types: TypeTable,
    keys: Vec<Option<Text>>,
    kept: Kept,
    names: &Names,
    syntax: &Syntax,
    results: Results,
) -> Result<Unit, CheckFault>
    requires names { AreNamed syntax.now results names.now }
    requires named { All (IsNamedIn (length syntax.now.tree.now.nodes.items)) results }
    requires first { ChildrenFirst (source_read syntax.now) }
    requires completes { (u : UnitSpec) × (uses : List (ℕ × ℕ)) ×
        (let entries = map (literal_entry (source_in syntax.now uses) (senses_made u results)) (literals_in kept.nodes.items) in
        AlwaysCompletes heading.name heading.unit types keys.items kept.nodes.items (kept.names.items ++ entries)) }
    ensures types { MatchResult result (λ done. done.types ≡ types) (λ fault. fault ≡ OutOfMemory) }
    ensures right { (u walked : UnitSpec) (uses : List (ℕ × ℕ)) (list : List DeclaredSpec) →
        let s = source_in syntax.now uses in
        IsReady walked → walked.types ≡ types → s.unit ≡ heading.unit →
        finish.IsWalked s (senses_made u results) walked keys.items list →
        IsKept walked.nodes.items list kept →
        IfOk result (Right s heading.name) }
{
    let nodes = kept.nodes.as_slice();
    let literals = match declared_literals(alloc, names, syntax, &results, nodes) {
        Ok(literals) => literals,
        Err(fault) => return Err(fault),
    };

    // Nothing reads what was made for the nodes from here on, and it takes more memory than the unit does.
    std::mem::drop(results);
    finish(alloc, heading, types, keys, kept, literals)
}

// The unit of what the walk has made, under a name, with what is declared and the keys of its tags.
fn completed(alloc: Global, bound: &Bound, name: Text, walked: Walked) -> Result<Unit, CheckFault>
    requires bound { IsBound walked.ground.numbered.syntax.tokens.now walked.ground.numbered.syntax.tree.now bound.now }
    requires ground { IsGround walked.ground bound.now }
    requires stand { Stand (nodes_ground walked.ground) walked.unit walked.results }
    requires walked { IsWalked (source_ground walked.ground bound.now) walked.unit walked.results }
    requires types { HasTagTypes (source_ground walked.ground bound.now) walked.unit.types }
    requires once { HasOnce walked.unit.types }
    requires initials { InitialisesOwn (source_ground walked.ground bound.now) (senses_made walked.unit walked.results) }
    requires completes { PartsComplete (source_ground walked.ground bound.now) name }
    ensures { let s = source_ground walked.entry.ground bound.now in
        MatchResult result (λ u. Right s name u × HasTags s u) (λ fault. fault ≡ OutOfMemory) }
{
    let Walked {
        ground,
        mut unit,
        results,
    } = walked;
    let syntax = &ground.numbered.syntax;
    let made = &results;
    let Ok(keys) = keys_of(alloc, &ground.numbered, bound, made) else {
        return Err(CheckFault::OutOfMemory);
    };
    let list = declared_names(alloc, &mut unit, &ground.names, &ground.lists, syntax, made)?;
    let list = with_own_bodies(alloc, unit.nodes.as_slice(), list)?;

    // That the table has a count says that its types were made by its own functions.
    let _count = unit.types.type_count();
    let heading = Heading {
        name,
        unit: syntax.tree.unit,
    };
    let kept = keep(alloc, unit.nodes, list)?;
    finished(
        alloc,
        heading,
        unit.types,
        keys,
        kept,
        &ground.names,
        syntax,
        results,
    )
}

// The bytes of a text.
fn are_bytes(text: &[u8])
    ensures { AreBytes text.now }
{}

/// The unit that a text stands for, where its tokens and its tree are those of a text whose names are bound, and each node stands behind
/// its children. The text is refused only at its first node, in order, whose row doesn't fit: `BadOperand` and `Unsupported` hold the kind
/// and the node that the row names. Where the rows of all nodes fit, only memory may want: of what they stand for a valid unit is made
/// always (`valid_unit_laws::lowered_laws`), and its table has the types of the text's tags. Tags have the numbers of the order of their
/// first specifiers (C11 6.7.2.3).
pub fn lower(
    alloc: Global,
    tokens: &Tokens,
    tree: &Tree,
    bound: &Bound,
    name: Text,
) -> Result<Unit, CheckFault>
    requires tokens { IsTokens tokens.now.text.now tokens.now.list.items }
    requires read { IsUnit tokens.now tree.now.unit tree.now }
    requires bound { IsBound tokens.now tree.now bound.now }
    requires first { ChildrenFirst (source_of tokens.now tree.now) }
    ensures { MatchResult result (IsLowered (source_of tokens.now tree.now) name) (RefusedIn (source_of tokens.now tree.now)) }
{
    are_bytes(tokens.text);
    match walk(alloc, tokens, tree, bound) {
        Ok(walked) => completed(alloc, bound, name, walked),
        Err(fault) => Err(fault),
    }
}
