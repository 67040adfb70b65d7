// The row of a node, by its production.
ghost use Rattle.std.specs.Prelude.{◌≡◌, ◌<◌, true, length, IfOk};
ghost use Rattle.c_senses.specs.Tree.{production_at};
ghost use Rattle.c_senses.specs.Rows.{AreSenses};
ghost use Rattle.c_senses.specs.Sense.{sense_in};
ghost use Rattle.c_declarators.specs.Limited.{AreLimited};
ghost use Rattle.c_meanings.specs.Linkages.{AreLinkages};
ghost use Rattle.c_structures.specs.Listed.{AreLists};
ghost use Rattle.core_nodes.specs.Standing.{IsReady, Builds, Knows};
ghost use Rattle.c_results.specs.Standing.{sense_made, senses_made, IsWithin, Rowed};
ghost use Rattle.c_initials.specs.Filling.{Fills};
ghost use Rattle.name_uses.specs.PassedOn.{IsReadable};
ghost use Rattle.parsed_tree_laws.specs.family_laws.Families.{Families};
ghost use Rattle.unit_walk.specs.row_shapes.Kept.{Keeps};
ghost use Rattle.struct_rows.specs.Built.{HasTagTypes};
ghost use Rattle.unit_worlds.specs.unit_limits.Unions.{AreUnions};
ghost use Rattle.unit_worlds.specs.Growing.{Grows, completed_at};
ghost use Rattle.unit_walk.specs.unit_rows.Built.{lists_others, is_part, is_derivation, is_statement, is_plain};
ghost use Rattle.unit_walk.specs.unit_rows.Built.{is_expression, is_member, is_declarator, is_limited};
ghost use Rattle.unit_walk.specs.unit_rows.Along.{AreAlong};
ghost use Rattle.unit_walk.specs.unit_rows.Standing.{IsKnown, Stand, ChoicesFit, source_known, nodes_known, world_there, row_there};

use crate::unit_rows::along::Along;
use crate::unit_rows::declarators::declared_name;
use crate::unit_rows::initials::initial_row;
use crate::unit_rows::known::Known;
use crate::unit_rows::parts::{derivation, specifier};
use crate::unit_rows::structures::structure;
use c_grammar::productions::{
    ABSTRACT, ALIGN, ASM_NAME, ASSERT, BLOCK, DECLARATION, DECLARATOR, EITHER, ENUM, ENUMERATOR,
    ENUMERATORS, EXPRESSION, EXTERNAL, FIELD, FUNCTION, ITEM, MEMBER, MEMBERS, PARAMETER, PRIMARY,
    QUALIFIER, REST, SPECS, STATEMENT, STORAGE, STRUCT, SUFFIX, TYPE, TYPE_NAME, UNIT,
};
use c_meanings::Linkages;
use c_results::{Made, Results};
use c_statements::Choices;
use c_structures::{MemberLists, listed_member};
use core_nodes::CheckFault;
use core_tree::node::Unit;
use name_uses::expression;
use statement_rows::{Told, row as statement_row};
use std::alloc::Global;
use tree_reads::{children_of, production_of};

// Whether a node stands for nothing of its own: a leaf, or a production that only lists others.
fn is_list(production: u32) -> bool
    ensures { result ≡ lists_others production }
{
    match production {
        UNIT | EXTERNAL | ASM_NAME => true,
        STORAGE | FUNCTION | QUALIFIER => true,
        ENUMERATORS | ITEM => true,
        _ => production > PRIMARY,
    }
}

// Whether a node is a part of specifiers, or an assertion.
fn is_part(production: u32) -> bool
    ensures { result ≡ is_part production }
{
    match production {
        ASSERT | SPECS | ALIGN => true,
        TYPE | ENUM | ENUMERATOR => true,
        _ => false,
    }
}

// Whether a node is a part of a declarator.
fn is_derivation(production: u32) -> bool
    ensures { result ≡ is_derivation production }
{
    match production {
        SUFFIX | PARAMETER | TYPE_NAME => true,
        _ => false,
    }
}

// Whether a node is a statement, a block, a declaration or the rest of one.
fn is_statement(production: u32) -> bool
    ensures { result ≡ is_statement production }
{
    match production {
        REST | DECLARATION | BLOCK | STATEMENT => true,
        _ => false,
    }
}

// Whether a node is one of those, of which nothing more is asked.
fn is_plain(production: u32) -> bool
    ensures { result ≡ is_plain production }
{
    is_part(production) || is_derivation(production) || is_statement(production)
}

// Whether a node is an expression.
fn is_expression(production: u32) -> bool
    ensures { result ≡ is_expression production }
{
    EXPRESSION <= production && production <= PRIMARY
}

// Whether a node is a list of members, a declaration of some or a field.
fn is_member(production: u32) -> bool
    ensures { result ≡ is_member production }
{
    match production {
        MEMBERS | MEMBER | FIELD => true,
        _ => false,
    }
}

// Whether a node is a declarator.
fn is_declarator(production: u32) -> bool
    ensures { result ≡ is_declarator production }
{
    match production {
        DECLARATOR | ABSTRACT | EITHER => true,
        _ => false,
    }
}

// The row of a node that asks for types within the limits: a structure or union, a member, a declarator or an initialiser.
fn limited(
    alloc: Global,
    unit: &mut Unit,
    known: &Known,
    results: &Results,
    lists: &mut MemberLists,
    unions: &mut Vec<bool>,
    linkages: &mut Linkages,
    at: u32,
) -> Result<Made, CheckFault>
    requires known { IsKnown known.now }
    requires stand { Stand (nodes_known known.now) unit.old results.now }
    requires knows { Knows (world_there known.now unit.old results.now at) unit.old }
    requires fills { Fills (world_there known.now unit.old results.now at) unit.old }
    requires limits { AreLimited (world_there known.now unit.old results.now at) (senses_made unit.old results.now) }
    requires types { HasTagTypes (source_known known.now) unit.old.types }
    requires senses { AreSenses (source_known known.now) (senses_made unit.old results.now) }
    requires families { Families (source_known known.now) }
    requires lists { AreLists known.now.numbered.now.syntax results.now lists.old }
    requires unions { AreUnions unit.old.types unions.old.items }
    requires linkages { AreLinkages known.now.numbered.now.syntax results.now known.now.names.now linkages.old }
    requires long { length results.now ≡ at }
    requires at { at < nodes_known known.now }
    requires limited { is_limited (production_at (source_known known.now) at) ≡ true }
    ensures ready { IsReady unit.new }
    ensures within { IfOk result (IsWithin unit.new) }
    ensures keeps { IfOk result (λ m. Keeps (nodes_known known.now) (sense_made unit.new m)) }
    ensures grows { let sense = sense_in (senses_made unit.old results.now) in
        IfOk result (λ m. Grows unit.old unit.new (completed_at (source_known known.now) sense at)) }
    ensures lists { AreLists known.now.numbered.now.syntax results.now lists.new }
    ensures unions { IfOk result (λ m. AreUnions unit.new.types unions.new.items) }
    ensures linkages { AreLinkages known.now.numbered.now.syntax results.now known.now.names.now linkages.new }
    ensures row { Rowed unit.new result (row_there known.now unit.old results.now at) }
{
    // (What every table keeps is told by its count.)
    let _count = unit.types.type_count();
    let syntax = &known.numbered.syntax;
    let production = production_of(syntax, at);
    if production == STRUCT {
        return structure(alloc, unit, known, results, unions, at);
    }
    if is_member(production) {
        return listed_member(alloc, unit, syntax, results, unions.as_slice(), lists, at);
    }
    if is_declarator(production) {
        return declared_name(alloc, unit, known, results, linkages, unions.as_slice(), at);
    }
    initial_row(alloc, unit, known, results, linkages, at)
}

// The row of a node of a declaration or a statement.
fn declared(
    alloc: Global,
    unit: &mut Unit,
    known: &Known,
    results: &Results,
    choices: &Choices,
    linkages: &mut Linkages,
    at: u32,
) -> Result<Made, CheckFault>
    requires known { IsKnown known.now }
    requires stand { Stand (nodes_known known.now) unit.old results.now }
    requires knows { Knows (world_there known.now unit.old results.now at) unit.old }
    requires choices { ChoicesFit known.now unit.old results.now at choices.now }
    requires linkages { AreLinkages known.now.numbered.now.syntax results.now known.now.names.now linkages.old }
    requires at { at < nodes_known known.now }
    requires plain { is_plain (production_at (source_known known.now) at) ≡ true }
    ensures linkages { AreLinkages known.now.numbered.now.syntax results.now known.now.names.now linkages.new }
    ensures ready { IsReady unit.new }
    ensures builds { Builds unit.old unit.new }
    ensures within { IfOk result (IsWithin unit.new) }
    ensures row { Rowed unit.new result (row_there known.now unit.old results.now at) }
{
    let syntax = &known.numbered.syntax;
    let production = production_of(syntax, at);
    let children = children_of(syntax, at);
    if is_part(production) {
        return specifier(
            alloc, unit, known, results, linkages, production, at, children,
        );
    }
    if is_derivation(production) {
        return derivation(alloc, unit, syntax, results, production, at, children);
    }
    let kinds = known.kinds;
    statement_row(alloc, unit, syntax, results, &Told { kinds, choices }, at)
}

/// What a node stands for, by its production (C11 6.5 to 6.9), over what was made for the nodes before it and the cases and defaults
/// before it: exactly the row of its production, with its refusals. Beside that only memory may want. `along` is what is kept beside the
/// unit. What is made so far is within the limits of the world around the node (`AreLimited`), and the tree's nodes are in families.
pub fn row(
    alloc: Global,
    unit: &mut Unit,
    known: &Known,
    results: &Results,
    choices: &Choices,
    along: &mut Along,
    at: u32,
) -> Result<Made, CheckFault>
    requires known { IsKnown known.now }
    requires stand { Stand (nodes_known known.now) unit.old results.now }
    requires knows { Knows (world_there known.now unit.old results.now at) unit.old }
    requires fills { Fills (world_there known.now unit.old results.now at) unit.old }
    requires types { HasTagTypes (source_known known.now) unit.old.types }
    requires choices { ChoicesFit known.now unit.old results.now at choices.now }
    requires senses { AreSenses (source_known known.now) (senses_made unit.old results.now) }
    requires readable { IsReadable (source_known known.now) at }
    requires families { Families (source_known known.now) }
    requires limits { AreLimited (world_there known.now unit.old results.now at) (senses_made unit.old results.now) }
    requires long { length results.now ≡ at }
    requires along { AreAlong known.now.numbered.now.syntax known.now.names.now unit.old results.now along.old }
    requires at { at < nodes_known known.now }
    ensures ready { IsReady unit.new }
    ensures within { IfOk result (IsWithin unit.new) }
    ensures keeps { IfOk result (λ m. Keeps (nodes_known known.now) (sense_made unit.new m)) }
    ensures grows { let sense = sense_in (senses_made unit.old results.now) in
        IfOk result (λ m. Grows unit.old unit.new (completed_at (source_known known.now) sense at)) }
    ensures along { IfOk result (λ m. AreAlong known.now.numbered.now.syntax known.now.names.now unit.new results.now along.new) }
    ensures row { Rowed unit.new result (row_there known.now unit.old results.now at) }
{
    let syntax = &known.numbered.syntax;
    let production = production_of(syntax, at);
    if is_list(production) {
        return Ok(Made::Nothing);
    }
    if is_expression(production) {
        let names = known.names;
        let linkages = &mut along.linkages;
        return expression(alloc, unit, syntax, names, results, linkages, at);
    }
    if is_plain(production) {
        return declared(
            alloc,
            unit,
            known,
            results,
            choices,
            &mut along.linkages,
            at,
        );
    }
    limited(
        alloc,
        unit,
        known,
        results,
        &mut along.lists,
        &mut along.unions,
        &mut along.linkages,
        at,
    )
}
