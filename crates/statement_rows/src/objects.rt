// The automatic objects of declarations (C11 6.2.4, 6.8.2).
ghost use Rattle.std.specs.Prelude.{◌≡◌, ◌<◌, ◌++◌, [], ℕ, List, length, IfOk, OnOk, IsOkUnless};
ghost use Rattle.core_tree.specs.declared.node.Unit.{Unit};
ghost use Rattle.c_senses.specs.World.{World};
ghost use Rattle.c_senses.specs.Sense.{sense_in};
ghost use Rattle.c_senses.specs.Statements as spec;
ghost use Rattle.parsed_tree_laws.specs.sense_laws.Senses.{ChildrenFirst};
ghost use Rattle.c_results.specs.Standing.{sense_made, senses_made};
ghost use Rattle.tree_reads.specs.Sources.{source_read, source_in};
ghost use Rattle.statement_rows.specs.Kinds.{AreKinds};
ghost use Rattle.statement_rows.specs.Parts.{name_in, is_placed, object_at, objects_at};

use crate::kinds::NameKinds;
use c_entities::{has_storage, is_at_file, is_parameter};
use c_grammar::productions::{DECLARATION, DECLARATOR, REST};
use c_results::{Made, Results, made_at};
use core_nodes::CheckFault;
use std::alloc::Global;
use tree_reads::{Syntax, Test, children_of, first_where, is_a};

const WORD_EXTERN: u8 = 11;

const WORD_STATIC: u8 = 25;

// The name of a declarator, if that is what has been made.
fn name_of(made: &Made) -> Option<u32>
    ensures { (u : Unit) → result ≡ name_in (sense_made u made.now) }
{
    match made {
        Made::Declarator { name, .. } => *name,
        Made::Nothing | Made::Node(_) | Made::Typed(_) | Made::Specifiers { .. } => None,
        Made::Derived(_) | Made::Parameter { .. } | Made::Members(_) | Made::Value(_) => None,
        Made::Run(_) | Made::Initial { .. } => None,
    }
}

/// The name of a declarator that has been made for a node, if one has been.
pub fn name_at(results: &Results, node: u32) -> Option<u32>
    ensures { (u : Unit) → result ≡ name_in (sense_in (senses_made u results.now) node) }
{
    match made_at(results, node) {
        Some(made) => name_of(made),
        None => None,
    }
}

// Whether the object that a leaf declares has its place for the whole run, or elsewhere.
fn is_placed(syntax: &Syntax, results: &Results, leaf: u32) -> bool
    requires { leaf < length syntax.now.tree.now.nodes.items }
    ensures { (u : Unit) (uses : List (ℕ × ℕ)) →
        result ≡ is_placed (source_in syntax.now uses) (sense_in (senses_made u results.now)) leaf }
{
    if is_parameter(syntax, leaf) {
        return true;
    }
    if is_at_file(syntax, leaf) {
        return true;
    }
    if has_storage(syntax, results, WORD_STATIC, leaf) {
        return true;
    }
    has_storage(syntax, results, WORD_EXTERN, leaf)
}

/// Whether a leaf declares an automatic object (C11 6.2.4p5), by the specifiers that have been made for it: no typedef name, no
/// function, no parameter, nothing at file scope, and nothing that is declared `static` or `extern`.
pub fn is_automatic_object(syntax: &Syntax, results: &Results, kinds: &NameKinds, leaf: u32) -> bool
    requires kinds { AreKinds (source_read syntax.now) kinds.now }
    requires ordered { ChildrenFirst (source_read syntax.now) }
    ensures { (u : Unit) (w : World) (uses : List (ℕ × ℕ)) →
        result ≡ spec.is_automatic_object w (source_in syntax.now uses) (sense_in (senses_made u results.now)) leaf }
{
    if kinds.is_typedef(leaf) {
        return false;
    }
    if kinds.is_function(leaf) {
        return false;
    }
    if leaf as usize >= syntax.tree.nodes.len() {
        return true;
    }
    !is_placed(syntax, results, leaf)
}

// Adds the automatic object that a declarator declares.
fn add_name(
    list: &mut Vec<u32>,
    syntax: &Syntax,
    results: &Results,
    kinds: &NameKinds,
    node: u32,
) -> Result<(), CheckFault>
    requires kinds { AreKinds (source_read syntax.now) kinds.now }
    requires ordered { ChildrenFirst (source_read syntax.now) }
    ensures added { (u : Unit) (w : World) (uses : List (ℕ × ℕ)) →
        let s = source_in syntax.now uses in
        let sense = sense_in (senses_made u results.now) in
        OnOk result (list.new.items ≡ list.old.items ++ spec.automatic_name w s sense (sense node)) }
    ensures memory { IsOkUnless result CheckFault.OutOfMemory }
{
    if let Some(leaf) = name_at(results, node) {
        if is_automatic_object(syntax, results, kinds, leaf) {
            list.push(leaf)?;
        }
    }
    Ok(())
}

// Adds the automatic object that a node declares, if it is a declarator that does.
fn add_object(
    list: &mut Vec<u32>,
    syntax: &Syntax,
    results: &Results,
    kinds: &NameKinds,
    node: u32,
) -> Result<(), CheckFault>
    requires kinds { AreKinds (source_read syntax.now) kinds.now }
    requires ordered { ChildrenFirst (source_read syntax.now) }
    ensures added { (u : Unit) (w : World) (uses : List (ℕ × ℕ)) →
        let s = source_in syntax.now uses in
        let sense = sense_in (senses_made u results.now) in
        OnOk result (list.new.items ≡ list.old.items ++ object_at w s sense node) }
    ensures memory { IsOkUnless result CheckFault.OutOfMemory }
{
    if is_a(syntax, DECLARATOR, node) {
        add_name(list, syntax, results, kinds, node)
    } else {
        Ok(())
    }
}

// Adds the automatic objects whose declarators are among some nodes.
fn add_among(
    list: &mut Vec<u32>,
    syntax: &Syntax,
    results: &Results,
    kinds: &NameKinds,
    nodes: &[u32],
) -> Result<(), CheckFault>
    requires kinds { AreKinds (source_read syntax.now) kinds.now }
    requires ordered { ChildrenFirst (source_read syntax.now) }
    ensures added { (u : Unit) (w : World) (uses : List (ℕ × ℕ)) →
        let s = source_in syntax.now uses in
        let sense = sense_in (senses_made u results.now) in
        OnOk result (list.new.items ≡ list.old.items ++ spec.objects_among w s sense nodes.now) }
    ensures memory { IsOkUnless result CheckFault.OutOfMemory }
{
    for node in nodes {
        add_object(list, syntax, results, kinds, *node)?;
    }
    Ok(())
}

// Adds the automatic objects that a declaration declares: by its first declarator, and by those in the rest of it.
fn add_declared(
    list: &mut Vec<u32>,
    syntax: &Syntax,
    results: &Results,
    kinds: &NameKinds,
    declaration: u32,
) -> Result<(), CheckFault>
    requires kinds { AreKinds (source_read syntax.now) kinds.now }
    requires ordered { ChildrenFirst (source_read syntax.now) }
    ensures added { (u : Unit) (w : World) (uses : List (ℕ × ℕ)) →
        let s = source_in syntax.now uses in
        let sense = sense_in (senses_made u results.now) in
        OnOk result (list.new.items ≡ list.old.items ++ spec.objects_declared w s sense declaration) }
    ensures memory { IsOkUnless result CheckFault.OutOfMemory }
{
    let children = children_of(syntax, declaration);
    add_among(list, syntax, results, kinds, children)?;
    match first_where(syntax, Test::IsA(REST), children) {
        Some(rest) => add_among(list, syntax, results, kinds, children_of(syntax, rest)),
        None => Ok(()),
    }
}

// Adds the automatic objects that a node declares, if it is a declaration.
fn add_part(
    list: &mut Vec<u32>,
    syntax: &Syntax,
    results: &Results,
    kinds: &NameKinds,
    part: u32,
) -> Result<(), CheckFault>
    requires kinds { AreKinds (source_read syntax.now) kinds.now }
    requires ordered { ChildrenFirst (source_read syntax.now) }
    ensures added { (u : Unit) (w : World) (uses : List (ℕ × ℕ)) →
        let s = source_in syntax.now uses in
        let sense = sense_in (senses_made u results.now) in
        OnOk result (list.new.items ≡ list.old.items ++ objects_at w s sense part) }
    ensures memory { IsOkUnless result CheckFault.OutOfMemory }
{
    if is_a(syntax, DECLARATION, part) {
        add_declared(list, syntax, results, kinds, part)
    } else {
        Ok(())
    }
}

/// The automatic objects of a block over some parts (C11 6.8.2): those that its own declarations declare, in order. Only memory
/// may want.
pub fn objects_in(
    alloc: Global,
    syntax: &Syntax,
    results: &Results,
    kinds: &NameKinds,
    children: &[u32],
) -> Result<Vec<u32>, CheckFault>
    requires kinds { AreKinds (source_read syntax.now) kinds.now }
    requires ordered { ChildrenFirst (source_read syntax.now) }
    ensures objects { (u : Unit) (w : World) (uses : List (ℕ × ℕ)) →
        let s = source_in syntax.now uses in
        let sense = sense_in (senses_made u results.now) in
        IfOk result (λ list. list.items ≡ spec.objects_in w s sense children.now) }
    ensures memory { IsOkUnless result CheckFault.OutOfMemory }
{
    let mut list = Vec::new(alloc);
    for part in children {
        add_part(&mut list, syntax, results, kinds, *part)?;
    }
    Ok(list)
}

/// The automatic objects that the first part of a for declares, if it is a declaration (C11 6.8.5.3). Only memory may want.
pub fn for_objects(
    alloc: Global,
    syntax: &Syntax,
    results: &Results,
    kinds: &NameKinds,
    first: Option<u32>,
) -> Result<Vec<u32>, CheckFault>
    requires kinds { AreKinds (source_read syntax.now) kinds.now }
    requires ordered { ChildrenFirst (source_read syntax.now) }
    ensures objects { (u : Unit) (w : World) (uses : List (ℕ × ℕ)) →
        let s = source_in syntax.now uses in
        let sense = sense_in (senses_made u results.now) in
        IfOk result (λ list. list.items ≡ spec.for_objects w s sense first) }
    ensures memory { IsOkUnless result CheckFault.OutOfMemory }
{
    let mut list = Vec::new(alloc);
    match first {
        Some(part) => {
            add_part(&mut list, syntax, results, kinds, part)?;
            Ok(list)
        }
        None => Ok(list),
    }
}
