// The cases and the defaults of switches (C11 6.8.4.2p3).
ghost use Rattle.std.specs.Prelude.{◌≡◌, ◌<◌, ◌+◌, ◌||◌, ◌&&◌, ◌==◌, ℕ, ℤ, List, Some, None, is_some, length, take, All};
ghost use Rattle.std.specs.Prelude.{IfOk, OnOk, if◌then◌else◌};
ghost use Rattle.std.specs.Ordering.{int_eq};
ghost use Rattle.c_senses.specs.Tree.{Source, is_number};
ghost use Rattle.c_senses.specs.World.{World};
ghost use Rattle.c_senses.specs.Sense.{Sense, sense_in};
ghost use Rattle.c_senses.specs.Statements as spec;
ghost use Rattle.core_nodes.specs.Standing.{IsReady};
ghost use Rattle.c_results.specs.Standing.{senses_made, IsWithin};
ghost use Rattle.tree_reads.specs.Sources.{source_in};
ghost use Rattle.tree_reads.specs.leaf_maps.Numbers.{number_at};
ghost use Rattle.c_statements.specs.Labels as labels;
ghost use Rattle.c_statements.specs.Labels.{case_at, is_choice, AreDefaults, AreCases};

use c_grammar::productions::STATEMENT;
use c_results::{Results, node_at};
use core_nodes::reads::kind_of_node;
use core_tree::node::{NodeKind, Unit};
use std::alloc::{AllocError, Global};
use std::collections::BTreeMap;
use std::marker::Model;
use tree_reads::leaf_maps::LeafMap;
use tree_reads::{Above, Syntax, children_of, has_word, is_a, nearest_above};

const WORD_CASE: u8 = 2;

const WORD_DEFAULT: u8 = 6;

/// The cases of switches, each by its switch and its number.
#[derive(Drop)]
pub struct CaseMap {
    entries: BTreeMap<(u32, i128), u32>,
}

impl Model for CaseMap {
    ghost use Rattle.std.specs.Prelude.{List, ℕ, ℤ};

    ghost Value = { List ((ℕ × ℤ) × ℕ) };

    ghost view = { λ m. m.entries.entries };
}

impl CaseMap {
    /// No case yet.
    pub fn new(alloc: Global) -> CaseMap
        ensures { (switch : ℕ) (number : ℤ) → case_at result switch number ≡ None }
    {
        CaseMap {
            entries: BTreeMap::new(alloc),
        }
    }

    /// The case of a switch that has a number.
    pub fn get(&self, switch: u32, number: i128) -> Option<u32>
        ensures { result ≡ case_at self.now switch number }
    {
        self.entries.get(&(switch, number)).copied()
    }

    /// Enters a case by its switch and its number.
    pub fn put(&mut self, switch: u32, number: i128, case: u32) -> Result<(), AllocError>
        ensures { OnOk result ((other : ℕ) (sought : ℤ) →
            case_at self.new other sought
            ≡ (if (switch == other) && int_eq number sought then Some case else case_at self.old other sought)) }
    {
        self.entries.insert((switch, number), case)?;
        Ok(())
    }
}

/// The cases and the defaults before a node: a switch that has a default, with that, and the cases of each switch.
#[derive(Drop)]
pub struct Choices {
    pub defaults: LeafMap,
    pub cases: CaseMap,
}

// Whether a node is a statement that begins with a keyword.
fn is_statement_of(syntax: &Syntax, word: u8, node: u32) -> bool
    ensures { (w : World) (uses : List (ℕ × ℕ)) (sense : ℕ → Sense) →
        result ≡ spec.is_statement_of w (source_in syntax.now uses) sense word node }
{
    if !is_a(syntax, STATEMENT, node) {
        return false;
    }
    match children_of(syntax, node).first() {
        Some(first) => has_word(syntax, word, *first),
        None => false,
    }
}

// The number of a node that is a case.
fn number_of_kind(kind: &NodeKind) -> Option<i128>
    ensures { result ≡ labels.case_number kind.now }
{
    match kind {
        NodeKind::Case(number) => Some(number.get()),
        _ => None,
    }
}

// Whether a node is a default.
fn is_default_kind(kind: &NodeKind) -> bool
    ensures { result ≡ labels.is_default_kind kind.now }
{
    match kind {
        NodeKind::Default => true,
        _ => false,
    }
}

// The number of the case that has been made for a node, if one has been.
fn case_made(unit: &Unit, results: &Results, node: u32) -> Option<i128>
    requires ready { IsReady unit.now }
    requires results { All (IsWithin unit.now) results.now }
    ensures { (w : World) (s : Source) →
        let sense = sense_in (senses_made unit.now results.now) in
        result ≡ spec.case_value w s sense (sense node) }
{
    match node_at(results, node) {
        Some(made) => number_of_kind(kind_of_node(unit, made)),
        None => None,
    }
}

// Whether a default has been made for a node.
fn default_made(unit: &Unit, results: &Results, node: u32) -> bool
    requires ready { IsReady unit.now }
    requires results { All (IsWithin unit.now) results.now }
    ensures { (w : World) (s : Source) →
        let sense = sense_in (senses_made unit.now results.now) in
        result ≡ spec.is_default w s sense (sense node) }
{
    match node_at(results, node) {
        Some(made) => is_default_kind(kind_of_node(unit, made)),
        None => false,
    }
}

// The switch of a node that is a case, with the case's number.
fn case_of(unit: &Unit, syntax: &Syntax, results: &Results, at: u32) -> Option<(u32, i128)>
    requires ready { IsReady unit.now }
    requires results { All (IsWithin unit.now) results.now }
    requires at { at < length syntax.now.tree.now.nodes.items }
    ensures { (w : World) (uses : List (ℕ × ℕ)) (switch : ℕ) (number : ℤ) →
        let s = source_in syntax.now uses in
        let sense = sense_in (senses_made unit.now results.now) in
        is_choice result switch number ≡ spec.is_case_again w s sense switch number at }
{
    if !is_statement_of(syntax, WORD_CASE, at) {
        return None;
    }
    let switch = nearest_above(syntax, Above::Switch, at)?;
    let number = case_made(unit, results, at)?;
    Some((switch, number))
}

// The switch of a node that is a default.
fn default_of(unit: &Unit, syntax: &Syntax, results: &Results, at: u32) -> Option<u32>
    requires ready { IsReady unit.now }
    requires results { All (IsWithin unit.now) results.now }
    requires at { at < length syntax.now.tree.now.nodes.items }
    ensures { (w : World) (uses : List (ℕ × ℕ)) (switch : ℕ) →
        let s = source_in syntax.now uses in
        let sense = sense_in (senses_made unit.now results.now) in
        is_number result switch ≡ spec.is_default_again w s sense switch at }
{
    if !is_statement_of(syntax, WORD_DEFAULT, at) {
        return None;
    }
    if !default_made(unit, results, at) {
        return None;
    }
    nearest_above(syntax, Above::Switch, at)
}

impl Choices {
    /// Nothing yet: what there is before the first node.
    pub fn new(alloc: Global) -> Choices
        ensures defaults { (w : World) (s : Source) (sense : ℕ → Sense) → AreDefaults w s sense 0 result.defaults }
        ensures cases { (w : World) (s : Source) (sense : ℕ → Sense) → AreCases w s sense 0 result.cases }
    {
        Choices {
            defaults: LeafMap::new(alloc),
            cases: CaseMap::new(alloc),
        }
    }

    // Enters a node as a default, if it is one.
    fn note_default(
        &mut self,
        unit: &Unit,
        syntax: &Syntax,
        results: &Results,
        at: u32,
    ) -> Result<(), AllocError>
        requires ready { IsReady unit.now }
        requires results { All (IsWithin unit.now) results.now }
        requires at { at < length syntax.now.tree.now.nodes.items }
        ensures noted { (w : World) (uses : List (ℕ × ℕ)) →
            let s = source_in syntax.now uses in
            let sense = sense_in (senses_made unit.now results.now) in
            OnOk result ((switch : ℕ) →
            is_some (number_at self.new.defaults switch)
            ≡ (is_some (number_at self.old.defaults switch) || spec.is_default_again w s sense switch at)) }
        ensures others { self.new.cases ≡ self.old.cases }
    {
        if let Some(switch) = default_of(unit, syntax, results, at) {
            self.defaults.add(switch, at)?;
        }
        Ok(())
    }

    // Enters a node as a case, if it is one.
    fn note_case(
        &mut self,
        unit: &Unit,
        syntax: &Syntax,
        results: &Results,
        at: u32,
    ) -> Result<(), AllocError>
        requires ready { IsReady unit.now }
        requires results { All (IsWithin unit.now) results.now }
        requires at { at < length syntax.now.tree.now.nodes.items }
        ensures noted { (w : World) (uses : List (ℕ × ℕ)) →
            let s = source_in syntax.now uses in
            let sense = sense_in (senses_made unit.now results.now) in
            OnOk result ((switch : ℕ) (number : ℤ) →
            is_some (case_at self.new.cases switch number)
            ≡ (is_some (case_at self.old.cases switch number) || spec.is_case_again w s sense switch number at)) }
        ensures others { self.new.defaults ≡ self.old.defaults }
    {
        if let Some((switch, number)) = case_of(unit, syntax, results, at) {
            self.cases.put(switch, number, at)?;
        }
        Ok(())
    }

    /// Takes in a node behind those that are known, once its own row is the last of `results`: what is kept of the nodes before
    /// it is then kept of it too. Only memory may want.
    pub fn note(
        &mut self,
        unit: &Unit,
        syntax: &Syntax,
        results: &Results,
        at: u32,
    ) -> Result<(), AllocError>
        requires ready { IsReady unit.now }
        requires results { All (IsWithin unit.now) results.now }
        requires at { at < length syntax.now.tree.now.nodes.items }
        ensures defaults { (before after : World) (uses : List (ℕ × ℕ)) →
            let s = source_in syntax.now uses in
            let senses = senses_made unit.now results.now in
            AreDefaults before s (sense_in (take at senses)) at self.old.defaults →
            OnOk result (AreDefaults after s (sense_in senses) (at + 1) self.new.defaults) }
        ensures cases { (before after : World) (uses : List (ℕ × ℕ)) →
            let s = source_in syntax.now uses in
            let senses = senses_made unit.now results.now in
            AreCases before s (sense_in (take at senses)) at self.old.cases →
            OnOk result (AreCases after s (sense_in senses) (at + 1) self.new.cases) }
    {
        if !is_a(syntax, STATEMENT, at) {
            return Ok(());
        }
        self.note_default(unit, syntax, results, at)?;
        self.note_case(unit, syntax, results, at)
    }
}
