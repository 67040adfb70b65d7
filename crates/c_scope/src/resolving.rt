//! Resolves the names of a unit.
ghost use Rattle.c_scope.specs.Binding.{Holds, LeaveSameLabels, Turns, label_at};
ghost use Rattle.c_scope.specs.Happens.{AreHappenings, Speak, known_with, label_with};
ghost use Rattle.c_scope.specs.Known.{Happening, first_label, known, nothing_known};
ghost use Rattle.c_mentions.specs.Mentions as mentions;
ghost use Rattle.c_mentions.specs.Settings.{AreSettings};
ghost use Rattle.c_mentions.specs.Mentions.{symbol_at};
ghost use Rattle.c_scope.specs.Resolves.{IsBound, IsNameFault, bindings};
ghost use Rattle.c_mentions.specs.Syntax.{nodes_of};
ghost use Rattle.std.specs.Prelude.{◌≡◌, ◌<◌, ◌^◌, ℕ, List, length, nat_lt, IfOk, MatchResult};

use crate::binding::{Around, Binder, Labels, note_label, take};
use crate::kinds::{Declared, NameFault};
use c_grammar::{SyntaxNode, Tree};
use c_lexer::{Token, Tokens};
use c_mentions::mentions::{Mention, mention_at, speaking};
use c_mentions::roles::Role;
use c_mentions::settings::{Scope, Setting, SettingList, Settings, place_of, settings_of};
use c_mentions::symbols::symbols;
use pta_base::OutOfMemory;
use std::alloc::Global;
use std::collections::{BTreeMap, BTreeSet};

/// The names of a unit bound to their declarations, by the numbers of the nodes.
#[derive(Drop)]
pub struct Bound {
    /// The uses of ordinary names and of tags, each with its declaration.
    pub uses: Vec<(u32, u32)>,
    /// The names of `goto` statements, each with its label.
    pub labels: Vec<(u32, u32)>,
    /// The declarations of ordinary names, in the order in which they are made.
    pub names: Vec<Declared>,
    /// The declarations of tags, in the order in which they are made.
    pub tags: Vec<Declared>,
    /// In which scopes and in which function's body each node stands, and its role below its parent.
    pub settings: Settings,
}

/// A unit with the symbols of its tokens and the settings of its nodes.
#[derive(Clone, Copy)]
pub(crate) struct Unit<'a> {
    pub(crate) text: &'a [u8],
    pub(crate) tokens: &'a [Token],
    pub(crate) symbols: &'a [u32],
    pub(crate) nodes: &'a [SyntaxNode],
    pub(crate) scopes: &'a [Scope],
    pub(crate) settings: &'a SettingList,
    pub(crate) file: u32,
}

/// What a node of a unit does to names.
fn mention_of(unit: Unit, node: u32, setting: Setting) -> Mention
    ensures { result
        ≡ mentions.mention_at unit.entry.text.now unit.entry.tokens.now (symbol_at unit.entry.symbols.now)
        (nodes_of unit.entry.nodes.now) node (nat_lt setting.body unit.entry.file) setting.role }
{
    let in_body = setting.body < unit.file;
    mention_at(
        unit.text,
        unit.tokens,
        unit.symbols,
        unit.nodes,
        node,
        in_body,
        setting.role,
    )
}

/// What a node of a unit does to labels, as far as they ask for it: only what stands in a statement can be one.
fn label_mention(unit: Unit, node: u32, setting: Setting) -> Mention
    ensures { LeaveSameLabels node result
        (mentions.mention_at unit.entry.text.now unit.entry.tokens.now (symbol_at unit.entry.symbols.now)
        (nodes_of unit.entry.nodes.now) node (nat_lt setting.body unit.entry.file) setting.role) }
{
    match setting.role {
        Role::Statement { .. } => mention_of(unit, node, setting),
        _ => Mention::Nothing,
    }
}

/// Notes the label that a node of a unit declares, if it declares one.
fn note_node(labels: &mut Labels, unit: Unit, node: u32) -> Result<(), OutOfMemory>
    requires { node < length unit.settings.now }
    ensures { IfOk result (λ done. (all : List Happening) → AreHappenings unit.entry all
        → (body symbol : ℕ) → label_at labels.new body symbol ≡ label_with all body symbol node (label_at labels.old body symbol)) }
{
    let setting = unit.settings.at(node as usize);
    let mention = label_mention(unit, node, setting);
    note_label(labels, setting.body, node, mention)
}

/// The first label of each symbol in the body of each function, by the nodes that may do something to names.
fn find_labels(alloc: Global, unit: Unit, speaking: &[u32]) -> Result<Labels, OutOfMemory>
    requires { Speak unit speaking.now }
    ensures { IfOk result
        (λ labels. (all : List Happening) → AreHappenings unit.entry all → (body symbol : ℕ)
        → label_at labels body symbol ≡ first_label 0 all body symbol) }
{
    let mut labels = BTreeMap::new(alloc);
    for node in speaking {
        note_node(&mut labels, unit, *node)?;
    }
    Ok(labels)
}

/// What is known of names behind a node of a unit.
fn take_node(binder: &mut Binder, labels: &Labels, unit: Unit, node: u32) -> Result<(), OutOfMemory>
    requires { node < length unit.settings.now }
    ensures { IfOk result
        (λ done. (all : List Happening) → AreHappenings unit.entry all
        → Turns binder.old binder.new (known_with unit.entry.file (label_at labels.now) all node)) }
{
    let setting = unit.settings.at(node as usize);
    let mention = mention_of(unit, node, setting);
    let around = Around {
        scopes: unit.scopes,
        place: setting.scope,
        file: unit.file,
    };
    take(binder, labels, around, setting.body, node, mention)
}

/// What is known of names behind all nodes, by those that may do something to names.
fn bind_all(
    alloc: Global,
    unit: Unit,
    labels: &Labels,
    speaking: &[u32],
) -> Result<Binder, OutOfMemory>
    requires { Speak unit speaking.now }
    ensures { IfOk result
        (λ binder. (all : List Happening) → AreHappenings unit.entry all
        → Holds binder (known unit.entry.file (label_at labels.now) 0 nothing_known all)) }
{
    let mut binder = Binder {
        names: BTreeMap::new(alloc),
        tags: BTreeMap::new(alloc),
        declared: Vec::new(alloc),
        tagged: Vec::new(alloc),
        functions: BTreeSet::new(alloc),
        uses: Vec::new(alloc),
        labels: Vec::new(alloc),
        fault: None,
    };
    for node in speaking {
        take_node(&mut binder, labels, unit, *node)?;
    }
    Ok(binder)
}

/// Where the nodes stand.
fn list_of(settings: &Settings) -> &SettingList
    ensures { result.now ≡ settings.now.list }
{
    &settings.list
}

/// What is known of the names of a unit, and where its nodes stand.
fn bind(
    alloc: Global,
    text: &[u8],
    tokens: &[Token],
    nodes: &[SyntaxNode],
) -> Result<(Binder, Settings), OutOfMemory>
    requires { length tokens.now < 2 ^ 32 }
    ensures binder { IfOk result (λ known. Holds known.0 (bindings text.now tokens.now (nodes_of nodes.now))) }
    ensures settings { IfOk result (λ known. AreSettings tokens.now (nodes_of nodes.now) known.1) }
{
    let file = place_of(nodes.len())?;
    let symbols = symbols(alloc, text, tokens)?;
    let settings = settings_of(alloc, tokens, nodes)?;
    let unit = Unit {
        text,
        tokens,
        symbols: symbols.as_slice(),
        nodes,
        scopes: settings.scopes.as_slice(),
        settings: list_of(&settings),
        file,
    };
    let list = speaking(alloc, tokens, nodes)?;
    let spoken = list.as_slice();
    let labels = find_labels(alloc, unit, spoken)?;
    let binder = bind_all(alloc, unit, &labels, spoken)?;
    Ok((binder, settings))
}

/// Binds each use of an ordinary name, a tag or a label of a unit to the node of the innermost declaration that is visible there
/// (C11 6.2.1, 6.2.3), in the order of the uses. A label is visible in its whole function, any other name from its declaration on.
/// The declarations of ordinary names and of tags are listed in the order in which they are made. Where each node stands, which
/// decides what is visible there, is handed on with them.
/// `Undeclared` and `Redeclared` come exactly where a node is undeclared or redeclared, with the first such node.
pub fn resolve(alloc: Global, tokens: &Tokens, tree: &Tree) -> Result<Bound, NameFault>
    requires { length tokens.now.list.items < 2 ^ 32 }
    ensures { MatchResult result (λ bound. IsBound tokens.now tree.now bound) (λ fault. IsNameFault tokens.now tree.now fault) }
{
    let (binder, settings) = bind(
        alloc,
        tokens.text,
        tokens.list.as_slice(),
        tree.nodes.as_slice(),
    )?;
    match binder.fault {
        None => Ok(Bound {
            uses: binder.uses,
            labels: binder.labels,
            names: binder.declared,
            tags: binder.tagged,
            settings,
        }),
        Some(fault) => Err(fault),
    }
}
