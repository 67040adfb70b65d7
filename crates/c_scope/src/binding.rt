//! What is known of names while the nodes are gone through.
ghost use Rattle.c_scope.specs.Binding as spec;
ghost use Rattle.c_scope.specs.Binding.{Turns, label_at};
ghost use Rattle.c_scope.specs.Known.{after, after_declaration, after_goto, after_label, after_tag, after_use};
ghost use Rattle.c_scope.specs.Known.{first_scope, tag_declared, with_fault};
ghost use Rattle.c_scope.specs.Known as known;
ghost use Rattle.c_scope.specs.Places.{declared_at, found_of};
ghost use Rattle.c_mentions.specs.Settings.{IsChain};
ghost use Rattle.std.specs.Prelude.{◌≡◌, ℕ, List, Option, IfOk, OnOk};

use crate::kinds::{Declared, Kind, NameFault};
use crate::places::{Entry, Found, Places, declare, declared_by, meaning, scope_at};
use c_mentions::declarators::Derivation;
use c_mentions::mentions::{Linkage, Mention};
use c_mentions::roles::TagUse;
use c_mentions::settings::Scope;
use pta_base::OutOfMemory;
use std::collections::{BTreeMap, BTreeSet};

/// The first label of each symbol in the body of each function.
pub(crate) type Labels = BTreeMap<(u32, u32), u32>;

/// What is known of names: the declarations of ordinary names and of tags, the uses that mean functions or their types, the uses
/// and the gotos with what they mean, and the first node that is at fault.
#[derive(Drop)]
pub(crate) struct Binder {
    pub(crate) names: Places,
    pub(crate) tags: Places,
    pub(crate) declared: Vec<Declared>,
    pub(crate) tagged: Vec<Declared>,
    pub(crate) functions: BTreeSet<u32>,
    pub(crate) uses: Vec<(u32, u32)>,
    pub(crate) labels: Vec<(u32, u32)>,
    pub(crate) fault: Option<NameFault>,
}

/// Where a node stands: the list of all scopes, the place of its own in it, and the number of the file's scope.
#[derive(Clone, Copy)]
pub(crate) struct Around<'a> {
    pub(crate) scopes: &'a [Scope],
    pub(crate) place: u32,
    pub(crate) file: u32,
}

/// The first label of a symbol in a body.
fn label_at(labels: &Labels, body: u32, symbol: u32) -> Option<u32>
    ensures { result ≡ spec.label_at labels.now body symbol }
{
    labels.get(&(body, symbol)).copied()
}

/// Puts the first label of a symbol in a body.
fn put_label(labels: &mut Labels, body: u32, symbol: u32, node: u32) -> Result<(), OutOfMemory>
    ensures { IfOk result
        (λ done. (other sign : ℕ) → spec.label_at labels.new other sign ≡ spec.label_put labels.old body symbol node other sign) }
{
    labels.insert((body, symbol), node)?;
    Ok(())
}

/// Notes a label unless its symbol has one in the body.
fn note_new_label(labels: &mut Labels, body: u32, symbol: u32, node: u32) -> Result<(), OutOfMemory>
    ensures { IfOk result
        (λ done. (other sign : ℕ) → spec.label_at labels.new other sign ≡ spec.label_more labels.old body symbol node other sign) }
{
    match label_at(labels, body, symbol) {
        Some(_) => Ok(()),
        None => put_label(labels, body, symbol, node),
    }
}

/// Notes the label that a node declares, if it declares one.
pub(crate) fn note_label(
    labels: &mut Labels,
    body: u32,
    node: u32,
    mention: Mention,
) -> Result<(), OutOfMemory>
    ensures { IfOk result
        (λ done. (other sign : ℕ)
        → spec.label_at labels.new other sign ≡ spec.label_after labels.old body node mention other sign) }
{
    match mention {
        Mention::Label { symbol } => note_new_label(labels, body, symbol, node),
        _ => Ok(()),
    }
}

/// The node of a fault.
fn fault_node(fault: NameFault) -> u32
    ensures { result ≡ known.fault_node fault }
{
    match fault {
        NameFault::Undeclared(node) => node,
        NameFault::Redeclared(node) => node,
        NameFault::OutOfMemory => 0,
    }
}

/// Of two faults that of the smaller node.
fn earlier(first: Option<NameFault>, fault: NameFault) -> Option<NameFault>
    ensures { result ≡ known.earlier first fault }
{
    match first {
        None => Some(fault),
        Some(first) => {
            if fault_node(first) <= fault_node(fault) {
                Some(first)
            } else {
                Some(fault)
            }
        }
    }
}

/// Whether a declarator declares a function, by the derivation next to its name or by its type.
fn declares_function(
    functions: &BTreeSet<u32>,
    derivation: Derivation,
    type_name: Option<u32>,
) -> bool
    ensures { result ≡ spec.is_function functions.now derivation type_name }
{
    match derivation {
        Derivation::Function => true,
        Derivation::Other => false,
        Derivation::Bare => match type_name {
            Some(node) => functions.contains(&node),
            None => false,
        },
    }
}

/// What a declaration is to further ones of its name.
fn kind_of(linkage: Linkage, at_file: bool, function: bool) -> Kind
    ensures { result ≡ known.kind_of linkage at_file function }
{
    match linkage {
        Linkage::Never => Kind::Plain,
        Linkage::Typedef => Kind::Typedef,
        Linkage::External => Kind::Linked,
        Linkage::Object => {
            if at_file || function {
                Kind::Linked
            } else {
                Kind::Plain
            }
        }
    }
}

/// The number of the innermost scope.
fn scope_number(around: Around) -> u32
    ensures { (chain : List ℕ) → IsChain around.entry.scopes.now around.entry.place chain → result ≡ first_scope around.entry.file chain }
{
    match scope_at(around.scopes, around.place) {
        Some(scope) => scope.number,
        None => around.file,
    }
}

/// Notes a fault.
fn take_fault(binder: &mut Binder, fault: NameFault)
    ensures { Turns binder.old binder.new (with_fault fault) }
{
    binder.fault = earlier(binder.fault, fault);
}

/// Notes a function among the meanings of uses.
fn note_function(
    functions: &mut BTreeSet<u32>,
    node: u32,
    is_function: bool,
) -> Result<(), OutOfMemory>
    ensures { OnOk result
        ((list : List ℕ) → spec.HasAll functions.old list → spec.HasAll functions.new (spec.with_function node is_function list)) }
{
    if is_function {
        functions.insert(node)?;
    }
    Ok(())
}

/// A use of an ordinary name.
fn take_use(
    binder: &mut Binder,
    node: u32,
    is_exempt: bool,
    found: Option<Found>,
) -> Result<(), OutOfMemory>
    ensures { IfOk result (λ done. (d : Option Declared) → found ≡ found_of d → Turns binder.old binder.new (after_use node is_exempt d)) }
{
    match found {
        None => {
            if !is_exempt {
                take_fault(binder, NameFault::Undeclared(node));
            }
            Ok(())
        }
        Some(found) => {
            binder.uses.push((node, found.node))?;
            note_function(&mut binder.functions, node, found.is_function)
        }
    }
}

/// A declaration of a tag in a scope.
fn declare_tag(binder: &mut Binder, node: u32, symbol: u32, scope: u32) -> Result<(), OutOfMemory>
    ensures { IfOk result (λ done. Turns binder.old binder.new (known.with_tag (tag_declared node symbol scope))) }
{
    let entry = Entry {
        node,
        kind: Kind::Plain,
        is_function: false,
    };
    declare(&mut binder.tags, scope, symbol, entry)?;
    binder.tagged.push(declared_by(scope, symbol, entry))?;
    Ok(())
}

/// A use of a tag by the node of its declaration.
fn pair_use(binder: &mut Binder, node: u32, declaration: u32) -> Result<(), OutOfMemory>
    ensures { IfOk result (λ done. Turns binder.old binder.new (known.with_use node declaration)) }
{
    binder.uses.push((node, declaration))?;
    Ok(())
}

/// A use of a tag that must be declared.
fn take_tag_use(binder: &mut Binder, node: u32, found: Option<Found>) -> Result<(), OutOfMemory>
    ensures { IfOk result (λ done. (d : Option Declared) → found ≡ found_of d → Turns binder.old binder.new (known.after_tag_use node d)) }
{
    match found {
        None => {
            take_fault(binder, NameFault::Undeclared(node));
            Ok(())
        }
        Some(found) => pair_use(binder, node, found.node),
    }
}

/// A use of a tag that declares it in a scope where none is visible.
fn take_tag_reference(
    binder: &mut Binder,
    node: u32,
    symbol: u32,
    scope: u32,
    found: Option<Found>,
) -> Result<(), OutOfMemory>
    ensures { IfOk result
        (λ done. (d : Option Declared) → found ≡ found_of d
        → Turns binder.old binder.new (known.after_tag_reference node (tag_declared node symbol scope) d)) }
{
    match found {
        None => declare_tag(binder, node, symbol, scope),
        Some(found) => pair_use(binder, node, found.node),
    }
}

/// The name of a structure, union or enumeration specifier.
fn take_tag(
    binder: &mut Binder,
    around: Around,
    node: u32,
    symbol: u32,
    how: TagUse,
) -> Result<(), OutOfMemory>
    ensures { IfOk result
        (λ done. (chain : List ℕ) → IsChain around.entry.scopes.now around.entry.place chain
        → Turns binder.old binder.new (after_tag around.entry.file node symbol chain how)) }
{
    match how {
        TagUse::Declares => declare_tag(binder, node, symbol, scope_number(around)),
        TagUse::Refers => {
            let found = meaning(&binder.tags, around.scopes, around.place, symbol);
            take_tag_reference(binder, node, symbol, scope_number(around), found)
        }
        TagUse::Uses => {
            let found = meaning(&binder.tags, around.scopes, around.place, symbol);
            take_tag_use(binder, node, found)
        }
    }
}

/// A label by the first one of its symbol in its function's body.
fn take_label(binder: &mut Binder, node: u32, first: Option<u32>)
    ensures { Turns binder.old binder.new (after_label node first) }
{
    if first != Some(node) {
        take_fault(binder, NameFault::Redeclared(node));
    }
}

/// A goto by the first label of its symbol in its function's body.
fn take_goto(binder: &mut Binder, node: u32, first: Option<u32>) -> Result<(), OutOfMemory>
    ensures { IfOk result (λ done. Turns binder.old binder.new (after_goto node first)) }
{
    match first {
        None => {
            take_fault(binder, NameFault::Undeclared(node));
            Ok(())
        }
        Some(label) => {
            binder.labels.push((node, label))?;
            Ok(())
        }
    }
}

/// A declaration of an ordinary name.
fn take_declaration(
    binder: &mut Binder,
    scope: u32,
    symbol: u32,
    entry: Entry,
) -> Result<(), OutOfMemory>
    ensures { IfOk result (λ done. Turns binder.old binder.new (after_declaration (declared_at scope symbol entry))) }
{
    let is_redeclared = declare(&mut binder.names, scope, symbol, entry)?;
    binder.declared.push(declared_by(scope, symbol, entry))?;
    if is_redeclared {
        take_fault(binder, NameFault::Redeclared(entry.node));
    }
    Ok(())
}

/// What the declarator or the enumerator of a name declares.
fn take_name(
    binder: &mut Binder,
    around: Around,
    leaf: u32,
    symbol: u32,
    linkage: Linkage,
    derivation: Derivation,
    type_name: Option<u32>,
) -> Result<(), OutOfMemory>
    ensures { IfOk result
        (λ done. (chain : List ℕ) → IsChain around.entry.scopes.now around.entry.place chain
        → Turns binder.old binder.new (known.after_name around.entry.file leaf symbol linkage derivation type_name chain)) }
{
    let scope = scope_number(around);
    let is_function = declares_function(&binder.functions, derivation, type_name);
    let kind = kind_of(linkage, scope == around.file, is_function);
    let entry = Entry {
        node: leaf,
        kind,
        is_function,
    };
    take_declaration(binder, scope, symbol, entry)
}

/// What a node does to names.
pub(crate) fn take(
    binder: &mut Binder,
    labels: &Labels,
    around: Around,
    body: u32,
    node: u32,
    mention: Mention,
) -> Result<(), OutOfMemory>
    ensures { IfOk result (λ done. (chain : List ℕ) → IsChain around.entry.scopes.now around.entry.place chain
        → Turns binder.old binder.new (after around.entry.file (label_at labels.now) node chain body mention)) }
{
    match mention {
        Mention::Nothing => Ok(()),
        Mention::Use { symbol, is_exempt } => {
            let found = meaning(&binder.names, around.scopes, around.place, symbol);
            take_use(binder, node, is_exempt, found)
        }
        Mention::Tag { symbol, how } => take_tag(binder, around, node, symbol, how),
        Mention::Label { symbol } => {
            take_label(binder, node, label_at(labels, body, symbol));
            Ok(())
        }
        Mention::Goto { symbol } => take_goto(binder, node, label_at(labels, body, symbol)),
        Mention::Declares {
            leaf,
            symbol,
            linkage,
            derivation,
            type_name,
        } => take_name(binder, around, leaf, symbol, linkage, derivation, type_name),
    }
}
