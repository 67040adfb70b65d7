//! In which scopes each node stands.
ghost use Rattle.c_mentions.specs.Settings.{handed_down, with_scope};
ghost use Rattle.c_mentions.specs.Settings.{AreSettings, Extends, Hands, HandsDown, IsChain, Standing, Stands};
ghost use Rattle.c_mentions.specs.declared.settings.Setting.{Setting};
ghost use Rattle.c_mentions.specs.declared.roles.Role.TheVariants.{Elsewhere};
ghost use Rattle.c_mentions.specs.Kept.{Keeps, kind_at, with_role};
ghost use Rattle.c_mentions.specs.Syntax.{nodes_of};
ghost use Rattle.std.specs.Prelude.{true, ◌≡◌, ◌==◌, ◌<◌, ◌≤◌, ◌^◌, ℕ, List, length, slice_get, slice_index_or, replicate};
ghost use Rattle.std.specs.Prelude.{if◌then◌else◌, IfOk};

use crate::roles::{Handing, Role, handed, handing_of, is_body, opened};
use c_grammar::SyntaxNode;
use c_lexer::Token;
use pta_base::OutOfMemory;
use std::alloc::Global;
use std::marker::Model;

/// A scope: the number of the node that opens it, and its place in the list of scopes of what stands around it. The file's
/// scope comes first, and has the number of nodes as its number.
#[derive(Clone, Copy, Debug)]
pub struct Scope {
    pub number: u32,
    pub outer: u32,
}

/// Where a node stands: its scope by its place in the list of scopes, the body of the function around it or else the number of
/// nodes, and how it stands below its parent.
#[derive(Clone, Copy, Debug)]
pub struct Setting {
    pub scope: u32,
    pub body: u32,
    pub role: Role,
}

/// Where nodes stand, in order. Nodes that stand alike share what is said of them, and take a number each. Clauses see it as the list
/// of their settings.
#[derive(Drop)]
pub struct SettingList {
    kinds: Vec<Setting>,
    places: Vec<u32>,
}

impl Model for SettingList {
    ghost use Rattle.std.specs.Prelude.{List, map, All, ◌<◌, length};
    ghost use Rattle.c_mentions.specs.declared.settings.Setting.{Setting};
    ghost use Rattle.c_mentions.specs.Kept.{kind_at};

    ghost Value = { List Setting };

    ghost view = { λ l. map (kind_at l.kinds.items) l.places.items };

    ghost invariant = { λ l. All (λ place. place < length l.kinds.items) l.places.items };
}

/// The settings of all nodes.
#[derive(Drop)]
pub struct Settings {
    pub scopes: Vec<Scope>,
    pub list: SettingList,
}

/// A place as a number. More places than there are numbers count as want of memory.
pub fn place_of(place: usize) -> Result<u32, OutOfMemory>
    ensures { IfOk result (λ number. number ≡ place) }
{
    match u32::try_from(place) {
        Ok(number) => Ok(number),
        Err(_) => Err(OutOfMemory),
    }
}

/// Gives a number to a child of a node if it has a smaller number.
fn hand_one(places: &mut Vec<u32>, child: usize, node: usize, place: u32)
    requires { node ≤ length places.old.items }
    ensures count { length places.new.items ≡ length places.old.items }
    ensures before { (i d : ℕ)
        → i < node
        → slice_index_or places.new.items i d ≡ (if child == i then place else slice_index_or places.old.items i d) }
    ensures behind { (i d : ℕ) → node ≤ i → slice_index_or places.new.items i d ≡ slice_index_or places.old.items i d }
{
    if child < node {
        places[child] = place;
    }
}

/// Gives a number to those children of a node that have smaller numbers.
fn hand_all(places: &mut Vec<u32>, children: &[u32], node: usize, place: u32)
    requires { node ≤ length places.old.items }
    ensures { Hands children.now node place places.old.items places.new.items }
{
    for child in children {
        hand_one(places, *child as usize, node, place);
    }
}

/// So many zeros, in blocks.
#[inline(never)]
fn zeros(alloc: Global, count: usize) -> Result<Vec<u32>, OutOfMemory>
    ensures { IfOk result (λ list. list.items ≡ replicate count 0) }
{
    let block = [0u32; 1024];
    let mut list = Vec::with_capacity(alloc, count)?;
    let mut left = count;
    while left > 1024 {
        list.extend_from_slice(&block)?;
        left -= 1024;
    }
    list.extend_from_slice(&block[..left])?;
    Ok(list)
}

/// Whether two nodes stand alike below their parents, where they stand in expressions or types; of others that isn't asked.
fn is_same_role(a: Role, b: Role) -> bool
    ensures { result ≡ true → a ≡ b }
{
    match (a, b) {
        (Role::Elsewhere, Role::Elsewhere) => true,
        (Role::Name, Role::Name) => true,
        _ => false,
    }
}

/// Whether two settings are one for sure.
fn is_same(a: Setting, b: Setting) -> bool
    ensures { result ≡ true → a ≡ b }
{
    a.scope == b.scope && a.body == b.body && is_same_role(a.role, b.role)
}

/// The number of a setting: the one that is given, or the last one, where it is that setting's, or else a new one.
fn place_for(kinds: &mut Vec<Setting>, given: u32, setting: Setting) -> Result<u32, OutOfMemory>
    requires { given < length kinds.old.items }
    ensures place { IfOk result (λ place. (place < length kinds.new.items) × (kind_at kinds.new.items place ≡ setting)) }
    ensures keeps { Keeps kinds.old.items kinds.new.items }
{
    if is_same(kinds[given as usize], setting) {
        return Ok(given);
    }
    let place = place_of(kinds.len())?;
    if place > 0 && is_same(kinds[place as usize - 1], setting) {
        return Ok(place - 1);
    }
    kinds.push(setting)?;
    Ok(place)
}

impl SettingList {
    /// The setting of a node.
    pub fn at(&self, node: usize) -> Setting
        requires { node < length self.now }
        ensures { (d : Setting) → slice_index_or self.now node d ≡ result }
    {
        self.kinds[self.places[node] as usize]
    }

    /// The setting of a node, or none where there is no such node.
    pub fn get(&self, node: usize) -> Option<Setting>
        ensures { result ≡ slice_get self.now node }
    {
        if node < self.len() {
            Some(self.at(node))
        } else {
            None
        }
    }

    /// How many nodes have settings.
    pub fn len(&self) -> usize
        ensures { result ≡ length self.now }
    {
        self.places.len()
    }

    // So many nodes of one setting.
    fn alike(alloc: Global, setting: Setting, count: usize) -> Result<SettingList, OutOfMemory>
        ensures { IfOk result (λ list. list ≡ replicate count setting) }
    {
        let mut kinds = Vec::new(alloc);
        kinds.push(setting)?;
        let places = zeros(alloc, count)?;
        Ok(SettingList { kinds, places })
    }

    // Gives a setting to those children of a node that have smaller numbers.
    fn hand(&mut self, children: &[u32], node: usize, setting: Setting) -> Result<(), OutOfMemory>
        requires { node < length self.old }
        ensures { IfOk result (λ done. Hands children.now node setting self.old self.new) }
    {
        let place = place_for(&mut self.kinds, self.places[node], setting)?;
        hand_all(&mut self.places, children, node, place);
        Ok(())
    }

    // Whether a node stands elsewhere, so that nothing follows for a name.
    fn is_elsewhere(&self, node: usize) -> bool
        requires { node < length self.now }
        ensures { result ≡ true → (d : Setting) → (slice_index_or self.now node d).role ≡ Elsewhere }
    {
        match &self.kinds[self.places[node] as usize].role {
            Role::Elsewhere => true,
            _ => false,
        }
    }

    // Gives a node's own setting to those of its children that have smaller numbers.
    fn hand_same(&mut self, children: &[u32], node: usize)
        requires { node < length self.old }
        ensures { (d : Setting) → Hands children.now node (slice_index_or self.old node d) self.old self.new }
    {
        let place = self.places[node];
        hand_all(&mut self.places, children, node, place);
    }
}

/// The place of the scope of what stands in a node that opens a scope or doesn't.
fn scope_within(
    scopes: &mut Vec<Scope>,
    opened: Option<u32>,
    outer: u32,
) -> Result<u32, OutOfMemory>
    ensures chain { IfOk result
        (λ scope. (around : List ℕ) → IsChain scopes.old.items outer around
        → IsChain scopes.new.items scope (with_scope opened around)) }
    ensures extends { IfOk result (λ scope. Extends scopes.old.items scopes.new.items) }
{
    match opened {
        None => Ok(outer),
        Some(number) => {
            let scope = place_of(scopes.len())?;
            scopes.push(Scope { number, outer })?;
            Ok(scope)
        }
    }
}

/// The setting of the children of a node.
fn setting_within(
    tokens: &[Token],
    nodes: &[SyntaxNode],
    scopes: &mut Vec<Scope>,
    node: u32,
    setting: Setting,
) -> Result<Setting, OutOfMemory>
    ensures stands { IfOk result
        (λ within. (s : Standing) → Stands scopes.old.items setting s
        → Stands scopes.new.items within (handed_down tokens.now (nodes_of nodes.now) node s)) }
    ensures extends { IfOk result (λ within. Extends scopes.old.items scopes.new.items) }
{
    let role = setting.role;
    let scope = scope_within(scopes, opened(tokens, nodes, node, role), setting.scope)?;
    let body = if is_body(nodes, node, role) {
        node
    } else {
        setting.body
    };
    Ok(Setting {
        scope,
        body,
        role: handed(tokens, nodes, node, role),
    })
}

/// Hands down to those of a node's children that have smaller numbers where they stand, by a setting of their own.
#[inline(never)]
fn hand_within(
    tokens: &[Token],
    nodes: &[SyntaxNode],
    scopes: &mut Vec<Scope>,
    list: &mut SettingList,
    children: &[u32],
    node: u32,
) -> Result<(), OutOfMemory>
    requires { node < length list.old }
    ensures { IfOk result
        (λ done. (d : Setting)
        → HandsDown tokens.now (nodes_of nodes.now) scopes.old.items scopes.new.items children.now node
        (slice_index_or list.old node d) list.old list.new) }
{
    let place = node as usize;
    let within = setting_within(tokens, nodes, scopes, node, list.at(place))?;
    list.hand(children, place, within)
}

/// Gives a role to those of a node's children that have smaller numbers, and the node's own scope and body.
fn hand_role(
    list: &mut SettingList,
    children: &[u32],
    node: usize,
    role: Role,
) -> Result<(), OutOfMemory>
    requires { node < length list.old }
    ensures { IfOk result
        (λ done. (d : Setting) → Hands children.now node (with_role (slice_index_or list.old node d) role) list.old list.new) }
{
    let own = list.at(node);
    let within = Setting {
        scope: own.scope,
        body: own.body,
        role,
    };
    list.hand(children, node, within)
}

/// Hands down to those of a node's children that have smaller numbers where they stand. Most nodes stand in expressions, and their
/// children stand as they do.
fn hand_down(
    tokens: &[Token],
    nodes: &[SyntaxNode],
    scopes: &mut Vec<Scope>,
    list: &mut SettingList,
    children: &[u32],
    node: u32,
) -> Result<(), OutOfMemory>
    requires { node < length list.old }
    ensures { IfOk result
        (λ done. (d : Setting)
        → HandsDown tokens.now (nodes_of nodes.now) scopes.old.items scopes.new.items children.now node
        (slice_index_or list.old node d) list.old list.new) }
{
    let place = node as usize;
    match handing_of(nodes, node) {
        Handing::Elsewhere => {
            if list.is_elsewhere(place) {
                list.hand_same(children, place);
                Ok(())
            } else {
                hand_role(list, children, place, Role::Elsewhere)
            }
        }
        Handing::Name => hand_role(list, children, place, Role::Name),
        Handing::Else => hand_within(tokens, nodes, scopes, list, children, node),
    }
}

/// Where all nodes stand. A parent stands behind its children, so the nodes are gone through from the last one on.
pub fn settings_of(
    alloc: Global,
    tokens: &[Token],
    nodes: &[SyntaxNode],
) -> Result<Settings, OutOfMemory>
    requires { length nodes.now < 2 ^ 32 }
    ensures { IfOk result (AreSettings tokens.now (nodes_of nodes.now)) }
{
    let file = nodes.len() as u32;
    let mut scopes = Vec::new(alloc);
    scopes.push(Scope {
        number: file,
        outer: 0,
    })?;
    let outermost = Setting {
        scope: 0,
        body: file,
        role: Role::Elsewhere,
    };
    let mut list = SettingList::alike(alloc, outermost, nodes.len())?;
    let mut node = nodes.len();
    while node > 0 {
        node -= 1;
        let children = nodes[node].children.as_slice();
        if !children.is_empty() {
            hand_down(tokens, nodes, &mut scopes, &mut list, children, node as u32)?;
        }
    }
    Ok(Settings { scopes, list })
}
