//! The reader: it walks the table, and keeps the productions that are open in a list.
ghost use Rattle.c_grammar.specs.Notes.{noted, notes_after};
ghost use Rattle.c_grammar.specs.Productions.{p_expression, p_nothing, p_unary};
ghost use Rattle.c_grammar.specs.Reads.{Walks, Opens, fault_of, node_of, taken};
ghost use Rattle.c_grammar.specs.Refusals as refuse;
ghost use Rattle.c_grammar.specs.Table.{item_of};
ghost use Rattle.c_parser.specs.Leads as leads;
ghost use Rattle.c_parser.specs.Leads.{Leads, IsAdvanced, IsOpened, IsEntered, IsFaulty, IsTurned};
ghost use Rattle.c_parser.specs.Levels.{is_chained, is_run};
ghost use Rattle.c_parser.specs.Lone.{lone_taken};
ghost use Rattle.c_parser.specs.Parse.{state, Answers, Faults, Sees, fault_seen};
ghost use Rattle.std.specs.Prelude.{◌≡◌, ℕ, List, ◌+◌, ◌<◌, ◌≤◌, ◌^◌, length, map, [], ◌∷◌, ◌++◌, false, IfOk, OnOk, Some};
ghost use Rattle.std.specs.Prelude.{None, MatchResult, true};

use crate::ParseFault;
use crate::levels::{Part, add_levels, is_chained, is_run, nested_within};
use crate::lone::{add_lone, is_lone};
use crate::parts::{is_nothing, is_word, passed};
use c_grammar::looks::{chosen, fits, makes_node, nests, refusal, refused_token};
use c_grammar::notes::Notes;
use c_grammar::productions::CAST;
use c_grammar::steps::step_scopes;
use c_grammar::terminals::{takes, terminal};
use c_grammar::{Children, Item, Scopes, SyntaxNode, Tree, item};
use c_lexer::{Token, Tokens};
use pta_base::OutOfMemory;
use std::alloc::Global;

/// What the parser reads from.
#[derive(Clone, Copy)]
struct Input<'a> {
    alloc: Global,
    text: &'a [u8],
    tokens: &'a [Token],
}

/// Of a production that is being read: its children so far, and what it has noted.
#[derive(Drop)]
struct Own {
    children: Vec<u32>,
    notes: Notes,
}

/// The next token, with its terminal and that of the token behind it.
#[derive(Clone, Copy)]
struct Ahead {
    place: usize,
    first: u32,
    second: u32,
}

/// A production that is being read: the place in its row, its first token, how many constructs that nest are open within it, and,
/// where it makes a node, what its user has of its own. It stands for the levels of expressions from `outermost` to it, where that
/// is another one: each is used by the one before as its first part, and has nothing of its own yet.
#[derive(Drop)]
struct Frame {
    production: u32,
    outermost: u32,
    at: u32,
    token: u32,
    depth: u32,
    outer: Option<Own>,
}

/// How far reading has come: the next token, what the innermost open production has of its own, that production, and those that
/// use it, from the outermost on.
#[derive(Drop)]
struct Progress {
    ahead: Ahead,
    own: Own,
    top: Frame,
    users: Vec<Frame>,
}

/// The most constructs that may be open at a token.
const MOST_NESTED: u32 = 256;

/// The production of a leaf.
const LEAF: u32 = u32::MAX;

/// Looks at the token at a place and at the one behind it.
fn look(input: Input, scopes: &Scopes, place: usize) -> Ahead
    requires { place < 2 ^ 32 }
    ensures place { result.place ≡ place }
    ensures sees { Sees input.entry.text.now input.entry.tokens.now scopes.now result }
{
    Ahead {
        place,
        first: terminal(input.text, input.tokens, scopes, place),
        second: terminal(input.text, input.tokens, scopes, place + 1),
    }
}

/// The fault where no item takes a token.
fn misfit(first: u32, place: usize) -> ParseFault
    requires { place < 2 ^ 32 }
    ensures { fault_seen result ≡ Some (fault_of (refuse.refused_token first) place) }
{
    match refused_token(first) {
        Some(kind) => ParseFault::Unsupported(kind, place as u32),
        None => ParseFault::Malformed(place as u32),
    }
}

/// Adds a node, and makes it the last child.
fn add_node(
    nodes: &mut Vec<SyntaxNode>,
    children: &mut Vec<u32>,
    node: SyntaxNode,
) -> Result<(), OutOfMemory>
    ensures { OnOk result ((map node_of nodes.new.items ≡ map node_of nodes.old.items ++ node_of node ∷ [])
        × (children.new.items ≡ children.old.items ++ length nodes.old.items ∷ [])) }
{
    let Ok(number) = u32::try_from(nodes.len()) else {
        return Err(OutOfMemory);
    };
    children.push(number)?;
    nodes.push(node)?;
    Ok(())
}

/// Takes the next token as a leaf of the innermost production, or of a part of its row that makes no node.
fn take_token(
    input: Input,
    progress: &mut Progress,
    scopes: &Scopes,
    nodes: &mut Vec<SyntaxNode>,
    row: u32,
) -> Result<(), OutOfMemory>
    requires place { progress.old.ahead.place < 2 ^ 32 }
    requires sees { Sees input.text.now input.tokens.now scopes.now progress.old.ahead }
    ensures place { OnOk result (progress.new.ahead.place ≡ progress.old.ahead.place + 1) }
    ensures sees { OnOk result (Sees input.entry.text.now input.entry.tokens.now scopes.now progress.new.ahead) }
    ensures takes { OnOk result (state (progress.old.ahead.place + 1) scopes.now nodes.new.items progress.new.own
        ≡ taken input.entry.text.now input.entry.tokens.now row
        (state progress.old.ahead.place scopes.now nodes.old.items progress.old.own)) }
    ensures top { OnOk result (progress.new.top ≡ progress.old.top) }
    ensures users { OnOk result (progress.new.users ≡ progress.old.users) }
{
    let ahead = progress.ahead;
    let token = ahead.place as u32;
    let leaf = SyntaxNode {
        production: LEAF,
        token,
        children: Children::none(),
    };
    add_node(nodes, &mut progress.own.children, leaf)?;
    progress.own.notes.token(row, token, ahead.first);
    progress.ahead = Ahead {
        place: ahead.place + 1,
        first: ahead.second,
        second: terminal(input.text, input.tokens, scopes, ahead.place + 2),
    };
    Ok(())
}

/// Takes the next token, an operand that stands alone, with its nodes up to a level of expressions.
fn take_lone(
    input: Input,
    progress: &mut Progress,
    scopes: &Scopes,
    nodes: &mut Vec<SyntaxNode>,
    production: u32,
) -> Result<(), OutOfMemory>
    requires place { progress.old.ahead.place < 2 ^ 32 }
    requires sees { Sees input.text.now input.tokens.now scopes.now progress.old.ahead }
    requires from { p_expression ≤ production }
    requires to { production ≤ p_unary }
    ensures place { OnOk result (progress.new.ahead.place ≡ progress.old.ahead.place + 1) }
    ensures sees { OnOk result (Sees input.entry.text.now input.entry.tokens.now scopes.now progress.new.ahead) }
    ensures takes { OnOk result (state (progress.old.ahead.place + 1) scopes.now nodes.new.items progress.new.own
        ≡ lone_taken production (state progress.old.ahead.place scopes.now nodes.old.items progress.old.own)) }
    ensures top { OnOk result (progress.new.top ≡ progress.old.top) }
    ensures users { OnOk result (progress.new.users ≡ progress.old.users) }
{
    let ahead = progress.ahead;
    let last = add_lone(nodes, production, ahead.place as u32)?;
    progress.own.children.push(last)?;
    progress.ahead = Ahead {
        place: ahead.place + 1,
        first: ahead.second,
        second: terminal(input.text, input.tokens, scopes, ahead.place + 2),
    };
    Ok(())
}

/// Makes the node of a production that has been read to its end.
fn make_node(
    production: u32,
    token: u32,
    inner: Own,
    nodes: &mut Vec<SyntaxNode>,
    own: &mut Own,
) -> Result<(), OutOfMemory>
    ensures node { OnOk result (map node_of nodes.new.items
        ≡ map node_of nodes.old.items ++ (record { production = production; token = token; children = inner.children.items }) ∷ []) }
    ensures child { OnOk result (own.new.children.items ≡ own.old.children.items ++ length nodes.old.items ∷ []) }
    ensures notes { OnOk result (noted own.new.notes ≡ notes_after production (noted inner.notes) (noted own.old.notes)) }
{
    let alloc = *inner.children.allocator();
    let children = Children::of(alloc, inner.children)?;
    let node = SyntaxNode {
        production,
        token,
        children,
    };
    add_node(nodes, &mut own.children, node)?;
    own.notes.after(production, inner.notes)
}

/// Makes the node of a production that has been read to its end, if it makes one; then its user has its own again.
fn finish(
    production: u32,
    token: u32,
    outer: Option<Own>,
    own: &mut Own,
    nodes: &mut Vec<SyntaxNode>,
) -> Result<(), OutOfMemory>
    ensures { OnOk result
        ((place : ℕ) (scopes : leads.Names)
        → state place scopes nodes.new.items own.new
        ≡ leads.ended_by production token (leads.kept outer) (state place scopes nodes.old.items own.old)) }
{
    let Some(outer) = outer else {
        return Ok(());
    };
    let inner = std::mem::replace(own, outer);
    make_node(production, token, inner, nodes, own)
}

/// Opens a production at a token, within `depth` open constructs.
fn open(
    input: Input,
    production: u32,
    ahead: Ahead,
    depth: u32,
    own: &mut Own,
) -> Result<Frame, ParseFault>
    requires { ahead.place < 2 ^ 32 }
    ensures { MatchResult result
        (λ frame. IsOpened input.entry.text.now input.entry.tokens.now production ahead depth own.old own.new frame)
        (λ fault. IsFaulty input.entry.text.now input.entry.tokens.now production ahead depth own.old fault) }
{
    let token = ahead.place as u32;
    let deeper = depth.saturating_add(nests(production));
    if deeper > MOST_NESTED {
        return Err(ParseFault::TooDeep(token));
    }
    if let Some(kind) = refusal(production, ahead.first, ahead.second) {
        return Err(ParseFault::Unsupported(kind, token));
    }
    let outer = if makes_node(production) {
        let inner = Own {
            children: Vec::new(input.alloc),
            notes: own.notes.begin(input.alloc, production),
        };
        Some(std::mem::replace(own, inner))
    } else {
        None
    };
    Ok(Frame {
        production,
        outermost: production,
        at: 0,
        token,
        depth: deeper,
        outer,
    })
}

/// Opens the levels of expressions from one down to a cast at a token, within `depth` open constructs.
fn open_levels(
    input: Input,
    outermost: u32,
    ahead: Ahead,
    depth: u32,
    own: &mut Own,
) -> Result<Frame, ParseFault>
    requires place { ahead.place < 2 ^ 32 }
    requires chained { is_chained outermost depth ≡ true }
    ensures { MatchResult result
        (λ frame. IsOpened input.entry.text.now input.entry.tokens.now outermost ahead depth own.old own.new frame)
        (λ fault. IsFaulty input.entry.text.now input.entry.tokens.now outermost ahead depth own.old fault) }
{
    let token = ahead.place as u32;
    if let Some(kind) = refusal(CAST, ahead.first, ahead.second) {
        return Err(ParseFault::Unsupported(kind, token));
    }
    let inner = Own {
        children: Vec::new(input.alloc),
        notes: Notes::new(input.alloc),
    };
    let outer = Some(std::mem::replace(own, inner));
    Ok(Frame {
        production: CAST,
        outermost,
        at: 0,
        token,
        depth: depth + nested_within(outermost),
        outer,
    })
}

/// Opens a production at a token, within `depth` open constructs; a level of expressions with the levels within it.
fn begin(
    input: Input,
    production: u32,
    ahead: Ahead,
    depth: u32,
    own: &mut Own,
) -> Result<Frame, ParseFault>
    requires { ahead.place < 2 ^ 32 }
    ensures { MatchResult result
        (λ frame. IsOpened input.entry.text.now input.entry.tokens.now production ahead depth own.old own.new frame)
        (λ fault. IsFaulty input.entry.text.now input.entry.tokens.now production ahead depth own.old fault) }
{
    if is_chained(production, depth) {
        return open_levels(input, production, ahead, depth, own);
    }
    open(input, production, ahead, depth, own)
}

/// Notes that a production uses another one.
fn add_user(users: &mut Vec<Frame>, user: Frame) -> Result<(), OutOfMemory>
    ensures { OnOk result (users.new.items ≡ users.old.items ++ user ∷ []) }
{
    users.push(user)?;
    Ok(())
}

/// Opens a production that the innermost one uses, which goes on at a place of its row behind it.
fn enter(input: Input, progress: &mut Progress, used: u32, on: u32) -> Result<(), ParseFault>
    requires { progress.old.ahead.place < 2 ^ 32 }
    ensures { MatchResult result
        (λ done. IsEntered input.entry.text.now input.entry.tokens.now used on progress.old progress.new)
        (λ fault. IsFaulty input.entry.text.now input.entry.tokens.now used progress.old.ahead progress.old.top.depth
        progress.old.own fault) }
{
    let frame = match begin(
        input,
        used,
        progress.ahead,
        progress.top.depth,
        &mut progress.own,
    ) {
        Ok(frame) => frame,
        Err(fault) => return Err(fault),
    };
    let mut user = std::mem::replace(&mut progress.top, frame);
    user.at = on;
    match add_user(&mut progress.users, user) {
        Ok(()) => Ok(()),
        Err(_) => Err(ParseFault::OutOfMemory),
    }
}

/// Reads a production that the innermost one uses, which goes on at a place of its row behind it: all at once where it is a level of
/// expressions that has an operand alone, or a part of a row with one token or none. Any other one is opened.
fn read(
    input: Input,
    progress: &mut Progress,
    scopes: &Scopes,
    nodes: &mut Vec<SyntaxNode>,
    used: u32,
    on: u32,
) -> Result<(), ParseFault>
    requires tokens { length input.tokens.now < 2 ^ 32 }
    requires within { progress.old.ahead.place ≤ length input.tokens.now }
    requires sees { Sees input.text.now input.tokens.now scopes.now progress.old.ahead }
    ensures goes { MatchResult result
        (λ done. IsAdvanced input.entry.text.now input.entry.tokens.now used on progress.old scopes.now nodes.old.items
        progress.new nodes.new.items)
        (λ fault. IsFaulty input.entry.text.now input.entry.tokens.now used progress.old.ahead progress.old.top.depth
        progress.old.own fault) }
    ensures within { OnOk result (progress.new.ahead.place ≤ length input.entry.tokens.now) }
    ensures sees { OnOk result (Sees input.entry.text.now input.entry.tokens.now scopes.now progress.new.ahead) }
{
    let ahead = progress.ahead;
    let depth = progress.top.depth;
    if is_lone(used, ahead.first, ahead.second, depth) {
        progress.top.at = on;
        return match take_lone(input, progress, scopes, nodes, used) {
            Ok(()) => Ok(()),
            Err(_) => Err(ParseFault::OutOfMemory),
        };
    }
    if is_word(used, ahead.first, ahead.second, depth) {
        progress.top.at = on;
        return match take_token(input, progress, scopes, nodes, used) {
            Ok(()) => Ok(()),
            Err(_) => Err(ParseFault::OutOfMemory),
        };
    }
    if is_nothing(used, ahead.first, ahead.second, depth) {
        progress.top.at = on;
        return Ok(());
    }
    enter(input, progress, used, on)
}

/// Reads a production that the innermost one uses, which goes on at a place of its row behind it; where its row has a choice alone,
/// what is chosen in the end.
fn advance(
    input: Input,
    progress: &mut Progress,
    scopes: &Scopes,
    nodes: &mut Vec<SyntaxNode>,
    used: u32,
    on: u32,
) -> Result<(), ParseFault>
    requires tokens { length input.tokens.now < 2 ^ 32 }
    requires within { progress.old.ahead.place ≤ length input.tokens.now }
    requires sees { Sees input.text.now input.tokens.now scopes.now progress.old.ahead }
    ensures goes { MatchResult result
        (λ done. IsAdvanced input.entry.text.now input.entry.tokens.now used on progress.old scopes.now nodes.old.items
        progress.new nodes.new.items)
        (λ fault. IsFaulty input.entry.text.now input.entry.tokens.now used progress.old.ahead progress.old.top.depth
        progress.old.own fault) }
    ensures within { OnOk result (progress.new.ahead.place ≤ length input.entry.tokens.now) }
    ensures sees { OnOk result (Sees input.entry.text.now input.entry.tokens.now scopes.now progress.new.ahead) }
{
    let ahead = progress.ahead;
    let depth = progress.top.depth;
    match passed(used, ahead.first, ahead.second, depth, &progress.own.notes) {
        Some(chosen) => read(input, progress, scopes, nodes, chosen, on),
        None => Err(misfit(ahead.first, ahead.place)),
    }
}

/// Adds a node, and answers its number.
fn push_node(nodes: &mut Vec<SyntaxNode>, node: SyntaxNode) -> Result<u32, OutOfMemory>
    ensures { IfOk result (λ number. (number ≡ length nodes.old.items)
        × (map node_of nodes.new.items ≡ map node_of nodes.old.items ++ node_of node ∷ [])) }
{
    let Ok(number) = u32::try_from(nodes.len()) else {
        return Err(OutOfMemory);
    };
    nodes.push(node)?;
    Ok(number)
}

/// Makes the node of a level that has been read to its end.
fn make_level(
    production: u32,
    token: u32,
    children: Vec<u32>,
    nodes: &mut Vec<SyntaxNode>,
) -> Result<u32, OutOfMemory>
    ensures { IfOk result (λ number. (number ≡ length nodes.old.items)
        × (map node_of nodes.new.items
        ≡ map node_of nodes.old.items ++ (record { production = production; token = token; children = children.items }) ∷ [])) }
{
    let alloc = *children.allocator();
    let children = Children::of(alloc, children)?;
    let node = SyntaxNode {
        production,
        token,
        children,
    };
    push_node(nodes, node)
}

/// Ends the innermost production, a level of expressions that is the first part of others. Those of them that end behind it are
/// ended too, and the innermost of the others goes on.
fn climb(progress: &mut Progress, nodes: &mut Vec<SyntaxNode>) -> Result<(), OutOfMemory>
    requires { is_run progress.old.top.outermost progress.old.top.production ≡ true }
    ensures place { OnOk result (progress.new.ahead ≡ progress.old.ahead) }
    ensures turns { OnOk result
        ((text : List ℕ) (tokens : List leads.Token) (scopes : leads.Names)
        → Sees text tokens scopes progress.old.ahead
        → item_of progress.old.top.production progress.old.top.at ≡ None
        → IsTurned text tokens true progress.old scopes nodes.old.items progress.new scopes nodes.new.items) }
{
    let alloc = *progress.own.children.allocator();
    let children = std::mem::replace(&mut progress.own.children, Vec::new(alloc));
    let production = progress.top.production;
    let token = progress.top.token;
    let number = make_level(production, token, children, nodes)?;
    let from = Part {
        level: production - 1,
        depth: progress.top.depth.saturating_sub(nests(production)),
        number,
    };
    let outermost = progress.top.outermost;
    let to = add_levels(nodes, from, outermost, token, progress.ahead.first)?;
    progress.own.children.push(to.number)?;
    progress.own.notes = Notes::new(alloc);
    progress.top.production = to.level;
    progress.top.at = 1;
    progress.top.depth = to.depth;
    Ok(())
}

/// Ends the innermost production, whose row has been read, and answers whether one that uses it goes on.
fn close(progress: &mut Progress, nodes: &mut Vec<SyntaxNode>) -> Result<bool, OutOfMemory>
    ensures place { OnOk result (progress.new.ahead ≡ progress.old.ahead) }
    ensures turns { IfOk result
        (λ goes. (text : List ℕ) (tokens : List leads.Token) (scopes : leads.Names)
        → Sees text tokens scopes progress.old.ahead
        → item_of progress.old.top.production progress.old.top.at ≡ None
        → IsTurned text tokens goes progress.old scopes nodes.old.items progress.new scopes nodes.new.items) }
{
    if is_run(progress.top.outermost, progress.top.production) {
        climb(progress, nodes)?;
        return Ok(true);
    }
    let outer = progress.top.outer.take();
    finish(
        progress.top.production,
        progress.top.token,
        outer,
        &mut progress.own,
        nodes,
    )?;
    match progress.users.pop() {
        Some(user) => {
            progress.top = user;
            Ok(true)
        }
        None => Ok(false),
    }
}

/// Reads one item of the innermost production, or one turn of a repetition.
fn step(
    input: Input,
    item: Item,
    progress: &mut Progress,
    scopes: &mut Scopes,
    nodes: &mut Vec<SyntaxNode>,
) -> Result<(), ParseFault>
    requires tokens { length input.tokens.now < 2 ^ 32 }
    requires within { progress.old.ahead.place ≤ length input.tokens.now }
    requires sees { Sees input.text.now input.tokens.now scopes.old progress.old.ahead }
    requires low { progress.old.top.at < 2 ^ 16 }
    requires stands { item_of progress.old.top.production progress.old.top.at ≡ Some item }
    ensures steps { MatchResult result
        (λ done. IsTurned input.entry.text.now input.entry.tokens.now true progress.old scopes.old nodes.old.items progress.new
        scopes.new nodes.new.items)
        (λ fault. Faults (Leads input.entry.text.now input.entry.tokens.now progress.old scopes.old nodes.old.items) fault) }
    ensures within { OnOk result (progress.new.ahead.place ≤ length input.entry.tokens.now) }
    ensures sees { OnOk result (Sees input.entry.text.now input.entry.tokens.now scopes.new progress.new.ahead) }
{
    let on = progress.top.at + 1;
    let ahead = progress.ahead;
    match item {
        Item::Token(kind) => {
            if !takes(progress.top.production, kind, ahead.first) {
                return Err(misfit(ahead.first, ahead.place));
            }
            progress.top.at = on;
            let row = progress.top.production;
            match take_token(input, progress, scopes, nodes, row) {
                Ok(()) => Ok(()),
                Err(_) => Err(ParseFault::OutOfMemory),
            }
        }
        Item::Use(used) => advance(input, progress, scopes, nodes, used, on),
        Item::Choice(one, other) => {
            match chosen(one, other, ahead.first, ahead.second, &progress.own.notes) {
                Some(used) => advance(input, progress, scopes, nodes, used, on),
                None => Err(misfit(ahead.first, ahead.place)),
            }
        }
        Item::Repeat(repeated) => {
            if fits(repeated, ahead.first, ahead.second, &progress.own.notes) {
                let at = progress.top.at;
                return advance(input, progress, scopes, nodes, repeated, at);
            }
            progress.top.at = on;
            Ok(())
        }
        Item::Scope(step) => {
            let row = progress.top.production;
            let notes = &mut progress.own.notes;
            match step_scopes(scopes, input.text, input.tokens, row, step, notes) {
                Ok(()) => {
                    progress.ahead = look(input, scopes, ahead.place);
                    progress.top.at = on;
                    Ok(())
                }
                Err(_) => Err(ParseFault::OutOfMemory),
            }
        }
    }
}

/// Reads one item of the innermost production or ends it, and answers whether reading goes on.
fn turn(
    input: Input,
    progress: &mut Progress,
    scopes: &mut Scopes,
    nodes: &mut Vec<SyntaxNode>,
) -> Result<bool, ParseFault>
    requires tokens { length input.tokens.now < 2 ^ 32 }
    requires within { progress.old.ahead.place ≤ length input.tokens.now }
    requires sees { Sees input.text.now input.tokens.now scopes.old progress.old.ahead }
    ensures turns { MatchResult result
        (λ goes. IsTurned input.entry.text.now input.entry.tokens.now goes progress.old scopes.old nodes.old.items progress.new
        scopes.new nodes.new.items)
        (λ fault. Faults (Leads input.entry.text.now input.entry.tokens.now progress.old scopes.old nodes.old.items) fault) }
    ensures within { OnOk result (progress.new.ahead.place ≤ length input.entry.tokens.now) }
    ensures sees { OnOk result (Sees input.entry.text.now input.entry.tokens.now scopes.new progress.new.ahead) }
{
    match item(progress.top.production, progress.top.at) {
        Some(item) => match step(input, item, progress, scopes, nodes) {
            Ok(()) => Ok(true),
            Err(fault) => Err(fault),
        },
        None => match close(progress, nodes) {
            Ok(goes) => Ok(goes),
            Err(_) => Err(ParseFault::OutOfMemory),
        },
    }
}

/// Reads a production that makes a node from the token `at` on, within `depth` open constructs, and answers the number of the
/// token behind it. The node is the last one of the tree. After a fault the scopes and the tree are only fit to be dropped.
/// Nothing recurses: the productions that are open stand in a list, as many as memory has room for.
pub fn read_production(
    alloc: Global,
    tokens: &Tokens,
    production: u32,
    at: usize,
    depth: u32,
    scopes: &mut Scopes,
    tree: &mut Tree,
) -> Result<usize, ParseFault>
    requires tokens { length tokens.now.list.items < 2 ^ 32 }
    requires within { at ≤ length tokens.now.list.items }
    requires nested { depth ≤ 256 }
    requires real { production < p_nothing }
    ensures { Answers production tokens.now at depth scopes.old tree.old result scopes.new tree.new }
{
    let input = Input {
        alloc,
        text: tokens.text,
        tokens: &tokens.list,
    };
    let mut own = Own {
        children: Vec::new(alloc),
        notes: Notes::new(alloc),
    };
    let ahead = look(input, scopes, at);
    let top = match open(input, production, ahead, depth, &mut own) {
        Ok(top) => top,
        Err(fault) => return Err(fault),
    };
    let mut progress = Progress {
        ahead,
        own,
        top,
        users: Vec::new(alloc),
    };
    'turns: for _ in 0..u64::MAX {
        match turn(input, &mut progress, scopes, &mut tree.nodes) {
            Ok(true) => {}
            Ok(false) => return Ok(progress.ahead.place),
            Err(fault) => return Err(fault),
        }
    }
    Err(ParseFault::OutOfMemory)
}
