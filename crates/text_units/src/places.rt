// Places in a text, and as they are printed.
ghost use Rattle.std.specs.Prelude.{◌≡◌, ◌+◌, ◌<◌, ◌^◌, ◌==◌, slice_index, if◌then◌else◌, IfOk};
ghost use Rattle.c_lexer.specs.Places.{line_of, column_of};
ghost use Rattle.text_units.specs.Answers.{place_text};
ghost use Rattle.c_mentions.specs.Syntax as syntax;
ghost use Rattle.c_mentions.specs.Syntax.{nodes_of};
ghost use Rattle.text_units.specs.Alone.{token_place};

use c_grammar::SyntaxNode;
use c_lexer::Token;
use itoa::Buffer;
use std::alloc::{AllocError, Global};

/// Whether a line feed stands at a place.
fn is_line_feed(text: &[u8], at: usize) -> bool
    ensures { result ≡ (slice_index text.now at == 10) }
{
    match text.get(at) {
        Some(byte) => *byte == b'\n',
        None => false,
    }
}

/// The line behind a byte.
fn line_after(line: u64, feed: bool) -> u64
    requires { line < 2 ^ 33 }
    ensures { result ≡ (if feed then line + 1 else line) }
{
    if feed { line + 1 } else { line }
}

/// The line of a byte, from 1.
pub fn line_of(text: &[u8], at: u32) -> u64
    ensures { result ≡ line_of text.now at }
{
    let mut line = 1u64;
    for number in 0..at as usize {
        line = line_after(line, is_line_feed(text, number));
    }
    line
}

/// The column behind a byte.
fn column_after(column: u64, feed: bool) -> u64
    requires { column < 2 ^ 33 }
    ensures { result ≡ (if feed then 1 else column + 1) }
{
    if feed { 1 } else { column + 1 }
}

/// The column of a byte, from 1.
pub fn column_of(text: &[u8], at: u32) -> u64
    ensures { result ≡ column_of text.now at }
{
    let mut column = 1u64;
    for number in 0..at as usize {
        column = column_after(column, is_line_feed(text, number));
    }
    column
}

/// A place, as it is printed.
pub fn place_text(alloc: Global, name: &str, line: u64, column: u64) -> Result<Vec<u8>, AllocError>
    ensures { IfOk result (λ text. text.items ≡ place_text name.now line column) }
{
    let mut buffer = Buffer::new();
    let mut text = Vec::from_slice(alloc, name.as_bytes())?;
    text.extend_from_slice(b":")?;
    text.extend_from_slice(buffer.format(line).as_bytes())?;
    text.extend_from_slice(b":")?;
    text.extend_from_slice(buffer.format(column).as_bytes())?;
    Ok(text)
}

/// The place of a token, by its number.
pub(crate) fn token_place(
    alloc: Global,
    name: &str,
    list: &[Token],
    number: u32,
) -> Result<Vec<u8>, AllocError>
    ensures { IfOk result (λ text. text.items ≡ token_place name.now list.now number) }
{
    match list.get(number as usize) {
        Some(token) => place_text(alloc, name, u64::from(token.line), u64::from(token.column)),
        None => Vec::from_slice(alloc, name.as_bytes()),
    }
}

/// The number of the first token of a node.
fn token_at(nodes: &[SyntaxNode], node: u32) -> u32
    ensures { result ≡ syntax.token_at (nodes_of nodes.now) node }
{
    match nodes.get(node as usize) {
        Some(node) => node.token,
        None => 0,
    }
}

/// The place of a node, by its number.
pub(crate) fn node_place(
    alloc: Global,
    name: &str,
    list: &[Token],
    nodes: &[SyntaxNode],
    node: u32,
) -> Result<Vec<u8>, AllocError>
    ensures { IfOk result (λ text. text.items ≡ token_place name.now list.now (syntax.token_at (nodes_of nodes.now) node)) }
{
    token_place(alloc, name, list, token_at(nodes, node))
}
