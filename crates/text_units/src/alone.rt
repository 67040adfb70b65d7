// The tokens, the syntax and the names of a unit alone.
ghost use Rattle.std.specs.Prelude.{◌≡◌, ◌+◌, ◌++◌, IfOk, IfErr, codes};
ghost use Rattle.pta_base.specs.Kind.{name_of};
ghost use Rattle.c_mentions.specs.Syntax.{nodes_of};
ghost use Rattle.c_lexer.specs.declared.LexFault.TheVariants.{OutOfMemory};
ghost use Rattle.text_units.specs.Answers.{refusal};
ghost use Rattle.text_units.specs.Alone.{malformed_at, token_place};
ghost use Rattle.text_units.specs.Lowered.{IsParsed};
ghost use Rattle.c_scope.specs.Resolves.{IsBound};
ghost use Rattle.text_units.specs.Faults.{fault_of, IsFaultAlone, IsLexical, IsNominal, IsSyntactic};

use crate::fault::UnitsFault;
use crate::places::{column_of, line_of, node_place, place_text, token_place};
use c_grammar::{SyntaxNode, Tree};
use c_lexer::lexer::tokens;
use c_lexer::{LexFault, Token, Tokens};
use c_parser::ParseFault;
use c_parser::c_units::parse_unit;
use c_scope::{Bound, NameFault, resolve};
use pta_base::{Kind, Listing};
use std::alloc::{AllocError, Global};

/// The refusal of a text that is no C11, or of words that are no numbers, at a place as it is printed.
pub fn malformed(place: Vec<u8>) -> Result<UnitsFault, AllocError>
    ensures { IfOk result (λ fault. fault ≡ fault_of (malformed_at place.items)) }
{
    let mut line = place;
    line.extend_from_slice(b": malformed")?;
    line.extend_from_slice(b"\n")?;
    Ok(UnitsFault::Refused {
        status: 3,
        line: Listing::of(line),
    })
}

/// The refusal of a construct that isn't accepted, at a place.
pub(crate) fn not_accepted(place: Vec<u8>, kind: Kind) -> Result<UnitsFault, AllocError>
    ensures { IfOk result (λ fault. fault ≡ fault_of (refusal 4 (place.items ++ codes ": not accepted " ++ name_of kind))) }
{
    let mut line = place;
    line.extend_from_slice(b": not accepted ")?;
    line.extend_from_slice(kind.name().as_bytes())?;
    line.extend_from_slice(b"\n")?;
    Ok(UnitsFault::Refused {
        status: 4,
        line: Listing::of(line),
    })
}

/// The refusal of the 257th of the constructs that nest, at a place.
fn too_deep(place: Vec<u8>) -> Result<UnitsFault, AllocError>
    ensures { IfOk result (λ fault. fault ≡ fault_of (refusal 6 (place.items ++ codes ": too deep 257"))) }
{
    let mut line = place;
    line.extend_from_slice(b": too deep 257")?;
    line.extend_from_slice(b"\n")?;
    Ok(UnitsFault::Refused {
        status: 6,
        line: Listing::of(line),
    })
}

/// The refusal of a text of more than 2^24 bytes, by its name.
pub fn too_large(alloc: Global, name: &str) -> Result<UnitsFault, AllocError>
    ensures { IfOk result (λ fault. fault ≡ fault_of (refusal 6 (name.now ++ codes ": too large text 16777217"))) }
{
    let mut line = Vec::from_slice(alloc, name.as_bytes())?;
    line.extend_from_slice(b": too large text 16777217")?;
    line.extend_from_slice(b"\n")?;
    Ok(UnitsFault::Refused {
        status: 6,
        line: Listing::of(line),
    })
}

/// The refusal for a lexical fault.
fn lexical(
    alloc: Global,
    name: &str,
    text: &[u8],
    fault: LexFault,
) -> Result<UnitsFault, AllocError>
    ensures { IfOk result (IsLexical (name.now, text.now) fault) }
{
    match fault {
        LexFault::BadByte(at) | LexFault::Unended(at) | LexFault::BadNumber(at) => {
            malformed(place_text(alloc, name, line_of(text, at), column_of(text, at))?)
        }
        LexFault::TooLong => too_large(alloc, name),
        LexFault::OutOfMemory => Ok(UnitsFault::Memory),
    }
}

/// The refusal for a fault of syntax.
fn syntactic(
    alloc: Global,
    name: &str,
    list: &[Token],
    fault: ParseFault,
) -> Result<UnitsFault, AllocError>
    ensures { IfOk result (IsSyntactic name.now list.now fault) }
{
    match fault {
        ParseFault::Malformed(number) => malformed(token_place(alloc, name, list, number)?),
        ParseFault::Unsupported(kind, number) => not_accepted(
            token_place(alloc, name, list, number)?,
            kind,
        ),
        ParseFault::TooDeep(number) => too_deep(token_place(alloc, name, list, number)?),
        ParseFault::OutOfMemory => Ok(UnitsFault::Memory),
    }
}

/// The refusal for a fault of names.
fn nominal(
    alloc: Global,
    name: &str,
    list: &[Token],
    nodes: &[SyntaxNode],
    fault: NameFault,
) -> Result<UnitsFault, AllocError>
    ensures { IfOk result (IsNominal name.now list.now (nodes_of nodes.now) fault) }
{
    match fault {
        NameFault::Undeclared(node) => not_accepted(
            node_place(alloc, name, list, nodes, node)?,
            Kind::Undeclared,
        ),
        NameFault::Redeclared(node) => not_accepted(
            node_place(alloc, name, list, nodes, node)?,
            Kind::Redeclared,
        ),
        NameFault::OutOfMemory => Ok(UnitsFault::Memory),
    }
}

/// What was read of a unit alone: its tokens, its tree, and what its names mean.
#[derive(Drop)]
pub(crate) struct Read<'a> {
    pub(crate) tokens: Tokens<'a>,
    pub(crate) tree: Tree,
    pub(crate) bound: Bound,
}

/// What is read of a unit of that number whose syntax and names are right, or the fault that refuses it alone.
pub(crate) fn read_alone<'a>(
    alloc: Global,
    number: u32,
    name: &str,
    text: &'a [u8],
) -> Result<Read<'a>, UnitsFault>
    ensures parsed { IfOk result (λ read. IsParsed number (name.now, text.now) read.tokens read.tree) }
    ensures bound { IfOk result (λ read. IsBound read.tokens read.tree read.bound) }
    ensures refused { IfErr result (IsFaultAlone (name.now, text.now)) }
{
    let tokens = match tokens(alloc, text) {
        Ok(tokens) => tokens,
        Err(fault) => return Err(lexical(alloc, name, text, fault)?),
    };
    let tree = match parse_unit(alloc, &tokens, number) {
        Ok(tree) => tree,
        Err(fault) => return Err(syntactic(alloc, name, tokens.list.as_slice(), fault)?),
    };
    match resolve(alloc, &tokens, &tree) {
        Ok(bound) => Ok(Read {
            tokens,
            tree,
            bound,
        }),
        Err(fault) => Err(nominal(
            alloc,
            name,
            tokens.list.as_slice(),
            tree.nodes.as_slice(),
            fault,
        )?),
    }
}
