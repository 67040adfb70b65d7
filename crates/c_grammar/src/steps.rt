//! The steps of scopes that the table asks for.
ghost use Rattle.c_grammar.specs.Log.{seen, seen_all};
ghost use Rattle.c_grammar.specs.Names.{all_declared, closing, declared, left};
ghost use Rattle.c_grammar.specs.Notes.{noted, notes_step};
ghost use Rattle.c_grammar.specs.Reads.{name_at, named, names_of, stepped};
ghost use Rattle.std.specs.Prelude.{◌≡◌, slice_get, OnOk};

use crate::notes::Notes;
use crate::productions::{BODY, LIST_SUFFIX};
use crate::scopes::{Declared, Scopes};
use crate::terminals::spelled;
use c_lexer::Token;
use pta_base::OutOfMemory;

/// The name that a token spells, or none behind the last token.
fn name_of<'a>(text: &'a [u8], tokens: &[Token], token: u32) -> &'a [u8]
    ensures { result.now ≡ name_at text.now (slice_get tokens.now token) }
{
    match tokens.get(token as usize) {
        Some(token) => spelled(text, *token),
        None => &[],
    }
}

/// Declares the name of a token, if there is one.
fn declare_name(
    scopes: &mut Scopes,
    text: &[u8],
    tokens: &[Token],
    name: Option<u32>,
    is_type: bool,
) -> Result<(), OutOfMemory>
    ensures { OnOk result (scopes.new ≡ all_declared scopes.old (named text.now tokens.now name is_type)) }
{
    match name {
        Some(token) => scopes.declare(name_of(text, tokens, token), is_type),
        None => Ok(()),
    }
}

/// Declares anew what a scope declared, in its order.
fn declare_all(scopes: &mut Scopes, scope: &[Declared]) -> Result<(), OutOfMemory>
    ensures { OnOk result (scopes.new ≡ all_declared scopes.old (seen_all scope.now)) }
{
    for declared in scope {
        scopes.declare(declared.name(), declared.is_type())?;
    }
    Ok(())
}

/// Declares what a row declares.
#[tactic(auto, unfolding(crate::specs::Reads::names_of))]
fn declare_read(
    scopes: &mut Scopes,
    text: &[u8],
    tokens: &[Token],
    row: u32,
    notes: &Notes,
) -> Result<(), OutOfMemory>
    ensures { OnOk result (scopes.new ≡ all_declared scopes.old (names_of text.now tokens.now row (noted notes.now))) }
{
    if row == BODY {
        declare_all(scopes, &notes.parameters)
    } else {
        declare_name(scopes, text, tokens, notes.name, notes.typedef_seen)
    }
}

/// Closes a scope; a parameter list keeps what it has declared.
#[tactic(auto, unfolding(crate::specs::Notes::notes_step))]
fn close(scopes: &mut Scopes, row: u32, notes: &mut Notes)
    ensures scopes { scopes.new ≡ left scopes.old }
    ensures notes { noted notes.new ≡ notes_step row 1 scopes.old (noted notes.old) }
{
    let scope = scopes.leave();
    if row == LIST_SUFFIX {
        notes.parameters = scope;
    }
}

/// Opens a scope (0), closes one (1), or declares what the row declares (2).
#[tactic(auto, unfolding(crate::specs::Reads::stepped, crate::specs::Notes::notes_step))]
pub fn step_scopes(
    scopes: &mut Scopes,
    text: &[u8],
    tokens: &[Token],
    row: u32,
    step: u8,
    notes: &mut Notes,
) -> Result<(), OutOfMemory>
    ensures scopes { OnOk result (scopes.new ≡ stepped text.now tokens.now row step scopes.old (noted notes.old)) }
    ensures notes { OnOk result (noted notes.new ≡ notes_step row step scopes.old (noted notes.old)) }
{
    match step {
        0 => scopes.enter(),
        1 => {
            close(scopes, row, notes);
            Ok(())
        }
        _ => declare_read(scopes, text, tokens, row, notes),
    }
}
