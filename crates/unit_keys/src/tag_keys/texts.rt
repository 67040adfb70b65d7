// The texts of keys.
#![tactic(auto)]

ghost use Rattle.std.specs.Prelude.{◌≡◌, ◌++◌, codes, decimal, ℕ, List, IfOk};
ghost use Rattle.c_senses.specs.Tree.{spelling_at};
ghost use Rattle.c_senses.specs.Keys as keys;
ghost use Rattle.tree_reads.specs.Sources.{source_in, source_read};

use pta_base::{OutOfMemory, Text};
use std::alloc::Global;
use std::str::from_utf8;
use tree_reads::{Syntax, Test, any_where, children_of, spelling_of};

const WORD_UNION: u8 = 29;

// The first word of a key.
fn word_of_key(syntax: &Syntax, node: u32) -> &'static str
    ensures { (uses : List (ℕ × ℕ)) → result.now ≡ keys.word_of_key (source_in syntax.now uses) node }
{
    if any_where(syntax, Test::Word(WORD_UNION), children_of(syntax, node)) {
        "union "
    } else {
        "struct "
    }
}

// The text of a leaf. One that is no text counts as want of memory: names are letters of ASCII.
fn text_of<'a>(syntax: &Syntax<'a>, leaf: u32) -> Result<&'a str, OutOfMemory>
    ensures { IfOk result (λ text. text.now ≡ spelling_at (source_read syntax.now) leaf) }
{
    match from_utf8(spelling_of(syntax, leaf)) {
        Ok(text) => Ok(text),
        Err(_) => Err(OutOfMemory),
    }
}

/// A key by the name of a specifier's tag. Only memory may want; a name that is no text counts as that too.
pub fn tagged_key(alloc: Global, syntax: &Syntax, node: u32, leaf: u32) -> Result<Text, OutOfMemory>
    ensures { IfOk result (λ key. (uses : List (ℕ × ℕ)) →
        let s = source_in syntax.now uses in key ≡ keys.word_of_key s node ++ spelling_at s leaf) }
{
    let word = word_of_key(syntax, node);
    let name = text_of(syntax, leaf)?;
    Ok(Text::of(format!(in alloc; "{word}{name}")?))
}

/// A key by a name that is declared with a specifier; it fails like `tagged_key`.
pub fn named_key(alloc: Global, syntax: &Syntax, node: u32, leaf: u32) -> Result<Text, OutOfMemory>
    ensures { IfOk result (λ key. (uses : List (ℕ × ℕ)) →
        let s = source_in syntax.now uses in key ≡ keys.word_of_key s node ++ (codes ":" ++ spelling_at s leaf)) }
{
    let word = word_of_key(syntax, node);
    let name = text_of(syntax, leaf)?;
    Ok(Text::of(format!(in alloc; "{word}:{name}")?))
}

/// A key by that of the structure around a specifier and the position there.
pub fn member_key(
    alloc: Global,
    syntax: &Syntax,
    node: u32,
    around: &str,
    position: u32,
) -> Result<Text, OutOfMemory>
    ensures { IfOk result (λ key. (uses : List (ℕ × ℕ)) →
        key ≡ keys.word_of_key (source_in syntax.now uses) node ++ (around.now ++ (codes ":" ++ decimal position))) }
{
    let word = word_of_key(syntax, node);
    Ok(Text::of(format!(in alloc; "{word}{around}:{position}")?))
}
