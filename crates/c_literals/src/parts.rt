//! Parts of a literal's bytes.
ghost use Rattle.std.specs.Prelude.{◌≡◌, drop, slice_index};
ghost use Rattle.c_senses.specs.Literals as spec;

/// The byte at an index, or 0 behind the end.
pub fn byte_at(run: &[u8], at: usize) -> u8
    ensures { result ≡ slice_index run.now at }
{
    if at < run.len() { run[at] } else { 0 }
}

/// What stands behind the first bytes.
pub fn behind_first(run: &[u8], count: usize) -> &[u8]
    ensures { result.now ≡ drop count run.now }
{
    if count < run.len() {
        &run[count..]
    } else {
        &[]
    }
}

/// How many bytes stand before the first quote.
fn prefix_length(quote: u8, literal: &[u8]) -> usize
    ensures { result ≡ spec.prefix_length quote literal.now }
{
    literal.iter().take_while(|byte| **byte != quote).count()
}

/// What stands between the first quote, behind a prefix, and the last byte.
pub fn between_quotes(quote: u8, literal: &[u8]) -> &[u8]
    ensures { result.now ≡ spec.between_quotes quote literal.now }
{
    let from_quote = behind_first(literal, prefix_length(quote, literal));
    let behind = behind_first(from_quote, 1);
    &behind[..behind.len().saturating_sub(1)]
}
