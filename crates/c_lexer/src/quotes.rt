//! Literals between quotes (C11 6.4.4.4, 6.4.5).
ghost use Rattle.c_lexer.specs.Quotes as spec;
ghost use Rattle.c_lexer.specs.Quotes.{Closed, Opens};
ghost use Rattle.std.specs.Prelude.{◌≡◌, ℕ, ◌+◌, ◌<◌, ◌==◌, ◌&&◌, not, length, slice_index, true, false, MatchOption};
ghost use Rattle.c_lexer.specs.Spells.{Spells};

/// The encoding prefixes of literals: none, `L`, `u`, `U` and `u8`.
#[derive(Clone, Copy)]
pub enum Prefix {
    Plain,
    Wide,
    Char16,
    Char32,
    Utf8,
}

/// What kind of literal a quote opens.
#[derive(Clone, Copy)]
pub enum Quote {
    Character,
    Text,
}

/// The length of a prefix in bytes.
pub fn prefix_length(prefix: Prefix) -> usize
    ensures { result ≡ length (spec.prefix prefix) }
{
    match prefix {
        Prefix::Plain => 0,
        Prefix::Wide | Prefix::Char16 | Prefix::Char32 => 1,
        Prefix::Utf8 => 2,
    }
}

/// Whether the characters of a literal may be wider than a byte.
pub fn is_wide(prefix: Prefix) -> bool
    ensures { result ≡ spec.is_wide prefix }
{
    match prefix {
        Prefix::Plain | Prefix::Utf8 => false,
        Prefix::Wide | Prefix::Char16 | Prefix::Char32 => true,
    }
}

/// The prefix that a literal at a place has, if one stands there.
#[inline(always)]
pub fn prefix_at(text: &[u8], from: usize) -> Prefix
    requires { from < length text.now }
    ensures spelled { Spells text.now from (spec.prefix result) }
    ensures alone { (p : Prefix) (q : Quote) → Opens text.now from p q → p ≡ result }
{
    match text[from] {
        b'L' => Prefix::Wide,
        b'U' => Prefix::Char32,
        b'u' => {
            if from + 1 < text.len() && text[from + 1] == b'8' {
                return Prefix::Utf8;
            }
            Prefix::Char16
        }
        _ => Prefix::Plain,
    }
}

/// The quote at a place, if one stands there.
#[inline(always)]
pub fn quote_at(text: &[u8], at: usize) -> Option<Quote>
    ensures { MatchOption result ((q : Quote) → at < length text.now → slice_index text.now at ≡ spec.mark q → ⊥)
        (λ q. (at < length text.now) × (slice_index text.now at ≡ spec.mark q)) }
{
    if text.len() <= at {
        return None;
    }
    match text[at] {
        b'\'' => Some(Quote::Character),
        b'"' => Some(Quote::Text),
        _ => None,
    }
}

/// Whether a literal may begin with a prefix and a quote: all but `u8` and the quote of a character constant.
#[inline(always)]
pub fn is_allowed(prefix: Prefix, quote: Quote) -> bool
    ensures yes { result ≡ true → spec.Allowed prefix quote }
    ensures no { result ≡ false → spec.Allowed prefix quote → ⊥ }
{
    match prefix {
        Prefix::Utf8 => match quote {
            Quote::Character => false,
            Quote::Text => true,
        },
        Prefix::Plain | Prefix::Wide | Prefix::Char16 | Prefix::Char32 => true,
    }
}

/// Whether a byte closes a literal.
#[inline(always)]
fn ends(escaped: bool, quote: u8, byte: u8) -> bool
    ensures { result ≡ (byte == quote && not escaped) }
{
    byte == quote && !escaped
}

/// Whether a byte escapes the next one.
#[inline(always)]
pub fn escapes(escaped: bool, byte: u8) -> bool
    ensures { result ≡ (byte == 92 && not escaped) }
{
    byte == b'\\' && !escaped
}

/// How many bytes stand between the quotes of the literal whose opening quote stands at a place, or `None` where it isn't closed
/// on its line.
pub fn inside_length(text: &[u8], quote: usize) -> Option<usize>
    requires { quote < length text.now }
    ensures { MatchOption result ((n : ℕ) → Closed text.now quote n → ⊥) (λ n. Closed text.now quote n) }
{
    let mark = text[quote];
    let mut count = 0;
    let mut escaped = false;
    while count < text.len() - quote - 1 {
        let byte = text[quote + 1 + count];
        if ends(escaped, mark, byte) {
            return Some(count);
        }
        if byte == b'\n' {
            return None;
        }
        escaped = escapes(escaped, byte);
        count += 1;
    }
    None
}
