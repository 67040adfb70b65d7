//! Well-formed unit words.
ghost use Rattle.std.specs.Prelude.{◌≡◌, ◌<◌, IsTrue, ◌↔◌, length, slice_get};
ghost use Rattle.std.specs.List.{All};
ghost use Rattle.clap.specs.Walk.{texts};
ghost use Rattle.command_line.specs.Distinct.{AreDistinct};
ghost use Rattle.command_line.specs.Rules.{AreUnits, IsUnitWord, is_unit_byte};

/// Whether a byte may stand in a unit's name.
fn is_unit_byte(byte: u8) -> bool
    ensures { result ≡ is_unit_byte byte }
{
    byte.is_ascii_alphanumeric() || byte == b'.' || byte == b'_' || byte == b'-' || byte == b'/'
}

/// Whether the word names a unit.
pub(crate) fn is_unit_word(word: &str) -> bool
    ensures { IsTrue result ↔ IsUnitWord word.now }
{
    let bytes = word.as_bytes();
    if bytes.is_empty() || bytes.len() > 255 || bytes[0] == b'-' {
        return false;
    }
    bytes.iter().all(|byte| is_unit_byte(*byte))
}

/// Whether each word names a unit.
fn are_unit_words(words: &[&str]) -> bool
    ensures { IsTrue result ↔ All (λ word. IsUnitWord word.now) words.now }
{
    words.iter().all(|word| is_unit_word(word))
}

/// Whether the words at two places are one text.
fn are_same(words: &[&str], one: usize, other: usize) -> bool
    requires within { (one < length words.now) × (other < length words.now) }
    ensures { IsTrue result ↔ slice_get (texts words.now) one ≡ slice_get (texts words.now) other }
{
    words[one] == words[other]
}

/// Whether no word stands twice.
pub(crate) fn are_distinct(words: &[&str]) -> bool
    ensures { IsTrue result ↔ AreDistinct (texts words.now) }
{
    for i in 0..words.len() {
        for j in 0..i {
            if are_same(words, j, i) {
                return false;
            }
        }
    }
    true
}

/// Whether the words are 1 to 256 different unit words.
#[tactic(auto, using(crate::proofs::Texts::formed_words, crate::proofs::Texts::units_are, crate::proofs::Texts::units_present))]
pub(crate) fn are_units(words: &[&str]) -> bool
    ensures { IsTrue result ↔ AreUnits (texts words.now) }
{
    if words.is_empty() || words.len() > 256 {
        return false;
    }
    if !are_unit_words(words) {
        return false;
    }
    are_distinct(words)
}
