// The words that a run chooses by: decimal numbers below 2^64 with white space between.

ghost use Rattle.std.specs.Prelude.{◌≡◌, ℕ, ◌<◌, ◌≤◌, true, false, MatchResult, length, slice_index};
ghost use Rattle.ref_state.specs.run_words.Words.{is_space, is_digit, fitting, number_from, IsReading, IsRefusal};

use std::alloc::{AllocError, Global};

/// Why a text isn't numbers and white space: the first byte that is neither, or at which a number of 2^64 or more begins; or
/// want of memory.
#[derive(Clone, Copy, Debug, PartialEq, Eq)]
pub enum WordsFault {
    Malformed(usize),
    OutOfMemory,
}

impl From<AllocError> for WordsFault {
    fn from(_error: AllocError) -> WordsFault {
        WordsFault::OutOfMemory
    }
}

// Whether a byte is white space: space, tab, line feed, vertical tab, form feed or carriage return.
fn is_space(byte: u8) -> bool
    ensures { result ≡ is_space byte }
{
    byte == 32 || (9 <= byte && byte <= 13)
}

// Whether a byte is a decimal digit.
fn is_digit(byte: u8) -> bool
    ensures { result ≡ is_digit byte }
{
    48 <= byte && byte <= 57
}

// How many digits a text begins with.
fn digits_in(text: &[u8]) -> usize
    ensures within { result ≤ length text.now }
    ensures before { (k : ℕ) → k < result → is_digit (slice_index text.now k) ≡ true }
    ensures after { result < length text.now → is_digit (slice_index text.now result) ≡ false }
{
    for (i, byte) in text.iter().enumerate() {
        if !is_digit(*byte) {
            return i;
        }
    }
    text.len()
}

// The number that digits write; none where it is 2^64 or more.
fn number_of(digits: &[u8]) -> Option<u64>
    requires { (k : ℕ) → k < length digits.now → is_digit (slice_index digits.now k) ≡ true }
    ensures { result ≡ fitting (number_from 0 digits.now) }
{
    let mut number: u64 = 0;
    for digit in digits {
        let low = u64::from(*digit) - 48;
        match number.checked_mul(10) {
            Some(tens) => match tens.checked_add(low) {
                Some(sum) => number = sum,
                None => return None,
            },
            None => return None,
        }
    }
    Some(number)
}

/// The words in a text, in order. Malformed holds the first byte that is no digit and no white space, or at which a number
/// of 2^64 or more begins.
pub fn words_in(alloc: Global, text: &[u8]) -> Result<Vec<u64>, WordsFault>
    ensures { MatchResult result (λ words. IsReading 0 text.now (Ok words.items)) (IsRefusal text.now) }
{
    let mut words = Vec::new(alloc);
    let mut at = 0;
    while at < text.len() {
        if is_space(text[at]) {
            at += 1;
        } else {
            let rest = &text[at..];
            let count = digits_in(rest);
            if count == 0 {
                return Err(WordsFault::Malformed(at));
            }
            let digits = &rest[..count];
            match number_of(digits) {
                Some(number) => match words.push(number) {
                    Ok(()) => {}
                    Err(_) => return Err(WordsFault::OutOfMemory),
                },
                None => return Err(WordsFault::Malformed(at)),
            }
            at += count;
        }
    }
    Ok(words)
}
