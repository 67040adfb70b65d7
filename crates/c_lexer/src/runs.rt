//! Runs: pieces that go on as long as the next byte may follow.
ghost use Rattle.c_lexer.specs.Pieces as spec;
ghost use Rattle.std.specs.Prelude.{◌≡◌, ℕ, ◌-◌, ◌<◌, ◌≤◌, length, slice_index, true, false};

use crate::bytes::{is_digit, is_letter, is_white};

/// The kinds of runs: white space, a dropped line, an identifier and a preprocessing number (C11 6.4.2, 6.4.8).
#[derive(Clone, Copy)]
pub enum Run {
    White,
    Line,
    Name,
    Number,
}

/// Whether a byte may follow another in a run.
#[inline(always)]
#[tactic(auto, unfolding(crate::specs::Pieces::follows))]
fn follows(run: Run, before: u8, byte: u8) -> bool
    ensures { result ≡ spec.follows run before byte }
{
    match run {
        Run::White => is_white(byte),
        Run::Line => byte != b'\n',
        Run::Name => is_letter(byte) || is_digit(byte),
        Run::Number => {
            is_letter(byte)
                || is_digit(byte)
                || byte == b'.'
                || ((byte == b'+' || byte == b'-')
                    && (before == b'e' || before == b'E' || before == b'p' || before == b'P'))
        }
    }
}

/// Where the run that begins at a place ends.
#[inline(always)]
pub fn run_end(run: Run, text: &[u8], from: usize) -> usize
    requires { from < length text.now }
    ensures within { (from < result) × (result ≤ length text.now) }
    ensures each { (i : ℕ) → from < i → i < result
        → spec.follows run (slice_index text.now (i - 1)) (slice_index text.now i) ≡ true }
    ensures stops { result < length text.now
        → spec.follows run (slice_index text.now (result - 1)) (slice_index text.now result) ≡ false }
{
    let mut end = from + 1;
    while end < text.len() && follows(run, text[end - 1], text[end]) {
        end += 1;
    }
    end
}
