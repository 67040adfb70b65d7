//! The fields of a line of text.

/// The word at a place of a line; the empty one where there are fewer.
pub(crate) fn word<'a>(line: &'a str, at: usize) -> &'a str {
    line.split(' ').nth(at).unwrap_or("")
}

/// The number at a place of a line; 0 where none stands there.
pub(crate) fn number(line: &str, at: usize) -> u32 {
    word(line, at).parse().unwrap_or(0)
}

/// What stands on both sides of a row's arrow.
pub(crate) fn sides<'a>(row: &'a str) -> (&'a str, &'a str) {
    row.split_once(" => ").unwrap_or((row, ""))
}
