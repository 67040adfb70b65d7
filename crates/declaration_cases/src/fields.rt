//! The fields of a line of text, and lists that grow.
use c_types::term::OutOfMemory;

/// The word at a place of a line; the empty one where there are fewer.
pub(crate) fn word<'a>(line: &'a str, at: usize) -> &'a str {
    line.split(' ').nth(at).unwrap_or("")
}

/// The number at a place of a line; 0 where none stands there.
pub(crate) fn number(line: &str, at: usize) -> u32 {
    word(line, at).parse().unwrap_or(0)
}

/// One item more.
pub(crate) fn push_to<T: Drop>(list: &mut Vec<T>, item: T) -> Result<(), OutOfMemory> {
    match list.push(item) {
        Ok(()) => Ok(()),
        Err(_) => Err(OutOfMemory),
    }
}
