// What the words of a step say.
use crate::case_types::types::{
    BITS, BYTES, CHAR, EITHER, EMPTY, FIELDS, FOUR_CHARS, HOLLOW, INT, NESTED, POINTER, POINTERS,
    RECORD, SIX_CHARS, THREE_INTS, TWO_CHARS, UNION,
};
use crate::world::Arg;
use c_types::term::TypeId;
use std::alloc::Global;
use std::test::Fail;

/// The words of a step.
pub(crate) fn words_of<'a>(alloc: Global, step: &'a str) -> Result<Vec<&'a str>, Fail> {
    let mut words = Vec::new(alloc);
    for word in step.split(' ') {
        words.push(word)?;
    }
    Ok(words)
}

/// The word in that place, or the empty one.
pub(crate) fn word<'a>(words: &[&'a str], at: usize) -> &'a str {
    match words.get(at) {
        Some(word) => *word,
        None => "",
    }
}

/// The type of that name; for another one a type that isn't in the table.
pub(crate) fn type_of(name: &str) -> TypeId {
    match name {
        "char" => CHAR,
        "int" => INT,
        "pointer" => POINTER,
        "char[2]" => TWO_CHARS,
        "char[4]" => FOUR_CHARS,
        "char[6]" => SIX_CHARS,
        "int[3]" => THREE_INTS,
        "record" => RECORD,
        "union" => UNION,
        "bits" => BITS,
        "pointers" => POINTERS,
        "nested" => NESTED,
        "bytes" => BYTES,
        "empty" => EMPTY,
        "either" => EITHER,
        "fields" => FIELDS,
        "hollow" => HOLLOW,
        _ => TypeId(u32::MAX),
    }
}

/// A number without a sign.
pub(crate) fn count(word: &str) -> u32 {
    word.parse().unwrap_or(u32::MAX)
}

/// What a word passes or names.
pub(crate) fn arg_of(word: &str) -> Arg {
    let mut parts = word.split('.');
    let sort = parts.next().unwrap_or("");
    let first = count(parts.next().unwrap_or(""));
    let second = count(parts.next().unwrap_or(""));
    let third = count(parts.next().unwrap_or(""));
    match sort {
        "null" => Arg::Null,
        "function" => Arg::Function,
        "whole" => Arg::Whole(first),
        "element" => Arg::At(first, u64::from(second)),
        "member" => Arg::Member(first, second),
        "nested" => Arg::Nested(first, second, third),
        _ => Arg::Number(i128::from(word.parse::<i64>().unwrap_or(0))),
    }
}

/// What the words from a place on pass.
pub(crate) fn args_from(alloc: Global, words: &[&str], from: usize) -> Result<Vec<Arg>, Fail> {
    let mut args = Vec::new(alloc);
    for word in words.iter().skip(from) {
        args.push(arg_of(*word))?;
    }
    Ok(args)
}

/// The numbers that the words from a place on say.
pub(crate) fn numbers_from(alloc: Global, words: &[&str], from: usize) -> Result<Vec<i128>, Fail> {
    let mut numbers = Vec::new(alloc);
    for word in words.iter().skip(from) {
        numbers.push(i128::from(word.parse::<i64>().unwrap_or(0)))?;
    }
    Ok(numbers)
}
