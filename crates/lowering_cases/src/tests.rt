// The rows of the tables, one after another.

use crate::answers::answer;
use crate::declarations::DECLARATIONS;
use crate::initialisers::INITIALISERS;
use crate::page::Page;
use crate::refusals::REFUSALS;
use crate::statements::STATEMENTS;
use std::alloc::Global;
use std::test::Fail;

// Adds a line of a row, unless it only says what the row is about; one that begins with two spaces goes on with the line before.
fn join(out: &mut Page, line: &str) {
    if line.starts_with("//") {
        return;
    }
    let is_first = out.text.is_empty();
    match line.strip_prefix("  ") {
        Some(rest) => {
            out.say(" ");
            out.say(rest);
        }
        None => {
            out.say(if is_first { "" } else { "\n" });
            out.say(line);
        }
    }
}

// A row without the lines that only say what it is about, where a line that begins with two spaces goes on with the one before.
fn joined(alloc: Global, row: &str) -> Page {
    let mut out = Page::new(alloc);
    for line in row.split('\n') {
        join(&mut out, line);
    }
    out
}

// What a text is answered; a text behind `@` with the columns of its core nodes.
fn said(alloc: Global, text: &str) -> Result<String, Fail> {
    match text.strip_prefix("@") {
        Some(own) => answer(alloc, own, true),
        None => answer(alloc, text, false),
    }
}

// Whether a row is a text and then the answer.
fn ends_in(row: &str, text: &str, found: &str) -> bool {
    match row.strip_prefix(text) {
        Some(rest) => rest == found,
        None => false,
    }
}

// Whether the text in the first line of a row is answered what the row says behind it.
fn is_answered(alloc: Global, row: &str) -> Result<bool, Fail> {
    let text = row.split('\n').next().unwrap_or("");
    let found = said(alloc, text)?;
    Ok(ends_in(row, text, found.as_str()))
}

// Whether a row holds.
fn holds(alloc: Global, row: &str) -> Result<bool, Fail> {
    let page = joined(alloc, row);
    if page.lacks {
        return Err(Fail::new("no memory"));
    }
    is_answered(alloc, page.text.as_str())
}

#[test]
fn units(rt: HostRuntime) -> Result<(), Fail> {
    for rows in [DECLARATIONS, INITIALISERS, STATEMENTS, REFUSALS] {
        for row in rows.split("\n\n") {
            assert!(rt; holds(rt.alloc(), row)?, "{row}");
        }
    }
    Ok(())
}
