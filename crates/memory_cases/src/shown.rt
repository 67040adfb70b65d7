// Places, cells and answers as text.

use crate::page::Page;
use c_types::term::PathStep;
use ref_cells::cells::{Cell, MemFault, Value};
use ref_elements::outcome::{LibOutcome, Next};
use std::alloc::Global;

fn write_path(out: &mut Page, path: &[PathStep]) {
    for step in path {
        match step {
            PathStep::Index(i) => {
                out.say("[");
                out.number(i128::from(*i));
                out.say("]");
            }
            PathStep::Member(k) => {
                out.say(".");
                out.number(i128::from(*k));
            }
        }
    }
}

/// A cell: a pointer is `&`, its instance, and its path, with `+` where it is past that.
pub(crate) fn write_cell(out: &mut Page, cell: &Cell) {
    match cell {
        Cell::Unset => out.say("unset"),
        Cell::Number(n) => out.number(*n),
        Cell::Null => out.say("null"),
        Cell::Pointer {
            instance,
            path,
            past,
        } => {
            out.say("&");
            out.number(i128::from(*instance));
            write_path(out, path.as_slice());
            out.say(if *past { "+" } else { "" });
        }
        Cell::Function(_) => out.say("function"),
    }
}

/// The cells of a value; those that stand at a path have it in front.
pub(crate) fn write_value(out: &mut Page, value: &Value) {
    for (at, entry) in value.cells.as_slice().iter().enumerate() {
        out.say(if at > 0 { " " } else { "" });
        let path = entry.0.as_slice();
        write_path(out, path);
        out.say(if path.is_empty() { "" } else { "=" });
        write_cell(out, &entry.1);
    }
}

fn write_arguments(out: &mut Page, arguments: &[Value]) {
    for value in arguments {
        out.say(" ");
        write_value(out, value);
    }
}

fn write_next(out: &mut Page, next: &Next) {
    match next {
        Next::Done => {}
        Next::Again => out.say(" again"),
        Next::Calls {
            callee: _,
            arguments,
        } => {
            out.say(" calls");
            write_arguments(out, arguments.as_slice());
        }
        Next::Keeps(cell) => {
            out.say(" keeps ");
            write_cell(out, cell);
        }
        Next::Ends { status, at_once } => {
            out.say(" ends ");
            out.number(i128::from(*status));
            out.say(if *at_once { " at once" } else { " later" });
        }
    }
}

fn write_stores(out: &mut Page, stores: &[(Cell, Cell)]) {
    for pair in stores {
        out.say(" ");
        write_cell(out, &pair.0);
        out.say(":=");
        write_cell(out, &pair.1);
    }
}

/// Why a call stops.
pub(crate) fn write_fault(alloc: Global, out: &mut Page, fault: &MemFault) {
    match fault {
        MemFault::Stop(reason) => match format!(in alloc; "{reason:?}") {
            Ok(words) => out.say(words.as_str()),
            Err(_) => out.lacks = true,
        },
        MemFault::OutOfMemory => out.say("want of memory"),
    }
}

/// An answer: the value, how the call goes on, and the pointers that it put into cells; or why it stops.
pub(crate) fn write_answer(alloc: Global, out: &mut Page, answer: &Result<LibOutcome, MemFault>) {
    match answer {
        Ok(outcome) => {
            write_value(out, &outcome.value);
            write_next(out, &outcome.next);
            write_stores(out, outcome.stores.as_slice());
        }
        Err(fault) => write_fault(alloc, out, fault),
    }
}
