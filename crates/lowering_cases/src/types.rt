// Types as text, from the outside in: `*i` is a pointer to int, `[3]c` an array of three chars, `(i,...)v` a variadic function.

use crate::page::Page;
use c_types::term::{Form, Term, TypeId};
use core_tree::node::Unit;
use std::alloc::Global;

// How many pieces the text of a type may have.
const PIECES: usize = 10_000;

// What is left to be written of a type.
#[derive(Clone, Copy)]
enum Piece {
    Words(&'static str),
    Type(TypeId),
}

// One piece more that is left, to be written before the others.
fn leave(out: &mut Page, left: &mut Vec<Piece>, piece: Piece) {
    if left.push(piece).is_err() {
        out.lacks = true;
    }
}

// An integer type, by its size, its rank and its sign.
fn integer_name(size: u8, rank: u8, signed: bool) -> &'static str {
    match (size, rank, signed) {
        (1, 1, true) => "c",
        (1, 2, true) => "sc",
        (1, 2, false) => "uc",
        (2, 3, true) => "s",
        (2, 3, false) => "us",
        (4, 4, true) => "i",
        (4, 4, false) => "u",
        (8, 5, true) => "l",
        (8, 5, false) => "ul",
        (8, 6, true) => "ll",
        (8, 6, false) => "ull",
        _ => "?",
    }
}

// An array, up to its element.
fn write_array(out: &mut Page, length: Option<u64>) {
    out.say("[");
    if let Some(count) = length {
        out.number(i128::from(count));
    }
    out.say("]");
}

// What stands behind the parameters of a function.
fn end_of_list(form: Form, none: bool) -> &'static str {
    match form {
        Form::Fixed => ")",
        Form::Variadic if none => "...)",
        Form::Variadic => ",...)",
        Form::Unspecified => "?)",
    }
}

// The pieces of a function's type.
fn push_function(
    out: &mut Page,
    left: &mut Vec<Piece>,
    returned: TypeId,
    parameters: &[TypeId],
    form: Form,
) {
    leave(out, left, Piece::Type(returned));
    leave(
        out,
        left,
        Piece::Words(end_of_list(form, parameters.is_empty())),
    );
    for done in 0..parameters.len() {
        let at = parameters.len() - 1 - done;
        leave(out, left, Piece::Type(parameters[at]));
        leave(out, left, Piece::Words(if at > 0 { "," } else { "" }));
    }
    leave(out, left, Piece::Words("("));
}

// A structure or union by the number of its tag.
fn write_tag(out: &mut Page, letter: &str, tag: u32) {
    out.say(letter);
    out.number(i128::from(tag));
}

// The head of a type; its parts are left.
fn write_term(out: &mut Page, unit: &Unit, left: &mut Vec<Piece>, ty: TypeId) {
    if ty.0 >= unit.types.type_count() {
        out.lacks = true;
        return;
    }
    match unit.types.term(ty) {
        Term::Void => out.say("v"),
        Term::Bool => out.say("b"),
        Term::Integer { size, rank, signed } => out.say(integer_name(*size, *rank, *signed)),
        Term::Floating => out.say("F"),
        Term::VaList => out.say("V"),
        Term::Pointer(to) => {
            out.say("*");
            leave(out, left, Piece::Type(*to));
        }
        Term::Array { of, length } => {
            write_array(out, *length);
            leave(out, left, Piece::Type(*of));
        }
        Term::Function {
            result,
            parameters,
            form,
        } => push_function(out, left, *result, parameters.as_slice(), *form),
        Term::Structure(tag) => write_tag(out, "S", *tag),
        Term::Union(tag) => write_tag(out, "U", *tag),
    }
}

/// Adds a type of a unit to a text.
pub(crate) fn write_type(alloc: Global, out: &mut Page, unit: &Unit, ty: TypeId) {
    let mut left = Vec::new(alloc);
    leave(out, &mut left, Piece::Type(ty));
    for _piece in 0..PIECES {
        match left.pop() {
            Some(Piece::Words(words)) => out.say(words),
            Some(Piece::Type(part)) => write_term(out, unit, &mut left, part),
            None => return,
        }
    }
    out.lacks = true;
}
