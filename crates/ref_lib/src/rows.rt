// The library's functions by number.

ghost use Rattle.std.specs.Prelude.{◌≡◌, slice_get};
ghost use Rattle.std.specs.Option.{option_copied};
ghost use Rattle.ref_lib.specs.Effects.{rows};

use crate::ref_alloc::plain::Class;

/// What makes an object, ends one, or names one of the library's.
#[derive(Clone, Copy)]
pub enum Making {
    Malloc,
    Calloc,
    Realloc,
    Free,
    /// The first element of the library's object in that position, or null.
    Perhaps(u32),
    /// The first element of the library's object in that position.
    Object(u32),
    /// The library's object in that position.
    Place(u32),
    Classes,
}

/// What reads and changes whole elements.
#[derive(Clone, Copy)]
pub enum Elements {
    CopyBytes,
    SetBytes,
    Search,
    Strtol,
    Sort,
    Find,
}

/// What reads and writes characters.
#[derive(Clone, Copy)]
pub enum Texts {
    Length,
    Compare,
    ComparePart,
    CopyText,
    AddText,
    CopyPart,
    Duplicate,
    Print,
    PrintPart,
    Line,
    Block,
}

/// What looks at no object.
#[derive(Clone, Copy)]
pub enum Plain {
    AnyNumber,
    Byte,
    InClass(Class),
    ToUpper,
    ToLower,
    Keep,
    Exit,
    Abort,
}

/// What a library function does: the functions of one row do the same.
#[derive(Clone, Copy)]
pub enum Row {
    Makes(Making),
    Moves(Elements),
    Writes(Texts),
    Answers(Plain),
}

const ROWS: [Row; 55] = [
    Row::Makes(Making::Malloc),
    Row::Makes(Making::Calloc),
    Row::Makes(Making::Realloc),
    Row::Makes(Making::Free),
    Row::Moves(Elements::CopyBytes),
    Row::Moves(Elements::CopyBytes),
    Row::Moves(Elements::SetBytes),
    Row::Writes(Texts::CopyText),
    Row::Writes(Texts::AddText),
    Row::Writes(Texts::CopyPart),
    Row::Moves(Elements::Search),
    Row::Moves(Elements::Search),
    Row::Moves(Elements::Search),
    Row::Moves(Elements::Search),
    Row::Moves(Elements::Strtol),
    Row::Moves(Elements::Sort),
    Row::Moves(Elements::Find),
    Row::Writes(Texts::Length),
    Row::Writes(Texts::Compare),
    Row::Writes(Texts::ComparePart),
    Row::Answers(Plain::AnyNumber),
    Row::Writes(Texts::Duplicate),
    Row::Makes(Making::Perhaps(0)),
    Row::Makes(Making::Object(1)),
    Row::Answers(Plain::Keep),
    Row::Answers(Plain::Exit),
    Row::Answers(Plain::Abort),
    Row::Answers(Plain::AnyNumber),
    Row::Answers(Plain::AnyNumber),
    Row::Writes(Texts::Print),
    Row::Writes(Texts::PrintPart),
    Row::Answers(Plain::AnyNumber),
    Row::Answers(Plain::AnyNumber),
    Row::Answers(Plain::AnyNumber),
    Row::Answers(Plain::AnyNumber),
    Row::Makes(Making::Perhaps(2)),
    Row::Answers(Plain::AnyNumber),
    Row::Writes(Texts::Line),
    Row::Answers(Plain::Byte),
    Row::Answers(Plain::Byte),
    Row::Writes(Texts::Block),
    Row::Answers(Plain::AnyNumber),
    Row::Answers(Plain::AnyNumber),
    Row::Answers(Plain::InClass(Class::Alpha)),
    Row::Answers(Plain::InClass(Class::Digit)),
    Row::Answers(Plain::InClass(Class::Alnum)),
    Row::Answers(Plain::InClass(Class::Space)),
    Row::Answers(Plain::InClass(Class::Upper)),
    Row::Answers(Plain::InClass(Class::Lower)),
    Row::Answers(Plain::ToUpper),
    Row::Answers(Plain::ToLower),
    Row::Answers(Plain::AnyNumber),
    Row::Makes(Making::Place(6)),
    Row::Makes(Making::Classes),
    Row::Answers(Plain::Abort),
];

/// The row of the function of that number; none exactly past the last one.
#[tactic(auto, unfolding(crate::specs::Effects::rows))]
pub fn row_of(function: u32) -> Option<Row>
    ensures { result ≡ slice_get rows function }
{
    match row_in(&ROWS, function) {
        Some(row) => Some(*row),
        None => None,
    }
}

fn row_in(list: &[Row], i: u32) -> Option<&Row>
    ensures { option_copied result ≡ slice_get list.now i }
{
    list.get(i as usize)
}
