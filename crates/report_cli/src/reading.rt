// Reading the texts of all units.
ghost use Rattle.std.specs.Prelude.{◌≡◌, ℕ, ◌<◌, ◌≤◌, List, Some, Err, ◌+◌, map, option_map, take, length, slice_get, IfOk, IfSome, OnOk};
ghost use Rattle.pta_base.specs.Outside.{HasRisen};
ghost use Rattle.text_units.specs.Answers.{names_of, told_units};
ghost use Rattle.report_cli.specs.Words.{side_name};
ghost use Rattle.report_cli.specs.Told.{names_for};

use crate::input::{ReadFault, read_text};
use command_line::Command;
use pta_base::{Listing, Text, Units};
use std::alloc::{AllocError, AllocFailed, Global};
use text_units::lowered::name_at;

/// Why the texts of units could not be read: the outside failed under the name of this number, or memory wanted.
#[derive(Clone, Copy)]
pub(crate) enum ReadingFault {
    Source(usize),
    Memory,
}

impl From<AllocError> for ReadingFault {
    ghost use Rattle.report_cli.specs.declared.reading.ReadingFault.TheVariants.{Memory};

    ghost from_gives = { λ _ e. e ≡ Memory };

    fn from(_: AllocError) -> Self {
        ReadingFault::Memory
    }
}

impl<T: Drop> From<AllocFailed<T>> for ReadingFault {
    ghost use Rattle.report_cli.specs.declared.reading.ReadingFault.TheVariants.{Memory};

    ghost from_gives = { λ _ e. e ≡ Memory };

    fn from(_: AllocFailed<T>) -> Self {
        ReadingFault::Memory
    }
}

/// A text is read in pieces of so many bytes.
const PIECE: usize = 65536;

/// A buffer of so many bytes.
fn buffer(alloc: Global, size: usize) -> Result<Vec<u8>, AllocError>
    requires { 0 < size }
    ensures { IfOk result (λ buffer. 0 < length buffer.items) }
{
    vec![in alloc; 0u8; size]
}

/// The name of the text that a command reads beside its units: that of its script, and `words` for a run.
pub(crate) fn side_name<'a>(command: &Command<'a>) -> Option<&'a str>
    ensures { option_map (λ name. name.now) result ≡ side_name (option_map (λ name. name.now) command.now.ask) command.now.steps }
{
    match command.steps {
        Some(_) => Some("words"),
        None => command.ask,
    }
}

/// The names that a command reads: those of its units in order, and then that of the text beside them.
pub(crate) fn names_for<'a>(
    alloc: Global,
    command: &Command<'a>,
) -> Result<Vec<&'a str>, AllocError>
    ensures { IfOk result (λ names. names_of names.items ≡ names_for command.now) }
{
    let mut names = Vec::from_slice(alloc, command.units.as_slice())?;
    if let Some(side) = side_name(command) {
        names.push(side)?;
    }
    Ok(names)
}

/// A copy of each name.
pub(crate) fn copied(alloc: Global, names: &[&str]) -> Result<Vec<Text>, AllocError>
    ensures { IfOk result (λ copies. copies.items ≡ names_of names.now) }
{
    let mut copies = Vec::new(alloc);
    for name in names {
        copies.push(Text::copy_of(alloc, name)?)?;
    }
    Ok(copies)
}

/// Reads the texts of the names in order, of each at most so many bytes.
pub(crate) fn read_units<U: Units>(
    alloc: Global,
    names: &[&str],
    units: &mut U,
    limit: usize,
) -> Result<Vec<Listing<u8>>, ReadingFault>
    ensures texts { IfOk result (λ texts. IfSome (told_units (U.text units.old) (names_of names.now))
        (λ told. texts.items ≡ map (λ unit. take limit unit.1) told)) }
    ensures count { IfOk result (λ texts. length texts.items ≡ length names.now) }
    ensures cause { (number : ℕ) → result ≡ Err (ReadingFault.Source number)
        → (name : List ℕ) × (slice_get (names_of names.now) number ≡ Some name)
        × HasRisen (U.faults units.old name) (U.faults units.new name) }
    ensures within { (number : ℕ) → result ≡ Err (ReadingFault.Source number) → number + 1 ≤ length names.now }
    ensures steady { OnOk result ((other : List ℕ) → U.faults units.new other ≡ U.faults units.old other) }
{
    let mut texts = Vec::new(alloc);
    let mut piece = buffer(alloc, PIECE)?;
    for number in 0..names.len() {
        match read_text(alloc, units, name_at(names, number), limit, &mut piece) {
            Ok(text) => texts.push(Listing::of(text))?,
            Err(ReadFault::Source) => return Err(ReadingFault::Source(number)),
            Err(ReadFault::Memory) => return Err(ReadingFault::Memory),
        }
    }
    Ok(texts)
}
