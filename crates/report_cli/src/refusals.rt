// The refusals of texts that are right: those of linking, and of limits.
ghost use Rattle.std.specs.Prelude.{◌≡◌, ◌++◌, IfOk, codes, decimal};
ghost use Rattle.text_units.specs.Answers.{names_of, place_text, refusal};
ghost use Rattle.report_cli.specs.Linking.{unit_name, link_refusal};
ghost use Rattle.text_units.specs.Faults.{fault_of};
ghost use Rattle.report_cli.specs.Faults.{IsAnswersRefusal, IsSystemRefusal};

use itoa::Buffer;
use link_names::LinkFault;
use pta_base::{Listing, Place, Text};
use std::alloc::{AllocError, Global};
use text_units::fault::UnitsFault;
use text_units::places::place_text;
use unit_report::unit_answers::AnswersFault;
use unit_report::unit_system::UnitFault;

/// A refusal with that status and line, to which its line feed is added.
fn refused(status: u8, line: Vec<u8>) -> Result<UnitsFault, AllocError>
    ensures { IfOk result (λ fault. fault ≡ fault_of (refusal status line.items)) }
{
    let mut line = line;
    line.extend_from_slice(b"\n")?;
    Ok(UnitsFault::Refused {
        status,
        line: Listing::of(line),
    })
}

/// The name of a unit by its number; no bytes where there is no such unit.
fn unit_name<'a>(names: &[&'a str], unit: u32) -> &'a str
    ensures { result.now ≡ unit_name (names_of names.now) unit }
{
    match names.get(unit as usize) {
        Some(name) => *name,
        None => "",
    }
}

/// The refusal of a declaration of a name in a unit.
fn declared_refusal(
    alloc: Global,
    what: &str,
    name: &Text,
    unit: &str,
) -> Result<UnitsFault, AllocError>
    ensures { IfOk result (λ fault. fault ≡ fault_of (refusal 5 (what.now ++ name.now ++ codes " " ++ unit.now))) }
{
    let mut line = Vec::from_slice(alloc, what.as_bytes())?;
    line.extend_from_slice(name.as_str().as_bytes())?;
    line.extend_from_slice(b" ")?;
    line.extend_from_slice(unit.as_bytes())?;
    refused(5, line)
}

/// The refusal of a use of a name that nothing defines.
fn use_refusal(
    alloc: Global,
    unit: &str,
    place: Place,
    name: &Text,
) -> Result<UnitsFault, AllocError>
    ensures { IfOk result (λ fault.
        fault ≡ fault_of (refusal 5 (place_text unit.now place.line place.column ++ codes ": undefined " ++ name.now))) }
{
    let mut line = place_text(alloc, unit, u64::from(place.line), u64::from(place.column))?;
    line.extend_from_slice(b": undefined ")?;
    line.extend_from_slice(name.as_str().as_bytes())?;
    refused(5, line)
}

/// The refusal of a name that isn't an entry.
fn entry_refusal(alloc: Global, name: &Text) -> Result<UnitsFault, AllocError>
    ensures { IfOk result (λ fault. fault ≡ fault_of (refusal 12 (codes "entry " ++ name.now))) }
{
    let mut line = Vec::from_slice(alloc, b"entry ")?;
    line.extend_from_slice(name.as_str().as_bytes())?;
    refused(12, line)
}

/// The refusal for a fault of linking.
fn link_refusal(alloc: Global, names: &[&str], fault: LinkFault) -> Result<UnitsFault, AllocError>
    ensures { IfOk result (IsSystemRefusal (names_of names.now) (UnitFault.Link fault)) }
{
    match fault {
        LinkFault::Conflict(name, unit) => declared_refusal(
            alloc,
            "link conflict ",
            &name,
            unit_name(names, unit),
        ),
        LinkFault::Twice(name, unit) => declared_refusal(
            alloc,
            "link twice ",
            &name,
            unit_name(names, unit),
        ),
        LinkFault::Undefined(place, name) => use_refusal(
            alloc,
            unit_name(names, place.unit),
            place,
            &name,
        ),
        LinkFault::NoMain => refused(5, Vec::from_slice(alloc, b"link no main")?),
        LinkFault::NoEntry(name) => entry_refusal(alloc, &name),
        LinkFault::OutOfMemory => Ok(UnitsFault::Memory),
    }
}

/// The refusal for a number that is over its limit.
fn too_large(alloc: Global, what: &[u8], number: u128) -> Result<UnitsFault, AllocError>
    ensures { IfOk result (λ fault. fault ≡ fault_of (refusal 6 (what.now ++ decimal number))) }
{
    let mut buffer = Buffer::new();
    let mut line = Vec::from_slice(alloc, what)?;
    line.extend_from_slice(buffer.format(number).as_bytes())?;
    refused(6, line)
}

/// The refusal for a fault of the system of units.
pub(crate) fn system_refusal(
    alloc: Global,
    names: &[&str],
    fault: UnitFault,
) -> Result<UnitsFault, AllocError>
    ensures { IfOk result (IsSystemRefusal (names_of names.now) fault) }
{
    match fault {
        UnitFault::Link(fault) => link_refusal(alloc, names, fault),
        UnitFault::Nodes(nodes) => too_large(alloc, b"too large nodes ", u128::from(nodes)),
        UnitFault::Words(words) => too_large(alloc, b"too large rows ", words),
        UnitFault::OutOfMemory => Ok(UnitsFault::Memory),
    }
}

/// The refusal for the fault of a script.
pub(crate) fn answers_refusal(alloc: Global, fault: AnswersFault) -> Result<UnitsFault, AllocError>
    ensures { IfOk result (IsAnswersRefusal fault) }
{
    match fault {
        AnswersFault::Question(number) => {
            let mut buffer = Buffer::new();
            let mut line = Vec::from_slice(alloc, b"question ")?;
            line.extend_from_slice(buffer.format(number).as_bytes())?;
            refused(10, line)
        }
        AnswersFault::OutOfMemory => Ok(UnitsFault::Memory),
    }
}
