// A program that runs, and whether sets cover each of its states.
ghost use Rattle.std.specs.Prelude.{◌≡◌, IfOk, length};
ghost use Rattle.core_tree.specs.Range.{InRange};
ghost use Rattle.core_tree.specs.Typed.{trees_in};
ghost use Rattle.ref_machine.specs.Machines.{IsMachineOf};
ghost use Rattle.sol_model.specs.Systems.{IsValid, Fits};
ghost use Rattle.unit_report.specs.unit_system.Of.{IsSystemOf};

use machine_covers::covering::covers;
use pta_base::{Gate, Listing, Text};
use ref_machine::machine::Machine;
use ref_state::state::StepAnswer;
use sol_model::{Rows, System, plain_solve};
use std::alloc::Global;
use std::test::Fail;
use std::thread::Threads;
use text_units::lowered::lower_each;
use unit_report::unit_system::{UnitSystem, linked_system};

/// How many states a run has at the most.
const STATES: u32 = 600;

/// A gate that holds nobody up.
struct OpenGate;

impl Gate for OpenGate {
    fn pass(&self, _worker: u32, _turn: u32) {}
}

/// How a run goes: `Going` where it isn't at its end after so many states.
#[derive(Clone, Copy, PartialEq, Eq)]
pub(crate) enum End {
    Finished,
    Stopped,
    Going,
}

/// Which sets the states are held against.
#[derive(Clone, Copy)]
pub(crate) enum Sets {
    Least,
    Nothing,
}

/// How many states a run has had, the first one too, how many of these were covered, and how it goes.
#[derive(Clone, Copy)]
struct Watched {
    states: u32,
    covered: u32,
    end: End,
}

/// How many states runs of a program have had, how many of these were covered, how many states the shortest of them had, and how the first
/// one goes.
#[derive(Clone, Copy)]
pub(crate) struct Runs {
    pub(crate) states: u32,
    pub(crate) covered: u32,
    pub(crate) fewest: u32,
    pub(crate) end: End,
}

/// The names in a text with commas between them; none where it is empty.
fn names_in(alloc: Global, entries: &str) -> Result<Vec<Text>, Fail> {
    let mut names = Vec::new(alloc);
    for name in entries.split(',') {
        if !name.is_empty() {
            names.push(Text::copy_of(alloc, name)?)?;
        }
    }
    Ok(names)
}

/// The program of one text, by its name, with its locations and its system. It fails where the text isn't a whole program that is entered
/// at these functions, or begins at main where there are none.
fn program_of<R: Threads + Sync>(
    rt: &R,
    alloc: Global,
    entries: &[Text],
    names: &[&str],
    texts: &[Listing<u8>],
) -> Result<UnitSystem, Fail>
    requires count { length texts.now ≡ length names.now }
    requires one { length names.now ≡ 1 }
    ensures system { IfOk result (λ made. IsSystemOf made.program made.space made.system) }
    ensures range { IfOk result (λ made. InRange (trees_in made.program)) }
{
    let Ok(units) = lower_each(rt, alloc, names, texts, 1, &OpenGate) else {
        return Err(Fail::new("the text isn't a unit"));
    };
    let Ok(made) = linked_system(alloc, units, entries) else {
        return Err(Fail::new("the unit isn't a program"));
    };
    Ok(made)
}

/// The program of the text of its one unit, `a.i`.
fn system_of<R: Threads + Sync>(
    rt: &R,
    alloc: Global,
    entries: &str,
    text: &str,
) -> Result<UnitSystem, Fail>
    ensures system { IfOk result (λ made. IsSystemOf made.program made.space made.system) }
    ensures range { IfOk result (λ made. InRange (trees_in made.program)) }
{
    let names = names_in(alloc, entries)?;
    let bytes = Listing::of(Vec::from_slice(alloc, text.as_bytes())?);
    program_of(rt, alloc, &names, &["a.i"], &[bytes])
}

/// The word behind one: numbers of a multiplicative sequence modulo 2^64, of which the high bits count. Behind 0 stands 0.
fn next_word(word: u64) -> u64 {
    word.wrapping_mul(6_364_136_223_846_793_005)
}

/// Runs a machine, with words from a first one on, and looks at each state with the rows.
fn watch_from(
    machine: &mut Machine,
    made: &UnitSystem,
    rows: &Rows,
    first: u64,
) -> Result<Watched, Fail>
    requires machine { IsMachineOf made.now.program machine.old }
    requires system { IsSystemOf made.now.program made.now.space made.now.system }
    requires range { InRange (trees_in made.now.program) }
    requires fits { Fits made.now.system rows.now }
{
    let mut word = first;
    let mut covered = 0u32;
    for at in 0..STATES {
        if covers(&made.space, &made.system, rows, &made.program, machine) {
            covered += 1;
        }
        let end = match machine.step(&made.program, word >> 33)? {
            StepAnswer::Went => {
                word = next_word(word);
                continue;
            }
            StepAnswer::Finished(_) => End::Finished,
            StepAnswer::Stopped(..) => End::Stopped,
        };
        return Ok(Watched {
            states: at + 1,
            covered,
            end,
        });
    }
    Ok(Watched {
        states: STATES,
        covered,
        end: End::Going,
    })
}

/// Runs a program from its start on.
fn watch(alloc: Global, made: &UnitSystem, rows: &Rows, first: u64) -> Result<Watched, Fail>
    requires system { IsSystemOf made.now.program made.now.space made.now.system }
    requires range { InRange (trees_in made.now.program) }
    requires fits { Fits made.now.system rows.now }
{
    let mut machine = Machine::start(alloc, &made.program)?;
    watch_from(&mut machine, made, rows, first)
}

/// Runs a program once with words of 0, and then with each of these first words.
fn watch_each(alloc: Global, made: &UnitSystem, rows: &Rows, firsts: &[u64]) -> Result<Runs, Fail>
    requires system { IsSystemOf made.now.program made.now.space made.now.system }
    requires range { InRange (trees_in made.now.program) }
    requires fits { Fits made.now.system rows.now }
{
    let run = watch(alloc, made, rows, 0)?;
    let mut runs = Runs {
        states: run.states,
        covered: run.covered,
        fewest: run.states,
        end: run.end,
    };
    for first in firsts {
        let run = watch(alloc, made, rows, *first)?;
        runs.states = runs.states.saturating_add(run.states);
        runs.covered = runs.covered.saturating_add(run.covered);
        runs.fewest = runs.fewest.min(run.states);
    }
    Ok(runs)
}

/// The rows of the sets that are asked for.
fn rows_of(alloc: Global, system: &System, sets: Sets) -> Result<Rows, Fail>
    requires { IsValid system.now }
    ensures { IfOk result (Fits system.now) }
{
    match sets {
        Sets::Least => Ok(plain_solve(alloc, system)?),
        Sets::Nothing => {
            let width = (system.locations.len() as u32).div_ceil(64);
            Ok(Rows::empty(alloc, system.rows, width)?)
        }
    }
}

/// Runs the program of a text that is entered at functions, or begins at main where none are named, with words of 0 and with words from
/// each of these first ones on, and looks at each state with those sets.
pub(crate) fn watch_text<R: Threads + Sync>(
    rt: &R,
    alloc: Global,
    entries: &str,
    text: &str,
    firsts: &[u64],
    sets: Sets,
) -> Result<Runs, Fail> {
    let made = system_of(rt, alloc, entries, text)?;
    let rows = rows_of(alloc, &made.system, sets)?;
    watch_each(alloc, &made, &rows, firsts)
}
