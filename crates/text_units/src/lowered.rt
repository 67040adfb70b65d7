// The core units of texts, which are read at once.
ghost use Rattle.std.specs.Prelude.{◌≡◌, ◌+◌, ◌<◌, ◌≤◌, ◌^◌, length, slice_get, zip, Some, IfErr, IfOk};
ghost use Rattle.std.specs.Thread.{IsSync};
ghost use Rattle.text_units.specs.Answers.{names_of};
ghost use Rattle.text_units.specs.Faults.{IsFaultIn, IsFirstFault};
ghost use Rattle.text_units.specs.Lowered.{IsRightText, AreRightTexts};

use crate::alone::read_alone;
use crate::fault::UnitsFault;
use crate::rows::row_refusal;
use c_lower::lower_unit;
use core_tree::Unit;
use parsed_tree_laws::sense_laws::parsed_laws::laws::children_first;
use pta_base::{Gate, Listing, Text};
use std::alloc::Global;
use std::thread::{Threads, join};

/// The worker under whose number the job of unit 0 passes the gate; those of the others follow.
const JOBS: u32 = 100;

/// The name of that number among names.
#[tactic(auto, using(crate::proofs::Texts::text_at))]
pub fn name_at<'a>(names: &[&'a str], number: usize) -> &'a str
    requires { number < length names.now }
    ensures { slice_get (names_of names.now) number ≡ Some result.now }
{
    names[number]
}

/// The job of a text: the core unit that it is, as the unit of that number, or the fault that refuses it. It passes the gate first, and
/// at its end it lets go of its tokens and its tree.
fn lowered<G: Gate>(
    alloc: Global,
    number: u32,
    name: &str,
    text: &[u8],
    gate: &G,
) -> Result<Unit, UnitsFault>
    requires few { number < 2 ^ 8 }
    ensures right { IfOk result (IsRightText number (name.now, text.now)) }
    ensures refused { IfErr result (IsFaultIn number (name.now, text.now)) }
{
    gate.pass(JOBS + number, 0);
    let read = match read_alone(alloc, number, name, text) {
        Ok(read) => read,
        Err(fault) => return Err(fault),
    };
    children_first();
    let title = Text::copy_of(alloc, name)?;
    match lower_unit(alloc, &read.tokens, &read.tree, &read.bound, title) {
        Ok(unit) => Ok(unit),
        Err(fault) => Err(row_refusal(alloc, name, &read.tokens, &read.tree, fault)?),
    }
}

/// The core units that texts are, the first of them as the unit of that number, one job after another; at `Err` the fault of the first
/// text that isn't right.
fn in_turn<G: Gate>(
    alloc: Global,
    names: &[&str],
    texts: &[Listing<u8>],
    first: u32,
    gate: &G,
) -> Result<Vec<Unit>, UnitsFault>
    requires count { length texts.now ≡ length names.now }
    requires few { first + length names.now ≤ 2 ^ 8 }
    ensures right { IfOk result (λ units. AreRightTexts first (zip (names_of names.now) texts.now) units.items) }
    ensures refused { IfErr result (IsFirstFault first (zip (names_of names.now) texts.now)) }
{
    let mut units = Vec::new(alloc);
    for at in 0..names.len() {
        match lowered(
            alloc,
            first + at as u32,
            name_at(names, at),
            texts[at].as_slice(),
            gate,
        ) {
            Ok(unit) => units.push(unit)?,
            Err(fault) => return Err(fault),
        }
    }
    Ok(units)
}

/// The same by so many threads at once, which have a share of the texts each and do its jobs in turn. Whichever job ends first, the first
/// text that isn't right decides.
fn at_once<R: Threads + Sync, G: Gate + Sync>(
    rt: &R,
    alloc: Global,
    names: &[&str],
    texts: &[Listing<u8>],
    first: u32,
    threads: usize,
    gate: &G,
) -> Result<Vec<Unit>, UnitsFault>
    requires count { length texts.now ≡ length names.now }
    requires few { first + length names.now ≤ 2 ^ 8 }
    ensures right { IfOk result (λ units. AreRightTexts first (zip (names_of names.now) texts.now) units.items) }
    ensures refused { IfErr result (IsFirstFault first (zip (names_of names.now) texts.now)) }
{
    if threads <= 1 {
        return in_turn(alloc, names, texts, first, gate);
    }
    let share = names.len() / threads;
    let others = threads - 1;
    let next = first + share as u32;
    let (names, more_names) = names.split_at(share);
    let (texts, more_texts) = texts.split_at(share);
    let (units, more) = join(
        rt,
        move || -> Result<Vec<Unit>, UnitsFault>
            requires count { length texts.now ≡ length names.now }
            requires few { first + length names.now ≤ 2 ^ 8 }
            ensures right { IfOk result (λ units. AreRightTexts first (zip (names_of names.entry.now) texts.entry.now) units.items) }
            ensures refused { IfErr result (IsFirstFault first (zip (names_of names.entry.now) texts.entry.now)) }
        { in_turn(alloc, names, texts, first, gate) },
        move || -> Result<Vec<Unit>, UnitsFault>
            requires sync { IsSync R.row × IsSync G.row }
            requires count { length more_texts.now ≡ length more_names.now }
            requires few { next + length more_names.now ≤ 2 ^ 8 }
            ensures right { IfOk result (λ units.
                AreRightTexts next (zip (names_of more_names.entry.now) more_texts.entry.now) units.items) }
            ensures refused { IfErr result (IsFirstFault next (zip (names_of more_names.entry.now) more_texts.entry.now)) }
        { at_once(rt, alloc, more_names, more_texts, next, others, gate) },
    );
    let mut units = match units {
        Ok(units) => units,
        Err(fault) => return Err(fault),
    };
    let mut more = match more {
        Ok(more) => more,
        Err(fault) => return Err(fault),
    };
    units.append(&mut more)?;
    Ok(units)
}

/// The core units that named texts are (C11 5.1.1.2, phases 3 to 7), in order, the first as unit 0, by so many workers at the most. The job
/// of text i passes the gate first, as worker 100 + i with the turn 0. At `Err` the fault of the first text that isn't right, by its
/// tokens, its syntax, its names or its rows, or want of memory.
pub fn lower_each<R: Threads + Sync, G: Gate + Sync>(
    rt: &R,
    alloc: Global,
    names: &[&str],
    texts: &[Listing<u8>],
    workers: u32,
    gate: &G,
) -> Result<Vec<Unit>, UnitsFault>
    requires count { length texts.now ≡ length names.now }
    requires few { length names.now ≤ 2 ^ 8 }
    ensures right { IfOk result (λ units. AreRightTexts 0 (zip (names_of names.now) texts.now) units.items) }
    ensures refused { IfErr result (IsFirstFault 0 (zip (names_of names.now) texts.now)) }
{
    let threads = names.len().min(workers as usize);
    at_once(rt, alloc, names, texts, 0, threads, gate)
}
