//! The words' command.
ghost use Rattle.std.specs.Prelude.{◌≡◌, IfOk, IfErr, None, [], IsSome, IsTrue, ◌↔◌, codes, false, map, option_map, string_bytes, true};
ghost use Rattle.clap.specs.Words.{first_of, found_of, rows_of};
ghost use Rattle.clap.specs.Walk.{texts};
ghost use Rattle.std.specs.Str.Parse.{digits_value};
ghost use Rattle.std.specs.Option.{option_map_or};
ghost use Rattle.command_line.specs.Meaning.{IsCommandOf, Says, number_of};
ghost use Rattle.command_line.specs.Rules.{AreRight, AreUnits, AsksNoOther, HasUnits, IsNameIn, IsNumberIn, KeepsRules};
ghost use Rattle.command_line.specs.Rules.{asks_desk, asks_json, gen_word, is_flagged, run_word, script_word, unit_words};

use crate::command::Command;
use crate::entry_word::entries;
use crate::fault::WordsFault;
use crate::options::{is_set, name, number};
use crate::reading::read;
use crate::unit_word::are_units;
use crate::values::{text_of, words_of};
use clap::ArgMatches;
use std::alloc::{AllocError, Global};

/// The unit words, where they keep the rules.
fn units<'a>(alloc: Global, matches: &ArgMatches<'a>) -> Result<Vec<&'a str>, WordsFault>
    ensures ok { IfOk result (λ units. (texts units.items ≡ unit_words (rows_of (found_of matches.now)))
        × AreUnits (unit_words (rows_of (found_of matches.now)))) }
    ensures usage { IfErr result (λ fault. fault ≡ WordsFault.Usage
        → AreUnits (unit_words (rows_of (found_of matches.now))) → ⊥) }
{
    let Some(words) = words_of(matches, "unit") else {
        return Err(WordsFault::Usage);
    };
    if !are_units(words) {
        return Err(WordsFault::Usage);
    }
    match copied(alloc, words) {
        Ok(units) => Ok(units),
        Err(_) => Err(WordsFault::OutOfMemory),
    }
}

/// The unit words, of which a generated program has none.
fn units_beside<'a>(
    alloc: Global,
    matches: &ArgMatches<'a>,
    generated: Option<u32>,
) -> Result<Vec<&'a str>, WordsFault>
    requires number { generated ≡ number_of (codes "gen") (rows_of (found_of matches.now)) }
    ensures ok { IfOk result (λ units. let rows = rows_of (found_of matches.now) in
        (texts units.items ≡ unit_words rows) × HasUnits (gen_word rows) (unit_words rows)) }
    ensures usage { IfErr result (λ fault. let rows = rows_of (found_of matches.now) in
        fault ≡ WordsFault.Usage → HasUnits (gen_word rows) (unit_words rows) → ⊥) }
{
    if generated.is_none() {
        return units(alloc, matches);
    }
    let Some(words) = words_of(matches, "unit") else {
        return Ok(Vec::new(alloc));
    };
    if !words.is_empty() {
        return Err(WordsFault::Usage);
    }
    Ok(Vec::new(alloc))
}

/// The same words, in a list of their own.
fn copied<'a>(alloc: Global, words: &[&'a str]) -> Result<Vec<&'a str>, AllocError>
    ensures { IfOk result (λ units. texts units.items ≡ texts words.now) }
{
    let mut units = Vec::new(alloc);
    for word in words {
        units.push(*word)?;
    }
    Ok(units)
}

/// The number of workers.
fn workers(matches: &ArgMatches<'_>) -> Result<u32, WordsFault>
    ensures ok { IfOk result (λ n. IsNumberIn 1 64 (first_of (codes "workers") (rows_of (found_of matches.now)))
        × (n ≡ option_map_or (digits_value 10) (first_of (codes "workers") (rows_of (found_of matches.now))) 1)) }
    ensures usage { IfErr result (λ fault. IsNumberIn 1 64 (first_of (codes "workers") (rows_of (found_of matches.now))) → ⊥) }
{
    match number(matches, "workers", 1, 64)? {
        Some(workers) => Ok(workers as u32),
        None => Ok(1),
    }
}

/// The number of a generated program, where a word gives it.
fn generated(matches: &ArgMatches<'_>) -> Result<Option<u32>, WordsFault>
    ensures ok { IfOk result (λ n. let rows = rows_of (found_of matches.now) in
        IsNumberIn 1 1000 (gen_word rows) × (n ≡ number_of (codes "gen") rows)) }
    ensures usage { IfErr result (λ fault. IsNumberIn 1 1000 (gen_word (rows_of (found_of matches.now))) → ⊥) }
{
    match number(matches, "gen", 1, 1000)? {
        Some(number) => Ok(Some(number as u32)),
        None => Ok(None),
    }
}

/// The most steps of a run, where a word gives it.
fn steps(matches: &ArgMatches<'_>) -> Result<Option<u32>, WordsFault>
    ensures ok { IfOk result (λ n. let rows = rows_of (found_of matches.now) in
        IsNumberIn 0 1000000 (run_word rows) × (n ≡ number_of (codes "run") rows)) }
    ensures usage { IfErr result (λ fault. IsNumberIn 0 1000000 (run_word (rows_of (found_of matches.now))) → ⊥) }
{
    match number(matches, "run", 0, 1_000_000)? {
        Some(number) => Ok(Some(number as u32)),
        None => Ok(None),
    }
}

/// What the words ask for: the name of a script of questions, where they have one, and whether they want the report as JSON, which
/// they don't beside a script, and neither beside a generated program.
fn wanted<'a>(
    matches: &ArgMatches<'a>,
    generated: Option<u32>,
) -> Result<(Option<&'a str>, bool), WordsFault>
    requires number { generated ≡ number_of (codes "gen") (rows_of (found_of matches.now)) }
    ensures ok { IfOk result (λ wanted. let rows = rows_of (found_of matches.now) in
        IsNameIn (script_word rows) × (asks_json rows ≡ true → script_word rows ≡ None)
        × (IsSome (gen_word rows) → (script_word rows ≡ None) × (asks_json rows ≡ false))
        × (option_map (λ name. name.now) wanted.0 ≡ script_word rows) × (wanted.1 ≡ asks_json rows)) }
    ensures usage { IfErr result (λ fault. let rows = rows_of (found_of matches.now) in
        IsNameIn (script_word rows) → (asks_json rows ≡ true → script_word rows ≡ None)
        → (IsSome (gen_word rows) → (script_word rows ≡ None) × (asks_json rows ≡ false)) → ⊥) }
{
    let ask = name(matches, "ask")?;
    let json = is_set(matches, "json");
    if json && ask.is_some() {
        return Err(WordsFault::Usage);
    }
    if generated.is_some() && (json || ask.is_some()) {
        return Err(WordsFault::Usage);
    }
    Ok((ask, json))
}

/// The most steps of a run, where a word gives it, beside which neither a script nor JSON nor a generated program is asked for.
fn steps_alone(
    matches: &ArgMatches<'_>,
    generated: Option<u32>,
    asks: bool,
) -> Result<Option<u32>, WordsFault>
    requires number { generated ≡ number_of (codes "gen") (rows_of (found_of matches.now)) }
    requires other { let rows = rows_of (found_of matches.now) in
        IsTrue asks ↔ (((script_word rows ≡ None) × (asks_json rows ≡ false)) → ⊥) }
    ensures ok { IfOk result (λ n. let rows = rows_of (found_of matches.now) in
        IsNumberIn 0 1000000 (run_word rows) × (n ≡ number_of (codes "run") rows)
        × (IsSome (run_word rows) → (script_word rows ≡ None) × (asks_json rows ≡ false) × (gen_word rows ≡ None))) }
    ensures usage { IfErr result (λ fault. let rows = rows_of (found_of matches.now) in
        IsNumberIn 0 1000000 (run_word rows)
        → (IsSome (run_word rows) → (script_word rows ≡ None) × (asks_json rows ≡ false) × (gen_word rows ≡ None)) → ⊥) }
{
    let steps = steps(matches)?;
    if steps.is_some() && (asks || generated.is_some()) {
        return Err(WordsFault::Usage);
    }
    Ok(steps)
}

/// Whether the questions of a script are to go over a desk, which is refused where no script is asked for.
fn desk_beside(matches: &ArgMatches<'_>, asked: bool) -> Result<bool, WordsFault>
    requires asked { IsTrue asked ↔ IsSome (script_word (rows_of (found_of matches.now))) }
    ensures ok { IfOk result (λ desk. let rows = rows_of (found_of matches.now) in
        (asks_desk rows ≡ true → IsSome (script_word rows)) × (desk ≡ asks_desk rows)) }
    ensures usage { IfErr result (λ fault. let rows = rows_of (found_of matches.now) in
        (asks_desk rows ≡ true → IsSome (script_word rows)) → ⊥) }
{
    let desk = is_set(matches, "desk");
    if desk && !asked {
        return Err(WordsFault::Usage);
    }
    Ok(desk)
}

/// Whether a script, a report as JSON, a generated program, a run or an entry is asked for.
fn asks_other(
    matches: &ArgMatches<'_>,
    wanted: bool,
    generated: Option<u32>,
    steps: Option<u32>,
) -> bool
    requires wanted { let rows = rows_of (found_of matches.now) in
        IsTrue wanted ↔ (((script_word rows ≡ None) × (asks_json rows ≡ false)) → ⊥) }
    requires generated { generated ≡ number_of (codes "gen") (rows_of (found_of matches.now)) }
    requires steps { steps ≡ number_of (codes "run") (rows_of (found_of matches.now)) }
    ensures none { result ≡ false → AsksNoOther (rows_of (found_of matches.now)) }
    ensures some { result ≡ true → AsksNoOther (rows_of (found_of matches.now)) → ⊥ }
{
    wanted || generated.is_some() || steps.is_some() || text_of(matches, "entry").is_some()
}

/// Whether a flag stands that asks for a text of its own, which is refused beside any other.
fn flag_alone(matches: &ArgMatches<'_>, flag: &str, other: bool) -> Result<bool, WordsFault>
    ensures ok { IfOk result (λ set. (set ≡ is_flagged flag.now (rows_of (found_of matches.now))) × (set ≡ true → other ≡ false)) }
    ensures usage { IfErr result (λ fault. (is_flagged flag.now (rows_of (found_of matches.now)) ≡ true) × (other ≡ true)) }
{
    let set = is_set(matches, flag);
    if set && other {
        return Err(WordsFault::Usage);
    }
    Ok(set)
}

/// The command of words that clap takes.
fn command_of<'a>(alloc: Global, matches: &ArgMatches<'a>) -> Result<Command<'a>, WordsFault>
    ensures ok { IfOk result (λ command. KeepsRules (rows_of (found_of matches.now)) × Says (rows_of (found_of matches.now)) command) }
    ensures usage { IfErr result (λ fault. fault ≡ WordsFault.Usage → KeepsRules (rows_of (found_of matches.now)) → ⊥) }
{
    let workers = workers(matches)?;
    let generated = generated(matches)?;
    let (ask, json) = wanted(matches, generated)?;
    let steps = steps_alone(matches, generated, json || ask.is_some())?;
    let desk = desk_beside(matches, ask.is_some())?;
    let other = asks_other(matches, json || ask.is_some(), generated, steps);
    let effects = flag_alone(matches, "effects", other)?;
    let stops = flag_alone(matches, "stops", other || effects)?;
    let entries = entries(alloc, matches, generated)?;
    let units = units_beside(alloc, matches, generated)?;
    Ok(Command {
        workers,
        ask,
        json,
        generated,
        steps,
        desk,
        effects,
        stops,
        entries,
        units,
    })
}

/// The command that the words give, without the program's name. `Usage` comes exactly where they break a rule: an option that isn't
/// `--workers`, `--ask`, `--desk`, `--json`, `--gen`, `--run`, `--effects`, `--stops` or `--entry`, one that stands twice or lacks its
/// value, a value for `--desk`, `--json`, `--effects` or `--stops`, more than one of `--ask`, `--json`, `--gen`, `--run`, `--effects` and
/// `--stops`, `--desk` without `--ask`, a number that isn't 1 to 10 digits or is out of 1 to 64, or behind `--gen` out of 1 to 1000, or
/// behind `--run` over 1,000,000, `--entry` beside `--gen`, `--effects` or `--stops`, behind `--entry` more than 64 names with single
/// commas
/// between them, one that isn't the spelling of a C identifier, or one twice, a unit beside `--gen`, no unit or more than 256 without it, a
/// name of a unit or of a script that isn't 1 to 255 bytes out of letters, digits, `.`, `_`, `-` and `/` or begins with `-`, and a unit
/// twice. A script may have the name of a unit, and an entry that of a keyword. Any words may meet want of memory.
pub fn parse_words<'a>(alloc: Global, words: &'a [String]) -> Result<Command<'a>, WordsFault>
    ensures ok { IfOk result (λ command. IsCommandOf (map string_bytes words.entry.now) command) }
    ensures usage { IfErr result (λ fault. fault ≡ WordsFault.Usage → AreRight (map string_bytes words.entry.now) → ⊥) }
{
    let matches = read(alloc, words)?;
    command_of(alloc, &matches)
}
