// The top call.
ghost use Rattle.std.specs.Prelude.{◌≡◌, ◌≢◌, ◌⊎◌, ℕ, ◌<◌, ◌≤◌, ◌^◌, None, Some, List, [], length, zip, IfErr, IfOk};
ghost use Rattle.std.specs.Prelude.{IfSome, IsSome, Contains};
ghost use Rattle.pta_base.specs.Outside.{HasRisen, IsSteady};
ghost use Rattle.core_tree.specs.declared.node.Program.{Program};
ghost use Rattle.sol_model.specs.declared.system.System.{System};
ghost use Rattle.command_line.specs.Rules.{AreRight};
ghost use Rattle.command_line.specs.Distinct.{AreDistinct};
ghost use Rattle.text_units.specs.Answers.{names_of, Answer};
ghost use Rattle.report_cli.specs.covered_reports.Reports.{AreEffectsCovered, AreRunsCovered, HasLeast};
ghost use Rattle.report_cli.specs.covered_reports.Stops.{AreBadCallsListed};
ghost use Rattle.report_cli.specs.Words.{entries_read, names_read, steps_read, texts_of, AreUnitNames};
ghost use Rattle.report_cli.specs.Told.{form_for, generated, names_for, read_as, told_as, told_for};
ghost use Rattle.report_cli.specs.Printed.{IsPrinted};
ghost use Rattle.text_units.specs.Alone.{AreReadAlone};
ghost use Rattle.report_cli.specs.Scripts.{named_side};
ghost use Rattle.report_cli.specs.Accepted.{AreAccepted};
ghost use Rattle.report_cli.specs.Outcome.{Denotes, IsRefusedBy, RefusesTold, RefusesToldRead, RefusesToldRight, Outcome};
ghost use Rattle.text_units.specs.Refused.{HaveRightUnits};
ghost use Rattle.text_units.specs.Kinds.{IsKindLine};
ghost use Rattle.unit_report.specs.report_text.Outside.{Grows, GrowsInPart};
ghost use Rattle.report_cli.specs.Outside.{IsWritten, Receives, source_fault, sink_fault, out_of_memory, usage_line};
ghost use Rattle.unit_report.specs.Solved.{IsKept, IsSolvedShared};
ghost use Rattle.report_cli.specs.Faults.{IsFaultOfTold};

use crate::form::{Form, Printed};
use crate::output::say;
use crate::reading::{ReadingFault, copied, names_for, read_units, side_name};
use crate::side::{Asked, Side, SideText};
use crate::solved::text_of_units;
use command_line::{Command, WordsFault, parse_words};
use gen_units::generate;
use pta_base::{Gate, Listing, Sink, Units};
use std::alloc::{AllocError, Global};
use std::sync::Wait;
use std::thread::Threads;
use text_units::fault::UnitsFault;
use text_units::lowered::name_at;
use unit_report::Solved;
use unit_report::report_text::write_text;

/// A text of this many bytes is too long, so that no more of it needs to be read.
const LIMIT: usize = 16_777_217;

/// Says that memory wanted.
fn out_of_memory<E: Sink>(err: &mut E) -> u8
    ensures status { result ≡ 9 }
    ensures said { Receives (E.written err.old) (E.written err.new) (E.faults err.old) (E.faults err.new) out_of_memory }
{
    say(err, b"out of memory\n");
    9
}

/// The line that says that a unit could not be read.
fn source_fault_line(alloc: Global, name: &str) -> Result<Vec<u8>, AllocError>
    ensures { IfOk result (λ line. line.items ≡ source_fault name.now) }
{
    let mut line = Vec::from_slice(alloc, b"source fault ")?;
    line.extend_from_slice(name.as_bytes())?;
    line.extend_from_slice(b"\n")?;
    Ok(line)
}

/// Says that a unit could not be read.
fn source_fault<E: Sink>(alloc: Global, name: &str, err: &mut E) -> u8
    ensures status { (result ≡ 7) ⊎ (result ≡ 9) }
    ensures said { result ≡ 7
        → Receives (E.written err.old) (E.written err.new) (E.faults err.old) (E.faults err.new) (source_fault name.now) }
    ensures memory { result ≡ 9 → Receives (E.written err.old) (E.written err.new) (E.faults err.old) (E.faults err.new) out_of_memory }
{
    match source_fault_line(alloc, name) {
        Ok(line) => {
            say(err, line.as_slice());
            7
        }
        Err(_) => out_of_memory(err),
    }
}

/// Writes a text, or says that it could not be written.
fn deliver<O: Sink, E: Sink>(out: &mut O, err: &mut E, text: &[u8]) -> u8
    ensures status { (result ≡ 0) ⊎ (result ≡ 8) }
    ensures whole { result ≡ 0 → Grows (O.written out.old) (O.written out.new) text.now }
    ensures part { result ≡ 8 → GrowsInPart (O.written out.old) (O.written out.new) text.now }
    ensures cause { result ≡ 8 → HasRisen (O.faults out.old) (O.faults out.new) }
    ensures steady { result ≡ 0 → O.faults out.new ≡ O.faults out.old }
    ensures silent { result ≡ 0 → E.written err.new ≡ E.written err.old }
    ensures said { result ≡ 8 → Receives (E.written err.old) (E.written err.new) (E.faults err.old) (E.faults err.new) sink_fault }
{
    if write_text(out, text) {
        return 0;
    }
    say(err, b"sink fault\n");
    8
}

/// Keeps what was solved.
fn keep(kept: &mut Option<Solved>, solved: Solved)
    ensures { kept.new ≡ Some solved }
{
    *kept = Some(solved);
}

/// What is read beside the units of a command, whose text was read behind theirs.
fn side_of<'a>(command: &Command<'a>, texts: &'a [Listing<u8>]) -> Side<'a>
    requires { length texts.now ≡ length (names_for command.now) }
    ensures { named_side result ≡ (read_as command.now texts.now).side }
{
    let Some(name) = side_name(command) else {
        return Side::Nothing;
    };
    let text = SideText {
        name,
        text: texts[command.units.len()].as_slice(),
    };
    match command.steps {
        Some(steps) => Side::Words(steps, text),
        None => Side::Questions(text, command.desk),
    }
}

/// The texts of a command's units.
fn unit_texts<'a>(command: &Command<'_>, texts: &'a [Listing<u8>]) -> &'a [Listing<u8>]
    requires { length texts.now ≡ length (names_for command.now) }
    ensures units { zip (names_of command.now.units.items) result.now ≡ (read_as command.now texts.now).units }
    ensures count { length result.now ≡ length command.now.units.items }
{
    &texts[..command.units.len()]
}

/// What is printed of the generated program of a number, which is read as the one unit `gen`, with the system that was solved for it, or
/// the fault that refuses it.
fn text_of_generated<R: Threads + Wait + Sync, G: Gate + Sync>(
    rt: &R,
    alloc: Global,
    number: u32,
    workers: u32,
    gate: &G,
) -> Result<Printed, UnitsFault>
    requires number { (1 ≤ number) × (number ≤ 1000) }
    requires workers { (0 < workers) × (workers ≤ 64) }
    ensures printed { IfOk result (λ made. (program : Program) × (system : System)
        × Denotes (generated number).entries (generated number).units program
        × IsPrinted (generated number).form (generated number).side program system made.text.items made.status
        × IsSolvedShared system made.solved) }
    ensures refused { IfErr result (IsFaultOfTold (generated number)) }
{
    let text = generate(alloc, number)?;
    text_of_units(
        rt,
        alloc,
        &["gen"],
        &[Listing::of(text)],
        Asked {
            entries: &[],
            side: Side::Nothing,
            form: Form::Summary(number),
        },
        workers,
        gate,
    )
}

/// What is printed for a command where nothing is read beside its units.
fn form_of(command: &Command<'_>) -> Form
    ensures { result ≡ form_for command.now }
{
    if command.effects {
        return Form::Effects;
    }
    if command.stops {
        return Form::Stops;
    }
    Form::Report(command.json)
}

/// What is printed for a command that asks for no generated program, by the texts that were read for it, with the system that was solved
/// for it, or the fault that refuses what was read.
fn text_of_read<R: Threads + Wait + Sync, G: Gate + Sync>(
    rt: &R,
    alloc: Global,
    command: &Command<'_>,
    texts: &[Listing<u8>],
    gate: &G,
) -> Result<Printed, UnitsFault>
    requires distinct { AreDistinct (names_of command.now.units.items) }
    requires bytes { AreUnitNames (names_of command.now.units.items) }
    requires few { length command.now.units.items ≤ 2 ^ 8 }
    requires workers { (0 < command.now.workers) × (command.now.workers ≤ 64) }
    requires count { length texts.now ≡ length (names_for command.now) }
    ensures printed { IfOk result (λ made. let told = read_as command.now texts.now in (program : Program) × (system : System)
        × Denotes told.entries told.units program × IsPrinted told.form told.side program system made.text.items made.status
        × IsSolvedShared system made.solved) }
    ensures refused { IfErr result (IsFaultOfTold (read_as command.now texts.now)) }
{
    let named = command.entries.as_slice();
    let copies = copied(alloc, named)?;
    let entries = copies.as_slice();
    let side = side_of(command, texts);
    let form = form_of(command);
    let asked = Asked {
        entries,
        side,
        form,
    };
    let names = command.units.as_slice();
    let own = unit_texts(command, texts);
    text_of_units(rt, alloc, names, own, asked, command.workers, gate)
}

/// What is printed for a command by the texts that were read for it, with the system that was solved for it, or the fault that refuses
/// what it is told.
fn text_of_command<R: Threads + Wait + Sync, G: Gate + Sync>(
    rt: &R,
    alloc: Global,
    command: &Command<'_>,
    texts: &[Listing<u8>],
    gate: &G,
) -> Result<Printed, UnitsFault>
    requires distinct { AreDistinct (names_of command.now.units.items) }
    requires bytes { AreUnitNames (names_of command.now.units.items) }
    requires few { length command.now.units.items ≤ 2 ^ 8 }
    requires workers { (0 < command.now.workers) × (command.now.workers ≤ 64) }
    requires number { IfSome command.now.generated (λ number. (1 ≤ number) × (number ≤ 1000)) }
    requires count { length texts.now ≡ length (names_for command.now) }
    ensures printed { IfOk result (λ made. let told = told_as command.now texts.now in (program : Program) × (system : System)
        × Denotes told.entries told.units program × IsPrinted told.form told.side program system made.text.items made.status
        × IsSolvedShared system made.solved) }
    ensures refused { IfErr result (IsFaultOfTold (told_as command.now texts.now)) }
{
    match command.generated {
        Some(number) => text_of_generated(rt, alloc, number, command.workers, gate),
        None => text_of_read(rt, alloc, command, texts, gate),
    }
}

/// Answers a command by the texts that were read for it, and answers the status. With status 0 it leaves what was solved.
fn answer_units<R: Threads + Wait + Sync, O: Sink, E: Sink, G: Gate + Sync>(
    rt: &R,
    alloc: Global,
    command: &Command<'_>,
    texts: &[Listing<u8>],
    out: &mut O,
    err: &mut E,
    gate: &G,
    kept: &mut Option<Solved>,
) -> u8
    requires distinct { AreDistinct (names_of command.now.units.items) }
    requires bytes { AreUnitNames (names_of command.now.units.items) }
    requires few { length command.now.units.items ≤ 2 ^ 8 }
    requires workers { (0 < command.now.workers) × (command.now.workers ≤ 64) }
    requires number { IfSome command.now.generated (λ number. (1 ≤ number) × (number ≤ 1000)) }
    requires count { length texts.now ≡ length (names_for command.now) }
    ensures listed { IsWritten result
        ⊎ (((result ≡ 3) ⊎ ((result ≡ 4) ⊎ ((result ≡ 5) ⊎ ((result ≡ 6) ⊎ ((result ≡ 10) ⊎ (result ≡ 12))))))
        ⊎ ((result ≡ 8) ⊎ (result ≡ 9))) }
    ensures delivered { result ≡ 0 → (program : Program) × (system : System) × (text : List ℕ)
        × Denotes (told_as command.now texts.now).entries (told_as command.now texts.now).units program
        × IsPrinted (told_as command.now texts.now).form (told_as command.now texts.now).side program system text 0
        × Grows (O.written out.old) (O.written out.new) text × (E.written err.new ≡ E.written err.old) × IsKept system kept.new }
    ensures stopped { result ≡ 11 → (program : Program) × (system : System) × (text : List ℕ)
        × Denotes (told_as command.now texts.now).entries (told_as command.now texts.now).units program
        × IsPrinted (told_as command.now texts.now).form (told_as command.now texts.now).side program system text 11
        × Grows (O.written out.old) (O.written out.new) text × (E.written err.new ≡ E.written err.old) }
    ensures unsolved { result ≢ 0 → kept.new ≡ kept.old }
    ensures broken { result ≡ 8 → (program : Program) × (system : System) × (text : List ℕ) × (status : ℕ)
        × Denotes (told_as command.now texts.now).entries (told_as command.now texts.now).units program
        × IsPrinted (told_as command.now texts.now).form (told_as command.now texts.now).side program system text status
        × GrowsInPart (O.written out.old) (O.written out.new) text }
    ensures refused { (IsWritten result → ⊥) → result ≢ 8 → result ≢ 9
        → (line : List ℕ) × IsRefusedBy (told_as command.now texts.now) result line
        × Receives (E.written err.old) (E.written err.new) (E.faults err.old) (E.faults err.new) line }
    ensures unwritten { (IsWritten result → ⊥) → result ≢ 8 → O.written out.new ≡ O.written out.old }
    ensures cause { result ≡ 8 → HasRisen (O.faults out.old) (O.faults out.new) }
    ensures steady { result ≢ 8 → O.faults out.new ≡ O.faults out.old }
    ensures sink { result ≡ 8 → Receives (E.written err.old) (E.written err.new) (E.faults err.old) (E.faults err.new) sink_fault }
    ensures memory { result ≡ 9 → Receives (E.written err.old) (E.written err.new) (E.faults err.old) (E.faults err.new) out_of_memory }
{
    match text_of_command(rt, alloc, command, texts, gate) {
        Ok(printed) => {
            let status = deliver(out, err, printed.text.as_slice());
            if status != 0 {
                return status;
            }
            if printed.status != 0 {
                return printed.status;
            }
            keep(kept, printed.solved);
            0
        }
        Err(UnitsFault::Refused { status, line }) => {
            say(err, line.as_slice());
            status
        }
        Err(UnitsFault::Memory) => out_of_memory(err),
    }
}

/// Does all that the program does: reads the units that the words name, writes the report of their program to `out` or the line of a
/// refusal to `err`, and answers the status. The words are `--workers N`, `--ask UNIT`, `--desk`, `--json`, `--gen N`, `--run N`,
/// `--effects`, `--stops` and units, in any order (`command_line`). With `--ask` the UNIT is a script of questions, and the answers to them
/// are written in place of the report; with `--json`, which doesn't stand beside it, the report is one object of JSON; with `--gen`, which
/// stands beside neither of them nor a unit, the generated program of the number (`gen_units`) is read as the unit `gen`, and a summary
/// (`gen_summary`) is written in place of the report; with `--run`, which stands beside none of these three, the reference machine
/// (`ref_machine`) makes at most N steps of the program, of which each that chooses takes the next number of the text `words`, and the text
/// of the run (`run_text`) is written in place of the report; with `--effects`, which stands beside none of these four, what each function
/// that a unit defines may read and write, by itself and by all that it calls (`mod_ref`), is written in its place, two lines for each
/// (`effects_text`); with `--stops`, which stands beside none of these five, the places of the nodes that stand as a mismatch or a bad call
/// by the solution (`stop_places`) are written in its place, a line for each (`stop_report`). The statuses are 0 for a text that was
/// written whole, 2 for words that aren't right, 3 for a text that has no tokens (C11 6.4) or whose tokens are no unit (C11 6.9), or for
/// `words` where it isn't numbers below 2^64 and white space, 4 for a construct that isn't accepted, 5 for units that don't link, 6 for a
/// text, a script or `words` of more than 2^24 bytes, more than 256 constructs that nest, or a program of more than 2^24 nodes or words of
/// rows, 7 for a unit, a script or `words` that could not be read, 8 for a text that could not be written, 9 for want of memory, 10 for a
/// script's first line that isn't in the grammar or names nothing of the right sort (`alias_query`), and 11 for the text of a run, written
/// whole, whose last step isn't defined. The units are read in order and then the script or `words`; its length is looked at when the units
/// are linked and within the limits, and then its lines or numbers, before the system is solved. All memory is taken before the first byte
/// is written. When all texts are read, the tokens, the syntax, the names and the types of each unit are one job. As many workers as the
/// words say, 1 where they don't, have a share of the jobs each, at once, and the job of unit i, from 0, passes the gate first, as worker
/// 100 + i with the turn 0. Whichever job ends first, the first unit in order whose job fails decides, for want of memory too. The system
/// is solved on shared rows by as many workers; each passes the gate before each of its pieces. With `--ask` an asker beside the workers
/// tries each question up to 16 times, and passes the gate before each try t from 0 on, as worker number N with the turn t, where N is the
/// number of workers; what is open then is asked when the rows are closed. With `--desk`, which stands beside `--ask` alone, two askers
/// send the questions to a desk with room for 64 in its place, question i from asker i modulo 2, and a thread of the desk's takes them and
/// tries each up to 16 times (`desk_rounds`); an asker passes the gate before its first try to send a question, as worker 400 and its own
/// number with the number of the question among its own. What wasn't sent, taken or answered then is asked when the rows are closed, so the
/// text is the same. Only with `--desk` does the call wait for other threads in the calls of a queue too. `kept` has to be None; with
/// status 0 it holds the system that was solved, which has one row for all rows of a class of the program's (`row_share`), its table and
/// the seat that solved it, and with any other status it stays None.
pub fn analyse<R: Threads + Wait + Sync, U: Units, O: Sink, E: Sink, G: Gate + Sync>(
    rt: &R,
    alloc: Global,
    words: &[String],
    units: &mut U,
    out: &mut O,
    err: &mut E,
    gate: &G,
    kept: &mut Option<Solved>,
) -> u8
    requires none { kept.old ≡ None }

    // Status 0 means that the bytes written are the report of the least solution of the constraints of the program that
    // the units denote, or with a script the answers to its questions by that solution, with `--gen` the summary of it,
    // with `--run` the text of a run of the program in which no step stopped, with `--effects` what each function may
    // read and write by that solution, or with `--stops` the places that stand as a mismatch or a bad call by it; that
    // there is such a solution, and that the table which is left was solved for its system; that in every run of defined
    // steps of the reference machine on that program, each pointer held in memory and each function called through a
    // pointer stands in the sets of that solution, and the location of each cell that a step reads, writes or changes in
    // what `--effects` prints of the function of each frame on the stack; and that where a step stops for a bad call, it
    // does so at a node of which `--stops` prints the place, or calls a number.
    ensures headline { result ≡ 0 → IfSome (told_for (U.text units.old) (texts_of words.now)) (λ told.
        (program : Program) × (system : System) × (text : List ℕ) × Denotes told.entries told.units program
        × IsPrinted told.form told.side program system text 0 × IsKept system kept.new × HasLeast system
        × AreRunsCovered program system × AreEffectsCovered program system × AreBadCallsListed program system
        × Grows (O.written out.old) (O.written out.new) text) }

    // Status 11 means that the bytes written are the text of a run whose last step stopped; words without `--run` don't
    // give it, whatever they name.
    ensures stopped { result ≡ 11 → IfSome (told_for (U.text units.old) (texts_of words.now)) (λ told.
        (program : Program) × (system : System) × (text : List ℕ) × Denotes told.entries told.units program
        × IsPrinted told.form told.side program system text 11
        × Grows (O.written out.old) (O.written out.new) text) }
    ensures run { result ≡ 11 → IsSome (steps_read (texts_of words.now)) }

    // Nor do words without `--entry` give status 12.
    ensures entry { result ≡ 12 → entries_read (texts_of words.now) ≢ [] }

    // Where neither the outside nor memory failed, the answer is that of the words and the texts.
    ensures outcome { result ≢ 7 → result ≢ 8 → result ≢ 9 → IfSome (told_for (U.text units.old) (texts_of words.now)) (λ told.
        (answer : Answer) × Outcome (texts_of words.now) told answer × (result ≡ answer.status)
        × Grows (O.written out.old) (O.written out.new) answer.out
        × Receives (E.written err.old) (E.written err.new) (E.faults err.old) (E.faults err.new) answer.err) }

    // Status 4 names a kind of what isn't accepted, and never that of what isn't built.
    ensures built { result ≡ 4 → IfSome (told_for (U.text units.old) (texts_of words.now)) (λ told.
        (answer : Answer) × RefusesTold told answer × IsKindLine answer
        × Receives (E.written err.old) (E.written err.new) (E.faults err.old) (E.faults err.new) answer.err) }
    ensures said { result ≡ 2 → Receives (E.written err.old) (E.written err.new) (E.faults err.old) (E.faults err.new) usage_line }
    ensures usage { (result ≡ 2 → AreRight (texts_of words.now) → ⊥) × (AreRight (texts_of words.now) ⊎ ((result ≡ 2) ⊎ (result ≡ 9))) }
    ensures listed { IsWritten result ⊎ ((result ≡ 2)
        ⊎ (((result ≡ 3) ⊎ ((result ≡ 4) ⊎ ((result ≡ 5) ⊎ ((result ≡ 6) ⊎ ((result ≡ 10) ⊎ (result ≡ 12))))))
        ⊎ ((result ≡ 7) ⊎ ((result ≡ 8) ⊎ (result ≡ 9))))) }
    ensures unwritten { (IsWritten result → ⊥) → result ≢ 8 → O.written out.new ≡ O.written out.old }

    // With status 0 a system, with one row for all rows of a class, was solved on the table that is left, by its seat and those split from
    // it, which were joined into it; where the texts are told it is the program's own (`headline`). With any other status nothing is left.
    ensures solved { result ≡ 0 → (system : System) × IsKept system kept.new }
    ensures unsolved { result ≢ 0 → kept.new ≡ None }

    // Where the words are right, each text is that of a unit in which no name is undeclared or redeclared, and the outside doesn't fail,
    // what is printed of the program is written whole (a report, a summary, answers, the text of a run, effects or stops), or the answer
    // is the first refusal of such texts by their rows, by linking, by a limit, or by the script or the words of the run.
    ensures complete { IfSome (told_for (U.text units.old) (texts_of words.now)) (λ told. AreRight (texts_of words.now)
        → AreReadAlone told.units
        → ((name : List ℕ) → Contains (names_read (texts_of words.now)) name → IsSteady (U.faults units.old name) (U.faults units.new name))
        → IsSteady (O.faults out.old) (O.faults out.new)
        → IsWritten result ⊎ ((result ≡ 9) ⊎ ((answer : Answer) × RefusesToldRead told answer × (result ≡ answer.status)))) }

    // Where the words are right, each text has a right unit, and the outside doesn't fail, what is printed of the program is written
    // whole, or the answer is the refusal of all texts together, by linking or by a limit, or that of the script or of the words of the
    // run; no text is refused for itself.
    ensures right { IfSome (told_for (U.text units.old) (texts_of words.now)) (λ told. AreRight (texts_of words.now)
        → HaveRightUnits 0 told.units
        → ((name : List ℕ) → Contains (names_read (texts_of words.now)) name → IsSteady (U.faults units.old name) (U.faults units.new name))
        → IsSteady (O.faults out.old) (O.faults out.new)
        → IsWritten result ⊎ ((result ≡ 9) ⊎ ((answer : Answer) × RefusesToldRight told answer × (result ≡ answer.status)))) }

    // Where the words are right, what is told is accepted, and the outside doesn't fail, what is printed of the program is written whole,
    // but for want of memory: nothing is refused.
    ensures accepted { IfSome (told_for (U.text units.old) (texts_of words.now)) (λ told. AreRight (texts_of words.now)
        → AreAccepted told
        → ((name : List ℕ) → Contains (names_read (texts_of words.now)) name → IsSteady (U.faults units.old name) (U.faults units.new name))
        → IsSteady (O.faults out.old) (O.faults out.new)
        → IsWritten result ⊎ (result ≡ 9)) }

    // The outside: each of its statuses has its cause, and each of its faults its status.
    ensures source { result ≡ 7 → (name : List ℕ) × Contains (names_read (texts_of words.now)) name
        × HasRisen (U.faults units.old name) (U.faults units.new name)
        × Receives (E.written err.old) (E.written err.new) (E.faults err.old) (E.faults err.new) (source_fault name) }
    ensures source_risen { (name : List ℕ) → U.faults units.old name < U.faults units.new name → (result ≡ 7) ⊎ (result ≡ 9) }
    ensures sink { result ≡ 8 → HasRisen (O.faults out.old) (O.faults out.new)
        × Receives (E.written err.old) (E.written err.new) (E.faults err.old) (E.faults err.new) sink_fault }
    ensures sink_risen { O.faults out.old < O.faults out.new → result ≡ 8 }
    ensures broken { result ≡ 8 → IfSome (told_for (U.text units.old) (texts_of words.now)) (λ told.
        (program : Program) × (system : System) × (text : List ℕ) × (status : ℕ) × Denotes told.entries told.units program
        × IsPrinted told.form told.side program system text status
        × GrowsInPart (O.written out.old) (O.written out.new) text) }
    ensures memory { result ≡ 9 → Receives (E.written err.old) (E.written err.new) (E.faults err.old) (E.faults err.new) out_of_memory }
{
    let command = match parse_words(alloc, words) {
        Ok(command) => command,
        Err(WordsFault::Usage) => {
            say(err, b"usage\n");
            return 2;
        }
        Err(WordsFault::OutOfMemory) => return out_of_memory(err),
    };
    let names = match names_for(alloc, &command) {
        Ok(names) => names,
        Err(_) => return out_of_memory(err),
    };
    let all = names.as_slice();
    let texts = match read_units(alloc, all, units, LIMIT) {
        Ok(texts) => texts,
        Err(ReadingFault::Source(number)) => return source_fault(alloc, name_at(all, number), err),
        Err(ReadingFault::Memory) => return out_of_memory(err),
    };
    answer_units(rt, alloc, &command, texts.as_slice(), out, err, gate, kept)
}
