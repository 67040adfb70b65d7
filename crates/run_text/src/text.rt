// The text of a run.

ghost use Rattle.std.specs.Prelude.{◌≡◌, IfOk};
ghost use Rattle.core_tree.specs.Typed.{trees_in};
ghost use Rattle.core_tree.specs.Range.{InRange};
ghost use Rattle.ref_machine.specs.Machines.{IsMachineOf};
ghost use Rattle.ref_machine.specs.Run.{word_for, words_after};
ghost use Rattle.ref_machine.specs.Step.{step};
ghost use Rattle.ref_machine.specs.Types.{running};
ghost use Rattle.run_text.specs.RunText.{Adds, run_told};

use crate::lines::{add_finish, add_notes, add_stop, add_went};
use c_types::term::OutOfMemory;
use core_tree::Program;
use ref_machine::Machine;
use ref_state::state::StepAnswer;
use std::alloc::Global;

/// The text of a run, and whether one of its steps stopped, which is then the last one.
#[derive(Drop)]
pub struct RunText {
    pub text: Vec<u8>,
    pub stopped: bool,
}

// The word that a step takes, and those that are left: one that chooses takes the first, or 0 where none is left.
fn next_word(words: &[u64], chooses: bool) -> (u64, &[u64])
    ensures word { result.0 ≡ word_for chooses words.now }
    ensures rest { result.1.now ≡ words_after chooses words.now }
{
    if !chooses {
        return (0, words);
    }
    if words.is_empty() {
        return (0, words);
    }
    (words[0], &words[1..])
}

// Makes a step and adds what is told of it. Where the run has ended it answers whether the step stopped.
fn add_step(
    text: &mut Vec<u8>,
    program: &Program,
    machine: &mut Machine,
    word: u64,
) -> Result<Option<bool>, OutOfMemory>
    requires { IsMachineOf program.now machine.old }
    ensures machine { IsMachineOf program.now machine.new }
    ensures told { IfOk result (Adds program.now text.old.items text.new.items machine.new.state
        (step (running program.now) machine.old.state word)) }
{
    match machine.step(program, word)? {
        StepAnswer::Went => {
            add_notes(
                text,
                program,
                machine.space(),
                machine.memory(),
                machine.notes(),
            )?;
            Ok(None)
        }
        StepAnswer::Finished(status) => {
            add_finish(text, status)?;
            Ok(Some(false))
        }
        StepAnswer::Stopped(reason, n) => {
            add_stop(text, program, reason, n)?;
            Ok(Some(true))
        }
    }
}

/// The text of the first so many steps of a program: `run 1`; then, in order of the steps, `target PLACE FUNCTION` for each call through a
/// pointer and `store CELL TARGET` for each pointer that was put into a cell, by the names of their locations; then `finished STATUS`,
/// `stopped REASON PLACE`, or `went STEPS` where no step ended the run. A step that chooses takes the next of the words, or 0 where none
/// is left. A place in memory that has no location is told as `?`. The one error is want of memory.
pub fn run_text(
    alloc: Global,
    program: &Program,
    words: &[u64],
    steps: u32,
) -> Result<RunText, OutOfMemory>
    requires { InRange (trees_in program.now) }
    ensures { IfOk result (λ run. record { text = run.text.items; stopped = run.stopped } ≡ run_told program.now words.now steps) }
{
    let mut text = Vec::from_slice(alloc, b"run 1\n")?;
    let mut machine = Machine::start(alloc, program)?;
    let mut left = words;
    for _ in 0..steps {
        let (word, rest) = next_word(left, machine.chooses(program));
        left = rest;
        if let Some(stopped) = add_step(&mut text, program, &mut machine, word)? {
            return Ok(RunText { text, stopped });
        }
    }
    add_went(&mut text, steps)?;
    Ok(RunText {
        text,
        stopped: false,
    })
}
