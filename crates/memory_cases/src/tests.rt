// Each script on a memory of its own.
use crate::page::Page;
use crate::scripts::SCRIPTS;
use crate::words::{arg_of, args_from, count, numbers_from, type_of, word, words_of};
use crate::world::World;
use c_types::key::ObjectKey;
use std::alloc::Global;
use std::test::Fail;

/// Makes, ends or changes an object without an answer; whether the step is one that does so.
fn prepares(alloc: Global, world: &mut World, words: &[&str]) -> Result<bool, Fail> {
    let ty = type_of(word(words, 1));
    match word(words, 0) {
        "object" => {
            world.object(ty, word(words, 2) == "zero")?;
        }
        "library" => {
            let key = ObjectKey::Library(count(word(words, 1)));
            world.library(key, type_of(word(words, 2)), true)?;
        }
        "outside" => {
            world.library(ObjectKey::Outside, ty, true)?;
        }
        "hold" => {
            let numbers = numbers_from(alloc, words, 3)?;
            world.holding(ty, type_of(word(words, 2)), numbers.as_slice())?;
        }
        "give" => world.give(count(word(words, 1)), type_of(word(words, 2))),
        "stop" => world.stop(count(word(words, 1))),
        _ => return Ok(false),
    }
    Ok(true)
}

/// Tells what another step answers.
fn answer(alloc: Global, world: &mut World, out: &mut Page, words: &[&str]) -> Result<(), Fail> {
    let ty = type_of(word(words, 2));
    let first = count(word(words, 1));
    match word(words, 0) {
        "put" => world.put(out, arg_of(word(words, 1)), ty, arg_of(word(words, 3)))?,
        "assign" => world.assign(out, arg_of(word(words, 1)), ty, arg_of(word(words, 3)))?,
        "get" => world.get(out, arg_of(word(words, 1)), ty)?,
        "elements" => world.elements(out, first, ty, u64::from(count(word(words, 3))))?,
        "state" => world.state(out, first),
        "call" => {
            let args = args_from(alloc, words, 3)?;
            world.call(out, word(words, 2), args.as_slice(), u64::from(first))?;
        }
        _ => out.lacks = true,
    }
    Ok(())
}

/// Whether a step answers what its line says.
fn holds(alloc: Global, world: &mut World, line: &str) -> Result<bool, Fail> {
    let mut parts = line.split('`');
    let words = words_of(alloc, parts.next().unwrap_or(""))?;
    if prepares(alloc, world, words.as_slice())? {
        return Ok(true);
    }
    let mut out = Page::new(alloc);
    answer(alloc, world, &mut out, words.as_slice())?;
    Ok(!out.lacks && out.text.as_str() == parts.next().unwrap_or(""))
}

/// The number of the first step that doesn't answer what its line says.
fn first_wrong(alloc: Global, script: &str) -> Result<Option<usize>, Fail> {
    let mut world = World::new(alloc)?;
    for (at, line) in script.split('\n').enumerate() {
        if at > 0 && !holds(alloc, &mut world, line)? {
            return Ok(Some(at));
        }
    }
    Ok(None)
}

#[test]
fn scripts(rt: HostRuntime) -> Result<(), Fail> {
    for script in SCRIPTS.split("\n\n") {
        let wrong = first_wrong(rt.alloc(), script)?;
        assert!(rt; wrong.is_none(), "{wrong:?} of {script}");
    }
    Ok(())
}
