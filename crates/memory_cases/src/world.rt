// A memory with its types, and calls by name.

ghost use Rattle.std.specs.Prelude.{◌<◌, IsTrue, length};
ghost use Rattle.ref_cells.specs.Places.{AreKnown};

use crate::case_types::types::{CHAR, INT, table_of_types};
use crate::page::Page;
use crate::shown::{write_answer, write_fault, write_value};
use crate::steps::{are_known, is_known};
use c_types::key::ObjectKey;
use c_types::table::TypeTable;
use c_types::term::{PathStep, TypeId};
use lib_summaries::summary;
use pta_base::Listing;
use ref_cells::cells::{Cell, Value};
use ref_lib::effect::effect;
use ref_mem::memory::Memory;
use std::alloc::Global;
use std::test::Fail;

/// What a case passes and names: a number, null, a function, or a place.
#[derive(Clone, Copy)]
pub(crate) enum Arg {
    /// A number.
    Number(i128),
    /// The null pointer.
    Null,
    /// A function.
    Function,
    /// A whole instance.
    Whole(u32),
    /// An element of an instance.
    At(u32, u64),
    /// A member of an instance.
    Member(u32, u32),
    /// A member of a member.
    Nested(u32, u32, u32),
}

fn pointer(alloc: Global, instance: u32, path: &[PathStep]) -> Result<Cell, Fail> {
    let steps = Vec::from_slice(alloc, path)?;
    Ok(Cell::Pointer {
        instance,
        path: Listing::of(steps),
        past: false,
    })
}

fn cell_of(alloc: Global, arg: Arg) -> Result<Cell, Fail> {
    match arg {
        Arg::Number(n) => Ok(Cell::Number(n)),
        Arg::Null => Ok(Cell::Null),
        Arg::Function => Ok(Cell::Function(ObjectKey::Entity(9))),
        Arg::Whole(i) => pointer(alloc, i, &[]),
        Arg::At(i, k) => pointer(alloc, i, &[PathStep::Index(k)]),
        Arg::Member(i, m) => pointer(alloc, i, &[PathStep::Member(m)]),
        Arg::Nested(i, m, n) => { pointer(alloc, i, &[PathStep::Member(m), PathStep::Member(n)]) }
    }
}

fn values_of(alloc: Global, args: &[Arg]) -> Result<Vec<Value>, Fail> {
    let mut list = Vec::new(alloc);
    for arg in args {
        let cell = cell_of(alloc, *arg)?;
        let value = Value::one(alloc, cell)?;
        list.push(value)?;
    }
    Ok(list)
}

/// A memory over the table of all cases.
#[derive(Drop)]
pub(crate) struct World {
    alloc: Global,
    table: TypeTable,
    memory: Memory,
}

impl World {
    /// The memory without instances.
    pub(crate) fn new(alloc: Global) -> Result<World, Fail> {
        let table = table_of_types(alloc)?;
        let memory = Memory::new(alloc);
        Ok(World {
            alloc,
            table,
            memory,
        })
    }

    /// A new object of that type, zero or unset.
    pub(crate) fn object(&mut self, ty: TypeId, zero: bool) -> Result<u32, Fail> {
        self.library(ObjectKey::Entity(1), ty, zero)
    }

    /// A new object with that key.
    pub(crate) fn library(&mut self, key: ObjectKey, ty: TypeId, zero: bool) -> Result<u32, Fail> {
        Ok(self.memory.make(&self.table, key, Some(ty), 0, zero)?)
    }

    /// A new object with these characters or numbers from its first element on.
    pub(crate) fn holding(&mut self, ty: TypeId, of: TypeId, list: &[i128]) -> Result<(), Fail> {
        let i = self.object(ty, false)?;
        let mut aside = Page::new(self.alloc);
        for (k, n) in list.iter().enumerate() {
            self.put(&mut aside, Arg::At(i, k as u64), of, Arg::Number(*n))?;
        }
        Ok(())
    }

    // Whether a type and all types of the memory are the table's; tells where they aren't.
    fn knows(&self, out: &mut Page, ty: TypeId) -> bool
        ensures ty { IsTrue result → ty.0 < length self.now.table.terms }
        ensures memory { IsTrue result → AreKnown (length self.now.table.terms) self.now.memory }
    {
        let known = ty.0 < self.table.type_count() && are_known(&self.table, &self.memory);
        out.say(if known { "" } else { "not known" });
        known
    }

    /// Tells what a write of a cell at a place answers.
    pub(crate) fn put(
        &mut self,
        out: &mut Page,
        place: Arg,
        ty: TypeId,
        given: Arg,
    ) -> Result<(), Fail> {
        let place = cell_of(self.alloc, place)?;
        let given = cell_of(self.alloc, given)?;
        let value = Value::one(self.alloc, given)?;
        self.write(out, &place, ty, &value);
        Ok(())
    }

    // Tells what a write of a value at a place answers.
    fn write(&mut self, out: &mut Page, place: &Cell, ty: TypeId, value: &Value) {
        if !self.knows(out, ty) {
            return;
        }
        match self.memory.write(&self.table, place, ty, value) {
            Ok(()) => out.say("written"),
            Err(fault) => write_fault(self.alloc, out, &fault),
        }
    }

    /// Tells what a write of the value at another place answers.
    pub(crate) fn assign(
        &mut self,
        out: &mut Page,
        place: Arg,
        ty: TypeId,
        from: Arg,
    ) -> Result<(), Fail> {
        let place = cell_of(self.alloc, place)?;
        let from = cell_of(self.alloc, from)?;
        if !self.knows(out, ty) {
            return Ok(());
        }
        match self.memory.read(&self.table, &from, ty) {
            Ok(value) => self.write(out, &place, ty, &value),
            Err(fault) => write_fault(self.alloc, out, &fault),
        }
        Ok(())
    }

    /// Tells what a read at a place gives.
    pub(crate) fn get(&self, out: &mut Page, place: Arg, ty: TypeId) -> Result<(), Fail> {
        let place = cell_of(self.alloc, place)?;
        if !self.knows(out, ty) {
            return Ok(());
        }
        match self.memory.read(&self.table, &place, ty) {
            Ok(value) => write_value(out, &value),
            Err(fault) => write_fault(self.alloc, out, &fault),
        }
        Ok(())
    }

    /// Tells what is read from the first so many elements of an instance.
    pub(crate) fn elements(&self, out: &mut Page, i: u32, of: TypeId, n: u64) -> Result<(), Fail> {
        for k in 0..n {
            out.say(if k > 0 { " " } else { "" });
            self.get(out, Arg::At(i, k), of)?;
        }
        Ok(())
    }

    /// Tells the marks of an instance: whether it lives, its bytes, whether it has a type, and its mark of zeros.
    pub(crate) fn state(&self, out: &mut Page, i: u32) {
        match self.memory.instances().get(i as usize) {
            Some(inst) => {
                out.say(if inst.live { "live " } else { "ended " });
                out.number(i128::from(inst.bytes));
                out.say(if inst.ty.is_some() {
                    " typed"
                } else {
                    " untyped"
                });
                out.say(if inst.zero { " zero" } else { " unset" });
            }
            None => out.say("none"),
        }
    }

    /// An instance gets the type of its elements.
    pub(crate) fn give(&mut self, i: u32, ty: TypeId) {
        if (i as usize) < self.memory.instances().len() {
            self.memory.give_type(&self.table, i, ty);
        }
    }

    /// An instance ends.
    pub(crate) fn stop(&mut self, i: u32) {
        if (i as usize) < self.memory.instances().len() {
            self.memory.end(i);
        }
    }

    /// Tells what a call of the library function of that name answers; the new object of `strdup` has characters.
    pub(crate) fn call(
        &mut self,
        out: &mut Page,
        name: &str,
        args: &[Arg],
        word: u64,
    ) -> Result<(), Fail> {
        let list = values_of(self.alloc, args)?;
        let Some(found) = summary(name) else {
            out.say("no function");
            return Ok(());
        };
        let fixed = if name == "strdup" { Some(CHAR) } else { None };
        if !is_known(&self.table, fixed) {
            out.say("not known");
            return Ok(());
        }
        if !self.knows(out, INT) {
            return Ok(());
        }
        let fresh = (ObjectKey::Call(7), fixed);
        let answer = effect(
            self.alloc,
            &mut self.memory,
            &self.table,
            found.number,
            fresh,
            INT,
            list.as_slice(),
            word,
        );
        write_answer(self.alloc, out, &answer);
        Ok(())
    }
}
