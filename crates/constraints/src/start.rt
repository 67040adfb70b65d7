// What is there when a program begins: at main, its arguments; else what lies outside the functions at which it is entered.

ghost use Rattle.std.specs.Prelude.{◌≡◌, ◌==◌, ◌<◌, ◌≤◌, ◌^◌, ◌++◌, IfOk, OnOk, length, map, filter, not, slice_get};
ghost use Rattle.std.specs.List.{flat_map};
ghost use Rattle.std.specs.Option.{option_and_then};
ghost use Rattle.c_types.specs.declared.key.ObjectKey.{ObjectKey};
ghost use Rattle.core_tree.specs.Typed.{trees_in};
ghost use Rattle.obj_space.specs.View.{view_of};
ghost use Rattle.row_numbers.specs.Functions.{number_of};
ghost use Rattle.row_numbers.specs.Setting.{result_row};
ghost use Rattle.normal_form.specs.Facts.{parameter_rows};
ghost use Rattle.normal_form.specs.SystemOf.{held_by, taken_in, result_rows, entry_constraints, outside_constraints};
ghost use Rattle.constraints.specs.Start.{IsScene, trees_of, view_in};
ghost use Rattle.constraints.specs.System.{first_entity, second_in, second_parameter, start_list};

use crate::functions::{parameter_rows, result_list};
use crate::list::push_held;
use crate::owned::Owned;
use c_types::key::ObjectKey;
use core_tree::Program;
use obj_space::Space;
use pta_base::{Listing, OutOfMemory};
use row_numbers::functions::{Role, keys_in};
use row_numbers::results::Results;
use sol_model::Constraint;
use std::alloc::Global;

// The entity of the first of these objects.
fn first_entity(keys: &[ObjectKey]) -> Option<u32>
    ensures { result ≡ first_entity keys.now }
{
    match keys {
        [ObjectKey::Entity(e), ..] => Some(*e),
        _ => None,
    }
}

// The second parameter of main, if it has one.
fn second_parameter(
    alloc: Global,
    program: &Program,
    owned: &Owned,
) -> Result<Option<ObjectKey>, OutOfMemory>
    requires { length program.now.entities.items < 2 ^ 32 }
    ensures { IfOk result (λ key. key ≡ second_in (trees_in program.now) owned.now.lists.items) }
{
    let mains = keys_in(alloc, Role::Main, program.entities.as_slice())?;
    match first_entity(mains.as_slice()) {
        Some(main) => Ok(second_of(owned.of(main))),
        None => Ok(None),
    }
}

// The second of these.
fn second_of(keys: &[ObjectKey]) -> Option<ObjectKey>
    ensures { result ≡ slice_get keys.now 1 }
{
    if keys.len() > 1 { Some(keys[1]) } else { None }
}

// The first location of an object, if there is one.
fn first_if(space: &Space, key: Option<ObjectKey>) -> Option<u32>
    ensures { result ≡ option_and_then (view_of space.now).first key }
{
    match key {
        Some(key) => space.first(key),
        None => None,
    }
}

// Copies a row into each of these rows but `none`.
fn push_taken(
    outside: u32,
    none: u32,
    rows: &[u32],
    list: &mut Vec<Constraint>,
) -> Result<(), OutOfMemory>
    ensures { OnOk result (list.new.items ≡ list.old.items
        ++ map (λ row. Constraint.Copy outside row) (filter (λ row. not (row == none)) rows.now)) }
{
    for row in rows {
        if *row != none {
            list.push(Constraint::Copy {
                from: outside,
                to: *row,
            })?;
        }
    }
    Ok(())
}

// Copies each of these rows but `none` into a row.
fn push_given(
    outside: u32,
    none: u32,
    rows: &[u32],
    list: &mut Vec<Constraint>,
) -> Result<(), OutOfMemory>
    ensures { OnOk result (list.new.items ≡ list.old.items
        ++ map (λ row. Constraint.Copy row outside) (filter (λ row. not (row == none)) rows.now)) }
{
    for row in rows {
        if *row != none {
            list.push(Constraint::Copy {
                from: *row,
                to: outside,
            })?;
        }
    }
    Ok(())
}

/// A program, its locations, the rows of its functions' results, and the parameters of each function.
#[derive(Clone, Copy)]
pub(crate) struct Scene<'a> {
    pub(crate) program: &'a Program,
    pub(crate) space: &'a Space,
    pub(crate) results: &'a Results,
    pub(crate) owned: &'a Owned,
}

impl<'a> Scene<'a> {
    // The number of the function that an entity is.
    fn number_of(&self, e: u32) -> u32
        requires { IsScene self.now }
        ensures { result ≡ number_of (trees_of self.now) (view_in self.now) e }
    {
        match self.space.first(ObjectKey::Entity(e)) {
            Some(l) => self.results.before[l as usize],
            None => 0,
        }
    }

    // The first row of the result of the function of that number.
    fn result_row(&self, number: u32) -> u32
        requires { IsScene self.now }
        ensures value { result ≡ result_row (trees_of self.now) (view_in self.now) number }
        ensures small { result ≤ 2 ^ 24 }
    {
        let starts = self.results.starts.as_slice();
        if (number as usize) < starts.len() {
            starts[number as usize]
        } else {
            self.results.none
        }
    }

    // The rows of the result of the function that an entity is.
    fn result_rows(&self, alloc: Global, e: u32) -> Result<Listing<u32>, OutOfMemory>
        requires { IsScene self.now }
        ensures { IfOk result (λ list. list ≡ result_rows (trees_of self.now) (view_in self.now) e) }
    {
        let first = self.result_row(self.number_of(e));
        let key = ObjectKey::Entity(e);
        result_list(alloc, self.program, key, first, self.results.none)
    }

    // What lies outside goes into these parameters.
    fn push_parameters(
        &self,
        alloc: Global,
        outside: u32,
        parameters: &[ObjectKey],
        list: &mut Vec<Constraint>,
    ) -> Result<(), OutOfMemory>
        requires { IsScene self.now }
        ensures { let u = trees_of self.now in let s = view_in self.now in OnOk result (list.new.items
            ≡ list.old.items ++ flat_map (λ key. taken_in u s outside (parameter_rows u s key)) parameters.now) }
    {
        for key in parameters {
            let rows = parameter_rows(alloc, self.program, self.space, *key, self.results.none)?;
            push_taken(outside, self.results.none, rows.as_slice(), list)?;
        }
        Ok(())
    }

    // What lies outside goes into the parameters of an entry, and what the entry gives goes outside.
    fn push_entry(
        &self,
        alloc: Global,
        outside: u32,
        e: u32,
        list: &mut Vec<Constraint>,
    ) -> Result<(), OutOfMemory>
        requires { IsScene self.now }
        ensures { OnOk result (list.new.items
            ≡ list.old.items ++ entry_constraints (trees_of self.now) (view_in self.now) outside e) }
    {
        self.push_parameters(alloc, outside, self.owned.of(e), list)?;
        let rows = self.result_rows(alloc, e)?;
        push_given(outside, self.results.none, rows.as_slice(), list)?;
        Ok(())
    }

    // The same of each of these entries.
    fn push_entries(
        &self,
        alloc: Global,
        outside: u32,
        entries: &[u32],
        list: &mut Vec<Constraint>,
    ) -> Result<(), OutOfMemory>
        requires { IsScene self.now }
        ensures { OnOk result (list.new.items
            ≡ list.old.items ++ flat_map (entry_constraints (trees_of self.now) (view_in self.now) outside) entries.now) }
    {
        for e in entries {
            self.push_entry(alloc, outside, *e, list)?;
        }
        Ok(())
    }

    // What lies outside may point to itself, goes into each entry and comes out of it.
    fn push_outside(&self, alloc: Global, list: &mut Vec<Constraint>) -> Result<(), OutOfMemory>
        requires { IsScene self.now }
        ensures { let s = view_in self.now in OnOk result (list.new.items ≡ list.old.items
            ++ outside_constraints (trees_of self.now) s self.now.program.now.entries.items (s.first ObjectKey.Outside)) }
    {
        match self.space.first(ObjectKey::Outside) {
            Some(outside) => {
                list.push(Constraint::Address {
                    row: outside,
                    location: outside,
                })?;
                self.push_entries(alloc, outside, self.program.entries.as_slice(), list)
            }
            None => Ok(()),
        }
    }

    // Main's second parameter has the list of arguments.
    fn push_arguments(&self, alloc: Global, list: &mut Vec<Constraint>) -> Result<(), OutOfMemory>
        requires { IsScene self.now }
        ensures { let s = view_in self.now in OnOk result (list.new.items ≡ list.old.items
            ++ held_by (option_and_then s.first (second_parameter (trees_of self.now) s)) (s.first (ObjectKey.Library 9))) }
    {
        let second = second_parameter(alloc, self.program, self.owned)?;
        let holder = first_if(self.space, second);
        push_held(holder, self.space.first(ObjectKey::Library(9)), list)
    }

    /// What is there when the program begins.
    pub(crate) fn push_start(
        &self,
        alloc: Global,
        list: &mut Vec<Constraint>,
    ) -> Result<(), OutOfMemory>
        requires { IsScene self.now }
        ensures { OnOk result (list.new.items ≡ list.old.items
            ++ start_list (trees_of self.now) (view_in self.now) self.now.program.now.entries.items) }
    {
        if self.program.entries.as_slice().is_empty() {
            self.push_arguments(alloc, list)
        } else {
            self.push_outside(alloc, list)
        }
    }
}
