// The first declaration of each name.

ghost use Rattle.std.specs.Prelude.{◌≡◌, ◌<◌, ◌^◌, ℕ, List, None, Some, IfOk, OnOk, All, length};
ghost use Rattle.link_names.specs.Externals.{IsDeclaration};
ghost use Rattle.link_names.specs.Firsts.{AreFirsts, known, first_of, first_or, known_after};

use crate::declared::{Declared, entity_of};
use core_tree::Unit;
use pta_base::OutOfMemory;
use std::alloc::Global;
use std::collections::BTreeMap;
use std::marker::Model;

/// The position of the first declaration of each name.
#[derive(Drop)]
pub struct Firsts {
    positions: BTreeMap<Vec<u8>, u32>,
}

impl Model for Firsts {
    ghost use Rattle.std.specs.Prelude.{List, ℕ, map};

    ghost Value = { List (List ℕ × ℕ) };

    ghost view = { λ a. map (λ e. (e.0.items, e.1)) a.positions.entries };
}

impl Firsts {
    /// No name yet.
    pub fn new(alloc: Global) -> Firsts
        ensures { (name : List ℕ) → known result name ≡ None }
    {
        Firsts {
            positions: BTreeMap::new(alloc),
        }
    }

    // The position that is kept for a name.
    fn find(&self, name: &[u8]) -> Option<u32>
        ensures { result ≡ known self.now name.now }
    {
        self.positions.get(name).copied()
    }

    // A position for a name.
    fn insert(&mut self, name: Vec<u8>, position: u32) -> Result<(), OutOfMemory>
        ensures here { OnOk result (known self.new name.items ≡ Some position) }
        ensures others { OnOk result ((other : List ℕ) → (name.items ≡ other → ⊥) → known self.new other ≡ known self.old other) }
    {
        match self.positions.insert(name, position) {
            Ok(_) => Ok(()),
            Err(_) => Err(OutOfMemory),
        }
    }
}

/// The position of the first declaration of a name.
pub fn find_name(firsts: &Firsts, name: &str) -> Option<u32>
    ensures { result ≡ known firsts.now name.now }
{
    firsts.find(name.as_bytes())
}

/// The position of the first thing of a name; it is this one where there was none before.
pub fn first_of_name(
    alloc: Global,
    firsts: &mut Firsts,
    name: &[u8],
    here: u32,
) -> Result<u32, OutOfMemory>
    ensures first { IfOk result (λ first. first ≡ first_or (known firsts.old name.now) here) }
    ensures known { OnOk result ((other : List ℕ) → known firsts.new other ≡ known_after (known firsts.old) name.now here other) }
{
    match firsts.find(name) {
        Some(first) => Ok(first),
        None => {
            let key = Vec::from_slice(alloc, name)?;
            firsts.insert(key, here)?;
            Ok(here)
        }
    }
}

/// The first declaration of each name, by name, and for each declaration the first one of its name.
pub fn first_of_names(
    alloc: Global,
    units: &[Unit],
    declared: &[Declared],
) -> Result<(Firsts, Vec<u32>), OutOfMemory>
    requires declarations { All (IsDeclaration units.now) declared.now }
    ensures names { IfOk result (λ r. (name : List ℕ) → known r.0 name ≡ first_of units.now declared.now name) }
    ensures firsts { IfOk result (λ r. AreFirsts units.now declared.now r.1.items) }
{
    if declared.len() > u32::MAX as usize {
        return Err(OutOfMemory);
    }
    let mut firsts = Firsts::new(alloc);
    let mut list = Vec::new(alloc);
    for (here, d) in declared.iter().enumerate() {
        let name = entity_of(units, *d).name.as_str().as_bytes();
        list.push(first_of_name(alloc, &mut firsts, name, here as u32)?)?;
    }
    Ok((firsts, list))
}
