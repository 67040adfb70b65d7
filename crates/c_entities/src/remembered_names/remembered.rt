// What is remembered of declarations.
ghost use Rattle.std.specs.Prelude.{◌≡◌, ◌<◌, ◌⊎◌, ℕ, List, length, get_or, Some, None, IfOk, IfSome, IsOkUnless};
ghost use Rattle.core_tree.specs.declared.node.Unit.{Unit as UnitSpec};
ghost use Rattle.core_nodes.specs.declared.fault.CheckFault.TheVariants.{OutOfMemory};
ghost use Rattle.c_types.specs.Table.{type_of};
ghost use Rattle.c_results.specs.declared.made.Made.{Made as MadeSpec};
ghost use Rattle.tree_reads.specs.declared.syntax.Syntax.{Syntax as SyntaxSpec};
ghost use Rattle.c_entities.specs.declared.remembered_names.remembered.Remembered.{Remembered as RememberedSpec};
ghost use Rattle.c_entities.specs.remembered_names.Steps.{type_by};
ghost use Rattle.c_entities.specs.remembered_names.Remembering.{IsRemembered, AreRemembered};

use crate::remembered_names::steps::TypeSteps;
use crate::remembered_names::types::is_type_of;
use c_results::Results;
use c_types::table::TypeTable;
use c_types::term::TypeId;
use core_nodes::CheckFault;
use std::alloc::Global;

// How many declarations are remembered at most.
const PLACES: u32 = 2048;

/// What a use of a declared name means, by the leaf that declares it (C11 6.2.3, 6.5.1): a type, or the object or function of an entity;
/// and what its type is made of. The type is the one that was made of that when it was asked for.
#[derive(Clone, Copy, Debug)]
pub struct Remembered {
    pub leaf: u32,
    pub entity: u32,
    pub ty: TypeId,
    pub steps: TypeSteps,
    pub is_type: bool,
}

/// What is remembered, each at the place of its leaf.
pub type Memory = Vec<Option<Remembered>>;

/// Nothing is remembered yet. Only memory may want.
pub fn nothing_remembered(alloc: Global) -> Result<Memory, CheckFault>
    ensures none { (syntax : SyntaxSpec) (results : List MadeSpec) → IfOk result (λ memory. AreRemembered syntax results memory.items) }
    ensures memory { IsOkUnless result OutOfMemory }
{
    match vec![in alloc; None; PLACES as usize] {
        Ok(memory) => Ok(memory),
        Err(_) => Err(CheckFault::OutOfMemory),
    }
}

// What stands at the place of a leaf.
fn at_place(memory: &[Option<Remembered>], leaf: u32) -> Option<Remembered>
    ensures { (syntax : SyntaxSpec) (results : List MadeSpec) → AreRemembered syntax results memory.now →
        IfSome result (IsRemembered syntax results) }
{
    let place = (leaf % PLACES) as usize;
    if place < memory.len() {
        memory[place]
    } else {
        None
    }
}

/// What is remembered of the declaration that a leaf makes, where its type is still the one that its steps make.
pub fn found_at(
    types: &TypeTable,
    results: &Results,
    memory: &[Option<Remembered>],
    leaf: u32,
) -> Option<Remembered>
    ensures leaf { IfSome result (λ e. e.leaf ≡ leaf) }
    ensures within { IfSome result (λ e. e.ty.0 < length types.now.terms) }
    ensures right { (syntax : SyntaxSpec) → AreRemembered syntax results.now memory.now →
        IfSome result (IsRemembered syntax results.now) }
    ensures typed { IfSome result (λ e. (u : UnitSpec) → u.types ≡ types.now →
        type_by u results.now e.steps.base e.steps.declarator ≡ Some (type_of types.now e.ty.0)) }
{
    let found = at_place(memory, leaf)?;
    if found.leaf != leaf || found.ty.0 >= types.type_count() {
        return None;
    }
    if is_type_of(types, results, found.steps, found.ty) {
        Some(found)
    } else {
        None
    }
}

// Puts something at a place.
fn put(memory: &mut Memory, place: usize, found: Remembered)
    requires { place < length memory.old.items }
    ensures { (other : ℕ) (e : RememberedSpec) →
        get_or memory.new.items other None ≡ Some e → (get_or memory.old.items other None ≡ Some e) ⊎ (found ≡ e) }
{
    memory[place] = Some(found);
}

/// Remembers what a use of a declared name means, in place of what was remembered at the same place.
pub fn remember(memory: &mut Memory, found: Remembered)
    ensures { (syntax : SyntaxSpec) (results : List MadeSpec) → IsRemembered syntax results found →
        AreRemembered syntax results memory.old.items → AreRemembered syntax results memory.new.items }
{
    let place = (found.leaf % PLACES) as usize;
    if place < memory.len() {
        put(memory, place, found);
    }
}
