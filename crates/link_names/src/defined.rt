// Which names the units define.

ghost use Rattle.std.specs.Prelude.{◌≡◌, ◌<◌, ◌||◌, false, IfOk, length, slice_set};
ghost use Rattle.std.specs.List.{slice_index_or};
ghost use Rattle.c_types.specs.Table.{type_of};
ghost use Rattle.link_names.specs.Externals.{IsDeclaration, is_placed, is_defined, item_of, declared_type};
ghost use Rattle.link_names.specs.Scene.{IsScene, joined_of};
ghost use Rattle.link_names.specs.Firsts.{AreFirsts, AreMarks};
ghost use Rattle.link_names.specs.Together.{is_listed};

use crate::declared::{Declared, Scene, entity_of};
use crate::scene::declared_type;
use c_types::table::TypeTable;
use c_types::term::{Form, Term, TypeId};
use core_tree::{Entity, Storage};
use pta_base::OutOfMemory;
use std::alloc::Global;
use type_rules::kinds::is_function;

/// Whether an entity of that type is defined: by its body, and an object also by having its place.
pub fn is_placed(types: &TypeTable, ty: TypeId, entity: &Entity) -> bool
    requires { ty.0 < length types.now.terms }
    ensures { result ≡ is_placed (type_of types.now ty.0) entity.now }
{
    entity.body.is_some() || (!is_function(types, ty) && entity.storage != Storage::Declared)
}

/// Whether a type is a function with a parameter list.
pub fn is_listed(types: &TypeTable, ty: TypeId) -> bool
    requires { ty.0 < length types.now.terms }
    ensures { result ≡ is_listed (type_of types.now ty.0) }
{
    match types.term(ty) {
        Term::Function { form, .. } => *form != Form::Unspecified,
        _ => false,
    }
}

/// Whether a declaration defines its name.
pub fn is_defined(scene: &Scene<'_>, d: Declared) -> bool
    requires scene { IsScene scene.now }
    requires declaration { IsDeclaration scene.now.units.now d }
    ensures { result ≡ is_defined (joined_of scene.now) (item_of d) }
{
    is_placed(
        scene.types,
        declared_type(scene, d),
        entity_of(scene.units, d),
    )
}

// A mark that is set where it was, or where this one is.
fn add_mark(marks: &mut Vec<bool>, at: usize, mark: bool)
    requires { at < length marks.old.items }
    ensures { marks.new.items ≡ slice_set marks.old.items at (slice_index_or marks.old.items at false || mark) }
{
    let before = marks[at];
    marks[at] = before || mark;
}

/// For the first declaration of each name, whether some declaration of it defines it.
pub fn own_names(alloc: Global, scene: &Scene<'_>, firsts: &[u32]) -> Result<Vec<bool>, OutOfMemory>
    requires scene { IsScene scene.now }
    requires firsts { AreFirsts scene.now.units.now scene.now.declared.now firsts.now }
    ensures { let ds = scene.now.declared.now in
        IfOk result (λ list. AreMarks scene.now.units.now ds (λ d. is_defined (joined_of scene.now) (item_of d)) ds list.items) }
{
    let mut list = vec![in alloc; false; firsts.len()]?;
    for (here, d) in scene.declared.iter().enumerate() {
        let first = firsts[here] as usize;
        let placed = is_defined(scene, *d);
        add_mark(&mut list, first, placed);
    }
    Ok(list)
}

/// For the first declaration of each name, whether some declaration of it has a parameter list.
pub fn listed_names(
    alloc: Global,
    scene: &Scene<'_>,
    firsts: &[u32],
) -> Result<Vec<bool>, OutOfMemory>
    requires scene { IsScene scene.now }
    requires firsts { AreFirsts scene.now.units.now scene.now.declared.now firsts.now }
    ensures { let ds = scene.now.declared.now in
        IfOk result (λ list. AreMarks scene.now.units.now ds (λ d. is_listed (declared_type (joined_of scene.now) d)) ds list.items) }
{
    let mut list = vec![in alloc; false; firsts.len()]?;
    for (here, d) in scene.declared.iter().enumerate() {
        let first = firsts[here] as usize;
        let listed = is_listed(scene.types, declared_type(scene, *d));
        add_mark(&mut list, first, listed);
    }
    Ok(list)
}
