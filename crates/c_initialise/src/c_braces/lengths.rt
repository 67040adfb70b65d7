//! The length that an initialiser gives an array without one (C11 6.7.9p22).

ghost use Rattle.std.specs.Prelude.{◌≡◌, ◌<◌, ◌≤◌, ◌^◌, true, map, length};
ghost use Rattle.c_types.specs.Table.{type_of};
ghost use Rattle.c_inits.specs.Initial.{reach, path_of, length_given};
ghost use Rattle.c_inits.specs.Items.{action_of};
ghost use Rattle.c_inits.specs.Tables.{lacks_length};
ghost use Rattle.c_initialise.specs.c_braces.Initialised.{new_length};

use c_inits::items::InitAction;
use c_types::table::TypeTable;
use c_types::term::{PathStep, Term, TypeId};

/// One more than the index at which a path begins; 0 where it begins with none.
fn path_reach(path: &[PathStep]) -> u64
    requires { reach path.now < 2 ^ 64 }
    ensures { result ≡ reach path.now }
{
    if path.is_empty() {
        return 0;
    }
    match path[0] {
        PathStep::Index(k) => k + 1,
        PathStep::Member(_) => 0,
    }
}

/// The same for the place of an action.
fn action_reach(action: &InitAction) -> u64
    requires { reach (path_of (action_of action.now)) < 2 ^ 64 }
    ensures { result ≡ reach (path_of (action_of action.now)) }
{
    match action {
        InitAction::Clears(path) => path_reach(path.as_slice()),
        InitAction::Puts(item) => path_reach(item.path.as_slice()),
    }
}

/// One more than the largest index at which an action's place begins, also where a later item replaces it.
fn length_of(actions: &[InitAction]) -> u64
    requires { length_given (map action_of actions.now) < 2 ^ 64 }
    ensures { result ≡ length_given (map action_of actions.now) }
{
    let mut length = 0;
    for action in actions {
        let reached = action_reach(action);
        if reached > length {
            length = reached;
        }
    }
    length
}

/// Whether a type is an array without a length.
fn is_open(types: &TypeTable, id: TypeId) -> bool
    requires { id.0 < length types.now.terms }
    ensures { result ≡ lacks_length (type_of types.now id.0) }
{
    match types.term(id) {
        Term::Array { length: None, .. } => true,
        Term::Array {
            length: Some(_),
            ..
        } => false,
        Term::Void | Term::Bool | Term::Floating | Term::VaList => false,
        Term::Integer { .. } | Term::Function { .. } => false,
        Term::Pointer(_) | Term::Structure(_) | Term::Union(_) => false,
    }
}

/// The length that an array without one gets: one more than the largest index that an item names or has, the items that later ones
/// replace among them, and so no more than the limit. None for every other type.
pub(in crate::c_braces) fn given_length(
    types: &TypeTable,
    limit: u64,
    id: TypeId,
    actions: &[InitAction],
) -> Option<u64>
    requires known { id.0 < length types.now.terms }
    requires below { lacks_length (type_of types.now id.0) ≡ true → length_given (map action_of actions.now) ≤ limit }
    ensures { result ≡ new_length (type_of types.now id.0) (map action_of actions.now) }
{
    if is_open(types, id) {
        Some(length_of(actions))
    } else {
        None
    }
}
