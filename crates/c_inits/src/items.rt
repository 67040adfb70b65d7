//! The items of an initialiser, and which of them last (C11 6.7.9p19).

ghost use Rattle.std.specs.Prelude.{◌≡◌, ◌||◌, List, ◌++◌, ◌∷◌, [], IfOk, OnOk, map, take, length};
ghost use Rattle.c_inits.specs.Initial.{lasting};
ghost use Rattle.c_inits.specs.Items.{placed_of, action_of, key_step, key_path, has_prefix, knows, same_key, clears_key, left_of};
ghost use Rattle.c_inits.specs.declared.items.StepKey.{StepKey};

use c_types::term::{OutOfMemory, PathStep};
use std::alloc::Global;
use std::collections::BTreeSet;

/// What an expression or a string gives a sub-object: the path of the sub-object, the syntax node of the expression, and of a string
/// the position of the character.
#[derive(Drop)]
pub struct InitItem {
    pub path: Vec<PathStep>,
    pub node: u32,
    pub character: Option<u64>,
}

/// What an initialiser does, in order: an initialiser for a sub-object takes away what stands there, and values are put.
#[derive(Drop)]
pub enum InitAction {
    Clears(Vec<PathStep>),
    Puts(InitItem),
}

/// A step as a part of a key.
#[derive(Clone, Copy, PartialEq, Eq, PartialOrd, Ord, Drop)]
enum StepKey {
    Index(u64),
    Member(u32),
}

fn key_of(step: PathStep) -> StepKey
    ensures { result ≡ key_step step }
{
    match step {
        PathStep::Index(k) => StepKey::Index(k),
        PathStep::Member(k) => StepKey::Member(k),
    }
}

/// A path as a key.
fn path_key(alloc: Global, path: &[PathStep]) -> Result<Vec<StepKey>, OutOfMemory>
    ensures { IfOk result (λ key. key.items ≡ key_path path.now) }
{
    let mut key = Vec::new(alloc);
    for step in path {
        match key.push(key_of(*step)) {
            Ok(()) => {}
            Err(_) => return Err(OutOfMemory),
        }
    }
    Ok(key)
}

/// Whether a path or a beginning of it is among the cleared ones.
fn is_cleared(cleared: &BTreeSet<Vec<StepKey>>, path: &[StepKey]) -> bool
    ensures { result ≡ has_prefix (knows cleared.now) path.now }
{
    for end in 0..path.len() {
        if cleared.contains(&path[..end]) {
            return true;
        }
    }
    cleared.contains(path)
}

/// One more cleared path.
fn note_cleared(cleared: &mut BTreeSet<Vec<StepKey>>, key: Vec<StepKey>) -> Result<(), OutOfMemory>
    ensures { OnOk result ((p : List StepKey) → knows cleared.new p ≡ (same_key key.items p || knows cleared.old p)) }
{
    match cleared.insert(key) {
        Ok(_) => Ok(()),
        Err(_) => Err(OutOfMemory),
    }
}

fn push_item(items: &mut Vec<InitItem>, item: InitItem) -> Result<(), OutOfMemory>
    ensures { OnOk result (items.new.items ≡ items.old.items ++ item ∷ []) }
{
    match items.push(item) {
        Ok(()) => Ok(()),
        Err(_) => Err(OutOfMemory),
    }
}

/// Takes an action in, of which all later ones were taken in before: it is noted what it clears, and an item that no later action
/// takes away is put behind the others.
fn take_action(
    alloc: Global,
    action: InitAction,
    cleared: &mut BTreeSet<Vec<StepKey>>,
    items: &mut Vec<InitItem>,
) -> Result<(), OutOfMemory>
    ensures cleared { OnOk result ((p : List StepKey) →
        knows cleared.new p ≡ (clears_key action p || knows cleared.old p)) }
    ensures items { OnOk result (items.new.items ≡ items.old.items ++ left_of (has_prefix (knows cleared.old)) action) }
{
    match action {
        InitAction::Clears(path) => {
            let key = path_key(alloc, path.as_slice())?;
            note_cleared(cleared, key)?;
        }
        InitAction::Puts(item) => {
            let key = path_key(alloc, item.path.as_slice())?;
            if !is_cleared(cleared, key.as_slice()) {
                push_item(items, item)?;
            }
        }
    }
    Ok(())
}

/// The items that last, in order: those that no later action takes away (C11 6.7.9p19). Time in proportion to the actions and the
/// lengths of their paths, but for look-ups in an ordered set of paths.
pub fn lasting_items(alloc: Global, actions: Vec<InitAction>) -> Result<Vec<InitItem>, OutOfMemory>
    ensures { IfOk result (λ items. map placed_of items.items ≡ lasting [] (map action_of actions.items)) }
{
    let mut rest = actions;
    let mut cleared = BTreeSet::new(alloc);
    let mut items = Vec::new(alloc);
    while let Some(action) = rest.pop() {
        take_action(alloc, action, &mut cleared, &mut items)?;
    }
    items.reverse();
    Ok(items)
}
