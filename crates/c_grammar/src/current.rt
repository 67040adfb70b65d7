//! What each declared name means now.
ghost use Rattle.c_grammar.specs.Current.{place_in, known, Indexed, Means};
ghost use Rattle.c_grammar.specs.Log.{Restores};
ghost use Rattle.std.specs.Prelude.{◌≡◌, ◌<◌, ℕ, List, None, Some, IfOk, IfSome, length, take};

use pta_base::OutOfMemory;
use std::alloc::Global;
use std::collections::BTreeMap;

/// How many entries that were asked for lately are known by their names' sums.
const RECENT_ENTRIES: usize = 1024;

/// The names that were declared, each with an entry: how it is spelled, and whether it is a typedef name now, or nothing where no open
/// scope declares it. The entry of a name is found by a map, and before it in a table, where one entry stands at the place of its name's sum.
#[derive(Drop)]
pub(crate) struct Current {
    spelled: Vec<Vec<u8>>,
    meant: Vec<Option<bool>>,
    places: BTreeMap<Vec<u8>, usize>,
    recent: Vec<usize>,
}

/// A copy of a name.
pub(crate) fn copied(name: &[u8], alloc: Global) -> Result<Vec<u8>, OutOfMemory>
    ensures { IfOk result (λ copy. copy.items ≡ name.now) }
{
    let mut copy = Vec::new(alloc);
    copy.extend_from_slice(name)?;
    Ok(copy)
}

/// Where a name stands in the table.
fn place_of_name(name: &[u8]) -> usize {
    let mut sum = 0u32;
    for byte in name {
        sum = sum.wrapping_mul(31).wrapping_add(u32::from(*byte));
    }
    sum as usize % RECENT_ENTRIES
}

/// The entry of a name, where the table has it.
fn recalled(current: &Current, name: &[u8]) -> Option<usize>
    requires { Indexed current.now }
    ensures { IfSome result (λ place. place_in current.now.places name.now ≡ Some place) }
{
    match current.recent.get(place_of_name(name)) {
        Some(place) => match current.spelled.get(*place) {
            Some(spelled) => {
                if spelled.as_slice() == name {
                    Some(*place)
                } else {
                    None
                }
            }
            None => None,
        },
        None => None,
    }
}

/// The entry of a name, if it has one.
fn entry_of(current: &Current, name: &[u8]) -> Option<usize>
    requires { Indexed current.now }
    ensures is { result ≡ place_in current.now.places name.now }
    ensures within { IfSome result (λ place. place < length current.now.spelled.items) }
{
    match recalled(current, name) {
        Some(place) => Some(place),
        None => current.places.get(name).copied(),
    }
}

/// What a name means now.
pub(crate) fn meaning(current: &Current, name: &[u8]) -> Option<bool>
    requires { Indexed current.now }
    ensures { result ≡ known current.now name.now }
{
    match entry_of(current, name) {
        Some(place) => current.meant[place],
        None => None,
    }
}

/// What the name of an entry means from now on.
pub(crate) fn set(current: &mut Current, place: usize, meaning: Option<bool>)
    requires indexed { Indexed current.old }
    requires within { place < length current.old.spelled.items }
    ensures indexed { Indexed current.new }
    ensures means { (name : List ℕ) → place_in current.old.places name ≡ Some place → Means current.old name meaning current.new }
{
    current.meant[place] = meaning;
}

/// Gives a name that has been declared the meaning that it had before.
pub(crate) fn restore(current: &mut Current, name: &[u8], before: Option<bool>)
    requires { Indexed current.old }
    ensures indexed { Indexed current.new }
    ensures restores { Restores current.old name.now before current.new }
{
    if let Some(place) = entry_of(current, name) {
        set(current, place, before);
    }
}

/// Keeps so many entries of the list alone.
fn take_back(current: &mut Current, count: usize)
    ensures spelled { current.new.spelled.items ≡ take count current.old.spelled.items }
    ensures meant { current.new.meant.items ≡ take count current.old.meant.items }
    ensures places { current.new.places ≡ current.old.places }
{
    current.spelled.truncate(count);
    current.meant.truncate(count);
}

/// Adds an entry for a name, without a meaning.
fn add_entry(current: &mut Current, name: &[u8], alloc: Global) -> Result<usize, OutOfMemory>
    requires indexed { Indexed current.old }
    requires new { place_in current.old.places name.now ≡ None }
    ensures indexed { Indexed current.new }
    ensures place { IfOk result (λ place. place_in current.new.places name.now ≡ Some place) }
    ensures known { (q : List ℕ) → known current.new q ≡ known current.old q }
{
    let key = copied(name, alloc)?;
    let spelled = copied(name, alloc)?;
    let place = current.spelled.len();
    current.spelled.push(spelled)?;
    if current.meant.push(None).is_err() {
        take_back(current, place);
        return Err(OutOfMemory);
    }
    match current.places.insert(key, place) {
        Ok(_) => Ok(place),
        Err(_) => {
            take_back(current, place);
            Err(OutOfMemory)
        }
    }
}

/// Puts an entry into the table.
fn remember(current: &mut Current, name: &[u8], place: usize) -> Result<(), OutOfMemory>
    ensures spelled { current.new.spelled ≡ current.old.spelled }
    ensures meant { current.new.meant ≡ current.old.meant }
    ensures places { current.new.places ≡ current.old.places }
{
    if current.recent.is_empty() {
        current.recent.resize(RECENT_ENTRIES, usize::MAX)?;
    }
    let at = place_of_name(name);
    if at < current.recent.len() {
        current.recent[at] = place;
    }
    Ok(())
}

/// The entry of a name, which gets one where it has none.
fn entry_for(current: &mut Current, name: &[u8], alloc: Global) -> Result<usize, OutOfMemory>
    requires { Indexed current.old }
    ensures indexed { Indexed current.new }
    ensures place { IfOk result (λ place. place_in current.new.places name.now ≡ Some place) }
    ensures known { (q : List ℕ) → known current.new q ≡ known current.old q }
{
    match entry_of(current, name) {
        Some(place) => Ok(place),
        None => add_entry(current, name, alloc),
    }
}

/// The entry of a name, which gets one where it has none, and stands in the table from now on.
pub(crate) fn numbered(
    current: &mut Current,
    name: &[u8],
    alloc: Global,
) -> Result<usize, OutOfMemory>
    requires { Indexed current.old }
    ensures indexed { Indexed current.new }
    ensures place { IfOk result (λ place. place_in current.new.places name.now ≡ Some place) }
    ensures within { IfOk result (λ place. place < length current.new.spelled.items) }
    ensures known { (q : List ℕ) → known current.new q ≡ known current.old q }
{
    let place = entry_for(current, name, alloc)?;
    remember(current, name, place)?;
    Ok(place)
}

/// What the name of an entry means now.
pub(crate) fn meant(current: &Current, place: usize) -> Option<bool>
    requires indexed { Indexed current.now }
    requires within { place < length current.now.spelled.items }
    ensures { (name : List ℕ) → place_in current.now.places name ≡ Some place → result ≡ known current.now name }
{
    current.meant[place]
}

impl Current {
    /// No name was declared.
    pub(crate) fn new(alloc: Global) -> Current
        ensures indexed { Indexed result }
        ensures none { (q : List ℕ) → known result q ≡ None }
    {
        Current {
            spelled: Vec::new(alloc),
            meant: Vec::new(alloc),
            places: BTreeMap::new(alloc),
            recent: Vec::new(alloc),
        }
    }
}
