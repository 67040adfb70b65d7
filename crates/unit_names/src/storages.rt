// The storage of what a name declares (C11 6.2.4).
ghost use Rattle.std.specs.Prelude.{◌≡◌, ◌<◌, ℕ, List, length};
ghost use Rattle.core_tree.specs.declared.node.Unit.{Unit as UnitSpec};
ghost use Rattle.c_senses.specs.Sense.{sense_in};
ghost use Rattle.c_senses.specs.Entities as spec;
ghost use Rattle.c_senses.specs.Right as right;
ghost use Rattle.c_results.specs.Standing.{senses_made};
ghost use Rattle.tree_reads.specs.Sources.{source_in};
ghost use Rattle.c_meanings.specs.Known.{AreNamed};
ghost use Rattle.unit_names.specs.Storages.{internal_storage};

use c_meanings::{Names, declares_function, storage_of};
use c_results::Results;
use core_tree::node::Storage;
use tree_reads::Syntax;

// The storage of an internal name by that of its declarations: what is only declared has its place for the whole run, unless it is a
// function.
fn internal_storage(storage: Storage, is_function: bool) -> Storage
    ensures { result ≡ internal_storage storage is_function }
{
    match storage {
        Storage::Declared => {
            if is_function {
                Storage::Declared
            } else {
                Storage::Static
            }
        }
        Storage::Static => Storage::Static,
        Storage::Automatic => Storage::Automatic,
        Storage::FunctionBody => Storage::FunctionBody,
        Storage::Parameter => Storage::Parameter,
    }
}

/// The storage of the object or function that a leaf declares (C11 6.2.4, 6.9.2), where `at` is the declaration at which it has its
/// place: of an internal name that of this one, and an object has its place for the whole run; of any other name its own
/// declaration's. `internal` says whether the name has internal linkage.
pub(crate) fn storage_at(
    names: &Names,
    syntax: &Syntax,
    results: &Results,
    internal: bool,
    leaf: u32,
    at: u32,
) -> Storage
    requires names { AreNamed syntax.now results.now names.now }
    requires internal { (u : UnitSpec) (uses : List (ℕ × ℕ)) →
        internal ≡ spec.is_internal (source_in syntax.now uses) (sense_in (senses_made u results.now)) leaf }
    requires leaf { leaf < length syntax.now.tree.now.nodes.items }
    requires at { at < length syntax.now.tree.now.nodes.items }
    ensures { (u : UnitSpec) (uses : List (ℕ × ℕ)) →
        let s = source_in syntax.now uses in
        let senses = senses_made u results.now in
        at ≡ right.representative s senses leaf →
        result ≡ right.storage_at s senses leaf }
{
    if !internal {
        return storage_of(names, syntax, results, leaf);
    }
    let storage = storage_of(names, syntax, results, at);
    internal_storage(storage, declares_function(names, syntax, leaf))
}
