// What is said of a declared name.
ghost use Rattle.std.specs.Prelude.{◌≡◌, ◌<◌, true, ℕ, List, All, length, IfOk, IsOkUnless, None};
ghost use Rattle.core_tree.specs.declared.node.Unit.{Unit as UnitSpec};
ghost use Rattle.c_senses.specs.World.{World};
ghost use Rattle.c_senses.specs.Sense.{sense_in};
ghost use Rattle.c_senses.specs.Names as senses;
ghost use Rattle.c_senses.specs.Entities as spec;
ghost use Rattle.c_results.specs.Standing.{senses_made};
ghost use Rattle.tree_reads.specs.Sources.{source_in};
ghost use Rattle.c_meanings.specs.Known.{AreNamed};
ghost use Rattle.c_meanings.specs.Linkages.{AreLinkages};
ghost use Rattle.c_named.specs.Lists.{leaves_of, types_at};
ghost use Rattle.c_named.specs.Said.{IsSaid, IsSaidIn};
ghost use Rattle.name_uses.specs.name_sayings.Listed.{AreListed, GiveSame};

use crate::name_sayings::internal::internal_before;
use crate::name_sayings::leaves::leaves_of;
use c_meanings::{
    Linkages, Names, before_in_scope, declares_function, internal_kept, is_internal_after,
    is_linked, is_typedef, nothing_seen, same_internal_kept, scope_thinned, typing_list,
};
use c_named::Said;
use c_results::Results;
use c_scope::Declared;
use core_nodes::CheckFault;
use name_chains::symbol_lists::SymbolLists;
use std::alloc::Global;
use tree_reads::Syntax;

// Whether each of some declarations gives its name internal linkage, or none does.
fn same_internal(
    names: &Names,
    syntax: &Syntax,
    results: &Results,
    internal: bool,
    declarations: &[Declared],
) -> bool
    requires names { AreNamed syntax.now results.now names.now }
    requires leaves { All (λ d. d.node < length syntax.now.tree.now.nodes.items) declarations.now }
    ensures { (u : UnitSpec) (w : World) (uses : List (ℕ × ℕ)) →
        result ≡ spec.same_internal w (source_in syntax.now uses) (sense_in (senses_made u results.now)) internal declarations.now }
{
    let mut seen = nothing_seen();
    for declared in declarations {
        if is_internal_after(names, syntax, results, &mut seen, declared.node) != internal {
            return false;
        }
    }
    true
}

// The declarations of a name before one in its own scope.
fn in_scope(
    alloc: Global,
    names: &Names,
    syntax: &Syntax,
    results: &Results,
    leaf: u32,
) -> Result<Vec<Declared>, CheckFault>
    requires names { AreNamed syntax.now results.now names.now }
    ensures list { IfOk result (λ v. (uses : List (ℕ × ℕ)) →
        let s = source_in syntax.now uses in v.items ≡ senses.before_in_scope s (senses.ordinary_at s leaf)) }
    ensures leaves { IfOk result (λ v. All (λ d. d.node < length syntax.now.tree.now.nodes.items) v.items) }
    ensures memory { IsOkUnless result CheckFault.OutOfMemory }
{
    match before_in_scope(alloc, names, syntax, leaf) {
        Ok(list) => Ok(list),
        Err(_) => Err(CheckFault::OutOfMemory),
    }
}

// The leaves of the declarations of a name before one in its scope.
fn leaves_before(
    alloc: Global,
    names: &Names,
    syntax: &Syntax,
    results: &Results,
    leaf: u32,
) -> Result<Vec<u32>, CheckFault>
    requires names { AreNamed syntax.now results.now names.now }
    ensures leaves { IfOk result (λ list. (uses : List (ℕ × ℕ)) →
        let s = source_in syntax.now uses in list.items ≡ leaves_of (senses.before_in_scope s (senses.ordinary_at s leaf))) }
    ensures within { IfOk result (λ list. All (λ other. other < length syntax.now.tree.now.nodes.items) list.items) }
    ensures memory { IsOkUnless result CheckFault.OutOfMemory }
{
    let before = in_scope(alloc, names, syntax, results, leaf)?;
    leaves_of(alloc, before.as_slice())
}

// The leaves of declarations of a typedef name before one in its scope that have each type that all of these have: none are asked for
// otherwise.
fn typedefs_before(
    alloc: Global,
    names: &Names,
    syntax: &Syntax,
    results: &Results,
    linkages: &mut Linkages,
    typedef: bool,
    leaf: u32,
) -> Result<Vec<u32>, CheckFault>
    requires names { AreNamed syntax.now results.now names.now }
    requires linkages { AreLinkages syntax.now results.now names.now linkages.old }
    ensures linkages { AreLinkages syntax.now results.now names.now linkages.new }
    ensures same { IfOk result (λ list. (u : UnitSpec) (w : World) (uses : List (ℕ × ℕ)) →
        typedef ≡ true → GiveSame w (source_in syntax.now uses) (sense_in (senses_made u results.now)) leaf list.items) }
    ensures within { IfOk result (λ list. All (λ other. other < length syntax.now.tree.now.nodes.items) list.items) }
    ensures memory { IsOkUnless result CheckFault.OutOfMemory }
{
    if !typedef {
        return Ok(Vec::new(alloc));
    }
    match scope_thinned(alloc, names, syntax, results, linkages, leaf)? {
        Some(list) => leaves_of(alloc, list.as_slice()),
        None => leaves_before(alloc, names, syntax, results, leaf),
    }
}

// Whether the declarations of a name before one in its scope all have a linkage, internal or not: by what is kept, or else by each of them.
fn same_before(
    alloc: Global,
    names: &Names,
    syntax: &Syntax,
    results: &Results,
    linkages: &mut Linkages,
    internal: bool,
    leaf: u32,
) -> Result<bool, CheckFault>
    requires names { AreNamed syntax.now results.now names.now }
    requires linkages { AreLinkages syntax.now results.now names.now linkages.old }
    ensures linkages { AreLinkages syntax.now results.now names.now linkages.new }
    ensures same { IfOk result (λ b. (u : UnitSpec) (w : World) (uses : List (ℕ × ℕ)) →
        let s = source_in syntax.now uses in
        b ≡ spec.same_internal w s (sense_in (senses_made u results.now)) internal (senses.before_in_scope s (senses.ordinary_at s leaf))) }
    ensures memory { IsOkUnless result CheckFault.OutOfMemory }
{
    if let Some(same) = same_internal_kept(names, syntax, results, linkages, internal, leaf) {
        return Ok(same);
    }
    let before = in_scope(alloc, names, syntax, results, leaf)?;
    Ok(same_internal(names, syntax, results, internal, before.as_slice()))
}

// Whether a declaration has the linkage of those before it in its scope, if its name has linkage.
fn has_one_linkage(
    alloc: Global,
    names: &Names,
    syntax: &Syntax,
    results: &Results,
    linkages: &mut Linkages,
    internal: bool,
    leaf: u32,
) -> Result<bool, CheckFault>
    requires names { AreNamed syntax.now results.now names.now }
    requires linkages { AreLinkages syntax.now results.now names.now linkages.old }
    ensures linkages { AreLinkages syntax.now results.now names.now linkages.new }
    ensures one { IfOk result (λ b. (u : UnitSpec) (w : World) (uses : List (ℕ × ℕ)) →
        let s = source_in syntax.now uses in
        let sense = sense_in (senses_made u results.now) in
        internal ≡ spec.is_internal s sense leaf → b ≡ spec.has_one_linkage w s sense leaf) }
    ensures memory { IsOkUnless result CheckFault.OutOfMemory }
{
    if !is_linked(names, syntax, leaf) {
        return Ok(true);
    }
    same_before(alloc, names, syntax, results, linkages, internal, leaf)
}

// The leaves of declarations that give together the type of a declared name behind its declaration, its own last: none are asked for
// otherwise.
fn typing_leaves(
    alloc: Global,
    names: &Names,
    syntax: &Syntax,
    results: &Results,
    linkages: &mut Linkages,
    typed: bool,
    leaf: u32,
) -> Result<Vec<u32>, CheckFault>
    requires names { AreNamed syntax.now results.now names.now }
    requires linkages { AreLinkages syntax.now results.now names.now linkages.old }
    ensures linkages { AreLinkages syntax.now results.now names.now linkages.new }
    ensures typing { IfOk result (λ list. (u : UnitSpec) (w : World) (uses : List (ℕ × ℕ)) →
        let s = source_in syntax.now uses in
        let sense = sense_in (senses_made u results.now) in
        typed ≡ true → spec.all_together None (types_at s sense list.items) ≡ spec.type_behind s sense leaf) }
    ensures within { IfOk result (λ list. All (λ other. other < length syntax.now.tree.now.nodes.items) list.items) }
    ensures memory { IsOkUnless result CheckFault.OutOfMemory }
{
    if !typed {
        return Ok(Vec::new(alloc));
    }
    let list = typing_list(alloc, names, syntax, results, linkages, leaf)?;
    leaves_of(alloc, list.as_slice())
}

/// What the declarations of a unit say of the name that a leaf declares (C11 6.2.1, 6.2.2, 6.7p3), with what is kept of those before it.
/// With `typed` it says also what gives the type of the name behind its declaration, with an initialiser (6.2.7p4). Only memory may want.
/// Asked of the declarations of a unit in order, it looks at each of them once, where those of one name that stand behind one another are
/// made alike.
pub fn said_of(
    alloc: Global,
    names: &Names,
    lists: &SymbolLists,
    syntax: &Syntax,
    results: &Results,
    linkages: &mut Linkages,
    typed: bool,
    leaf: u32,
) -> Result<Said, CheckFault>
    requires names { AreNamed syntax.now results.now names.now }
    requires lists { AreListed syntax.now lists.now }
    requires linkages { AreLinkages syntax.now results.now names.now linkages.old }
    requires leaf { leaf < length syntax.now.tree.now.nodes.items }
    ensures linkages { AreLinkages syntax.now results.now names.now linkages.new }
    ensures said { IfOk result (λ said. (u : UnitSpec) (w : World) (uses : List (ℕ × ℕ)) →
        IsSaid w (source_in syntax.now uses) (sense_in (senses_made u results.now)) leaf said) }
    ensures within { IfOk result (IsSaidIn (length syntax.now.tree.now.nodes.items)) }
    ensures typed { IfOk result (λ said. said.is_typed ≡ typed) }
    ensures memory { IsOkUnless result CheckFault.OutOfMemory }
{
    let internal = internal_kept(names, syntax, results, linkages, leaf);
    let one_linkage = has_one_linkage(alloc, names, syntax, results, linkages, internal, leaf)?;
    let typedef = is_typedef(names, syntax, leaf);
    let in_scope = typedefs_before(alloc, names, syntax, results, linkages, typedef, leaf)?;
    let earlier = internal_before(
        alloc, names, lists, syntax, results, linkages, internal, leaf,
    )?;
    let typing = typing_leaves(alloc, names, syntax, results, linkages, typed, leaf)?;
    Ok(Said {
        is_typedef: typedef,
        is_linked: is_linked(names, syntax, leaf),
        is_function: declares_function(names, syntax, leaf),
        is_internal: internal,
        one_linkage,
        in_scope,
        internal_before: earlier,
        is_typed: typed,
        typing,
    })
}
