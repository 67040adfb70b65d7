// Copies of what has been made.
ghost use Rattle.std.specs.Prelude.{◌≡◌, ℕ, IfOk, All};
ghost use Rattle.core_tree.specs.declared.node.Unit.{Unit as UnitSpec};
ghost use Rattle.core_nodes.specs.passed.c_senses.Sense.{sense_in};
ghost use Rattle.c_results.specs.Standing.{sense_made, senses_made, IsWithin};

use crate::boxed::{BoxedDerivation, BoxedList, WordList};
use crate::derivation::Derivation;
use crate::made::{Made, made_at};
use crate::results::Results;
use c_types::term::{MemberTerm, Name};
use core_tree::held::Number;
use std::alloc::{AllocError, Global};

// The same derivations once more.
fn copied_derivations(
    alloc: Global,
    derivations: &[Derivation],
) -> Result<Vec<Derivation>, AllocError>
    ensures { IfOk result (λ list. list.items ≡ derivations.now) }
{
    let mut list = Vec::new(alloc);
    for derivation in derivations {
        list.push(derivation.copied(alloc)?)?;
    }
    Ok(list)
}

// The same name once more.
fn copied_name(alloc: Global, name: &Name) -> Result<Name, AllocError>
    ensures { IfOk result (λ copy. copy ≡ name.now) }
{
    let text = String::from_str(alloc, name.as_str())?;
    Ok(Name::from_text(text))
}

/// The same member once more.
pub fn copied_member(alloc: Global, member: &MemberTerm) -> Result<MemberTerm, AllocError>
    ensures { IfOk result (λ copy. copy ≡ member.now) }
{
    let ty = member.ty;
    let bits = member.bits;
    match &member.name {
        None => Ok(MemberTerm {
            name: None,
            ty,
            bits,
        }),
        Some(name) => {
            let copy = copied_name(alloc, name)?;
            Ok(MemberTerm {
                name: Some(copy),
                ty,
                bits,
            })
        }
    }
}

// The same members once more.
fn copied_members(alloc: Global, members: &[MemberTerm]) -> Result<Vec<MemberTerm>, AllocError>
    ensures { IfOk result (λ list. list.items ≡ members.now) }
{
    let mut list = Vec::new(alloc);
    for member in members {
        list.push(copied_member(alloc, member)?)?;
    }
    Ok(list)
}

impl Made {
    // The same once more.
    fn copied(&self, alloc: Global) -> Result<Made, AllocError>
        ensures sense { (u : UnitSpec) → IfOk result (λ m. sense_made u m ≡ sense_made u self.now) }
        ensures within { (u : UnitSpec) → IsWithin u self.now → IfOk result (IsWithin u) }
    {
        match self {
            Made::Nothing => Ok(Made::Nothing),
            Made::Node(node) => Ok(Made::Node(*node)),
            Made::Typed(ty) => Ok(Made::Typed(*ty)),
            Made::Specifiers {
                storage,
                functions,
                ty,
            } => {
                let storage = Vec::from_slice(alloc, storage.as_slice())?;
                let functions = Vec::from_slice(alloc, functions.as_slice())?;
                Ok(Made::Specifiers {
                    storage: WordList::of(alloc, storage)?,
                    functions: WordList::of(alloc, functions)?,
                    ty: *ty,
                })
            }
            Made::Declarator { name, derivations } => {
                let derivations = copied_derivations(alloc, derivations.as_slice())?;
                Ok(Made::Declarator {
                    name: *name,
                    derivations: BoxedList::of(alloc, derivations)?,
                })
            }
            Made::Derived(derivation) => {
                let copy = derivation.get().copied(alloc)?;
                let copy = BoxedDerivation::of(alloc, copy)?;
                Ok(Made::Derived(copy))
            }
            Made::Parameter { name, ty } => Ok(Made::Parameter {
                name: *name,
                ty: *ty,
            }),
            Made::Members(members) => {
                let copy = copied_members(alloc, members.as_slice())?;
                Ok(Made::Members(copy))
            }
            Made::Value(value) => Ok(Made::Value(Number::of(value.get()))),
            Made::Run(nodes) => {
                let copy = Vec::from_slice(alloc, nodes.as_slice())?;
                Ok(Made::Run(copy))
            }
            Made::Initial { node, length } => Ok(Made::Initial {
                node: *node,
                length: *length,
            }),
        }
    }
}

/// What has been made for a node, once more, for a node that passes it on.
pub fn copied_at(alloc: Global, results: &Results, node: u32) -> Result<Made, AllocError>
    ensures sense { (u : UnitSpec) → IfOk result (λ m. sense_made u m ≡ sense_in (senses_made u results.now) node) }
    ensures within { (u : UnitSpec) → All (IsWithin u) results.now → IfOk result (IsWithin u) }
{
    match made_at(results, node) {
        Some(made) => made.copied(alloc),
        None => Ok(Made::Nothing),
    }
}
