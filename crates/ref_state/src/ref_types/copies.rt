// An equal table of types.

ghost use Rattle.std.specs.Prelude.{◌≡◌, ◌+◌, ◌<◌, [], ◌∷◌, ◌++◌, IfOk, OnOk, length, take};
ghost use Rattle.c_types.specs.Made.{AreNamed, IsMade};

use c_types::table::TypeTable;
use c_types::term::{MemberTerm, Name, OutOfMemory, Term, TypeId, TypeList};
use std::alloc::Global;

// An equal term.
fn copy_term(alloc: Global, term: &Term) -> Result<Term, OutOfMemory>
    ensures { IfOk result (λ copy. copy ≡ term.now) }
{
    match term {
        Term::Void => Ok(Term::Void),
        Term::Bool => Ok(Term::Bool),
        Term::Integer { size, rank, signed } => Ok(Term::Integer {
            size: *size,
            rank: *rank,
            signed: *signed,
        }),
        Term::Floating => Ok(Term::Floating),
        Term::VaList => Ok(Term::VaList),
        Term::Pointer(to) => Ok(Term::Pointer(*to)),
        Term::Array { of, length } => Ok(Term::Array {
            of: *of,
            length: *length,
        }),
        Term::Function {
            result,
            parameters,
            form,
        } => {
            let list = Vec::from_slice(alloc, parameters.as_slice())?;
            Ok(Term::Function {
                result: *result,
                parameters: TypeList::from_items(list),
                form: *form,
            })
        }
        Term::Structure(tag) => Ok(Term::Structure(*tag)),
        Term::Union(tag) => Ok(Term::Union(*tag)),
    }
}

// An equal name.
fn copy_name(alloc: Global, name: &Option<Name>) -> Result<Option<Name>, OutOfMemory>
    ensures { IfOk result (λ copy. copy ≡ name.now) }
{
    match name {
        Some(name) => {
            let text = name.as_str().to_string(alloc)?;
            Ok(Some(Name::from_text(text)))
        }
        None => Ok(None),
    }
}

// One member more.
fn push_member(list: &mut Vec<MemberTerm>, member: MemberTerm) -> Result<(), OutOfMemory>
    ensures { OnOk result (list.new.items ≡ list.old.items ++ member ∷ []) }
{
    match list.push(member) {
        Ok(()) => Ok(()),
        Err(_) => Err(OutOfMemory),
    }
}

// Equal members.
fn copy_members(alloc: Global, members: &[MemberTerm]) -> Result<Vec<MemberTerm>, OutOfMemory>
    ensures { IfOk result (λ list. list.items ≡ members.now) }
{
    let mut list = Vec::new(alloc);
    for member in members {
        let copy = MemberTerm {
            name: copy_name(alloc, &member.name)?,
            ty: member.ty,
            bits: member.bits,
        };
        push_member(&mut list, copy)?;
    }
    Ok(list)
}

// The next term of another table, whose earlier ones are there.
fn add_next(
    alloc: Global,
    types: &TypeTable,
    number: u32,
    table: &mut TypeTable,
) -> Result<(), OutOfMemory>
    requires made { IsMade types.now }
    requires within { number < length types.now.terms }
    requires so_far { table.old ≡ record types.now { terms = take number types.now.terms; completed = [] } }
    ensures { OnOk result
        (table.new ≡ record types.now { terms = take (number + 1) types.now.terms; completed = [] }) }
{
    let term = copy_term(alloc, types.term(TypeId(number)))?;
    table.add(term)?;
    Ok(())
}

// Completes the tag that another table completed in that position, where the earlier ones are complete. No table completes a
// tag twice, which is looked up, since tables don't say it.
fn complete_next(
    alloc: Global,
    types: &TypeTable,
    position: u32,
    table: &mut TypeTable,
) -> Result<(), OutOfMemory>
    requires made { IsMade types.now }
    requires named { AreNamed types.now }
    requires within { position < length types.now.completed }
    requires so_far { table.old ≡ record types.now { completed = take position types.now.completed } }
    ensures { OnOk result (table.new ≡ record types.now { completed = take (position + 1) types.now.completed }) }
{
    let tag = types.completed_tag(position);
    match (types.members(tag), table.members(tag)) {
        (Some(members), None) => {
            let members = copy_members(alloc, members)?;
            table.complete(tag, members)
        }
        _ => Err(OutOfMemory),
    }
}

/// An equal table.
pub fn copy_types(alloc: Global, types: &TypeTable) -> Result<TypeTable, OutOfMemory>
    ensures { IfOk result (λ table. table ≡ types.now) }
{
    let mut table = TypeTable::new(alloc);
    for tag in 0..types.tag_count() {
        let _made = table.tag()?;
    }
    for number in 0..types.type_count() {
        add_next(alloc, types, number, &mut table)?;
    }
    for position in 0..types.completed_count() {
        complete_next(alloc, types, position, &mut table)?;
    }
    Ok(table)
}
