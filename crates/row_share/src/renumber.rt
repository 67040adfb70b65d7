//! The parts of a system with other numbers for its rows.
ghost use Rattle.std.specs.Prelude.{◌≡◌, ◌<◌, length, map, All, IfOk};
ghost use Rattle.sol_model.specs.Systems.{IsRow, IsCallValid, IsConstraintValid, IsFunctionValid};
ghost use Rattle.row_share.specs.share_laws.Renumbering.{new_row, renumbered, renumbered_call, renumbered_function};

use pta_base::{Listing, OutOfMemory};
use sol_model::{CallSite, Constraint, Function, System, TypeFact};
use std::alloc::Global;

/// The new number of a row.
pub(crate) fn new_row(row: &[u32], old: u32) -> u32
    requires { old < length row.now }
    ensures { result ≡ new_row row.now old }
{
    row[old as usize]
}

/// A list of numbers that can be copied.
pub(crate) fn list_of<T: Copy + Drop>(alloc: Global, items: &[T]) -> Result<Listing<T>, OutOfMemory>
    ensures { IfOk result (λ list. list ≡ items.now) }
{
    let mut list = Listing::new(alloc);
    for item in items {
        list.push(*item)?;
    }
    Ok(list)
}

/// A list of rows.
pub(crate) fn rows_of(alloc: Global, row: &[u32], rows: &[u32]) -> Result<Listing<u32>, OutOfMemory>
    requires { All (λ old. old < length row.now) rows.now }
    ensures { IfOk result (λ list. list ≡ map (new_row row.now) rows.now) }
{
    let mut list = Listing::new(alloc);
    for old in rows {
        list.push(new_row(row, *old))?;
    }
    Ok(list)
}

/// A list of lists of rows.
pub(crate) fn lists_of(
    alloc: Global,
    row: &[u32],
    lists: &[Listing<u32>],
) -> Result<Listing<Listing<u32>>, OutOfMemory>
    requires { All (λ rows. All (λ old. old < length row.now) rows) lists.now }
    ensures { IfOk result (λ made. made ≡ map (map (new_row row.now)) lists.now) }
{
    let mut made = Listing::new(alloc);
    for rows in lists {
        made.push(rows_of(alloc, row, rows.as_slice())?)?;
    }
    Ok(made)
}

/// A constraint.
pub(crate) fn constraint_of(system: &System, row: &[u32], constraint: Constraint) -> Constraint
    requires rows { length row.now ≡ system.now.rows }
    requires valid { IsConstraintValid system.now constraint }
    ensures { result ≡ renumbered (new_row row.now) constraint }
{
    match constraint {
        Constraint::Address { row: to, location } => Constraint::Address {
            row: new_row(row, to),
            location,
        },
        Constraint::Copy { from, to } => Constraint::Copy {
            from: new_row(row, from),
            to: new_row(row, to),
        },
        Constraint::Load {
            pointer,
            to,
            ty,
            sub,
        } => Constraint::Load {
            pointer: new_row(row, pointer),
            to: new_row(row, to),
            ty,
            sub,
        },
        Constraint::Store {
            pointer,
            from,
            ty,
            sub,
        } => Constraint::Store {
            pointer: new_row(row, pointer),
            from: new_row(row, from),
            ty,
            sub,
        },
        Constraint::Field {
            from,
            to,
            ty,
            member,
        } => Constraint::Field {
            from: new_row(row, from),
            to: new_row(row, to),
            ty,
            member,
        },
        Constraint::Contents { to, from } => Constraint::Contents {
            to: new_row(row, to),
            from: new_row(row, from),
        },
        Constraint::Call { call } => Constraint::Call { call },
    }
}

/// A call.
pub(crate) fn call_of(
    alloc: Global,
    system: &System,
    row: &[u32],
    call: &CallSite,
) -> Result<CallSite, OutOfMemory>
    requires rows { length row.now ≡ system.now.rows }
    requires valid { IsCallValid system.now call.now }
    ensures { IfOk result (λ made. made ≡ renumbered_call (new_row row.now) call.now) }
{
    Ok(CallSite {
        caller: call.caller,
        callee: new_row(row, call.callee),
        signature: call.signature,
        direct: call.direct,
        place: call.place,
        arguments: lists_of(alloc, row, call.arguments.as_slice())?,
        result: rows_of(alloc, row, call.result.as_slice())?,
        fresh: list_of(alloc, call.fresh.as_slice())?,
    })
}

/// A function.
pub(crate) fn function_of(
    alloc: Global,
    system: &System,
    row: &[u32],
    function: &Function,
) -> Result<Function, OutOfMemory>
    requires rows { length row.now ≡ system.now.rows }
    requires valid { IsFunctionValid system.now function.now }
    ensures { IfOk result (λ made. made ≡ renumbered_function (new_row row.now) function.now) }
{
    Ok(Function {
        location: function.location,
        signature: function.signature,
        parameters: lists_of(alloc, row, function.parameters.as_slice())?,
        result: rows_of(alloc, row, function.result.as_slice())?,
        library: function.library,
        effects: list_of(alloc, function.effects.as_slice())?,
    })
}

/// The types, unchanged.
pub(crate) fn types_of(alloc: Global, types: &[TypeFact]) -> Result<Listing<TypeFact>, OutOfMemory>
    ensures { IfOk result (λ made. made ≡ types.now) }
{
    let mut made = Listing::new(alloc);
    for fact in types {
        made.push(TypeFact {
            nodes: fact.nodes,
            members: list_of(alloc, fact.members.as_slice())?,
        })?;
    }
    Ok(made)
}
