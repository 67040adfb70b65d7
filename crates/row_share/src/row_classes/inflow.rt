//! What can add to each row by itself, and so which row each row follows.
ghost use Rattle.std.specs.Prelude.{◌≡◌, ℕ, ◌<◌, true, false, [], ◌∷◌, length, All, Contains, IfOk, IfSome, IfNone};
ghost use Rattle.sol_model.specs.Systems.{IsValid, IsRow, IsConstraintValid, location_count};
ghost use Rattle.row_share.specs.share_laws.Classes.{adds_to, adding, Follows, IsInResult, IsInParameter};
ghost use Rattle.row_share.specs.row_classes.Flowing.{inflow_of, inflow_at, AreInflows, Bars, Notes};

use pta_base::{Listing, OutOfMemory};
use sol_model::sites::{call_at, constraint_at, function_at};
use sol_model::{Constraint, System};
use std::alloc::Global;

/// What can add to a row by itself.
#[derive(Clone, Copy, Debug, PartialEq, Eq)]
pub(in crate::row_classes) enum Inflow {
    /// No constraint.
    Nothing,
    /// One copy alone, from this row.
    CopyOf(u32),
    /// Something else.
    More,
}

/// The row to which a constraint can add by itself, with what is known of the row if it is the only one.
fn inflow_by(system: &System, constraint: Constraint) -> Option<(u32, Inflow)>
    requires { IsConstraintValid system.now constraint }
    ensures known { IfSome result (λ pair. IsRow system.now pair.0) }
    ensures adds { IfSome result (λ pair. adds_to pair.0 constraint ≡ true) }
    ensures only { IfSome result (λ pair. (row : ℕ) → adds_to row constraint ≡ true → pair.0 ≡ row) }
    ensures inflow { IfSome result (λ pair. pair.1 ≡ inflow_of (constraint ∷ [])) }
    ensures none { IfNone result ((row : ℕ) → adds_to row constraint ≡ false) }
{
    match constraint {
        Constraint::Copy { from, to } => Some((to, Inflow::CopyOf(from))),
        Constraint::Address { row, .. } => Some((row, Inflow::More)),
        Constraint::Load { to, .. } => Some((to, Inflow::More)),
        Constraint::Field { to, .. } => Some((to, Inflow::More)),
        Constraint::Store { .. } => None,
        Constraint::Contents { .. } => None,
        Constraint::Call { .. } => None,
    }
}

/// Notes what one constraint can add to.
fn note(inflows: &mut [Inflow], system: &System, constraint: Constraint)
    requires sized { length inflows.old ≡ system.now.rows }
    requires valid { IsConstraintValid system.now constraint }
    ensures { (row : ℕ) → row < length inflows.old → Notes constraint row (inflow_at inflows.old row) (inflow_at inflows.new row) }
{
    if let Some((row, by)) = inflow_by(system, constraint) {
        let at = row as usize;
        inflows[at] = match inflows[at] {
            Inflow::Nothing => by,
            Inflow::CopyOf(_) => Inflow::More,
            Inflow::More => Inflow::More,
        };
    }
}

/// Notes for each row what the constraints can add to it.
fn note_all(inflows: &mut [Inflow], system: &System)
    requires valid { IsValid system.now }
    requires sized { length inflows.old ≡ system.now.rows }
    requires empty { (row : ℕ) → row < length inflows.old → inflow_at inflows.old row ≡ Inflow.Nothing }
    ensures { (row : ℕ) → row < length inflows.old → inflow_at inflows.new row ≡ inflow_of (adding row system.now.constraints) }
{
    for i in 0..system.constraints.len() {
        note(inflows, system, constraint_at(system, i));
    }
}

/// Notes that something else than a copy can add to the rows of locations.
fn bar_locations(inflows: &mut [Inflow], system: &System)
    requires valid { IsValid system.now }
    requires sized { length inflows.old ≡ system.now.rows }
    ensures { Bars (λ row. row < location_count system.now) inflows.old inflows.new }
{
    for location in 0..system.locations.len() {
        inflows[location] = Inflow::More;
    }
}

/// The same for some rows.
fn bar(inflows: &mut [Inflow], rows: &[u32])
    requires { All (λ row. row < length inflows.old) rows.now }
    ensures { Bars (λ row. Contains rows.now row) inflows.old inflows.new }
{
    for row in rows {
        inflows[*row as usize] = Inflow::More;
    }
}

/// The same for the rows of several lists.
fn bar_lists(inflows: &mut [Inflow], lists: &[Listing<u32>])
    requires { All (λ rows. All (λ row. row < length inflows.old) rows) lists.now }
    ensures { Bars (λ row. (rows : _) × Contains lists.now rows × Contains rows row) inflows.old inflows.new }
{
    for rows in lists {
        bar(inflows, rows.as_slice());
    }
}

/// The same for the rows of the results of calls.
fn bar_results(inflows: &mut [Inflow], system: &System)
    requires valid { IsValid system.now }
    requires sized { length inflows.old ≡ system.now.rows }
    ensures { Bars (IsInResult system.now.calls) inflows.old inflows.new }
{
    for i in 0..system.calls.len() {
        bar(inflows, call_at(system, i).result.as_slice());
    }
}

/// The same for the rows of the parameters of functions.
fn bar_parameters(inflows: &mut [Inflow], system: &System)
    requires valid { IsValid system.now }
    requires sized { length inflows.old ≡ system.now.rows }
    ensures { Bars (IsInParameter system.now.functions) inflows.old inflows.new }
{
    for i in 0..system.functions.len() {
        bar_lists(inflows, function_at(system, i).parameters.as_slice());
    }
}

/// Notes for each row what can add to it by itself. What calls can add to isn't any row's own: so the rows of results and
/// parameters, and those of locations, have More.
fn note_system(inflows: &mut [Inflow], system: &System)
    requires valid { IsValid system.now }
    requires sized { length inflows.old ≡ system.now.rows }
    requires empty { (row : ℕ) → row < length inflows.old → inflow_at inflows.old row ≡ Inflow.Nothing }
    ensures { AreInflows system.now inflows.new }
{
    note_all(inflows, system);
    bar_locations(inflows, system);
    bar_results(inflows, system);
    bar_parameters(inflows, system);
}

/// For each row what can add to it by itself.
pub(in crate::row_classes) fn inflows(
    alloc: Global,
    system: &System,
) -> Result<Vec<Inflow>, OutOfMemory>
    requires { IsValid system.now }
    ensures { IfOk result (λ inflows. AreInflows system.now inflows.items) }
{
    let mut inflows = vec![in alloc; Inflow::Nothing; system.rows as usize]?;
    note_system(&mut inflows, system);
    Ok(inflows)
}

/// The row that a row follows; none where it follows no row.
pub(in crate::row_classes) fn followed(system: &System, inflows: &[Inflow], row: u32) -> Option<u32>
    requires valid { IsValid system.now }
    requires inflows { AreInflows system.now inflows.now }
    requires row { IsRow system.now row }
    ensures some { IfSome result (λ from. Follows system.now row from × IsRow system.now from) }
    ensures none { IfNone result ((from : ℕ) → Follows system.now row from → ⊥) }
{
    match inflows[row as usize] {
        Inflow::CopyOf(from) => Some(from),
        Inflow::Nothing => None,
        Inflow::More => None,
    }
}
