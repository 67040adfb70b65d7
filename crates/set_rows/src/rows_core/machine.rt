//! The machine's events: which may happen, and what comes of them.
ghost use Rattle.std.specs.Prelude.{◌≡◌, ℕ, ◌↔◌, IsTrue};
ghost use Rattle.sol_model.specs.Families.{members};
ghost use Rattle.sol_model.specs.Systems.{IsValid, Fits};
ghost use Rattle.set_rows.specs.rows_core.Machine.{Licensed, next, machine_of};

use crate::rows_core::given::is_given;
use crate::rows_core::{Event, RowsState};
use sol_model::{System, is_closed};

/// Whether an event may happen: an Or exactly where one constraint's rule demands its fact from facts of the rows, a
/// Shut exactly where the rows satisfy each rule, and a Look always.
pub fn licensed(system: &System, state: &RowsState, event: &Event) -> bool
    requires valid { IsValid system.now }
    requires fits { Fits system.now state.now.rows }
    ensures { IsTrue result ↔ Licensed system.now (machine_of state.now) event.now }
{
    match *event {
        Event::Or(row, location) => is_given(system, &state.rows, row, location),
        Event::Shut => is_closed(system, &state.rows),
        Event::Look => true,
    }
}

/// What the rows are after an event that may happen.
pub fn after(system: &System, state: &mut RowsState, event: &Event)
    requires valid { IsValid system.now }
    requires fits { Fits system.now state.old.rows }
    requires licensed { Licensed system.now (machine_of state.old) event.now }
    ensures fits { Fits system.now state.new.rows }
    ensures rows { (row location : ℕ) → members state.new.rows row location ≡ (next (machine_of state.old) event.now).rows row location }
    ensures mark { state.new.shut ≡ (next (machine_of state.old) event.now).shut }
{
    match *event {
        Event::Or(row, location) => {
            if !state.rows.has(row, location) {
                state.rows.insert(row, location);
            }
        }
        Event::Shut => state.shut = true,
        Event::Look => {}
    }
}
