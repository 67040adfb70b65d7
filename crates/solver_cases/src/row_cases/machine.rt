//! The machine on a small system: `p` gets the address of `x`, and `q` is a copy of `p`.
ghost use Rattle.std.specs.Prelude.{IfOk};
ghost use Rattle.sol_model.specs.Systems.{IsValid, Fits};

use crate::row_cases::three::three;
use call_graph::system_check::is_valid;
use pta_base::OutOfMemory;
use set_rows::rows_core::{Event, RowsState, after, licensed};
use sol_model::{Constraint, Rows, System};
use std::alloc::Global;

/// Events in turn, and whether each may happen.
static EVENTS: [(Event, bool); 12] = [
    (Event::Shut, false),
    (Event::Look, true),
    (Event::Or(2, 0), false),
    (Event::Or(1, 1), false),
    (Event::Or(1, 0), true),
    (Event::Shut, false),
    (Event::Or(3, 0), false),
    (Event::Or(2, 3), false),
    (Event::Or(2, 0), true),
    (Event::Shut, true),
    (Event::Or(2, 0), true),
    (Event::Or(0, 0), false),
];

/// Empty rows, not closed.
fn begin(alloc: Global, system: &System) -> Result<RowsState, OutOfMemory>
    requires { IsValid system.now }
    ensures { IfOk result (λ state. Fits system.now state.rows) }
{
    let width = (system.locations.len() as u32).div_ceil(64);
    Ok(RowsState {
        rows: Rows::empty(alloc, system.rows, width)?,
        shut: false,
    })
}

/// Lets an event happen where it may, and answers whether it might.
fn happens(system: &System, state: &mut RowsState, event: &Event) -> bool
    requires valid { IsValid system.now }
    requires fits { Fits system.now state.old.rows }
    ensures { Fits system.now state.new.rows }
{
    let may = licensed(system, state, event);
    if may {
        after(system, state, event);
    }
    may
}

#[test]
fn facts_come_one_by_one(rt: HostRuntime) -> Result<(), OutOfMemory> {
    // (locations 0 to 2 are `x`, `p` and `q`)
    let copied = Constraint::Copy { from: 1, to: 2 };
    let taken = Constraint::Address {
        row: 1,
        location: 0,
    };
    let system = three(rt.alloc(), &[copied, taken])?;
    assert!(rt; is_valid(&system));
    let mut state = begin(rt.alloc(), &system)?;
    for (event, may) in &EVENTS {
        let did = happens(&system, &mut state, event);
        assert!(rt; did == *may, "at {event:?}");
    }
    assert!(rt; state.shut && state.rows.words.as_slice() == [0u64, 1, 1].as_slice());
    Ok(())
}
