//! A table from its first step to its last, by one thread and by two.
ghost use Rattle.std.specs.Prelude.{◌≡◌, ℕ, ◌+◌, ◌<◌, [], ◌∷◌, Contains, IfOk, true};
ghost use Rattle.std.specs.Thread.{IsSync};
ghost use Rattle.sol_model.specs.Families.{Has};
ghost use Rattle.sol_model.specs.Systems.{location_count};
ghost use Rattle.set_rows.specs.Views.{known};
ghost use Rattle.set_rows.specs.Calls.{system_of, view, IsOf};

use crate::row_cases::three::three;
use call_graph::system_check::is_valid;
use pta_base::OutOfMemory;
use set_rows::{RowSeat, RowTable};
use sol_model::{Constraint, System};
use std::alloc::Global;
use std::thread::{Threads, join};

/// Locations 0 to 2 are `x`, `p` and `main`, and the program is `p = &x;`.
fn one_address(alloc: Global) -> Result<System, OutOfMemory>
    ensures rows { IfOk result (λ system. (system.rows ≡ 3) × (location_count system ≡ 3)) }
    ensures constraints { IfOk result (λ system. system.constraints ≡ Constraint.Address 1 0 ∷ []) }
{
    let constraints = [Constraint::Address {
        row: 1,
        location: 0,
    }];
    three(alloc, &constraints)
}

/// Locations 0 to 2 are `x`, `p` and `q`, and the program is `p = &x; q = &x;`.
fn two_addresses(alloc: Global) -> Result<System, OutOfMemory>
    ensures rows { IfOk result (λ system. (system.rows ≡ 3) × (location_count system ≡ 3)) }
    ensures constraints { IfOk result (λ system. system.constraints ≡ Constraint.Address 1 0 ∷ Constraint.Address 2 0 ∷ []) }
{
    let constraints = [
        Constraint::Address {
            row: 1,
            location: 0,
        },
        Constraint::Address {
            row: 2,
            location: 0,
        },
    ];
    three(alloc, &constraints)
}

/// Adds the fact of an Address to `x`.
fn add_address(table: &RowTable, seat: &mut RowSeat, row: u32) -> u64
    requires own { IsOf table.now seat.old }
    requires rows { ((system_of table.now).rows ≡ 3) × (location_count (system_of table.now) ≡ 3) }
    requires row { row < 3 }
    requires demanded { Contains (system_of table.now).constraints (Constraint.Address row 0) }
    ensures own { IsOf table.now seat.new }
    ensures ors { (view seat.new).ors ≡ (view seat.old).ors + 1 }
    ensures found { (view seat.new).found ≡ result }
    ensures has { Has (known (view seat.new)) row 0 }
{
    table.add(seat, row as usize, 1)
}

/// Closes a table whose constraints are all Addresses of `x` that the seat has seen.
fn close(table: &RowTable, seat: &mut RowSeat)
    requires own { IsOf table.now seat.old }
    requires seen { (constraint : Constraint) → Contains (system_of table.now).constraints constraint
        → (row : ℕ) × (constraint ≡ Constraint.Address row 0) × Has (known (view seat.old)) row 0 }
    ensures own { IsOf table.now seat.new }
    ensures knows { (view seat.new).knows ≡ true }
{
    table.shut(seat);
}

/// Two threads add an Address each with seats of their own, which then meet.
fn add_by_two<R: Threads + Sync>(rt: &R, table: &RowTable, seat: RowSeat) -> RowSeat
    requires sync { IsSync R.row }
    requires own { IsOf table.now seat }
    requires rows { ((system_of table.now).rows ≡ 3) × (location_count (system_of table.now) ≡ 3) }
    requires constraints { (system_of table.now).constraints ≡ Constraint.Address 1 0 ∷ Constraint.Address 2 0 ∷ [] }
    ensures own { IsOf table.now result }
    ensures ors { (view result).ors ≡ (view seat).ors + 2 }
    ensures seen { Has (known (view result)) 1 0 × Has (known (view result)) 2 0 }
{
    let mut seat = seat;
    let other = table.split(&mut seat);
    let (mut seat, other) = join(
        rt,
        move || -> RowSeat
            requires own { IsOf table.now seat }
            requires rows { ((system_of table.now).rows ≡ 3) × (location_count (system_of table.now) ≡ 3) }
            requires demanded { Contains (system_of table.now).constraints (Constraint.Address 1 0) }
            ensures own { IsOf table.entry.now result }
            ensures ors { (view result).ors ≡ (view seat).ors + 1 }
            ensures has { Has (known (view result)) 1 0 }
        {
            let mut seat = seat;
            add_address(table, &mut seat, 1);
            seat
        },
        move || -> RowSeat
            requires own { IsOf table.now other }
            requires rows { ((system_of table.now).rows ≡ 3) × (location_count (system_of table.now) ≡ 3) }
            requires demanded { Contains (system_of table.now).constraints (Constraint.Address 2 0) }
            ensures own { IsOf table.entry.now result }
            ensures ors { (view result).ors ≡ (view other).ors + 1 }
            ensures has { Has (known (view result)) 2 0 }
        {
            let mut other = other;
            add_address(table, &mut other, 2);
            other
        },
    );
    table.meet(&mut seat, other);
    seat
}

#[test]
fn one_address_from_first_step_to_last(rt: HostRuntime) -> Result<(), OutOfMemory> {
    let system = one_address(rt.alloc())?;
    assert!(rt; is_valid(&system));
    let (table, mut seat) = RowTable::new(rt.alloc(), &system)?;
    let empty = table.look(&mut seat, 1);
    let open = !table.is_shut(&mut seat);
    let tickets = [table.ticket(&mut seat), table.ticket(&mut seat)];
    // (each step answers the word as it was)
    let words = [
        add_address(&table, &mut seat, 1),
        add_address(&table, &mut seat, 1),
    ];
    close(&table, &mut seat);
    let full = table.look(&mut seat, 1);
    let shut = table.is_shut(&mut seat);
    assert!(rt; open && shut);
    let rows = table.copy_rows(rt.alloc(), &mut seat)?;
    let seen = [empty, tickets[0], tickets[1], words[0], words[1], full];
    assert!(rt; seen == [0, 0, 1, 0, 1, 1], "{seen:?}");
    assert!(rt; rows.words.as_slice() == [0u64, 1, 0].as_slice());
    Ok(())
}

#[test]
fn two_threads_meet(rt: HostRuntime) -> Result<(), OutOfMemory> {
    let system = two_addresses(rt.alloc())?;
    assert!(rt; is_valid(&system));
    let (table, seat) = RowTable::new(rt.alloc(), &system)?;
    let mut seat = add_by_two(&rt, &table, seat);
    let words = [table.look(&mut seat, 1), table.look(&mut seat, 2)];
    assert!(rt; words == [1, 1], "{words:?}");
    Ok(())
}
