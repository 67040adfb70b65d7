//! A book that takes in copies, a Load and a Store.
ghost use Rattle.std.specs.Prelude.{◌≡◌, [], ◌∷◌, IfOk};
ghost use Rattle.sol_model.specs.Systems.{location_count};

use crate::row_cases::three::three;
use call_graph::system_check::is_valid;
use edge_book::PairBook;
use pta_base::OutOfMemory;
use sol_model::{Constraint, System};
use std::alloc::Global;

/// Copies that are added in turn, and whether each is new.
static ADDED: [(u32, u32, bool); 5] = [
    (2, 1, true),
    (3, 2, true),
    (1, 3, true),
    (3, 2, false),
    (2, 1, false),
];

#[test]
fn copies_in_a_ring_stand_once(rt: HostRuntime) -> Result<(), OutOfMemory> {
    let mut book = PairBook::new(rt.alloc());
    for (from, to, new) in &ADDED {
        let added = book.add(*from, *to)?;
        assert!(rt; added == *new, "from {from} to {to}");
    }
    let pairs = [book.get(1), book.get(2), book.get(3)];
    assert!(rt; book.len() == 3 && pairs == [Some((3, 2)), Some((1, 3)), None]);
    Ok(())
}

/// `p = *q;` and `*p = q;`, where `p` is location 0 and `q` is location 1.
fn through_pointers(alloc: Global) -> Result<System, OutOfMemory>
    ensures locations { IfOk result (λ system. location_count system ≡ 3) }
    ensures constraints { IfOk result (λ system. system.constraints ≡ Constraint.Load 1 0 0 0 ∷ Constraint.Store 0 1 0 0 ∷ []) }
{
    let constraints = [
        Constraint::Load {
            pointer: 1,
            to: 0,
            ty: 0,
            sub: 0,
        },
        Constraint::Store {
            pointer: 0,
            from: 1,
            ty: 0,
            sub: 0,
        },
    ];
    three(alloc, &constraints)
}

#[test]
fn members_bring_edges(rt: HostRuntime) -> Result<(), OutOfMemory> {
    let system = through_pointers(rt.alloc())?;
    assert!(rt; is_valid(&system));
    let mut book = PairBook::new(rt.alloc());
    let loaded = book.edges_of_load(&system, 0, 2)?;
    let stored = book.edges_of_store(&system, 1, 2)?;
    let again = book.edges_of_load(&system, 0, 2)?;
    assert!(rt; [loaded, stored, again] == [1, 1, 0]);
    let pairs = [book.get(0), book.get(1)];
    assert!(rt; book.len() == 2 && pairs == [Some((2, 0)), Some((1, 2))]);
    Ok(())
}
