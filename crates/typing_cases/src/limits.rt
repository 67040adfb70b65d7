// The numbers that integer types hold.
use c_types::table::TypeTable;
use c_types::term::{OutOfMemory, Term};
use std::alloc::Global;
use type_rules::numbers::holds;

// Whether an integer of that size holds a number.
fn fits(alloc: Global, size: u8, signed: bool, n: i128) -> Result<bool, OutOfMemory> {
    let mut types = TypeTable::new(alloc);
    let id = match size {
        1 => types.add(Term::Integer {
            size: 1,
            rank: 2,
            signed,
        })?,
        2 => types.add(Term::Integer {
            size: 2,
            rank: 3,
            signed,
        })?,
        4 => types.add(Term::Integer {
            size: 4,
            rank: 4,
            signed,
        })?,
        _ => types.add(Term::Integer {
            size: 8,
            rank: 5,
            signed,
        })?,
    };
    Ok(holds(&types, id, n))
}

// Whether an integer of that size holds the first number and not the second.
fn is_limit(alloc: Global, size: u8, signed: bool, within: i128, past: i128) -> bool {
    let holds_first = matches!(fits(alloc, size, signed, within), Ok(true));
    let lacks_second = matches!(fits(alloc, size, signed, past), Ok(false));
    holds_first && lacks_second
}

static LIMITS: [(u8, bool, i128, i128); 8] = [
    (1, true, -128, -129),
    (1, true, 127, 128),
    (1, false, 255, 256),
    (2, true, -32768, -32769),
    (4, true, 2147483647, 2147483648),
    (4, false, 4294967295, 4294967296),
    (8, true, -9223372036854775808, -9223372036854775809),
    (8, false, 18446744073709551615, 18446744073709551616),
];

// The limits of C11 5.2.4.2.1 on a machine with two's complement and 64 bits.
#[test]
fn limits(rt: HostRuntime) {
    for (size, signed, within, past) in &LIMITS {
        assert!(rt;
            is_limit(rt.alloc(), *size, *signed, *within, *past),
            "{past}"
        );
    }
}
