// Arrays of one name.
#![tactic(auto, using(core_nodes::proofs::IntegerTypes::integers))]

use crate::hand::empty_unit;
use c_entities::{agree, together, with_length};
use c_types::term::Term;
use core_nodes::trees::{add_type, int_type};
use std::test::Fail;

// `extern int a[];` and `int a[3];` agree and give `int[3]` together, in either order (C11 6.2.7p3).
#[test]
fn length_wins(rt: HostRuntime) -> Result<(), Fail> {
    let alloc = rt.alloc();
    let mut unit = empty_unit(alloc)?;
    let Ok(int) = int_type(&mut unit) else {
        return Err(Fail::new("int"));
    };
    let Ok(open) = add_type(
        &mut unit,
        Term::Array {
            of: int,
            length: None,
        },
    ) else {
        return Err(Fail::new("int[]"));
    };
    let Ok(fixed) = with_length(&mut unit, Some(3), open) else {
        return Err(Fail::new("int[3]"));
    };
    let agrees = [
        agree(&unit.types, open, fixed),
        !agree(&unit.types, int, fixed),
        together(&unit.types, open, fixed) == fixed,
        together(&unit.types, fixed, open) == fixed,
    ];
    for (at, holds) in agrees.iter().enumerate() {
        assert!(rt; *holds, "claim {at}");
    }
    Ok(())
}
