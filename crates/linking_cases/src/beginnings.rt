// Where the parts of several units begin.

use core_tree::Unit;
use link_model::link_types::starts::{starts, tag_counts, type_counts};
use std::test::Fail;

#[test]
fn sums(rt: HostRuntime) -> Result<(), Fail> {
    let list = starts(rt.alloc(), [2, 0, 3].as_slice())?;
    assert!(rt; list.as_slice() == [0, 2, 2, 5].as_slice());
    let most = starts(rt.alloc(), [u32::MAX, 1].as_slice());
    assert!(rt; most.is_err());
    Ok(())
}

#[test]
fn no_unit(rt: HostRuntime) -> Result<(), Fail> {
    let units: Vec<Unit> = Vec::new(rt.alloc());
    let types = type_counts(rt.alloc(), units.as_slice())?;
    let tags = tag_counts(rt.alloc(), units.as_slice())?;
    assert!(rt; types.is_empty() && tags.is_empty());
    Ok(())
}
