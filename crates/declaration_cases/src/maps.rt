// Maps of a few pairs.
use std::test::Fail;
use tree_reads::leaf_maps::LeafMap;

// The first pair of a leaf counts, and what no pair has is missing.
#[test]
fn first_pair_counts(rt: HostRuntime) -> Result<(), Fail> {
    let pairs = [(5, 1), (9, 2), (5, 3)];
    let map = LeafMap::of_pairs(rt.alloc(), &pairs)?;
    assert!(rt; map.get(5) == Some(1));
    assert!(rt; map.get(9) == Some(2));
    assert!(rt; map.get(1) == None);
    Ok(())
}
