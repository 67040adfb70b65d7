// Types spelled by letters, against sizes that gcc 12 prints for the same structures on x86-64, with `long double`
// for a floating type.

use crate::fields::{sides, word};
use crate::spelling::Builder;
use c_types::term::OutOfMemory;
use std::alloc::Global;

// Whether the text of a row spells a type of the row's size with so many nodes.
fn measures(alloc: Global, row: &str) -> Result<bool, OutOfMemory> {
    let (text, wanted) = sides(row);
    let size = word(wanted, 0).parse::<u64>().ok();
    let nodes = word(wanted, 1).parse::<u32>().ok();
    let mut builder = Builder::new(alloc, false)?;
    match builder.spelled(text)? {
        Some(id) if id.0 < builder.table.type_count() => {
            Ok(
                size.is_some()
                    && builder.table.size_of(id) == size
                    && nodes.is_some()
                    && builder.table.nodes(id) == nodes,
            )
        }
        _ => Ok(false),
    }
}

// Types, their sizes and how many nodes they have.
const SIZES: &str = "{cc*} => 16 3
{csc} => 6 4
{ic} => 8 3
{clc} => 24 4
{{csc}c} => 8 6
{c{cc*}s} => 32 6
{c5i} => 12 3
{{csc}3l} => 32 6
[c9i] => 12 1
{c[c9i]} => 16 3
{sdc} => 48 4
{bli} => 24 4
{c{c{cc*}s}2c} => 80 9
{c*i23c} => 40 4
i23 => 24 1";

#[test]
fn sizes_and_nodes(rt: HostRuntime) -> Result<(), OutOfMemory> {
    for row in SIZES.split('\n') {
        assert!(rt; measures(rt.alloc(), row)?, "{row}");
    }
    Ok(())
}
