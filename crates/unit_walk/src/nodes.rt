// The first nodes of a unit's tree, in the order in which productions end.
ghost use Rattle.std.specs.Prelude.{◌≡◌, ◌≤◌, ℕ, [], IfOk, MatchResult};
ghost use Rattle.name_uses.specs.passed.expression_rows.Readable.{IsReadable};
ghost use Rattle.parsed_tree_laws.specs.family_laws.Families.{Families};
ghost use Rattle.core_nodes.specs.Once.{HasOnce};
ghost use Rattle.core_nodes.specs.Standing.{IsReady};
ghost use Rattle.limit_laws.specs.Limits.{AlwaysLimited};
ghost use Rattle.struct_rows.specs.Built.{HasTagTypes};
ghost use Rattle.unit_walk.specs.unit_rows.Standing.{IsKnown, Stand, source_known, nodes_known};
ghost use Rattle.unit_walk.specs.Stopping.{IsWalkedTo, RefusedBefore};

use crate::unit_choices::{no_choices, note};
use crate::unit_rows::{Along, Known, row};
use c_results::Results;
use core_nodes::CheckFault;
use core_tree::node::Unit;
use std::alloc::Global;

/// What each of a unit's first nodes stands for, over what was made for those before it (C11 6.5 to 6.9). The unit's table of types has
/// all tags of structures and unions before the first row, none of them complete. A refusal is that of the first of these nodes whose row
/// doesn't fit. Beside that only memory may want: what the rows make is within the limits as long as they fit (`AlwaysLimited`).
pub(crate) fn walk_nodes(
    alloc: Global,
    unit: &mut Unit,
    known: &Known,
    end: u32,
) -> Result<Results, CheckFault>
    requires known { IsKnown known.now }
    requires ready { IsReady unit.old }
    requires open { unit.old.types.completed ≡ [] }
    requires once { HasOnce unit.old.types }
    requires types { HasTagTypes (source_known known.now) unit.old.types }
    requires readable { (at : ℕ) → IsReadable (source_known known.now) at }
    requires families { Families (source_known known.now) }
    requires limits { AlwaysLimited (source_known known.now) }
    requires count { unit.old.types.tags ≡ known.now.numbered.now.tags.count }
    requires end { end ≤ nodes_known known.now }
    ensures stand { IfOk result (λ results. Stand (nodes_known known.now) unit.new results) }
    ensures entities { IfOk result (λ results. unit.new.entities.items ≡ unit.old.entities.items) }
    ensures types { IfOk result (λ results. HasTagTypes (source_known known.now) unit.new.types) }
    ensures once { IfOk result (λ results. HasOnce unit.new.types) }
    ensures walked { let s = source_known known.now in
        MatchResult result (λ results. IsWalkedTo s end unit.new results) (λ fault. RefusedBefore s end fault) }
{
    // (What every table keeps is told by its count.)
    let _count = unit.types.type_count();
    let syntax = &known.numbered.syntax;
    let mut results = Results::with_capacity(alloc, end as usize)?;
    let mut choices = no_choices(alloc);
    let Ok(mut along) = Along::new(alloc, unit, known.names) else {
        return Err(CheckFault::OutOfMemory);
    };
    for at in 0..end {
        match row(alloc, unit, known, &results, &choices, &mut along, at) {
            Ok(made) => results.push(made)?,
            Err(fault) => return Err(fault),
        }

        // The count is of no use, but that the table has one says that its types were made by its own functions, as the next row asks.
        let _types = unit.types.type_count();
        note(&mut choices, unit, syntax, &results, at)?;
    }
    Ok(results)
}
