// A table of types with a unit's structures and unions.
ghost use Rattle.std.specs.Prelude.{◌≡◌, ◌<◌, ◌+◌, ℕ, List, [], length, slice_index, IfOk, OnOk};
ghost use Rattle.c_types.specs.Table.{type_of};
ghost use Rattle.c_inits.specs.Tables.{tagged};
ghost use Rattle.c_senses.specs.Tags as spec;
ghost use Rattle.tree_reads.specs.Sources.{source_read, source_in};
ghost use Rattle.core_nodes.specs.Once.{HasOnce};
ghost use Rattle.c_tags.specs.tag_numbers.Known.{AreTags};
ghost use Rattle.struct_rows.specs.Built.{HasTagTypes};
ghost use Rattle.struct_rows.specs.tag_types.Opened.{IsOpened, is_tag_union};

use crate::is_union;
use c_tags::tag_numbers::Numbered;
use c_types::table::TypeTable;
use c_types::term::{OutOfMemory, Term};
use std::alloc::Global;

// Whether a tag has the keyword `union`, by its first specifier.
fn is_tag_union(numbered: &Numbered, tag: u32) -> bool
    ensures { result ≡ is_tag_union numbered.now tag }
{
    match numbered.tags.firsts.get(tag as usize) {
        Some(first) => is_union(&numbered.syntax, *first),
        None => is_union(&numbered.syntax, 0),
    }
}

// One tag more, with its type.
fn add_type(types: &mut TypeTable, numbered: &Numbered) -> Result<(), OutOfMemory>
    ensures { OnOk result (IsOpened numbered.now types.old → IsOpened numbered.now types.new × (types.new.tags ≡ types.old.tags + 1)) }
{
    let tag = types.tag()?;
    let term = if is_tag_union(numbered, tag) {
        Term::Union(tag)
    } else {
        Term::Structure(tag)
    };
    types.add(term)?;
    Ok(())
}

/// The types that a unit begins with: its structures and unions, none of them complete, each under the number of its tag. Only memory
/// may want.
pub fn open_types(alloc: Global, numbered: &Numbered) -> Result<TypeTable, OutOfMemory>
    ensures tags { IfOk result (λ types. types.tags ≡ numbered.now.tags.count) }
    ensures opened { IfOk result (IsOpened numbered.now) }
    ensures once { IfOk result HasOnce }

    // So each tag of the unit has its type under its number.
    ensures types { (uses : List (ℕ × ℕ)) →
        AreTags (source_in numbered.now.syntax uses) numbered.now.tags →
        IfOk result (HasTagTypes (source_in numbered.now.syntax uses)) }
{
    let mut types = TypeTable::new(alloc);
    for _tag in 0..numbered.tags.count {
        add_type(&mut types, numbered)?;
    }
    Ok(types)
}
