// New tags.
ghost use Rattle.std.specs.Prelude.{◌≡◌, ◌<◌, ◌+◌, length, IfOk, OnOk};
ghost use Rattle.c_types.specs.Table.{type_of};
ghost use Rattle.c_inits.specs.Tables.{tagged};
ghost use Rattle.carried_trees.specs.carried_types.Wider.{IsWider};

use c_types::table::TypeTable;
use c_types::term::Term;
use pta_base::OutOfMemory;

/// A new tag, of a structure or union without members: its number, and that of its type. Only memory may want, and then the table may
/// have the tag without the type.
pub fn open_tag(types: &mut TypeTable, is_union: bool) -> Result<(u32, u32), OutOfMemory>
    ensures wider { IsWider types.old types.new }
    ensures completed { types.new.completed ≡ types.old.completed }
    ensures number { IfOk result (λ r. r.0 ≡ types.old.tags) }
    ensures typed { IfOk result (λ r. type_of types.new r.1 ≡ tagged is_union r.0) }
    ensures within { IfOk result (λ r. r.1 < length types.new.terms) }
    ensures tags { OnOk result (types.new.tags ≡ types.old.tags + 1) }
{
    let Ok(number) = types.tag() else {
        return Err(OutOfMemory);
    };
    let term = if is_union {
        Term::Union(number)
    } else {
        Term::Structure(number)
    };
    match types.add(term) {
        Ok(id) => Ok((number, id.0)),
        Err(_) => Err(OutOfMemory),
    }
}
