//! Ways to members, against the offsets that gcc 12 gives for the same structures on x86-64: each way names the one member that
//! stands there.

use crate::fields::{sides, word};
use crate::spelling::Builder;
use c_operators::c_members::{has_members, member_of, member_refusal, way_to};
use c_types::table::TypeTable;
use c_types::term::{OutOfMemory, Term, TypeId};
use std::alloc::Global;

// Whether a way has the steps of a text, or there is none where the text says so.
fn is_way(found: &Option<Vec<u32>>, wanted: &str) -> bool {
    let Some(way) = found else {
        return wanted == "none";
    };
    for (at, step) in wanted.split(' ').enumerate() {
        if step.parse::<u32>().ok() != way.get(at).copied() {
            return false;
        }
    }
    way.len() == wanted.split(' ').count()
}

// Whether the way to a name in a type is this one.
fn way_is(alloc: Global, table: &TypeTable, whole: TypeId, name: &[u8], wanted: &str) -> bool {
    if table.type_count() <= whole.0 {
        return false;
    }
    if !has_members(table, whole) {
        return false;
    }
    match way_to(alloc, table, whole, name) {
        Ok(found) => is_way(&found, wanted),
        Err(_) => false,
    }
}

// Whether the way to the name of a row in the type that its text spells is the row's.
fn has_way(alloc: Global, row: &str) -> Result<bool, OutOfMemory> {
    let (spelling, wanted) = sides(row);
    let name = word(spelling, 1).as_bytes();
    let mut builder = Builder::new(alloc, true)?;
    match builder.spelled(word(spelling, 0))? {
        Some(whole) => Ok(way_is(alloc, &builder.table, whole, name, wanted)),
        None => Ok(false),
    }
}

// Types, names, and the steps to them.
const WAYS: &str = "{abc} a => 0
{abc} c => 2
{abc} d => none
{abc} ab => none
{abc}  => none
{a{bc}d} c => 1 1
{a{bc}d} d => 2
{a[b{cd}]} d => 1 1 1
{{{{{x}}}}} x => 0 0 0 0 0
[{ab}{cd}] d => 1 1
{{ab}{cd}{ef}} e => 2 0";

// gcc refuses two members of one name; the search goes on as the definition says.
const TWICE: &str = "{{ab}b} b => 1
{{a}{{b}}{b}} b => 1 0 0
{{{x}x}} x => 0 1
{{{b}a}{b}} b => 0 0 0";

#[test]
fn ways(rt: HostRuntime) -> Result<(), OutOfMemory> {
    for row in WAYS.split('\n') {
        assert!(rt; has_way(rt.alloc(), row)?, "{row}");
    }
    for row in TWICE.split('\n') {
        assert!(rt; has_way(rt.alloc(), row)?, "{row}");
    }
    Ok(())
}

// The type that a name tells, new in a table.
fn made(table: &mut TypeTable, name: &str) -> Result<TypeId, OutOfMemory> {
    let int = table.add(Term::Integer {
        size: 4,
        rank: 4,
        signed: true,
    })?;
    match name {
        "int[]" => table.add(Term::Array {
            of: int,
            length: None,
        }),
        "int[3]" => table.add(Term::Array {
            of: int,
            length: Some(3),
        }),
        "float" => table.add(Term::Floating),
        _ => Ok(int),
    }
}

// Types, whether a place of them or a value is taken, and how it is refused.
const REFUSALS: &str = "int value => none
int[] place => flexible-member
int[] value => flexible-member
int[3] place => none
int[3] value => array-of-value
float place => floating";

// Whether a member of the type of a row is refused as the row says.
fn is_refused_so(alloc: Global, row: &str) -> Result<bool, OutOfMemory> {
    let (left, wanted) = sides(row);
    let mut table = TypeTable::new(alloc);
    let ty = made(&mut table, word(left, 0))?;
    if table.type_count() <= ty.0 {
        return Ok(false);
    }
    match member_refusal(&table, ty, word(left, 1) == "place") {
        Some(kind) => Ok(kind.name() == wanted),
        None => Ok(wanted == "none"),
    }
}

#[test]
fn members_and_refusals(rt: HostRuntime) -> Result<(), OutOfMemory> {
    for row in REFUSALS.split('\n') {
        assert!(rt; is_refused_so(rt.alloc(), row)?, "{row}");
    }
    let mut table = TypeTable::new(rt.alloc());
    let int = made(&mut table, "int")?;
    let row = made(&mut table, "int[3]")?;
    assert!(rt; int.0 < table.type_count() && row.0 < table.type_count());
    assert!(rt; !has_members(&table, int));
    assert!(rt; member_of(&table, row, 0).is_none());
    Ok(())
}
