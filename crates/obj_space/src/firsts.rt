// The first location of each object.

ghost use Rattle.std.specs.Prelude.{◌≡◌, ◌==◌, ◌&&◌, if◌then◌else◌, Some, ℕ, ◌<◌, ◌^◌, IfOk, OnOk, length};
ghost use Rattle.std.specs.Option.{is_some};
ghost use Rattle.c_types.specs.declared.key.ObjectKey.{ObjectKey};
ghost use Rattle.obj_space.specs.Found.{kind_of, number_of, kept_at, kept_for, kept_with, same_object, KeepsFirst};

use crate::location::Location;
use c_types::key::ObjectKey;
use pta_base::OutOfMemory;
use std::alloc::Global;
use std::collections::BTreeMap;

/// The first location of each object, by the object's kind and number.
pub(crate) type Firsts = BTreeMap<(u32, u32), u32>;

// The kind and number of an object.
fn pair_of(key: ObjectKey) -> (u32, u32)
    ensures kind { result.0 ≡ kind_of key }
    ensures number { result.1 ≡ number_of key }
{
    match key {
        ObjectKey::Entity(e) => (0, e),
        ObjectKey::Text(n) => (1, n),
        ObjectKey::Call(n) => (2, n),
        ObjectKey::Library(k) => (3, k),
        ObjectKey::Star(k) => (4, k),
        ObjectKey::Function(k) => (5, k),
        ObjectKey::Varargs(e) => (6, e),
        ObjectKey::Outside => (7, 0),
    }
}

/// The location that is kept for an object.
pub(crate) fn first_of(firsts: &Firsts, key: ObjectKey) -> Option<u32>
    ensures { result ≡ kept_for firsts.now key }
{
    let pair = pair_of(key);
    firsts.get(&pair).copied()
}

// Puts a location for a kind and a number.
fn put(firsts: &mut Firsts, kind: u32, number: u32, l: u32) -> Result<(), OutOfMemory>
    ensures { IfOk result
        (λ done. (k n : ℕ) → kept_at firsts.new k n ≡ (if kind == k && number == n then Some l else kept_at firsts.old k n)) }
{
    firsts.insert((kind, number), l)?;
    Ok(())
}

// Keeps a location for an object, if none is kept.
fn keep(firsts: &mut Firsts, key: ObjectKey, l: u32) -> Result<(), OutOfMemory>
    ensures { OnOk result ((other : ObjectKey) → kept_for firsts.new other
        ≡ kept_with (is_some (kept_for firsts.old key)) (same_object key other) l (kept_for firsts.old other)) }
{
    if first_of(firsts, key).is_none() {
        let (kind, number) = pair_of(key);
        put(firsts, kind, number, l)?;
    }
    Ok(())
}

/// The first location of each object.
pub(crate) fn index_firsts(alloc: Global, space: &[Location]) -> Result<Firsts, OutOfMemory>
    requires { length space.now < 2 ^ 32 }
    ensures { IfOk result (λ firsts. KeepsFirst firsts space.now (length space.now)) }
{
    let mut firsts = BTreeMap::new(alloc);
    for (l, location) in space.iter().enumerate() {
        keep(&mut firsts, location.key, l as u32)?;
    }
    Ok(firsts)
}
