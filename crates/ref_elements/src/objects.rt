// Objects that a call makes, and those of the library.

ghost use Rattle.std.specs.Prelude.{◌≡◌, IfOk, length};
ghost use Rattle.ref_elements.specs.Objects.{is_odd, is_start, is_object, object_from};

use c_types::key::ObjectKey;
use c_types::term::{OutOfMemory, PathStep};
use ref_cells::instance::Instance;
use ref_mem::memory::Memory;

/// Whether a word is odd: by such a word an allocation fails, and some objects aren't there.
pub fn is_odd(word: u64) -> bool
    ensures { result ≡ is_odd word }
{
    word % 2 == 1
}

/// The number of the instance that comes next.
pub fn next_number(memory: &Memory) -> Result<u32, OutOfMemory>
    ensures { IfOk result (λ n. n ≡ length memory.now) }
{
    let n = memory.instances().len();
    if n >= u32::MAX as usize {
        Err(OutOfMemory)
    } else {
        Ok(n as u32)
    }
}

/// Whether a path is the first element's alone.
pub fn is_start(path: &[PathStep]) -> bool
    ensures { result ≡ is_start path.now }
{
    match path {
        [PathStep::Index(i)] => *i == 0,
        _ => false,
    }
}

// Whether an object is the library's in that position.
fn is_object(position: u32, key: ObjectKey) -> bool
    ensures { result ≡ is_object position key }
{
    match key {
        ObjectKey::Library(other) => other == position,
        ObjectKey::Call(_) | ObjectKey::Star(_) | ObjectKey::Outside => false,
        ObjectKey::Entity(_) | ObjectKey::Text(_) => false,
        ObjectKey::Function(_) | ObjectKey::Varargs(_) => false,
    }
}

// The number of the first instance of a library object, of the instances from a number on.
fn object_from(position: u32, instances: &[Instance]) -> Option<usize>
    ensures { result ≡ object_from position 0 instances.now }
{
    for (i, inst) in instances.iter().enumerate() {
        if is_object(position, inst.key) {
            return Some(i);
        }
    }
    None
}

/// The number of the instance of the library's object in that position, none where it has none.
pub fn object_at(memory: &Memory, position: u32) -> Result<Option<u32>, OutOfMemory>
    ensures { IfOk result (λ o. o ≡ object_from position 0 memory.now) }
{
    match object_from(position, memory.instances()) {
        Some(i) => {
            if i > u32::MAX as usize {
                Err(OutOfMemory)
            } else {
                Ok(Some(i as u32))
            }
        }
        None => Ok(None),
    }
}
