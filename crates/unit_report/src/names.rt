//! The names of a program's units.

ghost use Rattle.std.specs.Prelude.{◌≡◌, IfOk, map, string_bytes};

use pta_base::{OutOfMemory, Text};
use std::alloc::Global;

/// Copies of texts, as strings.
pub fn strings_of(alloc: Global, texts: &[Text]) -> Result<Vec<String>, OutOfMemory>
    ensures { IfOk result (λ list. map string_bytes list.items ≡ texts.now) }
{
    let mut list = Vec::new(alloc);
    for text in texts {
        list.push(text.as_str().to_string(alloc)?)?;
    }
    Ok(list)
}
