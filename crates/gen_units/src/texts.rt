// The text of the program that is generated for a number.
ghost use Rattle.std.specs.Prelude.{◌≡◌, ◌≤◌, ◌<◌, ◌++◌, IfOk, OnOk};
ghost use Rattle.gen_units.specs.Generated.{object_line, object_lines, head_of, own_of, pass_of, function_line, function_lines};
ghost use Rattle.gen_units.specs.Generated.{call_of, calls_of, main_line, unit_text};

use pta_base::OutOfMemory;
use std::alloc::{AllocError, Global};

/// Adds the line that declares the object and the pointer of a number.
fn add_objects(alloc: Global, text: &mut Vec<u8>, number: u32) -> Result<(), AllocError>
    ensures { OnOk result (text.new.items ≡ text.old.items ++ object_line number) }
{
    let line = format!(in alloc; "int o{number},*p{number};\n")?;
    text.extend_from_slice(line.as_bytes())?;
    Ok(())
}

/// Adds how the function of a number begins.
fn add_head(alloc: Global, text: &mut Vec<u8>, number: u32) -> Result<(), AllocError>
    ensures { OnOk result (text.new.items ≡ text.old.items ++ head_of number) }
{
    let head = format!(in alloc; "void f{number}(void){{")?;
    text.extend_from_slice(head.as_bytes())?;
    Ok(())
}

/// Adds the statement that stores the address of a number's object in its pointer.
fn add_own(alloc: Global, text: &mut Vec<u8>, number: u32) -> Result<(), AllocError>
    ensures { OnOk result (text.new.items ≡ text.old.items ++ own_of number) }
{
    let own = format!(in alloc; "p{number}=&o{number};")?;
    text.extend_from_slice(own.as_bytes())?;
    Ok(())
}

/// Adds the statement that passes what the pointer of a number has to the pointer of another one.
fn add_pass(alloc: Global, text: &mut Vec<u8>, number: u32, next: u32) -> Result<(), AllocError>
    ensures { OnOk result (text.new.items ≡ text.old.items ++ pass_of number next) }
{
    let pass = format!(in alloc; "p{next}=p{number};")?;
    text.extend_from_slice(pass.as_bytes())?;
    Ok(())
}

/// Adds the line of the function of a number, in a ring of so many.
fn add_function(
    alloc: Global,
    text: &mut Vec<u8>,
    count: u32,
    number: u32,
) -> Result<(), AllocError>
    requires { number < count }
    ensures { OnOk result (text.new.items ≡ text.old.items ++ function_line count number) }
{
    add_head(alloc, text, number)?;
    add_own(alloc, text, number)?;
    add_pass(alloc, text, number, (number + 1) % count)?;
    text.extend_from_slice(b"}\n")?;
    Ok(())
}

/// Adds the call of the function of a number.
fn add_call(alloc: Global, text: &mut Vec<u8>, number: u32) -> Result<(), AllocError>
    ensures { OnOk result (text.new.items ≡ text.old.items ++ call_of number) }
{
    let call = format!(in alloc; "f{number}();")?;
    text.extend_from_slice(call.as_bytes())?;
    Ok(())
}

/// Adds the lines that declare so many objects and pointers.
fn add_all_objects(alloc: Global, text: &mut Vec<u8>, count: u32) -> Result<(), AllocError>
    ensures { OnOk result (text.new.items ≡ text.old.items ++ object_lines count) }
{
    for number in 0..count {
        add_objects(alloc, text, number)?;
    }
    Ok(())
}

/// Adds the lines of so many functions.
fn add_all_functions(alloc: Global, text: &mut Vec<u8>, count: u32) -> Result<(), AllocError>
    ensures { OnOk result (text.new.items ≡ text.old.items ++ function_lines count count) }
{
    for number in 0..count {
        add_function(alloc, text, count, number)?;
    }
    Ok(())
}

/// Adds the calls of so many functions.
fn add_all_calls(alloc: Global, text: &mut Vec<u8>, count: u32) -> Result<(), AllocError>
    ensures { OnOk result (text.new.items ≡ text.old.items ++ calls_of count) }
{
    for number in 0..count {
        add_call(alloc, text, number)?;
    }
    Ok(())
}

/// Adds the line of `main`, which calls so many functions.
fn add_main(alloc: Global, text: &mut Vec<u8>, count: u32) -> Result<(), AllocError>
    ensures { OnOk result (text.new.items ≡ text.old.items ++ main_line count) }
{
    text.extend_from_slice(b"int main(void){")?;
    add_all_calls(alloc, text, count)?;
    text.extend_from_slice(b"return 0;}\n")?;
    Ok(())
}

/// The text of the program that is generated for a number from 1 to 1000: so many objects, pointers and functions, and
/// a `main` that calls each function once. Each function stores its object's address in its pointer and passes what the
/// pointer has to the next one's, the last to the first's; so the set of each pointer has every object. Want of memory
/// is the one error.
pub fn generate(alloc: Global, n: u32) -> Result<Vec<u8>, OutOfMemory>
    requires some { 1 ≤ n }
    requires few { n ≤ 1000 }
    ensures { IfOk result (λ text. text.items ≡ unit_text n) }
{
    let mut text = Vec::new(alloc);
    add_all_objects(alloc, &mut text, n)?;
    add_all_functions(alloc, &mut text, n)?;
    add_main(alloc, &mut text, n)?;
    Ok(text)
}
