//! The names of a program's definitions, in order.

ghost use Rattle.std.specs.Prelude.{◌≡◌, IfOk, map, option_map};
ghost use Rattle.ec_driver.specs.Definitions.{function_name, adjustor_name, first_name, name_numbered, defined_names};

use c_program::{AdjustDef, FunDef, Program};
use std::alloc::{AllocError, Global};

/// The most definitions of a program within the limits.
const MOST_DEFINITIONS: u32 = 4_096;

/// The name of a function, if its definition has this number.
fn function_name(f: &FunDef, number: u32) -> Option<&[u8]>
    ensures { option_map (λ name. name.now) result ≡ function_name number f.now }
{
    match &f.body {
        Some(body) if body.number == number => Some(f.name.as_slice()),
        _ => None,
    }
}

/// The name of an adjustor, if it has this number.
fn adjustor_name(a: &AdjustDef, number: u32) -> Option<&[u8]>
    ensures { option_map (λ name. name.now) result ≡ adjustor_name number a.now }
{
    (a.number == number).then_some(a.name.as_slice())
}

/// The name of the function of this number.
fn among_functions(functions: &[FunDef], number: u32) -> Option<&[u8]>
    ensures { option_map (λ name. name.now) result ≡ first_name (function_name number) functions.now }
{
    for f in functions {
        let name = function_name(f, number);
        if name.is_some() {
            return name;
        }
    }
    None
}

/// The name of the adjustor of this number.
fn among_adjustors(adjustors: &[AdjustDef], number: u32) -> Option<&[u8]>
    ensures { option_map (λ name. name.now) result ≡ first_name (adjustor_name number) adjustors.now }
{
    for a in adjustors {
        let name = adjustor_name(a, number);
        if name.is_some() {
            return name;
        }
    }
    None
}

/// The name of the definition of this number.
fn name_numbered(program: &Program, number: u32) -> Option<&[u8]>
    ensures { option_map (λ name. name.now) result ≡ name_numbered program.now number }
{
    let function = among_functions(program.functions.as_slice(), number);
    let adjustor = among_adjustors(program.adjustors.as_slice(), number);
    function.or(adjustor)
}

/// The names of all functions and adjustors that a program defines, in order of definition.
pub fn defined_names(alloc: Global, program: &Program) -> Result<Vec<&[u8]>, AllocError>
    ensures { IfOk result (λ names. map (λ name. name.now) names.items ≡ defined_names program.now) }
{
    let mut names = Vec::new(alloc);
    for number in 0..MOST_DEFINITIONS {
        match name_numbered(program, number) {
            Some(name) => names.push(name)?,
            None => return Ok(names),
        }
    }
    Ok(names)
}
