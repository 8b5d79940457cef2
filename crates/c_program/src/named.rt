ghost use Rattle.std.specs.Prelude.{◌≡◌};
ghost use Rattle.c_program.specs.Named.{function_number, adjustor_number, first_number, number_named};

use crate::program::{AdjustDef, FunDef, Program};

fn number_of_function(f: &FunDef, name: &[u8]) -> Option<u32>
    ensures { result ≡ function_number name.now f.now }
{
    match &f.body {
        Some(body) if f.name.as_slice() == name => Some(body.number),
        _ => None,
    }
}

fn number_of_adjustor(a: &AdjustDef, name: &[u8]) -> Option<u32>
    ensures { result ≡ adjustor_number name.now a.now }
{
    if a.name.as_slice() == name {
        Some(a.number)
    } else {
        None
    }
}

fn among_functions(functions: &[FunDef], name: &[u8]) -> Option<u32>
    ensures { result ≡ first_number (function_number name.now) functions.now }
{
    for f in functions {
        let number = number_of_function(f, name);
        if number.is_some() {
            return number;
        }
    }
    None
}

fn among_adjustors(adjustors: &[AdjustDef], name: &[u8]) -> Option<u32>
    ensures { result ≡ first_number (adjustor_number name.now) adjustors.now }
{
    for a in adjustors {
        let number = number_of_adjustor(a, name);
        if number.is_some() {
            return number;
        }
    }
    None
}

/// The number, in the one order of definition, of the function or adjustor that the program defines
/// with this name; none where it defines none. It takes no memory.
pub fn function_named(p: &Program, name: &[u8]) -> Option<u32>
    ensures { result ≡ number_named p.now name.now }
{
    let function = among_functions(p.functions.as_slice(), name);
    let adjustor = among_adjustors(p.adjustors.as_slice(), name);
    function.or(adjustor)
}
