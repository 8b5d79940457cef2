//! The part of a thunk's name that tells its signature.

ghost use Rattle.std.specs.Prelude.{◌≡◌, ◌++◌, OnOk, IfOk};
ghost use Rattle.sig_core.specs.Codes.{class_code, args_code, variadic_code, signature_code};

use crate::classes::{Class, Signature};
use std::alloc::{AllocError, Global};

/// The code of one value.
fn class_code(alloc: Global, class: Class) -> Result<Vec<u8>, AllocError>
    ensures { IfOk result (λ code. code.items ≡ class_code class) }
{
    match class {
        Class::Void => Vec::from_slice(alloc, b"v"),
        Class::Word => Vec::from_slice(alloc, b"i8"),
        Class::Agg(bytes) => {
            let text = format!(in alloc; "m{bytes}")?;
            Ok(text.into_bytes())
        }
    }
}

/// The code of the arguments.
fn args_code(alloc: Global, args: &[Class]) -> Result<Vec<u8>, AllocError>
    ensures { IfOk result (λ code. code.items ≡ args_code args.now) }
{
    if args.is_empty() {
        return Vec::from_slice(alloc, b"v");
    }
    let mut code = Vec::new(alloc);
    for class in args {
        let one = class_code(alloc, *class)?;
        code.extend_from_slice(&one)?;
    }
    Ok(code)
}

/// The part of a thunk's name that tells its signature: the result, `$`, and the arguments, with `v` for no
/// value and for no argument, `i8` for a word, `m` and its bytes for a struct, and `$varargs` behind a variadic
/// one.
pub fn code_of(alloc: Global, s: &Signature) -> Result<Vec<u8>, AllocError>
    ensures { IfOk result (λ code. code.items ≡ signature_code s.now) }
{
    let args = args_code(alloc, s.args.as_slice())?;
    let mut code = class_code(alloc, s.result)?;
    code.push(b'$')?;
    code.extend_from_slice(&args)?;
    if s.variadic {
        code.extend_from_slice(b"$varargs")?;
    }
    Ok(code)
}
