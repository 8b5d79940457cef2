//! Which signatures functions have, and which slots hold what they pass.

ghost use Rattle.std.specs.Prelude.{◌≡◌, ◌-◌, ◌&&◌, not, length, slice_get};
ghost use Rattle.std.specs.List.{list_all};
ghost use Rattle.sig_core.specs.Signatures.{is_slot_size, is_by_pointer};
ghost use Rattle.ir_core.specs.Operands.{is_argument, is_result, is_word, counts_extras, is_signature};

use sig_core::{Class, Signature};

/// Whether a slot of 8 bytes holds so many as they are.
pub fn is_slot_size(bytes: u32) -> bool
    ensures { result ≡ is_slot_size bytes }
{
    bytes == 1 || bytes == 2 || bytes == 4 || bytes == 8
}

fn is_argument(class: Class) -> bool
    ensures { result ≡ is_argument class }
{
    match class {
        Class::Void => false,
        Class::Word => true,
        Class::Agg(bytes) => 1 <= bytes && bytes <= 65536,
    }
}

fn is_result(class: Class) -> bool
    ensures { result ≡ is_result class }
{
    match class {
        Class::Void => true,
        Class::Word => true,
        Class::Agg(bytes) => 1 <= bytes && bytes <= 65536,
    }
}

fn are_arguments(classes: &[Class]) -> bool
    ensures { result ≡ list_all is_argument classes.now }
{
    for class in classes {
        if !is_argument(*class) {
            return false;
        }
    }
    true
}

/// Whether x64 passes a value of the class by its address.
fn is_by_pointer(class: Class) -> bool
    ensures { result ≡ is_by_pointer class }
{
    match class {
        Class::Void | Class::Word => false,
        Class::Agg(bytes) => !is_slot_size(bytes),
    }
}

/// Whether the last argument is a word.
fn ends_in_word(classes: &[Class]) -> bool
    ensures { result ≡ is_word (slice_get classes.now (length classes.now - 1)) }
{
    if classes.is_empty() {
        return false;
    }
    match classes[classes.len() - 1] {
        Class::Void | Class::Agg(_) => false,
        Class::Word => true,
    }
}

fn counts_extras(s: &Signature) -> bool
    ensures { result ≡ counts_extras s.now }
{
    if s.variadic {
        ends_in_word(s.args.as_slice()) && !is_by_pointer(s.result)
    } else {
        true
    }
}

/// Whether functions can have this signature.
pub fn is_signature(s: &Signature) -> bool
    ensures { result ≡ is_signature s.now }
{
    s.args.len() <= 64
        && (are_arguments(s.args.as_slice()) && (is_result(s.result) && counts_extras(s)))
}
