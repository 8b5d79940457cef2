ghost use Rattle.std.specs.Prelude.{◌≡◌};
ghost use Rattle.c_typing.specs.TypeForms.{same_int, same_type, same_types, same_function};

use c_types::{FunTy, IntTy, Ty};

/// Whether two integer types are the same.
pub fn is_same_int(left: IntTy, right: IntTy) -> bool
    ensures { result ≡ same_int left right }
{
    left == right
}

/// Whether two types are the same, where pointers, structs and arrays name their parts by places.
pub fn is_same_type(left: Ty, right: Ty) -> bool
    ensures { result ≡ same_type left right }
{
    left == right
}

#[tactic(auto, using(crate::proofs::SameLaws::same_lengths))]
fn are_same_types(left: &[Ty], right: &[Ty]) -> bool
    ensures { result ≡ same_types left.now right.now }
{
    if left.len() != right.len() {
        return false;
    }
    for (k, ty) in left.iter().enumerate() {
        if !is_same_type(*ty, right[k]) {
            return false;
        }
    }
    true
}

/// Whether two function types are equal: results, parameters and marks (C11, 6.7.6.3p15).
pub fn is_same_function(left: &FunTy, right: &FunTy) -> bool
    ensures { result ≡ same_function left.now right.now }
{
    is_same_type(left.result, right.result)
        && are_same_types(left.params.as_slice(), right.params.as_slice())
        && left.variadic == right.variadic
}
