ghost use Rattle.std.specs.Prelude.{◌≡◌};
ghost use Rattle.c_types.specs.Layout.{bytes_of};
ghost use Rattle.c_typing.specs.TypeForms.{is_signed};
ghost use Rattle.c_typing.specs.Conversions.{promoted, common};

use c_types::IntTy;

/// The bytes of an integer type: 1, 2, 4 or 8.
pub fn bytes(int: IntTy) -> u64
    ensures { result ≡ bytes_of int }
{
    match int {
        IntTy::I8 | IntTy::U8 => 1,
        IntTy::I16 | IntTy::U16 => 2,
        IntTy::I32 | IntTy::U32 => 4,
        IntTy::I64 | IntTy::U64 => 8,
    }
}

/// Whether an integer type has negative numbers. Plain `char` has.
pub fn has_sign(int: IntTy) -> bool
    ensures { result ≡ is_signed int }
{
    match int {
        IntTy::I8 | IntTy::I16 | IntTy::I32 | IntTy::I64 => true,
        IntTy::U8 | IntTy::U16 | IntTy::U32 | IntTy::U64 => false,
    }
}

/// The integer promotions (C11, 6.3.1.1p2).
pub fn promote(int: IntTy) -> IntTy
    ensures { result ≡ promoted int }
{
    match int {
        IntTy::I8 | IntTy::U8 | IntTy::I16 | IntTy::U16 | IntTy::I32 => IntTy::I32,
        IntTy::U32 => IntTy::U32,
        IntTy::I64 => IntTy::I64,
        IntTy::U64 => IntTy::U64,
    }
}

/// The common type of two integers by the usual arithmetic conversions (C11, 6.3.1.8).
pub fn common_type(left: IntTy, right: IntTy) -> IntTy
    ensures { result ≡ common left right }
{
    if left == IntTy::U64 || right == IntTy::U64 {
        IntTy::U64
    } else if left == IntTy::I64 || right == IntTy::I64 {
        IntTy::I64
    } else if left == IntTy::U32 || right == IntTy::U32 {
        IntTy::U32
    } else {
        IntTy::I32
    }
}
