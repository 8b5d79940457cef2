//! The numbers that tell types apart.
ghost use Rattle.std.specs.Prelude.{◌≡◌, ◌++◌, IfOk, OnOk};
ghost use Rattle.type_table.specs.TypeKeys.{int_number, ty_key, keys_of, mark, fun_key};

use c_types::{FunTy, IntTy, Ty};
use std::alloc::{AllocError, Global};

fn int_number(i: IntTy) -> u64
    ensures { result ≡ int_number i }
{
    match i {
        IntTy::I8 => 0,
        IntTy::U8 => 1,
        IntTy::I16 => 2,
        IntTy::U16 => 3,
        IntTy::I32 => 4,
        IntTy::U32 => 5,
        IntTy::I64 => 6,
        IntTy::U64 => 7,
    }
}

/// The numbers of a type.
pub fn key_of(ty: Ty) -> [u64; 3]
    ensures { result ≡ ty_key ty }
{
    match ty {
        Ty::Void => [0, 0, 0],
        Ty::Int(i) => [1, int_number(i), 0],
        Ty::Ptr(k) => [2, k as u64, 0],
        Ty::Fun(k) => [3, k as u64, 0],
        Ty::Struct(k) => [4, k as u64, 0],
        Ty::Array(k, n) => [5, k as u64, n],
    }
}

fn mark(variadic: bool) -> u64
    ensures { result ≡ mark variadic }
{
    match variadic {
        false => 0,
        true => 1,
    }
}

/// The numbers of a type, behind others.
fn add_key(ty: Ty, key: &mut Vec<u64>) -> Result<(), AllocError>
    ensures { OnOk result (key.new.items ≡ key.old.items ++ ty_key ty) }
{
    key.extend_from_slice(&key_of(ty))?;
    Ok(())
}

/// The numbers of types in order, behind others.
fn add_keys(tys: &[Ty], key: &mut Vec<u64>) -> Result<(), AllocError>
    ensures { OnOk result (key.new.items ≡ key.old.items ++ keys_of tys.now) }
{
    for ty in tys {
        add_key(*ty, key)?;
    }
    Ok(())
}

/// The numbers of a function's type.
///
/// # Errors
///
/// Want of memory.
pub fn key_of_function(alloc: Global, f: &FunTy) -> Result<Vec<u64>, AllocError>
    ensures { IfOk result (λ key. key.items ≡ fun_key f.now) }
{
    let mut key = Vec::new(alloc);
    key.push(mark(f.variadic))?;
    add_key(f.result, &mut key)?;
    add_keys(f.params.as_slice(), &mut key)?;
    Ok(key)
}
