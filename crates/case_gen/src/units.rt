//! The text of a unit.

ghost use Rattle.std.specs.Prelude.{◌≡◌, ◌++◌, ◌<◌, ◌-◌, ◌*◌, IfOk, OnOk};
ghost use Rattle.case_gen.specs.Numbers.{state_at};
ghost use Rattle.case_gen.specs.Units.{form_of, line_of, choice_at, function_at, functions_of, entry_of, entries_of, table_of, main_of, unit_of};

use crate::numbers::Numbers;
use std::alloc::{AllocError, Global};

/// What a function does with its arguments a and b, and the number that it holds.
#[derive(Clone, Copy, PartialEq, Eq, Debug)]
pub enum Form {
    /// It calls another with a plus the number, and takes b off.
    Added,
    /// It calls another with the arguments exchanged, and adds a times the number.
    Multiplied,
    /// It calls another through a pointer.
    Pointed,
    /// It is another with the number added to b.
    Adjusted,
}

/// What is drawn for a function.
#[derive(Clone, Copy, Debug)]
struct Choice {
    form: Form,
    /// The number of the function that it goes on to.
    target: u64,
    /// The number that it holds.
    held: u64,
}

fn chosen(o: u64) -> Form
    ensures { result ≡ form_of o }
{
    match o {
        0 => Form::Added,
        1 => Form::Multiplied,
        2 => Form::Pointed,
        _ => Form::Adjusted,
    }
}

/// The line of function k.
fn line(alloc: Global, k: u64, choice: Choice) -> Result<Vec<u8>, AllocError>
    ensures { IfOk result (λ text. text.items ≡ line_of choice.form k choice.target choice.held) }
{
    let j = choice.target;
    let c = choice.held;
    let text = match choice.form {
        Form::Added => {
            format!(in alloc;
                "long long f{k}(long long a, long long b) {{ return f{j}(a + {c}, b) - b; }}\n"
            )?
        }
        Form::Multiplied => {
            format!(in alloc;
                "long long f{k}(long long a, long long b) {{ return a * {c} + f{j}(b, a); }}\n"
            )?
        }
        Form::Pointed => {
            format!(in alloc;
                "long long f{k}(long long a, long long b) {{ fn p = f{j}; return p(a ^ {c}, b); }}\n"
            )?
        }
        Form::Adjusted => format!(in alloc; "__adjustor f{k} = f{j}, 1, {c};\n")?,
    };
    Ok(text.into_bytes())
}

/// Draws what function k is: its form, the function that it goes on to, and its number.
fn drawn_choice(numbers: &mut Numbers, number: u64, k: u64) -> Choice
    requires later { 0 < k }
    requires state { numbers.old.state ≡ state_at number (3 * (k - 1)) }
    ensures choice { result ≡ choice_at number k }
    ensures state { numbers.new.state ≡ state_at number (3 * k) }
{
    let o = numbers.draw(4);
    let target = numbers.draw(k);
    let held = numbers.draw(1000);
    let form = chosen(o);
    Choice { form, target, held }
}

/// The line of function k, drawn from what the functions before it left.
fn function(
    alloc: Global,
    numbers: &mut Numbers,
    number: u64,
    k: u64,
) -> Result<Vec<u8>, AllocError>
    requires { numbers.old.state ≡ state_at number (3 * (k - 1)) }
    ensures line { IfOk result (λ text. text.items ≡ function_at number k) }
    ensures state { OnOk result (numbers.new.state ≡ state_at number (3 * k)) }
{
    if k == 0 {
        return Vec::from_slice(
            alloc,
            b"long long f0(long long a, long long b) { return a + b; }\n",
        );
    }
    let choice = drawn_choice(numbers, number, k);
    let text = line(alloc, k, choice)?;
    Ok(text)
}

/// The lines of all functions.
fn functions(alloc: Global, number: u64, size: u32) -> Result<Vec<u8>, AllocError>
    ensures { IfOk result (λ text. text.items ≡ functions_of number size) }
{
    let mut numbers = Numbers { state: number };
    let mut text = Vec::new(alloc);
    for k in 0..size {
        let line = function(alloc, &mut numbers, number, u64::from(k))?;
        text.extend_from_slice(&line)?;
    }
    Ok(text)
}

/// An entry of the table.
fn entry(alloc: Global, k: u32) -> Result<Vec<u8>, AllocError>
    ensures { IfOk result (λ text. text.items ≡ entry_of k) }
{
    let text = if k == 0 {
        format!(in alloc; "f{k}")?
    } else {
        format!(in alloc; ", f{k}")?
    };
    Ok(text.into_bytes())
}

/// The entries of the table.
fn entries(alloc: Global, size: u32) -> Result<Vec<u8>, AllocError>
    ensures { IfOk result (λ text. text.items ≡ entries_of size) }
{
    let mut text = Vec::new(alloc);
    for k in 0..size {
        let entry = entry(alloc, k)?;
        text.extend_from_slice(&entry)?;
    }
    Ok(text)
}

/// The line of the table.
fn table(alloc: Global, size: u32) -> Result<Vec<u8>, AllocError>
    ensures { IfOk result (λ text. text.items ≡ table_of size) }
{
    let entries = entries(alloc, size)?;
    let mut text = format!(in alloc; "fn table[{size}] = {{ ")?.into_bytes();
    text.extend_from_slice(&entries)?;
    text.extend_from_slice(b" };\n")?;
    Ok(text)
}

/// The lines of `main`.
fn main_lines(alloc: Global, size: u32) -> Result<Vec<u8>, AllocError>
    ensures { IfOk result (λ text. text.items ≡ main_of size) }
{
    let text = format!(in alloc;
        "int main(void) {{\n  int i;\n  long long v = 1;\n  for (i = 0; i < {size}; i++) {{\n    v = table[i](v, i) % 1000000;\n    put_byte(65 + (int)((unsigned long long)v % 26));\n  }}\n  return 0;\n}}\n"
    )?;
    Ok(text.into_bytes())
}

/// A text of four parts.
fn assembled(
    alloc: Global,
    first: &[u8],
    second: &[u8],
    third: &[u8],
    fourth: &[u8],
) -> Result<Vec<u8>, AllocError>
    ensures { IfOk result (λ text. text.items ≡ first.now ++ (second.now ++ (third.now ++ fourth.now))) }
{
    let mut text = Vec::from_slice(alloc, first)?;
    text.extend_from_slice(second)?;
    text.extend_from_slice(third)?;
    text.extend_from_slice(fourth)?;
    Ok(text)
}

/// The unit of a number with so many functions, which are meant to be 1 to 1,000.
///
/// # Errors
///
/// Want of memory.
pub fn generate(alloc: Global, number: u64, size: u32) -> Result<Vec<u8>, AllocError>
    ensures { IfOk result (λ text. text.items ≡ unit_of number size) }
{
    let functions = functions(alloc, number, size)?;
    let table = table(alloc, size)?;
    let last = main_lines(alloc, size)?;
    let first = b"typedef long long (*fn)(long long, long long);\n";
    let text = assembled(alloc, first, &functions, &table, &last)?;
    Ok(text)
}
