ghost use Rattle.std.specs.Prelude.{◌≡◌, ◌==◌, ◌&&◌};
ghost use Rattle.c_values.specs.declared.value.Value.{out-Value};
ghost use Rattle.c_values.specs.declared.value.Value.TheOpen.{Value-F};
ghost use Rattle.c_values.specs.Objects.{number_in, truth as truth_of, same_step, same_path, same_root, same_target, same_number, same_at, same_value, compared};

use crate::value::{Object, Root, Value};
use c_program::{Comparison, PathStep, Target};

/// The number that a value is; 0 for any other value.
#[tactic(auto, using(crate::proofs::ValueLaws::numbers))]
pub fn number(v: &Value) -> i128
    ensures { result ≡ number_in v.now }
{
    match v {
        Value::Number(z) => *z,
        Value::Null | Value::Pointer(_) | Value::Function(_) | Value::Aggregate(_) => 0,
    }
}

/// Whether a condition of this value holds: a number isn't 0, a pointer isn't null.
#[tactic(auto, using(crate::proofs::ValueLaws::truths))]
pub fn truth(v: &Value) -> bool
    ensures { result ≡ truth_of v.now }
{
    match v {
        Value::Number(z) => *z != 0,
        Value::Null => false,
        Value::Pointer(_) | Value::Function(_) | Value::Aggregate(_) => true,
    }
}

fn is_same_step(a: PathStep, b: PathStep) -> bool
    ensures { result ≡ same_step a b }
{
    match a {
        PathStep::Field(k) => matches!(b, PathStep::Field(l) if l == k),
        PathStep::Element(k) => matches!(b, PathStep::Element(l) if l == k),
    }
}

#[tactic(auto, using(crate::proofs::ValueLaws::other_length))]
fn is_same_path(a: &[PathStep], b: &[PathStep]) -> bool
    ensures { result ≡ same_path a.now b.now }
{
    if a.len() != b.len() {
        return false;
    }
    for at in 0..a.len() {
        if !is_same_step(a[at], b[at]) {
            return false;
        }
    }
    true
}

fn is_same_root(a: Root, b: Root) -> bool
    ensures { result ≡ same_root a b }
{
    match a {
        Root::Global(k) => matches!(b, Root::Global(l) if l == k),
        Root::Local(f, k) => matches!(b, Root::Local(g, l) if f == g && k == l),
    }
}

fn is_same_target(a: Target, b: Target) -> bool
    ensures { result ≡ same_target a b }
{
    match a {
        Target::Function(k) => matches!(b, Target::Function(l) if l == k),
        Target::Adjustor(k) => matches!(b, Target::Adjustor(l) if l == k),
    }
}

#[tactic(auto, using(crate::proofs::ValueLaws::forms))]
fn is_number(v: &Value, z: i128) -> bool
    ensures { result ≡ same_at (Value-F.Number z) (out-Value v.now) }
{
    match v {
        Value::Number(y) => *y == z,
        _ => false,
    }
}

#[tactic(auto, using(crate::proofs::ValueLaws::forms))]
fn is_null(v: &Value) -> bool
    ensures { result ≡ same_at Value-F.Null (out-Value v.now) }
{
    matches!(v, Value::Null)
}

#[tactic(auto, using(crate::proofs::ValueLaws::forms))]
fn is_pointer(v: &Value, o: &Object) -> bool
    ensures { result ≡ same_at (Value-F.Pointer o.now) (out-Value v.now) }
{
    match v {
        Value::Pointer(p) => {
            is_same_root(o.root, p.root) && is_same_path(o.path.as_slice(), p.path.as_slice())
        }
        _ => false,
    }
}

#[tactic(auto, using(crate::proofs::ValueLaws::forms))]
fn is_function(v: &Value, t: Target) -> bool
    ensures { result ≡ same_at (Value-F.Function t) (out-Value v.now) }
{
    match v {
        Value::Function(u) => is_same_target(t, *u),
        _ => false,
    }
}

#[tactic(auto, using(crate::proofs::ValueLaws::sames))]
fn is_same(a: &Value, b: &Value) -> bool
    ensures { result ≡ same_value a.now b.now }
{
    match a {
        Value::Number(z) => is_number(b, *z),
        Value::Null => is_null(b),
        Value::Pointer(o) => is_pointer(b, o),
        Value::Function(t) => is_function(b, *t),
        Value::Aggregate(_) => false,
    }
}

/// Whether the comparison of two values holds.
#[tactic(auto, unfolding(crate::specs::Objects::compared))]
pub fn compare(by: Comparison, a: &Value, b: &Value) -> bool
    ensures { result ≡ compared by a.now b.now }
{
    match by {
        Comparison::Equal => is_same(a, b),
        Comparison::NotEqual => !is_same(a, b),
        Comparison::Less => number(a) < number(b),
        Comparison::LessEqual => number(a) <= number(b),
        Comparison::Greater => number(a) > number(b),
        Comparison::GreaterEqual => number(a) >= number(b),
    }
}
