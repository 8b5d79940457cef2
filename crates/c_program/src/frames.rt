ghost use Rattle.std.specs.Prelude.{◌≡◌, ◌+◌, ◌*◌, sum_by, slice_get};
ghost use Rattle.c_types.specs.Layout.{size_of};
ghost use Rattle.c_program.specs.Nodes.{small};
ghost use Rattle.c_program.specs.FrameBytes.{struct_bytes, place_bytes, expr_bytes, optional_bytes, declared_bytes, begin_bytes, item_bytes, stmt_bytes, block_bytes, variable_bytes, body_bytes, extra_bytes, typed_bytes, adjustor_bytes, function_bytes, frame_bytes_of};

use crate::expressions::{Place, TypedExpr};
use crate::program::{AdjustDef, FunDef, FunctionBody, Program};
use crate::statements::{Declared, ForBegin, TypedItem, TypedStmt};
use c_types::{FunTy, Ty, Types, size};
use hx_words::Boxed;

fn of_struct(types: &Types, ty: Ty) -> u64
    ensures { result ≡ small (struct_bytes types.now ty) }
{
    match ty {
        Ty::Struct(_) => size(types, ty),
        _ => 0,
    }
}

#[cycle(expressions)]
#[tactic(auto, using(crate::proofs::ByteLaws::place_sums))]
fn of_place(types: &Types, p: &Place) -> u64
    ensures { result ≡ small (place_bytes types.now p.now) }
{
    match p {
        Place::Local(_) | Place::Global(_) => 0,
        Place::Target(_, pointer) | Place::Arrow(pointer, _, _) => of_expr(types, pointer.get()),
        Place::Field(whole, _, _) => of_place(types, whole.get()),
        Place::Element(_, whole, index, _) => {
            of_place(types, whole.get()).saturating_add(of_expr(types, index.get()))
        }
    }
}

#[cycle(expressions)]
#[tactic(auto, using(crate::proofs::ByteLaws::expr_sums))]
fn of_expr(types: &Types, e: &TypedExpr) -> u64
    ensures { result ≡ small (expr_bytes types.now e.now) }
{
    match e {
        TypedExpr::Number(_, _)
        | TypedExpr::Char(_)
        | TypedExpr::Null(_)
        | TypedExpr::Function(_, _)
        | TypedExpr::VaArg(_) => 0,
        TypedExpr::Load(ty, place) => {
            of_place(types, place.get()).saturating_add(of_struct(types, *ty))
        }
        TypedExpr::Address(_, place)
        | TypedExpr::Before(_, _, place)
        | TypedExpr::After(_, _, place) => of_place(types, place.get()),
        TypedExpr::Same(part)
        | TypedExpr::Not(part)
        | TypedExpr::Negate(_, part)
        | TypedExpr::Complement(_, part)
        | TypedExpr::Convert(_, part) => of_expr(types, part.get()),
        TypedExpr::FieldOf(ty, part, _, _) => {
            of_expr(types, part.get()).saturating_add(of_struct(types, *ty))
        }
        TypedExpr::Binary(_, _, left, right)
        | TypedExpr::Compare(_, _, left, right)
        | TypedExpr::And(left, right)
        | TypedExpr::Or(left, right) => {
            of_expr(types, left.get()).saturating_add(of_expr(types, right.get()))
        }
        TypedExpr::ElementOf(ty, left, right, _) => {
            let parts = of_expr(types, left.get()).saturating_add(of_expr(types, right.get()));
            parts.saturating_add(of_struct(types, *ty))
        }
        TypedExpr::Conditional(ty, test, left, right) => {
            let sides = of_expr(types, left.get()).saturating_add(of_expr(types, right.get()));
            let parts = of_expr(types, test.get()).saturating_add(sides);
            parts.saturating_add(of_struct(types, *ty))
        }
        TypedExpr::Assign(ty, place, value) => {
            let parts = of_place(types, place.get()).saturating_add(of_expr(types, value.get()));
            parts.saturating_add(of_struct(types, *ty))
        }
        TypedExpr::Update(_, _, _, place, value) => {
            of_place(types, place.get()).saturating_add(of_expr(types, value.get()))
        }
        TypedExpr::Call(ty, _, arguments) => {
            of_exprs(types, arguments.as_slice()).saturating_add(of_struct(types, *ty))
        }
        TypedExpr::CallService(_, arguments) => of_exprs(types, arguments.as_slice()),
        TypedExpr::CallPointer(ty, _, function, arguments) => {
            let given = of_exprs(types, arguments.as_slice());
            let parts = of_expr(types, function.get()).saturating_add(given);
            parts.saturating_add(of_struct(types, *ty))
        }
    }
}

#[cycle(expressions)]
fn of_exprs(types: &Types, exprs: &[TypedExpr]) -> u64
    ensures { result ≡ small (sum_by (expr_bytes types.now) exprs.now) }
{
    let mut total = 0;
    for e in exprs {
        total = of_expr(types, e).saturating_add(total);
    }
    total
}

fn of_optional(types: &Types, e: &Option<Boxed<TypedExpr>>) -> u64
    ensures { result ≡ small (optional_bytes types.now e.now) }
{
    match e {
        Some(e) => of_expr(types, e.get()),
        None => 0,
    }
}

fn of_begin(types: &Types, begin: &ForBegin) -> u64
    ensures { result ≡ small (begin_bytes types.now begin.now) }
{
    match begin {
        ForBegin::Locals(declared) => of_locals(types, declared.as_slice()),
        ForBegin::Effect(e) => of_expr(types, e.get()),
        ForBegin::Nothing => 0,
    }
}

fn of_locals(types: &Types, locals: &[Declared]) -> u64
    ensures { result ≡ small (sum_by (declared_bytes types.now) locals.now) }
{
    let mut total = 0;
    for declared in locals {
        total = of_optional(types, &declared.init).saturating_add(total);
    }
    total
}

#[cycle(statements)]
#[tactic(auto, using(crate::proofs::ByteLaws::item_sums))]
fn of_item(types: &Types, item: &TypedItem) -> u64
    ensures { result ≡ small (item_bytes types.now item.now) }
{
    match item {
        TypedItem::Declare(declared) => of_optional(types, &declared.init),
        TypedItem::VaList => 0,
        TypedItem::Stmt(x) => of_stmt(types, x.get()),
    }
}

#[cycle(statements)]
#[tactic(auto, using(crate::proofs::ByteLaws::stmt_sums))]
fn of_stmt(types: &Types, x: &TypedStmt) -> u64
    ensures { result ≡ small (stmt_bytes types.now x.now) }
{
    match x {
        TypedStmt::Empty | TypedStmt::Break | TypedStmt::Continue => 0,
        TypedStmt::VaStart | TypedStmt::VaEnd => 0,
        TypedStmt::Block(items) => of_items(types, items.as_slice()),
        TypedStmt::Effect(e) => of_expr(types, e.get()),
        TypedStmt::Return(e) => of_optional(types, e),
        TypedStmt::If(test, body) | TypedStmt::While(test, body) | TypedStmt::Do(body, test) => {
            of_expr(types, test.get()).saturating_add(of_stmt(types, body.get()))
        }
        TypedStmt::IfElse(test, yes, no) => {
            let arms = of_stmt(types, yes.get()).saturating_add(of_stmt(types, no.get()));
            of_expr(types, test.get()).saturating_add(arms)
        }
        TypedStmt::For(begin, test, step, body) => {
            let tests = of_optional(types, test).saturating_add(of_optional(types, step));
            let head = of_begin(types, begin).saturating_add(tests);
            head.saturating_add(of_stmt(types, body.get()))
        }
    }
}

#[cycle(statements)]
fn of_items(types: &Types, items: &[TypedItem]) -> u64
    ensures { result ≡ small (block_bytes types.now items.now) }
{
    let mut total = 0;
    for item in items {
        total = of_item(types, item).saturating_add(total);
    }
    total
}

fn of_variables(types: &Types, tys: &[Ty]) -> u64
    ensures { result ≡ small (variable_bytes types.now tys.now) }
{
    let mut total = 0;
    for ty in tys {
        total = size(types, *ty).saturating_add(total);
    }
    total
}

fn of_body(types: &Types, params: &[Ty], body: &Option<FunctionBody>) -> u64
    ensures { result ≡ small (body_bytes types.now params.now body.now) }
{
    match body {
        Some(body) => {
            let variables = of_variables(types, body.locals.as_slice());
            variables.saturating_add(of_items(types, body.block.as_slice()))
        }
        None => of_variables(types, params),
    }
}

fn of_extras(f: &FunTy, extras: u32) -> u64
    ensures { result ≡ small (extra_bytes f.now extras) }
{
    if f.variadic { 8 * extras as u64 } else { 0 }
}

fn of_typed(p: &Program, ty: u32, body: &Option<FunctionBody>) -> u64
    ensures { result ≡ small (typed_bytes p.now.types p.now.extras body.now (slice_get p.now.types.funs ty)) }
{
    match p.types.funs.get(ty as usize) {
        Some(f) => {
            let given = size(&p.types, f.result);
            let kept = of_body(&p.types, f.params.as_slice(), body);
            given
                .saturating_add(kept)
                .saturating_add(of_extras(f, p.extras))
        }
        None => 0,
    }
}

fn of_adjustor(p: &Program, place: usize) -> u64
    ensures { result ≡ small (adjustor_bytes p.now (slice_get p.now.adjustors place)) }
{
    match p.adjustors.get(place) {
        Some(a) => of_typed(p, a.ty, &None),
        None => 0,
    }
}

/// The bytes of the parameters, the other locals, the result and the struct-valued parts of the
/// function or adjustor at this place of the program's lists, functions first, with 8 for each extra
/// argument where it is variadic; the largest `u64` where there are more, and 0 where nothing stands
/// at this place. It takes no memory.
pub fn frame_bytes(p: &Program, f: u32) -> u64
    ensures { result ≡ small (frame_bytes_of p.now f) }
{
    match p.functions.get(f as usize) {
        Some(function) => of_typed(p, function.ty, &function.body),
        None => of_adjustor(p, f as usize - p.functions.len()),
    }
}
