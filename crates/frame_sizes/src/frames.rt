ghost use Rattle.std.specs.Prelude.{◌≡◌, ◌+◌, ◌*◌, sum_by, slice_get, Some};
ghost use Rattle.c_types.specs.Layout.{size_of};
ghost use Rattle.c_program.specs.Nodes.{small};
ghost use Rattle.type_sizes.specs.Known.{AreSizes};
ghost use Rattle.c_program.specs.FrameBytes.{struct_bytes, place_bytes, expr_bytes, optional_bytes, declared_bytes, begin_bytes, item_bytes, stmt_bytes, block_bytes, variable_bytes, body_bytes, extra_bytes, typed_bytes, adjustor_bytes, function_bytes, frame_bytes_of};

use c_program::{
    AdjustDef, Declared, ForBegin, FunDef, FunctionBody, Place, Program, TypedExpr, TypedItem,
    TypedStmt,
};
use c_types::{FunTy, Ty, Types};
use hx_words::Boxed;
use type_sizes::Sizes;

fn of_struct(types: &Types, sizes: &Sizes, ty: Ty) -> u64
    requires { AreSizes types.now sizes.now }
    ensures { result ≡ small (struct_bytes types.now ty) }
{
    match ty {
        Ty::Struct(_) => sizes.size(types, ty),
        _ => 0,
    }
}

#[cycle(expressions)]
#[tactic(auto, using(c_program::proofs::ByteLaws::place_sums))]
fn of_place(types: &Types, sizes: &Sizes, p: &Place) -> u64
    requires { AreSizes types.now sizes.now }
    ensures { result ≡ small (place_bytes types.now p.now) }
{
    match p {
        Place::Local(_) | Place::Global(_) => 0,
        Place::Target(_, pointer) | Place::Arrow(pointer, _, _) => of_expr(
            types,
            sizes,
            pointer.get(),
        ),
        Place::Field(whole, _, _) => of_place(types, sizes, whole.get()),
        Place::Element(_, whole, index, _) => {
            of_place(types, sizes, whole.get()).saturating_add(of_expr(types, sizes, index.get()))
        }
    }
}

#[cycle(expressions)]
#[tactic(auto, using(c_program::proofs::ByteLaws::expr_sums))]
fn of_expr(types: &Types, sizes: &Sizes, e: &TypedExpr) -> u64
    requires { AreSizes types.now sizes.now }
    ensures { result ≡ small (expr_bytes types.now e.now) }
{
    match e {
        TypedExpr::Number(_, _)
        | TypedExpr::Char(_)
        | TypedExpr::Null(_)
        | TypedExpr::Function(_, _)
        | TypedExpr::VaArg(_) => 0,
        TypedExpr::Load(ty, place) => {
            of_place(types, sizes, place.get()).saturating_add(of_struct(types, sizes, *ty))
        }
        TypedExpr::Address(_, place)
        | TypedExpr::Before(_, _, place)
        | TypedExpr::After(_, _, place) => of_place(types, sizes, place.get()),
        TypedExpr::Same(part)
        | TypedExpr::Not(part)
        | TypedExpr::Negate(_, part)
        | TypedExpr::Complement(_, part)
        | TypedExpr::Convert(_, part) => of_expr(types, sizes, part.get()),
        TypedExpr::FieldOf(ty, part, _, _) => {
            of_expr(types, sizes, part.get()).saturating_add(of_struct(types, sizes, *ty))
        }
        TypedExpr::Binary(_, _, left, right)
        | TypedExpr::Compare(_, _, left, right)
        | TypedExpr::And(left, right)
        | TypedExpr::Or(left, right) => {
            of_expr(types, sizes, left.get()).saturating_add(of_expr(types, sizes, right.get()))
        }
        TypedExpr::ElementOf(ty, left, right, _) => {
            let parts = of_expr(types, sizes, left.get()).saturating_add(of_expr(
                types,
                sizes,
                right.get(),
            ));
            parts.saturating_add(of_struct(types, sizes, *ty))
        }
        TypedExpr::Conditional(ty, test, left, right) => {
            let sides = of_expr(types, sizes, left.get()).saturating_add(of_expr(
                types,
                sizes,
                right.get(),
            ));
            let parts = of_expr(types, sizes, test.get()).saturating_add(sides);
            parts.saturating_add(of_struct(types, sizes, *ty))
        }
        TypedExpr::Assign(ty, place, value) => {
            let parts = of_place(types, sizes, place.get()).saturating_add(of_expr(
                types,
                sizes,
                value.get(),
            ));
            parts.saturating_add(of_struct(types, sizes, *ty))
        }
        TypedExpr::Update(_, _, _, place, value) => {
            of_place(types, sizes, place.get()).saturating_add(of_expr(types, sizes, value.get()))
        }
        TypedExpr::Call(ty, _, arguments) => {
            of_exprs(types, sizes, arguments.as_slice()).saturating_add(of_struct(
                types, sizes, *ty,
            ))
        }
        TypedExpr::CallService(_, arguments) => of_exprs(types, sizes, arguments.as_slice()),
        TypedExpr::CallPointer(ty, _, function, arguments) => {
            let given = of_exprs(types, sizes, arguments.as_slice());
            let parts = of_expr(types, sizes, function.get()).saturating_add(given);
            parts.saturating_add(of_struct(types, sizes, *ty))
        }
    }
}

#[cycle(expressions)]
fn of_exprs(types: &Types, sizes: &Sizes, exprs: &[TypedExpr]) -> u64
    requires { AreSizes types.now sizes.now }
    ensures { result ≡ small (sum_by (expr_bytes types.now) exprs.now) }
{
    let mut total = 0;
    for e in exprs {
        total = of_expr(types, sizes, e).saturating_add(total);
    }
    total
}

fn of_optional(types: &Types, sizes: &Sizes, e: &Option<Boxed<TypedExpr>>) -> u64
    requires { AreSizes types.now sizes.now }
    ensures { result ≡ small (optional_bytes types.now e.now) }
{
    match e {
        Some(e) => of_expr(types, sizes, e.get()),
        None => 0,
    }
}

fn of_begin(types: &Types, sizes: &Sizes, begin: &ForBegin) -> u64
    requires { AreSizes types.now sizes.now }
    ensures { result ≡ small (begin_bytes types.now begin.now) }
{
    match begin {
        ForBegin::Locals(declared) => of_locals(types, sizes, declared.as_slice()),
        ForBegin::Effect(e) => of_expr(types, sizes, e.get()),
        ForBegin::Nothing => 0,
    }
}

fn of_locals(types: &Types, sizes: &Sizes, locals: &[Declared]) -> u64
    requires { AreSizes types.now sizes.now }
    ensures { result ≡ small (sum_by (declared_bytes types.now) locals.now) }
{
    let mut total = 0;
    for declared in locals {
        total = of_optional(types, sizes, &declared.init).saturating_add(total);
    }
    total
}

#[cycle(statements)]
#[tactic(auto, using(c_program::proofs::ByteLaws::item_sums))]
fn of_item(types: &Types, sizes: &Sizes, item: &TypedItem) -> u64
    requires { AreSizes types.now sizes.now }
    ensures { result ≡ small (item_bytes types.now item.now) }
{
    match item {
        TypedItem::Declare(declared) => of_optional(types, sizes, &declared.init),
        TypedItem::VaList => 0,
        TypedItem::Stmt(x) => of_stmt(types, sizes, x.get()),
    }
}

#[cycle(statements)]
#[tactic(auto, using(c_program::proofs::ByteLaws::stmt_sums))]
fn of_stmt(types: &Types, sizes: &Sizes, x: &TypedStmt) -> u64
    requires { AreSizes types.now sizes.now }
    ensures { result ≡ small (stmt_bytes types.now x.now) }
{
    match x {
        TypedStmt::Empty | TypedStmt::Break | TypedStmt::Continue => 0,
        TypedStmt::VaStart | TypedStmt::VaEnd => 0,
        TypedStmt::Block(items) => of_items(types, sizes, items.as_slice()),
        TypedStmt::Effect(e) => of_expr(types, sizes, e.get()),
        TypedStmt::Return(e) => of_optional(types, sizes, e),
        TypedStmt::If(test, body) | TypedStmt::While(test, body) | TypedStmt::Do(body, test) => {
            of_expr(types, sizes, test.get()).saturating_add(of_stmt(types, sizes, body.get()))
        }
        TypedStmt::IfElse(test, yes, no) => {
            let arms = of_stmt(types, sizes, yes.get()).saturating_add(of_stmt(
                types,
                sizes,
                no.get(),
            ));
            of_expr(types, sizes, test.get()).saturating_add(arms)
        }
        TypedStmt::For(begin, test, step, body) => {
            let tests = of_optional(types, sizes, test).saturating_add(of_optional(
                types, sizes, step,
            ));
            let head = of_begin(types, sizes, begin).saturating_add(tests);
            head.saturating_add(of_stmt(types, sizes, body.get()))
        }
    }
}

#[cycle(statements)]
fn of_items(types: &Types, sizes: &Sizes, items: &[TypedItem]) -> u64
    requires { AreSizes types.now sizes.now }
    ensures { result ≡ small (block_bytes types.now items.now) }
{
    let mut total = 0;
    for item in items {
        total = of_item(types, sizes, item).saturating_add(total);
    }
    total
}

fn of_variables(types: &Types, sizes: &Sizes, tys: &[Ty]) -> u64
    requires { AreSizes types.now sizes.now }
    ensures { result ≡ small (variable_bytes types.now tys.now) }
{
    let mut total = 0;
    for ty in tys {
        total = sizes.size(types, *ty).saturating_add(total);
    }
    total
}

fn of_body(types: &Types, sizes: &Sizes, params: &[Ty], body: &Option<FunctionBody>) -> u64
    requires { AreSizes types.now sizes.now }
    ensures { result ≡ small (body_bytes types.now params.now body.now) }
{
    match body {
        Some(body) => {
            let variables = of_variables(types, sizes, body.locals.as_slice());
            variables.saturating_add(of_items(types, sizes, body.block.as_slice()))
        }
        None => of_variables(types, sizes, params),
    }
}

fn of_extras(f: &FunTy, extras: u32) -> u64
    ensures { result ≡ small (extra_bytes f.now extras) }
{
    if f.variadic { 8 * extras as u64 } else { 0 }
}

fn of_typed(p: &Program, sizes: &Sizes, ty: u32, body: &Option<FunctionBody>) -> u64
    requires { AreSizes p.now.types sizes.now }
    ensures { result ≡ small (typed_bytes p.now.types p.now.extras body.now (slice_get p.now.types.funs ty)) }
{
    match p.types.funs.get(ty as usize) {
        Some(f) => {
            let given = sizes.size(&p.types, f.result);
            let kept = of_body(&p.types, sizes, f.params.as_slice(), body);
            given
                .saturating_add(kept)
                .saturating_add(of_extras(f, p.extras))
        }
        None => 0,
    }
}

/// The bytes that a call of an adjustor keeps, by the sizes of the program's types; the largest `u64` where there
/// are more. It takes no memory.
pub fn adjustor_bytes(p: &Program, sizes: &Sizes, a: &AdjustDef) -> u64
    requires { AreSizes p.now.types sizes.now }
    ensures { result ≡ small (adjustor_bytes p.now (Some a.now)) }
{
    of_typed(p, sizes, a.ty, &None)
}

/// The bytes that a call of a function keeps, by the sizes of the program's types; the largest `u64` where there
/// are more. It takes no memory.
pub fn function_bytes(p: &Program, sizes: &Sizes, f: &FunDef) -> u64
    requires { AreSizes p.now.types sizes.now }
    ensures { result ≡ small (function_bytes p.now f.now) }
{
    of_typed(p, sizes, f.ty, &f.body)
}

fn of_adjustor(p: &Program, sizes: &Sizes, place: usize) -> u64
    requires { AreSizes p.now.types sizes.now }
    ensures { result ≡ small (adjustor_bytes p.now (slice_get p.now.adjustors place)) }
{
    match p.adjustors.get(place) {
        Some(a) => adjustor_bytes(p, sizes, a),
        None => 0,
    }
}

/// As [`c_program::frame_bytes`], by the sizes of the program's types: the bytes that a call of the function or
/// adjustor at this place of the program's lists keeps, functions first; 0 where nothing stands there, and the
/// largest `u64` where there are more. It takes no memory.
pub fn frame_bytes(p: &Program, sizes: &Sizes, f: u32) -> u64
    requires { AreSizes p.now.types sizes.now }
    ensures { result ≡ small (frame_bytes_of p.now f) }
{
    match p.functions.get(f as usize) {
        Some(function) => function_bytes(p, sizes, function),
        None => of_adjustor(p, sizes, f as usize - p.functions.len()),
    }
}
