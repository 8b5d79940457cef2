ghost use Rattle.std.specs.Prelude.{◌≡◌, ◌+◌, min, sum_by, slice_get};
ghost use Rattle.c_program.specs.Nodes.{place_nodes, expr_nodes, optional_nodes, declared_nodes, begin_nodes, item_nodes, stmt_nodes, block_nodes, parameters_in, body_nodes, function_nodes, program_nodes, small};

use crate::expressions::{Place, TypedExpr};
use crate::program::{FunDef, Program};
use crate::statements::{Declared, ForBegin, TypedItem, TypedStmt};
use c_types::FunTy;
use hx_words::Boxed;

/// One more node.
fn and_one(parts: u64) -> u64
    ensures { result ≡ min (parts + 1) 18446744073709551615 }
{
    parts.saturating_add(1)
}

#[cycle(expressions)]
#[tactic(auto, using(crate::proofs::NodeLaws::place_counts))]
fn of_place(p: &Place) -> u64
    ensures { result ≡ small (place_nodes p.now) }
{
    match p {
        Place::Local(_) | Place::Global(_) => 1,
        Place::Target(_, pointer) | Place::Arrow(pointer, _, _) => and_one(of_expr(pointer.get())),
        Place::Field(whole, _, _) => and_one(of_place(whole.get())),
        Place::Element(_, whole, index, _) => {
            and_one(of_place(whole.get()).saturating_add(of_expr(index.get())))
        }
    }
}

#[cycle(expressions)]
#[tactic(auto, using(crate::proofs::NodeLaws::expr_counts))]
fn of_expr(e: &TypedExpr) -> u64
    ensures { result ≡ small (expr_nodes e.now) }
{
    match e {
        TypedExpr::Number(_, _)
        | TypedExpr::Char(_)
        | TypedExpr::Null(_)
        | TypedExpr::Function(_, _)
        | TypedExpr::VaArg(_) => 1,
        TypedExpr::Load(_, place) => of_place(place.get()),
        TypedExpr::Address(_, place)
        | TypedExpr::Before(_, _, place)
        | TypedExpr::After(_, _, place) => and_one(of_place(place.get())),
        TypedExpr::Same(part)
        | TypedExpr::Not(part)
        | TypedExpr::Negate(_, part)
        | TypedExpr::Complement(_, part)
        | TypedExpr::Convert(_, part)
        | TypedExpr::FieldOf(_, part, _, _) => and_one(of_expr(part.get())),
        TypedExpr::Binary(_, _, left, right)
        | TypedExpr::Compare(_, _, left, right)
        | TypedExpr::And(left, right)
        | TypedExpr::Or(left, right)
        | TypedExpr::ElementOf(_, left, right, _) => {
            and_one(of_expr(left.get()).saturating_add(of_expr(right.get())))
        }
        TypedExpr::Conditional(_, test, left, right) => {
            let sides = of_expr(left.get()).saturating_add(of_expr(right.get()));
            and_one(of_expr(test.get()).saturating_add(sides))
        }
        TypedExpr::Assign(_, place, value) | TypedExpr::Update(_, _, _, place, value) => {
            and_one(of_place(place.get()).saturating_add(of_expr(value.get())))
        }
        TypedExpr::Call(_, _, arguments) | TypedExpr::CallService(_, arguments) => {
            and_one(of_exprs(arguments.as_slice()))
        }
        TypedExpr::CallPointer(_, _, function, arguments) => {
            and_one(of_expr(function.get()).saturating_add(of_exprs(arguments.as_slice())))
        }
    }
}

#[cycle(expressions)]
fn of_exprs(exprs: &[TypedExpr]) -> u64
    ensures { result ≡ small (sum_by expr_nodes exprs.now) }
{
    let mut total = 0;
    for e in exprs {
        total = of_expr(e).saturating_add(total);
    }
    total
}

fn of_optional(e: &Option<Boxed<TypedExpr>>) -> u64
    ensures { result ≡ small (optional_nodes e.now) }
{
    match e {
        Some(e) => of_expr(e.get()),
        None => 0,
    }
}

fn of_declared(declared: &Declared) -> u64
    ensures { result ≡ small (declared_nodes declared.now) }
{
    and_one(of_optional(&declared.init))
}

fn of_begin(begin: &ForBegin) -> u64
    ensures { result ≡ small (begin_nodes begin.now) }
{
    match begin {
        ForBegin::Locals(declared) => of_locals(declared.as_slice()),
        ForBegin::Effect(e) => of_expr(e.get()),
        ForBegin::Nothing => 0,
    }
}

fn of_locals(locals: &[Declared]) -> u64
    ensures { result ≡ small (sum_by declared_nodes locals.now) }
{
    let mut total = 0;
    for declared in locals {
        total = of_declared(declared).saturating_add(total);
    }
    total
}

#[cycle(statements)]
#[tactic(auto, using(crate::proofs::NodeLaws::item_counts))]
fn of_item(item: &TypedItem) -> u64
    ensures { result ≡ small (item_nodes item.now) }
{
    match item {
        TypedItem::Declare(declared) => of_declared(declared),
        TypedItem::VaList => 1,
        TypedItem::Stmt(x) => of_stmt(x.get()),
    }
}

#[cycle(statements)]
#[tactic(auto, using(crate::proofs::NodeLaws::stmt_counts))]
fn of_stmt(x: &TypedStmt) -> u64
    ensures { result ≡ small (stmt_nodes x.now) }
{
    match x {
        TypedStmt::Empty | TypedStmt::Break | TypedStmt::Continue => 1,
        TypedStmt::VaStart | TypedStmt::VaEnd => 1,
        TypedStmt::Block(items) => and_one(of_items(items.as_slice())),
        TypedStmt::Effect(e) => and_one(of_expr(e.get())),
        TypedStmt::Return(e) => and_one(of_optional(e)),
        TypedStmt::If(test, body) | TypedStmt::While(test, body) | TypedStmt::Do(body, test) => {
            and_one(of_expr(test.get()).saturating_add(of_stmt(body.get())))
        }
        TypedStmt::IfElse(test, yes, no) => {
            let arms = of_stmt(yes.get()).saturating_add(of_stmt(no.get()));
            and_one(of_expr(test.get()).saturating_add(arms))
        }
        TypedStmt::For(begin, test, step, body) => {
            let tests = of_optional(test).saturating_add(of_optional(step));
            let head = of_begin(begin).saturating_add(tests);
            and_one(head.saturating_add(of_stmt(body.get())))
        }
    }
}

#[cycle(statements)]
fn of_items(items: &[TypedItem]) -> u64
    ensures { result ≡ small (sum_by item_nodes items.now) }
{
    let mut total = 0;
    for item in items {
        total = of_item(item).saturating_add(total);
    }
    total
}

fn parameters(funs: &[FunTy], ty: u32) -> u64
    ensures { result ≡ small (parameters_in (slice_get funs.now ty)) }
{
    match funs.get(ty as usize) {
        Some(f) => f.params.len() as u64,
        None => 0,
    }
}

/// The nodes of a function's item, its parameters and its body; 0 where it is only declared, and the
/// largest `u64` where there are more. It takes no memory.
pub fn nodes_of_function(funs: &[FunTy], f: &FunDef) -> u64
    ensures { result ≡ small (function_nodes funs.now f.now) }
{
    match &f.body {
        Some(body) => {
            let block = and_one(of_items(body.block.as_slice()));
            and_one(parameters(funs, f.ty).saturating_add(block))
        }
        None => 0,
    }
}

fn of_functions(funs: &[FunTy], functions: &[FunDef]) -> u64
    ensures { result ≡ small (sum_by (function_nodes funs.now) functions.now) }
{
    let mut total = 0;
    for f in functions {
        total = nodes_of_function(funs, f).saturating_add(total);
    }
    total
}

/// The nodes of a program: items, parameters, fields, initial values, statements, declarators,
/// expressions and inserted conversions; the largest `u64` where there are more. It takes no memory.
pub fn nodes(p: &Program) -> u64
    ensures { result ≡ small (program_nodes p.now) }
{
    let bodies = of_functions(p.types.funs.as_slice(), p.functions.as_slice());
    let adjustors = p.adjustors.len() as u64;
    p.other_nodes
        .saturating_add(bodies)
        .saturating_add(adjustors)
}
