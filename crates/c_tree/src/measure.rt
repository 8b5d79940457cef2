ghost use Rattle.std.specs.Prelude.{◌≡◌, ◌+◌, min, map};
ghost use Rattle.c_tree.specs.Height.{tallest, expr_height, optional_height, local_decl_height, locals_height, local_height, start_height, block_item_height, stmt_height, block_height, init_height, optional_init_height, global_decl_height, field_height, params_height, item_height, unit_height, small};

use crate::declarations::{Field, GlobalDecl, Init, Item, Params, Unit};
use crate::expressions::Expr;
use crate::statements::{BlockItem, ForStart, Local, LocalDecl, Stmt};
use hx_words::Boxed;

/// One more node.
fn above(part: u64) -> u64
    ensures { result ≡ min (part + 1) 18446744073709551615 }
{
    part.saturating_add(1)
}

#[cycle(expressions)]
#[tactic(auto, using(crate::proofs::HeightLaws::expr_heights))]
fn of_expr(e: &Expr) -> u64
    ensures { result ≡ small (expr_height e.now) }
{
    match e {
        Expr::Name(_) | Expr::Number(_) | Expr::Char(_, _) => 1,
        Expr::VaArg(_, _, _) | Expr::SizeOf(_, _) => 1,
        Expr::Paren(_, part)
        | Expr::Unary(_, _, part)
        | Expr::Cast(_, _, _, part)
        | Expr::Select(part, _, _, _)
        | Expr::PostIncrement(part, _)
        | Expr::PostDecrement(part, _) => above(of_expr(part.get())),
        Expr::Call(function, _, arguments) => {
            above(of_expr(function.get()).max(of_exprs(arguments.as_slice())))
        }
        Expr::Index(left, _, right)
        | Expr::Binary(_, _, left, right)
        | Expr::Assign(_, _, left, right) => {
            above(of_expr(left.get()).max(of_expr(right.get())))
        }
        Expr::Conditional(test, _, left, right) => {
            above(
                of_expr(test.get())
                    .max(of_expr(left.get()))
                    .max(of_expr(right.get())),
            )
        }
    }
}

#[cycle(expressions)]
fn of_exprs(exprs: &[Expr]) -> u64
    ensures { result ≡ small (tallest (map expr_height exprs.now)) }
{
    let mut most = 0;
    for e in exprs {
        most = of_expr(e).max(most);
    }
    most
}

fn of_optional(e: &Option<Boxed<Expr>>) -> u64
    ensures { result ≡ small (optional_height e.now) }
{
    match e {
        Some(e) => of_expr(e.get()),
        None => 0,
    }
}

fn of_locals(decls: &[LocalDecl]) -> u64
    ensures { result ≡ small (locals_height decls.now) }
{
    let mut most = 0;
    for decl in decls {
        most = of_optional(&decl.init).max(1).max(most);
    }
    above(most)
}

fn of_local(local: &Local) -> u64
    ensures { result ≡ small (local_height local.now) }
{
    match local {
        Local::Declared(_, decls) => of_locals(decls.as_slice()),
        Local::VaList(_, _) => 1,
    }
}

fn of_start(start: &ForStart) -> u64
    ensures { result ≡ small (start_height start.now) }
{
    match start {
        ForStart::Local(_, decls) => of_locals(decls.as_slice()),
        ForStart::Effect(e) => of_expr(e.get()),
        ForStart::Nothing => 0,
    }
}

#[cycle(statements)]
#[tactic(auto, using(crate::proofs::HeightLaws::stmt_heights))]
fn of_stmt(x: &Stmt) -> u64
    ensures { result ≡ small (stmt_height x.now) }
{
    match x {
        Stmt::Empty(_) | Stmt::Break(_) | Stmt::Continue(_) => 1,
        Stmt::VaStart(_, _, _) | Stmt::VaEnd(_, _) => 1,
        Stmt::Block(_, items) => above(of_block_items(items.as_slice())),
        Stmt::Effect(e) => above(of_expr(e.get())),
        Stmt::Return(_, e) => above(of_optional(e)),
        Stmt::If(_, test, body) | Stmt::While(_, test, body) | Stmt::Do(_, body, test) => {
            above(of_expr(test.get()).max(of_stmt(body.get())))
        }
        Stmt::IfElse(_, test, yes, no) => {
            above(
                of_expr(test.get())
                    .max(of_stmt(yes.get()))
                    .max(of_stmt(no.get())),
            )
        }
        Stmt::For(_, start, test, step, body) => {
            let head = of_start(start).max(of_optional(test).max(of_optional(step)));
            above(head.max(of_stmt(body.get())))
        }
    }
}

#[cycle(statements)]
#[tactic(auto, using(crate::proofs::HeightLaws::block_item_heights))]
fn of_block_item(item: &BlockItem) -> u64
    ensures { result ≡ small (block_item_height item.now) }
{
    match item {
        BlockItem::Local(local) => of_local(local),
        BlockItem::Stmt(x) => of_stmt(x.get()),
    }
}

#[cycle(statements)]
fn of_block_items(items: &[BlockItem]) -> u64
    ensures { result ≡ small (tallest (map block_item_height items.now)) }
{
    let mut most = 0;
    for item in items {
        most = of_block_item(item).max(most);
    }
    most
}

#[cycle(inits)]
#[tactic(auto, using(crate::proofs::HeightLaws::init_heights))]
fn of_init(init: &Init) -> u64
    ensures { result ≡ small (init_height init.now) }
{
    match init {
        Init::Number(_, _) | Init::Char(_, _) | Init::Text(_, _) | Init::Name(_, _, _) => 1,
        Init::List(_, inits) => above(of_inits(inits.as_slice())),
    }
}

#[cycle(inits)]
fn of_inits(inits: &[Init]) -> u64
    ensures { result ≡ small (tallest (map init_height inits.now)) }
{
    let mut most = 0;
    for init in inits {
        most = of_init(init).max(most);
    }
    most
}

fn of_global(decl: &GlobalDecl) -> u64
    ensures { result ≡ small (global_decl_height decl.now) }
{
    match &decl.init {
        Some(init) => of_init(init.get()).max(1),
        None => 1,
    }
}

fn of_globals(decls: &[GlobalDecl]) -> u64
    ensures { result ≡ small (tallest (map global_decl_height decls.now)) }
{
    let mut most = 0;
    for decl in decls {
        most = of_global(decl).max(most);
    }
    most
}

fn of_field(field: &Field) -> u64
    ensures { result ≡ field_height field.now }
{
    if field.decls.is_empty() { 1 } else { 2 }
}

fn of_fields(fields: &[Field]) -> u64
    ensures { result ≡ small (tallest (map field_height fields.now)) }
{
    let mut most = 0;
    for field in fields {
        most = of_field(field).max(most);
    }
    most
}

fn of_params(params: &Params) -> u64
    ensures { result ≡ params_height params.now }
{
    if params.list.is_empty() { 0 } else { 1 }
}

fn of_item(item: &Item) -> u64
    ensures { result ≡ small (item_height item.now) }
{
    match item {
        Item::Typedef(_, head) | Item::Declare(head) => above(of_params(&head.params)),
        Item::Struct(_, _, fields) => above(of_fields(fields.as_slice())),
        Item::Extern(_, _, _) => 2,
        Item::Globals(_, decls) => above(of_globals(decls.as_slice())),
        Item::Define(head, _, items) => {
            let body = above(of_block_items(items.as_slice()));
            above(of_params(&head.params).max(body))
        }
        Item::Adjustor(_, _, _, _, _, _) => 1,
    }
}

/// The nodes on the longest path from the unit to a leaf; the largest `u64` where there are more.
pub fn height(unit: &Unit) -> u64
    ensures { result ≡ small (unit_height unit.now) }
{
    let mut most = 0;
    for item in unit.items.as_slice() {
        most = of_item(item).max(most);
    }
    above(most)
}
