ghost use Rattle.std.specs.Prelude.{◌≡◌, OnOk, true};
ghost use Rattle.c_typing.specs.Visits.{Leaves};
ghost use Rattle.c_typing.specs.Scopes.{inside};
ghost use Rattle.c_typing.specs.Statements.{visit_start, visit_block, visit_stmt, visit_block_item, visit_if, visit_while, visit_do, visit_for, visit_value};
ghost use Rattle.check_decls.specs.Steps.{LeavesAll};
ghost use Rattle.check_stmt.specs.Blocks.{LeavesScope, left_block, either_of, inner_block, visit_for_inside, visit_return};

use crate::lists::{end_list, start_list};
use crate::locals::{declare_variables, only, type_effect, type_local};
use crate::rules::{
    jump_in, optional_condition, return_value, type_optional_effect, type_optional_value,
};
use c_program::{ForBegin, TypedItem, TypedStmt};
use c_tree::{BlockItem, Expr, ForStart, Stmt};
use c_typing::{Enclosing, LocalScope, Refusal, Tables, UnitScope, Value};
use check_expr::visit_value;
use check_types::scalar_of;
use hx_words::{Boxed, Items};
use named_rows::NamedRows;
use std::alloc::{AllocError, Global};
use std::mem;

/// The scope inside a block that begins (C11, 6.2.1).
fn enter_block(alloc: Global, locals: &mut LocalScope) -> Result<(), AllocError>
    ensures { OnOk result (locals.new ≡ inside locals.old) }
{
    let own = mem::replace(&mut locals.own, NamedRows::new(alloc));
    locals.outer.push(own)?;
    Ok(())
}

/// The scope behind a block: that of the blocks around it.
#[tactic(auto, using(crate::proofs::BlockLaws::left_as, crate::proofs::BlockLaws::left_none))]
fn leave_block(locals: &mut LocalScope)
    ensures { left_block locals.old.outer locals.new }
{
    if let Some(own) = locals.outer.pop() {
        locals.own = own;
    }
}

/// What a `for` begins with.
#[tactic(auto, unfolding(c_typing::specs::Visits::followed, c_typing::specs::Visits::give), using(crate::proofs::BlockLaws::start_refused_all, crate::proofs::BlockLaws::start_refused))]
fn type_start(
    alloc: Global,
    unit: &UnitScope,
    start: &ForStart,
    locals: &mut LocalScope,
    tables: &mut Tables,
) -> Result<ForBegin, Refusal>
    ensures rule { LeavesScope (visit_start unit.now locals.old start.now tables.old) result locals.new tables.new }
    ensures outer { OnOk result (locals.new.outer ≡ locals.old.outer) }
{
    match start {
        ForStart::Local(base, decls) => {
            let declared = declare_variables(alloc, unit, base, decls.as_slice(), locals, tables)?;
            Ok(ForBegin::Locals(declared))
        }
        ForStart::Effect(e) => {
            let tree = type_effect(alloc, unit, locals, e.get(), tables)?;
            Ok(ForBegin::Effect(tree))
        }
        ForStart::Nothing => Ok(ForBegin::Nothing),
    }
}

/// An `if` with an `else`, from its parts (C11, 6.8.4.1).
fn either(
    alloc: Global,
    at: u32,
    value: Value,
    yes: TypedStmt,
    no: TypedStmt,
    tables: &Tables,
) -> Result<TypedStmt, Refusal>
    ensures { Leaves (either_of at value yes no tables.now) result tables.now }
{
    let yes = Boxed::new(alloc, yes)?;
    let no = Boxed::new(alloc, no)?;
    let test = scalar_of(at, value)?;
    Ok(TypedStmt::IfElse(test, yes, no))
}

/// What a block holds, in order (C11, 6.8.2), in the function `f` and in a loop or not. The scope is the
/// block's own, and it is left as it is at the block's end. It recurses as deep as the tree is high,
/// which is at most 256 for a tree that the parser gives.
///
/// # Errors
///
/// The first fault in the order of visit, the parts of a statement before its own rules and from left
/// to right, and want of memory.
#[cycle(statements)]
#[tactic(auto, unfolding(c_typing::specs::Statements::visit_block), using(c_typing::proofs::LoopLaws::scopes_begun))]
pub fn type_items(
    alloc: Global,
    unit: &UnitScope,
    f: Enclosing,
    in_loop: bool,
    items: &[BlockItem],
    locals: &mut LocalScope,
    tables: &mut Tables,
) -> Result<Items<TypedItem>, Refusal>
    ensures rule { LeavesAll (visit_block unit.now f in_loop items.now locals.old tables.old) result locals.new tables.new }
    ensures outer { OnOk result (locals.new.outer ≡ locals.old.outer) }
{
    let mut typed = Items::new(alloc);
    for item in items {
        let more = type_item(alloc, unit, f, in_loop, item, locals, tables)?;
        typed.append(more)?;
    }
    Ok(typed)
}

#[cycle(statements)]
#[tactic(auto, unfolding(c_typing::specs::Visits::followed, c_typing::specs::Visits::give), using(c_typing::proofs::StmtLaws::block_item_visits, crate::proofs::BlockLaws::item_refused))]
fn type_item(
    alloc: Global,
    unit: &UnitScope,
    f: Enclosing,
    in_loop: bool,
    item: &BlockItem,
    locals: &mut LocalScope,
    tables: &mut Tables,
) -> Result<Items<TypedItem>, Refusal>
    ensures rule { LeavesAll (visit_block_item unit.now f item.now in_loop locals.old tables.old) result locals.new tables.new }
    ensures outer { OnOk result (locals.new.outer ≡ locals.old.outer) }
{
    match item {
        BlockItem::Local(local) => {
            let items = type_local(alloc, unit, f, local, locals, tables)?;
            Ok(items)
        }
        BlockItem::Stmt(x) => {
            let x = type_stmt(alloc, unit, f, in_loop, x.get(), locals, tables)?;
            let x = Boxed::new(alloc, x)?;
            Ok(only(alloc, TypedItem::Stmt(x))?)
        }
    }
}

/// A block with a scope of its own.
#[cycle(statements)]
#[tactic(auto, unfolding(c_typing::specs::Visits::followed, c_typing::specs::Visits::give), using(crate::proofs::BlockLaws::all_refused))]
fn type_inner(
    alloc: Global,
    unit: &UnitScope,
    f: Enclosing,
    in_loop: bool,
    items: &[BlockItem],
    locals: &mut LocalScope,
    tables: &mut Tables,
) -> Result<TypedStmt, Refusal>
    ensures rule { Leaves (inner_block unit.now f in_loop items.now locals.old tables.old) result tables.new }
    ensures kept { OnOk result (locals.new ≡ locals.old) }
{
    enter_block(alloc, locals)?;
    let typed = type_items(alloc, unit, f, in_loop, items, locals, tables)?;
    leave_block(locals);
    Ok(TypedStmt::Block(typed))
}

#[cycle(statements)]
#[tactic(auto, unfolding(c_typing::specs::Visits::followed, c_typing::specs::Visits::give, c_typing::specs::Visits::judged), using(check_types::proofs::VisitLaws::leaves_refused, check_types::proofs::VisitLaws::leaves_judged, check_types::proofs::VisitLaws::leaves_told))]
fn type_if(
    alloc: Global,
    unit: &UnitScope,
    f: Enclosing,
    in_loop: bool,
    at: u32,
    body: &Stmt,
    test: &Expr,
    locals: &mut LocalScope,
    tables: &mut Tables,
) -> Result<TypedStmt, Refusal>
    ensures rule { Leaves (visit_if at (visit_value unit.now locals.old test.now) (visit_stmt unit.now f body.now in_loop locals.old) tables.old) result tables.new }
    ensures kept { OnOk result (locals.new ≡ locals.old) }
{
    let value = visit_value(alloc, unit, locals, test, tables)?;
    let body = type_stmt(alloc, unit, f, in_loop, body, locals, tables)?;
    let body = Boxed::new(alloc, body)?;
    let test = scalar_of(at, value)?;
    Ok(TypedStmt::If(test, body))
}

#[cycle(statements)]
#[tactic(auto, unfolding(c_typing::specs::Visits::followed, c_typing::specs::Visits::give, c_typing::specs::Visits::judged), using(check_types::proofs::VisitLaws::leaves_refused, check_types::proofs::VisitLaws::leaves_judged, check_types::proofs::VisitLaws::leaves_told))]
fn type_while(
    alloc: Global,
    unit: &UnitScope,
    f: Enclosing,
    at: u32,
    body: &Stmt,
    test: &Expr,
    locals: &mut LocalScope,
    tables: &mut Tables,
) -> Result<TypedStmt, Refusal>
    ensures rule { Leaves (visit_while at (visit_value unit.now locals.old test.now) (visit_stmt unit.now f body.now true locals.old) tables.old) result tables.new }
    ensures kept { OnOk result (locals.new ≡ locals.old) }
{
    let value = visit_value(alloc, unit, locals, test, tables)?;
    let body = type_stmt(alloc, unit, f, true, body, locals, tables)?;
    let body = Boxed::new(alloc, body)?;
    let test = scalar_of(at, value)?;
    Ok(TypedStmt::While(test, body))
}

#[cycle(statements)]
#[tactic(auto, unfolding(c_typing::specs::Visits::followed, c_typing::specs::Visits::give, c_typing::specs::Visits::judged), using(check_types::proofs::VisitLaws::leaves_refused, check_types::proofs::VisitLaws::leaves_judged, check_types::proofs::VisitLaws::leaves_told))]
fn type_do(
    alloc: Global,
    unit: &UnitScope,
    f: Enclosing,
    at: u32,
    body: &Stmt,
    test: &Expr,
    locals: &mut LocalScope,
    tables: &mut Tables,
) -> Result<TypedStmt, Refusal>
    ensures rule { Leaves (visit_do at (visit_stmt unit.now f body.now true locals.old) (visit_value unit.now locals.old test.now) tables.old) result tables.new }
    ensures kept { OnOk result (locals.new ≡ locals.old) }
{
    let body = type_stmt(alloc, unit, f, true, body, locals, tables)?;
    let body = Boxed::new(alloc, body)?;
    let value = visit_value(alloc, unit, locals, test, tables)?;
    let test = scalar_of(at, value)?;
    Ok(TypedStmt::Do(body, test))
}

/// A `for` in the scope that its first part declares its locals in.
#[cycle(statements)]
#[tactic(auto, unfolding(crate::specs::Blocks::visit_for_inside, c_typing::specs::Visits::followed, c_typing::specs::Visits::give), using(crate::proofs::BlockLaws::scope_refused, check_types::proofs::VisitLaws::leaves_refused, check_types::proofs::VisitLaws::leaves_judged, check_types::proofs::VisitLaws::leaves_told))]
fn type_for_inside(
    alloc: Global,
    unit: &UnitScope,
    f: Enclosing,
    at: u32,
    start: &ForStart,
    test: &Option<Boxed<Expr>>,
    step: &Option<Boxed<Expr>>,
    body: &Stmt,
    locals: &mut LocalScope,
    tables: &mut Tables,
) -> Result<TypedStmt, Refusal>
    ensures rule { Leaves (visit_for_inside unit.now at start.now test.now step.now (visit_stmt unit.now f body.now) locals.old tables.old) result tables.new }
    ensures outer { OnOk result (locals.new.outer ≡ locals.old.outer) }
{
    let first = type_start(alloc, unit, start, locals, tables)?;
    let test = type_optional_value(alloc, unit, locals, test, tables)?;
    let step = type_optional_effect(alloc, unit, locals, step, tables)?;
    let body = type_stmt(alloc, unit, f, true, body, locals, tables)?;
    let body = Boxed::new(alloc, body)?;
    let test = optional_condition(at, test, tables)?;
    Ok(TypedStmt::For(first, test, step, body))
}

/// A `for`, whose first part is in scope to its end (C11, 6.8.5.3, 6.8.5p5).
#[cycle(statements)]
#[tactic(auto, using(crate::proofs::BlockLaws::for_entered))]
fn type_for(
    alloc: Global,
    unit: &UnitScope,
    f: Enclosing,
    at: u32,
    start: &ForStart,
    test: &Option<Boxed<Expr>>,
    step: &Option<Boxed<Expr>>,
    body: &Stmt,
    locals: &mut LocalScope,
    tables: &mut Tables,
) -> Result<TypedStmt, Refusal>
    ensures rule { Leaves (visit_for unit.now at start.now test.now step.now (visit_stmt unit.now f body.now) locals.old tables.old) result tables.new }
    ensures kept { OnOk result (locals.new ≡ locals.old) }
{
    enter_block(alloc, locals)?;
    let typed = type_for_inside(alloc, unit, f, at, start, test, step, body, locals, tables)?;
    leave_block(locals);
    Ok(typed)
}

/// A `return`.
#[tactic(auto, unfolding(c_typing::specs::Visits::followed, c_typing::specs::Visits::give, c_typing::specs::Visits::judged), using(check_types::proofs::VisitLaws::leaves_refused, check_types::proofs::VisitLaws::leaves_judged, check_types::proofs::VisitLaws::leaves_told))]
fn type_return(
    alloc: Global,
    unit: &UnitScope,
    f: Enclosing,
    at: u32,
    e: &Option<Boxed<Expr>>,
    locals: &LocalScope,
    tables: &mut Tables,
) -> Result<TypedStmt, Refusal>
    ensures { Leaves (visit_return unit.now f at e.now locals.now tables.old) result tables.new }
{
    let value = type_optional_value(alloc, unit, locals, e, tables)?;
    let value = return_value(alloc, f, at, value)?;
    Ok(TypedStmt::Return(value))
}

/// A statement; its scope is that before it.
#[cycle(statements)]
#[tactic(auto, unfolding(c_typing::specs::Visits::followed, c_typing::specs::Visits::give, c_typing::specs::Visits::judged), using(c_typing::proofs::StmtLaws::stmt_visits, check_types::proofs::VisitLaws::leaves_refused, check_types::proofs::VisitLaws::leaves_judged, check_types::proofs::VisitLaws::leaves_told))]
fn type_stmt(
    alloc: Global,
    unit: &UnitScope,
    f: Enclosing,
    in_loop: bool,
    x: &Stmt,
    locals: &mut LocalScope,
    tables: &mut Tables,
) -> Result<TypedStmt, Refusal>
    ensures rule { Leaves (visit_stmt unit.now f x.now in_loop locals.old tables.old) result tables.new }
    ensures kept { OnOk result (locals.new ≡ locals.old) }
{
    match x {
        Stmt::Empty(_) => Ok(TypedStmt::Empty),
        Stmt::Block(_, items) => {
            Ok(type_inner(alloc, unit, f, in_loop, items.as_slice(), locals, tables)?)
        }
        Stmt::Effect(e) => {
            let tree = type_effect(alloc, unit, locals, e.get(), tables)?;
            Ok(TypedStmt::Effect(tree))
        }
        Stmt::Break(at) => Ok(jump_in(at.start, TypedStmt::Break, in_loop, tables)?),
        Stmt::Continue(at) => Ok(jump_in(at.start, TypedStmt::Continue, in_loop, tables)?),
        Stmt::If(at, c, y) => {
            let (c, y) = (c.get(), y.get());
            let typed = type_if(alloc, unit, f, in_loop, at.start, y, c, locals, tables)?;
            Ok(typed)
        }
        Stmt::IfElse(at, c, y, n) => {
            let value = visit_value(alloc, unit, locals, c.get(), tables)?;
            let yes = type_stmt(alloc, unit, f, in_loop, y.get(), locals, tables)?;
            let no = type_stmt(alloc, unit, f, in_loop, n.get(), locals, tables)?;
            Ok(either(alloc, at.start, value, yes, no, tables)?)
        }
        Stmt::While(at, c, y) => {
            let typed = type_while(alloc, unit, f, at.start, y.get(), c.get(), locals, tables)?;
            Ok(typed)
        }
        Stmt::Do(at, y, c) => {
            let typed = type_do(alloc, unit, f, at.start, y.get(), c.get(), locals, tables)?;
            Ok(typed)
        }
        Stmt::For(at, a, c, b, y) => {
            let typed = type_for(alloc, unit, f, at.start, a, c, b, y.get(), locals, tables)?;
            Ok(typed)
        }
        Stmt::Return(at, e) => Ok(type_return(alloc, unit, f, at.start, e, locals, tables)?),
        Stmt::VaStart(at, l, n) => Ok(start_list(alloc, unit, f, locals, at.start, l, n)?),
        Stmt::VaEnd(at, l) => Ok(end_list(alloc, unit, locals, at.start, l)?),
    }
}
