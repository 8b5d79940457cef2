ghost use Rattle.std.specs.Prelude.{◌≡◌, [], ◌∷◌, OnOk, IfOk};
ghost use Rattle.c_typing.specs.Visits.{Leaves, optionally};
ghost use Rattle.c_typing.specs.Statements.{visit_effect, visit_initial, visit_declarator, visit_declarators, visit_local};
ghost use Rattle.check_stmt.specs.Blocks.{items_behind};
ghost use Rattle.check_decls.specs.Steps.{LeavesOne, LeavesAll};

use crate::lists::declare_list;
use c_program::{Declared, TypedExpr, TypedItem};
use c_tree::{Base, Expr, Local, LocalDecl};
use c_types::Ty;
use c_typing::{Enclosing, LocalMeaning, LocalScope, Refusal, Tables, TypeKind, UnitScope};
use check_decls::{check_free, declare_local, number_local};
use check_expr::{visit_expr, visit_value};
use check_types::{convert_to, declared_type_of, effect_of, refusal};
use hx_words::{Boxed, Items};
use std::alloc::{AllocError, Global};

/// An expression for its effect.
#[tactic(auto, unfolding(c_typing::specs::Visits::followed, c_typing::specs::Visits::judged))]
pub fn type_effect(
    alloc: Global,
    unit: &UnitScope,
    locals: &LocalScope,
    e: &Expr,
    tables: &mut Tables,
) -> Result<Boxed<TypedExpr>, Refusal>
    ensures { Leaves (visit_effect unit.now locals.now e.now tables.old) result tables.new }
{
    let operand = visit_expr(alloc, unit, locals, e, tables)?;
    let tree = effect_of(alloc, operand)?;
    Ok(tree)
}

/// An initial value of a local, converted as if by assignment (C11, 6.7.9p11).
#[tactic(auto, unfolding(c_typing::specs::Statements::visit_initial, c_typing::specs::Visits::followed, c_typing::specs::Visits::judged))]
fn type_initial(
    alloc: Global,
    unit: &UnitScope,
    locals: &LocalScope,
    at: u32,
    ty: Ty,
    e: &Expr,
    tables: &mut Tables,
) -> Result<Boxed<TypedExpr>, Refusal>
    ensures { Leaves (visit_initial unit.now locals.now at ty e.now tables.old) result tables.new }
{
    let value = visit_value(alloc, unit, locals, e, tables)?;
    match convert_to(alloc, ty, value)? {
        Some(tree) => Ok(tree),
        None => Err(refusal(TypeKind::Mismatch, at)),
    }
}

#[tactic(auto, unfolding(c_typing::specs::Visits::followed, c_typing::specs::Visits::give))]
fn type_optional_initial(
    alloc: Global,
    unit: &UnitScope,
    locals: &LocalScope,
    at: u32,
    ty: Ty,
    init: &Option<Boxed<Expr>>,
    tables: &mut Tables,
) -> Result<Option<Boxed<TypedExpr>>, Refusal>
    ensures { Leaves (optionally (visit_initial unit.now locals.now at ty) init.now tables.old) result tables.new }
{
    match init {
        Some(e) => {
            let tree = type_initial(alloc, unit, locals, at, ty, e.get(), tables)?;
            Ok(Some(tree))
        }
        None => Ok(None),
    }
}

/// A declarator of a local, which is in scope from there on (C11, 6.2.1p7).
#[tactic(auto, unfolding(c_typing::specs::Statements::visit_declarator, c_typing::specs::Visits::followed, c_typing::specs::Visits::give))]
pub fn declare_variable(
    alloc: Global,
    unit: &UnitScope,
    base: &Base,
    decl: &LocalDecl,
    locals: &mut LocalScope,
    tables: &mut Tables,
) -> Result<Declared, Refusal>
    ensures rule { LeavesOne (visit_declarator unit.now base.now decl.now locals.old tables.old) result locals.new tables.new }
    ensures outer { OnOk result (locals.new.outer ≡ locals.old.outer) }
{
    check_free(unit, locals, &decl.decl.name, tables)?;
    let ty = declared_type_of(unit, base, &decl.decl, tables)?;
    let local = number_local(ty, tables)?;
    let name = decl.decl.name.text.as_slice();
    declare_local(alloc, name, LocalMeaning::Variable(local, ty), locals)?;
    let at = decl.decl.name.span.start;
    let init = type_optional_initial(alloc, unit, locals, at, ty, &decl.init, tables)?;
    Ok(Declared { local, ty, init })
}

/// Declarators of locals of one type, in order.
#[tactic(auto, unfolding(c_typing::specs::Statements::visit_declarators), using(c_typing::proofs::LoopLaws::scopes_begun, check_decls::proofs::LoopEnds::scopes_given_up))]
pub fn declare_variables(
    alloc: Global,
    unit: &UnitScope,
    base: &Base,
    decls: &[LocalDecl],
    locals: &mut LocalScope,
    tables: &mut Tables,
) -> Result<Items<Declared>, Refusal>
    ensures rule { LeavesAll (visit_declarators unit.now base.now decls.now locals.old tables.old) result locals.new tables.new }
    ensures outer { OnOk result (locals.new.outer ≡ locals.old.outer) }
{
    let mut declared = Items::new(alloc);
    for decl in decls {
        declared.push(declare_variable(alloc, unit, base, decl, locals, tables)?)?;
    }
    Ok(declared)
}

/// A declaration of locals of one type, as items of its block.
#[tactic(auto, unfolding(c_typing::specs::Statements::visit_declarators, c_typing::specs::Visits::followed, c_typing::specs::Visits::give), using(crate::proofs::BlockLaws::items_left))]
fn type_declared(
    alloc: Global,
    unit: &UnitScope,
    base: &Base,
    decls: &[LocalDecl],
    locals: &mut LocalScope,
    tables: &mut Tables,
) -> Result<Items<TypedItem>, Refusal>
    ensures rule { LeavesAll (items_behind [] (visit_declarators unit.now base.now decls.now locals.old tables.old)) result locals.new tables.new }
    ensures outer { OnOk result (locals.new.outer ≡ locals.old.outer) }
{
    let mut items = Items::new(alloc);
    for decl in decls {
        let declared = declare_variable(alloc, unit, base, decl, locals, tables)?;
        items.push(TypedItem::Declare(declared))?;
    }
    Ok(items)
}

/// One item of a block.
pub fn only(alloc: Global, item: TypedItem) -> Result<Items<TypedItem>, AllocError>
    ensures { IfOk result (λ xs. xs ≡ item ∷ []) }
{
    let mut items = Items::new(alloc);
    items.push(item)?;
    Ok(items)
}

/// A declaration of locals.
#[tactic(auto, unfolding(c_typing::specs::Visits::followed, c_typing::specs::Visits::give))]
pub fn type_local(
    alloc: Global,
    unit: &UnitScope,
    f: Enclosing,
    local: &Local,
    locals: &mut LocalScope,
    tables: &mut Tables,
) -> Result<Items<TypedItem>, Refusal>
    ensures rule { LeavesAll (visit_local unit.now f local.now locals.old tables.old) result locals.new tables.new }
    ensures outer { OnOk result (locals.new.outer ≡ locals.old.outer) }
{
    match local {
        Local::Declared(base, decls) => {
            let items = type_declared(alloc, unit, base, decls.as_slice(), locals, tables)?;
            Ok(items)
        }
        Local::VaList(_, name) => {
            let item = declare_list(alloc, unit, f, name, locals, tables)?;
            Ok(only(alloc, item)?)
        }
    }
}
