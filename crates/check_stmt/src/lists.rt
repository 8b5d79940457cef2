ghost use Rattle.std.specs.Prelude.{◌≡◌, OnOk};
ghost use Rattle.c_typing.specs.Statements.{enter_list, visit_list, started, ended, is_last};
ghost use Rattle.c_typing.specs.Expressions.{list_of};
ghost use Rattle.check_decls.specs.Steps.{LeavesOne};
ghost use Rattle.c_typing.specs.Visits.{Leaves, Tells};
ghost use Rattle.c_typing.specs.Scopes.{local_meaning, named};

use c_program::{TypedItem, TypedStmt};
use c_tree::Name;
use c_typing::{
    Designated, Enclosing, LocalMeaning, LocalScope, Refusal, Tables, TypeKind, UnitScope,
};
use check_decls::{check_free, declare_local};
use check_types::{designated_name, find_local, refusal};
use std::alloc::Global;

/// The one `va_list` of a function that more arguments can follow.
#[tactic(auto, unfolding(c_typing::specs::Statements::enter_list))]
fn enter(f: Enclosing, at: u32, tables: &mut Tables) -> Result<(), Refusal>
    ensures { Leaves (enter_list f at tables.old) result tables.new }
{
    if !f.variadic || tables.has_list {
        return Err(refusal(TypeKind::Variadic, at));
    }
    tables.has_list = true;
    Ok(())
}

/// A declaration of the `va_list`.
#[tactic(auto, unfolding(c_typing::specs::Statements::visit_list, c_typing::specs::Visits::followed, c_typing::specs::Visits::give))]
pub fn declare_list(
    alloc: Global,
    unit: &UnitScope,
    f: Enclosing,
    name: &Name,
    locals: &mut LocalScope,
    tables: &mut Tables,
) -> Result<TypedItem, Refusal>
    ensures rule { LeavesOne (visit_list unit.now f name.now locals.old tables.old) result locals.new tables.new }
    ensures outer { OnOk result (locals.new.outer ≡ locals.old.outer) }
{
    check_free(unit, locals, name, tables)?;
    enter(f, name.span.start, tables)?;
    declare_local(alloc, name.text.as_slice(), LocalMeaning::VaList, locals)?;
    Ok(TypedItem::VaList)
}

/// A name that must be that of a `va_list` (C11, 7.16.1).
fn check_list(at: u32, name: Option<Designated>) -> Result<(), Refusal>
    ensures { Tells (list_of at name) result }
{
    match name {
        None => Err(refusal(TypeKind::Unknown, at)),
        Some(Designated::VaList) => Ok(()),
        Some(_) => Err(refusal(TypeKind::Mismatch, at)),
    }
}

fn is_last_parameter(f: Enclosing, meaning: Option<LocalMeaning>) -> bool
    ensures { result ≡ is_last f meaning }
{
    match meaning {
        Some(LocalMeaning::Variable(n, _)) => n == f.parameters.saturating_sub(1),
        Some(LocalMeaning::VaList) => false,
        None => false,
    }
}

/// `va_start ( list , last ) ;` (C11, 7.16.1.4).
#[tactic(auto, unfolding(c_typing::specs::Statements::started))]
pub fn start_list(
    alloc: Global,
    unit: &UnitScope,
    f: Enclosing,
    locals: &LocalScope,
    at: u32,
    list: &Name,
    last: &Name,
) -> Result<TypedStmt, Refusal>
    ensures { Tells (started unit.now f locals.now at list.now last.now) result }
{
    let list = designated_name(alloc, unit, locals, list.text.as_slice())?;
    if list.is_none() || designated_name(alloc, unit, locals, last.text.as_slice())?.is_none() {
        return Err(refusal(TypeKind::Unknown, at));
    }
    check_list(at, list)?;
    if !is_last_parameter(f, find_local(locals, last.text.as_slice())) {
        return Err(refusal(TypeKind::Variadic, at));
    }
    Ok(TypedStmt::VaStart)
}

/// `va_end ( list ) ;`
#[tactic(auto, unfolding(c_typing::specs::Statements::ended))]
pub fn end_list(
    alloc: Global,
    unit: &UnitScope,
    locals: &LocalScope,
    at: u32,
    list: &Name,
) -> Result<TypedStmt, Refusal>
    ensures { Tells (ended unit.now locals.now at list.now) result }
{
    let list = designated_name(alloc, unit, locals, list.text.as_slice())?;
    check_list(at, list)?;
    Ok(TypedStmt::VaEnd)
}
