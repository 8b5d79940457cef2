//! Statements, items and units as lines.

use crate::parts::{
    push_base, push_decl, push_expr, push_init, push_minus, push_name, push_optional, push_stars,
    push_type,
};
use c_tree::{
    Base, BlockItem, Decl, Field, ForStart, FunctionHead, GlobalDecl, Item, Literal, Local,
    LocalDecl, Name, Param, Params, Stmt, Unit, height,
};
use c_types::Span;
use std::alloc::{AllocError, Global};
use std::fmt::Write;

fn push_locals(line: &mut String, base: &Base, decls: &[LocalDecl]) -> Result<(), AllocError> {
    line.push_str(" (local ")?;
    push_base(line, base)?;
    for local in decls {
        push_decl(line, &local.decl)?;
        if local.init.is_some() {
            line.push_str(" =")?;
        }
        push_optional(line, &local.init)?;
    }
    line.push(')')
}

fn push_start(line: &mut String, start: &ForStart) -> Result<(), AllocError> {
    match start {
        ForStart::Local(base, decls) => push_locals(line, base, decls.as_slice()),
        ForStart::Effect(e) => push_expr(line, e.get()),
        ForStart::Nothing => Ok(()),
    }
}

/// A word and two names, the second of which may be left out.
fn push_names(
    line: &mut String,
    word: &str,
    first: &Name,
    second: Option<&Name>,
) -> Result<(), AllocError> {
    line.push_str(word)?;
    line.push(' ')?;
    push_name(line, first)?;
    if let Some(name) = second {
        line.push(' ')?;
        push_name(line, name)?;
    }
    line.push(')')
}

/// A statement without statements in it, or what stands before the first in it.
fn push_front(line: &mut String, x: &Stmt) -> Result<(), AllocError> {
    match x {
        Stmt::Block(_, _) => line.push_str(" {"),
        Stmt::Empty(_) => line.push_str(" ;"),
        Stmt::Effect(e) => {
            push_expr(line, e.get())?;
            line.push(';')
        }
        Stmt::Break(_) => line.push_str(" break"),
        Stmt::Continue(_) => line.push_str(" continue"),
        Stmt::If(_, test, _) | Stmt::IfElse(_, test, _, _) => {
            line.push_str(" (if")?;
            push_expr(line, test.get())
        }
        Stmt::While(_, test, _) => {
            line.push_str(" (while")?;
            push_expr(line, test.get())
        }
        Stmt::Do(_, _, _) => line.push_str(" (do"),
        Stmt::For(_, start, test, step, _) => {
            line.push_str(" (for")?;
            push_start(line, start)?;
            line.push(';')?;
            push_optional(line, test)?;
            line.push(';')?;
            push_optional(line, step)
        }
        Stmt::Return(_, e) => {
            line.push_str(" (return")?;
            push_optional(line, e)?;
            line.push(')')
        }
        Stmt::VaStart(_, list, last) => push_names(line, " (va_start", list, Some(last)),
        Stmt::VaEnd(_, list) => push_names(line, " (va_end", list, None),
    }
}

#[cycle(stmts)]
fn push_stmt(line: &mut String, x: &Stmt) -> Result<(), AllocError> {
    push_front(line, x)?;
    match x {
        Stmt::Block(_, items) => {
            push_items(line, items.as_slice())?;
            line.push_str(" }")
        }
        Stmt::If(_, _, body) | Stmt::While(_, _, body) | Stmt::For(_, _, _, _, body) => {
            push_stmt(line, body.get())?;
            line.push(')')
        }
        Stmt::IfElse(_, _, yes, no) => {
            push_stmt(line, yes.get())?;
            line.push_str(" else")?;
            push_stmt(line, no.get())?;
            line.push(')')
        }
        Stmt::Do(_, body, test) => {
            push_stmt(line, body.get())?;
            push_expr(line, test.get())?;
            line.push(')')
        }
        _ => Ok(()),
    }
}

#[cycle(stmts)]
fn push_items(line: &mut String, items: &[BlockItem]) -> Result<(), AllocError> {
    for item in items {
        match item {
            BlockItem::Local(Local::Declared(base, decls)) => {
                push_locals(line, base, decls.as_slice())?;
            }
            BlockItem::Local(Local::VaList(_, name)) => push_names(line, " (va_list", name, None)?,
            BlockItem::Stmt(x) => push_stmt(line, x.get())?,
        }
    }
    Ok(())
}

fn push_param(line: &mut String, param: &Param) -> Result<(), AllocError> {
    line.push_str(" [")?;
    push_base(line, &param.base)?;
    push_stars(line, param.stars.as_slice())?;
    if let Some(name) = &param.name {
        line.push(' ')?;
        push_name(line, name)?;
    }
    line.push(']')
}

fn push_params(line: &mut String, params: &Params) -> Result<(), AllocError> {
    for param in params.list.as_slice() {
        push_param(line, param)?;
    }
    if params.ellipsis.is_some() {
        line.push_str(" ...")?;
    }
    Ok(())
}

fn push_head(line: &mut String, word: &str, head: &FunctionHead) -> Result<(), AllocError> {
    line.push_str(word)?;
    push_type(line, &head.result)?;
    line.push(' ')?;
    push_name(line, &head.name)?;
    push_params(line, &head.params)
}

fn push_decls(line: &mut String, decls: &[Decl]) -> Result<(), AllocError> {
    for decl in decls {
        push_decl(line, decl)?;
    }
    Ok(())
}

fn push_fields(line: &mut String, name: &Name, fields: &[Field]) -> Result<(), AllocError> {
    line.push_str(" (struct ")?;
    push_name(line, name)?;
    for field in fields {
        line.push_str(" [")?;
        push_base(line, &field.base)?;
        push_decls(line, field.decls.as_slice())?;
        line.push(']')?;
    }
    line.push(')')
}

fn push_globals(line: &mut String, base: &Base, decls: &[GlobalDecl]) -> Result<(), AllocError> {
    line.push_str(" (global ")?;
    push_base(line, base)?;
    for global in decls {
        push_decl(line, &global.decl)?;
        if let Some(init) = &global.init {
            line.push_str(" =")?;
            push_init(line, init.get())?;
        }
    }
    line.push(')')
}

fn push_adjustor(
    line: &mut String,
    names: (&Name, &Name),
    parameter: &Literal,
    minus: &Option<Span>,
    amount: &Literal,
) -> Result<(), AllocError> {
    line.push_str(" (adjustor ")?;
    push_name(line, names.0)?;
    line.push(' ')?;
    push_name(line, names.1)?;
    let number = parameter.value;
    write!(line, " {number} ")?;
    push_minus(line, minus)?;
    let value = amount.value;
    write!(line, "{value})")
}

fn push_item(line: &mut String, item: &Item) -> Result<(), AllocError> {
    match item {
        Item::Typedef(_, head) => {
            push_head(line, " (typedef ", head)?;
            line.push(')')
        }
        Item::Struct(_, name, fields) => push_fields(line, name, fields.as_slice()),
        Item::Extern(_, base, decl) => {
            line.push_str(" (extern ")?;
            push_base(line, base)?;
            push_decl(line, decl)?;
            line.push(')')
        }
        Item::Globals(base, decls) => push_globals(line, base, decls.as_slice()),
        Item::Declare(head) => {
            push_head(line, " (declare ", head)?;
            line.push(')')
        }
        Item::Define(head, _, items) => {
            push_head(line, " (define ", head)?;
            line.push_str(" {")?;
            push_items(line, items.as_slice())?;
            line.push_str(" })")
        }
        Item::Adjustor(_, a, b, parameter, minus, amount) => {
            push_adjustor(line, (a, b), parameter, minus, amount)
        }
    }
}

/// A unit, with its height.
pub fn line_of(alloc: Global, unit: &Unit) -> Result<String, AllocError> {
    let nodes = height(unit);
    let mut line = format!(in alloc; "height {nodes}:")?;
    for item in unit.items.as_slice() {
        push_item(&mut line, item)?;
    }
    Ok(line)
}
