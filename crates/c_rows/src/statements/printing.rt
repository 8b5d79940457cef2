//! Typed statements as texts. A local is `L` with its number, the first parameter is `L0`.

use c_program::{Declared, ForBegin, Place, TypedExpr, TypedItem, TypedStmt};
use hx_words::Boxed;
use std::alloc::AllocError;
use std::fmt::Write;

fn show_place(line: &mut String, place: &Place) -> Result<(), AllocError> {
    match place {
        Place::Local(n) => write!(line, "L{n}"),
        _ => line.push_str("?"),
    }
}

fn show(line: &mut String, e: &TypedExpr) -> Result<(), AllocError> {
    match e {
        TypedExpr::Number(_, n) => write!(line, "{n}"),
        TypedExpr::Load(_, place) => show_place(line, place.get()),
        TypedExpr::Assign(_, place, value) => {
            show_place(line, place.get())?;
            line.push_str("=")?;
            show(line, value.get())
        }
        _ => line.push_str("?"),
    }
}

fn show_optional(
    line: &mut String,
    before: &str,
    e: &Option<Boxed<TypedExpr>>,
) -> Result<(), AllocError> {
    if let Some(e) = e {
        line.push_str(before)?;
        show(line, e.get())?;
    }
    Ok(())
}

/// `NAME(e)`
fn show_test(line: &mut String, name: &str, e: &TypedExpr) -> Result<(), AllocError> {
    line.push_str(name)?;
    line.push_str("(")?;
    show(line, e)?;
    line.push_str(")")
}

fn show_declared(line: &mut String, d: &Declared) -> Result<(), AllocError> {
    let (n, ty) = (d.local, d.ty);
    write!(line, "{ty:?} L{n}")?;
    show_optional(line, "=", &d.init)?;
    line.push_str(";")
}

fn show_begin(line: &mut String, begin: &ForBegin) -> Result<(), AllocError> {
    match begin {
        ForBegin::Locals(ds) => {
            for d in ds.as_slice() {
                show_declared(line, d)?;
            }
            Ok(())
        }
        ForBegin::Effect(e) => {
            show(line, e.get())?;
            line.push_str(";")
        }
        ForBegin::Nothing => line.push_str(";"),
    }
}

/// A statement without statements in it.
fn show_leaf(line: &mut String, x: &TypedStmt) -> Result<(), AllocError> {
    match x {
        TypedStmt::Empty => line.push_str(";"),
        TypedStmt::Effect(e) => {
            show(line, e.get())?;
            line.push_str(";")
        }
        TypedStmt::Break => line.push_str("break;"),
        TypedStmt::Continue => line.push_str("continue;"),
        TypedStmt::Return(e) => {
            line.push_str("return")?;
            show_optional(line, " ", e)?;
            line.push_str(";")
        }
        TypedStmt::VaStart => line.push_str("start;"),
        TypedStmt::VaEnd => line.push_str("end;"),
        _ => line.push_str("?"),
    }
}

#[cycle(printing)]
fn show_stmt(line: &mut String, x: &TypedStmt) -> Result<(), AllocError> {
    match x {
        TypedStmt::Block(items) => {
            line.push_str("{")?;
            show_items(line, items.as_slice())?;
            line.push_str("}")
        }
        TypedStmt::If(test, yes) => {
            show_test(line, "if", test.get())?;
            show_stmt(line, yes.get())
        }
        TypedStmt::IfElse(test, yes, no) => {
            show_test(line, "if", test.get())?;
            show_stmt(line, yes.get())?;
            line.push_str("else ")?;
            show_stmt(line, no.get())
        }
        TypedStmt::While(test, body) => {
            show_test(line, "while", test.get())?;
            show_stmt(line, body.get())
        }
        TypedStmt::Do(body, test) => {
            line.push_str("do ")?;
            show_stmt(line, body.get())?;
            show_test(line, "while", test.get())?;
            line.push_str(";")
        }
        TypedStmt::For(begin, test, step, body) => {
            line.push_str("for(")?;
            show_begin(line, begin)?;
            show_optional(line, "", test)?;
            line.push_str(";")?;
            show_optional(line, "", step)?;
            line.push_str(")")?;
            show_stmt(line, body.get())
        }
        _ => show_leaf(line, x),
    }
}

#[cycle(printing)]
pub fn show_items(line: &mut String, items: &[TypedItem]) -> Result<(), AllocError> {
    for item in items {
        match item {
            TypedItem::Declare(d) => show_declared(line, d)?,
            TypedItem::VaList => line.push_str("list;")?,
            TypedItem::Stmt(x) => show_stmt(line, x.get())?,
        }
    }
    Ok(())
}
