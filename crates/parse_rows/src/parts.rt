//! Names, types, expressions and initial values as lines.

use c_tree::{Base, Decl, Expr, Init, Name, Selector, Step, TypeName};
use c_types::Span;
use hx_words::Boxed;
use std::alloc::AllocError;
use std::fmt::Write;

fn push_bytes(line: &mut String, bytes: &[u8]) -> Result<(), AllocError> {
    for byte in bytes {
        line.push(char::from(*byte))?;
    }
    Ok(())
}

pub fn push_name(line: &mut String, name: &Name) -> Result<(), AllocError> {
    push_bytes(line, name.text.as_slice())
}

pub fn push_stars(line: &mut String, stars: &[Span]) -> Result<(), AllocError> {
    for _star in stars {
        line.push('*')?;
    }
    Ok(())
}

pub fn push_base(line: &mut String, base: &Base) -> Result<(), AllocError> {
    match base {
        Base::Void(_) => line.push_str("void"),
        Base::Int(ty, _) => write!(line, "{ty:?}"),
        Base::Struct(_, name) => {
            line.push_str("struct ")?;
            push_name(line, name)
        }
        Base::Named(name) => push_name(line, name),
    }
}

pub fn push_type(line: &mut String, ty: &TypeName) -> Result<(), AllocError> {
    push_base(line, &ty.base)?;
    push_stars(line, ty.stars.as_slice())
}

pub fn push_decl(line: &mut String, decl: &Decl) -> Result<(), AllocError> {
    line.push(' ')?;
    push_stars(line, decl.stars.as_slice())?;
    push_name(line, &decl.name)?;
    for length in decl.lengths.as_slice() {
        let value = length.value;
        write!(line, "[{value}]")?;
    }
    Ok(())
}

/// What an operation is, or a leaf.
fn push_tag(line: &mut String, e: &Expr) -> Result<(), AllocError> {
    match e {
        Expr::Name(name) => push_name(line, name),
        Expr::Number(literal) => {
            let value = literal.value;
            write!(line, "{value}")
        }
        Expr::Char(value, _) => write!(line, "'{value}"),
        Expr::Paren(_, _) => line.push_str("paren"),
        Expr::VaArg(_, _, _) => line.push_str("va_arg"),
        Expr::Call(_, _, _) => line.push_str("call"),
        Expr::Index(_, _, _) => line.push_str("[]"),
        Expr::Select(_, Selector::Dot, _, _) => line.push('.'),
        Expr::Select(_, Selector::Arrow, _, _) => line.push_str("->"),
        Expr::PostIncrement(_, _) => line.push_str("++"),
        Expr::PostDecrement(_, _) => line.push_str("--"),
        Expr::Unary(operator, _, _) => write!(line, "{operator:?}"),
        Expr::Cast(_, ty, _, _) => write!(line, "cast {ty:?}"),
        Expr::SizeOf(_, _) => line.push_str("sizeof"),
        Expr::Binary(operator, _, _, _) => write!(line, "{operator:?}"),
        Expr::Conditional(_, _, _, _) => line.push('?'),
        Expr::Assign(operator, _, _, _) => write!(line, "{operator:?}="),
    }
}

/// What stands behind an operation and isn't an expression.
fn push_end(line: &mut String, e: &Expr) -> Result<(), AllocError> {
    match e {
        Expr::VaArg(_, name, ty) => {
            line.push(' ')?;
            push_name(line, name)?;
            line.push(' ')?;
            push_type(line, ty)
        }
        Expr::SizeOf(_, ty) => {
            line.push(' ')?;
            push_type(line, ty)
        }
        Expr::Select(_, _, _, name) => {
            line.push(' ')?;
            push_name(line, name)
        }
        _ => Ok(()),
    }
}

fn is_leaf(e: &Expr) -> bool {
    match e {
        Expr::Name(_) | Expr::Number(_) | Expr::Char(_, _) => true,
        _ => false,
    }
}

#[cycle(exprs)]
fn push_operands(line: &mut String, e: &Expr) -> Result<(), AllocError> {
    match e {
        Expr::Paren(_, part)
        | Expr::Unary(_, _, part)
        | Expr::Cast(_, _, _, part)
        | Expr::Select(part, _, _, _)
        | Expr::PostIncrement(part, _)
        | Expr::PostDecrement(part, _) => push_expr(line, part.get()),
        Expr::Call(function, _, arguments) => {
            push_expr(line, function.get())?;
            push_exprs(line, arguments.as_slice())
        }
        Expr::Index(left, _, right)
        | Expr::Binary(_, _, left, right)
        | Expr::Assign(_, _, left, right) => {
            push_expr(line, left.get())?;
            push_expr(line, right.get())
        }
        Expr::Conditional(test, _, left, right) => {
            push_expr(line, test.get())?;
            push_expr(line, left.get())?;
            push_expr(line, right.get())
        }
        _ => Ok(()),
    }
}

#[cycle(exprs)]
pub fn push_expr(line: &mut String, e: &Expr) -> Result<(), AllocError> {
    line.push(' ')?;
    if is_leaf(e) {
        return push_tag(line, e);
    }
    line.push('(')?;
    push_tag(line, e)?;
    push_operands(line, e)?;
    push_end(line, e)?;
    line.push(')')
}

#[cycle(exprs)]
fn push_exprs(line: &mut String, exprs: &[Expr]) -> Result<(), AllocError> {
    for e in exprs {
        push_expr(line, e)?;
    }
    Ok(())
}

pub fn push_optional(line: &mut String, e: &Option<Boxed<Expr>>) -> Result<(), AllocError> {
    match e {
        Some(e) => push_expr(line, e.get()),
        None => Ok(()),
    }
}

fn push_steps(line: &mut String, steps: &[Step]) -> Result<(), AllocError> {
    for step in steps {
        match step {
            Step::Field(_, name) => {
                line.push('.')?;
                push_name(line, name)?;
            }
            Step::Index(_, literal) => {
                let value = literal.value;
                write!(line, "[{value}]")?;
            }
        }
    }
    Ok(())
}

#[cycle(inits)]
pub fn push_init(line: &mut String, init: &Init) -> Result<(), AllocError> {
    line.push(' ')?;
    match init {
        Init::Number(minus, literal) => {
            push_minus(line, minus)?;
            let value = literal.value;
            write!(line, "{value}")
        }
        Init::Char(value, _) => write!(line, "'{value}"),
        Init::Text(bytes, _) => {
            line.push('"')?;
            push_bytes(line, bytes.as_slice())?;
            line.push('"')
        }
        Init::Name(address, name, steps) => {
            if address.is_some() {
                line.push('&')?;
            }
            push_name(line, name)?;
            push_steps(line, steps.as_slice())
        }
        Init::List(_, inits) => {
            line.push('{')?;
            push_inits(line, inits.as_slice())?;
            line.push_str(" }")
        }
    }
}

#[cycle(inits)]
fn push_inits(line: &mut String, inits: &[Init]) -> Result<(), AllocError> {
    for init in inits {
        push_init(line, init)?;
    }
    Ok(())
}

pub fn push_minus(line: &mut String, minus: &Option<Span>) -> Result<(), AllocError> {
    match minus {
        Some(_) => line.push('-'),
        None => Ok(()),
    }
}
