//! Trees of statements, written as letters. A letter is one thing of a block, at the letter's place in
//! the text, and some are built from the statements right before them:
//!
//! `{` and `}` stand round a block, `;` is the empty statement, `b` is `break;`, `c` is `continue;`,
//! `r` is `return;`, `R` is `return p;`, `S` is `return s;`, `e` is `p = 1;`, `x` is `i = 1;`, `v` is
//! `int i;`, `V` is `int i = i;`, `l` is `va_list l;`, `a` is `va_start(l, p);`, `A` is
//! `va_start(l, i);`, `B` is `va_start(p, p);`, `z` is `va_end(l);`.
//!
//! Of the statement X before them, `i` is `if (p) X`, `w` is `while (p) X`, `W` is `while (s) X`, `d`
//! is `do X while (p);`, `f` is `for (int i = 0; i; i = 0) X` and `F` is `for (; s;) X`; of two, `I` is
//! `if (p) X else Y`.

use c_tree::{
    AssignOp, Base, BlockItem, Decl, Expr, ForStart, Literal, Local, LocalDecl, Name, Stmt,
};
use c_types::{IntTy, Span};
use hx_words::{Boxed, Items};
use std::alloc::{AllocError, Global};
use std::mem;

fn name(alloc: Global, text: &[u8], at: Span) -> Result<Name, AllocError> {
    let text = Items::from_slice(alloc, text)?;
    Ok(Name { text, span: at })
}

fn variable(alloc: Global, text: &[u8], at: Span) -> Result<Boxed<Expr>, AllocError> {
    let name = name(alloc, text, at)?;
    Boxed::new(alloc, Expr::Name(name))
}

fn number(alloc: Global, value: u64, at: Span) -> Result<Boxed<Expr>, AllocError> {
    let ty = IntTy::I32;
    let n = Literal {
        value,
        ty,
        span: at,
    };
    Boxed::new(alloc, Expr::Number(n))
}

/// `NAME = VALUE`
fn set(alloc: Global, text: &[u8], value: u64, at: Span) -> Result<Boxed<Expr>, AllocError> {
    let left = variable(alloc, text, at)?;
    let right = number(alloc, value, at)?;
    Boxed::new(alloc, Expr::Assign(AssignOp::Set, at, left, right))
}

/// The declarator `i` with an initial value.
fn declarators(
    alloc: Global,
    init: Option<Boxed<Expr>>,
    at: Span,
) -> Result<Items<LocalDecl>, AllocError> {
    let decl = Decl {
        stars: Items::new(alloc),
        name: name(alloc, b"i", at)?,
        lengths: Items::new(alloc),
    };
    let mut decls = Items::new(alloc);
    decls.push(LocalDecl { decl, init })?;
    Ok(decls)
}

fn int(at: Span) -> Base {
    Base::Int(IntTy::I32, at)
}

fn local(alloc: Global, letter: u8, at: Span) -> Result<Option<Local>, AllocError> {
    let init = match letter {
        b'v' => None,
        b'V' => Some(variable(alloc, b"i", at)?),
        b'l' => {
            let list = name(alloc, b"l", at)?;
            return Ok(Some(Local::VaList(at, list)));
        }
        _ => return Ok(None),
    };
    let decls = declarators(alloc, init, at)?;
    Ok(Some(Local::Declared(int(at), decls)))
}

/// A statement that has no statement before it.
fn leaf(alloc: Global, letter: u8, at: Span) -> Result<Option<Stmt>, AllocError> {
    let x = match letter {
        b';' => Stmt::Empty(at),
        b'b' => Stmt::Break(at),
        b'c' => Stmt::Continue(at),
        b'r' => Stmt::Return(at, None),
        b'R' => Stmt::Return(at, Some(variable(alloc, b"p", at)?)),
        b'S' => Stmt::Return(at, Some(variable(alloc, b"s", at)?)),
        b'e' => Stmt::Effect(set(alloc, b"p", 1, at)?),
        b'x' => Stmt::Effect(set(alloc, b"i", 1, at)?),
        b'a' => Stmt::VaStart(at, name(alloc, b"l", at)?, name(alloc, b"p", at)?),
        b'A' => Stmt::VaStart(at, name(alloc, b"l", at)?, name(alloc, b"i", at)?),
        b'B' => Stmt::VaStart(at, name(alloc, b"p", at)?, name(alloc, b"p", at)?),
        b'z' => Stmt::VaEnd(at, name(alloc, b"l", at)?),
        _ => return Ok(None),
    };
    Ok(Some(x))
}

/// `for (int i = 0; i; i = 0) X`
fn counted(alloc: Global, at: Span, x: Boxed<Stmt>) -> Result<Stmt, AllocError> {
    let zero = number(alloc, 0, at)?;
    let decls = declarators(alloc, Some(zero), at)?;
    let test = variable(alloc, b"i", at)?;
    let step = set(alloc, b"i", 0, at)?;
    Ok(Stmt::For(
        at,
        ForStart::Local(int(at), decls),
        Some(test),
        Some(step),
        x,
    ))
}

/// A statement of the one before it.
fn around(alloc: Global, letter: u8, at: Span, x: Boxed<Stmt>) -> Result<Stmt, AllocError> {
    let p = variable(alloc, b"p", at)?;
    let s = variable(alloc, b"s", at)?;
    Ok(match letter {
        b'i' => Stmt::If(at, p, x),
        b'w' => Stmt::While(at, p, x),
        b'W' => Stmt::While(at, s, x),
        b'd' => Stmt::Do(at, x, p),
        b'f' => counted(alloc, at, x)?,
        b'F' => Stmt::For(at, ForStart::Nothing, Some(s), None, x),
        _ => Stmt::Empty(at),
    })
}

/// The statement that was read last; the empty one where there is none.
fn last(alloc: Global, block: &mut Items<BlockItem>, at: Span) -> Result<Boxed<Stmt>, AllocError> {
    if let Some(BlockItem::Stmt(x)) = block.pop() {
        return Ok(x);
    }
    Boxed::new(alloc, Stmt::Empty(at))
}

fn add(alloc: Global, block: &mut Items<BlockItem>, x: Stmt) -> Result<(), AllocError> {
    let x = Boxed::new(alloc, x)?;
    block.push(BlockItem::Stmt(x))
}

fn read(
    alloc: Global,
    letter: u8,
    at: Span,
    block: &mut Items<BlockItem>,
) -> Result<(), AllocError> {
    if let Some(x) = local(alloc, letter, at)? {
        return block.push(BlockItem::Local(x));
    }
    if let Some(x) = leaf(alloc, letter, at)? {
        return add(alloc, block, x);
    }
    let x = last(alloc, block, at)?;
    if letter == b'I' {
        let before = last(alloc, block, at)?;
        let p = variable(alloc, b"p", at)?;
        return add(alloc, block, Stmt::IfElse(at, p, before, x));
    }
    let x = around(alloc, letter, at, x)?;
    add(alloc, block, x)
}

/// What a text of letters stands for.
pub fn block_of(alloc: Global, text: &[u8]) -> Result<Items<BlockItem>, AllocError> {
    let mut block = Items::new(alloc);
    let mut outer = Items::new(alloc);
    let mut place = 0u32;
    for letter in text {
        let at = Span {
            start: place,
            end: place,
        };
        match *letter {
            b'{' => outer.push(mem::replace(&mut block, Items::new(alloc)))?,
            b'}' => {
                let inner = mem::replace(&mut block, Items::new(alloc));
                if let Some(before) = outer.pop() {
                    block = before;
                }
                add(alloc, &mut block, Stmt::Block(at, inner))?;
            }
            letter => read(alloc, letter, at, &mut block)?,
        }
        place = place.saturating_add(1);
    }
    Ok(block)
}
