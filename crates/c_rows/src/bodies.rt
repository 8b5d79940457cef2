//! Small bodies, with their trees or the places where they are refused, worked out by hand from C.

use c_lex::lex;
use c_tree::{Base, BlockItem, Decl, Expr, ForStart, Local, LocalDecl, Name, Stmt};
use hx_words::Boxed;
use parse_stmt::{Body, Capped, begin_body, step_body};
use parse_terms::{Verdict, to_terminal};
use std::alloc::{AllocError, Global};
use std::fmt::Write;
use std::process::Abort;
use std::test::Fail;

/// The text behind a body's `{`, and its tree; or the place of the first token that cannot follow.
type Case = (&'static [u8], &'static str);

/// Locals and effects.
static LOCALS: [Case; 22] = [
    (b"}", "height 0:"),
    (b"int x; }", "height 2: (local I32 x)"),
    (
        b"int *p, a[3][4], x = 1; }",
        "height 2: (local I32 *p a[3][4] x = 1)",
    ),
    (
        b"unsigned long long x = y = 2; }",
        "height 3: (local U64 x = (Set y 2))",
    ),
    (
        b"struct s *p; void *q; }",
        "height 2: (local struct s *p) (local void *q)",
    ),
    (
        b"t x; t *p; t **q = r; }",
        "height 2: (local t x) (local t *p) (local t **q = r)",
    ),
    (
        b"va_list ap; va_start(ap, n); va_end(ap); }",
        "height 1: (va_list ap) (va_start ap n) (va_end ap)",
    ),
    (
        b"x = y; x(y, 1); x++; --x; }",
        "height 3: (Set x y); (call x y 1); (++ x); (Decrement x);",
    ),
    (
        b"*x = 1; 5 = x; }",
        "height 4: (Set (Indirect x) 1); (Set 5 x);",
    ),
    (
        b"x[1] = t * u; }",
        "height 4: (Set ([] x 1) (Multiply t u));",
    ),
    (b"x + y; }", "refused at 2"),
    (b"x; }", "refused at 1"),
    (b"(x = 1); }", "refused at 7"),
    (b"x ? y : z; }", "refused at 2"),
    (b"t * u = v, w; }", "height 2: (local t *u = v w)"),
    (b"x = 1, y = 2; }", "refused at 5"),
    (b"int; }", "refused at 3"),
    (b"int x }", "refused at 6"),
    (b"int x = ; }", "refused at 8"),
    (b"int x[n]; }", "refused at 6"),
    (b"va_list ap, bp; }", "refused at 10"),
    (b"typedef int t; }", "refused at 0"),
];

/// Statements, and the nearest `if`.
static STATEMENTS: [Case; 28] = [
    (
        b"; {} { ; int x; } }",
        "height 3: ; { } { ; (local I32 x) }",
    ),
    (
        b"return; return x + 1; }",
        "height 3: (return) (return (Add x 1))",
    ),
    (b"if (a) b(); }", "height 4: (if a (call b);)"),
    (b"if (a) ; else ; }", "height 2: (if a ; else ;)"),
    (
        b"if (a) if (b) ; else ; }",
        "height 3: (if a (if b ; else ;))",
    ),
    (
        b"if (a) if (b) ; else ; else ; }",
        "height 3: (if a (if b ; else ;) else ;)",
    ),
    (
        b"if (a) { if (b) ; } else ; }",
        "height 4: (if a { (if b ;) } else ;)",
    ),
    (
        b"if (a) while (b) if (c) ; else ; }",
        "height 4: (if a (while b (if c ; else ;)))",
    ),
    (
        b"if (a) ; else if (b) ; else ; x(); }",
        "height 3: (if a ; else (if b ; else ;)) (call x);",
    ),
    (
        b"if (a) do ; while (b); else ; }",
        "height 3: (if a (do ; b) else ;)",
    ),
    (b"do if (a) ; while (b); }", "height 3: (do (if a ;) b)"),
    (
        b"while (x = y) { break; continue; } }",
        "height 3: (while (Set x y) { break continue })",
    ),
    (b"for (;;) ; }", "height 2: (for;; ;)"),
    (
        b"for (i = 0; i; i++) ; }",
        "height 3: (for (Set i 0); i; (++ i) ;)",
    ),
    (
        b"for (int i = 0, j; ; f()) ; }",
        "height 3: (for (local I32 i = 0 j);; (call f) ;)",
    ),
    (
        b"for (t *p; p; ) return p; }",
        "height 3: (for (local t *p); p; (return p))",
    ),
    (b"for (va_list ap; ;) ; }", "refused at 5"),
    (b"for (x; ;) ; }", "refused at 6"),
    (b"for (i = 0) ; }", "refused at 10"),
    (b"for (; ; i) ; }", "refused at 10"),
    (b"for (int i, j ;) ; }", "refused at 15"),
    (b"if (a) int x; }", "refused at 7"),
    (b"if (a) t x; }", "refused at 9"),
    (b"else ; }", "refused at 0"),
    (b"if a ; }", "refused at 3"),
    (b"do ; while (a) }", "refused at 15"),
    (b"while () ; }", "refused at 7"),
    (b"{ ; ", "open"),
];

/// The bytes as characters.
fn push_name(line: &mut String, name: &Name) -> Result<(), AllocError> {
    for byte in name.text.as_slice() {
        line.push(char::from(*byte))?;
    }
    Ok(())
}

/// A name, a number, or what an operation is.
fn push_tag(line: &mut String, e: &Expr) -> Result<(), AllocError> {
    match e {
        Expr::Name(name) => push_name(line, name),
        Expr::Number(literal) => {
            let value = literal.value;
            write!(line, "{value}")
        }
        Expr::Call(_, _, _) => line.push_str("call"),
        Expr::Index(_, _, _) => line.push_str("[]"),
        Expr::PostIncrement(_, _) => line.push_str("++"),
        Expr::Unary(operator, _, _) => write!(line, "{operator:?}"),
        Expr::Binary(operator, _, _, _) => write!(line, "{operator:?}"),
        Expr::Assign(operator, _, _, _) => write!(line, "{operator:?}"),
        _ => line.push('?'),
    }
}

#[cycle(exprs)]
fn push_expr(line: &mut String, e: &Expr) -> Result<(), AllocError> {
    line.push(' ')?;
    match e {
        Expr::Index(left, _, right)
        | Expr::Binary(_, _, left, right)
        | Expr::Assign(_, _, left, right) => {
            line.push('(')?;
            push_tag(line, e)?;
            push_expr(line, left.get())?;
            push_expr(line, right.get())?;
            line.push(')')
        }
        Expr::Unary(_, _, part) | Expr::PostIncrement(part, _) => {
            line.push('(')?;
            push_tag(line, e)?;
            push_expr(line, part.get())?;
            line.push(')')
        }
        Expr::Call(function, _, arguments) => {
            line.push('(')?;
            push_tag(line, e)?;
            push_expr(line, function.get())?;
            push_exprs(line, arguments.as_slice())?;
            line.push(')')
        }
        leaf => push_tag(line, leaf),
    }
}

#[cycle(exprs)]
fn push_exprs(line: &mut String, exprs: &[Expr]) -> Result<(), AllocError> {
    for e in exprs {
        push_expr(line, e)?;
    }
    Ok(())
}

fn push_optional(line: &mut String, e: &Option<Boxed<Expr>>) -> Result<(), AllocError> {
    match e {
        Some(e) => push_expr(line, e.get()),
        None => Ok(()),
    }
}

fn push_base(line: &mut String, base: &Base) -> Result<(), AllocError> {
    match base {
        Base::Void(_) => line.push_str("void"),
        Base::Int(ty, _) => write!(line, "{ty:?}"),
        Base::Struct(_, name) => {
            line.push_str("struct ")?;
            push_name(line, name)
        }
        Base::Named(name) => push_name(line, name),
    }
}

fn push_decl(line: &mut String, decl: &Decl) -> Result<(), AllocError> {
    for _star in decl.stars.as_slice() {
        line.push('*')?;
    }
    push_name(line, &decl.name)?;
    for length in decl.lengths.as_slice() {
        let value = length.value;
        write!(line, "[{value}]")?;
    }
    Ok(())
}

fn push_locals(line: &mut String, base: &Base, decls: &[LocalDecl]) -> Result<(), AllocError> {
    line.push_str(" (local ")?;
    push_base(line, base)?;
    for local in decls {
        line.push(' ')?;
        push_decl(line, &local.decl)?;
        if local.init.is_some() {
            line.push_str(" =")?;
        }
        push_optional(line, &local.init)?;
    }
    line.push(')')
}

fn push_start(line: &mut String, start: &ForStart) -> Result<(), AllocError> {
    match start {
        ForStart::Local(base, decls) => push_locals(line, base, decls.as_slice()),
        ForStart::Effect(e) => push_expr(line, e.get()),
        ForStart::Nothing => Ok(()),
    }
}

/// A word and two names, the second of which may be left out.
fn push_names(
    line: &mut String,
    word: &str,
    first: &Name,
    second: Option<&Name>,
) -> Result<(), AllocError> {
    line.push_str(word)?;
    line.push(' ')?;
    push_name(line, first)?;
    if let Some(name) = second {
        line.push(' ')?;
        push_name(line, name)?;
    }
    line.push(')')
}

/// A statement without statements in it, or what stands before the first in it.
fn push_head(line: &mut String, x: &Stmt) -> Result<(), AllocError> {
    match x {
        Stmt::Block(_, _) => line.push_str(" {"),
        Stmt::Empty(_) => line.push_str(" ;"),
        Stmt::Effect(e) => {
            push_expr(line, e.get())?;
            line.push(';')
        }
        Stmt::Break(_) => line.push_str(" break"),
        Stmt::Continue(_) => line.push_str(" continue"),
        Stmt::If(_, test, _) | Stmt::IfElse(_, test, _, _) => {
            line.push_str(" (if")?;
            push_expr(line, test.get())
        }
        Stmt::While(_, test, _) => {
            line.push_str(" (while")?;
            push_expr(line, test.get())
        }
        Stmt::Do(_, _, _) => line.push_str(" (do"),
        Stmt::For(_, start, test, step, _) => {
            line.push_str(" (for")?;
            push_start(line, start)?;
            line.push(';')?;
            push_optional(line, test)?;
            line.push(';')?;
            push_optional(line, step)
        }
        Stmt::Return(_, e) => {
            line.push_str(" (return")?;
            push_optional(line, e)?;
            line.push(')')
        }
        Stmt::VaStart(_, list, last) => push_names(line, " (va_start", list, Some(last)),
        Stmt::VaEnd(_, list) => push_names(line, " (va_end", list, None),
    }
}

#[cycle(stmts)]
fn push_stmt(line: &mut String, x: &Stmt) -> Result<(), AllocError> {
    push_head(line, x)?;
    match x {
        Stmt::Block(_, items) => {
            push_items(line, items.as_slice())?;
            line.push_str(" }")
        }
        Stmt::If(_, _, body) | Stmt::While(_, _, body) | Stmt::For(_, _, _, _, body) => {
            push_stmt(line, body.get())?;
            line.push(')')
        }
        Stmt::IfElse(_, _, yes, no) => {
            push_stmt(line, yes.get())?;
            line.push_str(" else")?;
            push_stmt(line, no.get())?;
            line.push(')')
        }
        Stmt::Do(_, body, test) => {
            push_stmt(line, body.get())?;
            push_expr(line, test.get())?;
            line.push(')')
        }
        _ => Ok(()),
    }
}

#[cycle(stmts)]
fn push_items(line: &mut String, items: &[BlockItem]) -> Result<(), AllocError> {
    for item in items {
        match item {
            BlockItem::Local(Local::Declared(base, decls)) => {
                push_locals(line, base, decls.as_slice())?;
            }
            BlockItem::Local(Local::VaList(_, name)) => push_names(line, " (va_list", name, None)?,
            BlockItem::Stmt(x) => push_stmt(line, x.get())?,
        }
    }
    Ok(())
}

fn line_of(alloc: Global, body: &Body) -> Result<String, AllocError> {
    let Capped::Built(items, height) = body else {
        return String::from_str(alloc, "too high");
    };
    let mut line = format!(in alloc; "height {height}:")?;
    push_items(&mut line, items.as_slice())?;
    Ok(line)
}

fn told(alloc: Global, text: &[u8]) -> Result<String, AllocError> {
    if text.len() > 1_048_576 {
        return String::from_str(alloc, "too long");
    }
    let Ok(tokens) = lex(alloc, text) else {
        return String::from_str(alloc, "no tokens");
    };
    let mut state = begin_body(alloc);
    for token in tokens.as_slice() {
        let terminal = to_terminal(alloc, token)?;
        match step_body(alloc, &terminal, &mut state)? {
            Verdict::More => {}
            Verdict::Done(body) => return line_of(alloc, &body),
            Verdict::Bad => {
                let start = token.span.start;
                return format!(in alloc; "refused at {start}");
            }
        }
    }
    String::from_str(alloc, "open")
}

fn check(rt: &impl Abort, alloc: Global, cases: &[Case]) -> Result<(), AllocError> {
    for (text, want) in cases {
        let line = told(alloc, text)?;
        assert_eq!(rt; line.as_str(), *want, "at {text:?}");
    }
    Ok(())
}

/// Blocks in one another, of which the innermost holds an empty statement.
fn nested(alloc: Global, blocks: u32) -> Result<Vec<u8>, AllocError> {
    let mut text = Vec::new(alloc);
    for _ in 0..blocks {
        text.push(b'{')?;
    }
    text.push(b';')?;
    for _ in 0..blocks {
        text.push(b'}')?;
    }
    text.push(b'}')?;
    Ok(text)
}

#[test]
fn small_bodies(rt: HostRuntime) -> Result<(), Fail> {
    check(&rt, rt.alloc(), &LOCALS)?;
    check(&rt, rt.alloc(), &STATEMENTS)?;
    Ok(())
}

/// 255 blocks over a statement are 256 nodes on a path; one more is too high, and 20,000 overflow
/// nothing.
#[test]
fn high_bodies(rt: HostRuntime) -> Result<(), Fail> {
    let alloc = rt.alloc();
    let most = told(alloc, nested(alloc, 255)?.as_slice())?;
    assert!(rt; most.as_str().starts_with("height 256: { { {"));
    let more = told(alloc, nested(alloc, 256)?.as_slice())?;
    assert_eq!(rt; more.as_str(), "too high");
    let deep = told(alloc, nested(alloc, 20_000)?.as_slice())?;
    assert_eq!(rt; deep.as_str(), "too high");
    Ok(())
}
