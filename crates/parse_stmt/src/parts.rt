ghost use Rattle.std.specs.Prelude.{◌≡◌, max, IfOk};
ghost use Rattle.parse_stmt.specs.StmtParts.{merged, at_least_one, leaf_part, of_part, no_items, no_decls, no_part, some_part, with_decl, with_stmt, with_locals, with_va_list, start_locals, start_of, start_part, for_head, block_part, effect_part, return_part, if_part, if_else_part, while_part, do_part, for_part};

use c_tree::{Base, BlockItem, Decl, Expr, ForStart, Local, LocalDecl, Name, Stmt};
use c_types::Span;
use hx_words::{Boxed, Items};
use parse_expr::{MOST, Part};
use std::alloc::{AllocError, Global};

/// A tree and its height, at most [`MOST`]; or one that was given up.
#[derive(Drop)]
pub enum Capped<T> {
    Built(T, u32),
    Deep,
}

pub type ExprPart = Capped<Boxed<Expr>>;

pub type OptionPart = Capped<Option<Boxed<Expr>>>;

pub type DeclsPart = Capped<Items<LocalDecl>>;

pub type StmtPart = Capped<Boxed<Stmt>>;

/// What a block or a function's body holds, with the largest of the heights.
pub type Body = Capped<Items<BlockItem>>;

/// What stands in the parentheses of a `for`.
#[derive(Drop)]
pub struct ForHead {
    pub start: ForStart,
    pub test: Option<Boxed<Expr>>,
    pub step: Option<Boxed<Expr>>,
}

/// Two trees side by side.
fn merge<A: Drop, B: Drop>(left: Capped<A>, right: Capped<B>) -> Capped<(A, B)>
    ensures { result ≡ merged (λ x y. (x, y)) left right }
{
    match (left, right) {
        (Capped::Built(x, m), Capped::Built(y, n)) => Capped::Built((x, y), m.max(n)),
        _ => Capped::Deep,
    }
}

/// An expression, whatever it is.
pub fn as_capped(part: Part) -> ExprPart
    ensures { result ≡ of_part part }
{
    match part {
        Part::Built(e, height) => Capped::Built(e, height),
        Part::Deep(_) => Capped::Deep,
    }
}

/// A statement without parts.
pub fn make_leaf(alloc: Global, x: Stmt) -> Result<StmtPart, AllocError>
    ensures { IfOk result (λ r. r ≡ leaf_part x) }
{
    Ok(Capped::Built(Boxed::new(alloc, x)?, 1))
}

pub fn empty_items(alloc: Global) -> Body
    ensures { result ≡ no_items }
{
    Capped::Built(Items::new(alloc), 0)
}

pub fn empty_decls(alloc: Global) -> DeclsPart
    ensures { result ≡ no_decls }
{
    Capped::Built(Items::new(alloc), 0)
}

pub fn absent() -> OptionPart
    ensures { result ≡ no_part }
{
    Capped::Built(None, 0)
}

#[tactic(auto, unfolding(crate::specs::StmtParts::some_part))]
pub fn present(part: ExprPart) -> OptionPart
    ensures { result ≡ some_part part }
{
    match part {
        Capped::Built(e, height) => Capped::Built(Some(e), height),
        Capped::Deep => Capped::Deep,
    }
}

/// Declarators and one more.
#[tactic(auto, unfolding(crate::specs::StmtParts::with_decl))]
pub fn add_decl(decls: DeclsPart, decl: Decl, init: OptionPart) -> Result<DeclsPart, AllocError>
    ensures { IfOk result (λ r. r ≡ with_decl decls decl init) }
{
    match merge(decls, init) {
        Capped::Built((decls, init), height) => {
            let mut decls = decls;
            decls.push(LocalDecl { decl, init })?;
            Ok(Capped::Built(decls, height.max(1)))
        }
        Capped::Deep => Ok(Capped::Deep),
    }
}

/// A block's items and a statement.
#[tactic(auto, unfolding(crate::specs::StmtParts::with_stmt))]
pub fn add_stmt(items: Body, x: StmtPart) -> Result<Body, AllocError>
    ensures { IfOk result (λ r. r ≡ with_stmt items x) }
{
    match merge(items, x) {
        Capped::Built((items, x), height) => {
            let mut items = items;
            items.push(BlockItem::Stmt(x))?;
            Ok(Capped::Built(items, height))
        }
        Capped::Deep => Ok(Capped::Deep),
    }
}

/// A block's items and locals.
#[tactic(auto, unfolding(crate::specs::StmtParts::with_locals))]
pub fn add_locals(base: Base, decls: DeclsPart, items: Body) -> Result<Body, AllocError>
    ensures { IfOk result (λ r. r ≡ with_locals 256 base decls items) }
{
    let Capped::Built(decls, m) = decls else {
        return Ok(Capped::Deep);
    };
    let Capped::Built(items, n) = items else {
        return Ok(Capped::Deep);
    };
    if m < MOST {
        let mut items = items;
        items.push(BlockItem::Local(Local::Declared(base, decls)))?;
        Ok(Capped::Built(items, n.max(m + 1)))
    } else {
        Ok(Capped::Deep)
    }
}

/// A block's items and a `va_list`.
#[tactic(auto, unfolding(crate::specs::StmtParts::with_va_list))]
pub fn add_va_list(at: Span, name: Name, items: Body) -> Result<Body, AllocError>
    ensures { IfOk result (λ r. r ≡ with_va_list at name items) }
{
    match items {
        Capped::Built(items, height) => {
            let mut items = items;
            items.push(BlockItem::Local(Local::VaList(at, name)))?;
            Ok(Capped::Built(items, height.max(1)))
        }
        Capped::Deep => Ok(Capped::Deep),
    }
}

/// The locals of a `for`.
#[tactic(auto, unfolding(crate::specs::StmtParts::start_locals))]
pub fn start_with_locals(base: Base, decls: DeclsPart) -> Capped<ForStart>
    ensures { result ≡ start_locals 256 base decls }
{
    match decls {
        Capped::Built(decls, height) if height < MOST => {
            Capped::Built(ForStart::Local(base, decls), height + 1)
        }
        _ => Capped::Deep,
    }
}

fn as_start(e: Option<Boxed<Expr>>) -> ForStart
    ensures { result ≡ start_of e }
{
    match e {
        Some(e) => ForStart::Effect(e),
        None => ForStart::Nothing,
    }
}

/// The effect of a `for` before its first `;`, if there is one.
#[tactic(auto, unfolding(crate::specs::StmtParts::start_part))]
pub fn start_with_effect(part: OptionPart) -> Capped<ForStart>
    ensures { result ≡ start_part part }
{
    match part {
        Capped::Built(e, height) => Capped::Built(as_start(e), height),
        Capped::Deep => Capped::Deep,
    }
}

#[tactic(auto, unfolding(crate::specs::StmtParts::for_head))]
pub fn make_head(start: Capped<ForStart>, test: OptionPart, step: OptionPart) -> Capped<ForHead>
    ensures { result ≡ for_head start test step }
{
    match merge(start, merge(test, step)) {
        Capped::Built((start, (test, step)), height) => {
            Capped::Built(ForHead { start, test, step }, height)
        }
        Capped::Deep => Capped::Deep,
    }
}

#[tactic(auto, unfolding(crate::specs::StmtParts::block_part))]
pub fn make_block(alloc: Global, at: Span, items: Body) -> Result<StmtPart, AllocError>
    ensures { IfOk result (λ r. r ≡ block_part 256 at items) }
{
    match items {
        Capped::Built(items, height) if height < MOST => {
            let x = Boxed::new(alloc, Stmt::Block(at, items))?;
            Ok(Capped::Built(x, height + 1))
        }
        _ => Ok(Capped::Deep),
    }
}

#[tactic(auto, unfolding(crate::specs::StmtParts::effect_part))]
pub fn make_effect(alloc: Global, part: ExprPart) -> Result<StmtPart, AllocError>
    ensures { IfOk result (λ r. r ≡ effect_part 256 part) }
{
    match part {
        Capped::Built(e, height) if height < MOST => {
            let x = Boxed::new(alloc, Stmt::Effect(e))?;
            Ok(Capped::Built(x, height + 1))
        }
        _ => Ok(Capped::Deep),
    }
}

#[tactic(auto, unfolding(crate::specs::StmtParts::return_part))]
pub fn make_return(alloc: Global, at: Span, part: OptionPart) -> Result<StmtPart, AllocError>
    ensures { IfOk result (λ r. r ≡ return_part 256 at part) }
{
    match part {
        Capped::Built(e, height) if height < MOST => {
            let x = Boxed::new(alloc, Stmt::Return(at, e))?;
            Ok(Capped::Built(x, height + 1))
        }
        _ => Ok(Capped::Deep),
    }
}

#[tactic(auto, unfolding(crate::specs::StmtParts::if_part))]
pub fn make_if(
    alloc: Global,
    at: Span,
    test: ExprPart,
    body: StmtPart,
) -> Result<StmtPart, AllocError>
    ensures { IfOk result (λ r. r ≡ if_part 256 at test body) }
{
    match merge(test, body) {
        Capped::Built((test, body), height) if height < MOST => {
            let x = Boxed::new(alloc, Stmt::If(at, test, body))?;
            Ok(Capped::Built(x, height + 1))
        }
        _ => Ok(Capped::Deep),
    }
}

#[tactic(auto, unfolding(crate::specs::StmtParts::if_else_part))]
pub fn make_if_else(
    alloc: Global,
    at: Span,
    test: ExprPart,
    yes: StmtPart,
    no: StmtPart,
) -> Result<StmtPart, AllocError>
    ensures { IfOk result (λ r. r ≡ if_else_part 256 at test yes no) }
{
    match merge(merge(test, yes), no) {
        Capped::Built(((test, yes), no), height) if height < MOST => {
            let x = Boxed::new(alloc, Stmt::IfElse(at, test, yes, no))?;
            Ok(Capped::Built(x, height + 1))
        }
        _ => Ok(Capped::Deep),
    }
}

#[tactic(auto, unfolding(crate::specs::StmtParts::while_part))]
pub fn make_while(
    alloc: Global,
    at: Span,
    test: ExprPart,
    body: StmtPart,
) -> Result<StmtPart, AllocError>
    ensures { IfOk result (λ r. r ≡ while_part 256 at test body) }
{
    match merge(test, body) {
        Capped::Built((test, body), height) if height < MOST => {
            let x = Boxed::new(alloc, Stmt::While(at, test, body))?;
            Ok(Capped::Built(x, height + 1))
        }
        _ => Ok(Capped::Deep),
    }
}

#[tactic(auto, unfolding(crate::specs::StmtParts::do_part))]
pub fn make_do(
    alloc: Global,
    at: Span,
    body: StmtPart,
    test: ExprPart,
) -> Result<StmtPart, AllocError>
    ensures { IfOk result (λ r. r ≡ do_part 256 at body test) }
{
    match merge(test, body) {
        Capped::Built((test, body), height) if height < MOST => {
            let x = Boxed::new(alloc, Stmt::Do(at, body, test))?;
            Ok(Capped::Built(x, height + 1))
        }
        _ => Ok(Capped::Deep),
    }
}

#[tactic(auto, unfolding(crate::specs::StmtParts::for_part))]
pub fn make_for(
    alloc: Global,
    at: Span,
    head: Capped<ForHead>,
    body: StmtPart,
) -> Result<StmtPart, AllocError>
    ensures { IfOk result (λ r. r ≡ for_part 256 at head body) }
{
    match merge(head, body) {
        Capped::Built((head, body), height) if height < MOST => {
            let x = Boxed::new(alloc, Stmt::For(at, head.start, head.test, head.step, body))?;
            Ok(Capped::Built(x, height + 1))
        }
        _ => Ok(Capped::Deep),
    }
}
