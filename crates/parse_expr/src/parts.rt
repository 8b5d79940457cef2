ghost use Rattle.std.specs.Prelude.{◌≡◌, IfOk};
ghost use Rattle.parse_expr.specs.ExprGrammar.{is_effect, is_effect_prefix};
ghost use Rattle.parse_expr.specs.Parts.{part_effect, leaf, no_parts, prefixed, cast, parenthesized, selected, incremented, decremented, indexed, joined, assigned, chosen, called, with_argument};

use c_tree::{AssignOp, BinaryOp, Expr, Name, Selector, UnaryOp};
use c_types::{IntTy, Span};
use hx_words::{Boxed, Items};
use std::alloc::{AllocError, Global};

/// The most nodes on a path of a tree that is kept.
pub const MOST: u32 = 256;

/// An expression and its height, at most [`MOST`], or whether one that was given up is an effect.
#[derive(Drop)]
pub enum Part {
    Built(Boxed<Expr>, u32),
    Deep(bool),
}

/// Arguments and the largest of their heights.
#[derive(Drop)]
pub enum Parts {
    Built(Items<Expr>, u32),
    Deep,
}

/// A node without parts.
pub fn make_leaf(alloc: Global, e: Expr) -> Result<Part, AllocError>
    ensures { IfOk result (λ r. r ≡ leaf e) }
{
    Ok(Part::Built(Boxed::new(alloc, e)?, 1))
}

/// Whether the outermost form is an assignment, `++`, `--` or a call.
#[tactic(auto, unfolding(crate::specs::ExprGrammar::is_effect))]
pub fn has_effect(e: &Expr) -> bool
    ensures { result ≡ is_effect e.now }
{
    match e {
        Expr::Call(_, _, _)
        | Expr::PostIncrement(_, _)
        | Expr::PostDecrement(_, _)
        | Expr::Assign(_, _, _, _) => true,
        Expr::Unary(UnaryOp::Increment | UnaryOp::Decrement, _, _) => true,
        _ => false,
    }
}

/// Whether a part is an effect.
pub fn has_part_effect(part: &Part) -> bool
    ensures { result ≡ part_effect part.now }
{
    match part {
        Part::Built(e, _) => has_effect(e.get()),
        Part::Deep(effect) => *effect,
    }
}

fn changes(operator: UnaryOp) -> bool
    ensures { result ≡ is_effect_prefix operator }
{
    matches!(operator, UnaryOp::Increment | UnaryOp::Decrement)
}

#[tactic(auto, unfolding(crate::specs::Parts::prefixed))]
pub fn prefix(alloc: Global, operator: UnaryOp, at: Span, part: Part) -> Result<Part, AllocError>
    ensures { IfOk result (λ r. r ≡ prefixed 256 operator at part) }
{
    match part {
        Part::Built(e, height) if height < MOST => {
            let e = Boxed::new(alloc, Expr::Unary(operator, at, e))?;
            Ok(Part::Built(e, height + 1))
        }
        _ => Ok(Part::Deep(changes(operator))),
    }
}

#[tactic(auto, unfolding(crate::specs::Parts::cast))]
pub fn convert(
    alloc: Global,
    at: Span,
    ty: IntTy,
    ty_at: Span,
    part: Part,
) -> Result<Part, AllocError>
    ensures { IfOk result (λ r. r ≡ cast 256 at ty ty_at part) }
{
    match part {
        Part::Built(e, height) if height < MOST => {
            let e = Boxed::new(alloc, Expr::Cast(at, ty, ty_at, e))?;
            Ok(Part::Built(e, height + 1))
        }
        _ => Ok(Part::Deep(false)),
    }
}

#[tactic(auto, unfolding(crate::specs::Parts::parenthesized))]
pub fn parenthesize(alloc: Global, at: Span, part: Part) -> Result<Part, AllocError>
    ensures { IfOk result (λ r. r ≡ parenthesized 256 at part) }
{
    match part {
        Part::Built(e, height) if height < MOST => {
            let e = Boxed::new(alloc, Expr::Paren(at, e))?;
            Ok(Part::Built(e, height + 1))
        }
        _ => Ok(Part::Deep(false)),
    }
}

#[tactic(auto, unfolding(crate::specs::Parts::selected))]
pub fn select(
    alloc: Global,
    part: Part,
    selector: Selector,
    at: Span,
    name: Name,
) -> Result<Part, AllocError>
    ensures { IfOk result (λ r. r ≡ selected 256 part selector at name) }
{
    match part {
        Part::Built(e, height) if height < MOST => {
            let e = Boxed::new(alloc, Expr::Select(e, selector, at, name))?;
            Ok(Part::Built(e, height + 1))
        }
        _ => Ok(Part::Deep(false)),
    }
}

#[tactic(auto, unfolding(crate::specs::Parts::incremented))]
pub fn increment(alloc: Global, part: Part, at: Span) -> Result<Part, AllocError>
    ensures { IfOk result (λ r. r ≡ incremented 256 part at) }
{
    match part {
        Part::Built(e, height) if height < MOST => {
            let e = Boxed::new(alloc, Expr::PostIncrement(e, at))?;
            Ok(Part::Built(e, height + 1))
        }
        _ => Ok(Part::Deep(true)),
    }
}

#[tactic(auto, unfolding(crate::specs::Parts::decremented))]
pub fn decrement(alloc: Global, part: Part, at: Span) -> Result<Part, AllocError>
    ensures { IfOk result (λ r. r ≡ decremented 256 part at) }
{
    match part {
        Part::Built(e, height) if height < MOST => {
            let e = Boxed::new(alloc, Expr::PostDecrement(e, at))?;
            Ok(Part::Built(e, height + 1))
        }
        _ => Ok(Part::Deep(true)),
    }
}

#[tactic(auto, unfolding(crate::specs::Parts::indexed))]
pub fn subscript(alloc: Global, part: Part, at: Span, index: Part) -> Result<Part, AllocError>
    ensures { IfOk result (λ r. r ≡ indexed 256 part at index) }
{
    let Part::Built(e, m) = part else {
        return Ok(Part::Deep(false));
    };
    let Part::Built(i, n) = index else {
        return Ok(Part::Deep(false));
    };
    if m < MOST && n < MOST {
        let e = Boxed::new(alloc, Expr::Index(e, at, i))?;
        Ok(Part::Built(e, m.max(n) + 1))
    } else {
        Ok(Part::Deep(false))
    }
}

#[tactic(auto, unfolding(crate::specs::Parts::joined))]
pub fn join(
    alloc: Global,
    operator: BinaryOp,
    at: Span,
    left: Part,
    right: Part,
) -> Result<Part, AllocError>
    ensures { IfOk result (λ r. r ≡ joined 256 operator at left right) }
{
    let Part::Built(l, m) = left else {
        return Ok(Part::Deep(false));
    };
    let Part::Built(r, n) = right else {
        return Ok(Part::Deep(false));
    };
    if m < MOST && n < MOST {
        let e = Boxed::new(alloc, Expr::Binary(operator, at, l, r))?;
        Ok(Part::Built(e, m.max(n) + 1))
    } else {
        Ok(Part::Deep(false))
    }
}

#[tactic(auto, unfolding(crate::specs::Parts::assigned))]
pub fn assign(
    alloc: Global,
    operator: AssignOp,
    at: Span,
    left: Part,
    right: Part,
) -> Result<Part, AllocError>
    ensures { IfOk result (λ r. r ≡ assigned 256 operator at left right) }
{
    let Part::Built(l, m) = left else {
        return Ok(Part::Deep(true));
    };
    let Part::Built(r, n) = right else {
        return Ok(Part::Deep(true));
    };
    if m < MOST && n < MOST {
        let e = Boxed::new(alloc, Expr::Assign(operator, at, l, r))?;
        Ok(Part::Built(e, m.max(n) + 1))
    } else {
        Ok(Part::Deep(true))
    }
}

#[tactic(auto, unfolding(crate::specs::Parts::chosen))]
pub fn choose(
    alloc: Global,
    test: Part,
    at: Span,
    left: Part,
    right: Part,
) -> Result<Part, AllocError>
    ensures { IfOk result (λ r. r ≡ chosen 256 test at left right) }
{
    let Part::Built(c, k) = test else {
        return Ok(Part::Deep(false));
    };
    let Part::Built(l, m) = left else {
        return Ok(Part::Deep(false));
    };
    let Part::Built(r, n) = right else {
        return Ok(Part::Deep(false));
    };
    if k < MOST && m < MOST && n < MOST {
        let e = Boxed::new(alloc, Expr::Conditional(c, at, l, r))?;
        Ok(Part::Built(e, k.max(m).max(n) + 1))
    } else {
        Ok(Part::Deep(false))
    }
}

#[tactic(auto, unfolding(crate::specs::Parts::called))]
pub fn call(alloc: Global, function: Part, at: Span, arguments: Parts) -> Result<Part, AllocError>
    ensures { IfOk result (λ r. r ≡ called 256 function at arguments) }
{
    let Part::Built(f, m) = function else {
        return Ok(Part::Deep(true));
    };
    let Parts::Built(args, n) = arguments else {
        return Ok(Part::Deep(true));
    };
    if m < MOST && n < MOST {
        let e = Boxed::new(alloc, Expr::Call(f, at, args))?;
        Ok(Part::Built(e, m.max(n) + 1))
    } else {
        Ok(Part::Deep(true))
    }
}

/// No arguments.
pub fn empty_parts(alloc: Global) -> Parts
    ensures { result ≡ no_parts }
{
    Parts::Built(Items::new(alloc), 0)
}

/// The arguments and one more.
#[tactic(auto, unfolding(crate::specs::Parts::with_argument))]
pub fn add(arguments: Parts, part: Part) -> Result<Parts, AllocError>
    ensures { IfOk result (λ r. r ≡ with_argument arguments part) }
{
    let Parts::Built(args, m) = arguments else {
        return Ok(Parts::Deep);
    };
    let Part::Built(e, n) = part else {
        return Ok(Parts::Deep);
    };
    let mut args = args;
    args.push(e.into_inner())?;
    Ok(Parts::Built(args, m.max(n)))
}
