//! The height of a tree, counted by hand.

use c_tree::{
    Base, BlockItem, Expr, FunctionHead, Item, Literal, Name, Params, Stmt, TypeName, Unit, height,
};
use c_types::{IntTy, Span};
use hx_words::{Boxed, Items};
use std::alloc::{AllocError, Global};

const HERE: Span = Span { start: 0, end: 0 };

/// `int main(void) { return (7); }`: the unit, the item, the block, the statement, the parentheses
/// and the number.
fn example(alloc: Global) -> Result<Unit, AllocError> {
    let seven = Literal {
        value: 7,
        ty: IntTy::I32,
        span: HERE,
    };
    let number = Boxed::new(alloc, Expr::Number(seven))?;
    let value = Boxed::new(alloc, Expr::Paren(HERE, number))?;
    let mut body = Items::new(alloc);
    body.push(BlockItem::Stmt(Boxed::new(alloc, Stmt::Return(HERE, Some(value)))?))?;
    let head = FunctionHead {
        result: TypeName {
            base: Base::Int(IntTy::I32, HERE),
            stars: Items::new(alloc),
        },
        name: Name {
            text: Items::from_slice(alloc, b"main")?,
            span: HERE,
        },
        params: Params {
            list: Items::new(alloc),
            ellipsis: None,
        },
    };
    let mut items = Items::new(alloc);
    items.push(Item::Define(head, HERE, body))?;
    Ok(Unit { items })
}

#[test]
fn height_by_hand(rt: HostRuntime) {
    let alloc = rt.alloc();
    assert!(rt; height(&example(alloc).expect(&rt, "memory")) == 6);
    let none = Unit {
        items: Items::new(alloc),
    };
    assert!(rt; height(&none) == 1);
}
