//! Rows of names of a letter each, and the first places of names among them.

use hx_words::Items;
use named_rows::{Named, NamedRows};
use std::alloc::{AllocError, Global};
use std::process::Abort;
use std::test::Fail;

#[derive(Drop)]
struct Letter {
    name: Items<u8>,
}

impl Named<()> for Letter {
    ghost name = { λ row. row.name };

    fn name(&self) -> &[u8] {
        self.name.as_slice()
    }
}

/// The letters in order, a letter, its place, and whether each letter stands once.
type Row = (&'static [u8], &'static [u8], Option<usize>, bool);

static ROWS: [Row; 8] = [
    (b"", b"a", None, true),
    (b"a", b"a", Some(0), true),
    (b"abc", b"c", Some(2), true),
    (b"abc", b"d", None, true),
    (b"aba", b"a", Some(0), false),
    (b"abb", b"b", Some(1), false),
    (b"cabac", b"c", Some(0), false),
    (b"abc", b"", None, true),
];

fn push_all(
    alloc: Global,
    letters: &[u8],
    rows: &mut NamedRows<Letter, ()>,
) -> Result<(), AllocError> {
    for letter in letters {
        let name = Items::from_slice(alloc, &[*letter])?;
        rows.push(Letter { name })?;
    }
    Ok(())
}

fn check_in(
    rt: &impl Abort,
    alloc: Global,
    row: &Row,
    rows: &mut NamedRows<Letter, ()>,
) -> Result<(), AllocError> {
    let (letters, name, want, distinct) = row;
    push_all(alloc, letters, rows)?;
    assert_eq!(rt; rows.find(name), *want, "at {letters:?}");
    assert_eq!(rt;
        rows.find_row(name).is_some(),
        want.is_some(),
        "at {letters:?}"
    );
    assert_eq!(rt; rows.are_distinct(), *distinct, "at {letters:?}");
    assert_eq!(rt; rows.len(), letters.len(), "at {letters:?}");
    Ok(())
}

fn check(rt: &impl Abort, alloc: Global, row: &Row) -> Result<(), AllocError> {
    let mut rows = NamedRows::new(alloc);
    check_in(rt, alloc, row, &mut rows)
}

#[test]
fn first_of_a_name(rt: HostRuntime) -> Result<(), Fail> {
    for row in &ROWS {
        check(&rt, rt.alloc(), row)?;
    }
    Ok(())
}

fn change_one(
    rt: &impl Abort,
    alloc: Global,
    rows: &mut NamedRows<Letter, ()>,
) -> Result<(), AllocError> {
    push_all(alloc, b"aba", rows)?;
    let name = Items::from_slice(alloc, b"b")?;
    if rows.get(1).is_some_and(|row| row.name() == b"b".as_slice()) {
        rows.set(1, Letter { name });
    }
    assert_eq!(rt; rows.find(b"b"), Some(1));
    assert_eq!(rt; rows.as_slice().len(), 3);
    Ok(())
}

#[test]
fn another_row_of_the_name(rt: HostRuntime) -> Result<(), Fail> {
    let mut rows = NamedRows::new(rt.alloc());
    change_one(&rt, rt.alloc(), &mut rows)?;
    assert_eq!(rt; rows.into_items().len(), 3);
    Ok(())
}
