//! A copy of the metadata.

ghost use Rattle.std.specs.Prelude.{◌≡◌, IfOk};

use chpe_types::{FnRow, Meta};
use hx_words::Items;
use std::alloc::{AllocError, Global};

/// A copy of a row of the function table.
fn copy_row(alloc: Global, row: &FnRow) -> Result<FnRow, AllocError>
    ensures { IfOk result (λ r. r ≡ row.now) }
{
    Ok(FnRow {
        kind: row.kind,
        name: Items::from_slice(alloc, row.name.as_slice())?,
        start: row.start,
        end: row.end,
    })
}

/// A copy of the function table.
fn copy_rows(alloc: Global, rows: &[FnRow]) -> Result<Items<FnRow>, AllocError>
    ensures { IfOk result (λ rs. rs ≡ rows.now) }
{
    let mut copies = Items::new(alloc);
    for row in rows {
        copies.push(copy_row(alloc, row)?)?;
    }
    Ok(copies)
}

/// A copy of the metadata.
pub fn copy_meta(alloc: Global, m: &Meta) -> Result<Meta, AllocError>
    ensures { IfOk result (λ copy. copy ≡ m.now) }
{
    Ok(Meta {
        ranges: Items::from_slice(alloc, m.ranges.as_slice())?,
        redirects: Items::from_slice(alloc, m.redirects.as_slice())?,
        rows: copy_rows(alloc, m.rows.as_slice())?,
    })
}
