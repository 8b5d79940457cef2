//! Files written anew.

ghost use Rattle.std.specs.Prelude.{◌≡◌, IfOk};
ghost use Rattle.pe_read.specs.Images.{image_of};

use pe_read::{ImageRefusal, read};
use pe_write::{allowed, write};
use std::alloc::Global;

/// The file that is written of the image in a file.
pub fn rewritten(alloc: Global, bytes: &[u8]) -> Result<Vec<u8>, ImageRefusal>
    ensures { IfOk result (λ file. image_of file.items ≡ image_of bytes.now) }
{
    allowed();
    let image = read(alloc, bytes)?;
    let file = write(alloc, &image)?;
    Ok(file)
}
