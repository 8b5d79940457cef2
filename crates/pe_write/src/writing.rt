//! The writer.

ghost use Rattle.std.specs.Prelude.{◌≡◌, true, IfOk, Ok};
ghost use Rattle.pe_read.specs.Images.{image_of};
ghost use Rattle.pe_write_laws.specs.Allowed.{is_allowed};
ghost use Rattle.pe_write_laws.specs.Format.{image_bytes};

use crate::headers::Places;
use crate::places::{blocks_place, blocks_size, config_place, import_place};
use crate::sections::image_file;
use chpe_types::Image;
use std::alloc::{AllocError, Global};

/// The file of an image that some file has. Its directories stand at the first places of the sections
/// that read as what the image has; sections' contents follow one another from multiples of 512 on.
#[tactic(auto, using(pe_write_laws::proofs::Room::few_sections, pe_write_laws::proofs::Room::room_for, pe_write_laws::proofs::Room::mapped_low, pe_write_laws::proofs::Back::file_read))]
pub fn write(alloc: Global, i: &Image) -> Result<Vec<u8>, AllocError>
    requires { is_allowed i.now ≡ true }
    ensures written { IfOk result (λ b. b.items ≡ image_bytes i.now) }
    ensures read_back { IfOk result (λ b. image_of b.items ≡ Ok i.now) }
{
    let imports = import_place(alloc, i)?;
    let blocks = blocks_place(alloc, i)?;
    let blocks_size = blocks_size(alloc, i, blocks)?;
    let config = config_place(alloc, i)?;
    let places = Places {
        imports,
        blocks,
        blocks_size,
        config,
    };
    let file = image_file(alloc, i, places)?;
    Ok(file)
}
