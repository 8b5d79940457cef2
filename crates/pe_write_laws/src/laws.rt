//! Which images some file has.

ghost use Rattle.std.specs.Prelude.{◌≡◌, ◌↔◌, true, Ok};
ghost use Rattle.chpe_types.specs.declared.image.Image.{Image};
ghost use Rattle.pe_read.specs.Images.{image_of};
ghost use Rattle.pe_write_laws.specs.Allowed.{IsAllowed, is_allowed};
ghost use Rattle.pe_write_laws.specs.Format.{image_bytes};

/// Some file has an image exactly where the tests allow it.
pub fn allowed()
    ensures { (i : Image) → IsAllowed i ↔ (is_allowed i ≡ true) }
{}

/// The reader finds an allowed image in the file that is written of it.
pub fn reads_back()
    ensures { (i : Image) → is_allowed i ≡ true → image_of (image_bytes i) ≡ Ok i }
{}
