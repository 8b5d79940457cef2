ghost use Rattle.std.specs.Prelude.{◌≡◌, ℕ, List, Ok};
ghost use Rattle.chpe_types.specs.declared.image.Image.{Image};
ghost use Rattle.pe_read.specs.Images.{image_of};
ghost use Rattle.pe_loader.specs.Loading.{CanLoad};

/// The image of a file can be loaded.
pub fn reads_for_the_loader()
    ensures { (file : List ℕ) (image : Image) → image_of file ≡ Ok image → CanLoad image }
{}
