//! The laws of files, over every object. They take no step.

ghost use Rattle.std.specs.Prelude.{◌≡◌, length};
ghost use Rattle.coff_write.specs.declared.object.Object.{Object as AnyObject};
ghost use Rattle.coff_write.specs.Format.{file_size, object_bytes};

/// The sizes of files.
pub fn size_laws()
    // The size that valid objects keep within the limit is that of the file.
    ensures { (o : AnyObject) → length (object_bytes o) ≡ file_size o }
{}
