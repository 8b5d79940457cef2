//! Which metadata is that of some bytes.

ghost use Rattle.std.specs.Prelude.{◌≡◌, ◌+◌, ◌<◌, ℕ, List, Ok, true};
ghost use Rattle.hx_words.specs.LittleEndian.{AreBytes};
ghost use Rattle.chpe_types.specs.declared.image.Meta.{Meta as AnyMeta};
ghost use Rattle.chpe_meta.specs.Allowed.{is_allowed};
ghost use Rattle.chpe_meta.specs.Reading.{meta_of};
ghost use Rattle.chpe_meta.specs.Format.{meta_size, meta_bytes};

/// The metadata that some bytes stand for is that which the test allows, where it ends below 2^32.
pub fn meta_laws()
    // What is read is allowed, wherever the bytes stand.
    ensures read { (b : List ℕ) (at : ℕ) (m : AnyMeta) → AreBytes b → meta_of b at ≡ Ok m → is_allowed m ≡ true }
    // What is allowed is read from what is written.
    ensures written { (m : AnyMeta) (at : ℕ) → is_allowed m ≡ true → at + meta_size m < 4294967296 → meta_of (meta_bytes m at) at ≡ Ok m }
{}
