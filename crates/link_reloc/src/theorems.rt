//! What holds of the table of sites, over every site, target and number. The laws take no step.

ghost use Rattle.std.specs.Prelude.{◌≡◌, ◌≤◌, ◌<◌, ◌⊎◌, ◌+◌, ◌*◌, ◌/◌, ◌%◌, ◌^◌, ◌+ℤ◌, ◌*ℤ◌, pos, ℕ, ℤ, List, length, Ok};
ghost use Rattle.hx_words.specs.TwosComplement.{signed_of};
ghost use Rattle.hx_bits.specs.Bits.{field_of};
ghost use Rattle.hx_names.specs.declared.pieces.SiteKind.{SiteKind};
ghost use Rattle.link_reloc.specs.Sites.{width, becomes, held, page_field, access_size, site_of, filled};

/// What a machine reads at a site leads it to the target.
pub fn number_laws()
    // An address of 64 bits, and a place of 32, are those of the target, with the number that stood there.
    ensures address { (s t b w v : ℕ) → becomes SiteKind.Addr64 s t b w ≡ Ok v → v ≡ (b + t + w) % 2 ^ 64 }
    ensures place { (s t b w v : ℕ) → becomes SiteKind.Addr32Nb s t b w ≡ Ok v → pos v ≡ pos t +ℤ signed_of 32 w }
    // From the end of a site of x64 its signed number leads to the target and the number that stood there.
    ensures relative { (s t b w v : ℕ) → becomes SiteKind.Rel32 s t b w ≡ Ok v → pos (s + 4) +ℤ signed_of 32 v ≡ pos t +ℤ signed_of 32 w }
{}

/// What an instruction of Arm64 reads in its field leads to the target, and its other bits stay.
pub fn instruction_laws()
    ensures branch { (s t b w v : ℕ) → becomes SiteKind.Branch26 s t b w ≡ Ok v → pos s +ℤ pos 4 *ℤ signed_of 26 (field_of 0 26 v) ≡ pos t }
    ensures page_base { (s t b w v : ℕ) → becomes SiteKind.PageBaseRel21 s t b w ≡ Ok v → pos (s / 4096) +ℤ signed_of 21 (page_field v) ≡ pos (t / 4096) }
    ensures offset { (s t b w v : ℕ) → becomes SiteKind.PageOffset12A s t b w ≡ Ok v → field_of 10 12 v ≡ t % 4096 }
    ensures access { (s t b w v : ℕ) → becomes SiteKind.PageOffset12L s t b w ≡ Ok v → field_of 10 12 v * access_size v ≡ t % 4096 }
    // The page of a target below 2^32 is never out of reach.
    ensures near { (s t b w : ℕ) → s < 2 ^ 32 → t < 2 ^ 32 → page_field w ≡ 0 → (v : ℕ) × (becomes SiteKind.PageBaseRel21 s t b w ≡ Ok v) }
{}

/// A fill writes its own bytes alone, so that sites apart from each other each hold their value afterwards.
pub fn fill_laws()
    ensures size { (k : SiteKind) (xs : List ℕ) (at s t b : ℕ) → at + width k ≤ length xs → length (filled k xs at s t b) ≡ length xs }
    // The bytes of a site outside it are kept.
    ensures outside { (k : SiteKind) (xs : List ℕ) (at s t b i n : ℕ) → at + width k ≤ length xs → (i + n ≤ at) ⊎ (at + width k ≤ i) → held n (filled k xs at s t b) i ≡ held n xs i }
    // What was written is held.
    ensures inside { (k : SiteKind) (xs : List ℕ) (at s t b v : ℕ) → at + width k ≤ length xs → site_of k xs at s t b ≡ Ok v → held (width k) (filled k xs at s t b) at ≡ v % 256 ^ width k }
    // The second of two sites that are apart leaves the first as it was filled.
    ensures apart { (j k : SiteKind) (xs : List ℕ) (i s t b v at s2 t2 b2 : ℕ) → i + width j ≤ length xs → at + width k ≤ length xs → (i + width j ≤ at) ⊎ (at + width k ≤ i) → site_of j xs i s t b ≡ Ok v → held (width j) (filled k (filled j xs i s t b) at s2 t2 b2) i ≡ v % 256 ^ width j }
{}
