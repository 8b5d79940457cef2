//! The widths of operands, and numbers of these widths.

ghost use Rattle.std.specs.Prelude.{◌≡◌};
ghost use Rattle.hx_bits.specs.Widths.{bits_in, bytes_in, truncated, sign_extended};

/// A width of an operand: 8, 16, 32 or 64 bits.
#[derive(Clone, Copy, PartialEq, Eq, Debug)]
pub enum Width {
    W8,
    W16,
    W32,
    W64,
}

impl Width {
    /// How many bits it has.
    pub fn bits(self) -> u32
        ensures { result ≡ bits_in self }
    {
        match self {
            Width::W8 => 8,
            Width::W16 => 16,
            Width::W32 => 32,
            Width::W64 => 64,
        }
    }

    /// How many bytes it has.
    pub fn bytes(self) -> usize
        ensures { result ≡ bytes_in self }
    {
        match self {
            Width::W8 => 1,
            Width::W16 => 2,
            Width::W32 => 4,
            Width::W64 => 8,
        }
    }
}

/// The low bits of a number, and zeros above them.
pub fn truncate(v: u64, w: Width) -> u64
    ensures { result ≡ truncated w v }
{
    match w {
        Width::W8 => v % 0x100,
        Width::W16 => v % 0x1_0000,
        Width::W32 => v % 0x1_0000_0000,
        Width::W64 => v,
    }
}

/// The low bits of a number, and copies of the highest of them above.
pub fn sign_extend(v: u64, w: Width) -> u64
    ensures { result ≡ sign_extended w v }
{
    let low = truncate(v, w);
    match w {
        Width::W8 if low >= 0x80 => low + 0xffff_ffff_ffff_ff00,
        Width::W16 if low >= 0x8000 => low + 0xffff_ffff_ffff_0000,
        Width::W32 if low >= 0x8000_0000 => low + 0xffff_ffff_0000_0000,
        _ => low,
    }
}
