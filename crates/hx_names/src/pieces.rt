//! Pieces of code with the sites in them, which generators make and the linker places.

use std::marker::Model;

/// What a site's bytes become once its name has an address.
#[derive(Clone, Copy, PartialEq, Eq, Debug)]
pub enum SiteKind {
    /// Nothing: the bytes stay.
    Nothing,
    /// The address, in 64 bits.
    Addr64,
    /// The address from the base of the image, in 32 bits.
    Addr32Nb,
    /// The distance from the end of the site, in 32 bits.
    Rel32,
    /// The distance in words, in the 26 bits of a branch.
    Branch26,
    /// The distance in pages of 4 KiB, in the 21 bits of `adrp`.
    PageBaseRel21,
    /// The place in its page, in the 12 bits of an addition.
    PageOffset12A,
    /// The place in its page, in the 12 bits of a load or a store, by its size.
    PageOffset12L,
}

/// A site of a piece: its place in the bytes, what it becomes, and the name that it waits for.
#[derive(Debug, Drop)]
pub struct PieceSite {
    pub at: u32,
    pub kind: SiteKind,
    pub name: Vec<u8>,
}

impl Model for PieceSite {
    ghost use Rattle.hx_names.specs.Pieces.{Site};

    ghost Value = { Site };

    ghost view = { λ s. record { at = s.at; kind = s.kind; name = s.name.items } };
}

/// A piece of code and its sites.
#[derive(Debug, Drop)]
pub struct CodePiece {
    pub bytes: Vec<u8>,
    pub sites: Vec<PieceSite>,
}

impl Model for CodePiece {
    ghost use Rattle.hx_names.specs.Pieces.{Piece};

    ghost Value = { Piece };

    ghost view = { λ p. record { bytes = p.bytes.items; sites = p.sites.items } };
}

/// The instruction set of a body: x64, or Arm64 under the rules of Arm64EC.
#[derive(Clone, Copy, PartialEq, Eq, Debug)]
pub enum Side {
    X64,
    Ec,
}
