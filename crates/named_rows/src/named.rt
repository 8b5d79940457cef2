ghost use Rattle.std.specs.Prelude.{◌≡◌, ℕ, List};

/// A row with a name of bytes. `By` stands for the sort of name: a crate names rows of another crate's
/// type by a type of its own.
pub trait Named<By> {
    /// The name.
    ghost name: { Self → List ℕ };

    fn name(&self) -> &[u8]
        ensures { result.now ≡ name self.now };
}
