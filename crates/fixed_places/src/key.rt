//! What may be a key of a table.
ghost use Rattle.std.specs.Prelude.{◌≡◌, ◌↔◌, ℕ, IsTrue};

/// A value by which a [`crate::Table`] finds a place.
pub trait Key: Copy {
    ghost code_of: { Self → ℕ };

    /// A number that tells most keys apart. The table spreads it over its chains, so that it needs to be
    /// neither small nor even.
    fn code(&self) -> u64
        ensures { result ≡ code_of self.now };

    /// Whether both keys are one.
    fn is_same(&self, other: &Self) -> bool
        ensures { IsTrue result ↔ (self.now ≡ other.now) };
}
