// Where text goes.
ghost use Rattle.std.specs.Prelude.{List, ℕ, [], ◌∷◌};
ghost use Rattle.line_printer.specs.Puts.{Puts};

/// Takes text, piece by piece.
///
/// It never refuses a piece. Where it can't take one it drops it and all that follow, and the call that
/// ends the printing says so.
pub trait Printer {
    // What is due at a printer: of a whole text that was begun at the first printer, the rest is still to come at the
    // second.
    ghost due: { Self → List ℕ → Self → List ℕ → Type 0 };

    /// Takes the next bytes of a text.
    fn put(&mut self, bytes: &[u8])
        ensures { Puts due self.old self.new bytes.now };

    /// Takes the next two bytes of a text: what `put` does with both, in fewer steps.
    fn put_pair(&mut self, first: u8, second: u8)
        ensures { Puts due self.old self.new (first ∷ second ∷ []) };

    /// Takes the next three bytes of a text: what `put` does with them, in fewer steps.
    fn put_triple(&mut self, first: u8, second: u8, third: u8)
        ensures { Puts due self.old self.new (first ∷ second ∷ third ∷ []) };
}
