//! What this run has made before.
ghost use Rattle.std.specs.Prelude.{ℕ, Bool, List};

/// What recipes of this run have made that had ended before a target's was begun.
pub trait Earlier {
    /// The run has said of the name whether one of these has made its file: a fact that only a call of `has_made` gives.
    ghost said: { Self → List ℕ → Bool → Type 0 };

    /// Whether such a recipe has made the file of this name. No other recipe writes it: so it is still what it was then.
    fn has_made(&self, name: &[u8]) -> bool
        ensures { said self.now name.now result };
}
