//! Where the engine has the moment from.

ghost use Rattle.std.specs.Prelude.{◌≡◌, ◌++◌, ◌∷◌, [], ℕ, List};

/// A clock. Its moments are in milliseconds.
pub trait Clock: Drop {
    /// The moments that it has told, in their order.
    ghost moments: { Self → List ℕ };

    /// The moment.
    fn now(&mut self) -> u64
        ensures { moments self.new ≡ moments self.old ++ result ∷ [] };
}
