//! What a row needs to stand in a table: a number and a key.
ghost use Rattle.std.specs.Prelude.{◌≡◌, ℕ, List};

use zs_keys::KeyExpr;

/// A row of a table, with a number and a key.
pub trait Keyed: Drop {
    ghost number: { Self → ℕ };

    ghost text: { Self → List ℕ };

    /// Its number.
    fn number(&self) -> u32
        ensures { result ≡ number self.now };

    /// Its key.
    fn key(&self) -> &KeyExpr<'static>
        ensures { result.now.text ≡ text self.now };
}
