//! The print of a text.

ghost use Rattle.std.specs.Prelude.{◌≡◌, ◌↔◌, IsTrue};

/// The fingerprint of a text: eight bytes of its digest.
///
/// Prints are compared by `agrees` alone, so there is no `==` on them.
#[derive(Clone, Copy, Debug)]
pub struct Print(pub [u8; 8]);

impl Print {
    /// Whether the two prints are the same, in each of their eight bytes. Takes no memory.
    pub fn agrees(&self, other: &Print) -> bool
        ensures { IsTrue result ↔ (self.now ≡ other.now) }
    {
        self.0 == other.0
    }
}
