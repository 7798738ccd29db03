// Byte strings.
ghost use Rattle.std.specs.Prelude.{◌≡◌, ◌↔◌, IsTrue};
ghost use Rattle.hv_row.specs.Schema.{same_name};

use crate::Listed;

/// A byte string.
pub type Bytes = Listed<u8>;

impl Listed<u8> {
    /// Whether both have the same bytes; names are compared so, byte for byte.
    pub fn equals(&self, other: &Bytes) -> bool
        ensures same { result ≡ same_name self.now other.now }
        ensures equal { IsTrue result ↔ (self.now ≡ other.now) }
    {
        self == other
    }
}
