//! Whether bytes and names are the same.
ghost use Rattle.std.specs.Prelude.{◌≡◌, ◌≢◌, false, true};

/// Whether bytes are the same.
pub(crate) fn are_same(bytes: &[u8], others: &[u8]) -> bool
    ensures same { result ≡ true → bytes.now ≡ others.now }
    ensures differ { result ≡ false → bytes.now ≢ others.now }
{
    bytes == others
}
