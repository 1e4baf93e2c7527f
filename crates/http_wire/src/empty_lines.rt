//! Empty lines between two messages.
ghost use Rattle.std.specs.Prelude.{◌≡◌, false};
ghost use Rattle.http_wire.specs.NextMessage.{empty_lines_after};

/// Whether the bytes are empty lines and nothing else.
pub fn is_empty_lines(bytes: &[u8]) -> bool
    ensures { result ≡ empty_lines_after false bytes.now }
{
    let mut after_return = false;
    for byte in bytes {
        if *byte == b'\n' {
            after_return = false;
        } else if *byte == b'\r' && !after_return {
            after_return = true;
        } else {
            return false;
        }
    }
    !after_return
}
