//! Bytes in front of a piece of memory.

ghost use Rattle.std.specs.Prelude.{◌≡◌, ◌≤◌, length, take};

/// Writes bytes into the front of the piece, and answers how many.
pub(crate) fn write(bytes: &[u8], piece: &mut [u8]) -> usize
    requires room { length bytes.now ≤ length piece.old }
    ensures len { result ≡ length bytes.now }
    ensures within { result ≤ length piece.new }
    ensures same { length piece.new ≡ length piece.old }
    ensures text { take result piece.new ≡ bytes.now }
{
    piece[..bytes.len()].copy_from_slice(bytes);
    bytes.len()
}
