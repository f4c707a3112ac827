//! What a line is.

ghost use Rattle.std.specs.Prelude.{◌≡◌, ◌==◌, ◌≤◌, length, not};
ghost use Rattle.std.specs.List.{prefix_len};
ghost use Rattle.line_log.specs.Line.{is_line};

/// The bytes that a line has at most, its newline among them.
pub const LINE_MAX: usize = 256;

/// The number of bytes before the first newline.
fn body_len(bytes: &[u8]) -> usize
    ensures len { result ≡ prefix_len (λ c. not (c == 10)) bytes.now }
    ensures within { result ≤ length bytes.now }
{
    bytes.iter().take_while(|byte| **byte != b'\n').count()
}

/// Whether bytes are one line of at most 256 bytes: they end with a newline, and have no other.
pub fn is_line(bytes: &[u8]) -> bool
    ensures { result ≡ is_line bytes.now }
{
    let len = bytes.len();
    len <= LINE_MAX && body_len(bytes) + 1 == len
}
