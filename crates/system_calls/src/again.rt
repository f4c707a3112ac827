ghost use Rattle.std.specs.Prelude.{◌≡◌, ◌<◌, ◌≤◌, IfOk, length, take};
ghost use Rattle.std.specs.Io.KnownBytes.{Consumes, IsAtEnd};

use std::io;
use std::io::{ErrorKind, Read};

/// Reads once what there is, and again where a signal interrupts the reading.
pub fn read_again<R: Read>(reader: &mut R, buf: &mut [u8]) -> io::Result<usize>
    ensures bound { IfOk result (λ n. n ≤ length buf.new) }
    ensures bytes { IfOk result (λ n.
        Consumes (R.remaining reader.old) (R.remaining reader.new) (take n buf.new)) }
    ensures end { IfOk result (λ n.
        n ≡ 0 → 0 < length buf.old → IsAtEnd (R.remaining reader.new)) }
{
    for _ in 0..u64::MAX {
        match reader.read(buf) {
            Err(error) if error.kind() == ErrorKind::Interrupted => {}
            outcome => return outcome,
        }
    }
    Err(io::Error::from(ErrorKind::Interrupted))
}

/// Reads until the buffer is full or the reader ends, and gives how many bytes were read.
pub fn fill<R: Read>(reader: &mut R, buf: &mut [u8]) -> io::Result<usize>
    ensures bound { IfOk result (λ n. n ≤ length buf.old) }
    ensures bytes { IfOk result (λ n.
        Consumes (R.remaining reader.old) (R.remaining reader.new) (take n buf.new)) }
    ensures end { IfOk result (λ n. n < length buf.old → IsAtEnd (R.remaining reader.new)) }
{
    let mut filled = 0;
    while filled < buf.len() {
        match read_again(reader, &mut buf[filled..])? {
            0 => break,
            n => filled += n,
        }
    }
    Ok(filled)
}
