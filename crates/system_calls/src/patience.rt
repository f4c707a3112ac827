ghost use Rattle.std.specs.Prelude.{◌≤◌, IfOk, length};

use crate::again::read_again;
use crate::clock::PostClock;
use std::io;
use std::io::{ErrorKind, Write};
use std::os::unix::net::UnixStream;
use std::time::{Clock, Duration};

/// How long the peer of a socket may keep its post waiting.
#[derive(Clone, Copy)]
pub struct Patience {
    clock: PostClock,
    /// In one reading or one writing.
    each: Duration,
    /// The moment of that clock, in milliseconds, from which nothing is waited for.
    until: u64,
}

impl Patience {
    /// This long each time, and not beyond that moment of the clock.
    pub fn until(clock: PostClock, each: Duration, until: u64) -> Patience {
        Patience { clock, each, until }
    }

    /// How long may be waited now. It fails where the time is up.
    fn left<C: Clock>(&mut self, clock: &C) -> io::Result<Duration> {
        let left = self.until.saturating_sub(self.clock.now(clock));
        if left == 0 {
            return Err(io::Error::from(ErrorKind::TimedOut));
        }
        Ok(self.each.min(Duration::from_millis(left)))
    }
}

/// Reads once what a peer sends. It fails where nothing comes in time.
pub fn read_within<C: Clock>(
    clock: &C,
    socket: &mut UnixStream,
    patience: &mut Patience,
    buf: &mut [u8],
) -> io::Result<usize>
    ensures { IfOk result (λ n. n ≤ length buf.new) }
{
    socket.set_read_timeout(Some(patience.left(clock)?))?;
    read_again(socket, buf)
}

/// Writes all bytes to a peer. It fails where the peer doesn't take them in time, be it that each
/// single writing is short.
pub fn write_within<C: Clock>(
    clock: &C,
    socket: &mut UnixStream,
    patience: &mut Patience,
    bytes: &[u8],
) -> io::Result<()> {
    let mut written = 0usize;
    for _ in 0..u64::MAX {
        let Some(rest) = bytes.get(written..) else {
            break;
        };
        if rest.is_empty() {
            break;
        }
        let count = write_once(clock, socket, patience, rest)?;
        written = written.saturating_add(count);
    }
    Ok(())
}

/// Writes once what a peer takes, and answers how many bytes: none where a signal interrupts it.
fn write_once<C: Clock>(
    clock: &C,
    socket: &mut UnixStream,
    patience: &mut Patience,
    bytes: &[u8],
) -> io::Result<usize> {
    socket.set_write_timeout(Some(patience.left(clock)?))?;
    match socket.write(bytes) {
        Ok(0) => Err(io::Error::from(ErrorKind::WriteZero)),
        Err(error) if error.kind() == ErrorKind::Interrupted => Ok(0),
        outcome => outcome,
    }
}
