use crate::again::read_again;
use std::io;
use std::net::Shutdown;
use std::os::unix::net::UnixStream;

/// How many pieces are read away of what nobody had read, 64 KB in all.
const UNWANTED_PIECES: usize = 16;

/// How many bytes one such piece has at most.
const PIECE: usize = 4_096;

/// Closes a socket so that its peer sees the end of input and no reset: what the peer had sent and
/// nobody had read is read away, up to 64 KB.
pub fn close(mut socket: UnixStream) {
    // From here on the peer can send no more, and no reading waits.
    if socket.shutdown(Shutdown::Read).is_err() {
        return;
    }
    let mut piece = [0; PIECE];
    for _ in 0..UNWANTED_PIECES {
        match read_again(&mut socket, &mut piece) {
            Ok(n) if n > 0 => {}
            _ => return,
        }
    }
}
