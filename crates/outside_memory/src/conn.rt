ghost use Rattle.std.specs.Prelude.{◌≡◌, ◌≤◌, [], drop, length, min, option_map, slice_get, take, unwrap_or};
ghost use Rattle.outside_memory.specs.MemPost.{HasReceived, client_bytes, client_left};

use crate::script::Script;

/// A client's connection to a post in memory: which of the post's scripts it goes by, how much of it
/// was received, and in how many pieces.
pub struct MemConn {
    pub(crate) script: usize,
    pub(crate) taken: usize,
    pub(crate) pieces: usize,
}

/// What the client of a script sends; nothing where there is no such script.
fn client_bytes(scripts: &[Script], number: usize) -> &[u8]
    ensures { result.now ≡ client_bytes scripts.now number }
{
    match scripts.get(number) {
        Some(script) => script.client.as_slice(),
        None => &[],
    }
}

impl MemConn {
    /// Receives up to so many bytes of the client into the front of a buffer, and gives how many.
    pub(crate) fn receive(&mut self, scripts: &[Script], piece: usize, buf: &mut [u8]) -> usize
        ensures bound { result ≤ length buf.old }
        ensures piece { take result buf.new
            ≡ take (min piece (length buf.old)) (client_left scripts.now self.old) }
        ensures rest { drop result buf.new ≡ drop result buf.old }
        ensures conn { HasReceived result self.old self.new }
    {
        let client = client_bytes(scripts, self.script);
        let left = &client[self.taken.min(client.len())..];
        let n = left.len().min(piece.min(buf.len()));
        buf[..n].copy_from_slice(&left[..n]);
        self.taken = self.taken.saturating_add(n);
        self.pieces = self.pieces.saturating_add(1);
        n
    }
}
