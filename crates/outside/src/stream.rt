ghost use Rattle.std.specs.Prelude.{◌≡◌, ℕ, ◌<◌, ◌≤◌, [], length, Option, IfOk, IfSome, OnErr, OnOk};
ghost use Rattle.outside.specs.declared.act.Role.{Role};
ghost use Rattle.outside.specs.Link.{Exchanged, IsAskedOnce, IsUnasked, Link, SendsPart, received_bytes};
ghost use Rattle.outside.specs.Faults.{count_after};
ghost use Rattle.outside.specs.Told.{Goes};

use crate::act::Failed;

/// A stream of bytes in both directions, as to a child over its pipes.
pub trait Stream: Drop + Send {
    // What the stream tells of the bytes that pass.
    ghost link: { Self → Option Link };

    // How many faults it had.
    ghost faults: { Self → ℕ };

    // Which child it leads to.
    ghost role: { Self → Role };

    /// Receives up to `buf.len()` bytes into the front of `buf` and answers how many; 0 is the end
    /// of input. `Failed`: nothing was received.
    fn recv(&mut self, buf: &mut [u8]) -> Result<usize, Failed>
        requires { 0 < length buf.old }
        ensures bound { IfOk result (λ n. n ≤ length buf.old) }
        ensures link { Goes (Exchanged (received_bytes result buf.new) []) (link self.old)
            (link self.new) }
        ensures asked { Goes IsAskedOnce (link self.old) (link self.new) }
        ensures end { result ≡ Ok 0 → IfSome (link self.new) (λ l. l.left ≡ []) }
        ensures counts { faults self.new ≡ count_after result (faults self.old) }
        ensures kept { faults self.old ≤ faults self.new }
        ensures role { role self.new ≡ role self.old };

    /// Sends all bytes. `Failed`: a first part of them was sent, perhaps none.
    fn send(&mut self, bytes: &[u8]) -> Result<(), Failed>
        ensures ok { OnOk result (Goes (Exchanged [] bytes.now) (link self.old) (link self.new)) }
        ensures part { OnErr result (SendsPart bytes.now (link self.old) (link self.new)) }
        ensures unasked { Goes IsUnasked (link self.old) (link self.new) }
        ensures counts { faults self.new ≡ count_after result (faults self.old) }
        ensures kept { faults self.old ≤ faults self.new }
        ensures role { role self.new ≡ role self.old };
}
