//! A session's live children.

ghost use Rattle.std.specs.Prelude.{◌≡◌, ℕ, ◌<◌, ◌≤◌, [], length, Option, IfOk, IfSome, OnErr, OnOk};
ghost use Rattle.outside.specs.declared.act.Role.{Role};
ghost use Rattle.outside.specs.Faults.{count_after};
ghost use Rattle.outside.specs.Link.{Exchanged, IsAskedOnce, IsUnasked, Link, SendsPart, received_bytes};
ghost use Rattle.outside.specs.Told.{Goes};

use outside::{Failed, Stream};

/// A session's live child, whichever it is. It can't be let go.
pub trait LiveChild {
    // What its stream tells of the bytes that pass.
    ghost link: { Self → Option Link };

    // How many faults its stream had.
    ghost faults: { Self → ℕ };

    // Which child it is.
    ghost role: { Self → Role };

    /// Receives up to `buf.len()` bytes of the child into the front of `buf` and answers how many; 0 is
    /// the end of what it sends. `Failed`: nothing was received.
    fn recv(&mut self, buf: &mut [u8]) -> Result<usize, Failed>
        requires { 0 < length buf.old }
        ensures bound { IfOk result (λ n. n ≤ length buf.old) }
        ensures link { Goes (Exchanged (received_bytes result buf.new) []) (link self.old)
            (link self.new) }
        ensures asked { Goes IsAskedOnce (link self.old) (link self.new) }
        ensures end { result ≡ Ok 0 → IfSome (link self.new) (λ l. l.left ≡ []) }
        ensures counts { faults self.new ≡ count_after result (faults self.old) }
        ensures kept { faults self.old ≤ faults self.new }
        ensures role { role self.new ≡ role self.old };

    /// Sends the child all bytes. `Failed`: a first part of them was sent, perhaps none.
    fn send(&mut self, bytes: &[u8]) -> Result<(), Failed>
        ensures ok { OnOk result (Goes (Exchanged [] bytes.now) (link self.old) (link self.new)) }
        ensures part { OnErr result (SendsPart bytes.now (link self.old) (link self.new)) }
        ensures unasked { Goes IsUnasked (link self.old) (link self.new) }
        ensures counts { faults self.new ≡ count_after result (faults self.old) }
        ensures kept { faults self.old ≤ faults self.new }
        ensures role { role self.new ≡ role self.old };
}

/// A session's live child before the login. It can't be let go: it is given back, or changed for the
/// user's.
pub struct PreLink<C: Stream> {
    pub(crate) child: C,
}

/// A session's live child of its user. It can't be let go: it is given back.
pub struct UserLink<C: Stream> {
    pub(crate) child: C,
}

impl<C: Stream> LiveChild for PreLink<C> {
    ghost link = { λ l. C.link l.child };

    ghost faults = { λ l. C.faults l.child };

    ghost role = { λ l. C.role l.child };

    fn recv(&mut self, buf: &mut [u8]) -> Result<usize, Failed> {
        self.child.recv(buf)
    }

    fn send(&mut self, bytes: &[u8]) -> Result<(), Failed> {
        self.child.send(bytes)
    }
}

impl<C: Stream> LiveChild for UserLink<C> {
    ghost link = { λ l. C.link l.child };

    ghost faults = { λ l. C.faults l.child };

    ghost role = { λ l. C.role l.child };

    fn recv(&mut self, buf: &mut [u8]) -> Result<usize, Failed> {
        self.child.recv(buf)
    }

    fn send(&mut self, bytes: &[u8]) -> Result<(), Failed> {
        self.child.send(bytes)
    }
}
