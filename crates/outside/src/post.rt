ghost use Rattle.std.specs.Prelude.{◌≡◌, ◌<◌, ◌≤◌, length, Option, IfOk, IfSome};
ghost use Rattle.outside.specs.declared.act.Act.{Act};
ghost use Rattle.outside.specs.declared.faults.Faults.{Faults};
ghost use Rattle.outside.specs.Faults.{AcceptCounts, ConnCounts, CountNothing, FinishCounts, NoneFell, StartCounts};
ghost use Rattle.outside.specs.Faults.{VaultCounts};
ghost use Rattle.outside.specs.Scene.{CountsAsTold, Did, GivenBack, IsUnused, Scene, accepted_outcome, came_count};
ghost use Rattle.outside.specs.Scene.{planned_bytes, received_outcome, started_outcome};

use crate::act::{Failed, Role};
use crate::stream::Stream;
use request_catalogue::Label;

/// The outside of one worker: the connections of its clients, the children that serve them, the
/// users' files and the clock. Each call appends one act to those that the post tells.
pub trait Post: Drop + Send {
    /// A client's connection. It need not be `Drop`: it is given up by [`Post::hang_up`].
    type Conn;

    /// A child that was started. It is given back by [`Post::finish`].
    type Child: Stream;

    // What the post tells.
    ghost scene: { Self → Option Scene };

    // How many faults it had, by kind.
    ghost faults: { Self → Faults };

    // As many operations are counted as are told as failed.
    ghost counts_as_told: { (post : Self) → IfSome (scene post) (λ s. CountsAsTold s (faults post)) };

    /// Waits for the next connection. `None`: no connection will come any more.
    fn accept(&mut self) -> Result<Option<Self::Conn>, Failed>
        ensures act { Did (Act.Accept (accepted_outcome result)) (scene self.old) (scene self.new) }
        ensures none { result ≡ Ok None → IfSome (scene self.new)
            (λ s. came_count s.acts ≡ length s.plan) }
        ensures counts { AcceptCounts result (faults self.old) (faults self.new) }
        ensures kept { NoneFell (faults self.old) (faults self.new) };

    /// Starts a child of this role, which nothing was sent to yet.
    fn start(&mut self, role: &Role) -> Result<Self::Child, Failed>
        ensures act { Did (Act.Start role.now (started_outcome result)) (scene self.old)
            (scene self.new) }
        ensures role { IfOk result (λ child. Self.Child.role child ≡ role.now) }
        ensures unused { IfOk result (λ child. IfSome (Self.Child.link child) IsUnused) }
        ensures faultless { IfOk result (λ child. Self.Child.faults child ≡ 0) }
        ensures planned { IfOk result (λ child. IfSome (scene self.new) (λ s.
            IfSome (Self.Child.link child) (λ l. l.left ≡ planned_bytes s role.now))) }
        ensures counts { StartCounts result (faults self.old) (faults self.new) }
        ensures kept { NoneFell (faults self.old) (faults self.new) };

    /// Gives a child back: closes its link and waits for its end. That the end can't be waited for
    /// is a fault of its link too.
    fn finish(&mut self, child: Self::Child)
        ensures act { GivenBack (Self.Child.role child) (Self.Child.link child) (scene self.old)
            (scene self.new) }
        ensures counts { FinishCounts (Self.Child.faults child) (faults self.old) (faults self.new) }
        ensures kept { NoneFell (faults self.old) (faults self.new) };

    /// Closes a connection.
    fn hang_up(&mut self, conn: Self::Conn)
        ensures act { Did Act.HangUp (scene self.old) (scene self.new) }
        ensures counts { CountNothing (faults self.old) (faults self.new) }
        ensures kept { NoneFell (faults self.old) (faults self.new) };

    /// Receives up to `buf.len()` bytes of the client into the front of `buf` and answers how many;
    /// 0 is the end of what it sends.
    fn conn_recv(&mut self, conn: &mut Self::Conn, buf: &mut [u8]) -> Result<usize, Failed>
        requires { 0 < length buf.old }
        ensures bound { IfOk result (λ n. n ≤ length buf.old) }
        ensures act { Did (Act.ConnRecv (length buf.old) (received_outcome result buf.new))
            (scene self.old) (scene self.new) }
        ensures counts { ConnCounts result (faults self.old) (faults self.new) }
        ensures kept { NoneFell (faults self.old) (faults self.new) };

    /// Sends bytes to the client. `Failed`: some of them may have gone out.
    fn conn_send(&mut self, conn: &mut Self::Conn, bytes: &[u8]) -> Result<(), Failed>
        ensures act { Did (Act.ConnSend bytes.now result) (scene self.old) (scene self.new) }
        ensures counts { ConnCounts result (faults self.old) (faults self.new) }
        ensures kept { NoneFell (faults self.old) (faults self.new) };

    /// Reads a user's file from the byte at `offset` on into the front of `buf`, and answers how
    /// many bytes. Of a file that isn't there, and past a file's end, there are none.
    fn vault_read(
        &mut self,
        uid: u32,
        name: &Label,
        offset: u64,
        buf: &mut [u8],
    ) -> Result<usize, Failed>
        ensures bound { IfOk result (λ n. n ≤ length buf.old) }
        ensures act { Did
            (Act.VaultRead uid name.now offset (length buf.old) (received_outcome result buf.new))
            (scene self.old) (scene self.new) }
        ensures counts { VaultCounts result (faults self.old) (faults self.new) }
        ensures kept { NoneFell (faults self.old) (faults self.new) };

    /// Writes bytes into a user's file from the byte at `offset` on. A file that isn't there is
    /// made, and a gap before the bytes is filled with zeros. `Failed`: some of the bytes may have
    /// been written.
    fn vault_write(
        &mut self,
        uid: u32,
        name: &Label,
        offset: u64,
        bytes: &[u8],
    ) -> Result<(), Failed>
        ensures act { Did (Act.VaultWrite uid name.now offset bytes.now result) (scene self.old)
            (scene self.new) }
        ensures counts { VaultCounts result (faults self.old) (faults self.new) }
        ensures kept { NoneFell (faults self.old) (faults self.new) };

    /// The milliseconds since a start that is the same for all posts of one `listen`.
    fn now(&mut self) -> u64
        ensures act { Did (Act.Clock result) (scene self.old) (scene self.new) }
        ensures counts { CountNothing (faults self.old) (faults self.new) }
        ensures kept { NoneFell (faults self.old) (faults self.new) };
}
