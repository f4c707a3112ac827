ghost use Rattle.std.specs.Prelude.{◌≡◌, ◌↔◌, ◌+◌, ◌<◌, ◌≤◌, [], ◌∷◌, drop, IfOk, IfSome, IsErr, IsSome, length, min};
ghost use Rattle.std.specs.Prelude.{None, Ok, OnErr, OnOk, OnSome, take};
ghost use Rattle.request_catalogue.specs.TextBytes.{label_bytes};
ghost use Rattle.outside_memory.specs.Repeating.{items_after, next_item};
ghost use Rattle.outside.specs.Faults.{AcceptCounts, ConnCounts, CountNothing, FinishCounts, NoneFell, StartCounts};
ghost use Rattle.outside.specs.Faults.{VaultCounts, count_after};
ghost use Rattle.outside.specs.Scene.{Did, GivenBack, IsUnused, accepted_outcome, came_count, planned_bytes};
ghost use Rattle.outside.specs.Scene.{received_outcome, started_outcome};
ghost use Rattle.outside.specs.Told.{Goes, next_count};
ghost use Rattle.outside_memory.specs.Vaults.{FileWritten, piece_from};

use crate::conn::MemConn;
use crate::fail::{CallKind, find_failure};
use crate::post::MemPost;
use crate::script::planned;
use crate::stream::MemStream;
use outside::{Accepted, Act, Failed, Post, Role, link_count};
use request_catalogue::Label;
use std::mem;

impl Post for MemPost {
    ghost use Rattle.outside_memory.specs.MemPost.{HasReceived, accept_failure, client_left, conn_piece};
    ghost use Rattle.outside_memory.specs.MemPost.{conn_recv_failure, conn_send_failure, faults_of, post_schedule};
    ghost use Rattle.outside_memory.specs.MemPost.{scene_of, start_failure, users_files};
    ghost use Rattle.outside_memory.specs.MemPost.{vault_read_failure, vault_write_failure};
    ghost use Rattle.outside_memory.specs.MemStream.{faults_of as stream_faults, link_of, role_of, stream_schedule};

    type Conn = MemConn;

    type Child = MemStream;

    ghost scene = { scene_of };

    ghost faults = { faults_of };

    ghost counts_as_told = { λ post. post.told };

    /// Takes the next script. It fails exactly where the list says so.
    fn accept(&mut self) -> Result<Option<MemConn>, Failed>
        ensures act { Did (Act.Accept (accepted_outcome result)) (scene_of self.old)
            (scene_of self.new) }
        ensures none { result ≡ Ok None → IfSome (scene_of self.new)
            (λ s. came_count s.acts ≡ length s.plan) }
        ensures counts { AcceptCounts result (faults_of self.old) (faults_of self.new) }
        ensures kept { NoneFell (faults_of self.old) (faults_of self.new) }

        ensures listed { IsErr result ↔ IsSome (accept_failure (post_schedule self.old)) }
        ensures left { IfOk result (λ conn. IsSome conn
            ↔ ((post_schedule self.old).came < length (post_schedule self.old).scripts)) }
        ensures client { IfOk result (λ found. IfSome found
            (λ conn. conn ≡ record { script = (post_schedule self.old).came; taken = 0; pieces = 0 })) }
        ensures schedule { post_schedule self.new ≡ record (post_schedule self.old) {
          made = record (post_schedule self.old).made {
            accepts = next_count (post_schedule self.old).made.accepts;
          };
          came = (post_schedule self.old).came
              + came_count (Act.Accept (accepted_outcome result) ∷ []);
        } }
        ensures files { users_files self.new ≡ users_files self.old }
    {
        self.made.accepts = self.made.accepts.saturating_add(1);
        if find_failure(&self.fails, CallKind::Accept, self.made.accepts).is_some() {
            self.faults.accept = self.faults.accept.saturating_add(1);
            self.transcript.act(Act::Accept {
                outcome: Accepted::Failed,
            });
            return Err(Failed);
        }
        if self.came == self.scripts.len() {
            self.transcript.act(Act::Accept {
                outcome: Accepted::NoneLeft,
            });
            return Ok(None);
        }
        self.transcript.act(Act::Accept {
            outcome: Accepted::Came,
        });
        let script = self.came;
        self.came += 1;
        Ok(Some(MemConn {
            script,
            taken: 0,
            pieces: 0,
        }))
    }

    /// Starts the child that the last script has for the role. It fails exactly where the list says
    /// so.
    fn start(&mut self, role: &Role) -> Result<MemStream, Failed>
        ensures act { Did (Act.Start role.now (started_outcome result)) (scene_of self.old)
            (scene_of self.new) }
        ensures role { IfOk result (λ child. role_of child ≡ role.now) }
        ensures unused { IfOk result (λ child. IfSome (link_of child) IsUnused) }
        ensures faultless { IfOk result (λ child. stream_faults child ≡ 0) }
        ensures planned { IfOk result (λ child. IfSome (scene_of self.new) (λ s.
            IfSome (link_of child) (λ l. l.left ≡ planned_bytes s role.now))) }
        ensures counts { StartCounts result (faults_of self.old) (faults_of self.new) }
        ensures kept { NoneFell (faults_of self.old) (faults_of self.new) }

        ensures listed { IsErr result ↔ IsSome (start_failure (post_schedule self.old)) }
        ensures child_fails { IfOk result (λ child.
            (stream_schedule child).fails ≡ (post_schedule self.old).child_fails) }
        ensures child_schedule { IfOk result
            (λ child. OnSome (link_of child) (stream_schedule child ≡ record {
              fails = (post_schedule self.old).child_fails;
              cuts = (post_schedule self.old).cuts;
              recvs = 0;
              sends = 0;
            })) }
        ensures schedule_ok { OnOk result
            (post_schedule self.new ≡ record (post_schedule self.old) {
              made = record (post_schedule self.old).made {
                starts = next_count (post_schedule self.old).made.starts;
              };
              child_fails = [];
            }) }
        ensures schedule_err { OnErr result
            (post_schedule self.new ≡ record (post_schedule self.old) {
              made = record (post_schedule self.old).made {
                starts = next_count (post_schedule self.old).made.starts;
              };
            }) }
        ensures files { users_files self.new ≡ users_files self.old }
    {
        self.made.starts = self.made.starts.saturating_add(1);
        if find_failure(&self.fails, CallKind::Start, self.made.starts).is_some() {
            self.faults.keeper = self.faults.keeper.saturating_add(1);
            self.transcript.act(Act::Start {
                role: *role,
                outcome: Err(Failed),
            });
            return Err(Failed);
        }
        self.transcript.act(Act::Start {
            role: *role,
            outcome: Ok(()),
        });
        let fails = mem::replace(&mut self.child_fails, Vec::new(self.alloc));
        let input = planned(&self.scripts, self.came, *role);
        Ok(MemStream::for_child(self.alloc, *role, input, &self.cuts, fails))
    }

    /// Counts a fault exactly where the child had one.
    fn finish(&mut self, child: MemStream)
        ensures act { GivenBack (role_of child) (link_of child) (scene_of self.old)
            (scene_of self.new) }
        ensures counts { FinishCounts (stream_faults child) (faults_of self.old)
            (faults_of self.new) }
        ensures kept { NoneFell (faults_of self.old) (faults_of self.new) }

        ensures uncounted { stream_faults child ≡ 0
            → CountNothing (faults_of self.old) (faults_of self.new) }
        ensures schedule { post_schedule self.new ≡ post_schedule self.old }
        ensures files { users_files self.new ≡ users_files self.old }
    {
        self.faults.link = link_count(self.faults.link, child.faults());
        let role = child.role();
        self.transcript.finish(role, child.close());
    }

    fn hang_up(&mut self, conn: MemConn)
        ensures act { Did Act.HangUp (scene_of self.old) (scene_of self.new) }
        ensures counts { CountNothing (faults_of self.old) (faults_of self.new) }
        ensures kept { NoneFell (faults_of self.old) (faults_of self.new) }

        ensures schedule { post_schedule self.new ≡ post_schedule self.old }
        ensures files { users_files self.new ≡ users_files self.old }
    {
        let MemConn {
            script: _,
            taken: _,
            pieces: _,
        } = conn;
        self.transcript.act(Act::HangUp);
    }

    /// Receives the client's next piece. It fails exactly where the list says so.
    fn conn_recv(&mut self, conn: &mut MemConn, buf: &mut [u8]) -> Result<usize, Failed>
        requires { 0 < length buf.old }
        ensures bound { IfOk result (λ n. n ≤ length buf.old) }
        ensures act { Did (Act.ConnRecv (length buf.old) (received_outcome result buf.new))
            (scene_of self.old) (scene_of self.new) }
        ensures counts { ConnCounts result (faults_of self.old) (faults_of self.new) }
        ensures kept { NoneFell (faults_of self.old) (faults_of self.new) }

        ensures listed { IsErr result ↔ IsSome (conn_recv_failure (post_schedule self.old)) }
        ensures piece { IfOk result (λ n. take n buf.new
            ≡ take (min (conn_piece (post_schedule self.old).cuts conn.old) (length buf.old))
            (client_left (post_schedule self.old).scripts conn.old)) }
        ensures rest { IfOk result (λ n. drop n buf.new ≡ drop n buf.old) }
        ensures conn { IfOk result (λ n. HasReceived n conn.old conn.new) }
        ensures conn_err { OnErr result (conn.new ≡ conn.old) }
        ensures schedule { post_schedule self.new ≡ record (post_schedule self.old) {
          made = record (post_schedule self.old).made {
            conn_recvs = next_count (post_schedule self.old).made.conn_recvs;
          };
        } }
        ensures files { users_files self.new ≡ users_files self.old }
    {
        let max = buf.len();
        self.made.conn_recvs = self.made.conn_recvs.saturating_add(1);
        if find_failure(&self.fails, CallKind::ConnRecv, self.made.conn_recvs).is_some() {
            self.faults.conn = self.faults.conn.saturating_add(1);
            self.transcript.act(Act::ConnRecv {
                max,
                outcome: Err(Failed),
            });
            return Err(Failed);
        }
        let piece = self.cuts[conn.pieces.min(self.cuts.len() - 1)];
        let received = conn.receive(&self.scripts, piece, buf);
        let bytes = self.shelf.copy(&buf[..received]);
        self.transcript.act_if(bytes.map(|bytes| Act::ConnRecv {
            max,
            outcome: Ok(bytes),
        }));
        Ok(received)
    }

    /// Takes the bytes that are sent. It fails exactly where the list says so.
    fn conn_send(&mut self, _conn: &mut MemConn, bytes: &[u8]) -> Result<(), Failed>
        ensures act { Did (Act.ConnSend bytes.now result) (scene_of self.old) (scene_of self.new) }
        ensures counts { ConnCounts result (faults_of self.old) (faults_of self.new) }
        ensures kept { NoneFell (faults_of self.old) (faults_of self.new) }

        ensures listed { IsErr result ↔ IsSome (conn_send_failure (post_schedule self.old)) }
        ensures schedule { post_schedule self.new ≡ record (post_schedule self.old) {
          made = record (post_schedule self.old).made {
            conn_sends = next_count (post_schedule self.old).made.conn_sends;
          };
        } }
        ensures files { users_files self.new ≡ users_files self.old }
    {
        self.made.conn_sends = self.made.conn_sends.saturating_add(1);
        let outcome = match find_failure(&self.fails, CallKind::ConnSend, self.made.conn_sends) {
            None => Ok(()),
            Some(_) => Err(Failed),
        };
        self.faults.conn = count_after(&outcome, self.faults.conn);
        let copy = self.shelf.copy(bytes);
        self.transcript
            .act_if(copy.map(|bytes| Act::ConnSend { bytes, outcome }));
        outcome
    }

    /// Reads what the user's file has from the offset on. It fails exactly where the list says so.
    fn vault_read(
        &mut self,
        uid: u32,
        name: &Label,
        offset: u64,
        buf: &mut [u8],
    ) -> Result<usize, Failed>
        ensures bound { IfOk result (λ n. n ≤ length buf.old) }
        ensures act { Did
            (Act.VaultRead uid name.now offset (length buf.old) (received_outcome result buf.new))
            (scene_of self.old) (scene_of self.new) }
        ensures counts { VaultCounts result (faults_of self.old) (faults_of self.new) }
        ensures kept { NoneFell (faults_of self.old) (faults_of self.new) }

        ensures listed { IsErr result ↔ IsSome (vault_read_failure (post_schedule self.old)) }
        ensures piece { IfOk result (λ n. IfSome (users_files self.old) (λ files. take n buf.new
            ≡ piece_from (files uid (label_bytes name.now)) offset (length buf.old))) }
        ensures rest { IfOk result (λ n. drop n buf.new ≡ drop n buf.old) }
        ensures schedule { post_schedule self.new ≡ record (post_schedule self.old) {
          made = record (post_schedule self.old).made {
            vault_reads = next_count (post_schedule self.old).made.vault_reads;
          };
        } }
        ensures files { users_files self.new ≡ users_files self.old }
    {
        let max = buf.len();
        self.made.vault_reads = self.made.vault_reads.saturating_add(1);
        if find_failure(&self.fails, CallKind::VaultRead, self.made.vault_reads).is_some() {
            self.faults.vault = self.faults.vault.saturating_add(1);
            self.transcript.act(Act::VaultRead {
                uid,
                name: *name,
                offset,
                max,
                outcome: Err(Failed),
            });
            return Err(Failed);
        }
        let n = self.shelf.read(uid, name.as_slice(), offset, buf);
        let bytes = self.shelf.copy(&buf[..n]);
        self.transcript.act_if(bytes.map(|bytes| Act::VaultRead {
            uid,
            name: *name,
            offset,
            max,
            outcome: Ok(bytes),
        }));
        Ok(n)
    }

    /// Writes the bytes. It fails exactly where the list says so, and then writes nothing.
    fn vault_write(
        &mut self,
        uid: u32,
        name: &Label,
        offset: u64,
        bytes: &[u8],
    ) -> Result<(), Failed>
        ensures act { Did (Act.VaultWrite uid name.now offset bytes.now result) (scene_of self.old)
            (scene_of self.new) }
        ensures counts { VaultCounts result (faults_of self.old) (faults_of self.new) }
        ensures kept { NoneFell (faults_of self.old) (faults_of self.new) }

        ensures listed { IsErr result ↔ IsSome (vault_write_failure (post_schedule self.old)) }
        ensures written { OnOk result
            (Goes (FileWritten uid (label_bytes name.now) offset bytes.now) (users_files self.old)
            (users_files self.new)) }
        ensures unwritten { OnErr result (users_files self.new ≡ users_files self.old) }
        ensures schedule { post_schedule self.new ≡ record (post_schedule self.old) {
          made = record (post_schedule self.old).made {
            vault_writes = next_count (post_schedule self.old).made.vault_writes;
          };
        } }
    {
        self.made.vault_writes = self.made.vault_writes.saturating_add(1);
        let copy = self.shelf.copy(bytes);
        if find_failure(&self.fails, CallKind::VaultWrite, self.made.vault_writes).is_some() {
            self.faults.vault = self.faults.vault.saturating_add(1);
            self.transcript.act_if(copy.map(|bytes| Act::VaultWrite {
                uid,
                name: *name,
                offset,
                bytes,
                outcome: Err(Failed),
            }));
            return Err(Failed);
        }
        if !self.shelf.write(uid, name.as_slice(), offset, bytes) {
            self.tells_files = false;
        }
        self.transcript.act_if(copy.map(|bytes| Act::VaultWrite {
            uid,
            name: *name,
            offset,
            bytes,
            outcome: Ok(()),
        }));
        Ok(())
    }

    /// Gives the next moment of the list.
    #[tactic(auto, using(crate::proofs::RepeatingLemmas::cut_laws))]
    fn now(&mut self) -> u64
        ensures act { Did (Act.Clock result) (scene_of self.old) (scene_of self.new) }
        ensures counts { CountNothing (faults_of self.old) (faults_of self.new) }
        ensures kept { NoneFell (faults_of self.old) (faults_of self.new) }

        ensures moment { result ≡ next_item (post_schedule self.old).moments }
        ensures schedule { post_schedule self.new ≡ record (post_schedule self.old) {
          moments = items_after (post_schedule self.old).moments;
        } }
        ensures files { users_files self.new ≡ users_files self.old }
    {
        let moment = self.moments.take().unwrap_or(0);
        self.transcript.act(Act::Clock { moment });
        moment
    }
}

/// The count of a call's faults after it.
fn count_after(outcome: &Result<(), Failed>, count: u64) -> u64
    ensures { result ≡ count_after outcome.now count }
{
    match outcome {
        Ok(()) => count,
        Err(_) => count.saturating_add(1),
    }
}
