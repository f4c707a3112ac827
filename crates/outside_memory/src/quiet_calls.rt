ghost use Rattle.std.specs.Prelude.{◌≡◌, ◌↔◌, ◌<◌, ◌≤◌, ◌+◌, ◌-◌, ◌&&◌, [], ◌∷◌, drop, if◌then◌else◌, IfOk, IfSome};
ghost use Rattle.std.specs.Prelude.{IsSome, is_some, length, min, nat_lt, None, Ok, OnOk, OnSome, take, unwrap_or};
ghost use Rattle.request_catalogue.specs.TextBytes.{label_bytes};
ghost use Rattle.outside_memory.specs.Repeating.{items_after, next_item};
ghost use Rattle.outside.specs.Faults.{AcceptCounts, ConnCounts, CountNothing, FinishCounts, NoneFell, StartCounts};
ghost use Rattle.outside.specs.Faults.{VaultCounts};
ghost use Rattle.outside.specs.Scene.{Did, GivenBack, IsUnused, accepted_outcome, bytes_at, came_count, planned_bytes};
ghost use Rattle.outside.specs.Scene.{received_outcome, started_outcome};
ghost use Rattle.outside_memory.specs.Script.{plan_of};
ghost use Rattle.outside.specs.Told.{Goes};
ghost use Rattle.outside_memory.specs.Vaults.{FileWritten, piece_from};
ghost use Rattle.outside_memory.specs.Blank.{unused_within};
ghost use Rattle.outside_memory.specs.Pieces.{fits_written, has_piece, without};

use crate::conn::MemConn;
use crate::quiet_post::QuietPost;
use crate::quiet_stream::QuietStream;
use crate::script::planned;
use outside::{Accepted, Act, Failed, Post, Role};
use request_catalogue::Label;

impl Post for QuietPost {
    ghost use Rattle.outside_memory.specs.MemPost.{HasReceived, client_left, conn_piece};
    ghost use Rattle.outside_memory.specs.QuietPost.{after_act, after_bytes, faults_of, post_stock, scene_of};
    ghost use Rattle.outside_memory.specs.QuietPost.{users_files};
    ghost use Rattle.outside_memory.specs.QuietStream.{faults_of as stream_faults, link_of, role_of, stream_stock};

    type Conn = MemConn;

    type Child = QuietStream;

    ghost scene = { scene_of };

    ghost faults = { faults_of };

    ghost counts_as_told = { λ post. post.told };

    /// Takes the next script.
    fn accept(&mut self) -> Result<Option<MemConn>, Failed>
        ensures act { Did (Act.Accept (accepted_outcome result)) (scene_of self.old)
            (scene_of self.new) }
        ensures none { result ≡ Ok None → IfSome (scene_of self.new)
            (λ s. came_count s.acts ≡ length s.plan) }
        ensures counts { AcceptCounts result (faults_of self.old) (faults_of self.new) }
        ensures kept { NoneFell (faults_of self.old) (faults_of self.new) }

        ensures left { IfOk result (λ conn. IsSome conn
            ↔ ((post_stock self.old).came < length (post_stock self.old).scripts)) }
        ensures client { IfOk result (λ found. IfSome found
            (λ conn. conn ≡ record { script = (post_stock self.old).came; taken = 0; pieces = 0 })) }
        ensures stock { post_stock self.new ≡ record (after_act (post_stock self.old)) {
          came = (post_stock self.old).came
              + came_count (Act.Accept (accepted_outcome result) ∷ []);
        } }
        ensures files { OnSome (users_files self.new)
            (users_files self.new ≡ users_files self.old) }
    {
        if self.came == self.scripts.len() {
            self.transcript.act(Act::Accept {
                outcome: Accepted::NoneLeft,
            });
            return Ok(None);
        }
        self.transcript.act(Act::Accept {
            outcome: Accepted::Came,
        });
        let script = self.came;
        self.came += 1;
        Ok(Some(MemConn {
            script,
            taken: 0,
            pieces: 0,
        }))
    }

    /// Starts the child that the last script has for the role. It tells where there is room for a
    /// child, and for what it has to send.
    fn start(&mut self, role: &Role) -> Result<QuietStream, Failed>
        ensures act { Did (Act.Start role.now (started_outcome result)) (scene_of self.old)
            (scene_of self.new) }
        ensures role { IfOk result (λ child. role_of child ≡ role.now) }
        ensures unused { IfOk result (λ child. IfSome (link_of child) IsUnused) }
        ensures faultless { IfOk result (λ child. stream_faults child ≡ 0) }
        ensures planned { IfOk result (λ child. IfSome (scene_of self.new) (λ s.
            IfSome (link_of child) (λ l. l.left ≡ planned_bytes s role.now))) }
        ensures counts { StartCounts result (faults_of self.old) (faults_of self.new) }
        ensures kept { NoneFell (faults_of self.old) (faults_of self.new) }

        ensures link { IfOk result (λ child. link_of child
            ≡ (if nat_lt 0 (post_stock self.old).streams
            then unused_within (post_stock self.old).stream_size
            (bytes_at role.now (plan_of (post_stock self.old).scripts) (post_stock self.old).came)
            else None)) }
        ensures child_stock { IfOk result (λ child. OnSome (link_of child) (stream_stock child
            ≡ record { cuts = (post_stock self.old).cuts; room = (post_stock self.old).stream_size })) }
        ensures stock { post_stock self.new ≡ record (after_act (post_stock self.old)) {
          streams = (post_stock self.old).streams - 1;
        } }
        ensures files { OnSome (users_files self.new)
            (users_files self.new ≡ users_files self.old) }
    {
        self.transcript.act(Act::Start {
            role: *role,
            outcome: Ok(()),
        });
        let input = planned(&self.scripts, self.came, *role);
        Ok(self.blanks.start(*role, input))
    }

    fn finish(&mut self, child: QuietStream)
        ensures act { GivenBack (role_of child) (link_of child) (scene_of self.old)
            (scene_of self.new) }
        ensures counts { FinishCounts (stream_faults child) (faults_of self.old) (faults_of self.new) }
        ensures kept { NoneFell (faults_of self.old) (faults_of self.new) }

        ensures stock { post_stock self.new ≡ record (post_stock self.old) {
          telling = (post_stock self.old).telling && (nat_lt 0 (post_stock self.old).acts
              && (is_some (link_of child) && nat_lt 0 (post_stock self.old).talks));
          acts = (post_stock self.old).acts - 1;
          talks = (post_stock self.old).talks - 1;
        } }
        ensures files { OnSome (users_files self.new)
            (users_files self.new ≡ users_files self.old) }
    {
        let role = child.role();
        self.transcript.finish(role, child.close());
    }

    fn hang_up(&mut self, conn: MemConn)
        ensures act { Did Act.HangUp (scene_of self.old) (scene_of self.new) }
        ensures counts { CountNothing (faults_of self.old) (faults_of self.new) }
        ensures kept { NoneFell (faults_of self.old) (faults_of self.new) }

        ensures stock { post_stock self.new ≡ after_act (post_stock self.old) }
        ensures files { OnSome (users_files self.new)
            (users_files self.new ≡ users_files self.old) }
    {
        let MemConn {
            script: _,
            taken: _,
            pieces: _,
        } = conn;
        self.transcript.act(Act::HangUp);
    }

    /// Receives the client's next piece.
    fn conn_recv(&mut self, conn: &mut MemConn, buf: &mut [u8]) -> Result<usize, Failed>
        requires { 0 < length buf.old }
        ensures bound { IfOk result (λ n. n ≤ length buf.old) }
        ensures act { Did (Act.ConnRecv (length buf.old) (received_outcome result buf.new))
            (scene_of self.old) (scene_of self.new) }
        ensures counts { ConnCounts result (faults_of self.old) (faults_of self.new) }
        ensures kept { NoneFell (faults_of self.old) (faults_of self.new) }

        ensures piece { IfOk result (λ n. take n buf.new
            ≡ take (min (conn_piece (post_stock self.old).cuts conn.old) (length buf.old))
            (client_left (post_stock self.old).scripts conn.old)) }
        ensures rest { IfOk result (λ n. drop n buf.new ≡ drop n buf.old) }
        ensures conn { IfOk result (λ n. HasReceived n conn.old conn.new) }
        ensures stock { IfOk result
            (λ n. post_stock self.new ≡ after_bytes (length (take n buf.new)) (post_stock self.old)) }
        ensures files { OnSome (users_files self.new)
            (users_files self.new ≡ users_files self.old) }
    {
        let max = buf.len();
        let received = conn.receive(&self.scripts, self.blanks.cut(conn.pieces), buf);
        let bytes = self.shelf.copy(&buf[..received]);
        self.transcript.act_if(bytes.map(|bytes| Act::ConnRecv {
            max,
            outcome: Ok(bytes),
        }));
        Ok(received)
    }

    /// Takes the bytes that are sent.
    fn conn_send(&mut self, _conn: &mut MemConn, bytes: &[u8]) -> Result<(), Failed>
        ensures act { Did (Act.ConnSend bytes.now result) (scene_of self.old) (scene_of self.new) }
        ensures counts { ConnCounts result (faults_of self.old) (faults_of self.new) }
        ensures kept { NoneFell (faults_of self.old) (faults_of self.new) }

        ensures never_fails { result ≡ Ok tt }
        ensures stock { post_stock self.new
            ≡ after_bytes (length bytes.now) (post_stock self.old) }
        ensures files { OnSome (users_files self.new)
            (users_files self.new ≡ users_files self.old) }
    {
        let copy = self.shelf.copy(bytes);
        self.transcript.act_if(copy.map(|bytes| Act::ConnSend {
            bytes,
            outcome: Ok(()),
        }));
        Ok(())
    }

    /// Reads what the user's file has from the offset on.
    fn vault_read(
        &mut self,
        uid: u32,
        name: &Label,
        offset: u64,
        buf: &mut [u8],
    ) -> Result<usize, Failed>
        ensures bound { IfOk result (λ n. n ≤ length buf.old) }
        ensures act { Did
            (Act.VaultRead uid name.now offset (length buf.old) (received_outcome result buf.new))
            (scene_of self.old) (scene_of self.new) }
        ensures counts { VaultCounts result (faults_of self.old) (faults_of self.new) }
        ensures kept { NoneFell (faults_of self.old) (faults_of self.new) }

        ensures piece { IfOk result (λ n. IfSome (users_files self.old) (λ files. take n buf.new
            ≡ piece_from (files uid (label_bytes name.now)) offset (length buf.old))) }
        ensures rest { IfOk result (λ n. drop n buf.new ≡ drop n buf.old) }
        ensures stock { IfOk result
            (λ n. post_stock self.new ≡ after_bytes (length (take n buf.new)) (post_stock self.old)) }
        ensures files { OnSome (users_files self.new)
            (users_files self.new ≡ users_files self.old) }
    {
        let max = buf.len();
        let n = self.shelf.read(uid, name.as_slice(), offset, buf);
        let bytes = self.shelf.copy(&buf[..n]);
        self.transcript.act_if(bytes.map(|bytes| Act::VaultRead {
            uid,
            name: *name,
            offset,
            max,
            outcome: Ok(bytes),
        }));
        Ok(n)
    }

    /// Writes the bytes, if there is room for the file; else nothing is written, and no more is told.
    fn vault_write(
        &mut self,
        uid: u32,
        name: &Label,
        offset: u64,
        bytes: &[u8],
    ) -> Result<(), Failed>
        ensures act { Did (Act.VaultWrite uid name.now offset bytes.now result) (scene_of self.old)
            (scene_of self.new) }
        ensures counts { VaultCounts result (faults_of self.old) (faults_of self.new) }
        ensures kept { NoneFell (faults_of self.old) (faults_of self.new) }

        ensures never_fails { result ≡ Ok tt }
        ensures written { Goes (FileWritten uid (label_bytes name.now) offset bytes.now)
            (users_files self.old) (users_files self.new) }
        ensures tells { IfSome (users_files self.old) (λ files. (post_stock self.new).telling
            ≡ (fits_written (post_stock self.old).pieces (length (label_bytes name.now))
            (length (unwrap_or (files uid (label_bytes name.now)) [])) offset (length bytes.now)
            && (has_piece (without 2 (post_stock self.old).pieces) (length bytes.now)
            && nat_lt 0 (post_stock self.old).acts))) }
        ensures stock { OnSome (scene_of self.new)
            (post_stock self.new ≡ record (post_stock self.old) {
              acts = (post_stock self.old).acts - 1;
              pieces = without 3 (post_stock self.old).pieces;
            }) }
    {
        if !self.shelf.write(uid, name.as_slice(), offset, bytes) {
            self.transcript.cease();
            return Ok(());
        }
        let copy = self.shelf.copy(bytes);
        self.transcript.act_if(copy.map(|bytes| Act::VaultWrite {
            uid,
            name: *name,
            offset,
            bytes,
            outcome: Ok(()),
        }));
        Ok(())
    }

    /// Gives the next moment of the list.
    #[tactic(auto, using(crate::proofs::RepeatingLemmas::cut_laws))]
    fn now(&mut self) -> u64
        ensures act { Did (Act.Clock result) (scene_of self.old) (scene_of self.new) }
        ensures counts { CountNothing (faults_of self.old) (faults_of self.new) }
        ensures kept { NoneFell (faults_of self.old) (faults_of self.new) }

        ensures moment { result ≡ next_item (post_stock self.old).moments }
        ensures stock { post_stock self.new ≡ record (after_act (post_stock self.old)) {
          moments = items_after (post_stock self.old).moments;
        } }
        ensures files { OnSome (users_files self.new)
            (users_files self.new ≡ users_files self.old) }
    {
        let moment = self.moments.take().unwrap_or(0);
        self.transcript.act(Act::Clock { moment });
        moment
    }
}
