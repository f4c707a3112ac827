ghost use Rattle.std.specs.Prelude.{◌≡◌, ◌↔◌, ◌-◌, ◌<◌, ◌≤◌, [], All, drop, if◌then◌else◌, IfOk, IfSome, IsSome};
ghost use Rattle.std.specs.Prelude.{is_some, IsSomeAnd, IsTrue, length, min, nat_le, None, Ok, OnErr, OnOk, OnSome};
ghost use Rattle.std.specs.Prelude.{Some};
ghost use Rattle.outside.specs.declared.act.Role.{Role};
ghost use Rattle.outside.specs.Faults.{count_after};
ghost use Rattle.outside_memory.specs.Input.{HasItsSpare};
ghost use Rattle.outside.specs.Link.{Exchanged, IsAskedOnce, IsUnasked, SendsPart, received_bytes};
ghost use Rattle.outside_memory.specs.Output.{HasItsRoom};
ghost use Rattle.outside_memory.specs.Repeating.{items_after, next_item};
ghost use Rattle.outside_memory.specs.Room.{sent_within};
ghost use Rattle.outside.specs.Told.{Goes};

use crate::blank::Blank;
use crate::closed::Closed;
use crate::input::Input;
use crate::output::Output;
use outside::{Failed, Role, Stream};
use std::alloc::{AllocError, Global};

/// A stream with fixed room. It tells what passes as long as the bytes sent to it fit the room, but
/// never which receivings were asked of it.
#[derive(Drop)]
pub struct QuietStream {
    pub(crate) role: Role,
    pub(crate) input: Input,
    pub(crate) output: Output,
    ghost some_cut: { IsTrue output.telling → 0 < length input.cuts },
    ghost spare: { HasItsSpare input },
    ghost room: { HasItsRoom output },
}

impl QuietStream {
    ghost use Rattle.outside_memory.specs.Closed.{IsClosed};
    ghost use Rattle.outside_memory.specs.MemStream.{unused_link};
    ghost use Rattle.outside_memory.specs.QuietStream.{faults_of, link_of, role_of, stream_stock};

    /// A stream that gives `input` in pieces of the lengths `cuts`, the last of which repeats, with
    /// room for `room` bytes that are sent to it.
    pub fn new(
        alloc: Global,
        input: &[u8],
        cuts: &[usize],
        room: usize,
    ) -> Result<QuietStream, AllocError>
        requires some_cut { 0 < length cuts.now }
        requires each_cut { All (λ c. 1 ≤ c) cuts.now }
        ensures link { IfOk result
            (λ s. link_of s ≡ Some (unused_link input.now None)) }
        ensures role { IfOk result (λ s. role_of s ≡ Role.Pre 0) }
        ensures faults { IfOk result (λ s. faults_of s ≡ 0) }
        ensures stock { IfOk result
            (λ s. stream_stock s ≡ record { cuts = cuts.now; room = room }) }
    {
        let blank = Blank::new(alloc, cuts, input.len(), room)?;
        Ok(blank.start(Role::Pre { session: 0 }, input))
    }

    /// A stream that tells nothing and has nothing to send.
    pub(crate) fn silent(alloc: Global, role: Role) -> QuietStream
        ensures link { link_of result ≡ None }
        ensures role { role_of result ≡ role }
    {
        QuietStream {
            role,
            input: Input::none(alloc),
            output: Output::silent(alloc),
        }
    }

    /// Ends the stream, and gives what it tells, if it tells.
    pub(crate) fn close(self) -> Option<Closed>
        ensures told { IfSome result
            (λ closed. IsSomeAnd (link_of self) (IsClosed (role_of self) closed)) }
        ensures tells { is_some result ≡ is_some (link_of self) }
    {
        let QuietStream {
            role,
            input,
            output,
        } = self;
        Closed::of(role, input, output, None)
    }

    /// Which child it leads to.
    pub(crate) fn role(&self) -> Role
        ensures { result ≡ role_of self.now }
    {
        self.role
    }

    /// Whether it tells what passes.
    pub fn tells(&self) -> bool
        ensures { IsTrue result ↔ IsSome (link_of self.now) }
    {
        self.output.telling
    }

    /// The bytes sent to it, where it tells them.
    pub fn sent(&self) -> &[u8]
        ensures { IfSome (link_of self.now) (λ link. result.now ≡ link.sent) }
    {
        self.output.bytes.as_slice()
    }
}

impl Stream for QuietStream {
    ghost use Rattle.outside_memory.specs.QuietStream.{faults_of, link_of, role_of, stream_stock};

    ghost link = { link_of };

    ghost faults = { faults_of };

    ghost role = { role_of };

    /// Receives the next piece.
    #[tactic(auto, using(crate::proofs::RepeatingLemmas::cut_laws))]
    fn recv(&mut self, buf: &mut [u8]) -> Result<usize, Failed>
        requires { 0 < length buf.old }

        ensures bound { IfOk result (λ n. n ≤ length buf.old) }
        ensures link { Goes (Exchanged (received_bytes result buf.new) []) (link_of self.old)
            (link_of self.new) }
        ensures asked { Goes IsAskedOnce (link_of self.old) (link_of self.new) }
        ensures end { result ≡ Ok 0 → IfSome (link_of self.new) (λ l. l.left ≡ []) }
        ensures counts { faults_of self.new ≡ count_after result (faults_of self.old) }
        ensures kept { faults_of self.old ≤ faults_of self.new }
        ensures role { role_of self.new ≡ role_of self.old }

        ensures tells { IsSome (link_of self.new) ↔ IsSome (link_of self.old) }
        ensures piece { IfOk result (λ n. IfSome (link_of self.old) (λ l.
            n ≡ min (next_item (stream_stock self.old).cuts)
            (min (length buf.old) (length l.left)))) }
        ensures rest { IfOk result (λ n. drop n buf.new ≡ drop n buf.old) }
        ensures stock { stream_stock self.new ≡ record (stream_stock self.old) {
          cuts = items_after (stream_stock self.old).cuts;
        } }
    {
        Ok(self.input.give(buf))
    }

    /// Takes the bytes that are sent. It tells after it where it told before and they fit the room
    /// that was left.
    fn send(&mut self, bytes: &[u8]) -> Result<(), Failed>
        ensures ok { OnOk result
            (Goes (Exchanged [] bytes.now) (link_of self.old) (link_of self.new)) }
        ensures part { OnErr result (SendsPart bytes.now (link_of self.old) (link_of self.new)) }
        ensures unasked { Goes IsUnasked (link_of self.old) (link_of self.new) }
        ensures counts { faults_of self.new ≡ count_after result (faults_of self.old) }
        ensures kept { faults_of self.old ≤ faults_of self.new }
        ensures role { role_of self.new ≡ role_of self.old }

        ensures told { link_of self.new ≡ sent_within (stream_stock self.old).room
            (link_of self.old) bytes.now }
        ensures stock { stream_stock self.new ≡ record (stream_stock self.old) {
          room = (stream_stock self.old).room - length bytes.now;
        } }
    {
        self.output.keep(bytes);
        Ok(())
    }
}
