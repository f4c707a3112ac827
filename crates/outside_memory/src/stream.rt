ghost use Rattle.std.specs.Prelude.{◌≡◌, ◌↔◌, ◌<◌, ◌≤◌, [], ◌∷◌, ◌++◌, All, drop, IfOk, IfSome, IsErr, IsSome};
ghost use Rattle.std.specs.Prelude.{IsSomeAnd, IsTrue, length, min, OnErr, OnOk, OnSome, Ok, Some};
ghost use Rattle.outside_memory.specs.Repeating.{items_after, next_item};
ghost use Rattle.outside_memory.specs.Failures.{bytes_let_out};
ghost use Rattle.outside.specs.Link.{Exchanged, IsAskedOnce, IsUnasked, SendsPart, received_bytes};
ghost use Rattle.outside.specs.Faults.{count_after};
ghost use Rattle.outside.specs.Told.{Goes, next_count};

use crate::closed::Closed;
use crate::fail::{CallKind, Fail, find_failure};
use crate::input::Input;
use crate::output::Output;
use outside::{Failed, Receiving, Receivings, Role, Stream};
use std::alloc::{AllocError, Global};

/// A stream in memory. It tells what passes as long as memory is found for the bytes sent to it and
/// for the receivings asked of it.
#[derive(Drop)]
pub struct MemStream {
    role: Role,
    input: Input,
    output: Output,
    receivings: Receivings,
    fails: Vec<Fail>,
    recvs: u64,
    sends: u64,
    faults: u64,
    ghost some_cut: { IsTrue output.telling → 0 < length input.cuts },
}

/// Notes that a receiving is asked of a stream that has taken so many bytes. Nothing is told any more
/// where no memory is found for that.
fn note_receiving(receivings: &mut Receivings, output: &mut Output, taken: usize)
    ensures noted { IsTrue output.new.telling → receivings.new
        ≡ receivings.old ++ record { taken = taken; sent = length output.old.bytes.items } ∷ [] }
    ensures bytes { output.new.bytes ≡ output.old.bytes }
    ensures telling { IsTrue output.new.telling → IsTrue output.old.telling }
{
    let receiving = Receiving {
        taken,
        sent: output.bytes.len(),
    };
    if receivings.push(receiving).is_err() {
        output.telling = false;
    }
}

impl MemStream {
    ghost use Rattle.outside_memory.specs.Closed.{IsClosed};
    ghost use Rattle.outside_memory.specs.MemStream.{faults_of, link_of, role_of, stream_schedule, unused_link};

    /// A stream that gives `input` in pieces of the lengths `cuts`, the last of which repeats. Its
    /// calls fail exactly where `fails` lists them.
    pub fn new(
        alloc: Global,
        input: &[u8],
        cuts: &[usize],
        fails: &[Fail],
    ) -> Result<MemStream, AllocError>
        requires some_cut { 0 < length cuts.now }
        requires each_cut { All (λ c. 1 ≤ c) cuts.now }
        ensures link { IfOk result
            (λ s. link_of s ≡ Some (unused_link input.now (Some []))) }
        ensures role { IfOk result (λ s. role_of s ≡ Role.Pre 0) }
        ensures faults { IfOk result (λ s. faults_of s ≡ 0) }
        ensures schedule { IfOk result (λ s. stream_schedule s
            ≡ record { fails = fails.now; cuts = cuts.now; recvs = 0; sends = 0 }) }
    {
        let input = Input::of(alloc, input, cuts)?;
        let fails = Vec::from_slice(alloc, fails)?;
        let role = Role::Pre { session: 0 };
        Ok(MemStream::with(alloc, role, input, Output::new(alloc), fails))
    }

    /// The stream to a child of this role, which has `input` to send. It doesn't tell where no
    /// memory is found for the input or the cuts.
    pub(crate) fn for_child(
        alloc: Global,
        role: Role,
        input: &[u8],
        cuts: &[usize],
        fails: Vec<Fail>,
    ) -> MemStream
        requires some_cut { 0 < length cuts.now }
        requires each_cut { All (λ c. 1 ≤ c) cuts.now }
        ensures link { IfSome (link_of result)
            (λ l. l ≡ unused_link input.now (Some [])) }
        ensures role { role_of result ≡ role }
        ensures faults { faults_of result ≡ 0 }
        ensures fails { (stream_schedule result).fails ≡ fails.items }
        ensures schedule { OnSome (link_of result) (stream_schedule result
            ≡ record { fails = fails.items; cuts = cuts.now; recvs = 0; sends = 0 }) }
    {
        match Input::of(alloc, input, cuts) {
            Ok(input) => MemStream::with(alloc, role, input, Output::new(alloc), fails),
            Err(AllocError) => {
                let input = Input::none(alloc);
                MemStream::with(alloc, role, input, Output::silent(alloc), fails)
            }
        }
    }

    fn with(alloc: Global, role: Role, input: Input, output: Output, fails: Vec<Fail>) -> MemStream
        requires { IsTrue output.telling → 0 < length input.cuts }
        ensures role { role_of result ≡ role }
        ensures input { result.input ≡ input }
        ensures output { result.output ≡ output }
        ensures receivings { result.receivings ≡ [] }
        ensures fails { result.fails ≡ fails }
        ensures recvs { result.recvs ≡ 0 }
        ensures sends { result.sends ≡ 0 }
        ensures faults { faults_of result ≡ 0 }
    {
        MemStream {
            role,
            input,
            output,
            receivings: Receivings::none(alloc),
            fails,
            recvs: 0,
            sends: 0,
            faults: 0,
        }
    }

    /// Ends the stream, and gives what it tells, if it tells and memory is found for it.
    pub(crate) fn close(self) -> Option<Closed>
        ensures { IfSome result
            (λ closed. IsSomeAnd (link_of self) (IsClosed (role_of self) closed)) }
    {
        let MemStream {
            role,
            input,
            output,
            receivings,
            fails: _,
            recvs: _,
            sends: _,
            faults: _,
        } = self;
        Closed::of(role, input, output, Some(receivings))
    }

    /// Which child it leads to.
    pub(crate) fn role(&self) -> Role
        ensures { result ≡ role_of self.now }
    {
        self.role
    }

    /// How many faults it had.
    pub(crate) fn faults(&self) -> u64
        ensures { result ≡ faults_of self.now }
    {
        self.faults
    }

    /// Whether it tells what passes.
    pub fn tells(&self) -> bool
        ensures { IsTrue result ↔ IsSome (link_of self.now) }
    {
        self.output.telling
    }

    /// The bytes sent to it, where it tells them.
    pub fn sent(&self) -> &[u8]
        ensures { IfSome (link_of self.now) (λ link. result.now ≡ link.sent) }
    {
        self.output.bytes.as_slice()
    }
}

impl Stream for MemStream {
    ghost use Rattle.outside_memory.specs.MemStream.{faults_of, link_of, recv_failure, role_of, send_failure};
    ghost use Rattle.outside_memory.specs.MemStream.{stream_schedule};

    ghost link = { link_of };

    ghost faults = { faults_of };

    ghost role = { role_of };

    /// Receives the next piece. It fails exactly where its list says so.
    #[tactic(auto, using(crate::proofs::RepeatingLemmas::cut_laws))]
    fn recv(&mut self, buf: &mut [u8]) -> Result<usize, Failed>
        requires { 0 < length buf.old }

        ensures bound { IfOk result (λ n. n ≤ length buf.old) }
        ensures link { Goes (Exchanged (received_bytes result buf.new) []) (link_of self.old)
            (link_of self.new) }
        ensures asked { Goes IsAskedOnce (link_of self.old) (link_of self.new) }
        ensures end { result ≡ Ok 0 → IfSome (link_of self.new) (λ l. l.left ≡ []) }
        ensures counts { faults_of self.new ≡ count_after result (faults_of self.old) }
        ensures kept { faults_of self.old ≤ faults_of self.new }
        ensures role { role_of self.new ≡ role_of self.old }

        ensures listed { IsErr result ↔ IsSome (recv_failure (stream_schedule self.old)) }
        ensures piece { IfOk result (λ n. IfSome (link_of self.old) (λ l.
            n ≡ min (next_item (stream_schedule self.old).cuts)
            (min (length buf.old) (length l.left)))) }
        ensures rest { IfOk result (λ n. drop n buf.new ≡ drop n buf.old) }
        ensures schedule_ok { OnOk result
            (stream_schedule self.new ≡ record (stream_schedule self.old) {
              recvs = next_count (stream_schedule self.old).recvs;
              cuts = items_after (stream_schedule self.old).cuts;
            }) }
        ensures schedule_err { OnErr result
            (stream_schedule self.new ≡ record (stream_schedule self.old) {
              recvs = next_count (stream_schedule self.old).recvs;
            }) }
    {
        note_receiving(&mut self.receivings, &mut self.output, self.input.taken);
        self.recvs = self.recvs.saturating_add(1);
        if find_failure(&self.fails, CallKind::Recv, self.recvs).is_some() {
            self.faults = self.faults.saturating_add(1);
            return Err(Failed);
        }
        Ok(self.input.give(buf))
    }

    /// Takes the bytes that are sent. It fails exactly where its list says so.
    fn send(&mut self, bytes: &[u8]) -> Result<(), Failed>
        ensures ok { OnOk result
            (Goes (Exchanged [] bytes.now) (link_of self.old) (link_of self.new)) }
        ensures part { OnErr result (SendsPart bytes.now (link_of self.old) (link_of self.new)) }
        ensures unasked { Goes IsUnasked (link_of self.old) (link_of self.new) }
        ensures counts { faults_of self.new ≡ count_after result (faults_of self.old) }
        ensures kept { faults_of self.old ≤ faults_of self.new }
        ensures role { role_of self.new ≡ role_of self.old }

        ensures listed { IsErr result ↔ IsSome (send_failure (stream_schedule self.old)) }
        ensures let_out { Goes
            (Exchanged [] (bytes_let_out (send_failure (stream_schedule self.old)) bytes.now))
            (link_of self.old) (link_of self.new) }
        ensures schedule { stream_schedule self.new ≡ record (stream_schedule self.old) {
          sends = next_count (stream_schedule self.old).sends;
        } }
    {
        self.sends = self.sends.saturating_add(1);
        let failure = find_failure(&self.fails, CallKind::Send, self.sends);
        self.output.write(bytes, failure);
        match failure {
            None => Ok(()),
            Some(_) => {
                self.faults = self.faults.saturating_add(1);
                Err(Failed)
            }
        }
    }
}
