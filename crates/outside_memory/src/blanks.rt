ghost use Rattle.std.specs.Prelude.{◌≡◌, ◌<◌, ◌≤◌, ◌-◌, All, get_or, if◌then◌else◌, IfOk, length, min, nat_lt, None};
ghost use Rattle.std.specs.Prelude.{OnSome};
ghost use Rattle.outside_memory.specs.Blank.{BlankStreams, IsRoomy, unused_within};

use crate::blank::Blank;
use crate::quiet_stream::QuietStream;
use outside::Role;
use std::alloc::{AllocError, Global};
use std::marker::Model;

/// The room of streams that aren't used yet, all alike, and the cuts that each of them goes by.
#[derive(Drop)]
pub(crate) struct Blanks {
    alloc: Global,
    blanks: Vec<Blank>,
    cuts: Vec<usize>,
    size: usize,
}

impl Model for Blanks {
    ghost use Rattle.std.specs.Prelude.{◌≡◌, ◌<◌, All, length};
    ghost use Rattle.outside_memory.specs.Blank.{BlankStreams, IsRoomy};

    ghost Value = { BlankStreams };

    ghost view = { λ b. record { count = length b.blanks.items; cuts = b.cuts.items; size = b.size } };

    ghost invariant = { λ b. (0 < length b.cuts.items) ×
        All (IsRoomy b.cuts.items b.size) b.blanks.items };
}

impl Blanks {
    ghost use Rattle.outside_memory.specs.QuietStream.{link_of, role_of, stream_stock};

    /// Room for so many streams, each with up to `size` bytes to send, and with room for as many
    /// that are sent to it.
    pub(crate) fn new(
        alloc: Global,
        count: usize,
        cuts: &[usize],
        size: usize,
    ) -> Result<Blanks, AllocError>
        requires some_cut { 0 < length cuts.now }
        requires each_cut { All (λ c. 1 ≤ c) cuts.now }
        ensures { IfOk result
            (λ b. b ≡ record { count = count; cuts = cuts.now; size = size }) }
    {
        Ok(Blanks {
            alloc,
            blanks: blank_streams(alloc, count, cuts, size)?,
            cuts: Vec::from_slice(alloc, cuts)?,
            size,
        })
    }

    /// The stream to a child of this role, which has `input` to send. It doesn't tell where no room
    /// is left for it.
    pub(crate) fn start(&mut self, role: Role, input: &[u8]) -> QuietStream
        ensures link { link_of result ≡ (if nat_lt 0 self.old.count
            then unused_within self.old.size input.now else None) }
        ensures role { role_of result ≡ role }
        ensures stock { OnSome (link_of result) (stream_stock result
            ≡ record { cuts = self.old.cuts; room = self.old.size }) }
        ensures after { self.new ≡ record {
          count = self.old.count - 1;
          cuts = self.old.cuts;
          size = self.old.size;
        } }
    {
        let Some(blank) = self.blanks.pop() else {
            return QuietStream::silent(self.alloc, role);
        };
        blank.start(role, input)
    }

    /// The length of the piece with this number, counted from 0: the cut with it, or the last one.
    pub(crate) fn cut(&self, number: usize) -> usize
        ensures { result ≡ get_or self.now.cuts (min number (length self.now.cuts - 1)) 0 }
    {
        self.cuts[number.min(self.cuts.len() - 1)]
    }
}

/// Room for so many streams.
fn blank_streams(
    alloc: Global,
    count: usize,
    cuts: &[usize],
    size: usize,
) -> Result<Vec<Blank>, AllocError>
    requires some_cut { 0 < length cuts.now }
    requires each_cut { All (λ c. 1 ≤ c) cuts.now }
    ensures count { IfOk result (λ made. length made.items ≡ count) }
    ensures each { IfOk result
        (λ made. All (IsRoomy cuts.now size) made.items) }
{
    let mut blanks = Vec::with_capacity(alloc, count)?;
    for _ in 0..count {
        blanks.push(Blank::new(alloc, cuts, size, size)?)?;
    }
    Ok(blanks)
}
