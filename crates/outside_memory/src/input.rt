ghost use Rattle.std.specs.Prelude.{◌≡◌, ◌<◌, ◌≤◌, [], All, drop, IfOk, IfSome, IsSome, length, min, take};
ghost use Rattle.std.specs.Prelude.{vec_capacity, vec_len};
ghost use Rattle.outside_memory.specs.Repeating.{items_after, next_item};
ghost use Rattle.std.proofs.Props.{props};

use crate::repeating::Repeating;
use std::alloc::{AllocError, Global};

/// What a stream has to send: the bytes, how many of them were taken, the lengths of the pieces in
/// which it gives them, and where what is left goes once the stream is closed.
#[derive(Drop)]
pub(crate) struct Input {
    pub(crate) bytes: Vec<u8>,
    pub(crate) taken: usize,
    pub(crate) cuts: Repeating<usize>,
    pub(crate) spare: Vec<u8>,
    ghost in_bytes: { taken ≤ length bytes.items },
    ghost each_cut: { All (λ c. 1 ≤ c) cuts } by { Prim.hlevel props },
    ghost unused: { vec_len spare ≡ 0 },
}

impl Input {
    ghost use Rattle.outside_memory.specs.Input.{HasGiven, HasItsSpare};

    /// Copies of these bytes and cuts.
    pub(crate) fn of(alloc: Global, bytes: &[u8], cuts: &[usize]) -> Result<Input, AllocError>
        requires { All (λ c. 1 ≤ c) cuts.now }
        ensures bytes { IfOk result (λ input. input.bytes.items ≡ bytes.now) }
        ensures taken { IfOk result (λ input. input.taken ≡ 0) }
        ensures cuts { IfOk result (λ input. input.cuts ≡ cuts.now) }
    {
        Ok(Input {
            bytes: Vec::from_slice(alloc, bytes)?,
            taken: 0,
            cuts: Repeating::of(alloc, cuts)?,
            spare: Vec::new(alloc),
        })
    }

    /// Nothing to send.
    pub(crate) fn none(alloc: Global) -> Input
        ensures { HasItsSpare result }
    {
        Input {
            bytes: Vec::new(alloc),
            taken: 0,
            cuts: Repeating::none(alloc),
            spare: Vec::new(alloc),
        }
    }

    /// Puts the next piece to the front of a buffer, and gives its length.
    #[tactic(auto, using(crate::proofs::RepeatingLemmas::cut_laws))]
    pub(crate) fn give(&mut self, buf: &mut [u8]) -> usize
        ensures bound { result ≤ length buf.old }
        ensures piece { result ≡ min (next_item self.old.cuts)
            (min (length buf.old) (length (drop self.old.taken self.old.bytes.items))) }
        ensures front { take result buf.new
            ≡ take result (drop self.old.taken self.old.bytes.items) }
        ensures rest { drop result buf.new ≡ drop result buf.old }
        ensures given { HasGiven result self.old self.new }
    {
        let piece = self.cuts.take().unwrap_or(0);
        let left = &self.bytes[self.taken..];
        let n = piece.min(buf.len()).min(left.len());
        buf[..n].copy_from_slice(&left[..n]);
        self.taken += n;
        n
    }

    /// The bytes that were taken, and those that are left, if memory is found for these.
    pub(crate) fn parted(self) -> Option<(Vec<u8>, Vec<u8>)>
        ensures taken { IfSome result (λ parts. parts.0.items ≡ take self.taken self.bytes.items) }
        ensures left { IfSome result (λ parts. parts.1.items ≡ drop self.taken self.bytes.items) }
        ensures spare { HasItsSpare self → IsSome result }
    {
        let Input {
            mut bytes,
            taken,
            cuts: _,
            mut spare,
        } = self;
        spare.extend_from_slice(&bytes[taken..]).ok()?;
        bytes.truncate(taken);
        Some((bytes, spare))
    }
}
