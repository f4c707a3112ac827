ghost use Rattle.std.specs.Prelude.{◌≡◌, ◌<◌, ◌≤◌, [], All, if◌then◌else◌, IfOk, length, nat_le, None, Some};
ghost use Rattle.outside_memory.specs.Blank.{BlankStream, unused_within};

use crate::input::Input;
use crate::output::Output;
use crate::quiet_stream::QuietStream;
use crate::repeating::Repeating;
use outside::Role;
use std::alloc::{AllocError, Global};
use std::marker::Model;

/// The room of a stream that isn't used yet.
#[derive(Drop)]
pub(crate) struct Blank {
    input: Vec<u8>,
    spare: Vec<u8>,
    room: usize,
    cuts: Repeating<usize>,
    output: Output,
}

impl Model for Blank {
    ghost use Rattle.std.specs.Prelude.{◌≡◌, vec_capacity, vec_len};
    ghost use Rattle.outside_memory.specs.Blank.{BlankStream, IsBlank};
    ghost use Rattle.outside_memory.specs.Output.{HasItsRoom, told_bytes};

    ghost Value = { BlankStream };

    ghost view = { λ b. record { cuts = b.cuts; input = b.room; sent = b.output.left } };

    ghost invariant = { λ b. (vec_len b.input ≡ 0) × (vec_len b.spare ≡ 0) × HasItsRoom b.output ×
        IsBlank b.cuts b.room (vec_capacity b.input) (vec_capacity b.spare) (told_bytes b.output) };
}

impl Blank {
    ghost use Rattle.outside_memory.specs.QuietStream.{link_of, role_of, stream_stock};

    /// Room for a stream that has up to so many bytes to send, and is sent up to so many.
    pub(crate) fn new(
        alloc: Global,
        cuts: &[usize],
        input: usize,
        sent: usize,
    ) -> Result<Blank, AllocError>
        requires some_cut { 0 < length cuts.now }
        requires each_cut { All (λ c. 1 ≤ c) cuts.now }
        ensures { IfOk result
            (λ b. b ≡ record { cuts = cuts.now; input = input; sent = sent }) }
    {
        Ok(Blank {
            input: Vec::with_capacity(alloc, input)?,
            spare: Vec::with_capacity(alloc, input)?,
            room: input,
            cuts: Repeating::of(alloc, cuts)?,
            output: Output::with_room(alloc, sent)?,
        })
    }

    /// The stream to a child of this role, which has `input` to send. It doesn't tell where the
    /// input doesn't fit the room.
    pub(crate) fn start(self, role: Role, input: &[u8]) -> QuietStream
        ensures link { link_of result ≡ unused_within self.input input.now }
        ensures role { role_of result ≡ role }
        ensures stock { stream_stock result ≡ record { cuts = self.cuts; room = self.sent } }
    {
        let Blank {
            input: mut bytes,
            spare,
            room,
            cuts,
            mut output,
        } = self;
        if input.len() > room {
            output.telling = false;
        } else {
            let Ok(()) = bytes.extend_from_slice(input) else {
                unreachable!()
            };
        }
        QuietStream {
            role,
            input: Input {
                bytes,
                taken: 0,
                cuts,
                spare,
            },
            output,
        }
    }
}
