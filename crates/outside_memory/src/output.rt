ghost use Rattle.std.specs.Prelude.{◌≡◌, ◌+◌, ◌-◌, ◌≤◌, [], IfOk, length, None, Some, vec_capacity, vec_len};
ghost use Rattle.outside_memory.specs.Failures.{bytes_let_out};
ghost use Rattle.outside_memory.specs.Room.{kept_within};
ghost use Rattle.outside.specs.Told.{Gains};

use std::alloc::{AllocError, Global};

/// The bytes that went out, kept and told as long as they fit the room and memory is found for them.
#[derive(Drop)]
pub(crate) struct Output {
    pub(crate) bytes: Vec<u8>,
    pub(crate) left: usize,
    pub(crate) telling: bool,
}

impl Output {
    ghost use Rattle.outside_memory.specs.Output.{HasItsRoom, told_bytes};

    /// Nothing went out yet. Memory is taken as it is needed.
    pub(crate) fn new(alloc: Global) -> Output
        ensures { told_bytes result ≡ Some [] }
    {
        Output {
            bytes: Vec::new(alloc),
            left: usize::MAX,
            telling: true,
        }
    }

    /// Nothing went out yet. The room for so many bytes is taken here.
    pub(crate) fn with_room(alloc: Global, room: usize) -> Result<Output, AllocError>
        ensures told { IfOk result (λ o. told_bytes o ≡ Some []) }
        ensures left { IfOk result (λ o. o.left ≡ room) }
        ensures room { IfOk result HasItsRoom }
    {
        Ok(Output {
            bytes: Vec::with_capacity(alloc, room)?,
            left: room,
            telling: true,
        })
    }

    /// Nothing is told of what goes out, and there is no room for it.
    pub(crate) fn silent(alloc: Global) -> Output
        ensures told { told_bytes result ≡ None }
        ensures left { result.left ≡ 0 }
        ensures room { HasItsRoom result }
    {
        Output {
            bytes: Vec::new(alloc),
            left: 0,
            telling: false,
        }
    }

    /// Lets bytes out: all of them, or a first part where the call fails. How many.
    pub(crate) fn write(&mut self, bytes: &[u8], failure: Option<usize>) -> usize
        ensures gains { Gains (told_bytes self.old) (bytes_let_out failure bytes.now)
            (told_bytes self.new) }
        ensures many { result ≡ length (bytes_let_out failure bytes.now) }
    {
        let going = failure.map_or(bytes.len(), |sent| sent.min(bytes.len()));
        self.keep(&bytes[..going]);
        going
    }

    /// Keeps more bytes. Where they don't fit the room that is left, or no memory is found for them,
    /// nothing is told any more.
    pub(crate) fn keep(&mut self, bytes: &[u8])
        ensures gains { Gains (told_bytes self.old) bytes.now (told_bytes self.new) }
        ensures told { HasItsRoom self.old
            → told_bytes self.new ≡ kept_within self.old.left (told_bytes self.old) bytes.now }
        ensures left { self.new.left ≡ self.old.left - length bytes.now }
        ensures room { HasItsRoom self.old → HasItsRoom self.new }
    {
        if bytes.len() > self.left {
            self.left = 0;
            self.telling = false;
            return;
        }
        self.left -= bytes.len();
        if self.bytes.extend_from_slice(bytes).is_err() {
            self.telling = false;
        }
    }
}
