ghost use Rattle.std.specs.Prelude.{◌≡◌, ◌+◌, ◌<◌, ◌≤◌, ◌++◌, All, false, IfOk, IfSome, is_some, IsTrue, length, true};
ghost use Rattle.std.specs.Prelude.{vec_capacity, vec_len};
ghost use Rattle.outside_memory.specs.Pieces.{has_piece, used};

use crate::room::Pieces;
use outside::Bytes;
use std::alloc::{AllocError, Global};
use std::marker::Model;

/// Where bytes are kept: in empty buffers of one size, which are used up one by one, or in memory that
/// is taken as it is needed.
#[derive(Drop)]
pub(crate) struct Buffers {
    alloc: Global,
    buffers: Vec<Vec<u8>>,
    size: usize,
    fixed: bool,
}

impl Model for Buffers {
    ghost use Rattle.std.specs.Prelude.{◌≡◌, ◌≤◌, All, false, length, vec_capacity, vec_len};
    ghost use Rattle.outside_memory.specs.Pieces.{Buffered};

    ghost Value = { Buffered };

    ghost view = { λ b. record {
      fixed = b.fixed;
      pieces = record { count = length b.buffers.items; size = b.size };
    } };

    ghost invariant = { λ b. (b.fixed ≡ false → length b.buffers.items ≡ 0)
        × All (λ v. (vec_len v ≡ 0) × (b.size ≤ vec_capacity v)) b.buffers.items };
}

impl Buffers {
    /// Memory that is taken as it is needed.
    pub(crate) fn growing(alloc: Global) -> Buffers
        ensures { result ≡ record { fixed = false; pieces = record { count = 0; size = 0 } } }
    {
        Buffers {
            alloc,
            buffers: Vec::new(alloc),
            size: 0,
            fixed: false,
        }
    }

    /// So many empty buffers.
    pub(crate) fn fixed(alloc: Global, room: Pieces) -> Result<Buffers, AllocError>
        ensures { IfOk result (λ b. b ≡ record { fixed = true; pieces = room }) }
    {
        Ok(Buffers {
            alloc,
            buffers: empty_buffers(alloc, room)?,
            size: room.size,
            fixed: true,
        })
    }

    /// How many buffers are left, and their size.
    pub(crate) fn pieces(&self) -> Pieces
        ensures { result ≡ self.now.pieces }
    {
        Pieces {
            count: self.buffers.len(),
            size: self.size,
        }
    }

    /// Whether there are only the buffers that are left.
    pub(crate) fn is_fixed(&self) -> bool
        ensures { result ≡ self.now.fixed }
    {
        self.fixed
    }

    /// An empty buffer with room for so many bytes, if there is one. It is used up, also where it is
    /// too small.
    pub(crate) fn take(&mut self, len: usize) -> Option<Vec<u8>>
        ensures empty { IfSome result (λ buffer. vec_len buffer ≡ 0) }
        ensures room { IfSome result (λ buffer. len ≤ vec_capacity buffer) }
        ensures found { IsTrue self.old.fixed → is_some result ≡ has_piece self.old.pieces len }
        ensures after { self.new ≡ used 1 self.old }
    {
        if !self.fixed {
            return Vec::with_capacity(self.alloc, len).ok();
        }
        let buffer = self.buffers.pop()?;
        if len > self.size {
            return None;
        }
        Some(buffer)
    }

    /// A copy of bytes, if there is a buffer for them. It is used up, also where it is too small.
    pub(crate) fn copy(&mut self, bytes: &[u8]) -> Option<Bytes>
        ensures bytes { IfSome result (λ copy. copy ≡ bytes.now) }
        ensures found { IsTrue self.old.fixed
            → is_some result ≡ has_piece self.old.pieces (length bytes.now) }
        ensures after { self.new ≡ used 1 self.old }
    {
        let mut buffer = self.take(bytes.len())?;
        fill(&mut buffer, bytes);
        Some(Bytes::from(buffer))
    }
}

/// Empty buffers with this room.
fn empty_buffers(alloc: Global, room: Pieces) -> Result<Vec<Vec<u8>>, AllocError>
    ensures count { IfOk result (λ made. length made.items ≡ room.count) }
    ensures each { IfOk result
        (λ made. All (λ b. (vec_len b ≡ 0) × (room.size ≤ vec_capacity b)) made.items) }
{
    let mut buffers = Vec::with_capacity(alloc, room.count)?;
    for _ in 0..room.count {
        buffers.push(Vec::with_capacity(alloc, room.size)?)?;
    }
    Ok(buffers)
}

/// Appends bytes to a buffer that has room for them.
pub(crate) fn fill(buffer: &mut Vec<u8>, bytes: &[u8])
    requires { vec_len buffer.old + length bytes.now ≤ vec_capacity buffer.old }
    ensures items { buffer.new.items ≡ buffer.old.items ++ bytes.now }
    ensures len { vec_len buffer.new ≡ vec_len buffer.old + length bytes.now }
    ensures capacity { vec_capacity buffer.old ≤ vec_capacity buffer.new }
{
    let Ok(()) = buffer.extend_from_slice(bytes) else {
        unreachable!()
    };
}
