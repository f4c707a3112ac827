//! What a session's first child hands on.

ghost use Rattle.std.specs.Prelude.{◌≡◌, ◌≤◌, vec_len};

use crate::writing::write;
use std::alloc::{AllocError, Global};

/// The most bytes that an EXPORT hands on.
const STATE_MAX: usize = 8_192;

/// What a session's first child exported.
#[derive(Drop)]
pub struct Exported {
    bytes: Vec<u8>,
    len: usize,
    ghost room: { vec_len bytes ≡ 8192 },
    ghost within: { len ≤ 8192 },
}

impl Exported {
    ghost use Rattle.std.specs.Prelude.{◌≡◌, ◌≤◌, [], length};
    ghost use Rattle.session_asking.specs.Made.{exported_bytes};

    pub(crate) fn new(alloc: Global) -> Result<Exported, AllocError> {
        Ok(Exported {
            bytes: vec![in alloc; 0; STATE_MAX]?,
            len: 0,
        })
    }

    /// The bytes that were exported.
    pub fn as_slice(&self) -> &[u8]
        ensures bytes { result.now ≡ exported_bytes self.now }
        ensures few { length result.now ≤ 8192 }
    {
        &self.bytes[..self.len]
    }

    /// These bytes are what was exported.
    pub(crate) fn keep(&mut self, state: &[u8])
        requires few { length state.now ≤ 8192 }
        ensures { exported_bytes self.new ≡ state.now }
    {
        self.len = write(state, &mut self.bytes);
    }

    /// Nothing was exported.
    pub fn clear(&mut self)
        ensures { exported_bytes self.new ≡ [] }
    {
        self.len = 0;
    }
}
