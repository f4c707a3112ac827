ghost use Rattle.std.specs.Prelude.{◌≡◌, IfSome, is_some, IsSomeAnd};
ghost use Rattle.outside_memory.specs.Input.{HasItsSpare};
ghost use Rattle.outside_memory.specs.MemStream.{link_at};
ghost use Rattle.outside.specs.Told.{told_if};

use crate::input::Input;
use crate::output::Output;
use outside::{Bytes, Receivings, Role, Talk};

/// What a stream that is closed told: what passed, and what was left.
pub(crate) struct Closed {
    pub(crate) talk: Talk,
    pub(crate) unread: Bytes,
}

impl Closed {
    ghost use Rattle.outside_memory.specs.Closed.{IsClosed};

    /// What a stream to a child of this role told, if it told and memory is found for what is left.
    pub(crate) fn of(
        role: Role,
        input: Input,
        output: Output,
        receivings: Option<Receivings>,
    ) -> Option<Closed>
        ensures told { IfSome result (λ closed. IsSomeAnd (told_if output.telling
            (link_at input.bytes.items output.bytes.items input.taken receivings))
            (IsClosed role closed)) }
        ensures spare { HasItsSpare input → is_some result ≡ output.telling }
    {
        if !output.telling {
            return None;
        }
        let (taken, left) = input.parted()?;
        Some(Closed {
            talk: Talk {
                role,
                taken: Bytes::from(taken),
                sent: Bytes::from(output.bytes),
                receivings,
            },
            unread: Bytes::from(left),
        })
    }
}
