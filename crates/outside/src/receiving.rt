ghost use Rattle.std.specs.Prelude.{◌≡◌, ◌++◌, ◌∷◌, [], OnOk};

use std::alloc::{AllocError, Global};
use std::marker::Model;

/// A receiving that was asked of a stream: how many bytes the stream had taken and sent before it.
#[derive(Clone, Copy, PartialEq, Eq)]
pub struct Receiving {
    pub taken: usize,
    pub sent: usize,
}

/// Receivings, in order.
#[derive(Drop)]
pub struct Receivings {
    items: Vec<Receiving>,
}

impl Model for Receivings {
    ghost use Rattle.std.specs.Prelude.{List};
    ghost use Rattle.outside.specs.declared.receiving.Receiving.{Receiving};

    ghost Value = { List Receiving };

    ghost view = { λ r. r.items.items };
}

impl Receivings {
    /// None yet.
    pub fn none(alloc: Global) -> Receivings
        ensures { result ≡ [] }
    {
        Receivings {
            items: Vec::new(alloc),
        }
    }

    /// The receivings.
    pub fn as_slice(&self) -> &[Receiving]
        ensures { result.now ≡ self.now }
    {
        self.items.as_slice()
    }

    /// Adds one.
    pub fn push(&mut self, receiving: Receiving) -> Result<(), AllocError>
        ensures { OnOk result (self.new ≡ self.old ++ receiving ∷ []) }
    {
        Ok(self.items.push(receiving)?)
    }
}
