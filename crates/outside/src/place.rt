ghost use Rattle.std.specs.Prelude.{◌≡◌, IfOk};

use crate::bytes::Word;
use std::alloc::{AllocError, Global};

/// Where and how a site listens.
#[derive(Drop)]
pub struct Place {
    /// The path of the socket that clients connect to.
    pub socket: Word,
    /// The program that starts children.
    pub launcher: Word,
    /// The directory of the users' files.
    pub vault: Word,
    /// The number of workers, each with a post of its own: at least 1 where a site listens.
    pub workers: u32,
}

impl Place {
    /// A copy of the place.
    pub fn copy(&self, alloc: Global) -> Result<Place, AllocError>
        ensures { IfOk result (λ place. place ≡ self.now) }
    {
        Ok(Place {
            socket: self.socket.copy(alloc)?,
            launcher: self.launcher.copy(alloc)?,
            vault: self.vault.copy(alloc)?,
            workers: self.workers,
        })
    }
}
