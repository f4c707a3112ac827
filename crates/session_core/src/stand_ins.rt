//! The accounts that stand in for decoys.

use otp_ledger::mixed;
use policy_model::Ask;
use std::alloc::{AllocError, Global};

/// For each worker a number that goes with the name that it was last asked to challenge. Where that was a
/// decoy, the account of this number stands in when a REPLY is judged: so the same work is done for it as for a
/// user, in memory that is as near. No contract speaks of it, since what comes of it is never told.
#[derive(Drop)]
pub(crate) struct StandIns {
    numbers: Vec<u64>,
}

impl StandIns {
    /// Those of so many workers.
    pub(crate) fn new(alloc: Global, workers: u32) -> Result<StandIns, AllocError> {
        Ok(StandIns {
            numbers: vec![in alloc; 0; workers as usize]?,
        })
    }

    /// The worker's.
    pub(crate) fn of(&self, worker: u32) -> u64 {
        self.numbers.get(worker as usize).copied().unwrap_or(0)
    }

    /// Keeps the number of the name that a worker asks to challenge.
    pub(crate) fn keep(&mut self, worker: u32, ask: &Ask) {
        let Ask::Challenge { user, .. } = ask else {
            return;
        };
        if let Some(number) = self.numbers.get_mut(worker as usize) {
            *number = mixed(user);
        }
    }
}
