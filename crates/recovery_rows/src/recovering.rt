//! Recovery over files in memory.

ghost use Rattle.std.specs.Prelude.{IfOk};
ghost use Rattle.outside_memory.specs.MemFiles.{contents_of};
ghost use Rattle.outside.specs.Told.{Goes};
ghost use Rattle.recover_mode.specs.Outcome.{Spares};
ghost use Rattle.recover_mode.specs.Returning.{BringsBack};
ghost use Rattle.recovery_rows.specs.Parts.{row_parts};

use outside_memory::{MemFiles, MemStream};
use recover_mode::{RecoverCommand, Recovery, run_recover};
use std::alloc::{AllocError, Global};
use trouble::Trouble;

/// What recovery came to, what it sent, and the files after it.
#[derive(Drop)]
pub struct Came {
    pub outcome: Result<Recovery, Trouble>,
    pub told: Vec<u8>,
    pub files: MemFiles,
}

/// Recovers the setup in the file `setup` from the durable log in the file `log`.
///
/// # Errors
///
/// There isn't the memory for what is sent.
pub fn recover_files(alloc: Global, files: MemFiles) -> Result<Came, AllocError>
    ensures back { IfOk result (λ came. Goes (BringsBack row_parts came.outcome) (contents_of files)
        (contents_of came.files)) }
    ensures spares { IfOk result (λ came. Goes (Spares row_parts) (contents_of files) (contents_of came.files)) }
{
    let mut files = files;
    let mut ends = MemStream::new(alloc, b"", &[100], &[])?;
    let command = RecoverCommand {
        setup: "setup",
        log: "log",
    };
    let outcome = run_recover(alloc, &command, &mut files, &mut ends);
    Ok(Came {
        outcome,
        told: Vec::from_slice(alloc, ends.sent())?,
        files,
    })
}
