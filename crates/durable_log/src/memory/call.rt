//! What a disk in memory keeps of its calls.

ghost use Rattle.std.specs.Prelude.{◌≡◌, ◌↔◌, ◌+◌, ◌-◌, ◌^◌, Contains, IfOk, IsErr, min};
ghost use Rattle.outside.specs.Faults.{count_after};
ghost use Rattle.durable_log.specs.Disk.{overwritten};

use outside::{Bytes, Failed};
use std::alloc::{AllocError, Global};

/// A call, and whether it was done.
#[derive(Drop)]
pub(crate) enum DiskCall {
    Write { at: u64, bytes: Bytes, done: bool },
    Sync { done: bool },
}

/// Counts a call, and whether it fails.
pub(super) fn outcome(fails: &[u32], made: &mut u32, faults: &mut u64) -> Result<(), Failed>
    ensures made { made.new ≡ min (made.old + 1) (2 ^ 32 - 1) }
    ensures listed { IsErr result ↔ Contains fails.now made.new }
    ensures counts { faults.new ≡ count_after result faults.old }
{
    *made = made.saturating_add(1);
    if fails.contains(made) {
        *faults = faults.saturating_add(1);
        return Err(Failed);
    }
    Ok(())
}

/// The bytes after a write. A write whose place is past the end begins at the end.
pub(super) fn write_over(
    alloc: Global,
    old: &[u8],
    at: u64,
    bytes: &[u8],
) -> Result<Vec<u8>, AllocError>
    ensures { IfOk result (λ v. v.items ≡ overwritten old.now at bytes.now) }
{
    let front = old.len().min(at as usize);
    let mut new = Vec::from_slice(alloc, &old[..front])?;
    new.extend_from_slice(bytes)?;
    if bytes.len() < old.len() - front {
        new.extend_from_slice(&old[front + bytes.len()..])?;
    }
    Ok(new)
}
