//! A disk in memory.

mod call;
mod picture;

ghost use Rattle.std.specs.Prelude.{◌≡◌, ◌↔◌, ◌≤◌, ◌++◌, ◌∷◌, ◌+◌, ◌-◌, ◌^◌, [], Contains, IfOk, IfSome, IsErr, IsSome};
ghost use Rattle.std.specs.Prelude.{IsSomeAnd, IsTrue, OnErr, OnOk, Some, length, min, true};
ghost use Rattle.outside.specs.Faults.{count_after};
ghost use Rattle.outside.specs.Told.{Goes};
ghost use Rattle.durable_log.specs.Disk.{HalfWrote, MayLeave, moment_of, not_synced, synced, wrote};

use crate::disk::Disk;
use call::{DiskCall, outcome};
use outside::{Bytes, Failed};
use picture::image_after;
use std::alloc::{AllocError, Global};
use std::marker::Model;

/// A disk in memory, which keeps each of its calls. It tells as long as memory is found for them.
#[derive(Drop)]
pub struct MemDisk {
    alloc: Global,
    first: Vec<u8>,
    calls: Vec<DiskCall>,
    telling: bool,
    fails: Vec<u32>,
    made: u32,
    faults: u64,
}

impl Model for MemDisk {
    ghost use Rattle.std.specs.Prelude.{◌≡◌, true};
    ghost use Rattle.durable_log.specs.Disk.{settled};
    ghost use Rattle.durable_log.specs.MemDisk.{AreWithin, MemDiskParts, disk_parts};

    ghost Value = { MemDiskParts };

    ghost view = { λ d. disk_parts d.telling d.first.items d.calls.items d.made d.fails.items d.faults };

    ghost invariant = { λ d. d.telling ≡ true → AreWithin (settled d.first.items) d.calls.items };
}

impl MemDisk {
    ghost use Rattle.durable_log.specs.MemDisk.{begun, filled, state_at};

    /// A disk on which this image stands, whose calls fail exactly where `fails` lists them, counted
    /// from 1.
    pub fn new(alloc: Global, image: &[u8], fails: &[u32]) -> Result<MemDisk, AllocError>
        ensures story { IfOk result (λ d. d.story ≡ Some (begun image.now)) }
        ensures counts { IfOk result (λ d. (d.made ≡ 0) × (d.faults ≡ 0) × (d.fails ≡ fails.now)) }
    {
        Ok(MemDisk {
            alloc,
            first: Vec::from_slice(alloc, image)?,
            calls: Vec::new(alloc),
            telling: true,
            fails: Vec::from_slice(alloc, fails)?,
            made: 0,
            faults: 0,
        })
    }

    /// Whether it tells what stands on it.
    pub fn tells(&self) -> bool
        ensures { IsTrue result ↔ IsSome self.now.story }
    {
        self.telling
    }

    /// How many calls it keeps.
    pub fn calls(&self) -> u32
        ensures { IfSome self.now.story (λ s. result ≤ moment_of s) }
    {
        self.calls.len().min(u32::MAX as usize) as u32
    }

    /// The image after so many calls in which every byte that is not yet safe is `fill`: one that a
    /// crash may leave then.
    pub fn image(&self, alloc: Global, call: u32, fill: u8) -> Result<Vec<u8>, AllocError>
        requires { IsSomeAnd self.now.story (λ s. call ≤ moment_of s) }
        ensures image { IfOk result (λ v. IfSome self.now.story (λ s. v.items ≡ filled fill (state_at call s))) }
        ensures left { IfOk result (λ v. IfSome self.now.story (λ s. MayLeave (state_at call s) v.items)) }
    {
        image_after(alloc, &self.first, &self.calls[..call as usize], fill)
    }
}

/// Keeps a write, if memory is found for it.
fn keep_write(alloc: Global, calls: &mut Vec<DiskCall>, at: u64, bytes: &[u8], done: bool) -> bool
    ensures { IsTrue result → calls.new.items ≡ calls.old.items ++ DiskCall.Write at bytes.now done ∷ [] }
{
    match Bytes::of(alloc, bytes) {
        Ok(bytes) => calls.push(DiskCall::Write { at, bytes, done }).is_ok(),
        Err(_) => false,
    }
}

/// Keeps a sync, if memory is found for it.
fn keep_sync(calls: &mut Vec<DiskCall>, done: bool) -> bool
    ensures { IsTrue result → calls.new.items ≡ calls.old.items ++ DiskCall.Sync done ∷ [] }
{
    calls.push(DiskCall::Sync { done }).is_ok()
}

impl Disk for MemDisk {
    ghost story = { λ d. d.story };

    ghost faults = { λ d. d.faults };

    /// Writes the bytes. It fails exactly where its list says so.
    fn write_at(&mut self, at: u64, bytes: &[u8]) -> Result<(), Failed>
        requires { IfSome self.old.story (λ s. at ≤ length s.now.reads) }
        ensures done { OnOk result (Goes (λ b a. a ≡ wrote at bytes.now b) self.old.story self.new.story) }
        ensures part { OnErr result (Goes (HalfWrote at bytes.now) self.old.story self.new.story) }
        ensures counts { self.new.faults ≡ count_after result self.old.faults }

        ensures listed { IsErr result ↔ Contains self.old.fails self.new.made }
        ensures made { (self.new.made ≡ min (self.old.made + 1) (2 ^ 32 - 1)) × (self.new.fails ≡ self.old.fails) }
    {
        let result = outcome(&self.fails, &mut self.made, &mut self.faults);
        self.telling &= keep_write(self.alloc, &mut self.calls, at, bytes, result.is_ok());
        result
    }

    /// Makes safe what was written. It fails exactly where its list says so.
    fn sync(&mut self) -> Result<(), Failed>
        ensures done { OnOk result (Goes (λ b a. a ≡ synced b) self.old.story self.new.story) }
        ensures none { OnErr result (Goes (λ b a. a ≡ not_synced b) self.old.story self.new.story) }
        ensures counts { self.new.faults ≡ count_after result self.old.faults }

        ensures listed { IsErr result ↔ Contains self.old.fails self.new.made }
        ensures made { (self.new.made ≡ min (self.old.made + 1) (2 ^ 32 - 1)) × (self.new.fails ≡ self.old.fails) }
    {
        let result = outcome(&self.fails, &mut self.made, &mut self.faults);
        self.telling &= keep_sync(&mut self.calls, result.is_ok());
        result
    }
}
