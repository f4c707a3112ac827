//! A disk as the log sees it.

ghost use Rattle.std.specs.Prelude.{◌≡◌, ◌≤◌, ℕ, length, IfSome, OnErr, OnOk, Option};
ghost use Rattle.outside.specs.Faults.{count_after};
ghost use Rattle.outside.specs.Told.{Goes};
ghost use Rattle.durable_log.specs.Disk.{HalfWrote, HalfWroteSafely, Story, not_synced, synced, wrote, wrote_safely};

use outside::Failed;

/// A disk on which ranges are written, and made safe by a sync. Between two syncs each written range,
/// and all past the old end, may hold any bytes after a crash; the bytes outside stay. After a sync that
/// answered `Ok` a crash leaves what a read gives.
pub trait Disk: Drop + Send {
    // What stands on it, and what stood on it at each moment before, where it tells.
    ghost story: { Self → Option Story };

    // How many faults it had.
    ghost faults: { Self → ℕ };

    /// Writes these bytes from a place on that is at most the end, over what is there and past the end.
    /// `Failed`: some part of them may be written.
    fn write_at(&mut self, at: u64, bytes: &[u8]) -> Result<(), Failed>
        requires { IfSome (story self.old) (λ s. at ≤ length s.now.reads) }
        ensures done { OnOk result (Goes (λ b a. a ≡ wrote at bytes.now b) (story self.old) (story self.new)) }
        ensures part { OnErr result (Goes (HalfWrote at bytes.now) (story self.old) (story self.new)) }
        ensures counts { faults self.new ≡ count_after result (faults self.old) };

    /// Makes safe what was written. `Failed`: nothing became safe.
    fn sync(&mut self) -> Result<(), Failed>
        ensures done { OnOk result (Goes (λ b a. a ≡ synced b) (story self.old) (story self.new)) }
        ensures none { OnErr result (Goes (λ b a. a ≡ not_synced b) (story self.old) (story self.new)) }
        ensures counts { faults self.new ≡ count_after result (faults self.old) };

    /// Writes these bytes as `write_at` does, and makes them safe by a sync after it.
    fn write_safely(&mut self, at: u64, bytes: &[u8]) -> Result<(), Failed>
        requires { IfSome (story self.old) (λ s. at ≤ length s.now.reads) }
        ensures done { OnOk result (Goes (λ b a. a ≡ wrote_safely at bytes.now b) (story self.old) (story self.new)) }
        ensures part { OnErr result (Goes (HalfWroteSafely at bytes.now) (story self.old) (story self.new)) }
        ensures counts { faults self.new ≡ count_after result (faults self.old) }
    {
        self.write_at(at, bytes)?;
        self.sync()
    }
}
