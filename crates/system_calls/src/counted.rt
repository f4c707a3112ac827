ghost use Rattle.std.specs.Prelude.{◌≡◌, ◌≤◌, IfOk, IsErr, Ok, OnErr};
ghost use Rattle.outside.specs.Faults.{count_after};

use outside::Failed;
use std::io;

/// The outcome of a call of the system, whose error raises the count of such faults. The count
/// stands still at 2^64 - 1.
pub fn counted<T>(count: &mut u64, outcome: io::Result<T>) -> Result<T, Failed>
    ensures ok { IfOk result (λ value. outcome ≡ Ok value) }
    ensures err { OnErr result (IsErr outcome) }
    ensures count { count.new ≡ count_after result count.old }
    ensures kept { count.old ≤ count.new }
{
    match outcome {
        Ok(value) => Ok(value),
        Err(_) => {
            *count = count.saturating_add(1);
            Err(Failed)
        }
    }
}
