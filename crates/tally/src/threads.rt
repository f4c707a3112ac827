//! Calls from threads of their own.
ghost use Rattle.std.specs.Prelude.{◌≡◌, ℕ, ◌+◌, ◌*◌, ◌<◌, ◌≤◌, ◌^◌, List, [], length, IfOk, IfErr, slice_index_or};
ghost use Rattle.std.specs.List.{All, AllWithin};
ghost use Rattle.turn_cell.specs.Facts.{StartsWith, IsSamePass, replies_of};

use std::alloc::{AllocError, Global};
use std::sync::Wait;
use std::thread;
use std::thread::Threads;
use turn_cell::{Object, Pass, TurnCell};

/// The most threads that calls are made from at one time.
pub const THREADS: usize = 64;

// Makes the call so many times.
pub fn make_calls<O: Object, W: Wait>(
    rt: &W,
    cell: &TurnCell<O>,
    pass: &mut Pass<O>,
    call: O::Call,
    times: u64,
)
where
    O::Call: Copy,
    requires cell { pass.old.cell ≡ cell.now.id }
    requires proper { O.proper call }
    requires quota { length pass.old.mine + times ≤ pass.old.quota }
    ensures same { IsSamePass pass.new pass.old }
    ensures seen { StartsWith pass.new.seen pass.old.seen }
    ensures mine { length pass.new.mine ≡ length pass.old.mine + times }
{
    for _ in 0..times {
        cell.call(rt, pass, call);
    }
}

/// Each pass makes the call so many times, on threads of their own, which are at most `THREADS`.
pub fn call_from_all<O: Object, R: Threads + Wait + Sync>(
    rt: &R,
    cell: &TurnCell<O>,
    passes: &mut [Pass<O>],
    call: O::Call,
    times: u64,
)
where
    O::Call: Copy + Sync,
    requires cell { AllWithin (λ p. p.cell ≡ cell.now.id) passes.old 0 (length passes.old) }
    requires proper { O.proper call }
    requires quota { AllWithin (λ p. length p.mine + times ≤ p.quota) passes.old 0 (length passes.old) }
    ensures same { (k : ℕ) (d : _) → k < length passes.old →
        IsSamePass (slice_index_or passes.new k d) (slice_index_or passes.old k d) }
    ensures mine { (k : ℕ) (d : _) → k < length passes.old →
        length (slice_index_or passes.new k d).mine ≡ length (slice_index_or passes.old k d).mine + times }
{
    thread::for_each_mut(
        rt,
        passes,
        THREADS,
        &|_, pass: &mut Pass<O>|
            requires proper { O.proper call }
            requires cell { (pass.old.cell ≡ cell.now.id) × (length pass.old.mine + times ≤ pass.old.quota) }
            ensures same { IsSamePass pass.new pass.old }
            ensures mine { length pass.new.mine ≡ length pass.old.mine + times }
        { make_calls(rt, cell, pass, call, times) },
    );
}

/// Puts the object into a cell. Each of the cell's passes, in a thread of its own, makes the call `times` times. The
/// object comes back with all of these calls, or, if there is no memory for the cell, as it was.
pub fn call_all<O: Object, R: Threads + Wait + Sync>(
    rt: &R,
    alloc: Global,
    object: O,
    call: O::Call,
    times: u64,
) -> Result<O, (O, AllocError)>
where
    O::Call: Copy + Sync,
    requires empty { O.history object ≡ [] }
    requires some { 0 < O.passes object }
    requires room { O.passes object * O.quota object < 2 ^ 64 }
    requires proper { O.proper call }
    requires quota { times ≤ O.quota object }
    ensures calls { IfOk result (λ o. (n : ℕ) → n < O.passes object → length (replies_of O.owner n (O.history o))
        ≡ times) }
    ensures owners { IfOk result (λ o. All (λ r. O.owner r < O.passes object) (O.history o)) }
    ensures legal { IfOk result (λ o. O.legal (O.terms o) (O.history o)) }
    ensures err { IfErr result (λ e. e.0 ≡ object) }
{
    let (cell, mut passes) = TurnCell::new(alloc, object)?;
    call_from_all(rt, &cell, &mut passes, call, times);
    Ok(cell.close(passes))
}
