//! The mode.

ghost use Rattle.std.specs.Prelude.{◌≡◌, ◌≤◌, true};
ghost use Rattle.outside.specs.Told.{Rose};
ghost use Rattle.drill_mode.specs.Outcome.{IsOutcome, ends_untold};

use crate::drilling::drill;
use crate::text::counts_text;
use outside::Stream;
use policy_model::Event;
use std::alloc::Global;
use std::sync::Wait;
use std::thread::Threads;
use trouble::Trouble;

/// Runs the mode: runs the drill of `n`, from 1 to 64, in memory, sends the counts of its journal to
/// the ends, and gives the journal.
///
/// # Errors
///
/// The first trouble, in this order: of the memory, of the sending. A post or a log that has not the room to
/// tell its part of the run counts as lack of memory.
pub fn run_drill<E: Stream, R: Threads + Wait + Sync>(
    rt: &R,
    alloc: Global,
    n: u32,
    ends: &mut E,
) -> Result<Vec<Event>, Trouble>
    requires low { 1 ≤ n }
    requires high { n ≤ 64 }
    ensures outcome { IsOutcome n (E.link ends.old) (E.link ends.new)
        (Rose (E.faults ends.old) (E.faults ends.new)) result }
    ensures untold { ends_untold result ≡ true → ends.new ≡ ends.old }
    ensures faults { E.faults ends.old ≤ E.faults ends.new }
{
    let Some(journal) = drill(rt, alloc, n)? else {
        return Err(Trouble::OutOfMemory);
    };
    let text = counts_text(alloc, &journal)?;
    ends.send(text.as_bytes())?;
    Ok(journal)
}
