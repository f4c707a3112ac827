//! A drill in memory.

ghost use Rattle.std.specs.Prelude.{◌≡◌, ◌≤◌, IfOk, IfSome};
ghost use Rattle.drill_mode.specs.Drilled.{IsDrilled};
ghost use Rattle.drill_mode.specs.Services.{IsDrillService, service_by};

use crate::house::DrillHouse;
use crate::posts::{drill_posts, tell_whole};
use drill_plan::drill_setup;
use monitor_run::{Ran, prepare, run};
use otp_words::Dictionary;
use outside_memory::QuietSink;
use policy_model::Event;
use std::alloc::{AllocError, Global};
use std::sync::Wait;
use std::thread::Threads;

/// The most bytes that the log has of the events of the drill of 1: 200 lines of 256 bytes.
const LOG_LEN: usize = 51_200;

/// What the drill of `n` serves by.
fn drill_house(alloc: Global, n: u32) -> Result<DrillHouse, AllocError>
    requires low { 1 ≤ n }
    requires high { n ≤ 64 }
    ensures { IfOk result (λ house. IsDrillService n (service_by house.setup house.dictionary)) }
{
    Ok(DrillHouse {
        setup: drill_setup(alloc, n)?,
        dictionary: Dictionary::plain(alloc)?,
    })
}

/// Runs the drill of `n`, and gives its journal. `None`: a post or the log had not the room to tell its
/// part to the end.
///
/// # Errors
///
/// There isn't the memory.
pub(crate) fn drill<R: Threads + Wait + Sync>(
    rt: &R,
    alloc: Global,
    n: u32,
) -> Result<Option<Vec<Event>>, AllocError>
    requires low { 1 ≤ n }
    requires high { n ≤ 64 }
    ensures { IfOk result (λ found. IfSome found (λ journal. IsDrilled n journal.items)) }
{
    let house = drill_house(alloc, n)?;
    let posts = drill_posts(alloc, n)?;
    let log = QuietSink::new(alloc, LOG_LEN * n as usize)?;
    let Ok(prepared) = prepare(alloc, &house, log) else {
        return Err(AllocError);
    };
    let Ran {
        core: _,
        journal,
        log,
        posts,
        accept_failed: _,
    } = run(rt, prepared, posts);
    if log.tells() && tell_whole(&posts) {
        return Ok(Some(journal));
    }
    Ok(None)
}
