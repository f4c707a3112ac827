//! The run of a mode.

ghost use Rattle.std.specs.Prelude.{◌≡◌, ◌≤◌, [], IfOk, vec_len};
ghost use Rattle.outside.specs.Told.{Rose};
ghost use Rattle.child_protocol.specs.Frames.{frame_width};
ghost use Rattle.child_mode.specs.declared.run.ChildRun.TheVariants.{OutOfMemory};
ghost use Rattle.child_mode.specs.Commands.{parts_of};
ghost use Rattle.child_mode.specs.Outcome.{IsOutcome};

use crate::command::ChildCommand;
use child_protocol::{Child, ChildEnd, run_child};
use imsg_frame::Reader;
use outside::Stream;
use request_catalogue::Width;
use std::alloc::{AllocError, Global};

/// The most bytes of a child's frame.
const FRAME_LEN: usize = 16_384;

/// What came of a mode.
#[derive(Clone, Copy, PartialEq, Eq)]
pub enum ChildRun {
    /// The child's run ended so.
    Ended(ChildEnd),
    /// No memory was found, and nothing was sent or taken.
    OutOfMemory,
}

impl ChildRun {
    ghost use Rattle.child_mode.specs.Outcome.{run_status};

    /// The exit status of a program that ends by it: 0, 9, 11 or 12.
    pub fn status(self) -> u8
        ensures { result ≡ run_status self }
    {
        match self {
            ChildRun::Ended(ChildEnd::Done | ChildEnd::LinkEnded | ChildEnd::Spent) => 0,
            ChildRun::OutOfMemory => 9,
            ChildRun::Ended(ChildEnd::LinkFault) => 11,
            ChildRun::Ended(ChildEnd::Unreadable) => 12,
        }
    }
}

/// What a child runs with besides its link.
#[derive(Drop)]
struct Memory {
    reader: Reader,
    out: Vec<u8>,
}

/// Takes all memory that a run needs.
fn take_memory(alloc: Global) -> Result<Memory, AllocError>
    ensures empty { IfOk result (λ r. r.reader.bytes ≡ []) }
    ensures width { IfOk result (λ r. r.reader.width ≡ frame_width) }
    ensures max { IfOk result (λ r. r.reader.max ≡ 16384) }
    ensures len { IfOk result (λ r. 16384 ≤ vec_len r.out) }
{
    Ok(Memory {
        reader: Reader::new(alloc, Width::Narrow, FRAME_LEN)?,
        out: vec![in alloc; 0; FRAME_LEN]?,
    })
}

/// Runs the child that a command names over the ends, the monitor's side of which is its link.
pub fn run_child_mode<E: Stream>(alloc: Global, command: &ChildCommand, ends: &mut E) -> ChildRun
    ensures outcome { IsOutcome (parts_of command.now) (E.link ends.old) (E.link ends.new)
        (Rose (E.faults ends.old) (E.faults ends.new)) result }
    ensures untold { result ≡ OutOfMemory → ends.new ≡ ends.old }
    ensures faults { E.faults ends.old ≤ E.faults ends.new }
{
    let Ok(mut memory) = take_memory(alloc) else {
        return ChildRun::OutOfMemory;
    };
    let end = match command {
        ChildCommand::Pre { session } => {
            let mut child = Child::pre(*session);
            run_child(&mut child, ends, &mut memory.reader, &mut memory.out)
        }
        ChildCommand::User { session, uid, user } => {
            let mut child = Child::user(*session, *uid, *user);
            run_child(&mut child, ends, &mut memory.reader, &mut memory.out)
        }
    };
    ChildRun::Ended(end)
}
