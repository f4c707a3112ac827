//! The mode.

ghost use Rattle.std.specs.Prelude.{◌≡◌, ◌≤◌};
ghost use Rattle.outside.specs.Told.{Goes, Rose};
ghost use Rattle.otp_mode.specs.Asking.{AsksForLine};
ghost use Rattle.enrol_mode.specs.Command.{command_parts};
ghost use Rattle.enrol_mode.specs.Exact.{IsExact};
ghost use Rattle.enrol_mode.specs.Outcome.{IsOutcome};

use crate::account::account_text;
use crate::command::EnrolCommand;
use otp_mode::read_phrase;
use outside::Stream;
use std::alloc::Global;
use trouble::Trouble;

/// Runs the mode: takes the pass phrase from the first line of the input, and prints the table of an
/// account with its password, which is enabled and has no grants. The phrase is 10 to 63 bytes of
/// printable ASCII, and no more than 4,096 bytes are received.
///
/// # Errors
///
/// The first trouble, in this order: of the phrase, of memory, of the printing.
pub fn run_enrol<E: Stream>(
    alloc: Global,
    command: &EnrolCommand,
    ends: &mut E,
) -> Result<(), Trouble>
    ensures outcome { IsOutcome (command_parts command.now) (E.link ends.old) (E.link ends.new)
        (Rose (E.faults ends.old) (E.faults ends.new)) result }
    ensures exact { IsExact (E.link ends.old) (E.link ends.new)
        (Rose (E.faults ends.old) (E.faults ends.new)) result }
    ensures asked { Goes AsksForLine (E.link ends.old) (E.link ends.new) }
    ensures faults { E.faults ends.old ≤ E.faults ends.new }
{
    let phrase = read_phrase(ends)?;
    let text = account_text(alloc, command, phrase.as_slice())?;
    ends.send(text.as_slice())?;
    Ok(())
}
