//! The mode.

ghost use Rattle.std.specs.Prelude.{◌≡◌, ◌≤◌, None};
ghost use Rattle.std.specs.Option.{option_copied, option_to_list};
ghost use Rattle.outside.specs.FilesNow.{OnlyReads, files_now};
ghost use Rattle.outside.specs.Told.{Goes, Rose};
ghost use Rattle.otp_mode.specs.Asking.{AsksForLine, AsksOneLine};
ghost use Rattle.otp_mode.specs.Command.{command_parts};
ghost use Rattle.otp_mode.specs.Exact.{IsExact};
ghost use Rattle.otp_mode.specs.Outcome.{IsOutcome, IsPrinting, ends_at_list};

use crate::command::OtpCommand;
use crate::phrase::read_phrase;
use crate::printing::{TEXT_MAX, put_password};
use file_front::read_list;
use otp_hash::at;
use otp_words::Dictionary;
use outside::{Files, Stream};
use std::alloc::Global;
use trouble::Trouble;

/// Runs the mode: reads the word list, if one is named, takes the pass phrase from the first line of
/// the input, and prints its password, in hexadecimal groups and a newline, and where there is a
/// word list in six words and a newline. The phrase is 10 to 63 bytes of printable ASCII, and no
/// more than 4,096 bytes are received. The first trouble ends it, in this order: of the word list, of
/// the phrase, of the printing.
pub fn run_otp<F: Files, E: Stream>(
    alloc: Global,
    command: &OtpCommand<'_>,
    files: &mut F,
    ends: &mut E,
) -> Result<(), Trouble>
    ensures outcome { IsOutcome (command_parts command.now) (F.contents files.new)
        (E.link ends.old) (E.link ends.new)
        (Rose (F.read_faults files.old) (F.read_faults files.new))
        (Rose (E.faults ends.old) (E.faults ends.new)) result }
    ensures exact { IsExact (command_parts command.now) (F.contents files.new)
        (E.link ends.old) (E.link ends.new)
        (Rose (F.read_faults files.old) (F.read_faults files.new))
        (Rose (E.faults ends.old) (E.faults ends.new)) result }
    ensures no_list { (command_parts command.now).list ≡ None → files.new ≡ files.old }
    ensures asks { AsksOneLine (ends_at_list result) E.link ends.old ends.new }
    ensures files { let now = files_now F.contents F.read_faults F.replace_faults F.touched in
        OnlyReads (option_to_list (command_parts command.now).list) (now files.old) (now files.new) }
    ensures faults { E.faults ends.old ≤ E.faults ends.new }
{
    let list = match command.list {
        None => None,
        Some(name) => Some(read_list(alloc, files, name)?),
    };
    print_password(command, list.as_ref(), ends)
}

/// Takes the pass phrase and prints its password.
fn print_password<E: Stream>(
    command: &OtpCommand<'_>,
    list: Option<&Dictionary>,
    ends: &mut E,
) -> Result<(), Trouble>
    ensures printing { IsPrinting (command_parts command.now) (option_copied list.entry)
        (E.link ends.old) (E.link ends.new) (Rose (E.faults ends.old) (E.faults ends.new)) result }
    ensures asked { Goes AsksForLine (E.link ends.old) (E.link ends.new) }
    ensures faults { E.faults ends.old ≤ E.faults ends.new }
{
    let phrase = read_phrase(ends)?;
    let password = at(
        command.algo,
        &command.seed,
        phrase.as_slice(),
        command.number,
    );
    let mut text = [0; TEXT_MAX];
    let len = put_password(list, password, &mut text);
    ends.send(&text[..len])?;
    Ok(())
}
