//! The pass phrase.

ghost use Rattle.std.specs.Prelude.{◌≡◌, ◌≤◌, IfOk, option_map};
ghost use Rattle.outside.specs.Told.{Goes, Rose};
ghost use Rattle.fixed_list.specs.FixedList.{list_of};
ghost use Rattle.trouble.specs.declared.trouble.Trouble.{Trouble};
ghost use Rattle.otp_mode.specs.Asking.{AsksForLine};
ghost use Rattle.otp_mode.specs.Phrase.{is_phrase, phrase_of};
ghost use Rattle.otp_mode.specs.Inner.{Accepted, IsPhraseTrouble};

use crate::line::{LINE_MAX, first_line, receive_line};
use fixed_list::FixedList;
use outside::Stream;
use request_catalogue::are_printable;
use trouble::Trouble;

/// The fewest bytes that a pass phrase has.
const PHRASE_MIN: usize = 10;

/// The most bytes that a pass phrase has.
const PHRASE_MAX: usize = 63;

/// Receives the first line of the input, and takes the pass phrase from it: 10 to 63 bytes of printable
/// ASCII. No more than 4,096 bytes are received, and nothing is sent.
///
/// # Errors
///
/// The input failed, or its first line is no pass phrase.
pub fn read_phrase<E: Stream>(ends: &mut E) -> Result<FixedList<63>, Trouble>
    ensures phrase { IfOk result (λ phrase.
        Goes (Accepted (list_of phrase)) (E.link ends.old) (E.link ends.new)) }
    ensures trouble { (trouble : Trouble) → result ≡ Err trouble → IsPhraseTrouble (E.link ends.old)
        (E.link ends.new) (Rose (E.faults ends.old) (E.faults ends.new)) trouble }
    ensures asked { Goes AsksForLine (E.link ends.old) (E.link ends.new) }
    ensures faults { E.faults ends.old ≤ E.faults ends.new }
{
    let mut buf = [0; LINE_MAX];
    let n = receive_line(ends, &mut buf)?;
    phrase_in(&buf[..n]).ok_or(Trouble::PhraseRefused)
}

/// The pass phrase of an input.
#[tactic(auto, unfolding(crate::specs::Phrase::phrase_of, crate::specs::Phrase::is_phrase))]
fn phrase_in(input: &[u8]) -> Option<FixedList<63>>
    ensures { option_map list_of result ≡ phrase_of input.now }
{
    let line = first_line(input);
    if !is_phrase(line) {
        return None;
    }
    Some(FixedList::of(line))
}

/// Whether a line is 10 to 63 bytes of printable ASCII.
#[tactic(auto, unfolding(crate::specs::Phrase::is_phrase))]
fn is_phrase(line: &[u8]) -> bool
    ensures { result ≡ is_phrase line.now }
{
    line.len() >= PHRASE_MIN && line.len() <= PHRASE_MAX && are_printable(line)
}
