//! The first line of an input.

ghost use Rattle.std.specs.Prelude.{◌≡◌, ◌==◌, ◌≤◌, [], IfOk, MatchOption, OnErr, None, Some, length, not, take};
ghost use Rattle.std.specs.List.{position, prefix_len};
ghost use Rattle.std.specs.Str.Lines.{strip_carriage_return};
ghost use Rattle.outside.specs.Told.{Goes, Rose};
ghost use Rattle.otp_mode.specs.Asking.{AsksForLine};
ghost use Rattle.otp_mode.specs.Inner.{ReceivedLine};
ghost use Rattle.otp_mode.specs.Lines.{first_line, line_of};
ghost use Rattle.otp_mode.specs.Outcome.{OnlyReceived};

use outside::{Failed, Stream};

/// The most bytes that are received. A first line that isn't shorter is refused.
pub const LINE_MAX: usize = 4_096;

/// Receives bytes into the front of a buffer until they have a newline, the buffer is full or the
/// input ends, and gives how many: these have the line that the whole input has. After that no more is
/// asked for.
///
/// # Errors
///
/// The input failed.
pub fn receive_line<E: Stream>(ends: &mut E, buf: &mut [u8; LINE_MAX]) -> Result<usize, Failed>
    ensures within { IfOk result (λ n. n ≤ 4096) }
    ensures received { IfOk result (λ n.
        Goes (ReceivedLine (take n buf.new)) (E.link ends.old) (E.link ends.new)) }
    ensures part { OnErr result (Goes OnlyReceived (E.link ends.old) (E.link ends.new)) }
    ensures asked { Goes AsksForLine (E.link ends.old) (E.link ends.new) }
    ensures failed { OnErr result (Rose (E.faults ends.old) (E.faults ends.new)) }
    ensures faults { E.faults ends.old ≤ E.faults ends.new }
{
    let mut filled = 0;
    while filled < LINE_MAX {
        let n = ends.recv(&mut buf[filled..])?;
        filled += n;
        if n == 0 || buf[..filled].contains(&b'\n') {
            break;
        }
    }
    Ok(filled)
}

/// The first line of an input, without its newline and a carriage return before that; the whole input
/// where there is no newline. `None` where neither a newline nor the end is among the first 4,096
/// places.
#[tactic(auto, unfolding(crate::specs::Lines::line_of))]
pub fn line_in(input: &[u8]) -> Option<&[u8]>
    ensures { MatchOption result (line_of input.now ≡ None) (λ line. line_of input.now ≡ Some line.now) }
{
    if line_len(input) >= LINE_MAX {
        return None;
    }
    Some(first_line(input))
}

/// The number of bytes before the first newline.
fn line_len(input: &[u8]) -> usize
    ensures { result ≡ prefix_len (λ c. not (c == 10)) input.now }
{
    input.iter().take_while(|byte| **byte != b'\n').count()
}

/// The first line of an input, without its newline and a carriage return before that.
pub(crate) fn first_line(input: &[u8]) -> &[u8]
    ensures { result.now ≡ first_line input.now }
{
    match newline_place(input) {
        None => input,
        Some(place) => without_return(&input[..place]),
    }
}

/// The place of the first newline.
fn newline_place(input: &[u8]) -> Option<usize>
    ensures { result ≡ position (λ c. c == 10) input.now }
{
    input.iter().position(|byte| *byte == b'\n')
}

/// A line without the carriage return at its end, if it has one.
fn without_return(line: &[u8]) -> &[u8]
    ensures { result.now ≡ strip_carriage_return line.now }
{
    match line {
        [front @ .., b'\r'] => front,
        _ => line,
    }
}
