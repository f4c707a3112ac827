//! A renewal from the first line of an input.

ghost use Rattle.std.specs.Prelude.{◌≡◌, ◌≤◌, IfOk, Ok, Result};
ghost use Rattle.outside.specs.Told.{Goes, Rose};
ghost use Rattle.otp_mode.specs.Asking.{AsksForLine};
ghost use Rattle.otp_mode.specs.Lines.{line_of};
ghost use Rattle.otp_extended.specs.Outcome.{ComesOf, IsMade, IsOutcome};
ghost use Rattle.otp_extended.specs.Parts.{parts_of};
ghost use Rattle.otp_extended.specs.Renewals.{IsSequenced};
ghost use Rattle.otp_extended.specs.Responses.{IsReading};

use crate::renewal::{Renewed, renew};
use crate::response::{Response, read_response};
use crate::setup::renewed;
use otp_mode::{LINE_MAX, line_in, receive_line};
use otp_words::Dictionary;
use outside::{Failed, Stream};
use policy_model::Setup;
use request_catalogue::Name;
use std::alloc::Global;
use trouble::{LineFault, Trouble};

/// What a response was taken to: the setup with the new chain, and what is new in it.
#[derive(Drop)]
pub struct Renewal {
    pub setup: Setup,
    pub renewed: Renewed,
}

/// Receives the first line of an input, without its newline and a carriage return before that, and
/// takes it as a response for a user of a setup. Where the input has no newline, all of it is the
/// line. No more than 4,096 bytes are received, and nothing is sent.
///
/// # Errors
///
/// The first trouble, in this order: of the receiving, of the line, of the response, of the renewal, of
/// memory.
pub fn receive_renewal<E: Stream>(
    alloc: Global,
    setup: &Setup,
    dictionary: &Dictionary,
    user: &Name,
    ends: &mut E,
) -> Result<Renewal, Trouble>
    ensures outcome { IsOutcome setup.now dictionary.now user.now (E.link ends.old) (E.link ends.new)
        (Rose (E.faults ends.old) (E.faults ends.new)) result }
    ensures asked { Goes AsksForLine (E.link ends.old) (E.link ends.new) }
    ensures faults { E.faults ends.old ≤ E.faults ends.new }
{
    let mut buf = [0; LINE_MAX];
    match receive_line(ends, &mut buf) {
        Err(Failed) => Err(Trouble::EndsFailed),
        Ok(n) => renewal_of_input(alloc, setup, dictionary, user, &buf[..n]),
    }
}

/// The renewal that the first line of an input asks for.
fn renewal_of_input(
    alloc: Global,
    setup: &Setup,
    dictionary: &Dictionary,
    user: &Name,
    input: &[u8],
) -> Result<Renewal, Trouble>
    ensures { ComesOf setup.now dictionary.now user.now (line_of input.now) result }
{
    let Some(line) = line_in(input) else {
        return Err(Trouble::ResponseRefused(LineFault::TooLong));
    };
    match read_response(dictionary, line) {
        Err(fault) => Err(Trouble::ResponseRefused(LineFault::Unreadable(fault))),
        Ok(response) => renewal_by(alloc, setup, user, &response),
    }
}

/// The renewal that a response asks for.
fn renewal_by(
    alloc: Global,
    setup: &Setup,
    user: &Name,
    response: &Response,
) -> Result<Renewal, Trouble>
    requires { IsSequenced response.now }
    ensures { IsMade setup.now user.now response.now result }
{
    match renew(setup, user, response) {
        Err(fault) => Err(Trouble::NoRenewal(fault)),
        Ok(new) => {
            let after = renewed(alloc, setup, &new)?;
            Ok(Renewal {
                setup: after,
                renewed: new,
            })
        }
    }
}
