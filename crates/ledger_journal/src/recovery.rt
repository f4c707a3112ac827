//! The ledger that a log brings back.

ghost use Rattle.std.specs.Prelude.{◌≡◌, ◌+◌, ◌≤◌, ◌&&◌, [], List, ℕ, length, map, not};
ghost use Rattle.policy_model.specs.declared.event.Event.{Event};
ghost use Rattle.policy_model.specs.Settings.{Settings};
ghost use Rattle.durable_log.specs.Records.{HasRecords};
ghost use Rattle.policy_model.specs.Logins.{account_after};
ghost use Rattle.ledger_journal.specs.Logins.{left_of};
ghost use Rattle.ledger_journal.specs.Journals.{IsBackAt, IsRecoveredAs, IsThereAlready, IsWhole, records_of};
ghost use Rattle.ledger_journal.specs.Reads.{HasBeenRead, IsRead, first_of};
ghost use Rattle.ledger_journal.specs.Recovering.{HasAccepted, IsAnswerOf, IsLogOr, is_none_left};

use crate::answer::{RecoverError, Recovered};
use crate::login::Login;
use crate::passing::left_over;
use crate::reading::{Log, read_log};
use crate::spending::spend_all;
use otp_ledger::Ledger;
use policy_model::Setup;
use std::alloc::Global;

/// The lesser of two places, where there is one.
fn first_of(one: Option<u32>, other: Option<u32>) -> Option<u32>
    ensures { result ≡ first_of one other }
{
    match (one, other) {
        (Some(a), Some(b)) => Some(a.min(b)),
        (None, _) => other,
        (_, None) => one,
    }
}

/// Whether there are replies, and none of them is left.
fn are_passed(logins: &[Login], left: &[Login]) -> bool
    ensures { result ≡ (not (is_none_left logins.now) && is_none_left left.now) }
{
    !logins.is_empty() && left.is_empty()
}

/// What the records that were read bring back.
fn answer_of(alloc: Global, setup: &Setup, log: &Log) -> Result<Recovered, RecoverError>
    requires { HasBeenRead setup.now log.now }
    ensures { (records : List (List ℕ)) → IsRead setup.now records log.now → IsAnswerOf setup.now records result }
{
    let left = left_over(alloc, setup, log.logins.as_slice())?;
    answer_by(alloc, setup, log, left.as_slice())
}

/// What they bring back where these replies are left to be spent. That the list of these stays with the
/// caller is what keeps the proof short.
fn answer_by(
    alloc: Global,
    setup: &Setup,
    log: &Log,
    left: &[Login],
) -> Result<Recovered, RecoverError>
    requires read { HasBeenRead setup.now log.now }
    requires left { left.now ≡ left_of setup.now log.now.logins.items }
    ensures { (records : List (List ℕ)) → IsRead setup.now records log.now → IsAnswerOf setup.now records result }
{
    let Ok(cap) = u32::try_from(left.len()) else {
        return Err(RecoverError::OutOfMemory);
    };
    let ledger = Ledger::new(alloc, setup, cap)?;
    spent_answer(ledger, log, left)
}

/// What they bring back where these replies are left to be spent in a ledger that accepted none.
fn spent_answer(mut ledger: Ledger, log: &Log, left: &[Login]) -> Result<Recovered, RecoverError>
    requires read { HasBeenRead ledger.setup log.now }
    requires left { left.now ≡ left_of ledger.setup log.now.logins.items }
    requires room { ledger.spent + length left.now ≤ ledger.cap }
    requires own { HasAccepted ledger.setup [] ledger }
    ensures { (records : List (List ℕ)) → IsRead ledger.setup records log.now → IsAnswerOf ledger.setup records result }
{
    let refused = spend_all(&mut ledger, left);
    match first_of(log.bad, refused) {
        Some(number) => Err(RecoverError::Line { number }),
        None => Ok(Recovered {
            ledger,
            lines: log.count as u32,
            accepted: log.logins.len() as u32,
            already: are_passed(log.logins.as_slice(), left),
        }),
    }
}

/// Brings back the ledger that a run of this setup had come to, from the image of its log. The replies
/// that the log accepts are verified again and spent in order; those that the setup has already, up to
/// each account's stored password, are passed over.
///
/// # Errors
///
/// The image is that of no log, or a record has a fault, of which the first is named; or there isn't
/// the memory.
pub fn recover(alloc: Global, setup: &Setup, image: &[u8]) -> Result<Recovered, RecoverError>
    // It is no log just where the image has no records.
    ensures log { IsLogOr image.now result }
    // What is answered else depends on the setup and the records alone: the first fault, or what they bring back.
    ensures exact { (records : List (List ℕ)) → HasRecords image.now records → IsAnswerOf setup.now records result }
    // The lines of a run's journal are recovered, to what the journal says of each account.
    ensures back { (journal : List Event) → IsWhole setup.now journal → HasRecords image.now (records_of journal) →
        IsRecoveredAs (IsBackAt setup.now journal) result }
    // Where the setup has what the journal says already, they are recovered too, and nothing changes.
    ensures again { (first : Settings) (journal : List Event) → IsWhole first journal → setup.now.accounts
        ≡ map (account_after journal) first.accounts →
        HasRecords image.now (records_of journal) → IsRecoveredAs (IsThereAlready setup.now journal) result }
{
    let log = read_log(alloc, setup, image)?;
    answer_of(alloc, setup, &log)
}
