//! The rules of each kind of request.

ghost use Rattle.std.specs.Prelude.{◌≡◌, ◌≤◌, ◌==◌, Some, length, nat_eq};
ghost use Rattle.std.specs.List.{find, list_any};
ghost use Rattle.std.specs.Option.{option_copied, option_to_list};
ghost use Rattle.policy_model.specs.Asks.{shown_of};
ghost use Rattle.policy_model.specs.Logins.{account_of, current_password, current_sequence, verified_user};
ghost use Rattle.policy_model.specs.Logins.{was_accepted};
ghost use Rattle.policy_model.specs.Verdict.{account_verdict, allows, challenge_verdict, close_verdict, decoy_verdict};
ghost use Rattle.policy_model.specs.Verdict.{handle_verdict, info_verdict, is_held, is_next_password, kind_verdict};
ghost use Rattle.policy_model.specs.Verdict.{open_verdict, readings, reply_verdict, user_verdict};
ghost use Rattle.policy_model.specs.Cases.{account_named, grant_verdict, grants_of, is_holder, number_named};
ghost use Rattle.policy_model.specs.Cases.{readings_verdict, refused_verdict, sequence_of, taking_moment, use_verdict};
ghost use Rattle.policy_model.specs.Settings.{same_label};

use crate::account::{Account, Grant};
use crate::event::{Ask, Decision, Event};
use crate::handles::{count_live, free_handle, opening};
use crate::holding::{is_other, is_within};
use crate::journal::denied_replies;
use crate::logins::{
    account_of, challenged_user, current_password, current_sequence, holder, is_live,
    last_taking_of, session_taking, verified_user, was_accepted, was_decoyed,
};
use crate::ranges::same_label;
use crate::setup::Setup;
use otp_hash::step;
use request_catalogue::{Label, Name, rules};

/// What a child is told of a decision: that a reply was refused, and not why.
pub fn shown(decision: &Decision) -> Decision
    ensures { result ≡ shown_of decision.now }
{
    if decision.is_login_denial() {
        Decision::deny(rules::NO_MATCH, 0)
    } else {
        *decision
    }
}

/// The mode that a READ needs.
pub const READ: u8 = 1;

/// The mode that a WRITE needs.
pub const WRITE: u8 = 2;

/// The moment of a taking, or 0.
fn taking_moment(taking: &Option<Event>) -> u64
    ensures { result ≡ taking_moment taking.now }
{
    match taking {
        None => 0,
        Some(event) => event.ask.moment(),
    }
}

/// Whether another session holds the user at this moment.
fn is_held(setup: &Setup, journal: &[Event], session: u32, user: &Name, now: u64) -> bool
    ensures { result ≡ is_held setup.now journal.now session user.now now }
{
    let moment = taking_moment(&last_taking_of(journal, user));
    is_other(session, holder(journal, user)) && is_within(now, moment, setup.parts().hold)
}

/// Rule 12 of a CHALLENGE for a user that can log in, else a permit with the number of the password
/// that is asked for; any other user gets a decoy.
fn judge_account(
    setup: &Setup,
    journal: &[Event],
    session: u32,
    account: &Account,
    user: &Name,
    now: u64,
) -> Decision
    ensures { result ≡ account_verdict setup.now journal.now session user.now now (Some account.now) }
{
    if !is_live(journal, account) {
        setup.challenge_decoy(user)
    } else if is_held(setup, journal, session, user, now) {
        Decision::deny(
            rules::USER_HELD,
            session_taking(&last_taking_of(journal, user)),
        )
    } else {
        Decision::Permit {
            value: current_sequence(journal, account) - 1,
        }
    }
}

/// Rules 8 and 12 of a CHALLENGE, else a permit.
#[tactic(auto, unfolding(crate::specs::Verdict::challenge_verdict))]
fn judge_challenge(
    setup: &Setup,
    journal: &[Event],
    session: u32,
    user: &Name,
    now: u64,
) -> Decision
    ensures { result ≡ challenge_verdict setup.now journal.now session user.now now }
{
    let tries = setup.parts().tries;
    if denied_replies(journal, session) >= tries as usize {
        return Decision::deny(rules::TRIES_SPENT, tries);
    }
    match account_of(setup, user) {
        None => setup.challenge_decoy(user),
        Some(account) => judge_account(setup, journal, session, account, user, now),
    }
}

/// Whether a password hashes to the current one and was not accepted before.
fn is_next_password(journal: &[Event], account: &Account, password: u64) -> bool
    ensures { result ≡ is_next_password journal.now account.now password }
{
    step(account.algo, password) == current_password(journal, account)
        && !was_accepted(journal, account, password)
}

/// The reading, where it is there and is the next password.
fn next_of(journal: &[Event], account: &Account, reading: Option<u64>) -> Option<u64>
    ensures { result ≡ find (is_next_password journal.now account.now) (option_to_list reading) }
{
    match reading {
        Some(password) => is_next_password(journal, account, password).then_some(password),
        None => None,
    }
}

/// Whether a reading is there and was accepted before.
fn was_used(journal: &[Event], account: &Account, reading: Option<u64>) -> bool
    ensures { result ≡ list_any (was_accepted journal.now account.now) (option_to_list reading) }
{
    match reading {
        None => false,
        Some(password) => was_accepted(journal, account, password),
    }
}

/// Rules 15 and 16 of a REPLY that has no next password among its readings.
fn judge_refused(
    journal: &[Event],
    account: &Account,
    words: Option<u64>,
    hex: Option<u64>,
) -> Decision
    ensures { result ≡ refused_verdict journal.now account.now (readings words hex) }
{
    if was_used(journal, account, words) || was_used(journal, account, hex) {
        Decision::deny(rules::PASSWORD_USED, 0)
    } else {
        Decision::deny(rules::NO_MATCH, 0)
    }
}

/// The readings of a REPLY against an account, words before hexadecimal.
fn judge_readings(
    journal: &[Event],
    account: &Account,
    words: Option<u64>,
    hex: Option<u64>,
) -> Decision
    ensures { result ≡ readings_verdict journal.now (readings words hex) (Some account.now) }
{
    match next_of(journal, account, words) {
        Some(value) => Decision::Permit { value },
        None => match next_of(journal, account, hex) {
            Some(value) => Decision::Permit { value },
            None => judge_refused(journal, account, words, hex),
        },
    }
}

/// Whether a session is the one that holds a user, if any does.
pub fn is_holder(session: u32, holder: Option<u32>) -> bool
    ensures { result ≡ is_holder session holder }
{
    match holder {
        None => false,
        Some(holder) => holder == session,
    }
}

/// Rules 13 to 16 of a REPLY for a user, else a permit with the password.
fn judge_login(
    setup: &Setup,
    journal: &[Event],
    session: u32,
    words: Option<u64>,
    hex: Option<u64>,
    user: &Name,
) -> Decision
    ensures { result ≡ user_verdict setup.now journal.now session (readings words hex) user.now }
{
    if !is_holder(session, holder(journal, user)) {
        return Decision::deny(
            rules::HOLD_LOST,
            session_taking(&last_taking_of(journal, user)),
        );
    }
    if words.is_none() && hex.is_none() {
        return Decision::deny(rules::NO_READING, 0);
    }
    match account_of(setup, user) {
        None => Decision::deny(rules::NO_MATCH, 0),
        Some(account) => judge_readings(journal, account, words, hex),
    }
}

/// Rules 14 and 16 of a REPLY to a decoy, by its readings as six words and as hexadecimal digits: it is
/// denied in any case.
pub fn judge_decoy(words: Option<u64>, hex: Option<u64>) -> Decision
    ensures { result ≡ decoy_verdict (readings words hex) }
{
    if words.is_none() && hex.is_none() {
        Decision::deny(rules::NO_READING, 0)
    } else {
        Decision::deny(rules::NO_MATCH, 0)
    }
}

/// The rules of a REPLY, for the user that the session challenged.
#[tactic(auto, unfolding(crate::specs::Verdict::reply_verdict))]
fn judge_reply(
    setup: &Setup,
    journal: &[Event],
    session: u32,
    words: Option<u64>,
    hex: Option<u64>,
) -> Decision
    ensures { result ≡ reply_verdict setup.now journal.now session words hex }
{
    if was_decoyed(journal, session) {
        return judge_decoy(words, hex);
    }
    match challenged_user(journal, session) {
        None => Decision::deny(rules::HOLD_LOST, 0),
        Some(user) => judge_login(setup, journal, session, words, hex, &user),
    }
}

/// Whether the mode of a grant or of an open file has all that is needed: 1 to read, 2 to write, 3 for both.
pub fn allows(mode: u8, needed: u8) -> bool
    ensures { result ≡ allows mode needed }
{
    needed & mode == needed
}

/// Rules 17 and 18 of a READ or WRITE; handle 0 is the client's connection.
#[tactic(auto, unfolding(crate::specs::Verdict::handle_verdict))]
fn judge_handle(journal: &[Event], session: u32, handle: u32, needed: u8) -> Decision
    ensures { result ≡ handle_verdict journal.now session handle needed }
{
    if handle == 0 {
        return Decision::Permit { value: 0 };
    }
    match opening(journal, session, u64::from(handle)) {
        None => Decision::deny(rules::NO_HANDLE, handle),
        Some(event) if allows(event.ask.mode(), needed) => Decision::Permit { value: 0 },
        Some(_) => Decision::deny(rules::MODE_LACKING, handle),
    }
}

/// The account that the session is logged in as.
fn verified_account<'a>(setup: &'a Setup, journal: &[Event], session: u32) -> Option<&'a Account>
    ensures { option_copied result ≡ account_named setup.now (verified_user journal.now session) }
{
    match verified_user(journal, session) {
        None => None,
        Some(user) => account_of(setup, &user),
    }
}

/// The grant of a file's name.
fn grant_of<'a>(grants: &'a [Grant], name: &Label) -> Option<&'a Grant>
    ensures { option_copied result ≡ find (λ g. same_label g.name name.now) grants.entry.now }
{
    grants.iter().find(|g| same_label(&g.name, name))
}

/// Rules 20 and 21 of an OPEN of the file with this name in a mode, else a permit with the handle that is free.
pub fn judge_grant(grants: &[Grant], mode: u8, name: &Label, free: u64) -> Decision
    ensures { result ≡ grant_verdict free mode (find (λ g. same_label g.name name.now) grants.now) }
{
    match grant_of(grants, name) {
        None => Decision::deny(rules::NOT_GRANTED, 0),
        Some(grant) if allows(grant.mode, mode) => Decision::Permit { value: free },
        Some(_) => Decision::deny(rules::MODE_NOT_GRANTED, u32::from(mode)),
    }
}

/// Rules 19 to 21 of an OPEN, else a permit with the handle.
#[tactic(auto, unfolding(crate::specs::Verdict::open_verdict))]
fn judge_open(setup: &Setup, journal: &[Event], session: u32, mode: u8, name: &Label) -> Decision
    ensures { result ≡ open_verdict setup.now journal.now session mode name.now }
{
    if count_live(journal, session) >= 8 {
        return Decision::deny(rules::HANDLES_SPENT, 8);
    }
    let free = free_handle(journal, session);
    match verified_account(setup, journal, session) {
        None => Decision::deny(rules::NOT_GRANTED, 0),
        Some(account) => judge_grant(account.grants.as_slice(), mode, name, free),
    }
}

/// Rule 17 of a CLOSE, also for handle 0.
#[tactic(auto, unfolding(crate::specs::Verdict::close_verdict))]
fn judge_close(journal: &[Event], session: u32, handle: u32) -> Decision
    ensures { result ≡ close_verdict journal.now session handle }
{
    if handle == 0 || opening(journal, session, u64::from(handle)).is_none() {
        Decision::deny(rules::NO_HANDLE, handle)
    } else {
        Decision::Permit { value: 0 }
    }
}

/// Whether an information number is in the setup.
fn has_info(setup: &Setup, number: u32) -> bool
    ensures { result ≡ list_any (nat_eq number) setup.now.info }
{
    setup.parts().info.as_slice().iter().any(|n| number == *n)
}

/// Rule 22 of an INFO, else a permit with the user's current sequence.
#[tactic(auto, unfolding(crate::specs::Verdict::info_verdict))]
fn judge_info(setup: &Setup, journal: &[Event], session: u32, number: u32) -> Decision
    ensures { result ≡ info_verdict setup.now journal.now session number }
{
    if !has_info(setup, number) {
        return Decision::deny(rules::NO_INFORMATION, number);
    }
    match verified_account(setup, journal, session) {
        None => Decision::Permit { value: 0 },
        Some(account) => Decision::Permit {
            value: current_sequence(journal, account),
        },
    }
}

/// The number of the account that the session is logged in as, counted from 0.
fn verified_number(setup: &Setup, journal: &[Event], session: u32) -> u32
    ensures { result ≡ number_named setup.now (verified_user journal.now session) }
{
    match verified_user(journal, session) {
        None => 0,
        Some(user) => setup.find(&user).unwrap_or(0),
    }
}

/// The rules of a request's own kind, else a permit with its value.
#[tactic(auto, unfolding(crate::specs::Verdict::kind_verdict))]
pub(crate) fn judge_kind(setup: &Setup, journal: &[Event], session: u32, ask: &Ask) -> Decision
    ensures { result ≡ kind_verdict setup.now journal.now session ask.now }
{
    match ask {
        Ask::Challenge { user, now } => judge_challenge(setup, journal, session, user, *now),
        Ask::Reply { words, hex } => judge_reply(setup, journal, session, *words, *hex),
        Ask::Export { .. } => Decision::Permit {
            value: u64::from(verified_number(setup, journal, session)),
        },
        Ask::ReadAt { handle, .. } => judge_handle(journal, session, *handle, READ),
        Ask::WriteAt { handle, .. } => judge_handle(journal, session, *handle, WRITE),
        Ask::OpenFile { mode, name } => judge_open(setup, journal, session, *mode, name),
        Ask::CloseFile { handle } => judge_close(journal, session, *handle),
        Ask::Info { number } => judge_info(setup, journal, session, *number),
        _ => Decision::Permit { value: 0 },
    }
}
