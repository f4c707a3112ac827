//! Who takes and holds a user, and which passwords were accepted.

ghost use Rattle.std.specs.Prelude.{◌≡◌, ◌≤◌, ◌<◌, ◌+◌, ◌^◌, ◌==◌, ◌&&◌, ◌||◌, length, nat_eq, not, if◌then◌else◌};
ghost use Rattle.std.specs.List.{last_or, list_any};
ghost use Rattle.std.specs.Option.{option_copied, option_to_list};
ghost use Rattle.policy_model.specs.Asks.{accepts, gives_up, reserves, is_user};
ghost use Rattle.policy_model.specs.Journal.{is_own};
ghost use Rattle.policy_model.specs.Logins.{account_of, challenged_user, current_password, current_sequence, holder_of};
ghost use Rattle.policy_model.specs.Logins.{is_live, last_taking_of, replies_of, reply_for, session_taking};
ghost use Rattle.policy_model.specs.Logins.{verified_user, was_accepted, was_decoyed, was_given_up};
ghost use Rattle.policy_model.specs.Cases.{holder_by};

use crate::account::Account;
use crate::event::Event;
use crate::journal::{is_over, last_taking, later};
use crate::ranges::same_name;
use crate::setup::Setup;
use request_catalogue::Name;

/// The user of the session's last permitted CHALLENGE.
#[tactic(auto, unfolding(crate::specs::Logins::challenged_user))]
pub(crate) fn challenged_user(journal: &[Event], session: u32) -> Option<Name>
    ensures { result ≡ challenged_user journal.now session }
{
    match last_taking(journal, session) {
        None => None,
        Some(event) => event.ask.challenge_name(),
    }
}

/// Whether the session's last permitted CHALLENGE names a decoy.
#[tactic(auto, unfolding(crate::specs::Logins::was_decoyed))]
pub(crate) fn was_decoyed(journal: &[Event], session: u32) -> bool
    ensures { result ≡ was_decoyed journal.now session }
{
    match last_taking(journal, session) {
        None => false,
        Some(event) => event.is_decoy(),
    }
}

/// The verified user after one more event.
fn verified_after(user: Option<Name>, before: &[Event], event: &Event, session: u32) -> Option<Name>
    ensures { result ≡ (if is_own session accepts event.now then challenged_user before.now session else user) }
{
    if event.is_acceptance_of(session) {
        challenged_user(before, session)
    } else {
        user
    }
}

/// The user that the session is logged in as.
pub fn verified_user(journal: &[Event], session: u32) -> Option<Name>
    ensures { result ≡ verified_user journal.now session }
{
    let mut user = None;
    for (i, event) in journal.iter().enumerate() {
        user = verified_after(user, &journal[..i], event, session);
    }
    user
}

/// The last taking of a user, and whether its session gave the user up after it.
#[derive(Clone, Copy)]
struct Hold {
    taking: Option<Event>,
    given_up: bool,
}

/// The session of a taking, or 0.
pub(crate) fn session_taking(taking: &Option<Event>) -> u32
    ensures { result ≡ session_taking taking.now }
{
    match taking {
        None => 0,
        Some(event) => event.session,
    }
}

/// Whether the user is given up after one more event.
fn given_up_after(hold: &Hold, event: &Event, user: &Name) -> bool
    ensures { result ≡ (not (reserves user.now event.now)
        && (hold.now.given_up || is_own (session_taking hold.now.taking) gives_up event.now)) }
{
    !event.reserves(user) && (hold.given_up || event.is_giving_up_of(session_taking(&hold.taking)))
}

/// The last taking of a user in the journal.
fn hold_of(journal: &[Event], user: &Name) -> Hold
    ensures taking { result.taking ≡ last_taking_of journal.now user.now }
    ensures given_up { result.given_up ≡ was_given_up journal.now user.now }
{
    let mut hold = Hold {
        taking: None,
        given_up: false,
    };
    for event in journal {
        hold = Hold {
            given_up: given_up_after(&hold, event, user),
            taking: later(hold.taking, event, event.reserves(user)),
        };
    }
    hold
}

/// The last permitted CHALLENGE for the user that isn't a decoy.
pub(crate) fn last_taking_of(journal: &[Event], user: &Name) -> Option<Event>
    ensures { result ≡ last_taking_of journal.now user.now }
{
    hold_of(journal, user).taking
}

/// The session that holds the user.
#[tactic(auto, unfolding(crate::specs::Logins::holder_of))]
pub(crate) fn holder(journal: &[Event], user: &Name) -> Option<u32>
    ensures { result ≡ holder_of journal.now user.now }
{
    let hold = hold_of(journal, user);
    match hold.taking {
        None => None,
        Some(event) if hold.given_up || is_over(journal, event.session) => None,
        Some(event) => Some(event.session),
    }
}

/// Whether a name is there and is the user's.
fn is_user(user: &Name, name: Option<Name>) -> bool
    ensures { result ≡ is_user user.now name }
{
    match name {
        None => false,
        Some(name) => same_name(&name, user),
    }
}

/// The password of a permitted REPLY for the user, whose event has these events before it.
fn reply_for(before: &[Event], event: &Event, user: &Name) -> Option<u64>
    ensures { result ≡ reply_for user.now (record { before = before.now; event = event.now }) }
{
    if event.accepts() && is_user(user, challenged_user(before, event.session)) {
        Some(event.decision.value())
    } else {
        None
    }
}

/// How many replies for the user were permitted, after one more event.
fn count_after(count: usize, before: &[Event], event: &Event, user: &Name) -> usize
    requires { count < 2 ^ 63 }
    ensures { result ≡ count
        + length (option_to_list (reply_for user.now (record { before = before.now; event = event.now }))) }
{
    match reply_for(before, event, user) {
        None => count,
        Some(_) => count + 1,
    }
}

/// How many replies for the user were permitted.
pub(crate) fn count_replies(journal: &[Event], user: &Name) -> usize
    ensures value { result ≡ length (replies_of journal.now user.now) }
    ensures bound { result ≤ length journal.now }
{
    let mut count = 0;
    for (i, event) in journal.iter().enumerate() {
        count = count_after(count, &journal[..i], event, user);
    }
    count
}

/// The password of the last permitted reply for the user, after one more event.
fn last_after(last: Option<u64>, before: &[Event], event: &Event, user: &Name) -> Option<u64>
    ensures { result
        ≡ last_or last (option_to_list (reply_for user.now (record { before = before.now; event = event.now }))) }
{
    match reply_for(before, event, user) {
        None => last,
        Some(password) => Some(password),
    }
}

/// The password of the last permitted reply for the user.
fn last_reply(journal: &[Event], user: &Name) -> Option<u64>
    ensures { result ≡ last_or None (replies_of journal.now user.now) }
{
    let mut last = None;
    for (i, event) in journal.iter().enumerate() {
        last = last_after(last, &journal[..i], event, user);
    }
    last
}

/// Whether the event permits a reply for the user with this password.
fn is_reply_with(before: &[Event], event: &Event, user: &Name, password: u64) -> bool
    ensures { result ≡ list_any (nat_eq password)
        (option_to_list (reply_for user.now (record { before = before.now; event = event.now }))) }
{
    match reply_for(before, event, user) {
        None => false,
        Some(value) => password == value,
    }
}

/// Whether a permitted reply for the user had this password, after one more event.
fn found_after(found: bool, before: &[Event], event: &Event, user: &Name, password: u64) -> bool
    ensures { result
        ≡ (found
        || list_any (nat_eq password)
        (option_to_list (reply_for user.now (record { before = before.now; event = event.now })))) }
{
    found || is_reply_with(before, event, user, password)
}

/// Whether a permitted reply for the user had this password.
fn was_replied(journal: &[Event], user: &Name, password: u64) -> bool
    ensures { result ≡ list_any (nat_eq password) (replies_of journal.now user.now) }
{
    let mut found = false;
    for (i, event) in journal.iter().enumerate() {
        found = found_after(found, &journal[..i], event, user, password);
    }
    found
}

/// Whether a password was accepted before.
pub(crate) fn was_accepted(journal: &[Event], account: &Account, password: u64) -> bool
    ensures { result ≡ was_accepted journal.now account.now password }
{
    password == account.password || was_replied(journal, &account.name, password)
}

/// The password that was accepted last.
pub(crate) fn current_password(journal: &[Event], account: &Account) -> u64
    ensures { result ≡ current_password journal.now account.now }
{
    match last_reply(journal, &account.name) {
        None => account.password,
        Some(password) => password,
    }
}

/// How many passwords the account's chain still has.
pub(crate) fn current_sequence(journal: &[Event], account: &Account) -> u64
    ensures value { result ≡ current_sequence journal.now account.now }
    ensures bound { result ≤ 65535 }
{
    u64::from(account.sequence).saturating_sub(count_replies(journal, &account.name) as u64)
}

/// Whether the user of an account can log in.
pub(crate) fn is_live(journal: &[Event], account: &Account) -> bool
    ensures { result ≡ is_live journal.now account.now }
{
    account.enabled && current_sequence(journal, account) != 0
}

/// The account of a user.
pub(crate) fn account_of<'a>(setup: &'a Setup, user: &Name) -> Option<&'a Account>
    ensures { option_copied result ≡ account_of setup.now user.now }
{
    setup
        .parts()
        .accounts
        .as_slice()
        .iter()
        .find(|a| same_name(&a.name, user))
}
