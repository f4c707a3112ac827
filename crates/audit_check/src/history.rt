//! What the events of a log so far say of each worker and each account, so that nobody looks through them
//! again.

ghost use Rattle.std.specs.Prelude.{◌≡◌, ◌<◌, ◌-◌, ◌^◌, List, [], ◌∷◌, ◌++◌, ◌+◌, IfOk, IfSome, length, map};
ghost use Rattle.std.specs.Prelude.{slice_index_or, if◌then◌else◌};
ghost use Rattle.policy_model.specs.declared.event.Event.{Event};
ghost use Rattle.policy_model.specs.Asks.{opens};
ghost use Rattle.session_laws.specs.Tied.{holder_after};
ghost use Rattle.audit_check.specs.Following.{own_after};
ghost use Rattle.audit_check.specs.Legal.{MayFollow};
ghost use Rattle.audit_check.specs.declared.seats.Seat.{Seat};
ghost use Rattle.audit_check.specs.Seats.{AreSeated, AreVacant};
ghost use Rattle.audit_check.specs.History.{AreEmpty, AreFollowed, AreIdle, AreReplied, HasLog, IsKept, IsRenewed};
ghost use Rattle.audit_check.specs.History.{IsReplyFor, first_hold, hold_after};

use crate::seats::{Seat, seat_after};
use crate::sessions::{login_of, user_named};
use policy_model::{Account, Event, Setup};
use request_catalogue::Name;
use std::alloc::{AllocError, Global};

/// Who took a user last and when, and who holds it.
#[derive(Clone, Copy, PartialEq, Eq)]
pub(crate) struct Hold {
    /// The session of the last taking, or 0.
    pub(crate) taker: u32,
    /// Its moment, in milliseconds since the run began, or 0.
    pub(crate) moment: u64,
    pub(crate) holder: Option<u32>,
}

/// What the events of a log so far say of each worker and each account of a setup. The events themselves are
/// kept nowhere.
#[derive(Drop)]
pub(crate) struct History {
    /// How many events there are.
    pub(crate) count: u32,
    /// By the workers' numbers: each worker's events from its last permitted opening or end on.
    pub(crate) recent: Vec<Vec<Event>>,
    /// By the workers' numbers: what each worker's open session has come to.
    pub(crate) seats: Vec<Seat>,
    /// How many sessions were opened.
    pub(crate) opened: u32,
    /// By the accounts' numbers.
    pub(crate) holds: Vec<Hold>,
    /// The passwords of each account's permitted replies, in order.
    pub(crate) replies: Vec<Vec<u64>>,
}

/// The holder of a user after an event that doesn't take it.
fn holder_after(holder: Option<u32>, event: &Event) -> Option<u32>
    ensures { result ≡ holder_after holder event.now }
{
    match holder {
        Some(session) if event.session == session && event.leaves() => None,
        _ => holder,
    }
}

/// What an event makes of the hold of a user.
fn hold_after(hold: Hold, event: &Event, user: &Name) -> Hold
    ensures { result ≡ hold_after user.now event.now hold }
{
    if event.reserves(user) {
        Hold {
            taker: event.session,
            moment: event.ask.moment(),
            holder: Some(event.session),
        }
    } else {
        Hold {
            holder: holder_after(hold.holder, event),
            ..hold
        }
    }
}

/// The holds of all accounts after an event.
fn renew(holds: &mut Vec<Hold>, accounts: &[Account], event: &Event)
    requires { length holds.old.items ≡ length accounts.now }
    ensures { IsRenewed accounts.now event.now holds.old.items holds.new.items }
{
    for i in 0..accounts.len() {
        holds[i] = hold_after(holds[i], event, &accounts[i].name);
    }
}

/// The same, where most events change none.
fn settle(holds: &mut Vec<Hold>, accounts: &[Account], event: &Event)
    requires { length holds.old.items ≡ length accounts.now }
    ensures { IsRenewed accounts.now event.now holds.old.items holds.new.items }
{
    if event.takes() || event.leaves() {
        renew(holds, accounts, event);
    }
}

/// A password is the last of the account's replies, where there is an account.
fn accept(
    replies: &mut Vec<Vec<u64>>,
    account: Option<u32>,
    password: u64,
) -> Result<(), AllocError>
    requires { IfSome account (λ n. n < length replies.old.items) }
    ensures { IfOk result (λ done. AreReplied account password replies.old.items replies.new.items) }
{
    let Some(number) = account else {
        return Ok(());
    };
    replies[number as usize].push(password)?;
    Ok(())
}

/// How many sessions were opened after an event.
fn opened_after(opened: u32, event: &Event) -> u32
    requires { opened < 2 ^ 32 - 1 }
    ensures { result ≡ opened + (if opens event.now then 1 else 0) }
{
    if event.opens() { opened + 1 } else { opened }
}

/// A worker's events with one more, from its last permitted opening or end on.
fn append(own: &mut Vec<Event>, event: Event) -> Result<(), AllocError>
    ensures { IfOk result (λ done. own.new.items ≡ own_after event own.old.items) }
{
    if event.is_turn_of(event.worker) {
        own.clear();
    }
    own.push(event)?;
    Ok(())
}

/// The events of all workers with one more.
fn follow(recent: &mut Vec<Vec<Event>>, event: Event) -> Result<(), AllocError>
    requires { event.worker < length recent.old.items }
    ensures { IfOk result (λ done. AreFollowed event recent.old.items recent.new.items) }
{
    append(&mut recent[event.worker as usize], event)
}

/// The seats of all workers after an event.
fn seat(seats: &mut Vec<Seat>, event: &Event)
    requires worker { event.now.worker < length seats.old.items }
    requires few { (d : Seat) → (slice_index_or seats.old.items event.now.worker d).asks < 2 ^ 32 - 1 }
    ensures { AreSeated event.now seats.old.items seats.new.items }
{
    let worker = event.worker as usize;
    seats[worker] = seat_after(seats[worker], event);
}

/// The hold of an account before the first event.
fn first_hold(_account: &Account) -> Hold
    ensures { result ≡ first_hold _account.now }
{
    Hold {
        taker: 0,
        moment: 0,
        holder: None,
    }
}

/// The holds of accounts before the first event.
fn first_holds(alloc: Global, accounts: &[Account]) -> Result<Vec<Hold>, AllocError>
    ensures { IfOk result (λ holds. holds.items ≡ map first_hold accounts.now) }
{
    let mut holds = Vec::with_capacity(alloc, accounts.len())?;
    for account in accounts {
        holds.push(first_hold(account))?;
    }
    Ok(holds)
}

/// The replies of so many accounts before the first event.
fn no_replies(alloc: Global, count: usize) -> Result<Vec<Vec<u64>>, AllocError>
    ensures same { IfOk result (λ replies. length replies.items ≡ count) }
    ensures none { IfOk result (λ replies. AreEmpty replies.items) }
{
    let mut replies = Vec::with_capacity(alloc, count)?;
    for _i in 0..count {
        replies.push(Vec::new(alloc))?;
    }
    Ok(replies)
}

/// The events of so many workers before the first event.
fn no_events(alloc: Global, count: usize) -> Result<Vec<Vec<Event>>, AllocError>
    ensures same { IfOk result (λ recent. length recent.items ≡ count) }
    ensures none { IfOk result (λ recent. AreIdle recent.items) }
{
    let mut recent = Vec::with_capacity(alloc, count)?;
    for _i in 0..count {
        recent.push(Vec::new(alloc))?;
    }
    Ok(recent)
}

/// The seats of so many workers before the first event.
fn no_sessions(alloc: Global, count: usize) -> Result<Vec<Seat>, AllocError>
    ensures same { IfOk result (λ seats. length seats.items ≡ count) }
    ensures none { IfOk result (λ seats. AreVacant seats.items) }
{
    let mut seats = Vec::with_capacity(alloc, count)?;
    for _i in 0..count {
        seats.push(Seat {
            session: 0,
            over: false,
            asks: 0,
        })?;
    }
    Ok(seats)
}

impl History {
    /// What is kept of a log without an event.
    ///
    /// # Errors
    ///
    /// There isn't the memory.
    pub(crate) fn new(alloc: Global, setup: &Setup) -> Result<History, AllocError>
        ensures { IfOk result (IsKept setup.now []) }
    {
        let accounts = setup.parts().accounts.as_slice();
        Ok(History {
            count: 0,
            recent: no_events(alloc, setup.workers() as usize)?,
            seats: no_sessions(alloc, setup.workers() as usize)?,
            opened: 0,
            holds: first_holds(alloc, accounts)?,
            replies: no_replies(alloc, accounts.len())?,
        })
    }

    /// The account of a permitted reply's user.
    fn account_of_reply(&self, setup: &Setup, event: &Event) -> Option<u32>
        requires kept { HasLog setup.now self.now }
        requires worker { event.now.worker < length self.now.recent.items }
        ensures within { IfSome result (λ n. n < length setup.now.accounts) }
        ensures each { (events : List Event) → IsKept setup.now events self.now → MayFollow setup.now events event.now →
            IsReplyFor setup.now events event.now result }
    {
        if !event.accepts() {
            return None;
        }
        match user_named(&login_of(self, event.worker)) {
            None => None,
            Some(user) => setup.find(&user),
        }
    }

    /// An event more, which may follow.
    ///
    /// # Errors
    ///
    /// There isn't the memory.
    pub(crate) fn push(&mut self, setup: &Setup, event: Event) -> Result<(), AllocError>
        requires kept { HasLog setup.now self.old }
        requires few { self.old.count < 2 ^ 32 - 1 }
        requires next { (events : List Event) → IsKept setup.now events self.old → MayFollow setup.now events event }
        ensures { IfOk result (λ done. (events : List Event) → IsKept setup.now events self.old →
            IsKept setup.now (events ++ event ∷ []) self.new) }
    {
        let account = self.account_of_reply(setup, &event);
        accept(&mut self.replies, account, event.decision.value())?;
        settle(&mut self.holds, setup.parts().accounts.as_slice(), &event);
        self.opened = opened_after(self.opened, &event);
        seat(&mut self.seats, &event);
        follow(&mut self.recent, event)?;
        self.count += 1;
        Ok(())
    }
}
