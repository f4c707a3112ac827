//! The lines of a log's records, and the replies that they accept.

ghost use Rattle.std.specs.Prelude.{◌≡◌, ◌≤◌, ◌<◌, ◌+◌, ◌^◌, ◌++◌, ◌∷◌, [], IfOk, IfSome, List, MatchOption};
ghost use Rattle.std.specs.Prelude.{MatchResult, ℕ, length, nat_lt, None, Some, if◌then◌else◌};
ghost use Rattle.std.specs.BTreeMap.{get};
ghost use Rattle.std.specs.Option.{option_to_list};
ghost use Rattle.std.specs.Ordering.{nat_cmp};
ghost use Rattle.policy_model.specs.Settings.{Settings, account_number};
ghost use Rattle.decision_log.specs.Logged.{logged_value};
ghost use Rattle.ledger_journal.specs.Lines.{line_at};
ghost use Rattle.ledger_journal.specs.Logins.{login_by};
ghost use Rattle.ledger_journal.specs.Reads.{IsLogOf, IsRead, IsReadError, IsTaken, bad_after, taken};

use crate::answer::RecoverError;
use crate::login::Login;
use crate::records::{Next, next_record};
use decision_log::{Logged, LoggedAsk, read_line};
use policy_model::{DECOYS_FROM, Decision, EVENTS_LIMIT, Setup};
use request_catalogue::Name;
use std::alloc::{AllocError, Global};
use std::collections::BTreeMap;

/// What is kept of the records that were read.
#[derive(Drop)]
pub(crate) struct Log {
    /// How many there are.
    pub(crate) count: usize,
    /// The first place, counted from 1, that is above 1,048,576 or isn't that of a line with it as its
    /// number.
    pub(crate) bad: Option<u32>,
    /// The number of the account that each session took last.
    takings: BTreeMap<u32, Option<u32>>,
    /// The replies that were accepted.
    pub(crate) logins: Vec<Login>,
}

/// The line that a record is, where it is one and its place is its number.
fn line_at(place: usize, bytes: &[u8]) -> Option<Logged>
    ensures { MatchOption result (line_at place bytes.now ≡ None) (λ line. line_at place bytes.now
        ≡ Some (logged_value line)) }
{
    match read_line(bytes) {
        Ok(line) if line.number as usize == place => Some(line),
        _ => None,
    }
}

/// The first bad place of records, where one more stands after them.
fn first_bad(bad: Option<u32>, place: usize, is_line: bool) -> Option<u32>
    requires { MatchOption bad (place ≤ EVENTS_LIMIT + 1) (λ _. Unit {0}) }
    ensures { result ≡ bad_after bad place is_line }
{
    match bad {
        None if place > EVENTS_LIMIT as usize || !is_line => Some(place as u32),
        _ => bad,
    }
}

/// The number of the account that a permitted CHALLENGE with this value takes.
fn account_taken(setup: &Setup, user: &Name, value: u64) -> Option<u32>
    ensures taken { result ≡ (if nat_lt value DECOYS_FROM then account_number setup.now user.now else None) }
    ensures within { IfSome result (λ n. n < length setup.now.accounts) }
{
    if value < DECOYS_FROM {
        setup.find(user)
    } else {
        None
    }
}

/// A permitted CHALLENGE is its session's last one.
fn take(
    takings: &mut BTreeMap<u32, Option<u32>>,
    setup: &Setup,
    line: &Logged,
) -> Result<(), AllocError>
    ensures { IfOk result (λ _. IsTaken setup.now (logged_value line.now) takings.old takings.new) }
{
    if let LoggedAsk::Challenge { user, .. } = line.what
        && let Decision::Permit { value } = line.decision
    {
        takings.insert(line.session, account_taken(setup, &user, value))?;
    }
    Ok(())
}

/// The number of the account that a session took last.
fn account_of(takings: &BTreeMap<u32, Option<u32>>, session: u32) -> Option<u32>
    ensures { result ≡ taken (get nat_cmp takings.now session) }
{
    match takings.get(&session) {
        Some(account) => *account,
        None => None,
    }
}

/// The reply that a line accepts.
fn login_in(takings: &BTreeMap<u32, Option<u32>>, line: &Logged) -> Option<Login>
    ensures { result ≡ login_by (taken (get nat_cmp takings.now line.now.session)) (logged_value line.now) }
{
    match (line.what, line.decision) {
        (LoggedAsk::Reply, Decision::Permit { value }) => Some(Login {
            line: line.number,
            account: account_of(takings, line.session),
            password: value,
        }),
        _ => None,
    }
}

/// A reply that was accepted stands after the others.
fn keep(logins: &mut Vec<Login>, login: Option<Login>) -> Result<(), AllocError>
    ensures { IfOk result (λ _. logins.new.items ≡ logins.old.items ++ option_to_list login) }
{
    if let Some(login) = login {
        logins.push(login)?;
    }
    Ok(())
}

impl Log {
    /// Nothing was read.
    fn new(alloc: Global) -> Log
        ensures { (setup : Settings) → IsRead setup [] result }
    {
        Log {
            count: 0,
            bad: None,
            takings: BTreeMap::new(alloc),
            logins: Vec::new(alloc),
        }
    }

    /// What a line says is kept too.
    fn add(&mut self, setup: &Setup, line: &Logged) -> Result<(), AllocError>
        ensures count { self.new.count ≡ self.old.count }
        ensures bad { self.new.bad ≡ self.old.bad }
        ensures logins { IfOk result (λ _. self.new.logins.items ≡ self.old.logins.items ++ option_to_list
            (login_by (taken (get nat_cmp self.old.takings line.now.session)) (logged_value line.now))) }
        ensures takings { IfOk result (λ _. IsTaken setup.now (logged_value line.now) self.old.takings
            self.new.takings) }
    {
        keep(&mut self.logins, login_in(&self.takings, line))?;
        take(&mut self.takings, setup, line)
    }

    /// One record more is read.
    fn read(&mut self, setup: &Setup, bytes: &[u8]) -> Result<(), AllocError>
        requires fits { self.old.count < 2 ^ 63 }
        requires bad { MatchOption self.old.bad (self.old.count ≤ EVENTS_LIMIT) (λ _. Unit {0}) }
        ensures { (records : List (List ℕ)) → IsRead setup.now records self.old
            → IfOk result (λ _. IsRead setup.now (records ++ bytes.now ∷ []) self.new) }
    {
        let place = self.count + 1;
        let line = line_at(place, bytes);
        self.count = place;
        self.bad = first_bad(self.bad, place, line.is_some());
        match line {
            Some(line) => self.add(setup, &line),
            None => Ok(()),
        }
    }
}

/// Reads the records of an image.
pub(crate) fn read_log(alloc: Global, setup: &Setup, image: &[u8]) -> Result<Log, RecoverError>
    ensures { MatchResult result (IsLogOf setup.now image.now) (IsReadError image.now) }
{
    let Some(mut rest) = image.strip_prefix(b"OTJ1") else {
        return Err(RecoverError::NoLog);
    };
    let mut log = Log::new(alloc);
    loop {
        match next_record(rest) {
            Next::Opened {
                bytes,
                rest: behind,
            } => {
                log.read(setup, bytes)?;
                rest = behind;
            }
            Next::Closed => return Ok(log),
            Next::Cut => return Err(RecoverError::NoLog),
        }
    }
}
