//! What the ledger decides on CHALLENGE and REPLY: rules 12 to 16.

ghost use Rattle.std.specs.Prelude.{◌≡◌, ◌<◌, IfSome, length, if◌then◌else◌};
ghost use Rattle.std.specs.List.{find, list_any};
ghost use Rattle.std.specs.Option.{option_to_list};
ghost use Rattle.otp_hash.specs.Hashing.{hash_of};
ghost use Rattle.policy_model.specs.Verdict.{decoy_challenge, decoy_verdict, readings};
ghost use Rattle.otp_ledger.specs.Accounts.{state_at, was_accepted};
ghost use Rattle.otp_ledger.specs.Decisions.{PermitsNext, challenge_decision, is_next, live_decision};
ghost use Rattle.otp_ledger.specs.Decisions.{readings_decision, refused, reply_decision, state_decision};
ghost use Rattle.otp_ledger.specs.Standing.{IsChallengeVerdict, IsReplyVerdict};

use crate::ledger::Ledger;
use crate::mixing::mixed;
use crate::rows::AccountRow;
use otp_hash::{Algo, step};
use policy_model::{Decision, is_holder, is_other, is_within, judge_decoy};
use request_catalogue::{Name, rules};

/// The most accounts of a setup.
const ACCOUNTS_MAX: usize = 1_024;

/// One of two decisions. It stays a call, so that both are made before it, whichever it is: so the time
/// doesn't tell which.
#[inline(never)]
fn one_of(is_first: bool, first: Decision, second: Decision) -> Decision
    ensures { result ≡ if is_first then first else second }
{
    if is_first { first } else { second }
}

/// One of two passwords, both of which are made before this call.
#[inline(never)]
fn password_of(is_first: bool, first: u64, second: u64) -> u64
    ensures { result ≡ if is_first then first else second }
{
    if is_first { first } else { second }
}

/// The password that follows from a password. Both algorithms run, so that the time doesn't tell which is
/// the account's.
fn hashed(algo: Algo, password: u64) -> u64
    ensures { result ≡ hash_of algo password }
{
    let md5 = step(Algo::Md5, password);
    let sha1 = step(Algo::Sha1, password);
    password_of(matches!(algo, Algo::Md5), md5, sha1)
}

impl Ledger {
    /// A CHALLENGE for the user of an account who can log in.
    fn judge_live(&self, account: u32, session: u32, now: u64) -> Decision
        requires { account < length self.now.accounts }
        ensures { result ≡ live_decision self.now.setup session now (state_at self.now account) }
    {
        let row: AccountRow = *self.row(account);
        if is_other(session, row.holder) && is_within(now, row.moment, self.setup().parts().hold) {
            Decision::Deny {
                rule: rules::USER_HELD,
                detail: row.taker,
            }
        } else {
            Decision::Permit {
                value: u64::from(row.sequence.saturating_sub(1)),
            }
        }
    }

    /// A CHALLENGE for the user of an account.
    fn judge_account(&self, account: u32, user: &Name, session: u32, now: u64) -> Decision
        requires { account < length self.now.accounts }
        ensures { result ≡ state_decision self.now.setup user.now session now (state_at self.now account) }
    {
        let row: AccountRow = *self.row(account);
        let decoy = self.setup().challenge_decoy(user);
        let own = self.judge_live(account, session, now);
        one_of(!row.enabled || row.sequence == 0, decoy, own)
    }

    /// The account that stands in for a decoy, by a number that goes with its name.
    fn stand_in(&self, number: u64) -> Option<u32>
        ensures { IfSome result (λ n. n < length self.now.accounts) }
    {
        match self.len() as u64 {
            0 => None,
            accounts => Some((number % accounts) as u32),
        }
    }

    /// A CHALLENGE for nobody's name. An account that stands in is looked at all the same, so that the time
    /// doesn't tell a user. What comes of that would count in a ledger of more accounts than there can be, which
    /// no compiler knows.
    fn judge_nobody(&self, user: &Name, session: u32, now: u64) -> Decision
        ensures { result ≡ decoy_challenge self.now.setup user.now }
    {
        let decoy = self.setup().challenge_decoy(user);
        match self.stand_in(mixed(user)) {
            None => decoy,
            Some(account) => one_of(
                self.len() > ACCOUNTS_MAX,
                self.judge_live(account, session, now),
                decoy,
            ),
        }
    }

    /// A CHALLENGE by what is known of the user's account.
    fn decide_challenge(&self, user: &Name, session: u32, now: u64) -> Decision
        ensures { result ≡ challenge_decision self.now user.now session now }
    {
        match self.find(user) {
            None => self.judge_nobody(user, session, now),
            Some(account) => self.judge_account(account, user, session, now),
        }
    }

    /// A CHALLENGE of a session for a user, at a moment in milliseconds since the run began. Where the
    /// user can't log in it is permitted with 10,000 and the decoy's number, else denied by rule 12, or
    /// permitted with the current sequence less 1.
    pub fn judge_challenge(&self, user: &Name, session: u32, now: u64) -> Decision
        ensures value { result ≡ challenge_decision self.now user.now session now }
        ensures verdict { IsChallengeVerdict self.now user.now session now result }
    {
        self.decide_challenge(user, session, now)
    }

    /// Whether a password hashes to the current one and was not accepted before.
    fn is_next(&self, account: u32, password: u64) -> bool
        requires { account < length self.now.accounts }
        ensures { result ≡ is_next (state_at self.now account) password }
    {
        let row: AccountRow = *self.row(account);
        hashed(row.algo, password) == row.password && !self.was_accepted(account, password)
    }

    /// The reading, where it is there and is the next password.
    fn next_of(&self, account: u32, reading: Option<u64>) -> Option<u64>
        requires { account < length self.now.accounts }
        ensures { result ≡ find (is_next (state_at self.now account)) (option_to_list reading) }
    {
        match reading {
            Some(password) => self.is_next(account, password).then_some(password),
            None => None,
        }
    }

    /// Whether a reading is there and was accepted before.
    fn was_used(&self, account: u32, reading: Option<u64>) -> bool
        requires { account < length self.now.accounts }
        ensures { result ≡ list_any (was_accepted (state_at self.now account)) (option_to_list reading) }
    {
        match reading {
            None => false,
            Some(password) => self.was_accepted(account, password),
        }
    }

    /// Rules 15 and 16.
    fn judge_refused(&self, account: u32, words: Option<u64>, hex: Option<u64>) -> Decision
        requires { account < length self.now.accounts }
        ensures { result ≡ refused (state_at self.now account) (readings words hex) }
    {
        if self.was_used(account, words) || self.was_used(account, hex) {
            Decision::Deny {
                rule: rules::PASSWORD_USED,
                detail: 0,
            }
        } else {
            Decision::Deny {
                rule: rules::NO_MATCH,
                detail: 0,
            }
        }
    }

    /// The readings, words before hexadecimal digits.
    fn judge_readings(&self, account: u32, words: Option<u64>, hex: Option<u64>) -> Decision
        requires { account < length self.now.accounts }
        ensures { result ≡ readings_decision (state_at self.now account) (readings words hex) }
    {
        match self.next_of(account, words) {
            Some(value) => Decision::Permit { value },
            None => match self.next_of(account, hex) {
                Some(value) => Decision::Permit { value },
                None => self.judge_refused(account, words, hex),
            },
        }
    }

    /// A REPLY by what is known of the account.
    fn decide_reply(
        &self,
        account: u32,
        session: u32,
        words: Option<u64>,
        hex: Option<u64>,
    ) -> Decision
        requires { account < length self.now.accounts }
        ensures { result ≡ reply_decision (state_at self.now account) session (readings words hex) }
    {
        let row: AccountRow = *self.row(account);
        if !is_holder(session, row.holder) {
            return Decision::Deny {
                rule: rules::HOLD_LOST,
                detail: row.taker,
            };
        }
        if words.is_none() && hex.is_none() {
            return Decision::Deny {
                rule: rules::NO_READING,
                detail: 0,
            };
        }
        self.judge_readings(account, words, hex)
    }

    /// A REPLY of a session for the user of an account, with its readings as six words and as
    /// hexadecimal digits: denied by rules 13 to 16, or permitted with the accepted password.
    pub fn judge_reply(
        &self,
        account: u32,
        session: u32,
        words: Option<u64>,
        hex: Option<u64>,
    ) -> Decision
        requires { account < length self.now.accounts }
        ensures value { result ≡ reply_decision (state_at self.now account) session (readings words hex) }
        ensures next { PermitsNext (state_at self.now account) result }
        ensures verdict { IsReplyVerdict self.now account session (readings words hex) result }
    {
        self.decide_reply(account, session, words, hex)
    }
    /// A REPLY to a decoy, with its readings as six words and as hexadecimal digits: denied by rule 14 or 16.
    /// They are judged by an account that stands in all the same (`judge_nobody`); the number goes with the name.
    pub fn judge_decoy(&self, number: u64, words: Option<u64>, hex: Option<u64>) -> Decision
        ensures { result ≡ decoy_verdict (readings words hex) }
    {
        let denied = judge_decoy(words, hex);
        match self.stand_in(number) {
            None => denied,
            Some(account) => one_of(
                self.len() > ACCOUNTS_MAX,
                self.judge_readings(account, words, hex),
                denied,
            ),
        }
    }
}
