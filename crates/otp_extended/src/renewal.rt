//! Whether a response renews an account, and to what.

ghost use Rattle.std.specs.Prelude.{◌≡◌, ◌≤◌, ◌<◌, IfOk, length};
ghost use Rattle.otp_extended.specs.Renewals.{IsSequenced, faults_of, first_of, is_loop, new_chain_of, renewal_of};

use crate::response::Response;
use otp_hash::{Algo, Seed, step};
use policy_model::{Account, Setup};
use request_catalogue::Name;
use trouble::RenewFault;

/// An account's new chain.
#[derive(Clone, Copy, PartialEq, Eq)]
pub struct Renewed {
    /// The number of the account, counted from 0.
    pub account: u32,
    pub algo: Algo,
    pub seed: Seed,
    /// How many passwords the chain has, 1 to 9,999.
    pub sequence: u16,
    /// The password that the next one hashes to; its first byte is the most significant.
    pub password: u64,
}

/// What a response makes of a user's account.
///
/// # Errors
///
/// The first fault that applies, in the order of `RenewFault`.
pub fn renew(setup: &Setup, user: &Name, response: &Response) -> Result<Renewed, RenewFault>
    requires { IsSequenced response.now }
    ensures renewal { result ≡ renewal_of setup.now user.now response.now }
    ensures account { IfOk result (λ new. new.account < length setup.now.accounts) }
    ensures sequence { IfOk result (λ new. new.sequence ≤ 9999) }
{
    let Some(number) = setup.find(user) else {
        return Err(RenewFault::Unknown);
    };
    let account = &setup.parts().accounts.as_slice()[number as usize];
    match fault_of(account, response) {
        Some(fault) => Err(fault),
        None => new_chain_of(number, response),
    }
}

/// The first fault of a response for an account.
fn fault_of(account: &Account, response: &Response) -> Option<RenewFault>
    ensures { result ≡ first_of (faults_of account.now response.now) }
{
    if !account.enabled {
        return Some(RenewFault::Disabled);
    }
    if account.sequence == 0 {
        return Some(RenewFault::Exhausted);
    }
    match *response {
        Response::Plain { .. } => Some(RenewFault::NotInit),
        Response::Init { current, seed, .. } => {
            if seed.as_slice() == account.seed.as_slice() {
                Some(RenewFault::SameSeed)
            } else if current == account.password {
                Some(RenewFault::Replayed)
            } else if step(account.algo, current) != account.password {
                Some(RenewFault::NoMatch)
            } else if is_loop(account, response) {
                Some(RenewFault::Loop)
            } else {
                None
            }
        }
    }
}

/// Whether the new password lets a spent one be the next again.
fn is_loop(account: &Account, response: &Response) -> bool
    ensures { result ≡ is_loop account.now response.now }
{
    match *response {
        Response::Plain { .. } => false,
        Response::Init {
            current,
            algo,
            password,
            ..
        } => {
            password == current || password == account.password || step(algo, current) == password
        }
    }
}

/// The new chain that a response begins for the account of a number.
fn new_chain_of(number: u32, response: &Response) -> Result<Renewed, RenewFault>
    requires { IsSequenced response.now }
    ensures chain { result ≡ new_chain_of number response.now }
    ensures account { IfOk result (λ new. new.account ≡ number) }
    ensures sequence { IfOk result (λ new. new.sequence ≤ 9999) }
{
    match *response {
        Response::Plain { .. } => Err(RenewFault::NotInit),
        Response::Init {
            algo,
            sequence,
            seed,
            password,
            ..
        } => Ok(Renewed {
            account: number,
            algo,
            seed,
            sequence,
            password,
        }),
    }
}
