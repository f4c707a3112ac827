//! The setup with an account's new chain.

ghost use Rattle.std.specs.Prelude.{◌≡◌, ◌≤◌, ◌<◌, IfOk, length, if◌then◌else◌};
ghost use Rattle.policy_model.specs.Settings.{IsInRange};
ghost use Rattle.otp_extended.specs.Renewals.{account_with, accounts_with, renewed_setup};

use crate::renewal::Renewed;
use policy_model::{Account, Accounts, Setup, SetupParts};
use std::alloc::{AllocError, Global};

/// A setup in which one account has a new chain, and all else is as it was.
///
/// # Errors
///
/// There isn't the memory.
pub fn renewed(alloc: Global, setup: &Setup, new: &Renewed) -> Result<Setup, AllocError>
    requires account { new.now.account < length setup.now.accounts }
    requires sequence { new.now.sequence ≤ 9999 }
    ensures setup { IfOk result (λ after. after ≡ renewed_setup setup.now new.now) }
    ensures in_range { IsInRange setup.now }
{
    let parts = setup.parts();
    let accounts = renewed_accounts(alloc, parts.accounts.as_slice(), new)?;
    match Setup::of(parts_with(alloc, parts, accounts)?) {
        Ok(after) => Ok(after),
        Err(_) => unreachable!(),
    }
}

/// A copy of accounts of which one has a new chain.
fn renewed_accounts(
    alloc: Global,
    accounts: &[Account],
    new: &Renewed,
) -> Result<Accounts, AllocError>
    ensures { IfOk result (λ copy. copy ≡ accounts_with accounts.now new.now.account new.now) }
{
    let mut items = Vec::with_capacity(alloc, accounts.len())?;
    for (i, account) in accounts.iter().enumerate() {
        items.push(copy_with(alloc, account, i == new.account as usize, new)?)?;
    }
    Ok(Accounts::of(items))
}

/// A copy of an account, with a new chain where it is the one that is renewed.
fn copy_with(
    alloc: Global,
    account: &Account,
    is_renewed: bool,
    new: &Renewed,
) -> Result<Account, AllocError>
    ensures { IfOk result (λ copy. copy ≡ (if is_renewed then account_with account.now new.now else account.now)) }
{
    let copy = account.copy(alloc)?;
    if !is_renewed {
        return Ok(copy);
    }
    Ok(Account {
        name: copy.name,
        uid: copy.uid,
        algo: new.algo,
        seed: new.seed,
        sequence: new.sequence,
        password: new.password,
        enabled: copy.enabled,
        grants: copy.grants,
    })
}

/// A copy of the parts of a setup, with other accounts.
pub fn parts_with(
    alloc: Global,
    parts: &SetupParts,
    accounts: Accounts,
) -> Result<SetupParts, AllocError>
    ensures { IfOk result (λ copy. copy ≡ record parts.now { accounts = accounts }) }
{
    Ok(SetupParts {
        socket: parts.socket.copy(alloc)?,
        launcher: parts.launcher.copy(alloc)?,
        vault: parts.vault.copy(alloc)?,
        words: parts.words.copy(alloc)?,
        banner: parts.banner.copy(alloc)?,
        salt: parts.salt,
        frames: parts.frames,
        workers: parts.workers,
        connections: parts.connections,
        requests: parts.requests,
        tries: parts.tries,
        hold: parts.hold,
        info: parts.info.copy(alloc)?,
        accounts,
    })
}
