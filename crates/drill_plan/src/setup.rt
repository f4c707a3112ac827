//! The setup of a drill.

ghost use Rattle.std.specs.Prelude.{◌≡◌, ◌<◌, ◌≤◌, IfOk};
ghost use Rattle.drill_plan.specs.DrillSetup.{AreDrillAccounts, IsDrillAccount, IsDrillSetup};

use crate::passwords::{own_algo, own_name, own_passwords, own_seed};
use crate::user::notes;
use policy_model::{
    Account, Accounts, Grant, Grants, Numbers, Setup, SetupParts, Text, plain_salt,
};
use request_catalogue::Width;
use std::alloc::{AllocError, Global};

/// How many workers a drill has.
pub const WORKERS: u32 = 4;

/// The setup of the drill of `n`, 1 to 64.
///
/// # Errors
///
/// There isn't the memory.
pub fn drill_setup(alloc: Global, n: u32) -> Result<Setup, AllocError>
    requires low { 1 ≤ n }
    requires high { n ≤ 64 }
    ensures { IfOk result (IsDrillSetup n) }
{
    match Setup::of(drill_parts(alloc, n)?) {
        Ok(setup) => Ok(setup),
        Err(_) => unreachable!(),
    }
}

/// The parts of the setup.
fn drill_parts(alloc: Global, n: u32) -> Result<SetupParts, AllocError>
    requires { n ≤ 64 }
    ensures { IfOk result (IsDrillSetup n) }
{
    Ok(SetupParts {
        socket: Text::of(String::from_str(alloc, "otplogd.sock")?),
        launcher: Text::of(String::from_str(alloc, "otplogd")?),
        vault: Text::of(String::from_str(alloc, "vault")?),
        words: Text::of(String::from_str(alloc, "words")?),
        banner: Text::of(String::new(alloc)),
        salt: plain_salt(),
        frames: Width::Narrow,
        workers: WORKERS,
        connections: 8 * n,
        requests: 16,
        tries: 3,
        hold: 30_000,
        info: Numbers::of(Vec::new(alloc)),
        accounts: accounts(alloc, n)?,
    })
}

/// The accounts of the workers' users.
fn accounts(alloc: Global, n: u32) -> Result<Accounts, AllocError>
    requires { n ≤ 64 }
    ensures { IfOk result (AreDrillAccounts n) }
{
    let mut accounts = Vec::new(alloc);
    for worker in 0..WORKERS {
        accounts.push(account(alloc, n, worker)?)?;
    }
    Ok(Accounts::of(accounts))
}

/// The account of a worker's user.
fn account(alloc: Global, n: u32, worker: u32) -> Result<Account, AllocError>
    requires number { n ≤ 64 }
    requires workers { worker < 4 }
    ensures { IfOk result (IsDrillAccount n worker) }
{
    let passwords = own_passwords(alloc, n, worker)?;
    let grant = Grant {
        name: notes(),
        mode: 3,
    };
    Ok(Account {
        name: own_name(worker),
        uid: 2_000 + worker,
        algo: own_algo(worker),
        seed: own_seed(worker),
        sequence: (8 * n) as u16,
        password: passwords[(8 * n) as usize],
        enabled: true,
        grants: Grants::of(vec![in alloc; grant]?),
    })
}
