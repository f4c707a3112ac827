//! The accounts by name.

ghost use Rattle.std.specs.Prelude.{◌≡◌, ◌≤◌, IfErr, IfOk, length};
ghost use Rattle.otp_ledger.specs.Names.{AddsName, AreNamed, AreNumbersOf, IsNameGap, IsNamedHere, name_cmp};
ghost use Rattle.otp_ledger.specs.Names.{number_named};

use policy_model::Account;
use request_catalogue::Name;
use std::alloc::{AllocError, Global};
use std::cmp::Ordering;

/// An account's name and its number.
#[derive(Clone, Copy, PartialEq, Eq)]
pub(crate) struct Named {
    pub(crate) name: Name,
    pub(crate) account: u32,
}

/// Names by their bytes.
fn compare(a: &Name, b: &Name) -> Ordering
    ensures { result ≡ name_cmp a.now b.now }
{
    a.as_slice().cmp(&b.as_slice())
}

/// Where a name is, or where it would go.
fn search(names: &[Named], user: &Name) -> Result<usize, usize>
    requires { AreNamed names.now }
    ensures found { IfOk result (IsNamedHere names.now user.now) }
    ensures absent { IfErr result (IsNameGap names.now user.now) }
{
    names.binary_search_by(|named| compare(&named.name, user))
}

/// The number of the account of this name.
pub(crate) fn number_of(names: &[Named], user: &Name) -> Option<u32>
    requires { AreNamed names.now }
    ensures { result ≡ number_named names.now user.now }
{
    match search(names, user) {
        Ok(place) => Some(names[place].account),
        Err(_) => None,
    }
}

/// The name is in the array with its number, unless it was there before.
fn add(names: &mut Vec<Named>, named: Named) -> Result<(), AllocError>
    requires { AreNamed names.old.items }
    ensures rising { IfOk result (λ _. AreNamed names.new.items) }
    ensures numbers { IfOk result (λ _. AddsName names.old.items named names.new.items) }
{
    match search(names.as_slice(), &named.name) {
        Ok(_) => Ok(()),
        Err(place) => {
            names.insert(place, named)?;
            Ok(())
        }
    }
}

/// The names of accounts with their numbers, rising.
pub(crate) fn names_of(alloc: Global, accounts: &[Account]) -> Result<Vec<Named>, AllocError>
    requires { length accounts.now ≤ 1024 }
    ensures rising { IfOk result (λ names. AreNamed names.items) }
    ensures numbers { IfOk result (λ names. AreNumbersOf accounts.now names.items) }
{
    let mut names = Vec::with_capacity(alloc, accounts.len())?;
    for (i, account) in accounts.iter().enumerate() {
        let named = Named {
            name: account.name,
            account: i as u32,
        };
        add(&mut names, named)?;
    }
    Ok(names)
}
