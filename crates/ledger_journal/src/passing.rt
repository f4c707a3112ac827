//! The replies that the setup has already.

ghost use Rattle.std.specs.Prelude.{◌≡◌, ◌∷◌, IfOk, List, length};
ghost use Rattle.std.specs.List.{AllByRecursion};
ghost use Rattle.ledger_journal.specs.Logins.{is_passed, left_of};
ghost use Rattle.ledger_journal.specs.Reads.{AreSeen, IsWithin};

use crate::login::Login;
use policy_model::Setup;
use std::alloc::{AllocError, Global};

/// Whether the setup has a reply already. `seen` says of each account whether a later reply is its
/// stored password, and then of this one too.
fn is_passed(setup: &Setup, seen: &mut Vec<bool>, login: &Login) -> bool
    requires within { IsWithin setup.now login.now }
    requires same { length seen.old.items ≡ length setup.now.accounts }
    ensures passed { (later : List Login) → AreSeen setup.now later seen.old.items
        → result ≡ is_passed setup.now login.now later }
    ensures seen { (later : List Login) → AreSeen setup.now later seen.old.items → AreSeen setup.now (login.now ∷ later)
        seen.new.items }
    ensures same { length seen.new.items ≡ length setup.now.accounts }
{
    let Some(account) = login.account else {
        return false;
    };
    let number = account as usize;
    let stored = setup.parts().accounts.as_slice()[number].password;
    seen[number] |= stored == login.password;
    seen[number]
}

/// The replies that the setup doesn't have.
pub(crate) fn left_over(
    alloc: Global,
    setup: &Setup,
    logins: &[Login],
) -> Result<Vec<Login>, AllocError>
    requires { AllByRecursion (IsWithin setup.now) logins.now }
    ensures { IfOk result (λ left. left.items ≡ left_of setup.now logins.now) }
{
    let mut seen = vec![in alloc; false; setup.parts().accounts.as_slice().len()]?;
    let mut left = Vec::new(alloc);
    let mut i = logins.len();
    while i > 0 {
        i -= 1;
        let login = logins[i];
        if !is_passed(setup, &mut seen, &login) {
            left.push(login)?;
        }
    }
    left.reverse();
    Ok(left)
}
