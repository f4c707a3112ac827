//! Whether a user can log in, and may use files.

ghost use Rattle.std.specs.Prelude.{◌≡◌, true};
ghost use Rattle.std.specs.List.{find, list_all};
ghost use Rattle.std.specs.Option.{option_copied};
ghost use Rattle.std.specs.Str.{bytes_eq};
ghost use Rattle.request_catalogue.specs.TextBytes.{label_bytes};
ghost use Rattle.policy_model.specs.Settings.{same_name};
ghost use Rattle.welcome_laws.specs.Files.{has_grant, is_granted};
ghost use Rattle.welcome_rows.specs.Met.{CanBeReady, IsReady, wishes_of};

use crate::serving::Visit;
use otp_hash::step;
use otp_words::{Dictionary, candidates};
use policy_model::{Account, Grant, READ, Setup, WRITE, allows};
use request_catalogue::Name;

/// The grant of a file's name.
fn grant_of<'a>(grants: &'a [Grant], name: &[u8]) -> Option<&'a Grant>
    ensures { option_copied result ≡ find (λ g. bytes_eq (label_bytes g.name) name.now) grants.entry.now }
{
    grants.iter().find(|grant| grant.name.as_slice() == name)
}

/// Whether an account may open a file of this name in this mode.
fn has_grant(account: &Account, mode: u8, name: &[u8]) -> bool
    ensures { result ≡ has_grant account.now mode name.now }
{
    match grant_of(account.grants.as_slice(), name) {
        None => false,
        Some(grant) => allows(grant.mode, mode),
    }
}

/// Whether an account may write and read the file that a client wants, if it wants any.
fn may_use(account: &Account, wants_files: bool) -> bool
    ensures { result ≡ true → list_all (is_granted account.now) (wishes_of wants_files) ≡ true }
{
    !wants_files || (has_grant(account, WRITE, b"notes") && has_grant(account, READ, b"notes"))
}

/// Whether an account is enabled with a password left, a visit's response spells the next one in 16 digits,
/// and the account may use the files that its client wants.
fn is_ready(account: &Account, dictionary: &Dictionary, visit: &Visit) -> bool
    ensures { result ≡ true → IsReady account.now visit.now }
{
    let Some(password) = candidates(dictionary, visit.response.as_slice()).hex else {
        return false;
    };
    account.enabled
        && account.sequence != 0
        && password != account.password
        && step(account.algo, password) == account.password
        && may_use(account, visit.wants_files)
}

/// Whether an account is of this name.
fn is_named(account: &Account, user: &Name) -> bool
    ensures { result ≡ same_name account.now.name user.now }
{
    account.name.as_slice() == user.as_slice()
}

/// Whether the setup has an account of a visit's user that is enabled with a password left, the response
/// spells the next one in 16 digits, and the account may use the files that the client wants.
pub fn can_log_in(setup: &Setup, dictionary: &Dictionary, visit: &Visit) -> bool
    ensures { result ≡ true → CanBeReady setup.now visit.now }
{
    for account in setup.parts().accounts.as_slice() {
        if is_named(account, &visit.user) {
            return is_ready(account, dictionary, visit);
        }
    }
    false
}
