//! Numbers of information that can be said.

ghost use Rattle.std.specs.Prelude.{◌≡◌};
ghost use Rattle.account_file.specs.Entries.{entries_of};
ghost use Rattle.account_file.specs.Faults.{Reads};
ghost use Rattle.service_reading.specs.Found.{are_said, informed};

use crate::information::Information;
use account_file::{SetupFault, SetupKey, SetupRule};
use policy_model::Setup;

/// Whether there is information of each number.
fn are_said<I: Information>(numbers: &[u32], information: &I) -> bool
    ensures { result ≡ are_said (I.forms information.now) numbers.now }
{
    match numbers {
        [] => true,
        [number, rest @ ..] => information.has(*number) && are_said(rest, information),
    }
}

/// A setup all of whose numbers of information can be said; another is refused.
pub(crate) fn informed<I: Information>(setup: Setup, information: &I) -> Result<Setup, SetupFault>
    ensures { Reads entries_of result (informed (I.forms information.now) (entries_of setup)) }
{
    if are_said(setup.parts().info.as_slice(), information) {
        return Ok(setup);
    }
    Err(SetupFault {
        key: SetupKey::Info,
        rule: SetupRule::NoHook,
        account: 0,
    })
}
