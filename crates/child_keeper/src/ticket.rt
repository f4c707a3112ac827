ghost use Rattle.std.specs.Prelude.{◌≡◌, true};
ghost use Rattle.policy_model.specs.Asks.{exports, value_of};

use outside::Role;
use policy_model::{Decision, Event, Setup};

/// The right to start the child of one user for one session. It is made from a permitted EXPORT,
/// and can neither be copied nor let go: whoever has one owes the start.
pub struct UserTicket {
    event: Event,
    ghost exported: { exports event ≡ true },
}

impl UserTicket {
    ghost use Rattle.child_keeper.specs.Tickets.{NamesAccount, event_of, user_role};

    /// The ticket of a permitted EXPORT whose number is that of an account of the setup.
    pub fn of(event: &Event, setup: &Setup) -> UserTicket
        requires exported { exports event.now ≡ true }
        requires known { NamesAccount setup.now event.now }
        ensures { event_of result ≡ event.now }
    {
        UserTicket { event: *event }
    }

    /// The role of the child that the ticket starts.
    pub(crate) fn spend(self, setup: &Setup) -> Role
        requires known { NamesAccount setup.now (event_of self) }
        ensures { result ≡ user_role setup.now (event_of self) }
    {
        let UserTicket { event } = self;
        let accounts = setup.parts().accounts.as_slice();
        let account = &accounts[value_of(&event.decision) as usize];
        Role::User {
            session: event.session,
            uid: account.uid,
            user: account.name,
        }
    }
}

/// The value of a permit.
fn value_of(decision: &Decision) -> u64
    ensures { result ≡ value_of decision.now }
{
    match *decision {
        Decision::Permit { value } => value,
        _ => 0,
    }
}
