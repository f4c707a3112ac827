//! The children of a session: started, changed and given back.

ghost use Rattle.std.specs.Prelude.{IfOk};
ghost use Rattle.outside.specs.declared.act.Act.{Act};
ghost use Rattle.outside.specs.declared.act.Role.{Role};
ghost use Rattle.outside.specs.Faults.{FinishCounts, NoneFell, StartCounts};
ghost use Rattle.outside.specs.Scene.{Did, GivenBack};
ghost use Rattle.child_keeper.specs.Links.{pre_child, user_child};
ghost use Rattle.child_keeper.specs.Starts.{ChangeCounts, ChangesChild, IsNewChild, start_outcome};
ghost use Rattle.child_keeper.specs.Tickets.{NamesAccount, event_of, user_role};

use crate::fault::KeeperFault;
use crate::link::{PreLink, UserLink};
use crate::ticket::UserTicket;
use outside::{Failed, Post, Role};
use policy_model::Setup;

/// Starts a session's child before the login. `KeeperFault`: the post could not start it.
pub fn start_pre<P: Post>(post: &mut P, session: u32) -> Result<PreLink<P::Child>, KeeperFault>
    ensures act { Did (Act.Start (Role.Pre session) (start_outcome result)) (P.scene post.old)
        (P.scene post.new) }
    ensures child { IfOk result (λ link. let child = pre_child link in
        IsNewChild (Role.Pre session) (P.Child.role child) (P.Child.link child)
        (P.Child.faults child) (P.scene post.new)) }
    ensures counts { StartCounts (start_outcome result) (P.faults post.old) (P.faults post.new) }
    ensures kept { NoneFell (P.faults post.old) (P.faults post.new) }
{
    match post.start(&Role::Pre { session }) {
        Ok(child) => Ok(PreLink { child }),
        Err(Failed) => Err(KeeperFault),
    }
}

/// Gives the child before the login back, and then starts the user's: with the session of the
/// ticket, and the user number and the name of the account that it is for. `KeeperFault`: the post
/// could not start it, and no child is live.
pub fn start_user<P: Post>(
    post: &mut P,
    pre: PreLink<P::Child>,
    ticket: UserTicket,
    setup: &Setup,
) -> Result<UserLink<P::Child>, KeeperFault>
    requires known { NamesAccount setup.now (event_of ticket) }
    ensures acts { let child = pre_child pre in
        ChangesChild (P.Child.role child) (P.Child.link child) (user_role setup.now (event_of ticket))
        (start_outcome result) (P.scene post.old) (P.scene post.new) }
    ensures child { IfOk result (λ link. let child = user_child link in
        IsNewChild (user_role setup.now (event_of ticket)) (P.Child.role child) (P.Child.link child)
        (P.Child.faults child) (P.scene post.new)) }
    ensures counts { ChangeCounts (start_outcome result) (P.Child.faults (pre_child pre))
        (P.faults post.old) (P.faults post.new) }
    ensures kept { NoneFell (P.faults post.old) (P.faults post.new) }
{
    let role = ticket.spend(setup);
    finish_pre(post, pre);
    match post.start(&role) {
        Ok(child) => Ok(UserLink { child }),
        Err(Failed) => Err(KeeperFault),
    }
}

/// Gives a session's child before the login back.
pub fn finish_pre<P: Post>(post: &mut P, link: PreLink<P::Child>)
    ensures act { let child = pre_child link in
        GivenBack (P.Child.role child) (P.Child.link child) (P.scene post.old) (P.scene post.new) }
    ensures counts { FinishCounts (P.Child.faults (pre_child link)) (P.faults post.old)
        (P.faults post.new) }
    ensures kept { NoneFell (P.faults post.old) (P.faults post.new) }
{
    let PreLink { child } = link;
    post.finish(child);
}

/// Gives a session's child of its user back.
pub fn finish_user<P: Post>(post: &mut P, link: UserLink<P::Child>)
    ensures act { let child = user_child link in
        GivenBack (P.Child.role child) (P.Child.link child) (P.scene post.old) (P.scene post.new) }
    ensures counts { FinishCounts (P.Child.faults (user_child link)) (P.faults post.old)
        (P.faults post.new) }
    ensures kept { NoneFell (P.faults post.old) (P.faults post.new) }
{
    let UserLink { child } = link;
    post.finish(child);
}
