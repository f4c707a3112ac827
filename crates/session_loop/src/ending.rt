//! The end of a session.

ghost use Rattle.std.specs.Prelude.{◌≡◌, true};
ghost use Rattle.child_keeper.specs.Links.{pre_child, user_child};
ghost use Rattle.outside.specs.Faults.{CountNothing, FinishCounts, NoneFell};
ghost use Rattle.outside.specs.Scene.{Did};
ghost use Rattle.policy_model.specs.Cases.{is_proper_why};
ghost use Rattle.session_turns.specs.Joins.{KeepsRights};
ghost use Rattle.session_loop.specs.Sessions.{CanEnd, ClosesWith, EndsOpen, IsOver};

use child_keeper::{PreLink, UserLink, finish_pre, finish_user};
use outside::Post;
use policy_model::{Ask, Why};
use session_turns::Turns;

/// Asks for the end of the worker's open session.
pub(crate) fn end_session<A: Turns>(turns: &mut A, why: Why)
    requires may { A.may turns.old }
    requires open { CanEnd (A.at turns.old).setup (A.at turns.old).rights (A.at turns.old).seen }
    requires proper { is_proper_why why ≡ true }
    ensures ended { let seat = A.at turns.old in EndsOpen seat.rights.worker why seat.seen (A.at turns.new).seen
        × IsOver seat.setup seat.rights.worker (A.at turns.new).seen }
    ensures rights { KeepsRights 1 (A.at turns.old).rights (A.at turns.new).rights }
    ensures turns { A.keeps turns.old turns.new × ((A.at turns.new).setup ≡ (A.at turns.old).setup) × A.may turns.new }
{
    let _end = turns.ask(Ask::End { why });
}

/// Gives the child before the login back, and closes the connection.
pub(crate) fn close_pre<P: Post>(post: &mut P, child: PreLink<P::Child>, conn: P::Conn)
    ensures acts { let child = pre_child child in
        ClosesWith (P.Child.role child) (P.Child.link child) (P.scene post.old) (P.scene post.new) }
    ensures counts { FinishCounts (P.Child.faults (pre_child child)) (P.faults post.old) (P.faults post.new) }
    ensures kept { NoneFell (P.faults post.old) (P.faults post.new) }
{
    finish_pre(post, child);
    post.hang_up(conn);
}

/// Gives the user's child back, and closes the connection.
pub(crate) fn close_user<P: Post>(post: &mut P, child: UserLink<P::Child>, conn: P::Conn)
    ensures acts { let child = user_child child in
        ClosesWith (P.Child.role child) (P.Child.link child) (P.scene post.old) (P.scene post.new) }
    ensures counts { FinishCounts (P.Child.faults (user_child child)) (P.faults post.old) (P.faults post.new) }
    ensures kept { NoneFell (P.faults post.old) (P.faults post.new) }
{
    finish_user(post, child);
    post.hang_up(conn);
}
