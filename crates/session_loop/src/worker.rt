//! One worker: its connections, one after the other.

ghost use Rattle.std.specs.Prelude.{◌≡◌};
ghost use Rattle.session_loop.specs.Stories.{HasStory, MayServeAll, WorkerHasEnded, is_accept_fault};

use crate::desk::Desk;
use crate::session::run_session;
use outside::{Failed, Post};
use policy_model::Why;
use session_asking::Texts;
use session_turns::Turns;

/// How a worker ended.
#[derive(Clone, Copy, PartialEq, Eq)]
pub enum WorkerEnd {
    /// As many sessions were run as the setup has connections for.
    AllServed,
    /// No connection will come any more.
    NoMore,
    /// Waiting for a connection failed.
    AcceptFault,
    /// The log could not be written.
    LogLost,
}

impl WorkerEnd {
    /// Whether waiting for a connection failed.
    pub fn is_accept_fault(&self) -> bool
        ensures { result ≡ is_accept_fault self.now }
    {
        matches!(self, WorkerEnd::AcceptFault)
    }
}

/// Serves the connections of a worker, at most as many as the setup says.
pub fn serve_worker<A: Turns, P: Post, T: Texts>(
    turns: &mut A,
    post: &mut P,
    desk: &mut Desk<'_, T>,
) -> WorkerEnd
    requires may { A.may turns.old }
    requires may_serve { let seat = A.at turns.old in
        (seat.setup ≡ (T.service desk.old.replies.texts.now).setup) × MayServeAll seat.setup seat.rights seat.seen }
    ensures story { HasStory (T.service desk.old.replies.texts.now) (A.at turns.old).rights.worker result
        (A.at turns.old).seen (A.at turns.new).seen (P.scene post.old) (P.scene post.new) (P.faults post.old)
        (P.faults post.new) }
    ensures ended { WorkerHasEnded result (A.at turns.old) (A.at turns.new) (P.faults post.new) }
    ensures turns { A.keeps turns.old turns.new × ((A.at turns.new).setup ≡ (A.at turns.old).setup) × A.may turns.new }
    ensures desk { T.service desk.new.replies.texts.now ≡ T.service desk.old.replies.texts.now }
{
    for _ in 0..desk.replies.texts.setup().connections() {
        let conn = match post.accept() {
            Ok(Some(conn)) => conn,
            Ok(None) => return WorkerEnd::NoMore,
            Err(Failed) => return WorkerEnd::AcceptFault,
        };
        let why = run_session(turns, post, conn, desk);
        if why == Why::LogLost {
            return WorkerEnd::LogLost;
        }
    }
    WorkerEnd::AllServed
}
