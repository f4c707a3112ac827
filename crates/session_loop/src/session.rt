//! One session, from its opening to its end.

ghost use Rattle.std.specs.Prelude.{◌≡◌, ◌<◌, [], None};
ghost use Rattle.child_keeper.specs.Links.{pre_child, user_child};
ghost use Rattle.child_keeper.specs.Tickets.{user_role};
ghost use Rattle.policy_model.specs.Asks.{value_of};
ghost use Rattle.session_asking.specs.Made.{exported_bytes};
ghost use Rattle.session_asking.specs.Serving.{MayServe, desk_of, live_of, stand, whose};
ghost use Rattle.service_model.specs.Service.{Service};
ghost use Rattle.session_turns.specs.Joins.{KeepsRights};
ghost use Rattle.session_loop.specs.Sessions.{HasChildren, HasPart, HasRest, HasSecond, HasSitting, MayBegin};
ghost use Rattle.session_loop.specs.Sessions.{MayHandOver};
ghost use Rattle.session_loop.specs.Sessions.{MayOpen, MayServePre, MayServeUser, Opens, SessionIsOver, WorkerIsFree};

use crate::child::serve_child;
use crate::desk::Desk;
use crate::ending::{close_pre, close_user, end_session};
use child_keeper::{KeeperFault, PreLink, UserLink, UserTicket, start_pre, start_user};
use outside::{Post, Role};
use policy_model::{Ask, Decision, Event, Why};
use session_asking::{Live, LoggedIn, OpenFiles, Texts, Turn};
use session_turns::Turns;

/// A session that was opened, with its connection.
struct Opened<P: Post> {
    session: u32,
    conn: P::Conn,
}

/// A session whose child before the login exported, by a permitted EXPORT.
struct Handed<P: Post> {
    live: Live<P, PreLink<P::Child>>,
    event: Event,
}

/// Serves a session's user to the end of the session, and answers why it ended.
fn serve_user<A: Turns, P: Post, T: Texts>(
    turns: &mut A,
    post: &mut P,
    mut live: Live<P, UserLink<P::Child>>,
    desk: &mut Desk<'_, T>,
) -> Why
    requires may { A.may turns.old }
    requires served { let child = user_child live.child in MayServeUser
        (stand (A.at turns.old) (desk_of (T.service desk.old.replies.texts.now) desk.old.replies.exported)
        (live_of live.session live.user (P.Child.role child) (P.Child.link child) (P.Child.faults child))
        (P.scene post.old) (P.faults post.old)) }
    ensures part { HasPart (whose (T.service desk.old.replies.texts.now) (exported_bytes desk.old.replies.exported)
        live.session
        (A.at turns.old).rights.worker)
        (P.Child.role (user_child live.child)) result (A.at turns.old).seen (A.at turns.new).seen (P.scene post.old)
        (P.scene post.new) }
    ensures over { SessionIsOver (T.service desk.old.replies.texts.now).setup live.session result (A.at turns.old)
        (A.at turns.new)
        (P.faults post.old) (P.faults post.new) }
    ensures turns { A.keeps turns.old turns.new × ((A.at turns.new).setup ≡ (A.at turns.old).setup) × A.may turns.new }
    ensures desk { T.service desk.new.replies.texts.now ≡ T.service desk.old.replies.texts.now }
{
    desk.reader.clear();
    match serve_child(turns, post, &mut live, desk) {
        Turn::Ends { why } => {
            let Live {
                session: _,
                conn,
                child,
                user: _,
            } = live;
            end_session(turns, why);
            close_user(post, child, conn);
            why
        }
        Turn::GoesOn | Turn::HandsOver { .. } => unreachable!(),
    }
}

/// The number of the account that a permitted EXPORT names.
fn account_of(event: &Event) -> u32
    requires few { value_of event.now.decision < 4294967296 }
    ensures { result ≡ value_of event.now.decision }
{
    match event.decision {
        Decision::Permit { value } => value as u32,
        _ => 0,
    }
}

/// Hands a session to the user that a permitted EXPORT names: changes the child before the login for the
/// user's, and serves that to the end of the session. Why the session ended.
fn hand_over<A: Turns, P: Post, T: Texts>(
    turns: &mut A,
    post: &mut P,
    handed: Handed<P>,
    desk: &mut Desk<'_, T>,
) -> Why
    requires may { A.may turns.old }
    requires served { MayHandOver (T.service desk.old.replies.texts.now).setup (A.at turns.old) handed.live.session
        handed.event }
    ensures second { let child = pre_child handed.live.child in
        HasSecond (whose (T.service desk.old.replies.texts.now) (exported_bytes desk.old.replies.exported)
        handed.live.session
        (A.at turns.old).rights.worker)
        (P.Child.role child) (P.Child.link child) (user_role (T.service desk.old.replies.texts.now).setup handed.event)
        result (A.at turns.old).seen (A.at turns.new).seen (P.scene post.old) (P.scene post.new) }
    ensures over { SessionIsOver (T.service desk.old.replies.texts.now).setup handed.live.session result
        (A.at turns.old) (A.at turns.new)
        (P.faults post.old) (P.faults post.new) }
    ensures turns { A.keeps turns.old turns.new × ((A.at turns.new).setup ≡ (A.at turns.old).setup) × A.may turns.new }
    ensures desk { T.service desk.new.replies.texts.now ≡ T.service desk.old.replies.texts.now }
{
    let Handed { live, event } = handed;
    let Live {
        session,
        conn,
        child,
        user: _,
    } = live;
    let setup = desk.replies.texts.setup();
    let user = LoggedIn {
        account: account_of(&event),
        files: OpenFiles::none(),
    };
    let ticket = UserTicket::of(&event, setup);
    match start_user(post, child, ticket, setup) {
        Ok(child) => {
            let user = Some(user);
            let live = Live {
                session,
                conn,
                child,
                user,
            };
            serve_user(turns, post, live, desk)
        }
        Err(KeeperFault) => {
            let why = Why::KeeperFault;
            end_session(turns, why);
            post.hang_up(conn);
            why
        }
    }
}

/// Serves a session whose child before the login was just started, to its end. Why it ended.
fn serve_pre<A: Turns, P: Post, T: Texts>(
    turns: &mut A,
    post: &mut P,
    mut live: Live<P, PreLink<P::Child>>,
    desk: &mut Desk<'_, T>,
) -> Why
    requires may { A.may turns.old }
    requires served { let child = pre_child live.child in MayServePre
        (stand (A.at turns.old) (desk_of (T.service desk.old.replies.texts.now) desk.old.replies.exported)
        (live_of live.session live.user (P.Child.role child) (P.Child.link child) (P.Child.faults child))
        (P.scene post.old) (P.faults post.old)) }
    ensures children { HasChildren (T.service desk.old.replies.texts.now) live.session (A.at turns.old).rights.worker
        result
        (A.at turns.old).seen (A.at turns.new).seen (P.scene post.old) (P.scene post.new) }
    ensures over { SessionIsOver (T.service desk.old.replies.texts.now).setup live.session result (A.at turns.old)
        (A.at turns.new)
        (P.faults post.old) (P.faults post.new) }
    ensures turns { A.keeps turns.old turns.new × ((A.at turns.new).setup ≡ (A.at turns.old).setup) × A.may turns.new }
    ensures desk { T.service desk.new.replies.texts.now ≡ T.service desk.old.replies.texts.now }
{
    desk.reader.clear();
    match serve_child(turns, post, &mut live, desk) {
        Turn::Ends { why } => {
            let Live {
                session: _,
                conn,
                child,
                user: _,
            } = live;
            end_session(turns, why);
            close_pre(post, child, conn);
            why
        }
        Turn::HandsOver { event } => { hand_over(turns, post, Handed { live, event }, desk) }
        Turn::GoesOn => unreachable!(),
    }
}

/// Asks for the opening of a session, which may be lost.
fn open_session<A: Turns>(turns: &mut A) -> Event
    requires may { A.may turns.old }
    requires may_open { MayOpen (A.at turns.old).setup (A.at turns.old).rights (A.at turns.old).seen }
    ensures opens { (service : Service) → service.setup ≡ (A.at turns.old).setup → Opens service (A.at turns.old).rights
        (A.at turns.old).seen (A.at turns.new).rights (A.at turns.new).seen result }
    ensures rights { KeepsRights 1 (A.at turns.old).rights (A.at turns.new).rights }
    ensures turns { A.keeps turns.old turns.new × ((A.at turns.new).setup ≡ (A.at turns.old).setup) × A.may turns.new }
{
    turns.ask(Ask::Begin)
}

/// Serves a session that was opened: starts its first child, and serves it to its end. Why it ended.
fn serve_opened<A: Turns, P: Post, T: Texts>(
    turns: &mut A,
    post: &mut P,
    opened: Opened<P>,
    desk: &mut Desk<'_, T>,
) -> Why
    requires may { A.may turns.old }
    requires served { MayBegin (T.service desk.old.replies.texts.now).setup (A.at turns.old) opened.session }
    ensures rest { HasRest (T.service desk.old.replies.texts.now) opened.session (A.at turns.old).rights.worker result
        (A.at turns.old).seen (A.at turns.new).seen (P.scene post.old) (P.scene post.new) }
    ensures over { SessionIsOver (T.service desk.old.replies.texts.now).setup opened.session result (A.at turns.old)
        (A.at turns.new)
        (P.faults post.old) (P.faults post.new) }
    ensures turns { A.keeps turns.old turns.new × ((A.at turns.new).setup ≡ (A.at turns.old).setup) × A.may turns.new }
    ensures desk { T.service desk.new.replies.texts.now ≡ T.service desk.old.replies.texts.now }
{
    let Opened { session, conn } = opened;
    let replies = &mut desk.replies;
    replies.exported.clear();
    match start_pre(post, session) {
        Ok(child) => {
            let user = None;
            let live = Live {
                session,
                conn,
                child,
                user,
            };
            serve_pre(turns, post, live, desk)
        }
        Err(KeeperFault) => {
            let why = Why::KeeperFault;
            end_session(turns, why);
            post.hang_up(conn);
            why
        }
    }
}

/// Runs one session over a connection that came, and answers why it ended; `LogLost` also where its
/// opening is lost.
pub fn run_session<A: Turns, P: Post, T: Texts>(
    turns: &mut A,
    post: &mut P,
    conn: P::Conn,
    desk: &mut Desk<'_, T>,
) -> Why
    requires may { A.may turns.old }
    requires may_open { let seat = A.at turns.old in
        (seat.setup ≡ (T.service desk.old.replies.texts.now).setup) × MayOpen seat.setup seat.rights seat.seen }
    ensures sitting { HasSitting (T.service desk.old.replies.texts.now) (A.at turns.old).rights.worker result
        (A.at turns.old).seen (A.at turns.new).seen (P.scene post.old) (P.scene post.new) }
    ensures free { WorkerIsFree (T.service desk.old.replies.texts.now).setup result (A.at turns.old) (A.at turns.new)
        (P.faults post.old) (P.faults post.new) }
    ensures turns { A.keeps turns.old turns.new × ((A.at turns.new).setup ≡ (A.at turns.old).setup) × A.may turns.new }
    ensures desk { T.service desk.new.replies.texts.now ≡ T.service desk.old.replies.texts.now }
{
    let opening = open_session(turns);
    if opening.decision.is_lost() {
        post.hang_up(conn);
        return Why::LogLost;
    }
    let session = opening.session;
    serve_opened(turns, post, Opened { session, conn }, desk)
}
