//! One child of a session, served until its part ends.

ghost use Rattle.std.specs.Prelude.{◌≡◌, ◌<◌, ◌≤◌, length};
ghost use Rattle.imsg_frame.specs.Cut.{IsPartialFront};
ghost use Rattle.request_catalogue.specs.Widths.{frame_max};
ghost use Rattle.session_asking.specs.Serving.{MayServe, desk_of, live_of, stand};
ghost use Rattle.session_loop.specs.Child.{PartIsDone, Received, TurnIsDone, ends_part};

use crate::desk::Desk;
use child_keeper::LiveChild;
use imsg_frame::{Frame, Next, Reader};
use outside::{Failed, Post};
use policy_model::Why;
use session_asking::{Live, Texts, Turn, serve_message};
use session_turns::Turns;

/// The most bytes that are received at once.
const PIECE_LEN: usize = 4_096;

/// Receives the next piece of a child's bytes.
fn receive<L: LiveChild>(child: &mut L, reader: &mut Reader) -> Turn
    requires room { length reader.old.bytes < reader.old.max }
    requires front { IsPartialFront reader.old.width (frame_max reader.old.width) reader.old.bytes }
    ensures width { reader.new.width ≡ reader.old.width }
    ensures max { reader.new.max ≡ reader.old.max }
    ensures received { Received reader.old result reader.new.bytes (L.link child.old) (L.link child.new)
        (L.faults child.old) (L.faults child.new) }
    ensures child { (L.role child.new ≡ L.role child.old) × (L.faults child.old ≤ L.faults child.new) }
{
    let mut piece = [0; PIECE_LEN];
    let room = reader.room().min(PIECE_LEN);
    match child.recv(&mut piece[..room]) {
        Ok(0) if reader.held() == 0 => Turn::Ends {
            why: Why::ChildEnded,
        },
        Ok(0) => Turn::Ends {
            why: Why::Truncated,
        },
        Ok(len) => {
            reader.feed(&piece[..len]);
            Turn::GoesOn
        }
        Err(Failed) => Turn::Ends {
            why: Why::LinkFault,
        },
    }
}

/// Takes one turn of serving a session's child: serves its next message where a whole one is held, and
/// else receives more of its bytes.
fn serve_turn<A: Turns, P: Post, L: LiveChild, T: Texts>(
    turns: &mut A,
    post: &mut P,
    live: &mut Live<P, L>,
    desk: &mut Desk<'_, T>,
) -> Turn
    requires may { A.may turns.old }
    requires served { MayServe
        (stand (A.at turns.old) (desk_of (T.service desk.old.replies.texts.now) desk.old.replies.exported)
        (live_of live.old.session live.old.user (L.role live.old.child) (L.link live.old.child)
        (L.faults live.old.child)) (P.scene post.old) (P.faults post.old)) }
    ensures done { TurnIsDone result
        (stand (A.at turns.old) (desk_of (T.service desk.old.replies.texts.now) desk.old.replies.exported)
        (live_of live.old.session live.old.user (L.role live.old.child) (L.link live.old.child)
        (L.faults live.old.child)) (P.scene post.old) (P.faults post.old))
        (stand (A.at turns.new) (desk_of (T.service desk.new.replies.texts.now) desk.new.replies.exported)
        (live_of live.new.session live.new.user (L.role live.new.child) (L.link live.new.child)
        (L.faults live.new.child)) (P.scene post.new) (P.faults post.new))
        desk.old.reader.bytes desk.new.reader.bytes }
    ensures turns { A.keeps turns.old turns.new × A.may turns.new }
{
    match desk.reader.next() {
        Next::Frame(header) => {
            let bytes: &[u8] = desk.reader.contiguous();
            let message = Frame::in_front(header, bytes);
            serve_message(turns, post, live, &message, &mut desk.replies)
        }
        Next::NotYet => receive(&mut live.child, &mut desk.reader),
        Next::Bad { len } => Turn::Ends {
            why: Why::BadFrame { len },
        },
    }
}

/// Whether a child's part ends after a turn.
fn ends_part(turn: &Turn) -> bool
    ensures { result ≡ ends_part turn.now }
{
    !matches!(turn, Turn::GoesOn)
}

/// Serves the messages of a session's child until its part ends: the session is to be ended, or the user's
/// child is next.
pub fn serve_child<A: Turns, P: Post, L: LiveChild, T: Texts>(
    turns: &mut A,
    post: &mut P,
    live: &mut Live<P, L>,
    desk: &mut Desk<'_, T>,
) -> Turn
    requires may { A.may turns.old }
    requires served { MayServe
        (stand (A.at turns.old) (desk_of (T.service desk.old.replies.texts.now) desk.old.replies.exported)
        (live_of live.old.session live.old.user (L.role live.old.child) (L.link live.old.child)
        (L.faults live.old.child)) (P.scene post.old) (P.faults post.old)) }
    ensures done { PartIsDone result
        (stand (A.at turns.old) (desk_of (T.service desk.old.replies.texts.now) desk.old.replies.exported)
        (live_of live.old.session live.old.user (L.role live.old.child) (L.link live.old.child)
        (L.faults live.old.child)) (P.scene post.old) (P.faults post.old))
        (stand (A.at turns.new) (desk_of (T.service desk.new.replies.texts.now) desk.new.replies.exported)
        (live_of live.new.session live.new.user (L.role live.new.child) (L.link live.new.child)
        (L.faults live.new.child)) (P.scene post.new) (P.faults post.new))
        desk.old.reader.bytes }
    ensures turns { A.keeps turns.old turns.new × A.may turns.new }
{
    loop {
        let turn = serve_turn(turns, post, live, desk);
        if ends_part(&turn) {
            return turn;
        }
    }
}
