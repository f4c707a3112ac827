//! Serving one message.

ghost use Rattle.imsg_frame.specs.Message.{message_of};
ghost use Rattle.session_asking.specs.Serving.{Answered, MayAnswer, desk_of, live_of, stand};

use crate::asking::{Turn, ask_of, is_export, state_of, turn_of, written};
use crate::doing::perform;
use crate::live::{Live, noted};
use crate::replies::Replies;
use crate::telling::{Source, answer_of, tell};
use crate::texts::Texts;
use crate::work::work_of;
use child_keeper::LiveChild;
use imsg_frame::Frame;
use outside::{Failed, Post};
use policy_model::Why;
use request_catalogue::read_request;
use session_turns::Turns;

/// Serves one message of a session's child: asks the policy, does the operation, answers. Nothing is done
/// or answered for a lost decision, nor for a permitted EXPORT, which hands the session to its user's
/// child and whose state is kept.
pub fn serve_message<A: Turns, P: Post, L: LiveChild, T: Texts>(
    turns: &mut A,
    post: &mut P,
    live: &mut Live<P, L>,
    message: &Frame<'_>,
    replies: &mut Replies<'_, T>,
) -> Turn
    requires may { A.may turns.old }
    requires right { MayAnswer (message_of message.now)
        (stand (A.at turns.old) (desk_of (T.service replies.old.texts.now) replies.old.exported)
        (live_of live.old.session live.old.user (L.role live.old.child) (L.link live.old.child)
        (L.faults live.old.child))
        (P.scene post.old) (P.faults post.old)) }
    ensures answered { Answered (message_of message.now) result
        (stand (A.at turns.old) (desk_of (T.service replies.old.texts.now) replies.old.exported)
        (live_of live.old.session live.old.user (L.role live.old.child) (L.link live.old.child)
        (L.faults live.old.child))
        (P.scene post.old) (P.faults post.old))
        (stand (A.at turns.new) (desk_of (T.service replies.new.texts.now) replies.new.exported)
        (live_of live.new.session live.new.user (L.role live.new.child) (L.link live.new.child)
        (L.faults live.new.child))
        (P.scene post.new) (P.faults post.new)) }
    ensures turns { A.keeps turns.old turns.new × A.may turns.new }
{
    let header = message.header;
    let width = replies.texts.setup().parts().frames;
    let request = read_request(width, header.kind, header.flags, message.body);
    let ask = ask_of(replies.texts, post, &request);
    let event = turns.ask(ask);
    if event.decision.is_lost() {
        return Turn::Ends { why: Why::LogLost };
    }
    if is_export(&event) {
        replies.exported.keep(state_of(&request));
        return Turn::HandsOver { event };
    }
    let work = work_of(replies.texts, &live.user, &event, written(&request));
    let piece = replies.piece.as_mut_slice();
    let outcome = perform(post, &mut live.conn, &work, piece);
    let source = Source {
        texts: replies.texts,
        user: &live.user,
        state: replies.exported.as_slice(),
        names: &replies.names,
    };
    let outcome = tell(&source, &event, outcome, piece);
    let answer = answer_of(&event.decision, &outcome, piece);
    let len = replies.frames.reply(&header, live.session, &answer);
    live.user = noted(live.user, &event);
    match live.child.send(replies.frames.made(len)) {
        Ok(()) => turn_of(&event),
        Err(Failed) => Turn::Ends {
            why: Why::LinkFault,
        },
    }
}
