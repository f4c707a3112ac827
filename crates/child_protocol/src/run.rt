//! The run of a child program over its link.

ghost use Rattle.std.specs.Prelude.{◌≡◌, ◌<◌, ◌≤◌, ◌++◌, ℕ, List, [], IfOk, Some, Err, length};
ghost use Rattle.imsg_frame.specs.Cut.{IsPartialFront};
ghost use Rattle.imsg_frame.specs.Message.{Message};
ghost use Rattle.request_catalogue.specs.Replies.{AnswerValue};
ghost use Rattle.outside.specs.Told.{Rose};
ghost use Rattle.child_protocol.specs.Frames.{frame_width};
ghost use Rattle.child_protocol.specs.Cores.{IsShort, TakesMessage, WhereAsked};
ghost use Rattle.child_protocol.specs.Places.{IsAsked};
ghost use Rattle.child_protocol.specs.Stands.{IsNew, role_in, stands_for};
ghost use Rattle.child_protocol.specs.Runs.{Brings, HasRun, Hears, Receives};

use crate::child::Child;
use crate::turn::Turn;
use imsg_frame::{Frame, Next, Reader};
use outside::{Failed, Stream};

/// How many bytes are received at a time.
const PIECE_LEN: usize = 4_096;

/// The most requests that are sent and answered in a run.
const RUN_MAX: usize = 4_097;

/// Why a run ended.
#[derive(Clone, Copy, PartialEq, Eq)]
pub enum ChildEnd {
    /// The dialogue is over.
    Done,
    /// The link gave its end.
    LinkEnded,
    /// The link failed.
    LinkFault,
    /// What came is no frame, or no reply to the last request.
    Unreadable,
    /// So many requests were sent and answered as a run has.
    Spent,
}

/// Receives the next piece. The end, if it comes.
fn receive<E: Stream>(link: &mut E, reader: &mut Reader) -> Option<ChildEnd>
    requires room { length reader.old.bytes < reader.old.max }
    ensures width { reader.new.width ≡ reader.old.width }
    ensures max { reader.new.max ≡ reader.old.max }
    ensures within { length reader.new.bytes ≤ reader.new.max }
    ensures receives { Receives reader.old.bytes reader.new.bytes (E.link link.old) (E.link link.new) }
    ensures brings { Brings result reader.old.bytes reader.new.bytes (E.link link.new) }
    ensures same { result ≡ Some ChildEnd.LinkEnded → reader.new.bytes ≡ reader.old.bytes }
    ensures fault { result ≡ Some ChildEnd.LinkFault → Rose (E.faults link.old) (E.faults link.new) }
    ensures faults { E.faults link.old ≤ E.faults link.new }
    ensures role { E.role link.new ≡ E.role link.old }
{
    let mut piece = [0; PIECE_LEN];
    let room = reader.room().min(PIECE_LEN);
    match link.recv(&mut piece[..room]) {
        Ok(0) => Some(ChildEnd::LinkEnded),
        Ok(len) => {
            reader.feed(&piece[..len]);
            None
        }
        Err(Failed) => Some(ChildEnd::LinkFault),
    }
}

/// Waits for the next frame, and lets the child take it.
fn hear<E: Stream>(
    core: &mut Child,
    link: &mut E,
    reader: &mut Reader,
    out: &mut [u8],
) -> Result<Turn, ChildEnd>
    requires asked { IsAsked core.old.dialogue.place }
    requires run { IsShort (stands_for core.old) }
    requires width { reader.old.width ≡ frame_width }
    requires max { reader.old.max ≡ 16384 }
    requires within { length reader.old.bytes ≤ reader.old.max }
    requires room { 16384 ≤ length out.old }
    ensures role { role_in core.new ≡ role_in core.old }
    ensures session { core.new.session ≡ core.old.session }
    ensures asked { IfOk result (λ turn. WhereAsked turn (IsAsked core.new.dialogue.place)) }
    ensures width { reader.new.width ≡ frame_width }
    ensures max { reader.new.max ≡ 16384 }
    ensures within { length reader.new.bytes ≤ reader.new.max }
    ensures hears { (bytes : List ℕ) × Receives reader.old.bytes bytes (E.link link.old) (E.link link.new)
        × Hears result (λ message turn. (answers : List AnswerValue) → stands_for core.old answers
        → TakesMessage (role_in core.old) core.old.session answers message (stands_for core.new) turn out.old out.new)
        bytes reader.new.bytes (E.link link.new) }
    ensures fault { result ≡ Err ChildEnd.LinkFault → Rose (E.faults link.old) (E.faults link.new) }
    ensures faults { E.faults link.old ≤ E.faults link.new }
    ensures link_role { E.role link.new ≡ E.role link.old }
{
    loop {
        match reader.next() {
            Next::Frame(header) => {
                let bytes: &[u8] = reader.contiguous();
                return Ok(core.take(&Frame::in_front(header, bytes), out));
            }
            Next::NotYet => {
                if let Some(end) = receive(link, reader) {
                    return Err(end);
                }
            }
            Next::Bad { .. } => return Err(ChildEnd::Unreadable),
        }
    }
}

/// Runs a child over its link.
pub fn run_child<E: Stream>(
    core: &mut Child,
    link: &mut E,
    reader: &mut Reader,
    out: &mut [u8],
) -> ChildEnd
    requires new { IsNew core.old }
    requires empty { reader.old.bytes ≡ [] }
    requires width { reader.old.width ≡ frame_width }
    requires max { reader.old.max ≡ 16384 }
    requires room { 16384 ≤ length out.old }
    ensures run { HasRun (role_in core.old) core.old.session result (E.link link.old) (E.link link.new) }
    ensures fault { result ≡ ChildEnd.LinkFault → Rose (E.faults link.old) (E.faults link.new) }
    ensures faults { E.faults link.old ≤ E.faults link.new }
    ensures link_role { E.role link.new ≡ E.role link.old }
    ensures role { role_in core.new ≡ role_in core.old }
    ensures session { core.new.session ≡ core.old.session }
    ensures width { reader.new.width ≡ frame_width }
    ensures max { reader.new.max ≡ 16384 }
{
    let mut len = core.begin(out);
    for _turn in 0..RUN_MAX {
        let Ok(()) = link.send(&out[..len]) else {
            return ChildEnd::LinkFault;
        };
        match hear(core, link, reader, out) {
            Ok(Turn::Asked { len: next }) => len = next,
            Ok(Turn::Ended) => return ChildEnd::Done,
            Ok(Turn::Unreadable) => return ChildEnd::Unreadable,
            Err(end) => return end,
        }
    }
    ChildEnd::Spent
}
