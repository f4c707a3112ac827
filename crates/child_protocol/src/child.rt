//! A child of a session.

ghost use Rattle.std.specs.Prelude.{◌≡◌, ◌≤◌, List, [], length};

use crate::dialogue::{Dialogue, Whose};
use crate::reply::answer_in;
use crate::turn::Turn;
use imsg_frame::Frame;
use request_catalogue::Name;

/// A child of a session: that before the login, or the user's.
#[derive(Drop)]
pub struct Child {
    session: u32,
    whose: Whose,
    dialogue: Dialogue,
}

impl Child {
    ghost use Rattle.request_catalogue.specs.TextBytes.{name_bytes};
    ghost use Rattle.child_protocol.specs.Says.{Pre, User};
    ghost use Rattle.imsg_frame.specs.Message.{message_of};
    ghost use Rattle.request_catalogue.specs.Replies.{AnswerValue};
    ghost use Rattle.child_protocol.specs.Cores.{HasBegun, IsShort, TakesMessage, WhereAsked};
    ghost use Rattle.child_protocol.specs.Places.{IsAsked};
    ghost use Rattle.child_protocol.specs.Stands.{IsNew, role_in, stands_for};

    /// The child before the login, which asked nothing yet.
    pub fn pre(session: u32) -> Self
        ensures session { result.session ≡ session }
        ensures role { role_in result ≡ Pre }
        ensures new { IsNew result }
    {
        Child {
            session,
            whose: Whose::Pre,
            dialogue: Dialogue::new(),
        }
    }

    /// The child for the user of this name and number, which asked nothing yet.
    pub fn user(session: u32, uid: u32, name: Name) -> Self
        ensures session { result.session ≡ session }
        ensures role { role_in result ≡ User (record { uid = uid; name = name_bytes name }) }
        ensures new { IsNew result }
    {
        Child {
            session,
            whose: Whose::User { uid, name },
            dialogue: Dialogue::new(),
        }
    }

    /// Puts the frame of the first request.
    pub fn begin(&mut self, out: &mut [u8]) -> usize
        requires new { IsNew self.old }
        requires room { 16384 ≤ length out.old }
        ensures role { role_in self.new ≡ role_in self.old }
        ensures session { self.new.session ≡ self.old.session }
        ensures stands { stands_for self.new [] }
        ensures asked { IsAsked self.new.dialogue.place }
        ensures begun { HasBegun (role_in self.old) result out.old out.new }
    {
        self.dialogue.begin(&self.whose, out)
    }

    /// Takes a message.
    pub fn take(&mut self, frame: &Frame<'_>, out: &mut [u8]) -> Turn
        requires asked { IsAsked self.old.dialogue.place }
        requires run { IsShort (stands_for self.old) }
        requires room { 16384 ≤ length out.old }
        ensures role { role_in self.new ≡ role_in self.old }
        ensures session { self.new.session ≡ self.old.session }
        ensures asked { WhereAsked result (IsAsked self.new.dialogue.place) }
        ensures takes { (answers : List AnswerValue) → stands_for self.old answers
            → TakesMessage (role_in self.old) self.old.session answers (message_of frame.now) (stands_for self.new)
            result out.old out.new }
    {
        let place = self.dialogue.place;
        match answer_in(self.session, place.kind(), place.form(), frame) {
            Some(answer) => self.dialogue.take_answer(&self.whose, &answer, out),
            None => Turn::Unreadable,
        }
    }
}
