//! A child's dialogue: one table for both children.

ghost use Rattle.std.specs.Prelude.{◌≡◌, ◌≤◌, ◌<◌, ◌+◌, ◌^◌, ◌++◌, [], Some, codes, length};
ghost use Rattle.request_catalogue.specs.TextBytes.{name_bytes};
ghost use Rattle.state_export.specs.Spelling.{IsState, import_value, value_of};
ghost use Rattle.child_protocol.specs.Steps.{is_for};

use crate::command::{Command, command_of, first_of, say};
use crate::form::handle_in;
use crate::frame::{ask, put_frame};
use crate::line::{Front, front_of};
use crate::place::Place;
use crate::text::{FileText, Text, denied_text, drop_front, put, set, set_size};
use crate::turn::Turn;
use crate::user_command::{UserLine, user_command_of, user_first_of};
use arrayvec::ArrayVec;
use fixed_list::FixedList;
use request_catalogue::{Answer, Name, Request};
use state_export::{Import as Imported, STATE_MAX, State, read_import, write_state};

/// The last rule of those that end the session.
const VIOLATION_MAX: u8 = 7;

/// Where a file's bytes are put.
const CONTENT_AT: u64 = 0;

/// More bytes of the client.
const READ_MORE: Request<'static> = Request::ReadAt {
    handle: 0,
    offset: 0,
    max: 512,
};

/// The client's bytes held: at most those that were left, or a part of a line and those of one
/// READ.
type Held = ArrayVec<u8, 4096>;

/// Whose dialogue it is: that of a client before the login, or that of a user.
#[derive(Clone, Copy)]
pub(crate) enum Whose {
    Pre,
    User { uid: u32, name: Name },
}

/// A child's part of the dialogue.
#[derive(Drop)]
pub(crate) struct Dialogue {
    pub(crate) place: Place,
    held: Held,
    terminal: FixedList<64>,
    challenged: bool,
    lines: u32,
    read: u32,
    text: FileText,
    handle: u32,
}

impl Dialogue {
    ghost use Rattle.request_catalogue.specs.Catalogue.{CloseFile};
    ghost use Rattle.request_catalogue.specs.Replies.{answer_of, Done, IsAnswer};
    ghost use Rattle.request_catalogue.specs.TextBytes.{name_bytes};
    ghost use Rattle.state_export.specs.Spelling.{IsState, value_of};
    ghost use Rattle.state_export.specs.Reading.{import_of};
    ghost use Rattle.child_protocol.specs.Lines.{front_of};
    ghost use Rattle.child_protocol.specs.Pre.{say, read_more, denied_text};
    ghost use Rattle.child_protocol.specs.Frames.{IsPut, IsTurn};
    ghost use Rattle.child_protocol.specs.Replies.{FitsForm, form_of};
    ghost use Rattle.child_protocol.specs.Places.{Kept, IsAsked, request_at};
    ghost use Rattle.child_protocol.specs.Stands.{kept_of, role_value, fresh, first_place, first_request};
    ghost use Rattle.child_protocol.specs.Steps.{Takes, IsUsable, move, done_move, denied_move, failed_move};
    ghost use Rattle.child_protocol.specs.Steps.{asking, ended, finishing, saying, next_line, pre_move, user_move};
    ghost use Rattle.child_protocol.specs.Steps.{reading, importing, welcoming, exporting, getting, putting};
    ghost use Rattle.child_protocol.specs.Steps.{kept_state};

    /// A child that asked nothing yet.
    pub fn new() -> Self
        ensures { kept_of result ≡ fresh }
    {
        Dialogue {
            place: Place::New,
            held: ArrayVec::new(),
            terminal: FixedList::of(b""),
            challenged: false,
            lines: 0,
            read: 0,
            text: ArrayVec::new(),
            handle: 0,
        }
    }

    /// Puts the frame of the first request.
    pub fn begin(&mut self, whose: &Whose, out: &mut [u8]) -> usize
        requires room { 16384 ≤ length out.old }
        ensures asks { IsPut (first_request (role_value whose.now)) result out.old out.new }
        ensures kept { kept_of self.new ≡ record (kept_of self.old) { place = first_place (role_value whose.now) } }
    {
        match whose {
            Whose::Pre => {
                self.place = Place::Greeting;
                put_frame(&Request::Banner, out)
            }
            Whose::User { .. } => {
                self.place = Place::Importing;
                put_frame(&Request::Import, out)
            }
        }
    }

    /// Takes the answer to the last request.
    pub fn take_answer(&mut self, whose: &Whose, answer: &Answer<'_>, out: &mut [u8]) -> Turn
        requires asked { IsAsked self.old.place }
        requires ready { IsUsable self.old.place (kept_of self.old) }
        requires fits { FitsForm (form_of (request_at self.old.place (kept_of self.old) [] 0)) (answer_of answer.now) }
        requires in_range { IsAnswer (answer_of answer.now) }
        requires room { 16384 ≤ length out.old }
        ensures { Takes (move (role_value whose.now) (answer_of answer.now) (kept_of self.old)) (kept_of self.new)
            result out.old out.new }
    {
        match answer {
            Answer::Done { body } => self.done(whose, body, out),
            Answer::Denied { rule, .. } if *rule <= VIOLATION_MAX => self.end(),
            Answer::Denied { rule, .. } => self.denied(*rule, out),
            Answer::Device { .. } => self.failed(out),
        }
    }

    /// Goes on after a request that was done.
    fn done(&mut self, whose: &Whose, body: &[u8], out: &mut [u8]) -> Turn
        requires asked { IsAsked self.old.place }
        requires ready { IsUsable self.old.place (kept_of self.old) }
        requires fits { FitsForm (form_of (request_at self.old.place (kept_of self.old) [] 0)) (Done body.now) }
        requires room { 16384 ≤ length out.old }
        ensures { Takes (done_move (role_value whose.now) self.old.place body.now (kept_of self.old))
            (kept_of self.new) result out.old out.new }
    {
        match self.place {
            Place::Greeting | Place::Asking => self.say_line(body, out),
            Place::Importing => self.import(whose, body, out),
            Place::Saying => self.next_line(whose, out),
            Place::Parting => self.finish(out),
            Place::Reading => self.read(whose, body, out),
            Place::Challenging => {
                self.challenged = true;
                self.say(body, out)
            }
            Place::Replying => self.export(out),
            Place::Abandoning => {
                self.challenged = false;
                self.say(b"done\n", out)
            }
            Place::OpeningGet => self.get(handle_in(body), out),
            Place::OpeningPut => self.put(handle_in(body), out),
            Place::Getting => {
                set_size(&mut self.text, body);
                self.close(self.handle, out)
            }
            Place::Putting => {
                set(&mut self.text, b"done\n");
                self.close(self.handle, out)
            }
            Place::Closing => self.tell(out),
            Place::Noting => self.say(b"done\n", out),
            Place::Finishing => self.end(),
            Place::New | Place::Exporting | Place::Ended => unreachable!(),
        }
    }

    /// Goes on after a request that was denied by no violation.
    fn denied(&mut self, rule: u8, out: &mut [u8]) -> Turn
        requires small { rule ≤ 22 }
        requires room { 16384 ≤ length out.old }
        ensures { Takes (denied_move self.old.place rule (kept_of self.old)) (kept_of self.new) result out.old out.new }
    {
        match self.place {
            Place::Challenging | Place::OpeningGet | Place::OpeningPut | Place::Asking => {
                self.say_denied(rule, out)
            }
            Place::Replying => {
                self.challenged = false;
                self.say_denied(rule, out)
            }
            Place::Finishing => self.end(),
            _ => self.finish(out),
        }
    }

    /// Goes on after a request at which the outside failed.
    fn failed(&mut self, out: &mut [u8]) -> Turn
        requires room { 16384 ≤ length out.old }
        ensures { Takes (failed_move self.old.place (kept_of self.old)) (kept_of self.new) result out.old out.new }
    {
        match self.place {
            Place::Getting | Place::Putting => {
                set(&mut self.text, b"fault 2\n");
                self.close(self.handle, out)
            }
            Place::Finishing => self.end(),
            _ => self.finish(out),
        }
    }

    /// The dialogue is over.
    fn end(&mut self) -> Turn
        ensures kept { kept_of self.new ≡ (ended (kept_of self.old)).kept }
        ensures turn { result ≡ Turn.Ended }
    {
        self.place = Place::Ended;
        Turn::Ended
    }

    /// Asks for the session's end.
    fn finish(&mut self, out: &mut [u8]) -> Turn
        requires room { 16384 ≤ length out.old }
        ensures { Takes (finishing (kept_of self.old)) (kept_of self.new) result out.old out.new }
    {
        self.place = Place::Finishing;
        ask(&Request::Finish, out)
    }

    /// Sends a text, after which comes the next line.
    fn say(&mut self, text: &[u8], out: &mut [u8]) -> Turn
        requires some { 1 ≤ length text.now }
        requires few { length text.now ≤ 16000 }
        requires room { 16384 ≤ length out.old }
        ensures { Takes (saying text.now (kept_of self.old)) (kept_of self.new) result out.old out.new }
    {
        self.place = Place::Saying;
        ask(&say(text), out)
    }

    /// Sends the text that is kept.
    fn tell(&mut self, out: &mut [u8]) -> Turn
        requires some { 1 ≤ length self.old.text.items }
        requires room { 16384 ≤ length out.old }
        ensures { Takes (saying self.old.text.items (kept_of self.old)) (kept_of self.new) result out.old out.new }
    {
        self.place = Place::Saying;
        ask(&say(self.text.as_slice()), out)
    }

    /// Says by which rule a request was denied.
    fn say_denied(&mut self, rule: u8, out: &mut [u8]) -> Turn
        requires small { rule ≤ 22 }
        requires room { 16384 ≤ length out.old }
        ensures { Takes (saying (denied_text rule) (kept_of self.old)) (kept_of self.new) result out.old out.new }
    {
        let text = denied_text(rule);
        self.say(text.as_slice(), out)
    }

    /// Sends a text as a line: the banner, or that of an INFO.
    fn say_line(&mut self, body: &[u8], out: &mut [u8]) -> Turn
        requires few { length body.now ≤ 256 }
        requires room { 16384 ≤ length out.old }
        ensures { Takes (saying (body.now ++ codes "\n") (kept_of self.old)) (kept_of self.new) result out.old out.new }
    {
        let mut text = Text::new();
        put(&mut text, body);
        put(&mut text, b"\n");
        self.say(text.as_slice(), out)
    }

    /// Goes on with the next line.
    fn next_line(&mut self, whose: &Whose, out: &mut [u8]) -> Turn
        requires room { 16384 ≤ length out.old }
        requires few { self.old.lines + 1 < 2 ^ 32 }
        ensures { Takes (next_line (role_value whose.now) (kept_of self.old)) (kept_of self.new) result out.old
            out.new }
    {
        match whose {
            Whose::Pre => self.pre_line(out),
            Whose::User { .. } => self.user_line(out),
        }
    }

    /// Asks what the line in front leads to before the login, or for more bytes.
    fn pre_line(&mut self, out: &mut [u8]) -> Turn
        requires room { 16384 ≤ length out.old }
        requires few { self.old.lines + 1 < 2 ^ 32 }
        ensures { Takes (pre_move (front_of self.old.held.items) (kept_of self.old)) (kept_of self.new) result
            out.old out.new }
    {
        match front_of(self.held.as_slice()) {
            Front::More => self.ask_more(out),
            Front::TooLong => self.part(out),
            Front::Line { text, len } => {
                let command = command_of(text);
                let (place, request) = first_of(command, self.challenged);
                self.place = place;
                let turn = ask(&request, out);
                if let Command::Terminal { text } = command {
                    self.terminal = text;
                }
                drop_front(&mut self.held, len);
                self.lines += 1;
                turn
            }
        }
    }

    /// Asks what the line in front leads to for a user, or for more bytes.
    fn user_line(&mut self, out: &mut [u8]) -> Turn
        requires room { 16384 ≤ length out.old }
        requires few { self.old.lines + 1 < 2 ^ 32 }
        ensures { Takes (user_move (front_of self.old.held.items) (kept_of self.old)) (kept_of self.new) result
            out.old out.new }
    {
        match front_of(self.held.as_slice()) {
            Front::More => self.ask_more(out),
            Front::TooLong => self.part(out),
            Front::Line { text, len } => {
                let command = user_command_of(text);
                let (place, request) = user_first_of(&command);
                self.place = place;
                let turn = ask(&request, out);
                if let UserLine::Put { text, .. } = command {
                    set(&mut self.text, text);
                }
                drop_front(&mut self.held, len);
                self.lines += 1;
                turn
            }
        }
    }

    /// Holds more bytes of the client, and goes on with the line that is whole now.
    fn read(&mut self, whose: &Whose, body: &[u8], out: &mut [u8]) -> Turn
        requires ready { IsUsable Place.Reading (kept_of self.old) }
        requires few { length body.now ≤ 512 }
        requires room { 16384 ≤ length out.old }
        ensures { Takes (reading (role_value whose.now) body.now (kept_of self.old)) (kept_of self.new) result out.old
            out.new }
    {
        if body.is_empty() {
            return self.finish(out);
        }
        put(&mut self.held, body);
        self.read += body.len() as u32;
        self.next_line(whose, out)
    }

    /// Leaves the state to the user's child.
    fn export(&mut self, out: &mut [u8]) -> Turn
        requires room { 16384 ≤ length out.old }
        ensures { Takes (exporting (kept_of self.old)) (kept_of self.new) result out.old out.new }
    {
        self.place = Place::Exporting;
        let mut state = [0; STATE_MAX];
        let used = write_state(&self.state(), &mut state);
        let export = Request::Export {
            state: &state[..used],
        };
        ask(&export, out)
    }

    /// The state that is left to the user's child.
    fn state(&self) -> State<'_>
        ensures value { value_of result ≡ kept_state (kept_of self.now).heard }
        ensures in_range { IsState (value_of result) }
    {
        let terminal = self.terminal.as_slice();
        state_of(terminal, self.held.as_slice(), self.lines, self.read)
    }

    /// Greets the user, if what was left is for it.
    fn import(&mut self, whose: &Whose, body: &[u8], out: &mut [u8]) -> Turn
        requires room { 16384 ≤ length out.old }
        ensures { Takes (importing (role_value whose.now) (import_of body.now) (kept_of self.old)) (kept_of self.new)
            result out.old out.new }
    {
        let Whose::User { uid, name } = whose else {
            return self.finish(out);
        };
        let Ok(found) = read_import(body) else {
            return self.finish(out);
        };
        if !serves(*uid, name, &found) {
            return self.finish(out);
        }
        self.welcome(name, found.state.unread, out)
    }

    /// Greets the user, and holds the client's bytes that were left.
    fn welcome(&mut self, name: &Name, unread: &[u8], out: &mut [u8]) -> Turn
        requires few { length unread.now ≤ 4096 }
        requires room { 16384 ≤ length out.old }
        ensures { Takes (welcoming (name_bytes name.now) unread.now (kept_of self.old)) (kept_of self.new) result
            out.old out.new }
    {
        set(&mut self.held, unread);
        let mut text = Text::new();
        put(&mut text, b"welcome ");
        put(&mut text, name.as_slice());
        put(&mut text, b"\n");
        self.say(text.as_slice(), out)
    }

    /// Asks for an open file's bytes.
    fn get(&mut self, handle: u32, out: &mut [u8]) -> Turn
        requires room { 16384 ≤ length out.old }
        ensures { Takes (getting handle (kept_of self.old)) (kept_of self.new) result out.old out.new }
    {
        self.place = Place::Getting;
        self.handle = handle;
        let request = Request::ReadAt {
            handle,
            offset: 0,
            max: 4000,
        };
        ask(&request, out)
    }

    /// Puts the text that is kept in an open file.
    fn put(&mut self, handle: u32, out: &mut [u8]) -> Turn
        requires some { 1 ≤ length self.old.text.items }
        requires room { 16384 ≤ length out.old }
        ensures { Takes (putting handle (kept_of self.old)) (kept_of self.new) result out.old out.new }
    {
        self.place = Place::Putting;
        self.handle = handle;
        let request = Request::WriteAt {
            handle,
            offset: CONTENT_AT,
            bytes: self.text.as_slice(),
        };
        ask(&request, out)
    }

    /// Closes the file, and keeps what is told then.
    fn close(&mut self, handle: u32, out: &mut [u8]) -> Turn
        requires room { 16384 ≤ length out.old }
        ensures { Takes (asking Place.Closing (CloseFile handle) (kept_of self.old)) (kept_of self.new) result out.old
            out.new }
    {
        self.place = Place::Closing;
        ask(&Request::CloseFile { handle }, out)
    }

    /// Asks for more bytes of the client.
    fn ask_more(&mut self, out: &mut [u8]) -> Turn
        requires room { 16384 ≤ length out.old }
        ensures { Takes (asking Place.Reading read_more (kept_of self.old)) (kept_of self.new) result out.old out.new }
    {
        self.place = Place::Reading;
        ask(&READ_MORE, out)
    }

    /// Says that a line is too long, after which comes the end.
    fn part(&mut self, out: &mut [u8]) -> Turn
        requires room { 16384 ≤ length out.old }
        ensures { Takes (asking Place.Parting (say (codes "long\n")) (kept_of self.old)) (kept_of self.new) result
            out.old out.new }
    {
        self.place = Place::Parting;
        ask(&say(b"long\n"), out)
    }
}

/// Whether what was left is for the user.
fn serves(uid: u32, name: &Name, found: &Imported<'_>) -> bool
    ensures { result ≡ is_for (record { uid = uid; name = name_bytes name.now }) (import_value found.now) }
{
    found.uid == uid && found.user.as_slice() == name.as_slice()
}

/// The state of these parts.
fn state_of<'a>(terminal: &'a [u8], unread: &'a [u8], lines: u32, bytes: u32) -> State<'a>
    requires terminal { length terminal.now ≤ 64 }
    requires unread { length unread.now ≤ 4096 }
    ensures value { value_of result ≡ record {
      terminal = terminal.now;
      unread = unread.now;
      lines = lines;
      bytes = bytes;
    } }
    ensures in_range { IsState (value_of result) }
{
    State {
        terminal,
        unread,
        lines,
        bytes,
    }
}
