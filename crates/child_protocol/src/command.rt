//! What a client's line asks.

ghost use Rattle.std.specs.Prelude.{◌≡◌, ◌≤◌, true, length, is_some, IfSome};
ghost use Rattle.fixed_list.specs.FixedList.{list_of};
ghost use Rattle.request_catalogue.specs.Texts.{is_name, is_typed_reply};
ghost use Rattle.request_catalogue.specs.Catalogue.{value_of, IsInRange};
ghost use Rattle.child_protocol.specs.Commands.{IsLegal, Terminal, User, Respond, legal, is_terminal, pre_command};
ghost use Rattle.child_protocol.specs.Pre.{say, pre_request};
ghost use Rattle.child_protocol.specs.Frames.{frame_width};
ghost use Rattle.child_protocol.specs.Reading.{command_value};
ghost use Rattle.child_protocol.specs.Places.{place_by};

use crate::place::Place;
use fixed_list::FixedList;
use request_catalogue::{Name, Request, are_printable, is_typed_reply};

/// The most bytes of a terminal's name.
const TERMINAL_MAX: usize = 64;

/// A line to the pre-authentication child.
#[derive(Clone, Copy)]
pub(crate) enum Command<'a> {
    Terminal { text: FixedList<64> },
    User { name: Name },
    Respond { text: &'a [u8] },
    Cancel,
    Quit,
    Other,
}

#[tactic(auto, unfolding(crate::specs::Commands::pre_command))]
pub(crate) fn command_of(line: &[u8]) -> Command<'_>
    ensures value { command_value result ≡ pre_command line.now }
    ensures legal { IsLegal (command_value result) }
{
    if let Some(text) = line.strip_prefix(b"term ") {
        return terminal_of(text);
    }
    if let Some(name) = line.strip_prefix(b"user ") {
        return user_of(name);
    }
    if let Some(text) = line.strip_prefix(b"resp ") {
        return respond_of(text);
    }
    if line == b"cancel".as_slice() {
        Command::Cancel
    } else if line == b"quit".as_slice() {
        Command::Quit
    } else {
        Command::Other
    }
}

#[tactic(auto, unfolding(crate::specs::Commands::is_terminal))]
fn terminal_of(text: &[u8]) -> Command<'_>
    ensures value { command_value result ≡ legal (is_terminal text.now) (Terminal text.now) }
    ensures legal { IsLegal (command_value result) }
{
    if text.len() > TERMINAL_MAX || !are_printable(text) {
        return Command::Other;
    }
    Command::Terminal {
        text: FixedList::of(text),
    }
}

fn user_of(name: &[u8]) -> Command<'_>
    ensures value { command_value result ≡ legal (is_name name.now) (User name.now) }
    ensures legal { IsLegal (command_value result) }
{
    match Name::of(name) {
        Some(name) => Command::User { name },
        None => Command::Other,
    }
}

fn respond_of(text: &[u8]) -> Command<'_>
    ensures value { command_value result ≡ legal (is_typed_reply text.now) (Respond text.now) }
    ensures legal { IsLegal (command_value result) }
{
    if is_typed_reply(text) {
        Command::Respond { text }
    } else {
        Command::Other
    }
}

/// Where a command leads to, and what is asked there.
pub(crate) fn first_of<'a>(command: Command<'a>, challenged: bool) -> (Place, Request<'a>)
    requires { IsLegal (command_value command) }
    ensures place { result.0 ≡ place_by (command_value command.entry) challenged }
    ensures value { value_of result.1 ≡ pre_request (command_value command.entry) challenged }
    ensures in_range { IsInRange frame_width (value_of result.1) }
{
    match (command, challenged) {
        (Command::Terminal { .. }, _) => (Place::Saying, say(b"done\n")),
        (Command::User { name }, false) => (Place::Challenging, Request::Challenge { user: name }),
        (Command::Respond { text }, true) => (Place::Replying, Request::Reply { text }),
        (Command::Cancel, true) => (Place::Abandoning, Request::Abandon),
        (Command::Quit, _) => (Place::Parting, say(b"bye\n")),
        _ => (Place::Saying, say(b"what\n")),
    }
}

/// A text to the client.
pub(crate) fn say(bytes: &[u8]) -> Request<'_>
    ensures { value_of result ≡ say bytes.now }
{
    Request::WriteAt {
        handle: 0,
        offset: 0,
        bytes,
    }
}
