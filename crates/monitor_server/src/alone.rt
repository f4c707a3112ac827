//! What is done without threads.

ghost use Rattle.std.specs.Prelude.{◌≡◌, IfSome, None};
ghost use Rattle.monitor_server.specs.Alone.{IsDoneAlone, IsRunOf, NeedsThreads, SparesRest, unread_answer};
ghost use Rattle.monitor_server.specs.Around.{answer_in, sides_of};
ghost use Rattle.monitor_server.specs.Headline.{UsesNothing};
ghost use Rattle.monitor_server.specs.Touching.{TouchesGiven};

use crate::command::{AloneCommand, Command, Unread, read_command};
use crate::modes::{
    audit_log, check_setup, print_account, print_password, recover_accounts, renew_account,
    run_child,
};
use crate::report::{Answer, Ended, end_unserved};
use crate::world::{Sides, World};
use outside::{Files, Sink, Site, Stream, Word};
use service_reading::Information;
use std::alloc::Global;

/// The words are no command.
const NO_COMMAND: u8 = 2;

/// Out of memory.
const NO_MEMORY: u8 = 9;

impl Unread {
    /// What comes of words that were not read: 2 or 9.
    pub(crate) fn answer(self) -> Answer
        ensures { result ≡ unread_answer self }
    {
        match self {
            Unread::NoCommand => Answer::plain(NO_COMMAND),
            Unread::OutOfMemory => Answer::plain(NO_MEMORY),
        }
    }
}

/// Does what a command asks for.
fn answer<F: Files, E: Stream, I: Information>(
    alloc: Global,
    command: AloneCommand<'_>,
    sides: &mut Sides<F, E>,
    information: &I,
) -> Answer
    ensures ran { IsRunOf command.entry (I.forms information.now) F.contents sides.old sides.new result }
    ensures spares { SparesRest command.entry F.contents sides.old sides.new result.status }
    ensures touches { TouchesGiven command.entry F.contents sides.old sides.new }
{
    match command {
        AloneCommand::Password(command) => print_password(alloc, &command, sides),
        AloneCommand::Check(setup) => check_setup(alloc, setup, information, sides),
        AloneCommand::Child(command) => run_child(alloc, &command, sides),
        AloneCommand::Audit(command) => audit_log(alloc, &command, sides),
        AloneCommand::Renew(command) => renew_account(alloc, &command, sides),
        AloneCommand::Recover(command) => recover_accounts(alloc, &command, sides),
        AloneCommand::Enrol(command) => print_account(alloc, &command, sides),
    }
}

/// Does what a command asks for, in a world of which only the sides are used.
pub(crate) fn answer_within<F: Files, S: Site, K: Sink, E: Stream, I: Information>(
    alloc: Global,
    command: AloneCommand<'_>,
    world: World<F, S, K, E>,
    information: &I,
) -> Ended<F, S, K, E>
    ensures ran { IsRunOf command.entry (I.forms information.now) F.contents
        (sides_of world) (sides_of result.world) (answer_in result.said) }
    ensures spares { SparesRest command.entry F.contents (sides_of world) (sides_of result.world) result.said.status }
    ensures touches { TouchesGiven command.entry F.contents (sides_of world) (sides_of result.world) }
    ensures unused { UsesNothing world result.world result.said }
{
    let World {
        files,
        site,
        log,
        ends,
    } = world;
    let mut sides = Sides { files, ends };
    let answer = answer(alloc, command, &mut sides, information);
    let Sides { files, ends } = sides;
    let world = World {
        files,
        site,
        log,
        ends,
    };
    end_unserved(alloc, answer, world)
}

/// Does what the words of a command line ask for, without the program's name, where that takes no
/// threads: all that [`otplogd`](crate::otplogd) does but `serve` and `drill`. It waits for no thread
/// and always returns, as far as the calls of the files and of the ends return.
///
/// `None` only where the words ask for `serve` or `drill`; nothing was done then.
pub fn run_alone<F: Files, E: Stream, I: Information>(
    alloc: Global,
    words: &[Word],
    sides: &mut Sides<F, E>,
    information: &I,
) -> Option<Answer>
    // What the top call says of these words, where there is no site, no log and no post.
    ensures done { IfSome result (IsDoneAlone words.now (I.forms information.now) F.contents sides.old sides.new) }
    // What needs threads is left to the top call, and nothing else is.
    ensures left { result ≡ None → NeedsThreads words.now sides.old sides.new }
{
    match read_command(alloc, words) {
        Ok(Command::Serve(_) | Command::Drill(_)) => None,
        Ok(Command::Alone(command)) => Some(answer(alloc, command, sides, information)),
        Err(unread) => Some(unread.answer()),
    }
}
