//! The top call.

ghost use Rattle.std.specs.Prelude.{◌≡◌, false};
ghost use Rattle.policy_model.specs.Journal.{has_lost};
ghost use Rattle.monitor_server.specs.Headline.{StatusHasCause};
ghost use Rattle.monitor_server.specs.Modes.{AuditMode, ChangesFiles, CheckMode, ChildMode, DrillMode, EnrolMode};
ghost use Rattle.monitor_server.specs.Modes.{KeepsMode, LeavesRest, PasswordMode, RecoverMode, RenewMode, ServeMode};
ghost use Rattle.monitor_server.specs.Touching.{TouchesFilesNamed};
ghost use Rattle.monitor_server.specs.Whole.{Whole};

use crate::alone::answer_within;
use crate::command::{Command, read_command};
use crate::modes::{play_drill, serve_setup};
use crate::report::{Ended, end_unserved};
use crate::world::World;
use outside::{Files, Sink, Site, Stream, Word};
use service_reading::Information;
use std::alloc::Global;
use std::sync::Wait;
use std::thread::Threads;

/// Does what the words ask for.
fn run_command<
    F: Files,
    S: Site,
    K: Sink,
    E: Stream,
    I: Information + Sync,
    R: Threads + Wait + Sync,
>(
    rt: &R,
    alloc: Global,
    words: &[Word],
    world: World<F, S, K, E>,
    information: &I,
) -> Ended<F, S, K, E>
    ensures whole { Whole words.now (I.forms information.now) F.contents world result.world result.said }
    ensures logged { has_lost result.said.journal ≡ false → result.world.log.faults ≡ world.log.faults }
{
    match read_command(alloc, words) {
        Ok(Command::Serve(command)) => serve_setup(rt, alloc, &command, world, information),
        Ok(Command::Drill(number)) => play_drill(rt, alloc, number, world),
        Ok(Command::Alone(command)) => answer_within(alloc, command, world, information),
        Err(unread) => end_unserved(alloc, unread.answer(), world),
    }
}

/// Runs the program by the words of its command line, without the program's name:
///
/// - `serve` serves the connections of the plain setup, and `serve SETUP` those of the setup in that
///   file, into which the accounts are written back when the run ends; `serve SETUP LOG` does so where
///   the file LOG is a durable log without a record, and for it the world's `log` is to be one over that file;
/// - `recover SETUP LOG` brings back from that durable log what a run came to that was stopped, writes it
///   into the setup's file, makes the log fresh, and sends to its `ends` one line that says so;
/// - `check SETUP` sends to `ends` one line that says whether the setup in that file and its word
///   list are right;
/// - `otp ALGO N SEED` and `otp ALGO N SEED WORDS` print a one-time password of RFC 2289: the pass
///   phrase is the first line that `ends` gives, and the password is sent to `ends` in hexadecimal,
///   and in six words where a file of a word list is named;
/// - `child-pre SESSION` and `child-user SESSION UID NAME` run the child before the login and the
///   user's child over `ends`, the monitor's side of which is the child's link;
/// - `audit SETUP LOG` sends to `ends` one line that says whether each line of the log in that file is
///   one that the policy allows after those before it;
/// - `renew SETUP NAME` takes the first line that `ends` gives as a response of RFC 2243, writes the
///   new chain of that user's passwords into the setup's file, and sends to `ends` one line that says
///   so; `renew SETUP NAME LOG` does so where the file LOG is a durable log without a record. No monitor
///   may run with that file meanwhile;
/// - `enrol NAME UID ALGO N SEED` takes the pass phrase from the first line that `ends` gives, and sends to
///   `ends` the table of an account with its password, to be put after a setup;
/// - `drill N` runs four workers in memory through sessions that are made of that number, from 1 to 64,
///   by the same run as `serve`, gives their journal and sends its counts to `ends`.
///
/// Other words are no command, and neither are those of which one begins with `-`.
pub fn otplogd<
    F: Files,
    S: Site,
    K: Sink,
    E: Stream,
    I: Information + Sync,
    R: Threads + Wait + Sync,
>(
    rt: &R,
    alloc: Global,
    words: &[Word],
    world: World<F, S, K, E>,
    information: &I,
) -> Ended<F, S, K, E>
    // Each status has its cause in the words.
    ensures causes { StatusHasCause words.now result.said.status }
    // The mode `serve` serves by the setup that the words name, as its promises say, or says why not.
    ensures serve { ServeMode words.now (I.forms information.now) F.contents world result.world result.said }
    // By the same service it keeps what that means for users, the accounts in the setup's file, and its numbers.
    ensures keeps { KeepsMode words.now (I.forms information.now) F.contents world result.world result.said }
    // The mode `otp` prints the password that its words, files and input spell, or says why not.
    ensures password { PasswordMode words.now F.contents world result.world result.said }
    // The mode `check` says what its files hold of a setup, or why it says nothing.
    ensures check { CheckMode words.now (I.forms information.now) F.contents world result.world result.said }
    // The modes of the children run them over the ends.
    ensures child { ChildMode words.now world result.world result.said }
    // The mode `audit` says whether a log is legal, or why it says nothing.
    ensures audit { AuditMode words.now F.contents world result.world result.said }
    // The mode `renew` writes the setup with the new chain, or says why not.
    ensures renew { RenewMode words.now F.contents world result.world result.said }
    // The mode `enrol` prints the account that its words and input spell, or says why not.
    ensures enrol { EnrolMode words.now world result.world result.said }
    // The mode `drill` runs the drill of its number, gives its journal and tells the journal's counts, or says why not.
    ensures drill { DrillMode words.now world result.world result.said }
    // The mode `recover` writes the setup that the log's lines lead to, and the fresh log, or says why not.
    ensures recover { RecoverMode words.now F.contents world result.world result.said }
    // Where no event is lost, no fault of the log is counted.
    ensures logged { has_lost result.said.journal ≡ false → result.world.log.faults ≡ world.log.faults }
    // What a mode doesn't use it leaves as it was.
    ensures leaves { LeavesRest words.now world result.world result.said }
    // No mode but `serve`, `renew` and `recover` writes a file: `renew` the setup's alone, `recover` it and the log's.
    ensures changes { ChangesFiles words.now F.contents world result.world result.said }
    // No file is read but those that the words name and the list of a setup so named; none replaced that no mode may.
    ensures touches { TouchesFilesNamed words.now F.contents world result.world }
{
    run_command(rt, alloc, words, world, information)
}
