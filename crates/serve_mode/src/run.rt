//! The mode.

ghost use Rattle.std.specs.Prelude.{◌≡◌, [], Err, false, map};
ghost use Rattle.monitor_book.specs.Lines.{held_by};
ghost use Rattle.monitor_run.specs.Posts.{seen};
ghost use Rattle.monitor_run.specs.Prepared.{LogStays};
ghost use Rattle.outside.specs.FilesNow.{files_now};
ghost use Rattle.outside.specs.Told.{Rose};
ghost use Rattle.policy_model.specs.Journal.{has_lost};
ghost use Rattle.setup_reading.specs.Touching.{OnlyReplaces, TouchesNamed};
ghost use Rattle.serve_mode.specs.AroundRun.{around_run};
ghost use Rattle.serve_mode.specs.Commands.{source_of};
ghost use Rattle.serve_mode.specs.Finished.{IsFinished};
ghost use Rattle.serve_mode.specs.Steps.{RunEnded, run_end};
ghost use Rattle.serve_mode.specs.Words.{Plain, files_of, setups_of};

use crate::accounts::write_back;
use crate::command::ServeCommand;
use crate::reading::make_ready;
use crate::serving::serve;
use monitor_run::Ran;
use outside::{Files, Sink, Site};
use policy_model::{Event, Setup, has_lost};
use service_reading::Information;
use std::alloc::Global;
use std::sync::Wait;
use std::thread::Threads;
use trouble::{ServeFault, Trouble};

/// What the mode came to.
pub struct Served<P, K> {
    /// How the run ended, or why there was none.
    pub end: Result<(), Trouble>,
    /// All events, in the order in which they were decided.
    pub journal: Vec<Event>,
    pub log: K,
    /// The workers' posts, in their order; none where nobody was served.
    pub posts: Vec<P>,
}

/// Nobody was served.
fn unserved<P, K>(alloc: Global, trouble: Trouble, log: K) -> Served<P, K>
    ensures end { result.end ≡ Err trouble }
    ensures log { result.log ≡ log }
    ensures journal { result.journal.items ≡ [] }
    ensures posts { result.posts.items ≡ [] }
{
    Served {
        end: Err(trouble),
        journal: Vec::new(alloc),
        log,
        posts: Vec::new(alloc),
    }
}

/// How a run ends: the first of these, that the accounts found no memory, that a decision was lost, that
/// an accept failed, and that the accounts were not written.
fn run_end(written: Result<(), Trouble>, lost: bool, failed: bool) -> Result<(), Trouble>
    ensures { result ≡ run_end written lost failed }
{
    match written {
        Err(Trouble::OutOfMemory) => written,
        _ if lost => Err(Trouble::Serving(ServeFault::LogLost)),
        _ if failed => Err(Trouble::Serving(ServeFault::AcceptFailed)),
        _ => written,
    }
}

/// Writes the accounts of a run back, and says how it ended. Its parts are taken apart here, and not
/// beside what it ran by: that keeps the proof short.
fn finish<F: Files, P, K>(
    alloc: Global,
    command: &ServeCommand<'_>,
    setup: &Setup,
    ran: Ran<P, K>,
    files: &mut F,
) -> Served<P, K>
    requires { ran.core.ledger.setup ≡ setup.now }
    ensures finished { IsFinished (source_of command.now) setup.now ran.core.ledger ran.journal.items ran.accept_failed
        (F.contents files.old) (F.contents files.new) (Rose (F.replace_faults files.old) (F.replace_faults files.new))
        result.end }
    ensures journal { result.journal ≡ ran.journal }
    ensures log { result.log ≡ ran.log }
    ensures posts { result.posts ≡ ran.posts }
    ensures plain { source_of command.now ≡ Plain → files.new ≡ files.old }
    ensures read_faults { F.read_faults files.new ≡ F.read_faults files.old }
    ensures files { let now = files_now F.contents F.read_faults F.replace_faults F.touched in
        OnlyReplaces (setups_of (source_of command.now)) (now files.old) (now files.new) }
{
    let Ran {
        core,
        journal,
        log,
        posts,
        accept_failed,
    } = ran;
    let written = write_back(alloc, command, setup, &core, files);
    Served {
        end: run_end(written, has_lost(&journal), accept_failed),
        journal,
        log,
        posts,
    }
}

/// Runs the mode: reads the setup and its word list, sees that the durable log that is named, if one is,
/// has no record, takes all memory of the run, listens, serves all
/// connections of all workers, and writes the accounts back to the setup's file, also where the run
/// ended by a fault.
///
/// The log that is handed in is what is written. Whoever names a durable log hands in the one over that
/// file.
///
/// The end is the first of these troubles: of the setup, of the word
/// list, of the durable log, of memory, of the listening,
/// of the memory for the accounts, of the log, of an accept, of the replacing.
pub fn run_serve<F: Files, S: Site, K: Sink, I: Information + Sync, R: Threads + Wait + Sync>(
    rt: &R,
    alloc: Global,
    command: &ServeCommand<'_>,
    files: &mut F,
    site: &mut S,
    log: K,
    information: &I,
) -> Served<S::Post, K>
    ensures ended { let now = files_now F.contents F.read_faults F.replace_faults F.touched in
        RunEnded (source_of command.now) (I.forms information.now) result.end result.journal.items
        (map (seen S.Post.scene S.Post.faults) result.posts.items)
        (around_run (now files.old) (S.listens site.old) (S.listen_faults site.old) (held_by K.held K.lengths log)
        (K.faults log))
        (around_run (now files.new) (S.listens site.new) (S.listen_faults site.new)
        (held_by K.held K.lengths result.log) (K.faults result.log)) }
    ensures log { result.posts.items ≡ [] → LogStays (held_by K.held K.lengths log)
        (held_by K.held K.lengths result.log) (K.faults log) (K.faults result.log) }
    ensures logged { has_lost result.journal.items ≡ false → K.faults result.log ≡ K.faults log }
    ensures plain { source_of command.now ≡ Plain → files.new ≡ files.old }
    ensures files { let source = source_of command.now in
        let now = files_now F.contents F.read_faults F.replace_faults F.touched in
        TouchesNamed (files_of source) (setups_of source) (setups_of source) (now files.old) (now files.new) }
{
    match make_ready(alloc, command, files, information) {
        Ok(house) => match serve(rt, alloc, &house, site, log) {
            Ok(ran) => finish(alloc, command, &house.setup, ran, files),
            Err((trouble, log)) => unserved(alloc, trouble, log),
        },
        Err(trouble) => unserved(alloc, trouble, log),
    }
}
