//! The run itself.

ghost use Rattle.std.specs.Prelude.{◌≡◌, ℕ, All, Some, length, map};
ghost use Rattle.monitor_book.specs.declared.opened.Held.{Held};
ghost use Rattle.monitor_book.specs.Lines.{held_by};
ghost use Rattle.monitor_run.specs.Headline.{RunPromises};
ghost use Rattle.monitor_run.specs.Posts.{seen};
ghost use Rattle.monitor_run.specs.Ran.{PlansStay};
ghost use Rattle.otp_ledger.specs.Standing.{StandsFor};
ghost use Rattle.outside.specs.Scene.{IsFresh};
ghost use Rattle.policy_model.specs.Journal.{kept_events};

use crate::counting::count_as_told;
use crate::gathering::{gather, part};
use crate::prepared::Prepared;
use crate::threads::serve_all;
use outside::{Post, Sink};
use policy_model::Event;
use session_asking::Texts;
use session_core::Core;
use session_turns::close_cell;
use std::sync::Wait;
use std::thread::Threads;

/// What a run came to.
pub struct Ran<P, K> {
    /// What is known after the last event.
    pub core: Core,
    /// All events, in the order in which they were decided.
    pub journal: Vec<Event>,
    pub log: K,
    /// The workers' posts, in their order.
    pub posts: Vec<P>,
    /// Whether a worker could not wait for a connection.
    pub accept_failed: bool,
}

/// Serves all connections of all workers, one post each, and answers what came of it.
pub fn run<'a, T: Texts + Sync, P: Post, K: Sink, R: Threads + Wait + Sync>(
    rt: &R,
    prepared: Prepared<'a, T, P, K>,
    posts: Vec<P>,
) -> Ran<P, K>
    requires one_each { length posts.items ≡ prepared.service.setup.workers }
    requires fresh { All (IsFresh P.scene P.faults) posts.items }
    ensures promises { (held : Held) (faults : ℕ) → prepared.entry.opened
        ≡ Some (record { setup = prepared.entry.service.setup; held = held; faults = faults })
        → RunPromises prepared.entry.service result.accept_failed result.journal.items
        (map (seen P.scene P.faults) result.posts.items) held (held_by K.held K.lengths result.log) faults
        (K.faults result.log) }
    ensures plans { PlansStay P.scene posts.items result.posts.items }
    ensures setup { result.core.ledger.setup ≡ prepared.entry.service.setup }
    ensures ledger { StandsFor result.core.ledger (kept_events result.journal.items) }
{
    let Prepared {
        texts: _,
        cell,
        mut passes,
        mut desks,
        mut workers,
    } = prepared;
    let mut posts = posts;
    gather(&mut posts, &mut passes, &mut desks, &mut workers);
    serve_all(rt, &cell, &mut workers);
    let accept_failed = part(workers, &mut posts, &mut passes);
    count_as_told(posts.as_slice());
    let (core, journal, log) = close_cell(cell, passes).parts();
    Ran {
        core,
        journal,
        log,
        posts,
        accept_failed,
    }
}
