//! All workers, each in a thread of its own.

ghost use Rattle.std.specs.Prelude.{◌≡◌, ◌<◌, ℕ, length, slice_index_or};
ghost use Rattle.std.specs.List.{AllWithin};
ghost use Rattle.monitor_run.specs.Workers.{HasServed, IsReady};

use crate::worker::{Worker, serve_at_cell};
use monitor_book::Book;
use outside::{Post, Sink};
use session_asking::Texts;
use std::sync::Wait;
use std::thread;
use std::thread::Threads;
use turn_cell::{Pass, TurnCell};

/// The most workers of a setup.
const THREADS: usize = 64;

/// Serves all connections of all workers, of each in a thread of its own where one can be had.
pub(crate) fn serve_all<'a, T: Texts + Sync, P: Post, K: Sink, R: Threads + Wait + Sync>(
    rt: &R,
    cell: &TurnCell<Book<K>>,
    workers: &mut [Worker<'a, T, P, Pass<Book<K>>>],
)
    requires ready { AllWithin (λ w. IsReady (T.service w.desk.replies.texts.now).setup cell.now w.pass (P.scene w.post)
        (P.faults w.post)) workers.old 0 (length workers.old) }
    ensures served { (k : ℕ) (d : _) → k < length workers.old → let old = slice_index_or workers.old k d in
        let new = slice_index_or workers.new k d in
        HasServed (T.service old.desk.replies.texts.now) cell.now old.pass new.pass new.end (P.scene old.post)
        (P.scene new.post) (P.faults old.post) (P.faults new.post) }
{
    thread::for_each_mut(
        rt,
        workers,
        THREADS,
        &|_, w: &mut Worker<T, P, Pass<Book<K>>>|
            requires ready { IsReady (T.service w.old.desk.replies.texts.now).setup cell.now w.old.pass
                (P.scene w.old.post) (P.faults w.old.post) }
            ensures served { HasServed (T.service w.old.desk.replies.texts.now) cell.entry.now w.old.pass w.new.pass
                w.new.end (P.scene w.old.post) (P.scene w.new.post) (P.faults w.old.post) (P.faults w.new.post) }
        { serve_at_cell(rt, cell, w) },
    );
}
