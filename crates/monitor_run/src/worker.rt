//! One worker at the cell.

ghost use Rattle.monitor_run.specs.Workers.{HasServed, IsReady};
ghost use Rattle.session_turns.specs.Passes.{IsCalled, MayCall};

use monitor_book::Book;
use outside::{Post, Sink};
use policy_model::Ask;
use session_asking::Texts;
use session_loop::{Desk, WorkerEnd, serve_worker};
use session_turns::{AtCell, call_cell};
use std::sync::Wait;
use turn_cell::{Pass, TurnCell};

/// A worker: its post, its pass of the cell, what it serves with, and how it ended.
#[derive(Drop)]
pub(crate) struct Worker<'a, T: Texts, P, Q> {
    pub(crate) post: P,
    pub(crate) pass: Q,
    pub(crate) desk: Desk<'a, T>,
    pub(crate) end: WorkerEnd,
}

/// Serves all connections of a worker.
pub(crate) fn serve_at_cell<'a, T: Texts + Sync, P: Post, K: Sink, W: Wait>(
    rt: &W,
    cell: &TurnCell<Book<K>>,
    worker: &mut Worker<'a, T, P, Pass<Book<K>>>,
)
    requires ready { IsReady (T.service worker.old.desk.replies.texts.now).setup cell.now worker.old.pass
        (P.scene worker.old.post) (P.faults worker.old.post) }
    ensures served { HasServed (T.service worker.old.desk.replies.texts.now) cell.now worker.old.pass worker.new.pass
        worker.new.end
        (P.scene worker.old.post) (P.scene worker.new.post) (P.faults worker.old.post) (P.faults worker.new.post) }
{
    let call = |pass: &mut Pass<Book<K>>, ask: Ask|
        requires { MayCall cell.now pass.now ask }
        ensures { IsCalled pass.entry.now pass.exit.now ask result }
    { call_cell(rt, cell, pass, ask) };
    let setup = worker.desk.replies.texts.setup();
    let pass = &mut worker.pass;
    let mut turns = AtCell {
        setup,
        cell,
        pass,
        call,
    };
    let end = serve_worker(&mut turns, &mut worker.post, &mut worker.desk);
    let AtCell {
        setup: _,
        cell: _,
        pass: _,
        call: _,
    } = turns;
    worker.end = end;
}
