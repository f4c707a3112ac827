//! All memory of a run, taken before it listens.

ghost use Rattle.std.specs.Prelude.{◌≡◌, [], ℕ, All, IfErr, IfOk, Some, length};
ghost use Rattle.monitor_book.specs.declared.opened.Held.{Held};
ghost use Rattle.monitor_book.specs.Lines.{held_by};
ghost use Rattle.monitor_run.specs.Prepared.{LogStays};
ghost use Rattle.policy_model.specs.Settings.{quota_of};
ghost use Rattle.session_core.specs.Parts.{setup_of};
ghost use Rattle.turn_cell.specs.Facts.{AreNewPasses, IsCellOf};

use crate::worker::Worker;
use monitor_book::Book;
use outside::{Post, Sink};
use policy_model::Setup;
use session_asking::Texts;
use session_core::Core;
use session_loop::Desk;
use session_turns::{close_cell, open_cell};
use std::alloc::{AllocError, Global};
use std::marker::Model;
use turn_cell::{Pass, TurnCell};

/// A run before it listens: all of its memory is taken.
#[derive(Drop)]
pub struct Prepared<'a, T: Texts + Sync, P: Post, K: Sink> {
    pub(crate) texts: &'a T,
    pub(crate) cell: TurnCell<Book<K>>,
    pub(crate) passes: Vec<Pass<Book<K>>>,
    pub(crate) desks: Vec<Desk<'a, T>>,
    pub(crate) workers: Vec<Worker<'a, T, P, Pass<Book<K>>>>,
}

impl<'a, T: Texts + Sync, P: Post, K: Sink> Model for Prepared<'a, T, P, K> {
    ghost use Rattle.std.specs.Prelude.{◌≡◌, All, length, vec_capacity};
    ghost use Rattle.monitor_run.specs.Prepared.{IsPrepared, Preparation};

    ghost Value = { Preparation };

    ghost view = { λ p. record { service = T.service p.texts.now; opened = p.cell.terms } };

    ghost invariant = { λ p. IsPrepared (T.service p.texts.now) p.cell p.passes.items (length p.desks.items)
        (length p.workers.items) (vec_capacity p.workers)
        × All (λ d. T.service d.replies.texts.now ≡ T.service p.texts.now) p.desks.items };
}

/// The memory of each worker that answers from these texts.
fn desks_of<'a, T: Texts + Sync>(
    alloc: Global,
    texts: &'a T,
) -> Result<Vec<Desk<'a, T>>, AllocError>
    ensures count { IfOk result (λ desks. length desks.items ≡ (T.service texts.now).setup.workers) }
    ensures each { IfOk result
        (λ desks. All (λ d. T.service d.replies.texts.now ≡ T.service texts.now) desks.items) }
{
    let mut desks = Vec::with_capacity(alloc, texts.setup().workers() as usize)?;
    for _ in 0..texts.setup().workers() {
        desks.push(Desk::new(alloc, texts)?)?;
    }
    Ok(desks)
}

/// The cell over an empty book, with its passes; or, where there isn't the memory, the log.
fn cell_of<K: Sink>(
    alloc: Global,
    setup: &Setup,
    log: K,
) -> Result<(TurnCell<Book<K>>, Vec<Pass<Book<K>>>), K>
    ensures cell { IfOk result
        (λ r. IsCellOf r.0 (Some (record {
          setup = setup.now;
          held = held_by K.held K.lengths log;
          faults = K.faults log;
        })) setup.now.workers (quota_of setup.now)) }
    ensures new { IfOk result (λ r. AreNewPasses r.0 r.1.items) }
    ensures back { IfErr result (λ back. LogStays (held_by K.held K.lengths log) (held_by K.held K.lengths back)
        (K.faults log) (K.faults back)) }
{
    let book = book_of(alloc, setup, log)?;
    match open_cell(alloc, book) {
        Ok(opened) => Ok(opened),
        Err((book, _)) => Err(log_of(book)),
    }
}

/// An empty book of a setup; or, where there isn't the memory, the log as it was.
fn book_of<K: Sink>(alloc: Global, setup: &Setup, log: K) -> Result<Book<K>, K>
    ensures empty { IfOk result (λ book. book.journal ≡ []) }
    ensures setup { IfOk result (λ book. setup_of book.core ≡ setup.now) }
    ensures held { IfOk result (λ book. (book.held_first ≡ held_by K.held K.lengths log)
        × (book.held ≡ held_by K.held K.lengths log)) }
    ensures faults { IfOk result (λ book. (book.faults_first ≡ K.faults log) × (book.faults ≡ K.faults log)) }
    ensures back { IfErr result (λ back. back ≡ log) }
{
    let Ok(core) = Core::new(alloc, setup, setup.events_max() as u32) else {
        return Err(log);
    };
    match Book::new(alloc, core, log) {
        Ok(book) => Ok(book),
        Err((_core, log, _)) => Err(log),
    }
}

/// The log of a book that isn't needed.
fn log_of<K: Sink>(book: Book<K>) -> K
    ensures held { held_by K.held K.lengths result ≡ book.held }
    ensures faults { K.faults result ≡ book.faults }
{
    let (_core, _journal, log) = book.parts();
    log
}

/// Takes all memory of a run that answers from these texts and writes to a log. Where there isn't the memory,
/// the log comes back.
pub fn prepare<'a, T: Texts + Sync, P: Post, K: Sink>(
    alloc: Global,
    texts: &'a T,
    log: K,
) -> Result<Prepared<'a, T, P, K>, K>
    ensures service { IfOk result (λ p. p.service ≡ T.service texts.now) }
    ensures opened { IfOk result (λ p. p.opened ≡ Some (record {
      setup = (T.service texts.now).setup;
      held = held_by K.held K.lengths log;
      faults = K.faults log;
    })) }
    ensures back { IfErr result (λ back. LogStays (held_by K.held K.lengths log) (held_by K.held K.lengths back)
        (K.faults log) (K.faults back)) }
{
    let Ok(desks) = desks_of(alloc, texts) else {
        return Err(log);
    };
    let Ok(workers) = Vec::with_capacity(alloc, desks.len()) else {
        return Err(log);
    };
    let (cell, passes) = cell_of(alloc, texts.setup(), log)?;
    Ok(Prepared {
        texts,
        cell,
        passes,
        desks,
        workers,
    })
}

impl<'a, T: Texts + Sync, P: Post, K: Sink> Prepared<'a, T, P, K> {
    /// Gives a run up that nobody was served by: its log, as it was.
    pub fn give_up(self) -> K
        ensures { (held : Held) (faults : ℕ) → self.entry.opened
            ≡ Some (record { setup = self.entry.service.setup; held = held; faults = faults })
            → LogStays held (held_by K.held K.lengths result) faults (K.faults result) }
    {
        let Prepared { cell, passes, .. } = self;
        let (_core, _journal, log) = close_cell(cell, passes).parts();
        log
    }
}
