//! The cell over a book, from an empty book to the whole history.

ghost use Rattle.std.specs.Prelude.{◌≡◌, [], IfErr, IfOk, Some};
ghost use Rattle.std.specs.List.{All};
ghost use Rattle.policy_model.specs.Settings.{quota_of};
ghost use Rattle.session_core.specs.Parts.{setup_of};
ghost use Rattle.session_turns.specs.Passes.{IsHeldBy, IsPassAt, OwnsAll, opened_of};
ghost use Rattle.turn_cell.specs.Facts.{AreAllPasses, AreNewPasses, IsCellOf};

use monitor_book::Book;
use outside::Sink;
use std::alloc::{AllocError, Global};
use turn_cell::{Pass, TurnCell};

/// The cell over an empty book, and its passes, one for each worker: their places are their numbers, and
/// each may make asks.
///
/// # Errors
///
/// There isn't the memory: the book comes back as it was.
pub fn open_cell<K: Sink>(
    alloc: Global,
    book: Book<K>,
) -> Result<(TurnCell<Book<K>>, Vec<Pass<Book<K>>>), (Book<K>, AllocError)>
    requires empty { book.journal ≡ [] }
    ensures cell { let setup = setup_of book.core in
        IfOk result (λ r. IsCellOf r.0 (Some (opened_of book)) setup.workers (quota_of setup)) }
    ensures new { IfOk result (λ r. AreNewPasses r.0 r.1.items) }
    ensures may { IfOk result (λ r. All (IsPassAt (setup_of book.core) r.0) r.1.items) }
    ensures back { IfErr result (λ e. e.0 ≡ book) }
{
    TurnCell::new(alloc, book)
}

/// The book with all events, given back for all passes of its cell, in any order. A worker's places by what
/// its pass has seen are its places by the whole journal.
pub fn close_cell<K: Sink>(cell: TurnCell<Book<K>>, passes: Vec<Pass<Book<K>>>) -> Book<K>
    requires all { AreAllPasses cell passes.items }
    requires own { All OwnsAll passes.items }
    ensures cell { cell.terms ≡ Some (opened_of result) }
    ensures passes { All (IsHeldBy result.journal) passes.items }
{
    cell.close(passes)
}
