ghost use Rattle.std.specs.Prelude.{◌≡◌, ◌<◌, [], IfOk};
ghost use Rattle.session_turns.specs.Joins.{KeepsRights};
ghost use Rattle.session_turns.specs.Passes.{IsCalled, IsPassAt, MayCall, rights_of};

use monitor_book::Book;
use outside_memory::MemSink;
use policy_model::{Ask, Decision, Setup, Why};
use session_core::Core;
use session_turns::{AtCell, Turns, call_cell, close_cell, open_cell};
use std::alloc::Global;
use std::sync::Wait;
use std::test::*;
use turn_cell::{Pass, TurnCell};

/// An empty book over a setup.
fn book_of(alloc: Global, setup: &Setup) -> Result<Book<MemSink>, Fail>
    ensures empty { IfOk result (λ book. book.journal ≡ []) }
    ensures setup { IfOk result (λ book. book.core.ledger.setup ≡ setup.now) }
{
    let log = MemSink::new(alloc, &[])?;
    let core = Core::new(alloc, setup, setup.events_max() as u32)?;
    match Book::new(alloc, core, log) {
        Ok(book) => Ok(book),
        Err(_) => Err(Fail::from("memory")),
    }
}

/// Begins a session and ends it, by any turns; whether both were permitted.
fn serve<A: Turns>(turns: &mut A) -> bool
    requires may { A.may turns.old }
    requires room { 1 < (A.at turns.old).rights.left }
    ensures rights { KeepsRights 2 (A.at turns.old).rights (A.at turns.new).rights }
    ensures turns { A.keeps turns.old turns.new × ((A.at turns.new).setup ≡ (A.at turns.old).setup) × A.may turns.new }
{
    let first = turns.ask(Ask::Begin);
    let last = turns.ask(Ask::End { why: Why::Finished });
    first.decision == Decision::Permit { value: 1 }
        && last.decision == Decision::Permit { value: 0 }
}

/// The same with a pass of the cell.
fn serve_at_cell<W: Wait>(
    rt: &W,
    setup: &Setup,
    cell: &TurnCell<Book<MemSink>>,
    pass: &mut Pass<Book<MemSink>>,
) -> bool
    requires may { IsPassAt setup.now cell.now pass.old }
    requires room { 1 < (rights_of pass.old).left }
    ensures may { IsPassAt setup.now cell.now pass.new }
    ensures number { pass.new.number ≡ pass.old.number }
{
    let call = |pass: &mut Pass<Book<MemSink>>, ask: Ask|
        requires { MayCall cell.now pass.now ask }
        ensures { IsCalled pass.entry.now pass.exit.now ask result }
    { call_cell(rt, cell, pass, ask) };
    let mut turns = AtCell {
        setup,
        cell,
        pass,
        call,
    };
    let permitted = serve(&mut turns);
    let AtCell {
        setup: _,
        cell: _,
        pass: _,
        call: _,
    } = turns;
    permitted
}

/// Whether the book has two events, and the log their lines.
fn is_written(book: Book<MemSink>) -> bool {
    let (_core, journal, log) = book.parts();
    let text = b"1 w0 s1 open permit\n2 w0 s1 end finished permit\n";
    journal.len() == 2 && log.held() == text.as_slice()
}

/// The worked example: a session of the only worker begins and ends.
#[test]
fn a_session_begins_and_ends(rt: HostRuntime) -> Result<(), Fail> {
    let setup = Setup::plain(rt.alloc())?;
    let book = book_of(rt.alloc(), &setup)?;
    let Ok((cell, mut passes)) = open_cell(rt.alloc(), book) else {
        return Err(Fail::from("memory"));
    };
    let permitted = serve_at_cell(&rt, &setup, &cell, &mut passes[0]);
    let written = is_written(close_cell(cell, passes));
    assert!(rt; permitted && written);
    Ok(())
}
