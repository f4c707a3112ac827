//! A worker's turns at the cell over the book.

ghost use Rattle.std.specs.Prelude.{◌≡◌, ◌<◌, true, Option};
ghost use Rattle.turn_cell.specs.Facts.{CellFacts};
ghost use Rattle.policy_model.specs.Asks.{is_proper};
ghost use Rattle.monitor_book.specs.declared.opened.Opened.{Opened};
ghost use Rattle.session_turns.specs.Joins.{Joins, KeepsRights};
ghost use Rattle.session_turns.specs.Passes.{BookPass, IsCalled, IsCaller, IsPassAt, MayCall, rights_of};

use crate::turns::Turns;
use monitor_book::Book;
use outside::Sink;
use policy_model::{Ask, Event, Setup};
use std::sync::Wait;
use turn_cell::{Pass, TurnCell};

/// What contracts see as a pass of the cell over a book.
pub trait SeenPass {
    ghost facts: { Self → BookPass };
}

impl<K: Sink> SeenPass for Pass<Book<K>> {
    ghost facts = { λ p. p };
}

/// What contracts see as a cell over a book.
pub trait SeenCell {
    ghost place: { Self → CellFacts (Option Opened) };
}

impl<K: Sink> SeenCell for TurnCell<Book<K>> {
    ghost place = { λ c. c };
}

/// The turns at a cell over a book, with a pass of it that is lent. `call` makes the calls: a closure over
/// `call_cell`, as in `ask_once`, since a method of a trait can't call the cell over any log itself.
pub struct AtCell<'a, C, P, F> {
    pub setup: &'a Setup,
    pub cell: &'a C,
    pub pass: &'a mut P,
    pub call: F,
}

impl<'a, C: SeenCell, P: SeenPass, F: Fn(&mut P, Ask) -> Event> Turns for AtCell<'a, C, P, F> {
    ghost use Rattle.std.specs.Prelude.{◌≡◌};
    ghost use Rattle.std.proofs.Common.{◌∙◌, refl};
    ghost use Rattle.session_turns.specs.Passes.{IsCaller, IsPassAt, seat_of};

    ghost may = { λ t. IsPassAt t.setup.now (C.place t.cell.now) (P.facts t.pass.now)
        × IsCaller F.Fn P.facts (C.place t.cell.now) t.call };

    ghost at = { λ t. seat_of t.setup.now (P.facts t.pass.now) };

    ghost keeps = { λ a b. (b.pass.ghost_name ≡ a.pass.ghost_name) × (b.cell.now ≡ a.cell.now) };

    fn ask(&mut self, ask: Ask) -> Event {
        (self.call)(self.pass, ask)
    }

    ghost keeps_none = { λ a. (refl, refl) };

    ghost keeps_then = { λ a b c p q. (q.0 ∙ p.0, q.1 ∙ p.1) };
}

/// A call of the cell, as `AtCell::call` makes it.
pub fn call_cell<K: Sink, W: Wait>(
    rt: &W,
    cell: &TurnCell<Book<K>>,
    pass: &mut Pass<Book<K>>,
    ask: Ask,
) -> Event
    requires { MayCall cell.now pass.old ask }
    ensures { IsCalled pass.old pass.new ask result }
{
    cell.call(rt, pass, ask)
}

/// Makes one ask with a pass: the turns over it are built, used, and taken apart, which shows how a worker's
/// whole round is wrapped.
pub fn ask_once<K: Sink, W: Wait>(
    rt: &W,
    setup: &Setup,
    cell: &TurnCell<Book<K>>,
    pass: &mut Pass<Book<K>>,
    ask: Ask,
) -> Event
    requires may { IsPassAt setup.now cell.now pass.old }
    requires room { 0 < (rights_of pass.old).left }
    requires proper { is_proper ask ≡ true }
    ensures may { IsPassAt setup.now cell.now pass.new }
    ensures joins { Joins setup.now pass.old.number ask pass.old.seen pass.new.seen result }
    ensures rights { KeepsRights 1 (rights_of pass.old) (rights_of pass.new) }
{
    let call = |pass: &mut Pass<Book<K>>, ask: Ask|
        requires { MayCall cell.now pass.now ask }
        ensures { IsCalled pass.entry.now pass.exit.now ask result }
    { call_cell(rt, cell, pass, ask) };
    let mut turns = AtCell {
        setup,
        cell,
        pass,
        call,
    };
    let event = turns.ask(ask);
    let AtCell {
        setup: _,
        cell: _,
        pass: _,
        call: _,
    } = turns;
    event
}
